// The reader of chain files and of the books in them. It borrows the bytes and copies nothing.

#![tactic(auto)]

mod book_map;
mod bounds;
mod chain_file;
mod header;
mod kinds;
mod layout;
mod marks;
mod numbers;
mod records;
mod walk;

pub use bounds::Bounds;
pub use chain_file::Chain;
pub use kinds::BookKind;
pub use layout::Book;
pub use records::Link;
pub use walk::Books;

#[cfg(test)]
mod tests;
