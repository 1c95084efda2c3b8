// The books of a chain, one after the other.

ghost use Rattle.std.specs.Prelude.{◌≡◌, None};
ghost use Rattle.books.specs.ChainLayout.{books_fault};

use crate::layout::Book;

// The books that are left to be gone through: how many, and their bytes one after the other.
#[derive(Drop)]
pub struct Books<'a> {
    pub(crate) left: u8,
    pub(crate) bytes: &'a [u8],
    ghost sound: { books_fault left bytes.now ≡ None },
}

impl<'a> Iterator for Books<'a> {
    ghost use Rattle.std.specs.Iterator.{item_count, YieldsFirstBy};
    ghost use Rattle.books.specs.Told.{bytes_of, books_left};

    type Item = Book<'a>;

    ghost next_gives = { YieldsFirstBy bytes_of books_left };

    ghost remaining = { item_count books_left };

    fn next(&mut self) -> Option<Book<'a>> {
        let left = self.left.checked_sub(1)?;
        let (book, rest) = Book::split(self.bytes);
        self.left = left;
        self.bytes = rest;
        Some(book)
    }
}
