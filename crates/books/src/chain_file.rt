// A chain file: a header, then one book for each carrier of the chain, the destination's first.

ghost use Rattle.std.specs.Prelude.{◌≡◌, ◌^◌, ◌<◌, length, None, IfOk};
ghost use Rattle.std.specs.Option.{option_map};
ghost use Rattle.std.specs.List.{slice_get};
ghost use Rattle.books.specs.ChainLayout.{books_fault, chain_of, Complete};
ghost use Rattle.carriers.specs.Rules.{judged};

use crate::bounds::Bounds;
use crate::header::Header;
use crate::layout::{Book, sound_size};
use crate::walk::Books;
use carriers::Refusal;

// What a chain file says; `books` holds the books one after the other, so many as there are carriers.
#[derive(Clone, Copy)]
pub struct Chain<'a> {
    header: Header,
    books: &'a [u8],
    ghost sound: { books_fault header.carriers books.now ≡ None },
}

impl<'a> Chain<'a> {
    ghost use Rattle.books.specs.Told.{told_chain, contents_of, bytes_of, books_left};

    // The chain that the file `bytes` describes, or the first refusal from left to right.
    pub fn read(bytes: &'a [u8]) -> Result<Chain<'a>, Refusal>
        ensures answer { told_chain result ≡ chain_of bytes.now }
        ensures complete { IfOk result (λ c. Complete bytes.now (contents_of c)) }
    {
        let header = Header::read(bytes)?;
        let books = &bytes[27..];
        check_books(books, header.carriers)?;
        Ok(Chain { header, books })
    }

    pub fn bounds(&self) -> Bounds
        ensures { result ≡ (contents_of self.now).bounds }
    {
        self.header.bounds
    }

    // The destination, a node of the first carrier.
    pub fn destination(&self) -> u16
        ensures { result ≡ (contents_of self.now).destination }
    {
        self.header.destination
    }

    // The source, a node of the last carrier.
    pub fn source(&self) -> u16
        ensures { result ≡ (contents_of self.now).source }
    {
        self.header.source
    }

    pub fn carrier_count(&self) -> usize
        ensures { result ≡ length (contents_of self.now).books }
    {
        self.header.carriers as usize
    }

    // The books of the carriers, the destination's first.
    pub fn books(&self) -> Books<'a>
        ensures left { books_left result ≡ (contents_of self.now).books }
        ensures few { length (books_left result) < 2 ^ 8 }
    {
        Books {
            left: self.header.carriers,
            bytes: self.books,
        }
    }

    // The book of the carrier at `position`, 0 for the destination's.
    pub fn book(&self, position: usize) -> Option<Book<'a>>
        ensures { option_map bytes_of result ≡ slice_get (contents_of self.now).books position }
    {
        if position >= self.carrier_count() {
            return None;
        }
        self.books().nth(position)
    }
}

// Whether `books` is `count` books and no byte more. A loop: a fold over the books would come to the same `?`.
fn check_books(books: &[u8], count: u8) -> Result<(), Refusal>
    ensures { result ≡ judged (books_fault count books.now) tt }
{
    let mut rest = books;
    for _i in 0..count {
        let size = sound_size(rest)?;
        rest = &rest[size..];
    }
    if rest.is_empty() {
        Ok(())
    } else {
        Err(Refusal::Length)
    }
}
