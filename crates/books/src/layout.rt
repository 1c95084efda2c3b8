// A book: one carrier's links, read where its bytes are.

ghost use Rattle.std.specs.Prelude.{◌≡◌, ◌≤◌, length, drop, None, IfOk};
ghost use Rattle.books.specs.BookCarrier.{is_entry, ShowsAll};
ghost use Rattle.books.specs.BookLayout.{node_count, link_count, entry_count, entry_at, entry_of, link_of, link_sound, link_start, entry_sound, entries_sound, links_sound, own, book_size, shape_fault, book_fault};
ghost use Rattle.books.specs.ChainLayout.{lone_book};
ghost use Rattle.carriers.specs.Rules.{judged};
ghost use Rattle.books.specs.Sides.{leads_to, links_on};

use crate::marks::check_mark;
use crate::numbers::{rest_at, u16_at};
use crate::records::{Link, record_is_sound};
use carriers::{MOST_NODES, MOST_PLACES, Refusal, Side};

// The bytes of one book, which are a book and no byte more.
#[derive(Clone, Copy)]
pub struct Book<'a> {
    bytes: &'a [u8],
    ghost sound: { book_fault bytes.now ≡ None },
    ghost whole: { length bytes.now ≡ book_size bytes.now },
}

// Where the link record at `place` begins, by the count of the entries.
fn link_start(bytes: &[u8], place: u16) -> usize
    ensures { result ≡ link_start bytes.now place }
{
    11 + 2 * u16_at(bytes, 9) as usize + 24 * place as usize
}

// The size of the book at the front of `bytes`, by its counts: one link more would begin there.
fn counted_size(bytes: &[u8]) -> usize
    ensures { result ≡ book_size bytes.now }
{
    link_start(bytes, u16_at(bytes, 7))
}

// The same size, where the bytes have the shape of a book.
fn checked_size(bytes: &[u8]) -> Result<usize, Refusal>
    ensures size { result ≡ judged (shape_fault bytes.now) (book_size bytes.now) }
    ensures within { IfOk result (λ n. n ≤ length bytes.now) }
{
    if bytes.len() < 11 {
        return Err(Refusal::Length);
    }
    check_mark(bytes, b"LNK")?;
    let nodes = u16_at(bytes, 5);
    let links = u16_at(bytes, 7);
    if nodes == 0 || nodes as usize > MOST_NODES || links as usize > MOST_PLACES {
        return Err(Refusal::Size);
    }
    let size = counted_size(bytes);
    if bytes.len() < size {
        return Err(Refusal::Length);
    }
    Ok(size)
}

// The same size, where the bytes begin with a book.
pub(crate) fn sound_size(bytes: &[u8]) -> Result<usize, Refusal>
    ensures size { result ≡ judged (book_fault bytes.now) (book_size bytes.now) }
    ensures within { IfOk result (λ n. n ≤ length bytes.now) }
{
    let size = checked_size(bytes)?;
    let book = &bytes[..size];
    if entries_are_sound(book) && links_are_sound(book) {
        Ok(size)
    } else {
        Err(Refusal::Field)
    }
}

fn entry_at(bytes: &[u8], i: u16) -> u16
    ensures { result ≡ entry_at bytes.now i }
{
    u16_at(bytes, 11 + 2 * i as usize)
}

// Whether the entries are nodes in strictly ascending order.
fn entries_are_sound(bytes: &[u8]) -> bool
    ensures { result ≡ entries_sound bytes.now }
{
    (0..u16_at(bytes, 9)).all(|i| entry_is_sound(bytes, i))
}

fn entry_is_sound(bytes: &[u8], i: u16) -> bool
    ensures { result ≡ entry_sound bytes.now i }
{
    let node = entry_at(bytes, i);
    node < u16_at(bytes, 5) && (i == 0 || entry_at(bytes, i - 1) < node)
}

// The bytes from the link record at `place` on.
fn record_at(bytes: &[u8], place: u16) -> &[u8]
    ensures { result.now ≡ drop (link_start bytes.now place) bytes.now }
{
    rest_at(bytes, link_start(bytes, place))
}

// Whether every link record keeps the rules of its fields.
fn links_are_sound(bytes: &[u8]) -> bool
    ensures { result ≡ links_sound bytes.now }
{
    (0..u16_at(bytes, 7)).all(|place| link_is_sound(bytes, place))
}

fn link_is_sound(bytes: &[u8], place: u16) -> bool
    ensures { result ≡ link_sound bytes.now (node_count bytes.now) (link_start bytes.now place) }
{
    record_is_sound(record_at(bytes, place), u16_at(bytes, 5))
}

fn leads_to(link: Option<Link>, side: Side) -> bool
    ensures { result ≡ leads_to side link }
{
    link.is_some_and(|link| link.side == side)
}

impl<'a> Book<'a> {
    ghost use Rattle.books.specs.Told.{told_book, bytes_of};

    // A book that is read alone: no byte may follow it.
    pub fn read(bytes: &'a [u8]) -> Result<Book<'a>, Refusal>
        ensures answer { told_book result ≡ lone_book bytes.now }
        ensures shown { IfOk result (λ b. ShowsAll (bytes_of b)) }
    {
        if sound_size(bytes)? < bytes.len() {
            return Err(Refusal::Length);
        }
        Ok(Book { bytes })
    }

    // The book that `bytes` begins with, and the bytes after it.
    pub(crate) fn split(bytes: &'a [u8]) -> (Book<'a>, &'a [u8])
        requires { book_fault bytes.now ≡ None }
        ensures book { bytes_of result.0 ≡ own bytes.now }
        ensures rest { result.1.now ≡ drop (book_size bytes.now) bytes.now }
    {
        let (front, rest) = bytes.split_at(counted_size(bytes));
        (Book { bytes: front }, rest)
    }

    pub fn node_count(&self) -> u16
        ensures { result ≡ node_count self.now.bytes.now }
    {
        u16_at(self.bytes, 5)
    }

    pub fn link_count(&self) -> u16
        ensures { result ≡ link_count self.now.bytes.now }
    {
        u16_at(self.bytes, 7)
    }

    pub fn entry_count(&self) -> u16
        ensures { result ≡ entry_count self.now.bytes.now }
    {
        u16_at(self.bytes, 9)
    }

    pub fn entry(&self, i: usize) -> Option<u16>
        ensures { result ≡ entry_of self.now.bytes.now i }
    {
        if i < self.entry_count() as usize {
            Some(entry_at(self.bytes, i as u16))
        } else {
            None
        }
    }

    // Whether it is a node and one of the entries.
    pub fn is_entry(&self, node: u16) -> bool
        ensures { result ≡ is_entry self.now.bytes.now node }
    {
        node < self.node_count() && (0..self.entry_count()).any(|i| entry_at(self.bytes, i) == node)
    }

    pub fn link(&self, place: usize) -> Option<Link>
        ensures { result ≡ link_of self.now.bytes.now place }
    {
        if place < self.link_count() as usize {
            Link::read(record_at(self.bytes, place as u16))
        } else {
            None
        }
    }

    // How many of its links lead to that side.
    pub fn links_on(&self, side: Side) -> usize
        ensures { result ≡ links_on side self.now.bytes.now (link_count self.now.bytes.now) }
    {
        (0..self.link_count() as usize)
            .filter(|place| leads_to(self.link(*place), side))
            .count()
    }
}
