// A book as a map, for every kind of weight that a book can carry.

ghost use Rattle.std.specs.Prelude.{◌≡◌};
ghost use Rattle.carriers.specs.Carrier.{meant};
ghost use Rattle.carriers.specs.CarrierLaws.{meant_sound};
ghost use Rattle.books.specs.BookCarrier.{book_carrier};
ghost use Rattle.books.specs.BookCarrierLaws.{book_carrier_sound};
ghost use Rattle.books.specs.Told.{bytes_of};

use crate::kinds::BookKind;
use crate::layout::Book;
use carriers::{Map, Side};

impl<W: BookKind> Map<W> for Book<'_> {
    ghost carrier = { λ b. meant W.BookKind.reads (book_carrier (bytes_of b)) };

    ghost sound = { λ b. meant_sound W.BookKind.reads (book_carrier (bytes_of b)) (book_carrier_sound (bytes_of b)) };

    fn node_count(&self) -> usize {
        Book::node_count(self) as usize
    }

    fn place_count(&self) -> usize {
        self.link_count() as usize
    }

    fn is_entry(&self, node: u16) -> bool {
        Book::is_entry(self, node)
    }

    fn link(&self, place: usize) -> Option<(u16, Side, u16)> {
        Book::link(self, place).map(|link| (link.tail, link.side, link.head))
    }

    fn weight(&self, place: usize) -> W {
        Book::link(self, place).map_or(W::neutral(), |link| {
            W::read(&[link.delay, link.fee, link.width, link.colours])
        })
    }
}
