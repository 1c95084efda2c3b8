// The link record of a book.

ghost use Rattle.std.specs.Prelude.{◌≡◌, cond, nat_le};
ghost use Rattle.books.specs.BookLayout.{link_at, link_sound};
ghost use Rattle.books.specs.Bytes.{byte_at};
ghost use Rattle.books.specs.Records.{within};

use crate::numbers::{byte_at, u16_at, u32_at};
use carriers::Side;

// A link as its record tells it: delay in microseconds, fee in cents, width in Mbit/s, one bit for each colour.
#[derive(Clone, Copy)]
pub struct Link {
    pub tail: u16,
    pub side: Side,
    pub head: u16,
    pub delay: u32,
    pub fee: u32,
    pub width: u32,
    pub colours: u32,
}

impl Link {
    // What the record at the front of `bytes` tells, if its side is one of the two.
    pub(crate) fn read(bytes: &[u8]) -> Option<Link>
        ensures { result ≡ cond (nat_le (byte_at bytes.now 2) 1) (Some (link_at bytes.now 0)) None }
    {
        Some(Link {
            tail: u16_at(bytes, 0),
            side: Side::try_from(byte_at(bytes, 2)).ok()?,
            head: u16_at(bytes, 4),
            delay: u32_at(bytes, 8),
            fee: u32_at(bytes, 12),
            width: u32_at(bytes, 16),
            colours: u32_at(bytes, 20),
        })
    }

    // Whether its ends and its sums are in range, in a book of so many nodes. The head of a link that leads onward is
    // a node of another book.
    pub(crate) fn is_within(&self, nodes: u16) -> bool
        ensures { result ≡ within nodes self.now }
    {
        self.tail < nodes
            && (self.side == Side::Onward || self.head < nodes)
            && self.delay <= weights::ceiling()
            && self.fee <= weights::ceiling()
    }
}

// Whether the record at the front of `bytes` keeps the rules of its fields, in a book of so many nodes.
pub(crate) fn record_is_sound(bytes: &[u8], nodes: u16) -> bool
    ensures { result ≡ link_sound bytes.now nodes 0 }
{
    byte_at(bytes, 3) == 0
        && u16_at(bytes, 6) == 0
        && Link::read(bytes).is_some_and(|link| link.is_within(nodes))
}
