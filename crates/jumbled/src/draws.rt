// The draws: a small generator of numbers, and the calls that it jumbles.

use crate::calls::Call;
use crate::maps::{AnyMap, Books};
use books::Book;
use carriers::{Fence, Line};
use costs::{Cost, cost};

// How far the request has come, as the list keeps account of it.
#[derive(Clone, Copy)]
pub(crate) enum Standing {
    Idle,
    Opened,
    Crossed,
    Finished,
}

impl Standing {
    // Where in the chain a call puts its map: at the start, or at the spot that is its own once a map was crossed.
    fn spot(self, own: Spot) -> Spot {
        match self {
            Standing::Crossed => own,
            _ => Spot::First,
        }
    }
}

// Where in the chain a map stands, the destination's first.
#[derive(Clone, Copy)]
enum Spot {
    First,
    Middle,
    Last,
}

// A linear congruential generator, and the books that it draws from. Each draw goes by a remainder of the next number.
#[derive(Drop)]
pub(crate) struct Dice<'a> {
    state: u32,
    books: Books<'a>,
}

impl<'a> Dice<'a> {
    pub(crate) fn new(seed: u32, books: Books<'a>) -> Dice<'a> {
        Dice { state: seed, books }
    }

    // The next number: the higher 16 bits of the state.
    fn next(&mut self) -> u32 {
        self.state = self
            .state
            .wrapping_mul(1_664_525)
            .wrapping_add(1_013_904_223);
        self.state >> 16
    }

    // Whether a call is handed the other memory, as one in eight is.
    pub(crate) fn other_memory(&mut self) -> bool {
        self.next() % 8 == 0
    }

    // A call with its values. Three in four are calls that the request may accept.
    pub(crate) fn call(&mut self, standing: Standing) -> Call<'a> {
        if self.next() % 4 == 0 {
            return self.any_call(standing);
        }
        match standing {
            Standing::Idle => self.open(),
            Standing::Opened | Standing::Crossed => self.open_call(standing),
            Standing::Finished => Call::Withdraw,
        }
    }

    // It and open_call draw by other odds, and one function with a table of odds would be no plainer.
    fn any_call(&mut self, standing: Standing) -> Call<'a> {
        match self.next() % 8 {
            0 | 1 => self.open(),
            2..=4 => self.cross(standing),
            5 | 6 => self.finish(standing),
            _ => Call::Withdraw,
        }
    }

    // A call that an open request may accept.
    fn open_call(&mut self, standing: Standing) -> Call<'a> {
        match self.next() % 8 {
            0..=4 => self.cross(standing),
            5 | 6 => self.finish(standing),
            _ => Call::Withdraw,
        }
    }

    fn open(&mut self) -> Call<'a> {
        Call::Open {
            bounds: self.bounds(),
            destination: self.destination(),
        }
    }

    fn cross(&mut self, standing: Standing) -> Call<'a> {
        Call::Cross(self.map(standing.spot(Spot::Middle)))
    }

    fn finish(&mut self, standing: Standing) -> Call<'a> {
        Call::Finish {
            map: self.map(standing.spot(Spot::Last)),
            source: self.source(),
        }
    }

    // Bounds, of which one in eight may not bound.
    fn bounds(&mut self) -> Cost {
        let delay = if self.next() % 8 == 0 {
            1_000_000_000
        } else {
            8 + self.next() % 16
        };
        cost(delay, 8 + self.next() % 16)
    }

    // A destination, one in sixteen no node of any map. The odds are other than a source's.
    fn destination(&mut self) -> u16 {
        match self.next() % 16 {
            0..=4 => 0,
            5..=8 => 1,
            9..=14 => 2,
            _ => 4,
        }
    }

    // A source, one in eight no node of any map.
    fn source(&mut self) -> u16 {
        match self.next() % 8 {
            0..=4 => 0,
            5 => 1,
            6 => 2,
            _ => 4,
        }
    }

    // Three in four in the middle of a chain are lines, so that many routes go on.
    fn map(&mut self, spot: Spot) -> AnyMap<'a> {
        match spot {
            Spot::Middle if self.next() % 4 != 0 => AnyMap::Line(self.line()),
            _ => self.any_map(spot),
        }
    }

    fn any_map(&mut self, spot: Spot) -> AnyMap<'a> {
        match self.next() % 4 {
            0 => AnyMap::Line(self.line()),
            1 => AnyMap::FencedLine(Fence {
                map: self.line(),
                limit: self.limit(),
            }),
            2 => {
                let (position, book) = self.book(spot);
                AnyMap::Book(position, book)
            }
            _ => {
                let (position, map) = self.book(spot);
                let limit = self.limit();
                AnyMap::FencedBook(position, Fence { map, limit })
            }
        }
    }

    fn line(&mut self) -> Line<Cost> {
        let nodes = (1 + self.next() % 4) as usize;
        let delay = self.next() % 3;
        let weight = cost(delay, self.next() % 3);
        Line::new(nodes, weight).unwrap()
    }

    fn limit(&mut self) -> Cost {
        let delay = 2 + self.next() % 4;
        cost(delay, 2 + self.next() % 4)
    }

    // A book with its position. Book 0 leads nowhere onward and book 1 has no entry, so each is mostly drawn where
    // routes can use it.
    fn book(&mut self, spot: Spot) -> (usize, Book<'a>) {
        match (spot, self.next() % 4) {
            (Spot::First, 1..) | (Spot::Middle | Spot::Last, 0) => (0, self.books.first),
            _ => (1, self.books.second),
        }
    }
}
