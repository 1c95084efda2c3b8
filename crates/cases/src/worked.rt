// The worked chain of two carriers, a fence over it, and a line.

use crate::account::crossed;
use books::Book;
use carriers::{Fence, Line, Map, Refusal};
use costs::{Amounts, Cost, cost};
use crossing::{Before, Marks, Scope};
use std::io;
use stepping::Label;

// Book 0: 3 nodes, entries 0 and 1; links 0 to 2 (5, 1), 0 to 1 (1, 1), 1 to 2 (2, 3), 1 to 2 (2, 4).
const BOOK_0: [u8; 111] = [
    0x4c, 0x4e, 0x4b, 0x00, 0x01, 0x00, 0x03, 0x00, 0x04, 0x00, 0x02, 0x00, 0x00, 0x00, 0x01, 0x00,
    0x00, 0x00, 0x00, 0x00, 0x02, 0x00, 0x00, 0x00, 0x00, 0x00, 0x05, 0x00, 0x00, 0x00, 0x01, 0x00,
    0x00, 0x03, 0xe8, 0x00, 0x00, 0x00, 0x00, 0x00, 0x00, 0x00, 0x00, 0x00, 0x01, 0x00, 0x00, 0x00,
    0x00, 0x00, 0x01, 0x00, 0x00, 0x00, 0x01, 0x00, 0x00, 0x03, 0xe8, 0x00, 0x00, 0x00, 0x00, 0x00,
    0x01, 0x00, 0x00, 0x00, 0x02, 0x00, 0x00, 0x00, 0x00, 0x00, 0x02, 0x00, 0x00, 0x00, 0x03, 0x00,
    0x00, 0x03, 0xe8, 0x00, 0x00, 0x00, 0x00, 0x00, 0x01, 0x00, 0x00, 0x00, 0x02, 0x00, 0x00, 0x00,
    0x00, 0x00, 0x02, 0x00, 0x00, 0x00, 0x04, 0x00, 0x00, 0x03, 0xe8, 0x00, 0x00, 0x00, 0x00,
];

// Book 1: 2 nodes; links 0 to 1 (1, 0), 0 onward to 0 (2, 2), 1 onward to 1 (3, 0), 1 to 0 (0, 0).
const BOOK_1: [u8; 107] = [
    0x4c, 0x4e, 0x4b, 0x00, 0x01, 0x00, 0x02, 0x00, 0x04, 0x00, 0x00, 0x00, 0x00, 0x00, 0x00, 0x00,
    0x01, 0x00, 0x00, 0x00, 0x00, 0x00, 0x01, 0x00, 0x00, 0x00, 0x00, 0x00, 0x00, 0x03, 0xe8, 0x00,
    0x00, 0x00, 0x00, 0x00, 0x00, 0x01, 0x00, 0x00, 0x00, 0x00, 0x00, 0x00, 0x00, 0x00, 0x02, 0x00,
    0x00, 0x00, 0x02, 0x00, 0x00, 0x03, 0xe8, 0x00, 0x00, 0x00, 0x00, 0x00, 0x01, 0x01, 0x00, 0x00,
    0x01, 0x00, 0x00, 0x00, 0x00, 0x00, 0x03, 0x00, 0x00, 0x00, 0x00, 0x00, 0x00, 0x03, 0xe8, 0x00,
    0x00, 0x00, 0x00, 0x00, 0x01, 0x00, 0x00, 0x00, 0x00, 0x00, 0x00, 0x00, 0x00, 0x00, 0x00, 0x00,
    0x00, 0x00, 0x00, 0x00, 0x00, 0x03, 0xe8, 0x00, 0x00, 0x00, 0x00,
];

// The two carriers of the worked chain.
#[derive(Clone, Copy)]
pub(crate) struct Books {
    pub(crate) first: Book<'static>,
    pub(crate) second: Book<'static>,
}

impl Books {
    pub(crate) fn read() -> Result<Books, Refusal> {
        Ok(Books {
            first: Book::read(&BOOK_0)?,
            second: Book::read(&BOOK_1)?,
        })
    }
}

// A crossing in unused memory, which starts from the destination.
fn from_destination(bounds: Cost, destination: u16, marks: Marks) -> Scope<Cost> {
    Scope {
        bounds,
        used: 0,
        before: Before::Destination(destination),
        marks,
    }
}

// Two carriers one behind the other, from node 0 of the second to the destination in the first.
fn both<F: Map<Cost>, S: Map<Cost>>(
    rt: &impl Print,
    first: &F,
    second: &S,
    bounds: Cost,
    destination: u16,
    memory: &mut [Label<Cost>],
) -> io::Result<()> {
    let scope = from_destination(bounds, destination, Marks::Entries);
    let run = crossed(rt, "carrier 0", first, scope, memory)?;
    let scope = Scope {
        bounds,
        used: run.length,
        before: Before::Run(run),
        marks: Marks::Only(0),
    };
    crossed(rt, "carrier 1", second, scope, memory)?;
    Ok(())
}

// Both carriers, from node 0 of the second to node 2 of the first, in two memories.
pub(crate) fn chain(rt: &impl Print, books: &Books) -> io::Result<()> {
    let bounds = cost(8, 6);
    println!(rt; "worked chain within {}", Amounts(bounds))?;
    let Books { first, second } = books;
    both(rt, first, second, bounds, 2, &mut [Label::blank(); 7])?;
    println!(rt; "the same with one label fewer")?;
    both(rt, first, second, bounds, 2, &mut [Label::blank(); 6])
}

// The first carrier alone, with the destination as the source.
pub(crate) fn alone(rt: &impl Print, books: &Books) -> io::Result<()> {
    let bounds = cost(3, 6);
    println!(rt; "carrier 0 alone within {}", Amounts(bounds))?;
    let scope = from_destination(bounds, 2, Marks::Only(2));
    crossed(
        rt,
        "carrier 0",
        &books.first,
        scope,
        &mut [Label::blank(); 7],
    )?;
    Ok(())
}

// A fence takes the direct link away, whose delay is 5.
pub(crate) fn fenced(rt: &impl Print, books: &Books) -> io::Result<()> {
    let limit = cost(4, 4);
    println!(rt; "carrier 0 behind a fence at {}", Amounts(limit))?;
    let scope = from_destination(cost(8, 6), 2, Marks::Entries);
    let map = Fence {
        map: books.first,
        limit,
    };
    crossed(rt, "carrier 0", &map, scope, &mut [Label::blank(); 7])?;
    Ok(())
}

// A line of three nodes after a line of two, every link with delay 1 and fee 2.
pub(crate) fn lines(rt: &impl Print) -> io::Result<()> {
    let bounds = cost(8, 8);
    println!(rt; "two lines within {}", Amounts(bounds))?;
    let first = Line::new(2, cost(1, 2)).unwrap();
    let second = Line::new(3, cost(1, 2)).unwrap();
    both(rt, &first, &second, bounds, 1, &mut [Label::blank(); 16])
}
