// The maps of several sorts that the jumbled calls cross.

ghost use Rattle.jumbled.specs.declared.maps.AnyMap.TheVariants.{Line, FencedLine, Book, FencedBook};

use books::{Book, Chain};
use carriers::{Fence, Line, Map, Side};
use costs::{Amounts, Cost};
use std::fmt;

// The two books of the sample chain, as they lie in its file; those of `cases` lie in its text.
#[derive(Clone, Copy)]
pub(crate) struct Books<'a> {
    pub(crate) first: Book<'a>,
    pub(crate) second: Book<'a>,
}

impl<'a> Books<'a> {
    // None where the chain has only one carrier.
    pub(crate) fn of(chain: &Chain<'a>) -> Option<Books<'a>> {
        Some(Books {
            first: chain.book(0)?,
            second: chain.book(1)?,
        })
    }
}

// A line, or a book with its position in the sample chain, each as it is or behind a fence.
#[derive(Clone, Copy)]
pub(crate) enum AnyMap<'a> {
    Line(Line<Cost>),
    FencedLine(Fence<Line<Cost>, Cost>),
    Book(usize, Book<'a>),
    FencedBook(usize, Fence<Book<'a>, Cost>),
}

impl AnyMap<'_> {
    // The limit of the fence, if there is one.
    fn limit(&self) -> Option<Cost> {
        match self {
            AnyMap::Line(_) | AnyMap::Book(..) => None,
            AnyMap::FencedLine(fence) => Some(fence.limit),
            AnyMap::FencedBook(_, fence) => Some(fence.limit),
        }
    }
}

// Each question is passed on to the map that it is. Map can be no dyn here: a request's calls take a type parameter.
impl Map<Cost> for AnyMap<'_> {
    ghost carrier = { elim [
      | Line l ↦ ⟦<Line<Cost> as Map<Cost>>⟧.carrier l
      | FencedLine f ↦ ⟦<Fence<Line<Cost>, Cost> as Map<Cost>>⟧.carrier f
      | Book i b ↦ ⟦<Book<'static> as Map<Cost>>⟧.carrier b
      | FencedBook i f ↦ ⟦<Fence<Book<'static>, Cost> as Map<Cost>>⟧.carrier f
    ] };

    ghost sound = { elim [
      | Line l ↦ ⟦<Line<Cost> as Map<Cost>>⟧.sound l
      | FencedLine f ↦ ⟦<Fence<Line<Cost>, Cost> as Map<Cost>>⟧.sound f
      | Book i b ↦ ⟦<Book<'static> as Map<Cost>>⟧.sound b
      | FencedBook i f ↦ ⟦<Fence<Book<'static>, Cost> as Map<Cost>>⟧.sound f
    ] };

    fn node_count(&self) -> usize {
        match self {
            AnyMap::Line(line) => line.node_count(),
            AnyMap::FencedLine(fence) => fence.node_count(),
            AnyMap::Book(_, book) => Map::<Cost>::node_count(book),
            AnyMap::FencedBook(_, fence) => fence.node_count(),
        }
    }

    fn place_count(&self) -> usize {
        match self {
            AnyMap::Line(line) => line.place_count(),
            AnyMap::FencedLine(fence) => fence.place_count(),
            AnyMap::Book(_, book) => Map::<Cost>::place_count(book),
            AnyMap::FencedBook(_, fence) => fence.place_count(),
        }
    }

    fn is_entry(&self, node: u16) -> bool {
        match self {
            AnyMap::Line(line) => line.is_entry(node),
            AnyMap::FencedLine(fence) => fence.is_entry(node),
            AnyMap::Book(_, book) => Map::<Cost>::is_entry(book, node),
            AnyMap::FencedBook(_, fence) => fence.is_entry(node),
        }
    }

    fn link(&self, place: usize) -> Option<(u16, Side, u16)> {
        match self {
            AnyMap::Line(line) => line.link(place),
            AnyMap::FencedLine(fence) => fence.link(place),
            AnyMap::Book(_, book) => Map::<Cost>::link(book, place),
            AnyMap::FencedBook(_, fence) => fence.link(place),
        }
    }

    fn weight(&self, place: usize) -> Cost {
        match self {
            AnyMap::Line(line) => line.weight(place),
            AnyMap::FencedLine(fence) => fence.weight(place),
            AnyMap::Book(_, book) => book.weight(place),
            AnyMap::FencedBook(_, fence) => fence.weight(place),
        }
    }
}

// A line is written with its nodes and with the weight that all its links have.
impl fmt::Display for AnyMap<'_> {
    fn fmt<W: fmt::Write>(&self, f: &mut fmt::Formatter<W>) -> fmt::Result {
        match self {
            AnyMap::Line(line) | AnyMap::FencedLine(Fence { map: line, .. }) => {
                let weight = Amounts(line.weight(0));
                write!(f, "line (nodes {}, {weight})", line.node_count())?;
            }
            AnyMap::Book(position, _) | AnyMap::FencedBook(position, _) => {
                write!(f, "book {position}")?;
            }
        }
        match self.limit() {
            Some(limit) => write!(f, " behind fence ({})", Amounts(limit)),
            None => Ok(()),
        }
    }
}
