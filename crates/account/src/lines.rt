// The lines of an account: a heading on the whole chain, then one line for each carrier.

ghost use Rattle.std.specs.Prelude.{◌≡◌, Some};
ghost use Rattle.books.specs.Told.{bytes_of, contents_of};
ghost use Rattle.account.specs.Texts.{selection_text, limits_text, heading_of, heading_text, carrier_text, carriers_text};
ghost use Rattle.account.specs.Lines.{line_text};

use books::{Book, Bounds, Chain};
use carriers::Side;
use std::fmt;

// What is said of the whole chain.
#[derive(Clone, Copy)]
pub struct Heading {
    bounds: Bounds,
    carriers: usize,
    destination: u16,
    source: u16,
}

impl From<&Chain<'_>> for Heading {
    ghost from_gives = { λ chain h. heading_of h ≡ heading_text (contents_of chain.now) };

    fn from(chain: &Chain) -> Heading {
        Heading {
            bounds: chain.bounds(),
            carriers: chain.carrier_count(),
            destination: chain.destination(),
            source: chain.source(),
        }
    }
}

impl fmt::Display for Heading {
    ghost output = { λ h. Some (heading_of h) };

    fn fmt<W: fmt::Write>(&self, f: &mut fmt::Formatter<W>) -> fmt::Result {
        write!(
            f,
            "selection: {}\ncarriers: {}\n",
            selection_name(self.bounds),
            self.carriers
        )?;
        write!(
            f,
            "destination: node {} of carrier 0\nsource: node {} of carrier {}\n",
            self.destination,
            self.source,
            self.carriers.saturating_sub(1)
        )?;
        write!(f, "bounds: {}\n", Limits(self.bounds))
    }
}

fn selection_name(bounds: Bounds) -> &'static str
    ensures { result.now ≡ selection_text bounds }
{
    match bounds {
        Bounds::Delay(_) => "1 (delay)",
        Bounds::DelayFee(_) => "2 (delay and fee)",
        Bounds::All(_) => "3 (delay, fee, width and colours)",
    }
}

// The selected bounds by name. It wraps them, since a type of another crate is given its text there.
#[derive(Clone, Copy)]
struct Limits(Bounds);

impl fmt::Display for Limits {
    ghost output = { λ l. Some (limits_text l.0) };

    fn fmt<W: fmt::Write>(&self, f: &mut fmt::Formatter<W>) -> fmt::Result {
        match self.0 {
            Bounds::Delay(delay) => write!(f, "delay {delay} microseconds"),
            Bounds::DelayFee(bound) => write!(
                f,
                "delay {} microseconds, fee {} cents",
                bound.first, bound.second
            ),
            Bounds::All(bound) => write!(
                f,
                "delay {} microseconds, fee {} cents, width {} Mbit/s, colours {}",
                bound.first,
                bound.second.first,
                bound.second.second.first.mbits,
                bound.second.second.second
            ),
        }
    }
}

// What is said of one carrier.
#[derive(Clone, Copy)]
struct CarrierLine {
    position: usize,
    nodes: u16,
    entries: u16,
    links: u16,
    inside: usize,
    onward: usize,
}

impl CarrierLine {
    // A function and no `From`, since two values make a line.
    fn of(position: usize, book: &Book) -> CarrierLine
        ensures { line_text result ≡ carrier_text position (bytes_of book.now) }
    {
        CarrierLine {
            position,
            nodes: book.node_count(),
            entries: book.entry_count(),
            links: book.link_count(),
            inside: book.links_on(Side::Inside),
            onward: book.links_on(Side::Onward),
        }
    }
}

impl fmt::Display for CarrierLine {
    ghost output = { λ l. Some (line_text l) };

    fn fmt<W: fmt::Write>(&self, f: &mut fmt::Formatter<W>) -> fmt::Result {
        write!(
            f,
            "carrier {}: nodes {}, entries {}, links {} (inside {}, onward {})\n",
            self.position, self.nodes, self.entries, self.links, self.inside, self.onward
        )
    }
}

// One line for each carrier, the destination's first.
#[derive(Clone, Copy)]
pub struct CarrierLines<'a> {
    pub chain: Chain<'a>,
}

impl fmt::Display for CarrierLines<'_> {
    ghost output = { λ c. Some (carriers_text 0 (contents_of c.chain).books) };

    fn fmt<W: fmt::Write>(&self, f: &mut fmt::Formatter<W>) -> fmt::Result {
        for (position, book) in self.chain.books().enumerate() {
            write!(f, "{}", CarrierLine::of(position, &book))?;
        }
        Ok(())
    }
}
