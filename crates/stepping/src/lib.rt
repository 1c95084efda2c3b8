// Stepping: the labels of a crossing, the rule that settles them one by one, and what a run of them says.

#![tactic(auto)]

ghost use Rattle.std.specs.Prelude.{◌≡◌, true, false};
ghost use Rattle.stepping.specs.Choice.{Choice};
ghost use Rattle.stepping.specs.Domain.{PerDomain};
ghost use Rattle.stepping.specs.Labels.{meant, blank, arrived};
ghost use Rattle.stepping.specs.Number.{Number};
ghost use Rattle.stepping.specs.Room.{Room, Ends};

use weights::Kind;

mod keyed;

pub use keyed::Keyed;

// The link of the destination's own label. A number and no Option, since a label has the fields that the docs name.
pub const NO_LINK: u16 = 65535;

// A label: a way from `node` with this weight is known. `link` is the place of its first link, and `next` the
// key of the label that the rest of it starts from; the destination's own label has link 65,535 and next 0.
// Onward links lead onto marked labels only, and only marked labels are listed. Labels name one another by key, since
// their memory is a slice that is lent.
#[derive(Clone, Copy)]
pub struct Label<W> {
    pub node: u16,
    pub weight: W,
    pub link: u16,
    pub next: usize,
    pub mark: bool,
}

impl<W: Kind> Label<W> {
    // The label of an unused place.
    pub fn blank() -> Label<W>
        ensures { meant W.Kind.means result ≡ blank W.Kind.algebra.neutral }
    {
        Label {
            node: 0,
            weight: W::neutral(),
            link: 0,
            next: 0,
            mark: false,
        }
    }

    // The label of the destination itself, which is this node.
    pub fn arrival(node: u16, mark: bool) -> Label<W>
        ensures { meant W.Kind.means result ≡ arrived W.Kind.algebra.neutral node mark }
    {
        Label {
            node,
            weight: W::neutral(),
            link: NO_LINK,
            next: 0,
            mark,
        }
    }
}

// Where the labels of one crossing stand in the memory.
#[derive(Clone, Copy, PartialEq, Eq, Debug)]
pub struct Run {
    pub start: usize,
    pub length: usize,
}

// What is settled next is the first of the candidates that count, for every kind of weight.
pub fn choice_stands<W: Kind>()
    ensures { Choice W.Kind.algebra }
{}

// What the labels of a run that ended say of the ways through the carrier, and how many they are.
pub fn crossing_stands<W: Kind>()
    ensures domain { PerDomain W.Kind.algebra }
    ensures number { Number W.Kind.algebra }
{}

// The run is the same for every number of free labels in which it fits, and with enough of them it ends.
pub fn room_stands<W: Kind>()
    ensures room { Room W.Kind.algebra }
    ensures ends { Ends W.Kind.algebra }
{}
