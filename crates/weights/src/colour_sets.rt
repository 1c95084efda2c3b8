// Colours: the risk groups that a route runs through, one bit each; fewer is better.

ghost use Rattle.std.specs.Prelude.{Some, decimal};
ghost use Rattle.weights.specs.ColourSets.{colour_sets};
ghost use Rattle.weights.specs.ColourLaws.{colour_laws};

use crate::Kind;
use std::fmt;

// A set of up to 32 risk groups, group i present where bit i is set.
#[derive(Clone, Copy, PartialEq, Eq, Debug)]
pub struct Colours {
    pub bits: u32,
}

impl Kind for Colours {
    ghost algebra = { colour_sets };

    ghost laws = { colour_laws };

    ghost means = { λ c. c.bits };

    fn neutral() -> Colours {
        Colours { bits: 0 }
    }

    fn join(self, other: Colours) -> Colours {
        Colours {
            bits: self.bits | other.bits,
        }
    }

    fn as_good(self, other: Colours) -> bool {
        self.bits & other.bits == self.bits
    }

    fn before(self, other: Colours) -> bool {
        self.bits < other.bits
    }

    fn may_bound(self) -> bool {
        true
    }
}

// The bits as one number, in decimal digits.
impl fmt::Display for Colours {
    ghost output = { λ c. Some (decimal c.bits) };

    fn fmt<W: fmt::Write>(&self, f: &mut fmt::Formatter<W>) -> fmt::Result {
        write!(f, "{}", self.bits)
    }
}
