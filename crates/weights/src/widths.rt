// Widths: a route is as wide as its narrowest link, and wider is better.

ghost use Rattle.std.specs.Prelude.{min, Some, decimal};
ghost use Rattle.weights.specs.Widths.{all, widths};
ghost use Rattle.weights.specs.Capped.{cut};
ghost use Rattle.weights.specs.WidthLaws.{width_laws};

use crate::Kind;
use std::fmt;

// A number of Mbit/s.
#[derive(Clone, Copy, PartialEq, Eq, Debug)]
pub struct Width {
    pub mbits: u32,
}

impl Kind for Width {
    ghost algebra = { widths all };

    ghost laws = { width_laws all };

    ghost means = { λ w. cut all w.mbits };

    fn neutral() -> Width {
        Width { mbits: u32::MAX }
    }

    fn join(self, other: Width) -> Width {
        Width {
            mbits: self.mbits.min(other.mbits),
        }
    }

    fn as_good(self, other: Width) -> bool {
        self.mbits >= other.mbits
    }

    fn before(self, other: Width) -> bool {
        self.mbits > other.mbits
    }

    fn may_bound(self) -> bool {
        true
    }
}

// The number of Mbit/s, in decimal digits.
impl fmt::Display for Width {
    ghost output = { λ w. Some (decimal (min w.mbits all)) };

    fn fmt<W: fmt::Write>(&self, f: &mut fmt::Formatter<W>) -> fmt::Result {
        // A local, since the proof knows the range of a local and not of a field.
        let mbits = self.mbits;
        write!(f, "{mbits}")
    }
}
