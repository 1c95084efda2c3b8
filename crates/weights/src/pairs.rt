// Pairs: two weights of any kinds side by side are again a weight.

ghost use Rattle.weights.specs.Pairs.{pairs};
ghost use Rattle.weights.specs.PairTexts.{spaced};
ghost use Rattle.weights.specs.PairLaws.{pair_laws};

use crate::Kind;
use std::fmt;

#[derive(Clone, Copy)]
pub struct Pair<F, S> {
    pub first: F,
    pub second: S,
}

impl<F: Kind, S: Kind> Kind for Pair<F, S> {
    ghost algebra = { pairs F.Kind.algebra S.Kind.algebra };

    ghost laws = { pair_laws F.Kind.algebra S.Kind.algebra F.Kind.laws S.Kind.laws };

    ghost means = { λ p. record { first = F.Kind.means p.first; second = S.Kind.means p.second } };

    fn neutral() -> Pair<F, S> {
        Pair {
            first: F::neutral(),
            second: S::neutral(),
        }
    }

    fn join(self, other: Pair<F, S>) -> Pair<F, S> {
        Pair {
            first: self.first.join(other.first),
            second: self.second.join(other.second),
        }
    }

    fn as_good(self, other: Pair<F, S>) -> bool {
        self.first.as_good(other.first) && self.second.as_good(other.second)
    }

    fn before(self, other: Pair<F, S>) -> bool {
        self.first.before(other.first)
            || (!other.first.before(self.first) && self.second.before(other.second))
    }

    fn may_bound(self) -> bool {
        self.first.may_bound() && self.second.may_bound()
    }
}

// The first part, a space, and the second part.
impl<F: fmt::Display, S: fmt::Display> fmt::Display for Pair<F, S> {
    ghost output = { λ p. spaced (F.Display.output p.first) (S.Display.output p.second) };

    fn fmt<W: fmt::Write>(&self, f: &mut fmt::Formatter<W>) -> fmt::Result {
        write!(f, "{} {}", self.first, self.second)
    }
}
