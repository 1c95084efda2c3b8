// Weight kinds: what a link costs or carries, how two weights along a route join, and which of two is better.

#![tactic(auto)]

ghost use Rattle.std.specs.Prelude.{◌≡◌};
ghost use Rattle.weights.specs.Algebra.{Algebra, Laws};

mod colour_sets;
mod pairs;
mod sums;
mod widths;

pub use colour_sets::Colours;
pub use pairs::Pair;
pub use sums::{Cents, Delay, Fee, Microseconds, Sum, ceiling};
pub use widths::Width;

// A kind of weight. Its meaning is an algebra that keeps every law of a weight kind; a value stands for
// the weight that `means` gives it, and each call answers by meanings. No call is refused.
pub trait Kind: Copy {
    ghost algebra: { Algebra };

    ghost laws: { Laws algebra };

    ghost means: { Self → algebra.Weight };

    // The weight of a route with no links.
    fn neutral() -> Self
        ensures { means result ≡ algebra.neutral };

    // The weight of `self` followed by `other`.
    fn join(self, other: Self) -> Self
        ensures { means result ≡ algebra.join (means self) (means other) };

    // Whether `self` is as good as `other`: it matches or beats it.
    fn as_good(self, other: Self) -> bool
        ensures { result ≡ algebra.good (means self) (means other) };

    // Whether `self` stands before `other` in the one order in which routes are settled and listed.
    fn before(self, other: Self) -> bool
        ensures { result ≡ algebra.before (means self) (means other) };

    // Whether `self` may serve as a request's bound.
    fn may_bound(self) -> bool
        ensures { result ≡ algebra.bound (means self) };
}

#[cfg(test)]
mod tests;
