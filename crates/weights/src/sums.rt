// Sums: weights that add up along a route and stop at a ceiling. A delay and a fee differ in their unit alone.

ghost use Rattle.std.specs.Prelude.{◌≡◌, ◌≤◌, min, Some, decimal};
ghost use Rattle.weights.specs.Capped.{cut};
ghost use Rattle.weights.specs.Sums.{top, sums, LawfulAtEveryCeiling};
ghost use Rattle.weights.specs.SumLaws.{sum_laws, top_from_one};

use crate::Kind;
use std::fmt;
use std::marker::PhantomData;

// The most that a sum amounts to. Every larger number stands for this one.
const CEILING: u32 = 1_000_000_000;

// The unit of delays.
#[derive(Clone, Copy)]
pub struct Microseconds;

// The unit of fees.
#[derive(Clone, Copy)]
pub struct Cents;

// A plain number of units. It may exceed the ceiling, and then means the ceiling.
#[derive_where(Clone, Copy)]
pub struct Sum<U> {
    number: u32,
    unit: PhantomData<U>,
}

pub type Delay = Sum<Microseconds>;

pub type Fee = Sum<Cents>;

impl<U> Sum<U> {
    // The number as it is: no number is refused or changed.
    pub fn new(number: u32) -> Self
        ensures { result.number ≡ number }
    {
        Sum {
            number,
            unit: PhantomData,
        }
    }

    // How much it amounts to: the lesser of its number and the ceiling.
    pub fn amount(self) -> u32
        ensures { result ≡ min self.number top }
    {
        self.number.min(CEILING)
    }
}

// The most that a sum amounts to. The laws of sums hold at this ceiling because they hold at every one from 1 on.
pub fn ceiling() -> u32
    ensures value { result ≡ top }
    ensures lawful { LawfulAtEveryCeiling }
{
    CEILING
}

impl<U> Kind for Sum<U> {
    ghost algebra = { sums top };

    ghost laws = { sum_laws top top_from_one };

    ghost means = { λ s. cut top s.number };

    fn neutral() -> Sum<U> {
        Sum::new(0)
    }

    // The number itself stops at the ceiling too.
    fn join(self, other: Sum<U>) -> Sum<U>
        ensures meaning { cut top result.number ≡ (sums top).join (cut top self.number) (cut top other.number) }
        ensures capped { result.number ≤ top }
    {
        Sum::new((self.amount() + other.amount()).min(CEILING))
    }

    fn as_good(self, other: Sum<U>) -> bool {
        self.amount() <= other.amount()
    }

    fn before(self, other: Sum<U>) -> bool {
        self.amount() < other.amount()
    }

    fn may_bound(self) -> bool {
        self.amount() < CEILING
    }
}

// How much it amounts to, in decimal digits.
impl<U> fmt::Display for Sum<U> {
    ghost output = { λ s. Some (decimal (min s.number top)) };

    fn fmt<W: fmt::Write>(&self, f: &mut fmt::Formatter<W>) -> fmt::Result {
        write!(f, "{}", self.amount())
    }
}
