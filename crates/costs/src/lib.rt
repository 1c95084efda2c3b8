// Costs, which are a delay with a fee, and the words for them.

#![tactic(auto)]

ghost use Rattle.std.specs.Prelude.{◌≡◌, Some};
ghost use Rattle.costs.specs.Texts.{cost_text};

use std::fmt;
use weights::{Delay, Fee, Pair};

pub type Cost = Pair<Delay, Fee>;

// Both numbers as they are: none is refused or changed.
pub fn cost(delay: u32, fee: u32) -> Cost
    ensures first { result.first.number ≡ delay }
    ensures second { result.second.number ≡ fee }
{
    Pair {
        first: Delay::new(delay),
        second: Fee::new(fee),
    }
}

// A cost as it is written: `delay 8, fee 6`.
#[derive(Clone, Copy)]
pub struct Amounts(pub Cost);

impl fmt::Display for Amounts {
    ghost output = { λ a. Some (cost_text a.0) };

    fn fmt<W: fmt::Write>(&self, f: &mut fmt::Formatter<W>) -> fmt::Result {
        write!(f, "delay {}, fee {}", self.0.first, self.0.second)
    }
}

#[cfg(test)]
mod tests;
