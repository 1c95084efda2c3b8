// Answers: the words for what the calls of a request answer.

#![tactic(auto)]

ghost use Rattle.answers.specs.Texts.{settled_text, ended_text, listed_text, told_text};
ghost use Rattle.std.specs.Prelude.{Some};

use carriers::Refusal;
use costs::{Amounts, Cost};
use histories::{Ending, Item};
use std::fmt;

// How many labels a crossing settled.
#[derive(Clone, Copy)]
pub struct Settled(pub usize);

impl fmt::Display for Settled {
    ghost output = { λ s. Some (settled_text s.0) };

    fn fmt<W: fmt::Write>(&self, f: &mut fmt::Formatter<W>) -> fmt::Result {
        write!(f, "{} settled", self.0)
    }
}

// What a finish found.
#[derive(Clone, Copy)]
pub struct Ended(pub Ending);

impl fmt::Display for Ended {
    ghost output = { λ e. Some (ended_text e.0) };

    fn fmt<W: fmt::Write>(&self, f: &mut fmt::Formatter<W>) -> fmt::Result {
        let settled = Settled(self.0.settled);
        match self.0.routes {
            None => write!(f, "no route, {settled}"),
            Some(count) => write!(f, "{count} listed, {settled}"),
        }
    }
}

// An item of the list at a node.
#[derive(Clone, Copy)]
pub struct Listed(pub Item<Cost>);

impl fmt::Display for Listed {
    ghost output = { λ i. Some (listed_text i.0) };

    fn fmt<W: fmt::Write>(&self, f: &mut fmt::Formatter<W>) -> fmt::Result {
        write!(f, "{}, key {}", Amounts(self.0.weight), self.0.key)
    }
}

// What a call answers: a value in its own words, or a refusal.
#[derive(Clone, Copy)]
pub struct Told<T>(pub Result<T, Refusal>);

impl<T: fmt::Display> fmt::Display for Told<T> {
    ghost output = { λ t. told_text T.Display.output t.0 };

    fn fmt<W: fmt::Write>(&self, f: &mut fmt::Formatter<W>) -> fmt::Result {
        match &self.0 {
            Ok(value) => write!(f, "{value}"),
            Err(refusal) => write!(f, "refused {refusal}"),
        }
    }
}

#[cfg(test)]
mod tests;
