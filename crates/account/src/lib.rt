// The account of a chain file, for a person to read.

#![tactic(auto)]

ghost use Rattle.std.specs.Prelude.{◌≡◌, Some};
ghost use Rattle.account.specs.Texts.{text_of, account_text};

use books::Chain;
use carriers::Refusal;
use lines::{CarrierLines, Heading};
use std::fmt;

mod lines;

// What a chain file says, or why it is refused.
#[derive(Clone, Copy)]
pub struct Account<'a> {
    pub verdict: Result<Chain<'a>, Refusal>,
}

impl<'a> Account<'a> {
    // A function and no `From`, so that it takes the literal of a byte string as it is.
    pub fn of(bytes: &'a [u8]) -> Account<'a>
        ensures { text_of result ≡ account_text bytes.now }
    {
        Account {
            verdict: Chain::read(bytes),
        }
    }
}

impl fmt::Display for Account<'_> {
    ghost output = { λ a. Some (text_of a) };

    fn fmt<W: fmt::Write>(&self, f: &mut fmt::Formatter<W>) -> fmt::Result {
        match &self.verdict {
            Ok(chain) => write!(
                f,
                "{}{}",
                Heading::from(chain),
                CarrierLines { chain: *chain }
            ),
            Err(refusal) => write!(f, "refused {refusal}\n"),
        }
    }
}

#[cfg(test)]
mod tests;
