// The refusals: why a call or a reader turned its input down, each with a number and a word.

ghost use Rattle.std.specs.Prelude.{◌≡◌, Some};
ghost use Rattle.carriers.specs.Refusals.{number_of, word_of, refusal_text};

use std::error::Error;
use std::fmt;

#[derive(Clone, Copy, PartialEq, Eq, Debug)]
pub enum Refusal {
    // The call is not for the request's stage.
    Stage = 1,
    // The memory has too many labels, or not as many as when the request was opened.
    Memory = 2,
    // The weight may not serve as a bound.
    Bound = 3,
    // The carrier has no node, too many nodes or too many links.
    Size = 4,
    // The chain has as many carriers as it may have.
    Chain = 5,
    // The destination or the source is no node of the carrier.
    Node = 6,
    // The memory has too few labels for the run.
    Full = 7,
    // No route of the list, or no label of the memory, has this position or key.
    Key = 8,
    // The slice is too short for the answer.
    Short = 9,
    // The bytes do not begin with their mark.
    Mark = 10,
    // The format's version is not 1.
    Version = 11,
    // There are too few or too many bytes.
    Length = 12,
    // A field breaks its rule.
    Field = 13,
}

impl Refusal {
    // A method and no `From`, as `word` is: a refusal has these two names.
    pub fn number(self) -> u8
        ensures { result ≡ number_of self }
    {
        self as u8
    }

    pub fn word(self) -> &'static str
        ensures { result.now ≡ word_of self }
    {
        match self {
            Refusal::Stage => "stage",
            Refusal::Memory => "memory",
            Refusal::Bound => "bound",
            Refusal::Size => "size",
            Refusal::Chain => "chain",
            Refusal::Node => "node",
            Refusal::Full => "full",
            Refusal::Key => "key",
            Refusal::Short => "short",
            Refusal::Mark => "mark",
            Refusal::Version => "version",
            Refusal::Length => "length",
            Refusal::Field => "field",
        }
    }
}

// The number and the word, as `13 field`.
impl fmt::Display for Refusal {
    ghost output = { λ r. Some (refusal_text r) };

    fn fmt<W: fmt::Write>(&self, f: &mut fmt::Formatter<W>) -> fmt::Result {
        write!(f, "{} {}", self.number(), self.word())
    }
}

impl Error for Refusal {}
