// Why there is no list.

ghost use Rattle.std.specs.Prelude.{◌≡◌, IfOk, string_bytes};
ghost use Rattle.listing.specs.declared.unlisted.Unlisted.TheVariants.{Refused, Memory};
ghost use Rattle.listing.specs.Unlisted.{IsLine};

use carriers::Refusal;
use std::alloc::{AllocError, AllocFailed, Global};

// The file or a call was refused, or memory ran out.
#[derive(Clone, Copy)]
pub(crate) enum Unlisted {
    Refused(Refusal),
    Memory(AllocError),
}

impl Unlisted {
    // The line of the refusal, or the error where memory ran out.
    pub(crate) fn line(self, heap: Global) -> Result<String, AllocError>
        ensures { IfOk result (λ s. IsLine self (string_bytes s)) }
    {
        match self {
            Unlisted::Refused(reason) => format!(in heap; "refused {}\n", reason.number()),
            Unlisted::Memory(error) => Err(error),
        }
    }
}

impl From<Refusal> for Unlisted {
    ghost from_gives = { λ r e. e ≡ Refused r };

    fn from(refusal: Refusal) -> Unlisted {
        Unlisted::Refused(refusal)
    }
}

impl From<AllocError> for Unlisted {
    ghost from_gives = { λ m e. e ≡ Memory m };

    fn from(error: AllocError) -> Unlisted {
        Unlisted::Memory(error)
    }
}
