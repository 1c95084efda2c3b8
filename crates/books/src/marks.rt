// What both formats begin with: a mark of three bytes, and a version.

ghost use Rattle.std.specs.Prelude.{◌≡◌};
ghost use Rattle.books.specs.Faults.{mark_fault};
ghost use Rattle.carriers.specs.Rules.{judged};

use crate::numbers::u16_at;
use carriers::Refusal;

// The only version of either format.
const VERSION: u16 = 1;

pub(crate) fn check_mark(bytes: &[u8], mark: &[u8; 3]) -> Result<(), Refusal>
    ensures { result ≡ judged (mark_fault mark.now bytes.now) tt }
{
    if !bytes.starts_with(mark) {
        return Err(Refusal::Mark);
    }
    if u16_at(bytes, 3) != VERSION {
        return Err(Refusal::Version);
    }
    Ok(())
}
