// The two sides that a link can lead to.

ghost use Rattle.std.specs.Prelude.{◌≡◌};
ghost use Rattle.carriers.specs.Sides.{side_numbered};

use crate::Refusal;

// Where a link leads: to a node of its own carrier, or to a node of the next carrier towards the destination.
#[derive(Clone, Copy, PartialEq, Eq, Debug)]
pub enum Side {
    Inside,
    Onward,
}

// The side with this number in a link record: 0 inside, 1 onward. Any other number is refused.
impl TryFrom<u8> for Side {
    type Error = Refusal;

    ghost try_from_gives = { λ n r. r ≡ side_numbered n };

    fn try_from(number: u8) -> Result<Side, Refusal> {
        match number {
            0 => Ok(Side::Inside),
            1 => Ok(Side::Onward),
            _ => Err(Refusal::Field),
        }
    }
}
