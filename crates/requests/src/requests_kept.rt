// A request, with what its type says of its stage.

ghost use Rattle.std.specs.Prelude.{◌≡◌, true};
ghost use Rattle.requests.specs.Kept.{sound};

use crate::stages::Stage;

// A request for routes to one destination within given bounds. It has no field for its labels: their memory is lent
// anew to each call.
#[derive(Drop)]
pub struct Request<W> {
    pub(crate) stage: Stage<W>,
    ghost kept: { sound stage ≡ true },
}
