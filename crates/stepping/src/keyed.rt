// Labels with their keys.

ghost use Rattle.std.specs.Prelude.{◌+◌, ◌^◌, ◌<◌, length};

use crate::Label;

// Labels that stand one after another in the memory, the first of which has the key `first_key`.
#[derive(Drop)]
pub struct Keyed<'a, W> {
    pub labels: &'a [Label<W>],
    pub first_key: usize,
    ghost fits: { first_key + length labels.now < 2 ^ 64 },
}
