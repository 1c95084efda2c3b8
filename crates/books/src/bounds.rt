// The bounds of a chain file, in the weights that its selection names.

use weights::{Colours, Delay, Fee, Pair, Width};

#[derive(Clone, Copy)]
pub enum Bounds {
    Delay(Delay),
    DelayFee(Pair<Delay, Fee>),
    All(Pair<Delay, Pair<Fee, Pair<Width, Colours>>>),
}
