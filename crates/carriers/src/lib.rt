// Carriers: what is known of one carrier's network, and the refusals that every call and reader answers with.

#![tactic(auto)]

mod fences;
mod lines;
mod maps;
mod refusals;
mod sides;
mod sizes;

pub use fences::Fence;
pub use lines::Line;
pub use maps::Map;
pub use refusals::Refusal;
pub use sides::Side;
pub use sizes::{MOST_NODES, MOST_PLACES};

#[cfg(test)]
mod tests;
