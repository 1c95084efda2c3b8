// Crossing: the code that settles the labels of one carrier, in the memory that the caller lends.

#![tactic(auto)]

mod choosing;
mod crossings;
mod scopes;
mod settling;
mod stepping_rule;

pub use crossings::cross;
pub use scopes::{Before, Marks, Scope};
pub use settling::blank_from;
