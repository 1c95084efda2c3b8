// Requests: a request for routes, which is opened, crosses carriers, finishes, and is asked.

#![tactic(auto)]

mod calls;
mod crossings;
mod expansion;
mod lists;
mod promise;
mod requests_kept;
mod rules;
mod runs;
mod stages;

pub use promise::promise_stands;
pub use requests_kept::Request;

#[cfg(test)]
mod tests;
