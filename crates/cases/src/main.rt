// Crosses chains of carriers, alone and by requests, and prints each label, answer and list, as an account that a
// person can follow.

#![tactic(auto)]

mod account;
mod requested;
mod worked;

use std::io;
use worked::Books;

fn main(rt: HostRuntime) -> io::Result<()> {
    match Books::read() {
        Ok(books) => cases(&rt, &books),
        Err(refusal) => println!(rt; "refused {refusal}"),
    }
}

fn cases(rt: &impl Print, books: &Books) -> io::Result<()> {
    worked::chain(rt, books)?;
    worked::alone(rt, books)?;
    worked::fenced(rt, books)?;
    worked::lines(rt)?;
    requested::bounded(rt, books)?;
    requested::alone(rt, books)?;
    requested::refused(rt, books)?;
    requested::sixteen(rt)
}
