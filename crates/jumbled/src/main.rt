// Makes a long jumbled list of calls for the carriers of a chain file and for others, and prints each call, answer and
// list, with every listed key expanded and summed again.

#![tactic(auto)]

mod calls;
mod draws;
mod maps;
mod routes;
mod session;
mod tallies;

use books::Chain;
use input::chain_file;
use maps::Books;
use std::io;

fn main(rt: HostRuntime) -> io::Result<()> {
    let bytes = chain_file(rt.alloc(), rt.reader())?;
    match Chain::read(bytes.as_slice()) {
        Ok(chain) => jumbled(&rt, &chain),
        Err(refusal) => println!(rt; "refused {refusal}"),
    }
}

fn jumbled(rt: &impl Print, chain: &Chain) -> io::Result<()> {
    match Books::of(chain) {
        Some(books) => session::calls(rt, books),
        None => println!(rt; "the chain has only one carrier"),
    }
}
