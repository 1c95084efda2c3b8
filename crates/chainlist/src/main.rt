// Reads a chain file from standard input and prints the list of its routes, or its refusal.

#![tactic(auto)]

use input::chain_file;
use listing::listing;
use std::io;

fn main(rt: HostRuntime) -> io::Result<()> {
    let bytes = chain_file(rt.alloc(), rt.reader())?;
    let text = listing(rt.alloc(), bytes.as_slice())?;
    print!(rt; "{text}")
}
