// Reads a chain file from standard input and prints an account of it, or its refusal.

#![tactic(auto)]

use account::Account;
use input::chain_file;
use std::io;

fn main(rt: HostRuntime) -> io::Result<()> {
    let bytes = chain_file(rt.alloc(), rt.reader())?;
    let account = Account::of(bytes.as_slice());
    print!(rt; "{account}")
}
