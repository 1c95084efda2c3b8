// The bytes that a reader gives, as far as a chain file may reach.

#![tactic(auto)]

ghost use Rattle.std.specs.Prelude.{◌≡◌, ◌≤◌, length, take, IfOk, IfSome};

use std::alloc::Global;
use std::io;
use std::io::Read;

// One byte more than a chain file may have: what follows makes no difference to the refusal.
const ENOUGH: u64 = 65_537;

// The first bytes that the reader gives, as many as are enough.
pub fn chain_file<R: Read + Drop>(heap: Global, reader: R) -> io::Result<Vec<u8>>
    ensures most { IfOk result (λ v. length v.items ≤ 65537) }
    ensures bytes { IfOk result (λ v. IfSome (R.remaining reader) (λ xs. v.items ≡ take 65537 xs)) }
{
    let mut bytes = Vec::new(heap);
    reader.take(ENOUGH).read_to_end(&mut bytes)?;
    // No more were read, but the contract of `read_to_end` says so only of a reader whose bytes are known.
    bytes.truncate(ENOUGH as usize);
    Ok(bytes)
}

#[cfg(test)]
mod tests;
