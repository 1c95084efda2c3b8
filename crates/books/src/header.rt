// The header of a chain file.

ghost use Rattle.std.specs.Prelude.{◌≡◌, ◌≤◌, length, OnOk};
ghost use Rattle.books.specs.Bytes.{byte_at};
ghost use Rattle.books.specs.ChainLayout.{header_fault, header_of, selection_fault, bounds_of, sum_at};
ghost use Rattle.carriers.specs.Rules.{judged};

use crate::bounds::Bounds;
use crate::marks::check_mark;
use crate::numbers::{byte_at, u16_at, u32_at};
use carriers::Refusal;
use weights::{Colours, Pair, Sum, Width};

#[derive(Clone, Copy)]
pub(crate) struct Header {
    pub(crate) bounds: Bounds,
    pub(crate) destination: u16,
    pub(crate) source: u16,
    pub(crate) carriers: u8,
}

impl Header {
    // The header that `bytes` begins with, where it keeps its rules.
    pub(crate) fn read(bytes: &[u8]) -> Result<Header, Refusal>
        ensures answer { result ≡ judged (header_fault bytes.now) (header_of bytes.now) }
        ensures within { OnOk result (27 ≤ length bytes.now) }
    {
        if bytes.len() < 27 || bytes.len() > 65536 {
            return Err(Refusal::Length);
        }
        check_mark(bytes, b"CHN")?;
        let bounds = selected_bounds(bytes)?;
        let carriers = byte_at(bytes, 6);
        if carriers == 0 || carriers > 16 {
            return Err(Refusal::Field);
        }
        Ok(Header {
            bounds,
            destination: u16_at(bytes, 7),
            source: u16_at(bytes, 9),
            carriers,
        })
    }
}

// The bounds that the header gives for its selection: `Bounds` has a variant for each.
fn selected_bounds(bytes: &[u8]) -> Result<Bounds, Refusal>
    ensures { result ≡ judged (selection_fault bytes.now) (bounds_of (byte_at bytes.now 5) bytes.now) }
{
    match byte_at(bytes, 5) {
        1 => Ok(Bounds::Delay(sum_at(bytes, 11))),
        2 => Ok(Bounds::DelayFee(Pair {
            first: sum_at(bytes, 11),
            second: sum_at(bytes, 15),
        })),
        3 => {
            let width = Width {
                mbits: u32_at(bytes, 19),
            };
            let colours = Colours {
                bits: u32_at(bytes, 23),
            };
            let last = Pair {
                first: width,
                second: colours,
            };
            Ok(Bounds::All(Pair {
                first: sum_at(bytes, 11),
                second: Pair {
                    first: sum_at(bytes, 15),
                    second: last,
                },
            }))
        }
        _ => Err(Refusal::Field),
    }
}

// A sum that serves as a bound: above the ceiling it is the ceiling.
fn sum_at<U>(bytes: &[u8], start: usize) -> Sum<U>
    ensures { result ≡ sum_at bytes.now start }
{
    Sum::new(u32_at(bytes, start).min(weights::ceiling()))
}
