// Kinds that a book can carry: how a weight is read from the columns of a link record.

ghost use Rattle.std.specs.Prelude.{◌≡◌, ℕ, ◌+◌, ◌≤◌, min, List};
ghost use Rattle.books.specs.Columns.{front_column, number_sum, number_width, number_colours, pair_from};

use weights::{Colours, Kind, Pair, Sum, Width};

// A kind whose weights a link record holds. The record's columns are delay, fee, width and colours, in this order,
// and a weight takes the first of them. A column past the end reads as 0.
pub trait BookKind: Kind {
    ghost columns: { ℕ };

    ghost reads: { List ℕ → Self };

    // How many columns a weight takes.
    fn columns() -> usize
        ensures value { result ≡ columns }
        ensures bound { result ≤ 4 };

    // The weight that stands at the front of `numbers`.
    fn read(numbers: &[u32]) -> Self
        ensures { result ≡ reads numbers.now };
}

// A kind whose weights take one column.
pub trait OneColumn: Kind {
    ghost numbered: { ℕ → Self };

    // The weight that the column's number tells.
    fn of_number(number: u32) -> Self
        ensures { result ≡ numbered number };
}

impl<K: OneColumn> BookKind for K {
    ghost columns = { 1 };

    ghost reads = { λ xs. K.OneColumn.numbered (front_column xs) };

    fn columns() -> usize {
        1
    }

    fn read(numbers: &[u32]) -> K {
        K::of_number(numbers.first().copied().unwrap_or(0))
    }
}

impl<U> OneColumn for Sum<U> {
    ghost numbered = { number_sum };

    fn of_number(number: u32) -> Sum<U> {
        Sum::new(number)
    }
}

impl OneColumn for Width {
    ghost numbered = { number_width };

    fn of_number(number: u32) -> Width {
        Width { mbits: number }
    }
}

impl OneColumn for Colours {
    ghost numbered = { number_colours };

    fn of_number(number: u32) -> Colours {
        Colours { bits: number }
    }
}

// The first part takes its columns from the front, the second those that follow.
impl<F: BookKind, S: BookKind> BookKind for Pair<F, S> {
    ghost columns = { min (F.BookKind.columns + S.BookKind.columns) 4 };

    ghost reads = { pair_from F.BookKind.columns F.BookKind.reads S.BookKind.reads };

    fn columns() -> usize {
        (F::columns() + S::columns()).min(4)
    }

    fn read(numbers: &[u32]) -> Pair<F, S> {
        let (first, second) = numbers.split_at(F::columns().min(numbers.len()));
        Pair {
            first: F::read(first),
            second: S::read(second),
        }
    }
}
