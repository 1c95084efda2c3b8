// Weights whose text is known.

ghost use Rattle.std.specs.Prelude.{◌≡◌, ℕ, List, Some, min, decimal, refl};
ghost use Rattle.weights.specs.Sums.{top};
ghost use Rattle.weights.specs.Widths.{all};
ghost use Rattle.listing.specs.Pairs.{spaced_text, spaced_is};

use std::fmt::Display;
use weights::{Colours, Pair, Sum, Width};

// Values of which it is known what `{}` writes.
pub(crate) trait KnownText: Display {
    ghost text: { Self → List ℕ };

    ghost written: { (w : Self) → Self.output w ≡ Some (text w) };
}

impl<U> KnownText for Sum<U> {
    ghost text = { λ s. decimal (min s.number top) };

    ghost written = { λ s. refl };
}

impl KnownText for Width {
    ghost text = { λ w. decimal (min w.mbits all) };

    ghost written = { λ w. refl };
}

impl KnownText for Colours {
    ghost text = { λ c. decimal c.bits };

    ghost written = { λ c. refl };
}

impl<F: KnownText, S: KnownText> KnownText for Pair<F, S> {
    ghost text = { λ p. spaced_text (F.KnownText.text p.first) (S.KnownText.text p.second) };

    ghost written = { λ p. spaced_is _ _ _ _ (F.KnownText.written p.first) (S.KnownText.written p.second) };
}
