// The list of routes of a chain file, as text.

#![tactic(auto)]

ghost use Rattle.std.specs.Prelude.{◌≡◌, IfOk, string_bytes};
ghost use Rattle.books.specs.Told.{contents_of};
ghost use Rattle.listing.specs.Texts.{refused_text};
ghost use Rattle.listing.specs.Listing.{listing_text, selected_text};
ghost use Rattle.listing.specs.Unlisted.{IfRefused};

use books::{Bounds, Chain};
use journey::Journey;
use std::alloc::{AllocError, Global};
use unlisted::Unlisted;

mod found;
mod journey;
mod known_text;
mod route_list;
mod truth;
mod unlisted;

pub use truth::{listing_stands, lists_are_true};

// The routes that the chain file `bytes` asks for, or `no route`, or the first refusal.
pub fn listing(heap: Global, bytes: &[u8]) -> Result<String, AllocError>
    ensures { IfOk result (λ s. string_bytes s ≡ listing_text bytes.now) }
{
    list(heap, bytes).or_else(|unlisted| unlisted.line(heap))
}

// The text of the list, where nothing is refused.
fn list(heap: Global, bytes: &[u8]) -> Result<String, Unlisted>
    ensures text { IfOk result (λ s. string_bytes s ≡ listing_text bytes.now) }
    ensures refused { IfRefused result (λ r. refused_text r ≡ listing_text bytes.now) }
{
    let chain = Chain::read(bytes)?;
    selected_routes(heap, &chain)
}

// The routes of the chain, in the weights that its bounds are given in.
fn selected_routes(heap: Global, chain: &Chain) -> Result<String, Unlisted>
    ensures text { IfOk result (λ s. string_bytes s ≡ selected_text (contents_of chain.now) (contents_of chain.now).bounds) }
    ensures refused { IfRefused result (λ r. refused_text r ≡ selected_text (contents_of chain.now) (contents_of chain.now).bounds) }
{
    match chain.bounds() {
        Bounds::Delay(bounds) => Journey { bounds, chain }.routes_text(heap),
        Bounds::DelayFee(bounds) => Journey { bounds, chain }.routes_text(heap),
        Bounds::All(bounds) => Journey { bounds, chain }.routes_text(heap),
    }
}

#[cfg(test)]
mod tests;
