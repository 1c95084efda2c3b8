// What a list says of the routes of its chain.

ghost use Rattle.listing.specs.Truth.{ListedTruly, TrueListing};

use weights::Kind;

// For every kind of weight: what is written of the calls along a chain is their first refusal, or it is `no route` and
// there is none, or it has a line for each weight that matters of the chain's routes within the bounds.
pub fn listing_stands<W: Kind>()
    ensures { ListedTruly W.Kind.algebra }
{}

// For every byte string, what `listing` writes of it is so.
pub fn lists_are_true()
    ensures { TrueListing }
{}
