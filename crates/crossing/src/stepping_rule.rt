// The stepping rule: of all candidates that count, the first is settled next.

ghost use Rattle.std.specs.Prelude.{◌≡◌, ◌+◌, ◌^◌, ◌<◌, ◌≤◌, length};
ghost use Rattle.std.specs.Option.{option_map};
ghost use Rattle.carriers.specs.Carrier.{link_meant};
ghost use Rattle.stepping.specs.Labels.{meant, meanings};
ghost use Rattle.stepping.specs.Crossing.{first};
ghost use Rattle.crossing.specs.Offers.{offer_meant, offer_at};
ghost use Rattle.carriers.specs.declared.sizes.TheConstants.{MOST_PLACES};
ghost use Rattle.crossing.specs.Scopes.{marks_of, start_of, view};

use crate::choosing::{Choice, Offer};
use crate::scopes::{Marks, Scope};
use carriers::Map;
use stepping::{Keyed, Label};
use weights::Kind;

// What a crossing looks at: what it is told, the map, and the labels of the run before. Clauses write out what it sees
// of them, since a definition for that would have to take all members of both bounds.
#[derive(Drop)]
pub(crate) struct Crossing<'a, W: Kind, M: Map<W>> {
    pub(crate) scope: Scope<W>,
    pub(crate) map: &'a M,
    pub(crate) before: &'a Keyed<'a, W>,
    ghost few: { (M.Map.carrier map.now).places ≤ MOST_PLACES },
    ghost start: { before.now.first_key ≡ start_of scope.before },
}

impl<W: Kind, M: Map<W>> Crossing<'_, W, M> {
    // Whether labels at the node are marked.
    pub(crate) fn is_marked(&self, node: u16) -> bool
        ensures { result ≡ marks_of self.now.scope.marks (M.Map.carrier self.now.map.now).entry node }
    {
        match self.scope.marks {
            Marks::Entries => self.map.is_entry(node),
            Marks::Only(marked) => node == marked,
        }
    }

    // The link at the place, if one is present, with its mark.
    fn offer(&self, place: usize) -> Option<Offer<W>>
        requires { place < 65536 }
        ensures { option_map (offer_meant W.Kind.means) result ≡ option_map (offer_at (view W.Kind.algebra W.Kind.means self.now.scope (M.Map.carrier self.now.map.now) self.now.before.now.labels.now) place) (option_map (link_meant W.Kind.means) ((M.Map.carrier self.now.map.now).at place)) }
    {
        let (tail, side, head) = self.map.link(place)?;
        Some(Offer {
            place: place as u16,
            tail,
            side,
            head,
            weight: self.map.weight(place),
            mark: self.is_marked(tail),
        })
    }

    // The first candidate that counts, if any does, where the run so far is `run`.
    pub(crate) fn first_candidate(&self, run: &[Label<W>]) -> Option<Label<W>>
        requires { self.now.scope.used + length run.now < 2 ^ 64 }
        ensures { option_map (meant W.Kind.means) result ≡ first W.Kind.algebra (view W.Kind.algebra W.Kind.means self.now.scope (M.Map.carrier self.now.map.now) self.now.before.now.labels.now) (meanings W.Kind.means run.now) }
    {
        let choice = Choice {
            bounds: self.scope.bounds,
            run: Keyed {
                labels: run,
                first_key: self.scope.used,
            },
            before: self.before,
        };
        let mut best = None;
        // A map is asked by the number of a place.
        for place in 0..self.map.place_count() {
            if let Some(offer) = self.offer(place) {
                best = choice.best_of_link(best, &offer);
            }
        }
        best
    }
}
