// A map: the interface through which a crossing looks at a carrier.

ghost use Rattle.std.specs.Prelude.{◌≡◌};
ghost use Rattle.carriers.specs.Carrier.{Carrier, Sound, ends_of, weight_of};

use crate::Side;
use weights::Kind;

// A carrier's links and entries, for weights of the kind `W`. Its meaning is a carrier, and every map shows that
// this carrier is sound. No question is refused and none changes the map.
pub trait Map<W: Kind> {
    ghost carrier: { Self → Carrier W };

    ghost sound: { (m : Self) → Sound (carrier m) };

    fn node_count(&self) -> usize
        ensures { result ≡ (carrier self.now).nodes };

    fn place_count(&self) -> usize
        ensures { result ≡ (carrier self.now).places };

    fn is_entry(&self, node: u16) -> bool
        ensures { result ≡ (carrier self.now).entry node };

    // Tail, side and head of the link at a place, if one is present.
    fn link(&self, place: usize) -> Option<(u16, Side, u16)>
        ensures { result ≡ ends_of ((carrier self.now).at place) };

    // The weight of the link at a place; neutral where none is present.
    fn weight(&self, place: usize) -> W
        ensures { W.Kind.means result ≡ weight_of W.Kind.algebra.neutral W.Kind.means ((carrier self.now).at place) };
}
