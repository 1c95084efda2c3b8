// A fence: a map without the links whose weight is not within a limit.

ghost use Rattle.carriers.specs.Fences.{fence};
ghost use Rattle.carriers.specs.FenceLaws.{fence_sound};

use crate::{Map, Side};
use weights::Kind;

// The map below with every link absent whose weight is not within the limit. All else is as below.
#[derive(Clone, Copy)]
pub struct Fence<M, W> {
    pub map: M,
    pub limit: W,
}

impl<W: Kind, M: Map<W>> Map<W> for Fence<M, W> {
    ghost carrier = { λ f. fence W.Kind.algebra W.Kind.means f.limit (M.Map.carrier f.map) };

    ghost sound = { λ f. fence_sound W.Kind.algebra W.Kind.means f.limit (M.Map.carrier f.map) (M.Map.sound f.map) };

    fn node_count(&self) -> usize {
        self.map.node_count()
    }

    fn place_count(&self) -> usize {
        self.map.place_count()
    }

    fn is_entry(&self, node: u16) -> bool {
        self.map.is_entry(node)
    }

    fn link(&self, place: usize) -> Option<(u16, Side, u16)> {
        if self.map.weight(place).as_good(self.limit) {
            self.map.link(place)
        } else {
            None
        }
    }

    fn weight(&self, place: usize) -> W {
        let weight = self.map.weight(place);
        if weight.as_good(self.limit) {
            weight
        } else {
            W::neutral()
        }
    }
}
