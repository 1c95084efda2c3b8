// A line: nodes in a row, each linked to the one after it, the last to the next carrier.

ghost use Rattle.std.specs.Prelude.{◌≡◌, ◌<◌, ◌⊎◌, MatchResult};
ghost use Rattle.carriers.specs.Lines.{line};
ghost use Rattle.carriers.specs.LineLaws.{line_sound};

use crate::sizes::LineSize;
use crate::{Map, Refusal, Side};
use weights::Kind;

// N nodes, 1 to 1,024. The link at place i leads from node i to node i + 1, the one at the last place from the
// last node onward to node 0. All links weigh the same, and node 0 is the only entry.
#[derive(Clone, Copy)]
pub struct Line<W> {
    size: LineSize,
    weight: W,
}

impl<W: Kind> Line<W> {
    // A line of 0 nodes, or of more than 1,024, is refused.
    pub fn new(nodes: usize, weight: W) -> Result<Line<W>, Refusal>
        ensures { MatchResult result (λ l. (l.size.nodes ≡ nodes) × (l.weight ≡ weight)) (λ e. (e ≡ Refusal.Size) × ((nodes ≡ 0) ⊎ (1024 < nodes))) }
    {
        let size = LineSize::new(nodes)?;
        Ok(Line { size, weight })
    }
}

impl<W: Kind> Map<W> for Line<W> {
    ghost carrier = { λ l. line l.size.nodes l.weight };

    ghost sound = { λ l. line_sound l.size.nodes l.weight l.size.within.0 };

    fn node_count(&self) -> usize {
        self.size.nodes()
    }

    fn place_count(&self) -> usize {
        self.size.nodes()
    }

    fn is_entry(&self, node: u16) -> bool {
        node == 0
    }

    fn link(&self, place: usize) -> Option<(u16, Side, u16)> {
        let last = self.size.nodes() - 1;
        if place < last {
            Some((place as u16, Side::Inside, place as u16 + 1))
        } else if place == last {
            Some((place as u16, Side::Onward, 0))
        } else {
            None
        }
    }

    fn weight(&self, place: usize) -> W {
        if place < self.size.nodes() {
            self.weight
        } else {
            W::neutral()
        }
    }
}
