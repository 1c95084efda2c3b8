// The sizes of carriers, and the size of a line: a number of nodes that its type keeps between 1 and 1,024.

ghost use Rattle.std.specs.Prelude.{◌≡◌, ◌<◌, ◌≤◌, ◌⊎◌, MatchResult};

use crate::Refusal;

// The most nodes that a carrier may have.
pub const MOST_NODES: usize = 1024;

// The most link places that a carrier may have: link numbers stay clear of the destination's 65,535.
pub const MOST_PLACES: usize = 8192;

#[derive(Clone, Copy)]
pub(crate) struct LineSize {
    nodes: usize,
    ghost within: { (1 ≤ nodes) × (nodes ≤ 1024) },
}

impl LineSize {
    pub(crate) fn new(nodes: usize) -> Result<LineSize, Refusal>
        ensures { MatchResult result (λ s. s.nodes ≡ nodes) (λ e. (e ≡ Refusal.Size) × ((nodes ≡ 0) ⊎ (1024 < nodes))) }
    {
        if nodes == 0 || nodes > MOST_NODES {
            return Err(Refusal::Size);
        }
        Ok(LineSize { nodes })
    }

    pub(crate) fn nodes(self) -> usize
        ensures { result ≡ self.nodes }
    {
        self.nodes
    }
}
