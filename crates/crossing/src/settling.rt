// Settling: labels are written one by one, until no candidate counts or no label is free.

ghost use Rattle.std.specs.Prelude.{◌≡◌, ◌+◌, ◌^◌, ◌<◌, ◌≤◌, length, take, drop, MatchOption, IfSome};
ghost use Rattle.stepping.specs.Labels.{meanings};
ghost use Rattle.stepping.specs.Memory.{cleared};
ghost use Rattle.stepping.specs.Crossing.{beginning, crossing, done, full};
ghost use Rattle.crossing.specs.Scopes.{view};

use crate::scopes::Before;
use crate::stepping_rule::Crossing;
use carriers::Map;
use stepping::Label;
use weights::Kind;

// Blanks every label from `from` on.
#[tactic(auto, using(crate::proofs::Blanks::blanks_all))]
pub fn blank_from<W: Kind>(memory: &mut [Label<W>], from: usize)
    ensures labels { meanings W.Kind.means memory.new ≡ cleared W.Kind.algebra from (meanings W.Kind.means memory.old) }
    ensures same { take from memory.new ≡ take from memory.old }
{
    if from < memory.len() {
        for label in &mut memory[from..] {
            *label = Label::blank();
        }
    }
}

impl<W: Kind, M: Map<W>> Crossing<'_, W, M> {
    // Writes the destination's own label, where the run starts from it, and answers how many labels it begins with;
    // `None` where no label is free for it.
    fn begin(&self, free: &mut [Label<W>]) -> Option<usize>
        ensures run { let seen = view W.Kind.algebra W.Kind.means self.now.scope (M.Map.carrier self.now.map.now) self.now.before.now.labels.now in MatchOption result (length free.old < length (beginning W.Kind.algebra seen)) (λ n. meanings W.Kind.means (take n free.new) ≡ beginning W.Kind.algebra seen) }
        ensures within { IfSome result (λ n. n ≤ length free.old) }
        ensures rest { IfSome result (λ n. drop n free.new ≡ drop n free.old) }
    {
        match self.scope.before {
            Before::Run(_) => Some(0),
            Before::Destination(node) => {
                let first = free.first_mut()?;
                *first = Label::arrival(node, self.is_marked(node));
                Some(1)
            }
        }
    }

    // Settles the whole run in the labels that are free, and answers how many it has; `None` where too few are free.
    #[tactic(auto, using(crate::proofs::Runs::label_more))]
    pub(crate) fn settle(&self, free: &mut [Label<W>]) -> Option<usize>
        requires { self.now.scope.used + length free.old < 2 ^ 64 }
        ensures run { let seen = view W.Kind.algebra W.Kind.means self.now.scope (M.Map.carrier self.now.map.now) self.now.before.now.labels.now in MatchOption result (crossing W.Kind.algebra seen (length free.old) ≡ full) (λ n. crossing W.Kind.algebra seen (length free.old) ≡ done (meanings W.Kind.means (take n free.new))) }
        ensures within { IfSome result (λ n. n ≤ length free.old) }
        ensures rest { IfSome result (λ n. drop n free.new ≡ drop n free.old) }
    {
        // Counted by hand, since each label is chosen by those settled before it.
        let mut settled = self.begin(free)?;
        while let Some(label) = self.first_candidate(&free[..settled]) {
            if settled == free.len() {
                return None;
            }
            free[settled] = label;
            settled += 1;
        }
        Some(settled)
    }
}
