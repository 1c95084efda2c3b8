// The rules by which a crossing is refused before anything is settled.

ghost use Rattle.std.specs.Prelude.{◌≡◌, ◌<◌, ◌≤◌, List, [], ◌∷◌, length, IfOk};
ghost use Rattle.carriers.specs.Carrier.{meant as carrier_meant};
ghost use Rattle.stepping.specs.Labels.{meanings};
ghost use Rattle.histories.specs.Rules.{refusal, outside, size_rule, cross_rules, finish_rules};
ghost use Rattle.histories.specs.Stages.{due};
ghost use Rattle.requests.specs.Table.{runs_of};
ghost use Rattle.requests.specs.Kept.{progress_of};
ghost use Rattle.carriers.specs.Rules.{judged};

use crate::stages::Progress;
use carriers::{MOST_NODES, MOST_PLACES, Map, Refusal};
use stepping::Label;
use weights::Kind;

// The most crossings before the finish.
const MOST_CROSSED: usize = 15;

// Whether the map has no node, too many nodes or too many places.
fn is_off_size<W: Kind, M: Map<W>>(map: &M) -> bool
    ensures { result ≡ (size_rule (M.Map.carrier map.now)).0 }
{
    let nodes = map.node_count();
    nodes == 0 || nodes > MOST_NODES || map.place_count() > MOST_PLACES
}

// The check of the map of every crossing.
fn check_size<W: Kind, M: Map<W>>(map: &M) -> Result<(), Refusal>
    ensures { result ≡ judged (refusal (size_rule (M.Map.carrier map.now) ∷ [])) tt }
{
    if is_off_size(map) {
        return Err(Refusal::Size);
    }
    Ok(())
}

// The checks after that of the memory, so they are those of any memory that has as many labels as when the request was
// opened.
impl<W: Kind> Progress<W> {
    // Whether the destination is still to be settled, and is not among so many nodes.
    fn is_outside(&self, nodes: usize) -> bool
        ensures { result ≡ outside nodes (due (progress_of W.Kind.means self.now)) }
    {
        self.runs.count() == 0 && self.destination as usize >= nodes
    }

    // The checks of a cross.
    pub(crate) fn check_cross<M: Map<W>>(&self, map: &M) -> Result<(), Refusal>
        ensures judged { (memory : List (Label W)) → length memory ≡ self.now.runs.memory → result ≡ judged (refusal (cross_rules (progress_of W.Kind.means self.now) (carrier_meant W.Kind.means (M.Map.carrier map.now)) (meanings W.Kind.means memory))) tt }
        ensures places { IfOk result (λ _. (M.Map.carrier map.now).places ≤ 8192) }
        ensures room { IfOk result (λ _. length (runs_of self.now.runs) < 15) }
    {
        check_size(map)?;
        if self.runs.count() >= MOST_CROSSED {
            return Err(Refusal::Chain);
        }
        if self.is_outside(map.node_count()) {
            return Err(Refusal::Node);
        }
        Ok(())
    }

    // The checks of a finish at the source, apart from those of a cross: each call has a list of rules of its own, in the
    // order of their refusals' numbers.
    pub(crate) fn check_finish<M: Map<W>>(&self, map: &M, source: u16) -> Result<(), Refusal>
        ensures judged { (memory : List (Label W)) → length memory ≡ self.now.runs.memory → result ≡ judged (refusal (finish_rules (progress_of W.Kind.means self.now) (carrier_meant W.Kind.means (M.Map.carrier map.now)) source (meanings W.Kind.means memory))) tt }
        ensures places { IfOk result (λ _. (M.Map.carrier map.now).places ≤ 8192) }
    {
        check_size(map)?;
        let nodes = map.node_count();
        if self.is_outside(nodes) || source as usize >= nodes {
            return Err(Refusal::Node);
        }
        Ok(())
    }
}
