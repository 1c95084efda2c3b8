// The crossing of one carrier, on any input.

ghost use Rattle.std.specs.Prelude.{◌≡◌, ◌+◌, true, take, drop, is_some, IfOk};
ghost use Rattle.stepping.specs.Labels.{meanings};
ghost use Rattle.crossing.specs.Crossed.{outcome, unfit, answer_of, memory_of};

use crate::scopes::Scope;
use crate::settling::blank_from;
use crate::stepping_rule::Crossing;
use carriers::{MOST_PLACES, Map, Refusal};
use stepping::Label;
use weights::Kind;

// Settles the run of one carrier from the first unused label on, and answers how many labels it settled.
// Refused: more labels in use than there are; too many places; no label free for the whole run, and then every
// unused label is blank.
#[tactic(auto, using(crate::proofs::Whole::parts))]
pub fn cross<W: Kind, M: Map<W>>(
    scope: Scope<W>,
    map: &M,
    memory: &mut [Label<W>],
) -> Result<usize, Refusal>
    ensures answer { result ≡ answer_of (unfit scope (M.Map.carrier map.now) memory.old) (outcome W.Kind.algebra W.Kind.means scope (M.Map.carrier map.now) memory.old) }
    ensures labels { meanings W.Kind.means memory.new ≡ memory_of W.Kind.algebra scope.used (meanings W.Kind.means memory.old) (unfit scope (M.Map.carrier map.now) memory.old) (outcome W.Kind.algebra W.Kind.means scope (M.Map.carrier map.now) memory.old) }
    ensures used { take scope.used memory.new ≡ take scope.used memory.old }
    ensures rest { IfOk result (λ n. drop (scope.used + n) memory.new ≡ drop (scope.used + n) memory.old) }
    ensures same { is_some (unfit scope (M.Map.carrier map.now) memory.old) ≡ true → memory.new ≡ memory.old }
{
    if scope.used > memory.len() {
        return Err(Refusal::Memory);
    }
    if map.place_count() > MOST_PLACES {
        return Err(Refusal::Size);
    }
    let (used, free) = memory.split_at_mut(scope.used);
    let before = scope.before.labels(used);
    let crossing = Crossing {
        scope,
        map,
        before: &before,
    };
    // A match, since where too few labels are free they are all blanked too.
    match crossing.settle(free) {
        Some(settled) => Ok(settled),
        None => {
            blank_from(memory, scope.used);
            Err(Refusal::Full)
        }
    }
}
