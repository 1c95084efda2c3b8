// One crossing of a request: its run is settled after those before, and kept.

ghost use Rattle.std.specs.Prelude.{◌≡◌, ◌+◌, ◌≤◌, length, take, drop, IfOk};
ghost use Rattle.carriers.specs.Carrier.{meant as carrier_meant};
ghost use Rattle.stepping.specs.Labels.{meanings};
ghost use Rattle.crossing.specs.Scopes.{marks_of};
ghost use Rattle.histories.specs.Runs.{used};
ghost use Rattle.histories.specs.Stages.{opened};
ghost use Rattle.histories.specs.Crossings.{outcome, crossed};
ghost use Rattle.requests.specs.Table.{runs_of};
ghost use Rattle.requests.specs.Kept.{progress_of, did};
ghost use Rattle.requests.specs.declared.stages.Stage.TheVariants.{Open};

use crate::stages::Progress;
use carriers::{Map, Refusal};
use crossing::{Marks, cross};
use stepping::{Label, Run};
use weights::Kind;

impl<W: Kind> Progress<W> {
    // Settles the run of the map, keeps where it stands, and answers how many labels it settled.
    pub(crate) fn cross<M: Map<W>>(
        &mut self,
        map: &M,
        marks: Marks,
        memory: &mut [Label<W>],
    ) -> Result<usize, Refusal>
        requires room { length (runs_of self.old.runs) ≤ 15 }
        requires memory { length memory.old ≡ self.old.runs.memory }
        requires places { (M.Map.carrier map.now).places ≤ 8192 }
        ensures call { did W.Kind.means (Open self.new) memory.new result ≡ crossed W.Kind.algebra (progress_of W.Kind.means self.old) (meanings W.Kind.means memory.old) opened length (outcome W.Kind.algebra (progress_of W.Kind.means self.old) (carrier_meant W.Kind.means (M.Map.carrier map.now)) (marks_of marks (M.Map.carrier map.now).entry) (meanings W.Kind.means memory.old)) }
        ensures count { IfOk result (λ _. length (runs_of self.new.runs) ≡ length (runs_of self.old.runs) + 1) }
        ensures same { self.new.runs.memory ≡ self.old.runs.memory }
        ensures used { take (used (runs_of self.old.runs)) memory.new ≡ take (used (runs_of self.old.runs)) memory.old }
        ensures rest { IfOk result (λ n. drop (used (runs_of self.old.runs) + n) memory.new ≡ drop (used (runs_of self.old.runs) + n) memory.old) }
    {
        let scope = self.scope(marks);
        let settled = cross(scope, map, memory)?;
        self.runs.push(Run {
            start: scope.used,
            length: settled,
        });
        Ok(settled)
    }
}
