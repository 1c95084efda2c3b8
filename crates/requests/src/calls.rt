// The calls of a request.

ghost use Rattle.std.specs.Prelude.{◌≡◌, ◌+◌, true, take, drop, is_err, IfOk, Err, ◌≢◌};
ghost use Rattle.carriers.specs.Carrier.{meant as carrier_meant};
ghost use Rattle.carriers.specs.declared.refusals.Refusal.TheVariants.{Full};
ghost use Rattle.stepping.specs.Labels.{meanings};
ghost use Rattle.histories.specs.Stages.{idle};
ghost use Rattle.histories.specs.Calls.{on_open, on_cross, on_finish};
ghost use Rattle.histories.specs.Histories.{to_withdraw};
ghost use Rattle.histories.specs.Expansion.{on_expand};
ghost use Rattle.histories.specs.Lists.{on_count, on_item};
ghost use Rattle.requests.specs.Called.{Called};
ghost use Rattle.requests.specs.Kept.{stage_of, in_use, did};
ghost use Rattle.requests.specs.Listed.{answered};
ghost use Rattle.requests.specs.Hops.{written};

use crate::requests_kept::Request;
use crate::runs::{MOST_LABELS, Runs};
use crate::stages::{Call, Progress, Stage};
use carriers::{Map, Refusal};
use crossing::{Marks, blank_from};
use histories::{Ending, Hop, Item};
use stepping::Label;
use weights::Kind;

impl<W: Kind> Request<W> {
    // A new request is idle.
    pub fn new() -> Request<W>
        ensures { stage_of W.Kind.means result.stage ≡ idle }
    {
        Request { stage: Stage::Idle }
    }

    // Opens an idle request and blanks the memory.
    pub fn open(
        &mut self,
        bounds: W,
        destination: u16,
        memory: &mut [Label<W>],
    ) -> Result<(), Refusal>
        ensures call { did W.Kind.means self.new.stage memory.new result ≡ on_open W.Kind.algebra (stage_of W.Kind.means self.old.stage) (W.Kind.means bounds) destination (meanings W.Kind.means memory.old) }
        ensures same { is_err result ≡ true → (self.new.stage ≡ self.old.stage) × (memory.new ≡ memory.old) }
    {
        let Stage::Idle = self.stage else {
            return Err(Refusal::Stage);
        };
        if memory.len() > MOST_LABELS {
            return Err(Refusal::Memory);
        }
        if !bounds.may_bound() {
            return Err(Refusal::Bound);
        }
        let runs = Runs::none(memory.len());
        blank_from(memory, 0);
        self.stage = Stage::Open(Progress {
            bounds,
            destination,
            runs,
        });
        Ok(())
    }

    // Crosses the map of the next carrier, and answers how many labels were settled.
    pub fn cross<M: Map<W>>(&mut self, map: &M, memory: &mut [Label<W>]) -> Result<usize, Refusal>
        ensures call { did W.Kind.means self.new.stage memory.new result ≡ on_cross W.Kind.algebra (stage_of W.Kind.means self.old.stage) (carrier_meant W.Kind.means (M.Map.carrier map.now)) (meanings W.Kind.means memory.old) }
        ensures same { is_err result ≡ true → self.new.stage ≡ self.old.stage }
        ensures memory { is_err result ≡ true → (result ≢ Err Full) → memory.new ≡ memory.old }
        ensures used { take (in_use self.old.stage) memory.new ≡ take (in_use self.old.stage) memory.old }
        ensures rest { IfOk result (λ n. drop (in_use self.old.stage + n) memory.new ≡ drop (in_use self.old.stage + n) memory.old) }
    {
        let mut progress = self.stage.begun(Call::Cross, memory)?;
        progress.check_cross(map)?;
        let settled = progress.cross(map, Marks::Entries, memory)?;
        self.stage = Stage::Open(progress);
        Ok(settled)
    }

    // Finishes at the source with the map of the last carrier, and answers how many routes are listed there, and how
    // many labels were settled.
    pub fn finish<M: Map<W>>(
        &mut self,
        map: &M,
        source: u16,
        memory: &mut [Label<W>],
    ) -> Result<Ending, Refusal>
        ensures call { did W.Kind.means self.new.stage memory.new result ≡ on_finish W.Kind.algebra (stage_of W.Kind.means self.old.stage) (carrier_meant W.Kind.means (M.Map.carrier map.now)) source (meanings W.Kind.means memory.old) }
        ensures same { is_err result ≡ true → self.new.stage ≡ self.old.stage }
        ensures memory { is_err result ≡ true → (result ≢ Err Full) → memory.new ≡ memory.old }
        ensures used { take (in_use self.old.stage) memory.new ≡ take (in_use self.old.stage) memory.old }
        ensures rest { IfOk result (λ e. drop (in_use self.old.stage + e.settled) memory.new ≡ drop (in_use self.old.stage + e.settled) memory.old) }
    {
        let mut progress = self.stage.begun(Call::Finish, memory)?;
        progress.check_finish(map, source)?;
        let settled = progress.cross(map, Marks::Only(source), memory)?;
        let listed = progress.latest_labels(memory).count(source);
        self.stage = Stage::Finished(progress);
        Ok(Ending {
            routes: (listed > 0).then_some(listed),
            settled,
        })
    }

    // Blanks every label. The request is idle again, as when it was made.
    pub fn withdraw(&mut self, memory: &mut [Label<W>]) -> Result<(), Refusal>
        ensures call { Called W.Kind.algebra W.Kind.means to_withdraw self.old.stage memory.old result self.new.stage memory.new }
        ensures same { is_err result ≡ true → (self.new.stage ≡ self.old.stage) × (memory.new ≡ memory.old) }
    {
        let progress = self.stage.begun(Call::Withdraw, memory)?;
        blank_from(memory, 0);
        self.stage = Stage::Idle;
        Ok(())
    }

    // How long the list at the node is.
    pub fn count(&self, node: u16, memory: &[Label<W>]) -> Result<usize, Refusal>
        ensures { result ≡ on_count (stage_of W.Kind.means self.now.stage) node (meanings W.Kind.means memory.now) }
    {
        let progress = self.stage.begun(Call::Ask, memory)?;
        Ok(progress.latest_labels(memory).count(node))
    }

    // The k-th of the list at the node, k from 0.
    pub fn item(&self, node: u16, k: usize, memory: &[Label<W>]) -> Result<Item<W>, Refusal>
        ensures { answered W.Kind.means result ≡ on_item (stage_of W.Kind.means self.now.stage) node k (meanings W.Kind.means memory.now) }
    {
        let progress = self.stage.begun(Call::Ask, memory)?;
        progress
            .latest_labels(memory)
            .item(node, k)
            .ok_or(Refusal::Key)
    }

    // Writes the hops of the route that the key stands for to the front of the slice, from the route's source on,
    // and answers how many there are.
    pub fn expand(
        &self,
        key: usize,
        memory: &[Label<W>],
        hops: &mut [Hop],
    ) -> Result<usize, Refusal>
        ensures { written hops.new result ≡ on_expand (stage_of W.Kind.means self.now.stage) key (meanings W.Kind.means memory.now) hops.old }
    {
        let progress = self.stage.begun(Call::Ask, memory)?;
        if key >= progress.runs.used() {
            return Err(Refusal::Key);
        }
        let count = progress.runs.hop_count(key, memory).ok_or(Refusal::Key)?;
        if hops.len() < count {
            return Err(Refusal::Short);
        }
        progress.runs.write_hops(key, memory, &mut hops[..count]);
        Ok(count)
    }
}
