// What a request keeps: its stage, and the progress of one that is open or finished.

ghost use Rattle.std.specs.Prelude.{◌≡◌, length, IfOk};
ghost use Rattle.requests.specs.Kept.{progress_for, begun};
ghost use Rattle.requests.specs.Scoped.{scope_of};

use crate::runs::Runs;
use carriers::Refusal;
use crossing::{Before, Marks, Scope};
use stepping::Label;
use weights::Kind;

// What an open or a finished request keeps.
#[derive(Clone, Copy)]
pub struct Progress<W> {
    pub bounds: W,
    pub destination: u16,
    pub runs: Runs,
}

impl<W: Kind> Progress<W> {
    // What the next crossing is told.
    pub(crate) fn scope(&self, marks: Marks) -> Scope<W>
        ensures { result ≡ scope_of self.now marks }
    {
        Scope {
            bounds: self.bounds,
            used: self.runs.used(),
            before: match self.runs.latest() {
                Some(run) => Before::Run(run),
                None => Before::Destination(self.destination),
            },
            marks,
        }
    }
}

// A request is idle, open or finished.
#[derive(Clone, Copy)]
pub enum Stage<W> {
    Idle,
    Open(Progress<W>),
    Finished(Progress<W>),
}

// The calls that ask for a request's progress, with no stage in their types: a call and a stage are matched together in
// one place, `progress_for`.
#[derive(Clone, Copy)]
pub enum Call {
    Cross,
    Finish,
    Withdraw,
    Ask,
}

impl<W: Kind> Stage<W> {
    // The progress, where the call is for this stage.
    pub(crate) fn progress_for(&self, call: Call) -> Result<Progress<W>, Refusal>
        ensures { result ≡ progress_for self.now call }
    {
        match (*self, call) {
            (Stage::Open(progress), _) => Ok(progress),
            (Stage::Finished(progress), Call::Withdraw | Call::Ask) => Ok(progress),
            _ => Err(Refusal::Stage),
        }
    }

    // The progress, where the call is for this stage and the memory has as many labels as when the request was opened.
    pub(crate) fn begun(&self, call: Call, memory: &[Label<W>]) -> Result<Progress<W>, Refusal>
        ensures begun { result ≡ begun self.now call memory.now }
        ensures memory { IfOk result (λ p. length memory.now ≡ p.runs.memory) }
    {
        let progress = self.progress_for(call)?;
        if memory.len() != progress.runs.memory() {
            return Err(Refusal::Memory);
        }
        Ok(progress)
    }
}
