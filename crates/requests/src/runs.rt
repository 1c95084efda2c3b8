// The runs of the crossings so far.

ghost use Rattle.std.specs.Prelude.{◌≤◌, reverse, take};
ghost use Rattle.histories.specs.Runs.{used};

use stepping::Run;

// The most labels that a memory may have.
pub(crate) const MOST_LABELS: usize = 65536;

// The runs of the crossings so far in a memory of `memory` labels, the first `count` of the table. A request uses no
// heap, so it keeps a table of 16.
#[derive(Clone, Copy)]
pub struct Runs {
    memory: usize,
    table: [Run; 16],
    count: usize,
    ghost addressed: { memory ≤ 65536 },
    ghost few: { count ≤ 16 },
    ghost within: { used (reverse (take count table)) ≤ memory },
}

// The run that has no label.
const EMPTY: Run = Run {
    start: 0,
    length: 0,
};

impl Runs {
    ghost use Rattle.std.specs.Prelude.{◌≡◌, ◌+◌, ◌<◌, [], ◌∷◌, length};
    ghost use Rattle.std.specs.List.{slice_get};
    ghost use Rattle.histories.specs.Runs.{latest, position};
    ghost use Rattle.requests.specs.Table.{runs_of, in_order};

    // No run yet, in a memory of so many labels.
    pub(crate) fn none(memory: usize) -> Runs
        requires { memory ≤ 65536 }
        ensures none { runs_of result ≡ [] }
        ensures memory { result.memory ≡ memory }
    {
        Runs {
            memory,
            table: [EMPTY; 16],
            count: 0,
        }
    }

    // How many labels the memory has.
    pub(crate) fn memory(&self) -> usize
        ensures { result ≡ self.now.memory }
    {
        self.memory
    }

    pub(crate) fn count(&self) -> usize
        ensures { result ≡ length (runs_of self.now) }
    {
        self.count
    }

    // One run more, where the table has room for it.
    pub(crate) fn push(&mut self, run: Run)
        requires room { length (runs_of self.old) < 16 }
        requires within { run.start + run.length ≤ self.old.memory }
        ensures runs { runs_of self.new ≡ run ∷ runs_of self.old }
        ensures memory { self.new.memory ≡ self.old.memory }
    {
        self.table[self.count] = run;
        self.count += 1;
    }

    // The runs in the order in which they were made.
    fn as_slice(&self) -> &[Run]
        ensures { result.now ≡ in_order self.now }
    {
        &self.table[..self.count]
    }

    pub(crate) fn latest(&self) -> Option<Run>
        ensures { result ≡ slice_get (runs_of self.now) 0 }
    {
        self.as_slice().last().copied()
    }

    // The latest run; the empty run at 0 where there is none.
    pub(crate) fn latest_or_empty(&self) -> Run
        ensures { result ≡ latest (runs_of self.now) }
    {
        self.latest().unwrap_or(EMPTY)
    }

    // How many labels are in use: those below the end of the latest run.
    pub(crate) fn used(&self) -> usize
        ensures { result ≡ used (runs_of self.now) }
    {
        let run = self.latest_or_empty();
        run.start + run.length
    }

    // The position in the chain of the carrier whose crossing settled the label with the key.
    pub(crate) fn position(&self, key: usize) -> usize
        ensures { result ≡ position (runs_of self.now) key }
    {
        self.as_slice()
            .iter()
            .rposition(|run| run.start <= key)
            .unwrap_or(0)
    }
}
