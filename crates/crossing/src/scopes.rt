// What a crossing is told besides the map and the memory.

ghost use Rattle.std.specs.Prelude.{◌≡◌, length};
ghost use Rattle.crossing.specs.Scopes.{start_of, before_labels};

use stepping::{Keyed, Label, Run};

// What the run starts from: in the first crossing of a chain the destination, and later the run before. It is no
// Option, since each of the two has a value.
#[derive(Clone, Copy)]
pub enum Before {
    Destination(u16),
    Run(Run),
}

impl Before {
    // The key of the first label of the run before; 0 where there is none.
    pub fn start(self) -> usize
        ensures { result ≡ start_of self }
    {
        match self {
            Before::Destination(_) => 0,
            Before::Run(run) => run.start,
        }
    }

    // The labels of the run before, as far as they are among those in use.
    pub(crate) fn labels<W>(self, used: &[Label<W>]) -> Keyed<'_, W>
        ensures labels { result.labels.now ≡ before_labels self (length used.now) used.now }
        ensures key { result.first_key ≡ start_of self }
    {
        let first_key = self.start();
        let labels = match self {
            Before::Destination(_) => &[],
            Before::Run(run) => {
                let from_start = used.get(run.start..).unwrap_or(&[]);
                from_start.get(..run.length).unwrap_or(from_start)
            }
        };
        Keyed { labels, first_key }
    }
}

// Which labels are marked: those at entry nodes, or those at one node alone.
// No Option, since `None` would not say that the entries are marked.
#[derive(Clone, Copy)]
pub enum Marks {
    Entries,
    Only(u16),
}

// The bounds, how many labels of the memory are in use, what the run starts from, and what is marked.
#[derive(Clone, Copy)]
pub struct Scope<W> {
    pub bounds: W,
    pub used: usize,
    pub before: Before,
    pub marks: Marks,
}
