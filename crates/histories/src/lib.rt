// Histories: what each call of a request does, and what stands after every history of calls.

#![tactic(auto)]

ghost use Rattle.histories.specs.Promise.{Staged, Finished, FinishedAsTold, Underway, UnderwayAsTold, Unchanged};
ghost use Rattle.histories.specs.Worked.{Worked};

use weights::Kind;

// What a finish answers: how many routes are listed at its source, `None` where there is no route, and how many labels
// it settled.
#[derive(Clone, Copy, PartialEq, Eq, Debug)]
pub struct Ending {
    pub routes: Option<usize>,
    pub settled: usize,
}

// A line of the list at a node: the weight of a route, and the key of its label.
#[derive(Clone, Copy)]
pub struct Item<W> {
    pub weight: W,
    pub key: usize,
}

// A hop of a route: the place of its link, and the position of the link's carrier in the chain. The
// destination's carrier has position 0.
#[derive(Clone, Copy, PartialEq, Eq, Debug)]
pub struct Hop {
    pub position: usize,
    pub link: u16,
}

// For every kind of weight and every history: the stage that calls and answers tell, what a finished request has
// found, what an open one has found so far, and that a refused call leaves the request and its labels as they were.
pub fn histories_stand<W: Kind>()
    ensures finished { Finished W.Kind.algebra }
    ensures underway { Underway W.Kind.algebra }
    ensures refused { Unchanged W.Kind.algebra }
    ensures staged { Staged W.Kind.algebra }
    ensures finished_as_told { FinishedAsTold W.Kind.algebra }
    ensures underway_as_told { UnderwayAsTold W.Kind.algebra }
{}

// A chain of two carriers worked through, call by call.
pub fn worked_cases()
    ensures { Worked }
{}
