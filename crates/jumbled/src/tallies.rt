// The tally of a jumbled list: its calls by their answers, and what became of the listed keys.

use crate::calls::Answer;
use crate::routes::Verdict;
use carriers::Refusal;
use std::io;

// The refusals that open, cross, finish and withdraw answer.
const ANSWERED: [Refusal; 7] = [
    Refusal::Stage,
    Refusal::Memory,
    Refusal::Bound,
    Refusal::Size,
    Refusal::Chain,
    Refusal::Node,
    Refusal::Full,
];

// How often each came: `refused` has a count for each of the refusals above. Counts, since lists of the answers would
// take heap; saturating, since nothing bounds how often a tally counts.
#[derive(Drop)]
pub(crate) struct Tally {
    calls: usize,
    accepted: usize,
    refused: [usize; 7],
    lists: usize,
    expanded: usize,
    differing: usize,
    disconnected: usize,
}

impl Tally {
    pub(crate) fn new() -> Tally {
        Tally {
            calls: 0,
            accepted: 0,
            refused: [0; 7],
            lists: 0,
            expanded: 0,
            differing: 0,
            disconnected: 0,
        }
    }

    pub(crate) fn answer(&mut self, answer: Result<Answer, Refusal>) {
        self.calls = self.calls.saturating_add(1);
        match answer {
            Ok(_) => self.accepted = self.accepted.saturating_add(1),
            Err(refusal) => self.refuse(refusal),
        }
    }

    fn refuse(&mut self, refusal: Refusal) {
        for (count, answered) in self.refused.iter_mut().zip(ANSWERED) {
            if answered == refusal {
                *count = count.saturating_add(1);
            }
        }
    }

    pub(crate) fn list(&mut self) {
        self.lists = self.lists.saturating_add(1);
    }

    pub(crate) fn expand(&mut self, verdict: Verdict) {
        self.expanded = self.expanded.saturating_add(1);
        match verdict {
            Verdict::AsListed(_) => {}
            Verdict::NotAsListed { .. } => self.differing = self.differing.saturating_add(1),
            Verdict::NotConnected => self.disconnected = self.disconnected.saturating_add(1),
        }
    }

    pub(crate) fn print(&self, rt: &impl Print) -> io::Result<()> {
        self.print_answers(rt)?;
        println!(rt; "{} lists, {} keys expanded", self.lists, self.expanded)?;
        println!(rt; "sums that differ: {}", self.differing)?;
        println!(rt; "routes that do not connect: {}", self.disconnected)
    }

    fn print_answers(&self, rt: &impl Print) -> io::Result<()> {
        println!(rt;
            "{} calls: {} accepted, {} refused",
            self.calls,
            self.accepted,
            self.calls.saturating_sub(self.accepted)
        )?;
        for (count, refusal) in self.refused.iter().zip(ANSWERED) {
            println!(rt; "  refused {refusal}: {count}")?;
        }
        Ok(())
    }
}
