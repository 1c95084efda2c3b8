// A long jumbled list of calls on one request, with the routes that each accepted crossing lists.

use crate::calls::Call;
use crate::draws::{Dice, Standing};
use crate::maps::{AnyMap, Books};
use crate::routes::{Hops, Passed, Verdict};
use crate::tallies::Tally;
use answers::{Listed, Told};
use carriers::Map;
use costs::Cost;
use histories::{Hop, Item};
use requests::Request;
use std::{io, mem};
use stepping::Label;

// From here the draws give chains of one to five carriers with routes, and each of the refusals 1, 2, 3, 6 and 7.
const SEED: u32 = 22_698;

const CALLS: usize = 150;

// The most labels that a memory has, and so the most hops that a key has.
const LABELS: usize = 24;

// The calls one by one, and then their tally. Arrays and counts, and no heap: once the calls are being printed, nothing
// but the printing can fail.
pub(crate) fn calls(rt: &impl Print, books: Books) -> io::Result<()> {
    println!(rt; "jumbled calls on one request")?;
    let mut large = [Label::blank(); LABELS];
    let mut small = [Label::blank(); 15];
    let memories = Memories {
        own: &mut large,
        other: &mut small,
    };
    let mut session = Session::new(rt, books, memories);
    for number in 1..=CALLS {
        session.turn(number)?;
    }
    session.tally.print(rt)
}

// Two memories: the one that the request was opened with, and another.
#[derive(Drop)]
struct Memories<'m> {
    own: &'m mut [Label<Cost>],
    other: &'m mut [Label<Cost>],
}

impl Memories<'_> {
    // The memory that a call is handed.
    // It is a function, since a choice between two `&mut` in the caller is not covered by the borrow checker.
    fn handed(&mut self, other: bool) -> &mut [Label<Cost>] {
        if other { self.other } else { self.own }
    }

    fn own(&self) -> &[Label<Cost>] {
        self.own
    }

    // Makes the other memory the request's own.
    fn exchange(&mut self) {
        mem::swap(&mut self.own, &mut self.other);
    }
}

// The request with its memories, and what it has accepted since it was opened.
#[derive(Drop)]
struct Session<'a, R> {
    rt: &'a R,
    dice: Dice<'a>,
    request: Request<Cost>,
    memories: Memories<'a>,
    standing: Standing,
    passed: Passed<'a>,
    tally: Tally,
}

impl<'a, R: Print> Session<'a, R> {
    fn new(rt: &'a R, books: Books<'a>, memories: Memories<'a>) -> Session<'a, R> {
        Session {
            rt,
            dice: Dice::new(SEED, books),
            request: Request::new(),
            memories,
            standing: Standing::Idle,
            passed: Passed::new(0),
            tally: Tally::new(),
        }
    }

    // Draws a call, makes it, and prints it with its answer, and the lists where labels were settled.
    fn turn(&mut self, number: usize) -> io::Result<()> {
        let in_other = self.dice.other_memory();
        let call = self.dice.call(self.standing);
        let memory = self.memories.handed(in_other);
        print!(self.rt; "call {number} in {} labels: {call}: ", memory.len())?;
        let answer = call.make(&mut self.request, memory);
        println!(self.rt; "{}", Told(answer))?;
        self.tally.answer(answer);
        if answer.is_ok() {
            self.keep(call, in_other);
            self.lists(call)?;
        }
        Ok(())
    }

    // Keeps account of a call that was accepted.
    fn keep(&mut self, call: Call<'a>, in_other: bool) {
        match call {
            Call::Open { destination, .. } => {
                if in_other {
                    self.memories.exchange();
                }
                self.passed = Passed::new(destination);
                self.standing = Standing::Opened;
            }
            Call::Cross(map) => {
                self.passed.push(map);
                self.standing = Standing::Crossed;
            }
            Call::Finish { map, .. } => {
                self.passed.push(map);
                self.standing = Standing::Finished;
            }
            Call::Withdraw => self.standing = Standing::Idle,
        }
    }

    // The lists at every entry after a cross, and at the source after a finish.
    fn lists(&mut self, call: Call) -> io::Result<()> {
        match call {
            Call::Cross(map) => self.entry_lists(map),
            Call::Finish { source, .. } => self.list(source),
            Call::Open { .. } | Call::Withdraw => Ok(()),
        }
    }

    fn entry_lists(&mut self, map: AnyMap) -> io::Result<()> {
        let nodes = (0..=u16::MAX).take(map.node_count());
        for node in nodes.filter(|node| map.is_entry(*node)) {
            self.list(node)?;
        }
        Ok(())
    }

    // The list at a node, and what the request answers to the first position past its end.
    fn list(&mut self, node: u16) -> io::Result<()> {
        self.tally.list();
        let count = self.request.count(node, self.memories.own());
        match count {
            Ok(count) => println!(self.rt; "  at node {node}: {count} listed")?,
            Err(refusal) => println!(self.rt; "  at node {node}: refused {refusal}")?,
        }
        // A request is asked for one item at a time, by its position.
        for k in 0..=count.unwrap_or(0) {
            let item = self.request.item(node, k, self.memories.own());
            println!(self.rt; "    item {k}: {}", Told(item.map(Listed)))?;
            if let Ok(item) = item {
                self.route(node, item)?;
            }
        }
        Ok(())
    }

    // The route that an item's key stands for, and its weight summed again.
    fn route(&mut self, node: u16, item: Item<Cost>) -> io::Result<()> {
        let memory = self.memories.own();
        let hop = Hop {
            position: 0,
            link: 0,
        };
        // An array, which takes no heap.
        let mut room = [hop; LABELS];
        match self.request.expand(item.key, memory, &mut room) {
            Ok(count) => {
                let hops = room.get(..count).unwrap_or(&[]);
                let verdict = Verdict::new(self.passed.sum(node, hops), item.weight);
                self.tally.expand(verdict);
                println!(self.rt; "      {}: {verdict}", Hops(hops))
            }
            Err(refusal) => println!(self.rt; "      expand: refused {refusal}"),
        }
    }
}
