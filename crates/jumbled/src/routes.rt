// Routes hop by hop: the chain that a request has crossed, and the weight of a route summed again.

use crate::maps::AnyMap;
use carriers::{Map, Side};
use costs::{Amounts, Cost, cost};
use histories::Hop;
use std::fmt;
use weights::Kind;

// The maps accepted since the request was opened, the destination's first, and then no map: a chain has at most 16.
#[derive(Clone, Copy)]
pub(crate) struct Passed<'a> {
    destination: u16,
    maps: [Option<AnyMap<'a>>; 16],
}

impl<'a> Passed<'a> {
    pub(crate) fn new(destination: u16) -> Passed<'a> {
        Passed {
            destination,
            maps: [None; 16],
        }
    }

    pub(crate) fn push(&mut self, map: AnyMap<'a>) {
        if let Some(room) = self.maps.iter_mut().find(|room| room.is_none()) {
            *room = Some(map);
        }
    }

    fn get(&self, position: usize) -> Option<AnyMap<'a>> {
        self.maps.get(position).copied().flatten()
    }

    fn count(&self) -> usize {
        self.maps.iter().filter(|map| map.is_some()).count()
    }

    // The weight of the route with these hops from the node of the latest carrier; none where they do not connect.
    pub(crate) fn sum(&self, node: u16, hops: &[Hop]) -> Option<Cost> {
        let start = Walk {
            position: 0,
            node: self.destination,
            weight: cost(0, 0),
        };
        let walk = hops
            .iter()
            .rev()
            .try_fold(start, |walk, hop| walk.back(self, *hop))?;
        let whole = walk.node == node && self.count().checked_sub(1) == Some(walk.position);
        whole.then_some(walk.weight)
    }
}

// A walk from the destination back: the node that it has come to, and the weight from there.
#[derive(Clone, Copy)]
struct Walk {
    position: usize,
    node: u16,
    weight: Cost,
}

impl Walk {
    // One hop further back; none where the hop does not lead to the walk's node, or leads onward to no entry.
    fn back(self, passed: &Passed, hop: Hop) -> Option<Walk> {
        let map = passed.get(hop.position)?;
        let place = usize::from(hop.link);
        let (tail, side, head) = map.link(place)?;
        let position = match side {
            Side::Inside => hop.position,
            Side::Onward => {
                let onto = hop.position.checked_sub(1)?;
                if !passed.get(onto)?.is_entry(head) {
                    return None;
                }
                onto
            }
        };
        if position != self.position || head != self.node {
            return None;
        }
        Some(Walk {
            position: hop.position,
            node: tail,
            weight: map.weight(place).join(self.weight),
        })
    }
}

// What the sum of a route's hops says of its listed weight.
#[derive(Clone, Copy)]
pub(crate) enum Verdict {
    AsListed(Cost),
    NotAsListed { sum: Cost, listed: Cost },
    NotConnected,
}

impl Verdict {
    // A sum is as listed where the two mean the same weight.
    pub(crate) fn new(sum: Option<Cost>, listed: Cost) -> Verdict {
        match sum {
            Some(sum) if sum.as_good(listed) && listed.as_good(sum) => Verdict::AsListed(sum),
            Some(sum) => Verdict::NotAsListed { sum, listed },
            None => Verdict::NotConnected,
        }
    }
}

impl fmt::Display for Verdict {
    fn fmt<W: fmt::Write>(&self, f: &mut fmt::Formatter<W>) -> fmt::Result {
        match *self {
            Verdict::AsListed(sum) => write!(f, "{}, as listed", Amounts(sum)),
            Verdict::NotAsListed { sum, listed } => {
                write!(f, "{}, NOT AS LISTED {}", Amounts(sum), Amounts(listed))
            }
            Verdict::NotConnected => write!(f, "NOT CONNECTED"),
        }
    }
}

// The hops of a route, with a comma between two of them.
#[derive(Clone, Copy)]
pub(crate) struct Hops<'a>(pub(crate) &'a [Hop]);

impl fmt::Display for Hops<'_> {
    fn fmt<W: fmt::Write>(&self, f: &mut fmt::Formatter<W>) -> fmt::Result {
        let Some((first, others)) = self.0.split_first() else {
            return write!(f, "no hop");
        };
        write!(f, "carrier {} link {}", first.position, first.link)?;
        for hop in others {
            write!(f, ", carrier {} link {}", hop.position, hop.link)?;
        }
        Ok(())
    }
}
