// Requests for the worked chain, within several bounds and in memories of several lengths, and what refused calls leave.

use crate::worked::Books;
use answers::{Ended, Listed, Settled, Told};
use carriers::{Line, Map};
use costs::{Amounts, Cost, cost};
use requests::Request;
use std::io;
use stepping::Label;

// A request whose calls are printed, each with its answer.
#[derive(Drop)]
struct Printed<'a, R> {
    rt: &'a R,
    request: Request<Cost>,
}

impl<'a, R: Print> Printed<'a, R> {
    fn new(rt: &'a R) -> Printed<'a, R> {
        Printed {
            rt,
            request: Request::new(),
        }
    }

    fn open(
        &mut self,
        bounds: Cost,
        destination: u16,
        memory: &mut [Label<Cost>],
    ) -> io::Result<()> {
        match self.request.open(bounds, destination, memory) {
            Ok(()) => println!(self.rt; "  open"),
            Err(refusal) => println!(self.rt; "  open: refused {refusal}"),
        }
    }

    // A cross and a finish answer different types, so one function that takes either call would be no plainer.
    fn cross<M: Map<Cost>>(
        &mut self,
        call: &str,
        map: &M,
        memory: &mut [Label<Cost>],
    ) -> io::Result<()> {
        let settled = self.request.cross(map, memory).map(Settled);
        println!(self.rt; "  {call}: {}", Told(settled))
    }

    fn finish<M: Map<Cost>>(
        &mut self,
        call: &str,
        map: &M,
        source: u16,
        memory: &mut [Label<Cost>],
    ) -> io::Result<()> {
        let ended = self.request.finish(map, source, memory).map(Ended);
        println!(self.rt; "  {call}: {}", Told(ended))
    }

    // The list at a node, and what the request answers to the first position past its end.
    fn list(&self, node: u16, memory: &[Label<Cost>]) -> io::Result<()> {
        let count = self.request.count(node, memory).unwrap_or(0);
        // A request is asked for one item at a time, by its position.
        for k in 0..=count {
            let item = self.request.item(node, k, memory).map(Listed);
            println!(self.rt; "  item {k}: {}", Told(item))?;
        }
        Ok(())
    }
}

// The worked chain within several bounds, and within the first of them with one label fewer.
pub(crate) fn bounded(rt: &impl Print, books: &Books) -> io::Result<()> {
    for (delay, fee) in [(8, 6), (8, 5), (6, 3), (6, 2), (5, 3)] {
        worked(rt, books, cost(delay, fee), &mut [Label::blank(); 7])?;
    }
    worked(rt, books, cost(8, 6), &mut [Label::blank(); 6])
}

// The worked chain, from node 0 of book 1 to node 2 of book 0.
fn worked(
    rt: &impl Print,
    books: &Books,
    bounds: Cost,
    memory: &mut [Label<Cost>],
) -> io::Result<()> {
    println!(rt;
        "request within {}, over {} labels",
        Amounts(bounds),
        memory.len()
    )?;
    let mut request = Printed::new(rt);
    request.open(bounds, 2, memory)?;
    request.cross("cross book 0", &books.first, memory)?;
    request.finish("finish book 1 from node 0", &books.second, 0, memory)?;
    request.list(0, memory)
}

// Book 0 alone, with the destination as the source.
pub(crate) fn alone(rt: &impl Print, books: &Books) -> io::Result<()> {
    println!(rt; "request for book 0 alone")?;
    let mut memory = [Label::blank(); 7];
    let mut request = Printed::new(rt);
    request.open(cost(8, 6), 2, &mut memory)?;
    request.finish("finish book 0 from node 2", &books.first, 2, &mut memory)?;
    request.list(2, &memory)
}

// Calls at the wrong stage, with another memory, with no bound, and from no node; then the same request goes on.
pub(crate) fn refused(rt: &impl Print, books: &Books) -> io::Result<()> {
    println!(rt; "request with refused calls in between")?;
    let Books { first, second } = books;
    let mut memory = [Label::blank(); 7];
    let mut other = [Label::blank(); 5];
    let mut request = Printed::new(rt);
    request.cross("cross before open", first, &mut memory)?;
    request.open(cost(1_000_000_000, 6), 2, &mut memory)?;
    request.open(cost(8, 6), 2, &mut memory)?;
    request.open(cost(8, 6), 2, &mut memory)?;
    request.cross("cross with another memory", first, &mut other)?;
    request.cross("cross where there is no node 2", second, &mut memory)?;
    request.cross("cross book 0", first, &mut memory)?;
    request.finish("finish from node 2", second, 2, &mut memory)?;
    request.finish("finish book 1 from node 0", second, 0, &mut memory)?;
    request.finish("finish again", second, 0, &mut memory)?;
    request.list(0, &memory)
}

// Sixteen lines of one node each, one behind the other: 15 are crossed, a 16th cross is refused, and one finishes.
pub(crate) fn sixteen(rt: &impl Print) -> io::Result<()> {
    println!(rt; "request over sixteen lines")?;
    let line = Line::new(1, cost(1, 2)).unwrap();
    let mut memory = [Label::blank(); 16];
    let mut request = Printed::new(rt);
    request.open(cost(99, 99), 0, &mut memory)?;
    for _ in 0..16 {
        request.cross("cross", &line, &mut memory)?;
    }
    request.finish("finish from node 0", &line, 0, &mut memory)?;
    request.list(0, &memory)
}
