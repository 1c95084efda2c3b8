// The account of one crossing.

use answers::{Settled, Told};
use carriers::Map;
use costs::{Amounts, Cost};
use crossing::{Scope, cross};
use std::io;
use stepping::{Label, Run};

// Crosses one carrier and prints the labels that it settles, none where it is refused. The map and the memory are lent
// for this one crossing.
pub(crate) fn crossed<M: Map<Cost>>(
    rt: &impl Print,
    what: &str,
    map: &M,
    scope: Scope<Cost>,
    memory: &mut [Label<Cost>],
) -> io::Result<Run> {
    let settled = cross(scope, map, memory);
    println!(rt; "{what}: {}", Told(settled.map(Settled)))?;
    let run = Run {
        start: scope.used,
        length: settled.unwrap_or(0),
    };
    labels(rt, memory, run)?;
    Ok(run)
}

fn labels(rt: &impl Print, memory: &[Label<Cost>], run: Run) -> io::Result<()> {
    for (key, label) in memory.iter().enumerate().skip(run.start).take(run.length) {
        let cost = Amounts(label.weight);
        let mark = if label.mark { "marked" } else { "not marked" };
        println!(rt;
            "  key {key}: node {}, {cost}, link {}, next {}, {mark}",
            label.node, label.link, label.next
        )?;
    }
    Ok(())
}
