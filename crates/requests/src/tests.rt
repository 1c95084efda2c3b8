ghost use Rattle.std.specs.Prelude.{◌≡◌, true, false, is_some, None};
ghost use Rattle.std.proofs.lemmas.Bool.{false≢true};
ghost use mathlib.Core.Path.{ap};

use super::*;
use carriers::{Line, Map, Refusal, Side};
use histories::{Ending, Hop};
use std::process::Abort;
use std::test::Fail;
use stepping::Label;
use weights::{Delay, Kind};

// Nodes without a link; none of them is an entry.
#[derive(Clone, Copy)]
struct Islands {
    nodes: usize,
    places: usize,
}

impl<W: Kind> Map<W> for Islands {
    ghost carrier = { λ m. record { nodes = m.nodes; places = m.places; at = λ p. None; entry = λ v. false } };

    ghost sound = { λ m. record { tails = λ p l e. absurd (false≢true (ap is_some e)); heads = λ p l e i. absurd (false≢true (ap is_some e)); none_past = λ p h. mathlib.Core.Path.refl; entries = λ v t. absurd t } };

    fn node_count(&self) -> usize {
        self.nodes
    }

    fn place_count(&self) -> usize {
        self.places
    }

    fn is_entry(&self, node: u16) -> bool {
        false
    }

    fn link(&self, place: usize) -> Option<(u16, Side, u16)> {
        None
    }

    fn weight(&self, place: usize) -> W {
        W::neutral()
    }
}

fn label() -> Label<Delay> {
    Label {
        node: 9,
        weight: Delay::new(9),
        link: 9,
        next: 9,
        mark: true,
    }
}

fn without_links(nodes: usize, places: usize) -> Islands {
    Islands { nodes, places }
}

fn opened(
    request: &mut Request<Delay>,
    bound: u32,
    memory: &mut [Label<Delay>],
) -> Result<(), Refusal> {
    request.open(Delay::new(bound), 2, memory)
}

#[test]
fn an_idle_request_is_only_opened(rt: HostRuntime) {
    let mut memory = [label(); 4];
    let mut request = Request::new();
    assert_eq!(rt;
        request.cross(&without_links(3, 0), &mut memory),
        Err(Refusal::Stage)
    );
    assert_eq!(rt;
        request.finish(&without_links(3, 0), 2, &mut memory),
        Err(Refusal::Stage)
    );
    assert_eq!(rt; request.count(2, &memory), Err(Refusal::Stage));
    assert_eq!(rt; request.item(2, 0, &memory).err(), Some(Refusal::Stage));
    assert_eq!(rt;
        opened(&mut request, 1_000_000_000, &mut memory),
        Err(Refusal::Bound)
    );
    assert_eq!(rt; opened(&mut request, 8, &mut memory), Ok(()));
    assert_eq!(rt; opened(&mut request, 8, &mut memory), Err(Refusal::Stage));
}

#[test]
fn an_idle_request_has_nothing_to_expand_or_withdraw(rt: HostRuntime) {
    let mut memory = [label(); 4];
    let mut request = Request::new();
    assert_eq!(rt; request.expand(0, &memory, &mut []), Err(Refusal::Stage));
    assert_eq!(rt; request.withdraw(&mut memory), Err(Refusal::Stage));
}

#[test]
fn a_memory_has_at_most_65536_labels(rt: HostRuntime) -> Result<(), Fail> {
    let mut memory = Vec::new(rt.alloc());
    for _ in 0..65537 {
        memory.push(label())?;
    }
    let mut request = Request::new();
    assert_eq!(rt;
        opened(&mut request, 1_000_000_000, memory.as_mut_slice()),
        Err(Refusal::Memory)
    );
    let _ = memory.pop();
    assert_eq!(rt; opened(&mut request, 8, memory.as_mut_slice()), Ok(()));
    Ok(())
}

#[test]
fn a_finished_request_is_only_asked(rt: HostRuntime) {
    let mut memory = [label(); 4];
    let mut request = Request::new();
    assert_eq!(rt; opened(&mut request, 8, &mut memory), Ok(()));
    assert!(rt; request.finish(&without_links(3, 0), 2, &mut memory).is_ok());
    assert_eq!(rt; opened(&mut request, 8, &mut memory), Err(Refusal::Stage));
    assert_eq!(rt;
        request.cross(&without_links(3, 0), &mut memory),
        Err(Refusal::Stage)
    );
    assert_eq!(rt;
        request.finish(&without_links(3, 0), 2, &mut memory),
        Err(Refusal::Stage)
    );
    assert_eq!(rt;
        opened(&mut request, 1_000_000_000, &mut memory),
        Err(Refusal::Stage)
    );
    assert_eq!(rt;
        request.cross(&without_links(0, 0), &mut memory),
        Err(Refusal::Stage)
    );
    assert_eq!(rt;
        request.finish(&without_links(0, 0), 3, &mut memory),
        Err(Refusal::Stage)
    );
    assert!(rt; request.count(2, &memory).is_ok());
}

#[test]
fn the_first_refusal_of_a_cross_is_answered(rt: HostRuntime) {
    let mut memory = [label(); 4];
    let mut short = [label(); 3];
    let mut request = Request::new();
    assert_eq!(rt; opened(&mut request, 8, &mut memory), Ok(()));
    assert_eq!(rt;
        request.cross(&without_links(0, 0), &mut short),
        Err(Refusal::Memory)
    );
    assert_eq!(rt;
        request.cross(&without_links(0, 0), &mut memory),
        Err(Refusal::Size)
    );
    assert_eq!(rt;
        request.cross(&without_links(1025, 0), &mut memory),
        Err(Refusal::Size)
    );
    assert_eq!(rt;
        request.cross(&without_links(2, 8193), &mut memory),
        Err(Refusal::Size)
    );
    assert_eq!(rt;
        request.cross(&without_links(2, 0), &mut memory),
        Err(Refusal::Node)
    );
    assert!(rt; request.cross(&without_links(3, 8192), &mut memory).is_ok());
    assert!(rt; request.cross(&without_links(2, 0), &mut memory).is_ok());
}

#[test]
fn the_first_refusal_of_a_finish_is_answered(rt: HostRuntime) {
    let mut memory = [label(); 4];
    let mut short = [label(); 3];
    let mut request = Request::new();
    assert_eq!(rt; opened(&mut request, 8, &mut memory), Ok(()));
    assert_eq!(rt;
        request.finish(&without_links(0, 0), 2, &mut short),
        Err(Refusal::Memory)
    );
    assert_eq!(rt;
        request.finish(&without_links(0, 0), 2, &mut memory),
        Err(Refusal::Size)
    );
    assert_eq!(rt;
        request.finish(&without_links(1025, 0), 2, &mut memory),
        Err(Refusal::Size)
    );
    assert_eq!(rt;
        request.finish(&without_links(2, 8193), 1, &mut memory),
        Err(Refusal::Size)
    );
    assert_eq!(rt;
        request.finish(&without_links(2, 0), 1, &mut memory),
        Err(Refusal::Node)
    );
    assert_eq!(rt;
        request.finish(&without_links(3, 0), 3, &mut memory),
        Err(Refusal::Node)
    );
    assert!(rt; request.finish(&without_links(3, 0), 1, &mut memory).is_ok());
}

#[test]
fn a_question_is_refused_for_another_memory_or_key(rt: HostRuntime) {
    let mut memory = [label(); 4];
    let short = [label(); 3];
    let mut request = Request::new();
    assert_eq!(rt; opened(&mut request, 8, &mut memory), Ok(()));
    assert_eq!(rt; request.count(2, &short), Err(Refusal::Memory));
    assert_eq!(rt; request.item(2, 0, &short).err(), Some(Refusal::Memory));
    assert_eq!(rt; request.item(2, 0, &memory).err(), Some(Refusal::Key));
}

#[test]
fn a_carrier_alone_lists_the_destination(rt: HostRuntime) -> Result<(), Fail> {
    let mut memory = [label(); 4];
    let mut request = Request::new();
    assert_eq!(rt; opened(&mut request, 8, &mut memory), Ok(()));
    let ending = request.finish(&without_links(3, 0), 2, &mut memory)?;
    assert_eq!(rt;
        ending,
        Ending {
            routes: Some(1),
            settled: 1
        }
    );
    assert_eq!(rt; request.count(2, &memory)?, 1);
    assert_eq!(rt; request.count(1, &memory)?, 0);
    let item = request.item(2, 0, &memory)?;
    assert_eq!(rt; item.weight.amount(), 0);
    assert_eq!(rt; item.key, 0);
    assert_eq!(rt; request.item(2, 1, &memory).err(), Some(Refusal::Key));
    Ok(())
}

fn crossed_on(
    rt: &impl Abort,
    request: &mut Request<Delay>,
    times: usize,
    memory: &mut [Label<Delay>],
) {
    for _ in 0..times {
        assert!(rt; request.cross(&without_links(3, 0), memory).is_ok());
    }
}

#[test]
fn a_chain_has_sixteen_carriers(rt: HostRuntime) {
    let mut memory = [label(); 4];
    let mut request = Request::new();
    assert_eq!(rt; opened(&mut request, 8, &mut memory), Ok(()));
    crossed_on(&rt, &mut request, 15, &mut memory);
    assert_eq!(rt;
        request.cross(&without_links(0, 0), &mut memory),
        Err(Refusal::Size)
    );
    assert_eq!(rt;
        request.cross(&without_links(3, 0), &mut memory),
        Err(Refusal::Chain)
    );
    assert!(rt; request.finish(&without_links(3, 0), 0, &mut memory).is_ok());
}

#[test]
fn a_run_needs_room(rt: HostRuntime) {
    let mut request = Request::new();
    assert_eq!(rt; opened(&mut request, 8, &mut []), Ok(()));
    assert_eq!(rt;
        request.cross(&without_links(2, 0), &mut []),
        Err(Refusal::Node)
    );
    assert_eq!(rt;
        request.finish(&without_links(2, 0), 2, &mut []),
        Err(Refusal::Node)
    );
    assert_eq!(rt;
        request.cross(&without_links(3, 0), &mut []),
        Err(Refusal::Full)
    );
    assert_eq!(rt;
        request.finish(&without_links(3, 0), 2, &mut []),
        Err(Refusal::Full)
    );
}

#[test]
fn a_withdrawn_request_is_as_when_made(rt: HostRuntime) {
    let mut memory = [label(); 4];
    let mut short = [label(); 3];
    let mut request = Request::new();
    assert_eq!(rt; opened(&mut request, 8, &mut memory), Ok(()));
    assert!(rt; request.finish(&without_links(3, 0), 2, &mut memory).is_ok());
    assert_eq!(rt; request.withdraw(&mut short), Err(Refusal::Memory));
    assert_eq!(rt; short[0].node, 9);
    assert_eq!(rt; request.withdraw(&mut memory), Ok(()));
    for label in memory {
        assert_eq!(rt; (label.node, label.link, label.next), (0, 0, 0));
        assert_eq!(rt; (label.weight.amount(), label.mark), (0, false));
    }
    assert_eq!(rt; request.count(2, &memory), Err(Refusal::Stage));
    assert_eq!(rt; opened(&mut request, 8, &mut short), Ok(()));
}

fn hop(position: usize, link: u16) -> Hop {
    Hop { position, link }
}

// Finished from node 0 over two lines: one node with one link onward, and two nodes with a link in between.
fn over_two_lines(
    request: &mut Request<Delay>,
    memory: &mut [Label<Delay>],
) -> Result<usize, Refusal> {
    request.open(Delay::new(20), 1, memory)?;
    request.cross(&Line::new(2, Delay::new(5))?, memory)?;
    request.finish(&Line::new(1, Delay::new(7))?, 0, memory)?;
    Ok(request.item(0, 0, memory)?.key)
}

#[test]
fn a_key_is_expanded_from_the_source_on(rt: HostRuntime) -> Result<(), Fail> {
    let mut memory = [label(); 4];
    let mut request = Request::new();
    let key = over_two_lines(&mut request, &mut memory)?;
    assert_eq!(rt; key, 2);
    let mut hops = [hop(9, 9); 3];
    assert_eq!(rt; request.expand(key, &memory, &mut hops)?, 2);
    assert_eq!(rt; hops, [hop(1, 0), hop(0, 0), hop(9, 9)]);
    assert_eq!(rt; request.expand(0, &memory, &mut [])?, 0);
    Ok(())
}

#[test]
fn an_expansion_that_is_refused_writes_nothing(rt: HostRuntime) -> Result<(), Fail> {
    let mut memory = [label(); 4];
    let short = [label(); 3];
    let mut request = Request::new();
    let key = over_two_lines(&mut request, &mut memory)?;
    let mut hops = [hop(9, 9); 1];
    assert_eq!(rt; request.expand(7, &short, &mut hops), Err(Refusal::Memory));
    assert_eq!(rt; request.expand(3, &memory, &mut hops), Err(Refusal::Key));
    assert_eq!(rt; request.expand(3, &memory, &mut []), Err(Refusal::Key));
    assert_eq!(rt;
        request.expand(key, &memory, &mut hops),
        Err(Refusal::Short)
    );
    memory[1].next = 1;
    assert_eq!(rt; request.expand(key, &memory, &mut hops), Err(Refusal::Key));
    assert_eq!(rt; hops, [hop(9, 9)]);
    Ok(())
}
