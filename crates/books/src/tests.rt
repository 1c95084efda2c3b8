// The reader on the worked chain: two carriers, and each way of breaking a byte of it.

use super::*;
use carriers::{Map, Refusal, Side};
use std::test::Fail;
use weights::{Delay, Fee, Pair};

// Its header has 27 bytes; book 0 begins at 27, its entries at 38 and its links at 42, book 1 at 138 and its links at 149.
const WORKED: [u8; 245] = [
    0x43, 0x48, 0x4e, 0x00, 0x01, 0x02, 0x02, 0x00, 0x02, 0x00, 0x00, 0x00, 0x00, 0x00, 0x08, 0x00,
    0x00, 0x00, 0x06, 0x00, 0x00, 0x03, 0xe8, 0x00, 0x00, 0x00, 0x00, 0x4c, 0x4e, 0x4b, 0x00, 0x01,
    0x00, 0x03, 0x00, 0x04, 0x00, 0x02, 0x00, 0x00, 0x00, 0x01, 0x00, 0x00, 0x00, 0x00, 0x00, 0x02,
    0x00, 0x00, 0x00, 0x00, 0x00, 0x05, 0x00, 0x00, 0x00, 0x01, 0x00, 0x00, 0x03, 0xe8, 0x00, 0x00,
    0x00, 0x00, 0x00, 0x00, 0x00, 0x00, 0x00, 0x01, 0x00, 0x00, 0x00, 0x00, 0x00, 0x01, 0x00, 0x00,
    0x00, 0x01, 0x00, 0x00, 0x03, 0xe8, 0x00, 0x00, 0x00, 0x00, 0x00, 0x01, 0x00, 0x00, 0x00, 0x02,
    0x00, 0x00, 0x00, 0x00, 0x00, 0x02, 0x00, 0x00, 0x00, 0x03, 0x00, 0x00, 0x03, 0xe8, 0x00, 0x00,
    0x00, 0x00, 0x00, 0x01, 0x00, 0x00, 0x00, 0x02, 0x00, 0x00, 0x00, 0x00, 0x00, 0x02, 0x00, 0x00,
    0x00, 0x04, 0x00, 0x00, 0x03, 0xe8, 0x00, 0x00, 0x00, 0x00, 0x4c, 0x4e, 0x4b, 0x00, 0x01, 0x00,
    0x02, 0x00, 0x04, 0x00, 0x00, 0x00, 0x00, 0x00, 0x00, 0x00, 0x01, 0x00, 0x00, 0x00, 0x00, 0x00,
    0x01, 0x00, 0x00, 0x00, 0x00, 0x00, 0x00, 0x03, 0xe8, 0x00, 0x00, 0x00, 0x00, 0x00, 0x00, 0x01,
    0x00, 0x00, 0x00, 0x00, 0x00, 0x00, 0x00, 0x00, 0x02, 0x00, 0x00, 0x00, 0x02, 0x00, 0x00, 0x03,
    0xe8, 0x00, 0x00, 0x00, 0x00, 0x00, 0x01, 0x01, 0x00, 0x00, 0x01, 0x00, 0x00, 0x00, 0x00, 0x00,
    0x03, 0x00, 0x00, 0x00, 0x00, 0x00, 0x00, 0x03, 0xe8, 0x00, 0x00, 0x00, 0x00, 0x00, 0x01, 0x00,
    0x00, 0x00, 0x00, 0x00, 0x00, 0x00, 0x00, 0x00, 0x00, 0x00, 0x00, 0x00, 0x00, 0x00, 0x00, 0x03,
    0xe8, 0x00, 0x00, 0x00, 0x00,
];

fn refusal(bytes: &[u8]) -> Option<Refusal> {
    Chain::read(bytes).err()
}

fn put(file: &mut [u8], at: usize, value: u8) {
    if let Some(byte) = file.get_mut(at) {
        *byte = value;
    }
}

#[test]
fn the_worked_chain_is_read_as_it_lies(rt: HostRuntime) -> Result<(), Fail> {
    let chain = Chain::read(&WORKED)?;
    assert_eq!(rt; chain.destination(), 2);
    assert_eq!(rt; chain.source(), 0);
    assert_eq!(rt; chain.carrier_count(), 2);
    assert!(rt; chain.book(2).is_none());
    assert_eq!(rt; chain.books().count(), 2);
    let book = chain.book(0).ok_or("no book")?;
    assert_eq!(rt; book.node_count(), 3);
    assert_eq!(rt; book.entry(1), Some(1));
    assert_eq!(rt; book.entry(2), None);
    let next = chain.book(1).ok_or("no book")?;
    let link = next.link(2).ok_or("no link")?;
    assert_eq!(rt; link.tail, 1);
    assert_eq!(rt; link.side, Side::Onward);
    assert_eq!(rt; link.head, 1);
    assert_eq!(rt; link.delay, 3);
    assert_eq!(rt; link.width, 1000);
    assert!(rt; next.link(4).is_none());
    Ok(())
}

#[test]
fn each_broken_byte_has_its_refusal(rt: HostRuntime) {
    let cases = [
        (0, 0, Refusal::Mark),
        (4, 2, Refusal::Version),
        (5, 0, Refusal::Field),
        (5, 4, Refusal::Field),
        (6, 0, Refusal::Field),
        (6, 17, Refusal::Field),
        (6, 1, Refusal::Length),
        (6, 3, Refusal::Length),
        (29, 0, Refusal::Mark),
        (30, 1, Refusal::Version),
        (33, 0, Refusal::Size),
        (32, 4, Refusal::Size),
        (34, 33, Refusal::Size),
        (34, 31, Refusal::Length),
        (36, 1, Refusal::Length),
        (39, 1, Refusal::Field),
        (41, 3, Refusal::Field),
        (43, 3, Refusal::Field),
        (44, 2, Refusal::Field),
        (45, 1, Refusal::Field),
        (47, 3, Refusal::Field),
        (48, 1, Refusal::Field),
        (49, 1, Refusal::Field),
        (50, 60, Refusal::Field),
        (54, 60, Refusal::Field),
        (138, 0, Refusal::Mark),
    ];
    for (at, value, expected) in cases {
        let mut file = WORKED;
        put(&mut file, at, value);
        assert_eq!(rt; refusal(&file), Some(expected));
    }
}

#[test]
fn of_two_faults_the_leftmost_rule_decides(rt: HostRuntime) {
    let cases = [
        (0, 0, 4, 2, Refusal::Mark),
        (4, 2, 5, 0, Refusal::Version),
        (5, 0, 27, 0, Refusal::Field),
        (27, 0, 31, 2, Refusal::Mark),
        (31, 2, 33, 0, Refusal::Version),
        (33, 0, 36, 1, Refusal::Size),
        (36, 1, 44, 2, Refusal::Length),
        (44, 2, 138, 0, Refusal::Field),
        (138, 0, 6, 1, Refusal::Length),
        (6, 17, 27, 0, Refusal::Field),
        (44, 2, 6, 1, Refusal::Field),
    ];
    for (at, value, other, also, expected) in cases {
        let mut file = WORKED;
        put(&mut file, at, value);
        put(&mut file, other, also);
        assert_eq!(rt; refusal(&file), Some(expected));
    }
}

#[test]
fn too_few_or_too_many_bytes_are_a_length(rt: HostRuntime) -> Result<(), Fail> {
    for n in 0..245usize {
        assert_eq!(rt; refusal(&WORKED[0..n]), Some(Refusal::Length));
    }
    let mut unmarked = WORKED;
    put(&mut unmarked, 0, 0);
    assert_eq!(rt; refusal(&unmarked[0..26]), Some(Refusal::Length));
    put(&mut unmarked, 0, 0x43);
    put(&mut unmarked, 27, 0);
    assert_eq!(rt; refusal(&unmarked[0..37]), Some(Refusal::Length));
    let mut longer = WORKED.to_vec(rt.alloc())?;
    longer.push(0)?;
    assert_eq!(rt; refusal(longer.as_slice()), Some(Refusal::Length));
    assert_eq!(rt; refusal(&[0u8; 65_536]), Some(Refusal::Mark));
    assert_eq!(rt; refusal(&[0u8; 65_537]), Some(Refusal::Length));
    Ok(())
}

#[test]
fn a_book_read_alone_has_no_byte_more(rt: HostRuntime) -> Result<(), Fail> {
    let book = Book::read(&WORKED[138..245])?;
    assert_eq!(rt; book.links_on(Side::Inside), 2);
    assert_eq!(rt; book.links_on(Side::Onward), 2);
    assert!(rt; Book::read(&WORKED[138..244]).is_err());
    assert_eq!(rt; Book::read(&WORKED[27..245]).err(), Some(Refusal::Length));
    Ok(())
}

#[test]
fn a_bound_above_the_ceiling_is_read_as_the_ceiling(rt: HostRuntime) -> Result<(), Fail> {
    let mut file = WORKED;
    put(&mut file, 11, 255);
    match Chain::read(&file)?.bounds() {
        Bounds::DelayFee(bound) => {
            assert_eq!(rt; bound.first.amount(), 1_000_000_000);
            assert_eq!(rt; bound.second.amount(), 6);
            Ok(())
        }
        _ => Err(Fail::new("another selection")),
    }
}

#[test]
fn a_book_weighs_its_links_in_each_kind(rt: HostRuntime) -> Result<(), Fail> {
    let book = Book::read(&WORKED[138..245])?;
    for (place, delay, fee) in [(0, 1, 0), (1, 2, 2), (2, 3, 0), (4, 0, 0)] {
        let alone: Delay = book.weight(place);
        assert_eq!(rt; alone.amount(), delay);
        let both: Pair<Delay, Fee> = book.weight(place);
        assert_eq!(rt; both.first.amount(), delay);
        assert_eq!(rt; both.second.amount(), fee);
    }
    Ok(())
}

#[test]
fn a_book_tells_its_entries(rt: HostRuntime) -> Result<(), Fail> {
    let chain = Chain::read(&WORKED)?;
    let book = chain.book(0).ok_or("no book")?;
    assert!(rt; book.is_entry(0) && book.is_entry(1));
    assert!(rt; !book.is_entry(2) && !book.is_entry(3));
    Ok(())
}

#[test]
fn a_column_past_the_end_reads_as_0(rt: HostRuntime) {
    let short = Pair::<Delay, Fee>::read(&[7]);
    assert_eq!(rt; short.first.amount(), 7);
    assert_eq!(rt; short.second.amount(), 0);
}
