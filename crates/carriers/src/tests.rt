use super::*;
use std::test::Fail;
use weights::Delay;

#[test]
fn a_refusal_tells_its_number_and_its_word(rt: HostRuntime) -> Result<(), Fail> {
    assert_eq!(rt; Refusal::Stage.number(), 1);
    assert_eq!(rt; Refusal::Full.word(), "full");
    let text = Refusal::Field.to_string(rt.alloc())?;
    assert_eq!(rt; text.as_str(), "13 field");
    Ok(())
}

#[test]
fn a_side_has_the_number_0_or_1(rt: HostRuntime) {
    assert_eq!(rt; Side::try_from(0), Ok(Side::Inside));
    assert_eq!(rt; Side::try_from(1), Ok(Side::Onward));
    assert_eq!(rt; Side::try_from(2), Err(Refusal::Field));
}

fn three_nodes() -> Result<Line<Delay>, Refusal> {
    Line::new(3, Delay::new(5))
}

#[test]
fn a_line_of_three_nodes_leads_onward_at_its_end(rt: HostRuntime) -> Result<(), Fail> {
    let line = three_nodes()?;
    let links = [
        (0, Some((0, Side::Inside, 1)), 5),
        (1, Some((1, Side::Inside, 2)), 5),
        (2, Some((2, Side::Onward, 0)), 5),
        (3, None, 0),
    ];
    for (place, link, delay) in links {
        assert_eq!(rt; line.link(place), link);
        assert_eq!(rt; line.weight(place).amount(), delay);
    }
    assert_eq!(rt; line.node_count(), 3);
    assert_eq!(rt; line.place_count(), 3);
    assert!(rt; line.is_entry(0) && !line.is_entry(1));
    Ok(())
}

#[test]
fn a_line_has_1_to_1024_nodes(rt: HostRuntime) -> Result<(), Fail> {
    assert!(rt; Line::new(0, Delay::new(5)).is_err());
    assert!(rt; Line::new(1, Delay::new(5)).is_ok());
    assert!(rt; Line::new(1024, Delay::new(5)).is_ok());
    match Line::new(1025, Delay::new(5)) {
        Ok(_) => Err(Fail::new("a line of 1,025 nodes")),
        Err(refusal) => {
            assert_eq!(rt; refusal, Refusal::Size);
            Ok(())
        },
    }
}

#[test]
fn a_fence_keeps_what_is_within_its_limit(rt: HostRuntime) -> Result<(), Fail> {
    let map = three_nodes()?;
    let onward = Some((2, Side::Onward, 0));
    for (limit, link, delay) in [(5, onward, 5), (4, None, 0)] {
        let limit = Delay::new(limit);
        let fence = Fence { map, limit };
        assert_eq!(rt; fence.link(2), link);
        assert_eq!(rt; fence.weight(2).amount(), delay);
        assert!(rt; fence.is_entry(0));
    }
    Ok(())
}
