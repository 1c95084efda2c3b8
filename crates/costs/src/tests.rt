use super::*;
use std::test::Fail;

#[test]
fn a_cost_has_both_numbers(rt: HostRuntime) {
    let cost = cost(8, 6);
    assert_eq!(rt; cost.first.amount(), 8);
    assert_eq!(rt; cost.second.amount(), 6);
}

#[test]
fn a_cost_is_written_with_its_words(rt: HostRuntime) -> Result<(), Fail> {
    let text = Amounts(cost(8, 6)).to_string(rt.alloc())?;
    assert_eq!(rt; text.as_str(), "delay 8, fee 6");
    Ok(())
}

#[test]
fn amounts_stop_at_the_ceiling(rt: HostRuntime) -> Result<(), Fail> {
    let text = Amounts(cost(u32::MAX, 0)).to_string(rt.alloc())?;
    assert_eq!(rt; text.as_str(), "delay 1000000000, fee 0");
    Ok(())
}
