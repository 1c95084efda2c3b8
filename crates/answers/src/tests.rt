use super::*;
use costs::cost;
use std::test::Fail;

#[test]
fn a_finish_is_told_with_its_routes(rt: HostRuntime) -> Result<(), Fail> {
    for (routes, words) in [
        (None, "no route, 3 settled"),
        (Some(2), "2 listed, 3 settled"),
    ] {
        let ending = Ending { routes, settled: 3 };
        let text = Ended(ending).to_string(rt.alloc())?;
        assert_eq!(rt; text.as_str(), words);
    }
    Ok(())
}

#[test]
fn an_item_is_told_with_its_key(rt: HostRuntime) -> Result<(), Fail> {
    let item = Item {
        weight: cost(5, 6),
        key: 7,
    };
    let text = Listed(item).to_string(rt.alloc())?;
    assert_eq!(rt; text.as_str(), "delay 5, fee 6, key 7");
    Ok(())
}

#[test]
fn an_answer_is_a_value_or_a_refusal(rt: HostRuntime) -> Result<(), Fail> {
    let value = Told(Ok(Settled(4))).to_string(rt.alloc())?;
    assert_eq!(rt; value.as_str(), "4 settled");
    let refused: Told<Settled> = Told(Err(Refusal::Full));
    let refused = refused.to_string(rt.alloc())?;
    assert_eq!(rt; refused.as_str(), "refused 7 full");
    Ok(())
}
