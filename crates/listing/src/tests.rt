use super::*;
use std::test::Fail;

// A chain of two carriers, within delay 8 and fee 6.
const SAMPLE: [u8; 245] =
    *b"CHN\x00\x01\x02\x02\x00\x02\x00\x00\x00\x00\x00\x08\x00\x00\x00\x06\x00\x00\x03\xe8\x00\x00\x00\x00LNK\x00\x01\x00\x03\x00\x04\x00\x02\x00\x00\x00\x01\x00\x00\x00\x00\x00\x02\x00\x00\x00\x00\x00\x05\x00\x00\x00\x01\x00\x00\x03\xe8\x00\x00\x00\x00\x00\x00\x00\x00\x00\x01\x00\x00\x00\x00\x00\x01\x00\x00\x00\x01\x00\x00\x03\xe8\x00\x00\x00\x00\x00\x01\x00\x00\x00\x02\x00\x00\x00\x00\x00\x02\x00\x00\x00\x03\x00\x00\x03\xe8\x00\x00\x00\x00\x00\x01\x00\x00\x00\x02\x00\x00\x00\x00\x00\x02\x00\x00\x00\x04\x00\x00\x03\xe8\x00\x00\x00\x00LNK\x00\x01\x00\x02\x00\x04\x00\x00\x00\x00\x00\x00\x00\x01\x00\x00\x00\x00\x00\x01\x00\x00\x00\x00\x00\x00\x03\xe8\x00\x00\x00\x00\x00\x00\x01\x00\x00\x00\x00\x00\x00\x00\x00\x02\x00\x00\x00\x02\x00\x00\x03\xe8\x00\x00\x00\x00\x00\x01\x01\x00\x00\x01\x00\x00\x00\x00\x00\x03\x00\x00\x00\x00\x00\x00\x03\xe8\x00\x00\x00\x00\x00\x01\x00\x00\x00\x00\x00\x00\x00\x00\x00\x00\x00\x00\x00\x00\x00\x00\x03\xe8\x00\x00\x00\x00";

#[test]
fn the_sample_lists_two_routes(rt: HostRuntime) -> Result<(), Fail> {
    let file = SAMPLE;
    let text = listing(rt.alloc(), &file)?;
    assert_eq!(rt; text.as_str(), "routes 2\n1: 5 6 key 5\n2: 6 3 key 6\n");
    Ok(())
}

#[test]
fn lower_bounds_list_fewer_routes(rt: HostRuntime) -> Result<(), Fail> {
    let mut file = SAMPLE;
    file[18] = 5;
    let one = listing(rt.alloc(), &file)?;
    assert_eq!(rt; one.as_str(), "routes 1\n1: 6 3 key 5\n");
    file[14] = 6;
    file[18] = 2;
    let none = listing(rt.alloc(), &file)?;
    assert_eq!(rt; none.as_str(), "no route\n");
    Ok(())
}

#[test]
fn the_selection_says_which_weights_count(rt: HostRuntime) -> Result<(), Fail> {
    let mut file = SAMPLE;
    file[5] = 1;
    let delays = listing(rt.alloc(), &file)?;
    assert_eq!(rt; delays.as_str(), "routes 1\n1: 5 key 3\n");
    file[5] = 3;
    let all = listing(rt.alloc(), &file)?;
    assert_eq!(rt;
        all.as_str(),
        "routes 2\n1: 5 6 1000 0 key 5\n2: 6 3 1000 0 key 6\n"
    );
    Ok(())
}

#[test]
fn a_file_that_is_refused_gives_one_line(rt: HostRuntime) -> Result<(), Fail> {
    let short = listing(rt.alloc(), b"CHN")?;
    assert_eq!(rt; short.as_str(), "refused 12\n");
    let mut file = SAMPLE;
    file[4] = 2;
    let later = listing(rt.alloc(), &file)?;
    assert_eq!(rt; later.as_str(), "refused 11\n");
    Ok(())
}

#[test]
fn a_call_that_is_refused_gives_one_line(rt: HostRuntime) -> Result<(), Fail> {
    let mut file = SAMPLE;
    file[8] = 3;
    let text = listing(rt.alloc(), &file)?;
    assert_eq!(rt; text.as_str(), "refused 6\n");
    Ok(())
}
