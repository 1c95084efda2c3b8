use super::*;
use std::test::Fail;

#[test]
fn a_short_input_is_read_whole(rt: HostRuntime) -> Result<(), Fail> {
    let bytes = chain_file(rt.alloc(), b"CHN".as_slice())?;
    assert_eq!(rt; bytes.as_slice(), b"CHN".as_slice());
    Ok(())
}

#[test]
fn what_follows_is_left(rt: HostRuntime) -> Result<(), Fail> {
    let long = vec![in rt.alloc(); 7u8; 65_540]?;
    let bytes = chain_file(rt.alloc(), long.as_slice())?;
    assert_eq!(rt; bytes.len(), 65_537);
    Ok(())
}
