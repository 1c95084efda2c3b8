use super::*;
use std::test::Fail;

#[test]
fn a_refused_file_gives_one_line(rt: HostRuntime) -> Result<(), Fail> {
    let short = Account::of(b"CHN").to_string(rt.alloc())?;
    assert_eq!(rt; short.as_str(), "refused 12 length\n");
    let other = Account::of(b"a text that is no chain file").to_string(rt.alloc())?;
    assert_eq!(rt; other.as_str(), "refused 10 mark\n");
    Ok(())
}

#[test]
fn a_chain_of_all_four_weights_names_its_bounds(rt: HostRuntime) -> Result<(), Fail> {
    let file =
        b"CHN\x00\x01\x03\x01\x00\x00\x00\x00\xff\xff\xff\xff\x00\x00\x00\x06\x00\x00\x03\xe8\x00\x00\x00\x05LNK\x00\x01\x00\x01\x00\x00\x00\x00";
    let text = Account::of(file).to_string(rt.alloc())?;
    assert_eq!(rt;
        text.as_str(),
        "selection: 3 (delay, fee, width and colours)\ncarriers: 1\ndestination: node 0 of carrier 0\nsource: node 0 of carrier 0\nbounds: delay 1000000000 microseconds, fee 6 cents, width 1000 Mbit/s, colours 5\ncarrier 0: nodes 1, entries 0, links 0 (inside 0, onward 0)\n"
    );
    Ok(())
}
