// The text of listings.
use crate::building::session_of;
use session_listing::listing;
use std::alloc::Global;
use std::process::Abort;
use std::test::Fail;

fn check_listing(rt: &impl Abort, heap: Global, bytes: &[u8], expected: &str) -> Result<(), Fail> {
    assert_eq!(rt; listing(heap, bytes)?.as_str(), expected);
    Ok(())
}

#[test]
fn each_kind_of_call(rt: HostRuntime) -> Result<(), Fail> {
    let bytes =
        b"\x09\x00W\x9A\xBCR\xDE\x00L\x0F\x80L\x10\x0FC\xFF\x00A\x00\x00F\xED\x00I\x00\x00Z\x00\x00";
    check_listing(
        &rt,
        rt.alloc(),
        bytes,
        "0000  09 00     count        9\n\
         0002  57 9A BC  write        port 9Ah, byte BCh\n\
         0005  52 DE 00  read         port DEh\n\
         0008  4C 0F 80  line         port 0Fh, line 0 high\n\
         000B  4C 10 0F  line         port 10h, line 15 low\n\
         000E  43 FF 00  clocks       255\n\
         0011  41 00 00  acknowledge\n\
         0014  46 ED 00  fetch        byte EDh\n\
         0017  49 00 00  int\n\
         001A  5A 00 00  reset\n",
    )
}

#[test]
fn the_empty_session(rt: HostRuntime) -> Result<(), Fail> {
    check_listing(
        &rt,
        rt.alloc(),
        b"\x00\x00",
        "0000  00 00     count        0\n",
    )
}

#[test]
fn both_ends_of_the_longest_listing(rt: HostRuntime) -> Result<(), Fail> {
    let heap = rt.alloc();
    let text = listing(heap, session_of(heap, 4096, b'Z')?.as_slice())?;
    assert!(rt;
        text.as_str().starts_with("0000  00 10     count        4096\n0002  5A 00 00  reset\n")
    );
    assert!(rt;
        text.as_str()
            .ends_with("\n2FFC  5A 00 00  reset\n2FFF  5A 00 00  reset\n")
    );
    Ok(())
}

#[test]
fn each_refusal(rt: HostRuntime) -> Result<(), Fail> {
    let heap = rt.alloc();
    check_listing(
        &rt,
        heap,
        b"\x00",
        "refused 8: the bytes end inside the count\n",
    )?;
    check_listing(
        &rt,
        heap,
        b"\x01\x10",
        "refused 9: the count is above 4,096\n",
    )?;
    check_listing(
        &rt,
        heap,
        b"\x01\x00A\x00",
        "refused 8: the bytes end inside a call\n",
    )?;
    check_listing(
        &rt,
        heap,
        b"\x00\x00A",
        "refused 10: bytes are left over after the last call\n",
    )?;
    check_listing(
        &rt,
        heap,
        b"\x01\x00B\x00\x00",
        "refused 11: a call is malformed\n",
    )
}
