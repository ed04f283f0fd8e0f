// What the reader answers: a session call by call, and each refusal at its edge.
use crate::building::session_of;
use session_format::{Call, FormatRefusal, read_session};
use std::process::Abort;
use std::test::Fail;

const ACCEPTED: Option<FormatRefusal> = None;

const ENDS_INSIDE_COUNT: Option<FormatRefusal> = Some(FormatRefusal::EndsInsideCount);

const TOO_MANY_CALLS: Option<FormatRefusal> = Some(FormatRefusal::TooManyCalls);

const ENDS_INSIDE_CALL: Option<FormatRefusal> = Some(FormatRefusal::EndsInsideCall);

const BYTES_LEFT_OVER: Option<FormatRefusal> = Some(FormatRefusal::BytesLeftOver);

const MALFORMED_CALL: Option<FormatRefusal> = Some(FormatRefusal::MalformedCall);

fn refusal_of(bytes: &[u8]) -> Option<FormatRefusal> {
    read_session(bytes).err()
}

fn check_all(rt: &impl Abort, cases: &[(&[u8], Option<FormatRefusal>)]) {
    for (bytes, expected) in cases {
        assert_eq!(rt; refusal_of(bytes), *expected);
    }
}

#[test]
fn edges_of_the_length(rt: HostRuntime) {
    check_all(
        &rt,
        &[
            (b"", ENDS_INSIDE_COUNT),
            (b"\x00", ENDS_INSIDE_COUNT),
            (b"\x00\x00", ACCEPTED),
            (b"\x00\x00\x00", BYTES_LEFT_OVER),
            (b"\x01\x00", ENDS_INSIDE_CALL),
            (b"\x01\x00A", ENDS_INSIDE_CALL),
            (b"\x01\x00A\x00", ENDS_INSIDE_CALL),
            (b"\x01\x00A\x00\x00", ACCEPTED),
            (b"\x01\x00A\x00\x00\x00", BYTES_LEFT_OVER),
            (b"\x01\x00A\x00\x00A\x00\x00", BYTES_LEFT_OVER),
            (b"\x02\x00A\x00\x00", ENDS_INSIDE_CALL),
            // 4,096 calls are not too many, but these are missing
            (b"\x00\x10", ENDS_INSIDE_CALL),
            // 256 calls, and not the one that the count's bytes would say the other way round
            (b"\x00\x01A\x00\x00", ENDS_INSIDE_CALL),
        ],
    );
}

#[test]
fn operands_that_are_well_formed_and_malformed(rt: HostRuntime) {
    check_all(
        &rt,
        &[
            (b"\x01\x00W\xFF\xFF", ACCEPTED),
            (b"\x01\x00R\xFF\x00", ACCEPTED),
            (b"\x01\x00R\x05\x01", MALFORMED_CALL),
            (b"\x01\x00L\xFF\x0F", ACCEPTED),
            (b"\x01\x00L\xFF\x8F", ACCEPTED),
            (b"\x01\x00L\x00\x10", MALFORMED_CALL),
            (b"\x01\x00L\x00\x20", MALFORMED_CALL),
            (b"\x01\x00L\x00\x40", MALFORMED_CALL),
            (b"\x01\x00L\x00\xC0", MALFORMED_CALL),
            (b"\x01\x00C\x00\x00", ACCEPTED),
            (b"\x01\x00C\xFF\x00", ACCEPTED),
            (b"\x01\x00C\x05\x01", MALFORMED_CALL),
            (b"\x01\x00A\x01\x00", MALFORMED_CALL),
            (b"\x01\x00A\x00\x01", MALFORMED_CALL),
            (b"\x01\x00F\xFF\x00", ACCEPTED),
            (b"\x01\x00F\x05\x01", MALFORMED_CALL),
            (b"\x01\x00I\x00\x00", ACCEPTED),
            (b"\x01\x00I\x01\x00", MALFORMED_CALL),
            (b"\x01\x00I\x00\x01", MALFORMED_CALL),
            (b"\x01\x00Z\x00\x00", ACCEPTED),
            (b"\x01\x00Z\x01\x00", MALFORMED_CALL),
            (b"\x01\x00Z\x00\x01", MALFORMED_CALL),
        ],
    );
}

#[test]
fn letters_that_are_no_call(rt: HostRuntime) {
    check_all(
        &rt,
        &[
            (b"\x01\x00\x00\x00\x00", MALFORMED_CALL),
            (b"\x01\x00B\x00\x00", MALFORMED_CALL),
            (b"\x01\x00w\x00\x00", MALFORMED_CALL),
            (b"\x01\x00\xFF\x00\x00", MALFORMED_CALL),
            (b"\x02\x00W\xFF\xFF?\x00\x00", MALFORMED_CALL),
        ],
    );
}

// Where two refusals fit, the earlier one is given.
#[test]
fn the_order_of_refusals(rt: HostRuntime) {
    check_all(
        &rt,
        &[
            (b"\x01\x10", TOO_MANY_CALLS),
            (b"\x01\x10B", TOO_MANY_CALLS),
            (b"\xFF\xFF", TOO_MANY_CALLS),
            (b"\x02\x00B\x00\x00", ENDS_INSIDE_CALL),
            (b"\x00\x00B\x00\x00", BYTES_LEFT_OVER),
            (b"\x01\x00B\x00\x00\x00", BYTES_LEFT_OVER),
        ],
    );
}

#[test]
fn eleven_calls(rt: HostRuntime) -> Result<(), Fail> {
    let bytes =
        b"\x0B\x00W\x08\x8DW\x00\x80W\x07\x80W\x08\x8BW\x00\x80L\x00\x87I\x00\x00A\x00\x00F\xED\x00F\x4D\x00R\x05\x00";
    let mut calls = read_session(bytes)?;
    assert_eq!(rt; calls.len(), 11);
    let expected = [
        Call::Write {
            port: 0x08,
            byte: 0x8D,
        },
        Call::Write {
            port: 0x00,
            byte: 0x80,
        },
        Call::Write {
            port: 0x07,
            byte: 0x80,
        },
        Call::Write {
            port: 0x08,
            byte: 0x8B,
        },
        Call::Write {
            port: 0x00,
            byte: 0x80,
        },
        Call::Line {
            port: 0x00,
            line: 7,
            high: true,
        },
        Call::AskInt,
        Call::Acknowledge,
        Call::Fetch { byte: 0xED },
        Call::Fetch { byte: 0x4D },
        Call::Read { port: 0x05 },
    ];
    for call in expected {
        assert_eq!(rt; calls.next(), Some(call));
    }
    assert_eq!(rt; calls.next(), None);
    Ok(())
}

#[test]
fn sessions_of_4096_and_4097_calls(rt: HostRuntime) -> Result<(), Fail> {
    let heap = rt.alloc();
    let mut longest = session_of(heap, 4096, b'Z')?;
    assert_eq!(rt; longest.len(), 12_290);
    assert_eq!(rt; read_session(longest.as_slice())?.len(), 4096);
    longest.push(0)?;
    assert_eq!(rt; refusal_of(longest.as_slice()), BYTES_LEFT_OVER);
    longest.truncate(12_289);
    assert_eq!(rt; refusal_of(longest.as_slice()), ENDS_INSIDE_CALL);
    let mut longer = session_of(heap, 4097, b'B')?;
    assert_eq!(rt; refusal_of(longer.as_slice()), TOO_MANY_CALLS);
    longer.push(0)?;
    assert_eq!(rt; refusal_of(longer.as_slice()), TOO_MANY_CALLS);
    Ok(())
}
