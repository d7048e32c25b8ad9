use netlink_packet_core::{
    DecodeError, DoneBuffer, ErrorBuffer, ErrorContext, NetlinkBuffer, NlaBuffer, emit_u32,
    parse_ip, parse_mac, parse_str, parse_u8, parse_u16_be,
};
use std::alloc::{AllocError, Global};
use std::test::Fail;

/// Returns why these bytes begin with no whole attribute.
fn of_attribute(bytes: &[u8]) -> Option<DecodeError> {
    NlaBuffer::new_checked(bytes).err()
}

/// Returns why these bytes begin with no whole frame.
fn of_frame(bytes: &[u8]) -> Option<DecodeError> {
    NetlinkBuffer::new_checked(bytes).err()
}

/// Returns the display of an error.
fn shown(alloc: Global, error: &DecodeError) -> Result<String, Fail> {
    Ok(format!(in alloc; "{error}")?)
}

#[test]
fn causes_are_shown(rt: HostRuntime) -> Result<(), Fail> {
    let mut three = [1u8, 2, 3];
    let short: &[u8] = &three[..2];
    for (refusal, want) in [
        (
            of_frame(&[0x28, 0, 0, 0]),
            "invalid NetlinkBuffer: 4 bytes, at least 16 are needed",
        ),
        (
            of_frame(&[17, 0, 0, 0, 20, 0, 0, 0, 0, 0, 0, 0, 0, 0, 0, 0]),
            "invalid NetlinkBuffer: 16 bytes, at least 17 are needed",
        ),
        (
            DoneBuffer::new_checked(short).err(),
            "invalid DoneBuffer: 2 bytes, at least 4 are needed",
        ),
        (
            ErrorBuffer::new_checked(short).err(),
            "invalid ErrorBuffer: 2 bytes, at least 4 are needed",
        ),
        (
            of_attribute(&[4, 0, 1]),
            "buffer of 3 bytes is too small for an attribute of 4",
        ),
        (
            of_attribute(&[8, 0, 1, 0]),
            "attribute of 8 bytes in a buffer of 4",
        ),
        (
            of_attribute(&[3, 0, 2, 0]),
            "attribute of 3 bytes is shorter than its header, in a buffer of 4",
        ),
        (
            parse_u16_be(&[0x12, 0x34, 0x56]).err(),
            "invalid number: 3 bytes, not 2",
        ),
        (
            parse_mac(short).err(),
            "invalid MAC address: 2 bytes, not 6",
        ),
        (
            parse_ip(short).err(),
            "invalid IP address: 2 bytes, not 4 or 16",
        ),
        (parse_str(&[0xff]).err(), "invalid UTF-8"),
        (Some(DecodeError::memory()), "out of memory"),
        (Some(DecodeError::from(AllocError)), "out of memory"),
    ] {
        let Some(error) = refusal else {
            return Err(Fail::from("accepted"));
        };
        assert!(rt; shown(rt.alloc(), &error)?.as_str() == want);
    }
    let Err(error) = emit_u32(&mut three, 42) else {
        return Err(Fail::from("accepted"));
    };
    assert!(rt;
        shown(rt.alloc(), &error)?.as_str() == "buffer of 3 bytes is too small for a value of 4"
    );
    assert!(rt; three == [1, 2, 3]);
    Ok(())
}

#[test]
fn four_contexts_are_shown(rt: HostRuntime) -> Result<(), Fail> {
    let Err(error) = parse_u8(&[]).context("a").with_context(|| "b") else {
        return Err(Fail::from("accepted"));
    };
    assert!(rt;
        shown(rt.alloc(), &error)?.as_str()
            == "b caused by a caused by invalid number: 0 bytes, not 1"
    );
    let five = error.context("c").with_context(|| "d").context("e");
    assert!(rt;
        shown(rt.alloc(), &five)?.as_str()
            == "d caused by c caused by b caused by a caused by invalid number: 0 bytes, not 1"
    );
    Ok(())
}
