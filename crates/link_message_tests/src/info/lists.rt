use link_info::{InfoData, InfoKind, InfoXfrm, LinkInfo};
use netlink_packet_core::{emit_all, fits_all, len_all};
use std::test::Fail;

// An XFRM link, with its data.
const XFRM: &[u8] = b"\x09\0\x01\0xfrm\0\0\0\0\
    \x14\0\x02\0\x08\0\x01\0\x02\0\0\0\x08\0\x02\0\x0a\0\0\0";

/// Returns whether link info, of at most 64 bytes, is written as these bytes.
fn is_written_as(list: &[LinkInfo], bytes: &[u8]) -> bool {
    let mut buffer = [0xffu8; 64];
    let size = len_all(list);
    if !fits_all(list) || size > buffer.len() {
        return false;
    }
    emit_all(list, &mut buffer);
    &buffer[..size] == bytes
}

#[test]
fn a_link_of_ipsec(rt: HostRuntime) -> Result<(), Fail> {
    let list = LinkInfo::parse_list(rt.alloc(), XFRM)?;
    let [
        LinkInfo::Kind(InfoKind::Xfrm),
        LinkInfo::Data(InfoData::Xfrm(data)),
    ] = list.as_slice()
    else {
        return Err(Fail::from("other values"));
    };
    assert!(rt; data.as_slice() == [InfoXfrm::Link(2), InfoXfrm::IfId(10)].as_slice());
    assert!(rt; is_written_as(&list, XFRM));
    Ok(())
}
