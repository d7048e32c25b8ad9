use crate::values::{is_refused, is_shown, is_written_as};
use attribute_tables::parse_first;
use link_info::{
    InfoData, InfoKind, InfoMacVlan, InfoPortData, InfoPortKind, InfoVeth, LinkXstats,
    parse_mac_vlan,
};
use netlink_packet_core::{DecodeError, DefaultNla, Emitable, NlaBuffer, ParseableParametrized};
use std::alloc::Global;
use std::test::Fail;

// The depth to which a list is nested in itself.
const DEPTH: usize = 1000;

/// The data would be rejected under the listed kind of this name.
#[test]
fn a_listed_name_in_other_keeps_bytes(rt: HostRuntime) -> Result<(), Fail> {
    let alloc = rt.alloc();
    let bytes = &[1, 2, 3, 4, 5, 6, 7, 8];
    let kind = InfoKind::Other("vti".to_string(alloc)?);
    let data = InfoData::parse_with_param(alloc, bytes, &kind);
    assert!(rt; is_shown(alloc, data, "Other([1, 2, 3, 4, 5, 6, 7, 8])"));
    let kind = InfoPortKind::Other("vrf".to_string(alloc)?);
    let data = InfoPortData::parse_with_param(alloc, bytes, &kind);
    assert!(rt; is_shown(alloc, data, "Other([1, 2, 3, 4, 5, 6, 7, 8])"));
    Ok(())
}

#[test]
fn statistics_are_bytes(rt: HostRuntime) -> Result<(), Fail> {
    let Ok(buf) = NlaBuffer::new_checked([6u8, 0, 3, 0, 1, 2].as_slice()) else {
        return Err(Fail::from("cut"));
    };
    let statistics = LinkXstats::Other([1u8, 2].to_vec(rt.alloc())?);
    let mut buffer = [0xffu8; 3];
    statistics.emit(&mut buffer);
    assert!(rt; buffer == [1u8, 2, 0xff]);
    let read = LinkXstats::parse_with_param(rt.alloc(), &buf, &InfoKind::Can);
    assert!(rt; read == Ok(statistics));
    Ok(())
}

#[test]
fn a_pair_has_one_attribute(rt: HostRuntime) -> Result<(), Fail> {
    let none: Result<InfoVeth, DecodeError> = parse_first(rt.alloc(), &[]);
    assert!(rt; is_refused(none));
    let first: InfoVeth = parse_first(rt.alloc(), &[5, 0, 2, 0, b'a', 0, 0, 0, 0xff])?;
    assert!(rt; is_written_as(&first, &[5, 0, 2, 0, b'a', 0, 0, 0]));
    Ok(())
}

/// Returns the only attribute of the only list of addresses in a list, if it is kept as it is.
fn kept_inside(list: &[InfoMacVlan]) -> Option<&DefaultNla> {
    match list {
        [InfoMacVlan::MacAddrData(inner)] => match inner.as_slice() {
            [InfoMacVlan::Other(nla)] => Some(nla),
            _ => None,
        },
        _ => None,
    }
}

/// Returns a list in a list, and so on.
fn deep_list(alloc: Global) -> Result<Vec<u8>, Fail> {
    let mut bytes = Vec::new(alloc);
    for depth in 0..DEPTH {
        let length = (4 * (DEPTH - depth)) as u16;
        bytes.extend_from_slice(&length.to_le_bytes())?;
        bytes.extend_from_slice(&[5, 0])?;
    }
    Ok(bytes)
}

#[test]
fn a_deep_list_is_read_one_level(rt: HostRuntime) -> Result<(), Fail> {
    let bytes = deep_list(rt.alloc())?;
    let list = parse_mac_vlan(rt.alloc(), bytes.as_slice())?;
    assert!(rt; kept_inside(&list).map(DefaultNla::value) == bytes.get(8..));
    Ok(())
}
