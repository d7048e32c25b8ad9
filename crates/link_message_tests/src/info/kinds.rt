use crate::values::is_written_as;
use link_info::{InfoKind, InfoPortKind};
use netlink_packet_core::{NlaBuffer, Parseable};
use std::alloc::Global;
use std::test::Fail;

/// Returns whether a name is that of a kind whose display is the name.
fn is_named(alloc: Global, name: &str, kind: &InfoKind) -> Result<bool, Fail> {
    let named = InfoKind::from_name(alloc, name)?;
    Ok(named == *kind && format!(in alloc; "{kind}")?.as_str() == name)
}

/// Returns whether a name is that of a port kind whose display is the name.
fn is_port_named(alloc: Global, name: &str, kind: &InfoPortKind) -> Result<bool, Fail> {
    let named = InfoPortKind::from_name(alloc, name)?;
    Ok(named == *kind && format!(in alloc; "{kind}")?.as_str() == name)
}

#[test]
fn kinds_have_names(rt: HostRuntime) -> Result<(), Fail> {
    assert!(rt; is_named(rt.alloc(), "ip6gretap", &InfoKind::GreTap6)?);
    let unlisted = InfoKind::Other("foo".to_string(rt.alloc())?);
    assert!(rt; is_named(rt.alloc(), "foo", &unlisted)?);
    assert!(rt; is_port_named(rt.alloc(), "vrf", &InfoPortKind::Vrf)?);
    let unlisted = InfoPortKind::Other("foo".to_string(rt.alloc())?);
    assert!(rt; is_port_named(rt.alloc(), "foo", &unlisted)?);
    Ok(())
}

#[test]
fn kinds_are_attributes(rt: HostRuntime) -> Result<(), Fail> {
    let bytes: &[u8] = b"\x09\0\x01\0vti\0\0\0\0\0";
    let Ok(buf) = NlaBuffer::new_checked(bytes) else {
        return Err(Fail::from("cut"));
    };
    assert!(rt; InfoPortKind::parse(rt.alloc(), &buf).is_err());
    let kind = InfoKind::Other("vti\0".to_string(rt.alloc())?);
    assert!(rt; is_written_as(&kind, bytes));
    assert!(rt; InfoKind::parse(rt.alloc(), &buf) == Ok(kind));
    let bytes: &[u8] = b"\x06\0\x04\0fo";
    let Ok(buf) = NlaBuffer::new_checked(bytes) else {
        return Err(Fail::from("cut"));
    };
    assert!(rt; InfoKind::parse(rt.alloc(), &buf).is_err());
    let kind = InfoPortKind::Other("fo".to_string(rt.alloc())?);
    assert!(rt; is_written_as(&kind, b"\x07\0\x04\0fo\0\0"));
    assert!(rt; InfoPortKind::parse(rt.alloc(), &buf) == Ok(kind));
    Ok(())
}
