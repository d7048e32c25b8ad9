use netlink_packet_core::{
    DefaultNla, Nla, NlaBuffer, NlasIterator, Parseable, emit_all, fits_all, len_all, nla_align,
    skip_first,
};
use std::test::Fail;

/// Returns the payload of the first attribute of a kind.
fn find(bytes: &[u8], kind: u16) -> Option<&[u8]> {
    for item in NlasIterator::new(bytes) {
        let nla = item.ok()?;
        if nla.kind() == kind {
            return Some(nla.value());
        }
    }
    None
}

#[test]
fn lengths_are_aligned(rt: HostRuntime) {
    let aligned = [
        nla_align(13) == 16,
        nla_align(16) == 16,
        nla_align(0) == 0,
        nla_align(1) == 4,
        nla_align(usize::MAX - 4) == usize::MAX - 3,
    ];
    assert_eq!(rt; aligned, [true; 5]);
}

/// Returns the kinds and flags of an attribute, read after only its first flag was set.
fn with_nested_flag(bytes: &mut [u8; 4]) -> (u16, u16, bool, bool) {
    let mut view = NlaBuffer::new(bytes.as_mut_slice());
    let read = (
        view.raw_kind(),
        view.kind(),
        view.nested_flag(),
        view.network_byte_order_flag(),
    );
    view.set_nested_flag();
    read
}

#[test]
fn flags_and_payloads_are_read_and_written(rt: HostRuntime) -> Result<(), Fail> {
    let mut bytes = [4u8, 0, 0x46, 0xc0];
    assert!(rt; with_nested_flag(&mut bytes) == (0xc046, 70, true, true));
    assert!(rt; bytes == [4, 0, 0x46, 0x80]);
    let mut view = NlaBuffer::new([4u8, 0, 0x46, 0xc0].to_vec(rt.alloc())?);
    view.set_network_byte_order_flag();
    assert!(rt; view.into_inner().as_slice() == [4u8, 0, 0x46, 0x40].as_slice());
    let mut bytes = [5u8, 0, 2, 0, 1].to_vec(rt.alloc())?;
    let mut view = NlaBuffer::new(&mut bytes);
    assert!(rt; view.check_buffer_length().is_ok());
    view.value_mut().fill(8);
    assert!(rt; bytes.as_slice() == [5u8, 0, 2, 0, 8].as_slice());
    Ok(())
}

#[test]
fn a_list_is_walked_to_its_end(rt: HostRuntime) -> Result<(), Fail> {
    let bytes: &[u8] = &[4, 0, 1, 0, 5, 0, 2, 0, 0xaa];
    let mut walk = NlasIterator::new(bytes);
    let Some(Ok(first)) = walk.next() else {
        return Err(Fail::from("no first attribute"));
    };
    assert!(rt; (first.raw_kind(), first.value().len()) == (1, 0));
    assert!(rt; skip_first(first.into_inner()) == &bytes[4..]);
    let Some(Ok(second)) = walk.next() else {
        return Err(Fail::from("no second attribute"));
    };
    assert!(rt; second.raw_kind() == 2 && second.value() == [0xaau8].as_slice());
    assert!(rt; walk.next().is_none());
    assert!(rt; find(bytes, 2) == Some([0xaau8].as_slice()));
    Ok(())
}

#[test]
fn a_fault_ends_the_walk(rt: HostRuntime) {
    let bytes: &[u8] = &[4, 0, 1, 0, 3, 0, 2, 0];
    let mut walk = NlasIterator::new(bytes);
    assert!(rt; matches!(walk.next(), Some(Ok(first)) if first.raw_kind() == 1));
    assert!(rt; matches!(walk.next(), Some(Err(_))));
    assert!(rt; walk.next().is_none() && walk.next().is_none());
}

#[test]
fn attributes_are_kept_and_written(rt: HostRuntime) -> Result<(), Fail> {
    let bytes: &[u8] = &[5, 0, 0x46, 0xc0, 1, 0xff, 0xff, 0xff];
    let Ok(view) = NlaBuffer::new_checked(bytes) else {
        return Err(Fail::from("refused"));
    };
    let Ok(kept) = DefaultNla::parse(rt.alloc(), &view) else {
        return Err(Fail::from("refused"));
    };
    assert!(rt; kept.is_nested() && kept.is_network_byteorder() && kept.clone()? == kept);
    let none = DefaultNla::new(1, Vec::new(rt.alloc()));
    let items = vec![in rt.alloc(); none, kept]?;
    assert!(rt; len_all(&items) == 12);
    let mut buffer = [9u8; 13];
    if !fits_all(&items) {
        return Err(Fail::from("does not fit"));
    }
    emit_all(&items, &mut buffer);
    let expected = [4u8, 0, 1, 0, 5, 0, 0x46, 0xc0, 1, 0, 0, 0, 9];
    assert!(rt; buffer.as_slice() == expected.as_slice());
    Ok(())
}
