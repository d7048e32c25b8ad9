//! The first bytes that were read, which distinguish a capture from another kind of file. The
//! expected line comes from an independent implementation.

use link_capture_reader::read_all_keeping_first;
use link_lines::{
    DEFAULT_LIMIT, FirstBytes, ShowOptions, SliceSource, VecSink, show_keeping_first,
};
use std::test::Fail;

/// A message of type NLMSG_NOOP with sequence number 1.
const NOOP: [u8; 16] = [16, 0, 0, 0, 1, 0, 0, 0, 1, 0, 0, 0, 0, 0, 0, 0];

/// The start of a pcap file, and some bytes that follow it.
const PCAP: [u8; 6] = [0xd4, 0xc3, 0xb2, 0xa1, 2, 0];

#[test]
fn a_source_is_read_and_its_first_bytes_are_kept(rt: HostRuntime) -> Result<(), Fail> {
    let mut first = FirstBytes::new();
    let read = read_all_keeping_first(rt.alloc(), &mut SliceSource::new(&PCAP), &mut first);
    assert!(rt; matches!(&read, Ok(bytes) if bytes.as_slice() == PCAP.as_slice()));
    assert!(rt; first.as_slice() == [0xd4, 0xc3, 0xb2, 0xa1].as_slice());
    let read = read_all_keeping_first(rt.alloc(), &mut SliceSource::new(&PCAP[4..]), &mut first);
    assert!(rt; matches!(&read, Ok(bytes) if bytes.as_slice() == [2, 0].as_slice()));
    assert!(rt; first.as_slice() == [2, 0].as_slice());
    Ok(())
}

#[test]
fn lines_are_written_and_first_bytes_are_kept(rt: HostRuntime) -> Result<(), Fail> {
    let mut first = FirstBytes::new();
    let mut lines = VecSink::new(rt.alloc());
    let shown = show_keeping_first(
        rt.alloc(),
        &mut SliceSource::new(&NOOP),
        &mut lines,
        DEFAULT_LIMIT,
        &ShowOptions::default(),
        &mut first,
    );
    assert!(rt; shown == Ok(true));
    assert!(rt; lines.bytes() == b"NLMSG_NOOP flags 0x0 seq 1 port 0\n".as_slice());
    assert!(rt; first.as_slice() == [16, 0, 0, 0].as_slice());
    Ok(())
}
