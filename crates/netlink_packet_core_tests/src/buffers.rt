ghost use Rattle.std.specs.Prelude.{◌≡◌, ◌≤◌, length, slice_set};
ghost use Rattle.netlink_packet_core.specs.Bytes.{put_at};
ghost use Rattle.netlink_packet_core.specs.Frames.{BeginsWithFrame, frame_length};
ghost use Rattle.netlink_packet_core.specs.NetlinkBuffers.{storage};
ghost use Rattle.netlink_packet_core.specs.Numbers.{le2};

use netlink_packet_core::{
    ByteView, DoneBuffer, ErrorBuffer, ErrorCode, NetlinkBuffer, NetlinkHeader,
};
use std::test::Fail;

/// Reads the numbers of a header, one by one, from any storage.
fn header_of<T: ByteView>(view: &NetlinkBuffer<T>) -> NetlinkHeader
    requires { 16 ≤ length (T.bytes (storage view.now)) }
{
    NetlinkHeader {
        length: view.length(),
        message_type: view.message_type(),
        flags: view.flags(),
        sequence_number: view.sequence_number(),
        port_number: view.port_number(),
    }
}

/// Calls a setter over a slice, and returns the slice.
fn set_flags_of(bytes: &mut [u8])
    requires { 16 ≤ length bytes.old }
    ensures { bytes.new ≡ put_at 6 (le2 5) bytes.old }
{
    let mut view = NetlinkBuffer::new(bytes);
    view.set_flags(5);
}

/// Writes a body over a slice through `inner_mut`.
fn set_first_of_body(bytes: &mut [u8])
    requires frame { BeginsWithFrame bytes.old }
    requires more { 17 ≤ frame_length bytes.old }
    ensures { bytes.new ≡ slice_set bytes.old 16 7 }
{
    let mut view = NetlinkBuffer::new(bytes);
    let end = view.length() as usize;
    let body = &mut view.inner_mut()[16..end];
    body[0] = 7;
}

/// Returns a frame of 18 bytes, in a buffer of 20.
#[tactic(auto, unfolding(netlink_packet_core_grammar::specs::Numbers::u32_at))]
fn frame() -> [u8; 20]
    ensures frame { BeginsWithFrame result }
    ensures more { 17 ≤ frame_length result }
{
    [
        18, 0, 0, 0, 0x12, 0, 1, 3, 0x34, 0x0e, 0xf9, 0x5a, 4, 3, 2, 1, 0xaa, 0xbb, 0xcc, 0xdd,
    ]
}

#[test]
fn headers_are_read_at_each_storage(rt: HostRuntime) -> Result<(), Fail> {
    let expected = NetlinkHeader {
        length: 18,
        message_type: 18,
        flags: 0x301,
        sequence_number: 1526271540,
        port_number: 0x01020304,
    };
    let mut bytes = frame();
    let view = NetlinkBuffer::new(bytes.as_slice());
    assert!(rt; header_of(&view) == expected);
    assert!(rt; view.payload() == [0xaau8, 0xbb].as_slice());
    assert!(rt; header_of(&NetlinkBuffer::new(frame().to_vec(rt.alloc())?)) == expected);
    assert!(rt; header_of(&NetlinkBuffer::new(bytes.as_mut_slice())) == expected);
    Ok(())
}

#[test]
fn headers_are_written(rt: HostRuntime) {
    let mut bytes = [9u8; 17];
    let mut view = NetlinkBuffer::new(bytes.as_mut_slice());
    view.set_length(40);
    view.set_message_type(18);
    view.set_flags(0x301);
    view.set_sequence_number(1526271540);
    view.set_port_number(0);
    let expected = [
        0x28u8, 0, 0, 0, 0x12, 0, 1, 3, 0x34, 0x0e, 0xf9, 0x5a, 0, 0, 0, 0, 9,
    ];
    assert!(rt; bytes.as_slice() == expected.as_slice());
}

#[test]
fn bodies_are_written(rt: HostRuntime) -> Result<(), Fail> {
    let mut bytes = frame();
    set_first_of_body(&mut bytes);
    set_flags_of(&mut bytes);
    assert!(rt; &bytes[6..8] == [5u8, 0].as_slice());
    assert!(rt; &bytes[16..] == [7u8, 0xbb, 0xcc, 0xdd].as_slice());
    let mut view = NetlinkBuffer::new(frame().to_vec(rt.alloc())?);
    view.payload_mut().fill(7);
    let written = view.into_inner();
    assert!(rt; &written.as_slice()[16..] == [7u8, 7, 0xcc, 0xdd].as_slice());
    Ok(())
}

#[test]
fn done_and_error_bodies_are_read_and_written(rt: HostRuntime) -> Result<(), Fail> {
    let mut done = DoneBuffer::new([5u8, 0, 0, 0, 1, 2, 3].to_vec(rt.alloc())?);
    assert!(rt; done.code() == 5);
    done.set_code(-2);
    done.extended_ack_mut().fill(4);
    let expected = [0xfeu8, 0xff, 0xff, 0xff, 4, 4, 4];
    assert!(rt; done.into_inner().as_slice() == expected.as_slice());
    // A code of -2, and three bytes.
    let mut error = ErrorBuffer::new([0xfeu8, 0xff, 0xff, 0xff, 1, 2, 3].to_vec(rt.alloc())?);
    assert!(rt; error.code() == ErrorCode::new(-2));
    error.set_code(0);
    assert!(rt; error.code().is_none());
    error.payload_mut().fill(4);
    assert!(rt; error.into_inner().as_slice() == [0u8, 0, 0, 0, 4, 4, 4].as_slice());
    Ok(())
}
