ghost use Rattle.std.specs.Prelude.{◌≡◌, Some, true, refl, IfOk, ⊤};
ghost use Rattle.netlink_packet_core.specs.Frames.{frame_type, frame_body};
ghost use Rattle.netlink_packet_core.specs.TypedBodies.{IsInner, TypedBody};
ghost use Rattle.netlink_packet_core.specs.Payloads.{written_body};
ghost use Rattle.netlink_packet_core.specs.Messages.{unpadded_text};

use netlink_packet_core::{
    ByteVec, DecodeError, DoneBuffer, DoneMessage, Emitable, ErrorBuffer, ErrorCode, ErrorMessage,
    FrameError, NLM_F_ACK, NLM_F_ACK_TLVS, NLM_F_APPEND, NLM_F_ATOMIC, NLM_F_CAPPED, NLM_F_CREATE,
    NLM_F_DUMP, NLM_F_DUMP_FILTERED, NLM_F_DUMP_INTR, NLM_F_ECHO, NLM_F_EXCL, NLM_F_MATCH,
    NLM_F_MULTIPART, NLM_F_NONREC, NLM_F_REPLACE, NLM_F_REQUEST, NLM_F_ROOT, NLMSG_ALIGNTO,
    NLMSG_DONE, NLMSG_ERROR, NLMSG_NOOP, NLMSG_OVERRUN, NetlinkBuffer, NetlinkDeserializable,
    NetlinkHeader, NetlinkMessage, NetlinkPayload, NetlinkProtocol, NetlinkSerializable, Parseable,
    first_frame_len, laws,
};
use std::alloc::{AllocError, Global};
use std::test::Fail;

/// A message of any protocol, kept as its bytes.
#[derive(Debug, Drop, PartialEq, Eq)]
struct KeptMessage {
    message_type: u16,
    bytes: ByteVec,
    ghost is_inner: { IsInner message_type },
}

impl NetlinkSerializable for KeptMessage {
    ghost entry = { λ m. (m.message_type, m.bytes) };

    ghost fits = { λ _. ⊤ };

    fn message_type(&self) -> u16 {
        self.message_type
    }

    fn buffer_len(&self) -> usize {
        self.bytes.len()
    }

    fn serialize(&self, buffer: &mut [u8]) {
        buffer.copy_from_slice(self.bytes.as_slice());
    }
}

impl NetlinkDeserializable for KeptMessage {
    type Error = AllocError;

    ghost Value = { TypedBody };

    ghost value = { λ m. (m.message_type, m.bytes) };

    ghost reads = { λ t b. Some (t, b) };

    ghost is_memory = { λ _. true };

    ghost may_allocate = { λ _ _. true };

    ghost determines = { λ _ _ _. ⊥ };

    fn deserialize(
        alloc: Global,
        header: &NetlinkHeader,
        payload: &[u8],
    ) -> Result<Self, AllocError> {
        Ok(KeptMessage {
            message_type: header.message_type,
            bytes: ByteVec::from_slice(alloc, payload)?,
        })
    }
}

impl NetlinkProtocol for KeptMessage {
    ghost round_trip = { λ m h. refl };

    ghost inner = { λ m. m.is_inner };

    ghost same_implies_equal_text = { λ m n e. e };
}

fn read(alloc: Global, bytes: &[u8]) -> Option<NetlinkMessage<KeptMessage>> {
    NetlinkMessage::deserialize(alloc, bytes).ok()
}

/// Returns the parts of the message in a view of a frame.
fn parts_of(alloc: Global, frame: &[u8]) -> Option<(NetlinkHeader, NetlinkPayload<KeptMessage>)> {
    let view = NetlinkBuffer::new_checked(frame).ok()?;
    let message = NetlinkMessage::parse(alloc, &view).ok()?;
    Some(message.into_parts())
}

fn is_refused(alloc: Global, bytes: &[u8]) -> bool {
    let outcome: Result<NetlinkMessage<KeptMessage>, FrameError<AllocError>> =
        NetlinkMessage::deserialize(alloc, bytes);
    match outcome {
        Err(FrameError::Frame(error)) => !error.is_memory(),
        _ => false,
    }
}

/// Returns the canonical encoding of the frame at the start of the bytes.
fn canonical_frame(alloc: Global, frame: &[u8]) -> Result<Vec<u8>, FrameError<AllocError>>
    ensures { IfOk result (λ out. out.items ≡ unpadded_text frame.now
        (written_body (frame_body frame.now) (frame_type frame.now) (frame_body frame.now))) }
{
    let mut message: NetlinkMessage<KeptMessage> = NetlinkMessage::deserialize(alloc, frame)?;
    laws::read_frames_keep_their_header(&message, frame);
    let size = message.buffer_len();
    if size > u32::MAX as usize {
        return Err(FrameError::from(DecodeError::buffer_too_small(u32::MAX as usize, size)));
    }
    message.finalize();
    laws::messages_are_frames(&message, frame);
    let mut out = match Vec::from_elem(alloc, 0u8, size) {
        Ok(out) => out,
        Err(error) => return Err(FrameError::from(DecodeError::from(error))),
    };
    message.serialize(out.as_mut_slice());
    Ok(out)
}

#[test]
fn headers_are_written_and_read(rt: HostRuntime) {
    let header = NetlinkHeader {
        length: 40,
        message_type: 18,
        flags: 0x301,
        sequence_number: 1526271540,
        port_number: 0,
    };
    assert!(rt; header.buffer_len() == 16);
    let mut bytes = [9u8; 17];
    header.emit(&mut bytes);
    let expected = [
        0x28u8, 0, 0, 0, 0x12, 0, 1, 3, 0x34, 0x0e, 0xf9, 0x5a, 0, 0, 0, 0, 9,
    ];
    assert!(rt; bytes == expected);
    let back = NetlinkHeader::parse(rt.alloc(), &NetlinkBuffer::new(bytes.as_slice()));
    assert!(rt; back == Ok(header));
}

#[test]
fn bodies_are_written_and_read(rt: HostRuntime) -> Result<(), Fail> {
    let done = DoneMessage {
        code: 5,
        extended_ack: ByteVec::from_slice(rt.alloc(), &[1, 2, 3])?,
    };
    assert!(rt; done.buffer_len() == 7);
    let mut bytes = [9u8; 7];
    done.emit(&mut bytes);
    assert!(rt; DoneMessage::parse(rt.alloc(), &DoneBuffer::new(bytes.as_slice())) == Ok(done));
    let empty = DoneMessage::parse_body(rt.alloc(), &[]);
    assert!(rt; matches!(empty, Ok(DoneMessage { code: 0, .. })));
    let error = ErrorMessage {
        code: ErrorCode::new(-2),
        header: ByteVec::from_slice(rt.alloc(), &[7])?,
    };
    assert!(rt; error.errno() == 2 && error.buffer_len() == 5);
    let mut bytes = [9u8; 5];
    error.emit(&mut bytes);
    assert!(rt; ErrorMessage::parse(rt.alloc(), &ErrorBuffer::new(bytes.as_slice())) == Ok(error));
    let acknowledgement = ErrorMessage::parse_body(rt.alloc(), &[0, 0, 0, 0, 7]);
    assert!(rt; matches!(&acknowledgement, Ok(message) if message.errno() == 0));
    // Kept bytes are the same, by whichever call they are kept.
    let some = ByteVec::from_slice(rt.alloc(), &[1, 2, 3])?;
    let other = ByteVec::from([1u8, 2, 3].to_vec(rt.alloc())?);
    assert!(rt; some == other);
    assert!(rt; other.into_vec().as_slice() == [1u8, 2, 3].as_slice());
    Ok(())
}

#[test]
fn finalized_messages_are_written_and_read(rt: HostRuntime) -> Result<(), Fail> {
    let done = DoneMessage {
        code: 5,
        extended_ack: ByteVec::from_slice(rt.alloc(), &[1, 2, 3])?,
    };
    let mut message: NetlinkMessage<KeptMessage> = NetlinkMessage::new(
        NetlinkHeader::default(),
        NetlinkPayload::Done(done),
    );
    assert!(rt; message.buffer_len() == 23);
    message.finalize();
    let mut buffer = [9u8; 24];
    message.serialize(&mut buffer);
    let expected = [
        0x17u8, 0, 0, 0, 3, 0, 0, 0, 0, 0, 0, 0, 0, 0, 0, 0, 5, 0, 0, 0, 1, 2, 3, 9,
    ];
    assert!(rt; buffer == expected);
    assert!(rt; read(rt.alloc(), &buffer) == Some(message));
    Ok(())
}

#[test]
fn inner_messages_are_written_and_read(rt: HostRuntime) -> Result<(), Fail> {
    let mut message = NetlinkMessage::from(KeptMessage {
        message_type: 20,
        bytes: ByteVec::from_slice(rt.alloc(), &[0x61])?,
    });
    message.finalize();
    assert!(rt; message.buffer_len() == 17 && Emitable::buffer_len(&message) == 17);
    let mut buffer = [0u8; 20];
    message.emit(&mut buffer);
    let expected = [
        0x11u8, 0, 0, 0, 0x14, 0, 0, 0, 0, 0, 0, 0, 0, 0, 0, 0, 0x61, 0, 0, 0,
    ];
    assert!(rt; buffer == expected);
    assert!(rt; parts_of(rt.alloc(), &buffer) == Some(message.into_parts()));
    Ok(())
}

#[test]
fn frames_are_written_canonically(rt: HostRuntime) {
    let noop: &[u8] = &[
        0x14, 0, 0, 0, 1, 0, 0, 0, 1, 0, 0, 0, 0, 0, 0, 0, 0xaa, 0xbb, 0xcc, 0xdd,
    ];
    let short_noop: &[u8] = &[0x10, 0, 0, 0, 1, 0, 0, 0, 1, 0, 0, 0, 0, 0, 0, 0];
    let empty_done: &[u8] = &[0x10, 0, 0, 0, 3, 0, 2, 0, 1, 0, 0, 0, 0, 0, 0, 0];
    let done: &[u8] = &[
        0x14, 0, 0, 0, 3, 0, 2, 0, 1, 0, 0, 0, 0, 0, 0, 0, 0, 0, 0, 0,
    ];
    let other: &[u8] = &[0x11, 0, 0, 0, 0x14, 0, 0, 0, 0, 0, 0, 0, 0, 0, 0, 0, 0x61];
    let error: &[u8] = &[
        0x14, 0, 0, 0, 2, 0, 0, 0, 0, 0, 0, 0, 0, 0, 0, 0, 0xfe, 0xff, 0xff, 0xff,
    ];
    let overrun: &[u8] = &[0x11, 0, 0, 0, 4, 0, 0, 0, 0, 0, 0, 0, 0, 0, 0, 0, 0x61];
    for (frame, text) in [
        (noop, short_noop),
        (empty_done, done),
        (done, done),
        (other, other),
        (error, error),
        (overrun, overrun),
    ] {
        let written = canonical_frame(rt.alloc(), frame);
        assert!(rt;
            matches!(&written, Ok(written) if written.as_slice() == text),
            "{frame:?}"
        );
    }
}

/// Frames that are refused: a cut header, a short length, a cut body, bodies of DONE and of ERROR
/// that are too short, no length, and the longest.
const REFUSED: [&[u8]; 7] = [
    &[0x28, 0, 0, 0],
    &[15, 0, 0, 0, 20, 0, 0, 0, 0, 0, 0, 0, 0, 0, 0, 0],
    &[17, 0, 0, 0, 20, 0, 0, 0, 0, 0, 0, 0, 0, 0, 0, 0],
    &[18, 0, 0, 0, 3, 0, 0, 0, 0, 0, 0, 0, 0, 0, 0, 0, 0, 0],
    &[19, 0, 0, 0, 2, 0, 0, 0, 0, 0, 0, 0, 0, 0, 0, 0, 0, 0, 0],
    &[0, 0, 0, 0, 20, 0, 0, 0, 0, 0, 0, 0, 0, 0, 0, 0],
    &[255, 255, 255, 255, 20, 0, 0, 0, 0, 0, 0, 0, 0, 0, 0, 0],
];

#[test]
fn frames_are_refused(rt: HostRuntime) {
    for bytes in REFUSED {
        assert!(rt; is_refused(rt.alloc(), bytes), "{bytes:?}");
    }
}

/// A frame of 17 bytes, followed by three zeros.
const FRAME: [u8; 20] = [
    0x11, 0, 0, 0, 0x14, 0, 0, 0, 0, 0, 0, 0, 0, 0, 0, 0, 0x61, 0, 0, 0,
];

#[test]
fn laws_hold_for_a_frame(rt: HostRuntime) {
    let bytes: &[u8] = &FRAME;
    assert!(rt; NetlinkBuffer::new_checked(bytes).is_ok());
    laws::bytes_past_a_frame_change_nothing::<KeptMessage>(bytes, &[]);
    laws::cut_frames_are_refused::<KeptMessage>(bytes, 0);
    laws::bodies_end_with_their_frame(bytes, &[]);
}

#[test]
fn a_whole_first_frame_has_a_length(rt: HostRuntime) {
    assert!(rt; first_frame_len(&FRAME) == Some(17));
    assert!(rt; first_frame_len(&FRAME[..17]) == Some(17));
    // cut in its body, and in its header
    assert!(rt; first_frame_len(&FRAME[..16]).is_none());
    assert!(rt; first_frame_len(&FRAME[..15]).is_none());
}

#[test]
fn laws_hold_for_a_message(rt: HostRuntime) -> Result<(), Fail> {
    let Some(mut message) = read(rt.alloc(), &FRAME) else {
        return Err(Fail::from("refused"));
    };
    assert!(rt; message.buffer_len() == 17);
    message.finalize();
    laws::messages_read_back(&message, &FRAME);
    laws::messages_are_frames(&message, &FRAME);
    laws::canonical_frames_are_stable(&message, &message, &FRAME);
    laws::texts_have_one_message(&message, &message);
    assert!(rt; read(rt.alloc(), &FRAME[..17]) == Some(message));
    Ok(())
}

#[test]
fn a_short_length_is_refused_whatever_follows(rt: HostRuntime) {
    let bytes: &[u8] = &[
        0x0f, 0, 0, 0, 0x14, 0, 0, 0, 0, 0, 0, 0, 0, 0, 0, 0, 0x61, 0, 0, 0,
    ];
    let header = &bytes[..16];
    if NetlinkBuffer::new(header).length() < 16 {
        laws::short_lengths_are_refused::<KeptMessage>(header, &bytes[16..]);
    }
    assert!(rt; is_refused(rt.alloc(), header));
    assert!(rt; is_refused(rt.alloc(), bytes));
}

#[test]
fn constants_are_those_of_the_kernel(rt: HostRuntime) {
    for (constant, number) in [
        (NLM_F_REQUEST, 1),
        (NLM_F_MULTIPART, 2),
        (NLM_F_ACK, 4),
        (NLM_F_ECHO, 8),
        (NLM_F_DUMP_INTR, 16),
        (NLM_F_DUMP_FILTERED, 32),
        (NLM_F_ROOT, 0x100),
        (NLM_F_MATCH, 0x200),
        (NLM_F_ATOMIC, 0x400),
        (NLM_F_DUMP, 0x300),
        (NLM_F_REPLACE, 0x100),
        (NLM_F_EXCL, 0x200),
        (NLM_F_CREATE, 0x400),
        (NLM_F_APPEND, 0x800),
        (NLM_F_NONREC, 0x100),
        (NLM_F_CAPPED, 0x100),
        (NLM_F_ACK_TLVS, 0x200),
        (NLMSG_NOOP, 1),
        (NLMSG_ERROR, 2),
        (NLMSG_DONE, 3),
        (NLMSG_OVERRUN, 4),
        (NLMSG_ALIGNTO, 4),
    ] {
        assert!(rt; constant == number);
    }
}
