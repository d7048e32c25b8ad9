// A frame: the Debug text of its header and its body, and the bytes that they are written as.

ghost use Rattle.std.specs.Prelude.{◌≡◌, Some, true, ⊤};
ghost use Rattle.netlink_packet_core.specs.TypedBodies.{TypedBody};

use hex::encode;
use netlink_packet_core::{
    ByteVec, FrameError, NetlinkDeserializable, NetlinkHeader, NetlinkMessage, NetlinkSerializable,
};
use std::alloc::{AllocError, Global};
use std::io::{self, ErrorKind, Write};

/// A message of any protocol, kept as its bytes.
#[derive(Debug, Drop)]
struct KeptMessage {
    message_type: u16,
    bytes: ByteVec,
}

impl NetlinkSerializable for KeptMessage {
    ghost entry = { λ m. (m.message_type, m.bytes) };

    ghost fits = { λ _. ⊤ };

    fn message_type(&self) -> u16 {
        self.message_type
    }

    fn buffer_len(&self) -> usize {
        self.bytes.len()
    }

    fn serialize(&self, buffer: &mut [u8]) {
        buffer.copy_from_slice(self.bytes.as_slice());
    }
}

impl NetlinkDeserializable for KeptMessage {
    type Error = AllocError;

    ghost Value = { TypedBody };

    ghost value = { λ m. (m.message_type, m.bytes) };

    ghost reads = { λ t b. Some (t, b) };

    ghost is_memory = { λ _. true };

    ghost may_allocate = { λ _ _. true };

    ghost determines = { λ _ _ _. ⊥ };

    fn deserialize(
        alloc: Global,
        header: &NetlinkHeader,
        payload: &[u8],
    ) -> Result<Self, AllocError> {
        Ok(KeptMessage {
            message_type: header.message_type,
            bytes: ByteVec::from_slice(alloc, payload)?,
        })
    }
}

/// Returns the bytes of a message, whose header gets the length and type of its body.
fn written(
    alloc: Global,
    message: &mut NetlinkMessage<KeptMessage>,
) -> Result<Vec<u8>, AllocError> {
    let size = message.buffer_len();
    if size > u32::MAX as usize {
        return Err(AllocError);
    }
    message.finalize();
    let mut bytes = Vec::from_elem(alloc, 0u8, size)?;
    message.serialize(bytes.as_mut_slice());
    Ok(bytes)
}

/// Writes the result of bytes that begin with a frame: `read`, the bytes of the message in hex and
/// its Debug text; or `refused`.
///
/// # Errors
///
/// An allocation or a write failed.
pub fn write_result<W: Write>(alloc: Global, bytes: &[u8], out: &mut W) -> io::Result<()> {
    let read: Result<NetlinkMessage<KeptMessage>, FrameError<AllocError>> =
        NetlinkMessage::deserialize(alloc, bytes);
    let mut message = match read {
        Ok(message) => message,
        Err(FrameError::Frame(error)) if !error.is_memory() => {
            return writeln!(out, "refused");
        }
        Err(_) => return Err(io::Error::from(ErrorKind::OutOfMemory)),
    };
    let text = format!(in alloc; "{message:?}")?;
    let hex = encode(alloc, written(alloc, &mut message)?.as_slice())?;
    writeln!(out, "read {hex} {text}")
}
