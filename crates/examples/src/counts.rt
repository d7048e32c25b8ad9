//! The number of messages of each type in a capture.

use link_capture::{CaptureFault, CaptureReader, DEFAULT_LIMIT, Messages};
use std::alloc::Global;
use std::collections::BTreeMap;
use std::io::{self, ErrorKind, Read};

/// The number of messages of each type, `nlmsg_type`.
pub type Counts = BTreeMap<u16, u64>;

// Counts the messages of some texts. These are legal, so the only fault is out of memory.
fn count(alloc: Global, texts: &[u8], counts: &mut Counts) -> io::Result<()> {
    for message in Messages::new(alloc, texts, DEFAULT_LIMIT) {
        let Ok(message) = message else {
            return Err(io::Error::from(ErrorKind::OutOfMemory));
        };
        let message_type = message.header.message_type;
        let number = counts.get(&message_type).copied().unwrap_or(0);
        counts.insert(message_type, number.saturating_add(1))?;
    }
    Ok(())
}

/// Returns the first fault of a capture, if it has one, as the inner result, and counts the
/// messages before it. The fault is `Memory` if an allocation for a text fails. Reads the capture
/// in pieces.
///
/// # Errors
///
/// That of a read, or `OutOfMemory` if an allocation for a message or its number fails.
pub fn count_all<R: Read>(
    alloc: Global,
    source: &mut R,
    counts: &mut Counts,
) -> io::Result<Result<(), CaptureFault>> {
    let mut reader = CaptureReader::new(alloc, DEFAULT_LIMIT);
    let mut buffer = [0u8; 65536];
    let mut texts = Vec::new(alloc);
    'pieces: loop {
        let size = source.read(&mut buffer)?;
        if size == 0 {
            return Ok(reader.finish());
        }
        let fed = reader.feed(&buffer[..size], &mut texts);
        count(alloc, texts.as_slice(), counts)?;
        if fed.is_err() {
            return Ok(fed);
        }
        texts.clear();
    }
}
