// A walk over attributes: the kind, the flags and the value of each, and the bytes of all.

use crate::value::written;
use hex::encode;
use netlink_packet_core::{DefaultNla, NlasIterator, Parseable};
use std::alloc::Global;
use std::io::{self, ErrorKind, Write};

/// Writes the result of a walk: `read`, the bytes of the attributes in hex; of each its kind,
/// whether it has the nested and the network byte order flag, and the Debug text of its value; then
/// `end`, or `fault` if bytes are left.
///
/// # Errors
///
/// An allocation or a write failed.
pub fn write_result<W: Write>(alloc: Global, bytes: &[u8], out: &mut W) -> io::Result<()> {
    let mut text = String::new(alloc);
    let mut values: Vec<DefaultNla> = Vec::new(alloc);
    let mut is_whole = true;
    for item in NlasIterator::new(bytes) {
        let Ok(view) = item else {
            is_whole = false;
            break;
        };
        let (kind, nested) = (view.kind(), view.nested_flag());
        let order = view.network_byte_order_flag();
        let Ok(value) = DefaultNla::parse(alloc, &view) else {
            return Err(io::Error::from(ErrorKind::OutOfMemory));
        };
        let item = format!(in alloc; "{kind} {nested} {order} {value:?}; ")?;
        text.push_str(item.as_str())?;
        values.push(value)?;
    }
    let end = if is_whole { "end" } else { "fault" };
    let Some(written) = written(alloc, &values)? else {
        return writeln!(out, "unfit {text}{end}");
    };
    let hex = encode(alloc, written.as_slice())?;
    writeln!(out, "read {hex} {text}{end}")
}
