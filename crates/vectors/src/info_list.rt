// The canonical text of a link info list.

ghost use Rattle.std.specs.Prelude.{◌≡◌, IfOk, string_bytes};
ghost use Rattle.vectors.specs.InfoList.{expected_line};

use hex::{decode, encode};
use link_info::LinkInfo;
use netlink_packet_core::{emit_all, fits_all, len_all};
use std::alloc::{AllocError, Global};
use std::io::{self, ErrorKind, Write};

/// Returns the canonical text of a list in hex, `unfit` if an attribute of it would be longer than
/// 65535 bytes, or `refused` if there is none.
fn list_result(alloc: Global, bytes: &[u8]) -> Result<String, AllocError>
    ensures { IfOk result (λ line. string_bytes line ≡ expected_line bytes.now) }
{
    let list = match LinkInfo::parse_list(alloc, bytes) {
        Ok(list) => list,
        Err(error) if error.is_memory() => return Err(AllocError),
        Err(_) => return String::from_str(alloc, "refused"),
    };
    if !fits_all(list.as_slice()) {
        return String::from_str(alloc, "unfit");
    }
    let mut text = Vec::new(alloc);
    text.resize(len_all(list.as_slice()), 0)?;
    emit_all(list.as_slice(), text.as_mut_slice());
    encode(alloc, text.as_slice())
}

/// Writes the result of a case: a list in hex.
///
/// # Errors
///
/// `InvalidInput` if `fields` isn't a case; otherwise an allocation or a write failed.
pub fn write_result<W: Write>(alloc: Global, fields: &str, out: &mut W) -> io::Result<()> {
    let list = decode(alloc, fields).map_err(|_| ErrorKind::InvalidInput)?;
    let expected_line = list_result(alloc, list.as_slice())?;
    writeln!(out, "{expected_line}")
}
