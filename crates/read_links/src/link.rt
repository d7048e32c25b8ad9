// What is read of a link: the body of a message, attributes under an address family, and link info.

ghost use Rattle.netlink_packet_core.specs.Lists.{all_fit_by, text_by};
ghost use Rattle.link_message.specs.LinkMessages.{link_message_fits, link_message_text};

use crate::value::{Value, is_read, write_result};
use hex::decode;
use link_info::LinkInfo;
use link_message::{AddressFamily, LinkAttribute, LinkMessage};
use netlink_packet_core::{Emitable, Nla, emit_all, fits_all, len_all};
use std::alloc::Global;
use std::fmt::Debug;
use std::io::{self, ErrorKind, Write};

impl Value for LinkMessage {
    ghost fits = { link_message_fits };

    ghost text = { link_message_text };

    fn fits(&self) -> bool {
        self.fits()
    }

    fn len(&self) -> usize {
        self.buffer_len()
    }

    fn write(&self, buffer: &mut [u8]) {
        self.emit(buffer);
    }
}

impl<N: Nla + Debug + Drop> Value for Vec<N> {
    ghost fits = { λ v. all_fit_by N.entry N.inside_fits v.items };

    ghost text = { λ v. text_by N.entry v.items };

    fn fits(&self) -> bool {
        fits_all(self.as_slice())
    }

    #[tactic(auto, using(attribute_tables::proofs::Lists::lists))]
    fn len(&self) -> usize {
        len_all(self.as_slice())
    }

    #[tactic(auto, using(attribute_tables::proofs::Lists::lists))]
    fn write(&self, buffer: &mut [u8]) {
        emit_all(self.as_slice(), buffer);
    }
}

/// Returns the bytes of a text in hex.
///
/// # Errors
///
/// `InvalidInput` if it isn't hex; otherwise an allocation failed.
pub fn read_hex(alloc: Global, text: &str) -> io::Result<Vec<u8>> {
    decode(alloc, text).map_err(|_| io::Error::from(ErrorKind::InvalidInput))
}

/// Splits a case into a number in decimal and the bytes in hex that follow it after a space.
///
/// # Errors
///
/// `InvalidInput` if `fields` isn't such a case; otherwise an allocation failed.
fn read_numbered(alloc: Global, fields: &str) -> io::Result<(u32, Vec<u8>)> {
    let (number, hex) = fields.split_once(' ').ok_or(ErrorKind::InvalidInput)?;
    let number = number.parse::<u32>().map_err(|_| ErrorKind::InvalidInput)?;
    Ok((number, read_hex(alloc, hex)?))
}

/// Writes the result of a body in hex.
///
/// # Errors
///
/// `InvalidInput` if `fields` isn't hex; otherwise an allocation or a write failed.
pub fn write_body<W: Write>(alloc: Global, fields: &str, out: &mut W) -> io::Result<()> {
    let body = read_hex(alloc, fields)?;
    write_result(alloc, LinkMessage::parse(alloc, &body), out)
}

/// Writes the result of the attributes of a link: the number of an address family in decimal, a
/// space, and the attributes in hex.
///
/// # Errors
///
/// `InvalidInput` if `fields` isn't such a case; otherwise an allocation or a write failed.
pub fn write_attributes<W: Write>(alloc: Global, fields: &str, out: &mut W) -> io::Result<()> {
    let (family, list) = read_numbered(alloc, fields)?;
    let family = AddressFamily::from(u8::try_from(family).map_err(|_| ErrorKind::InvalidInput)?);
    write_result(alloc, LinkAttribute::parse_list(alloc, &list, family), out)
}

/// Writes the result of a link info list in hex, in which peers are bytes.
///
/// # Errors
///
/// `InvalidInput` if `fields` isn't hex; otherwise an allocation or a write failed.
pub fn write_link_info<W: Write>(alloc: Global, fields: &str, out: &mut W) -> io::Result<()> {
    let list = read_hex(alloc, fields)?;
    write_result(alloc, LinkInfo::parse_list(alloc, &list), out)
}

/// Reads a case, a number in decimal, a space and a body in hex, that number of times, and each
/// time makes its bytes if `emits`; then writes `done` or `refused`. This is for measuring.
///
/// # Errors
///
/// `InvalidInput` if `fields` isn't such a case; otherwise an allocation or a write failed.
pub fn write_repeated<W: Write>(
    alloc: Global,
    fields: &str,
    emits: bool,
    out: &mut W,
) -> io::Result<()> {
    let (count, body) = read_numbered(alloc, fields)?;
    for _ in 0..count {
        if !is_read(alloc, LinkMessage::parse(alloc, &body), emits)? {
            return writeln!(out, "refused");
        }
    }
    writeln!(out, "done")
}
