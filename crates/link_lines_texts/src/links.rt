//! The header of a link, in a message and in a peer.

ghost use Rattle.std.specs.Prelude.{◌≡◌, ◌<◌, ◌≤◌, ◌^◌, ◌++◌, length, decimal, OnOk};
ghost use Rattle.link_lines_values.specs.Appends.{Appends};
ghost use Rattle.link_lines_values.specs.Flags.{named_flags, word_flags};
ghost use Rattle.link_lines_values.specs.Indents.{indent};
ghost use Rattle.link_lines_values.specs.Names.{named_number};
ghost use Rattle.link_lines_values.specs.NumberTexts.{number_texts};
ghost use Rattle.link_lines_texts.specs.Links.{labelled, link_flag_names, link_flags, link_header_line, link_numbers};

use link_lines_values::{
    ADDRESS_FAMILY, LINK_FLAGS, LINK_LAYER_TYPE, Numbers, push_decimal, push_flags, push_indent,
    push_number, push_word_flags,
};
use netlink_packet_core_attributes::view::{read_u16, read_u32};
use std::alloc::AllocError;

/// Appends a label, and a number with its name.
fn push_labelled(
    label: &[u8],
    table: Numbers,
    number: u32,
    out: &mut Vec<u8>,
) -> Result<(), AllocError>
    ensures { Appends out.old out.new result (labelled label.now (named_number (number_texts table) number)) }
{
    out.extend_from_slice(label)?;
    push_number(table.texts(), number as u64, out)
}

/// Appends a label and a number.
pub(crate) fn push_labelled_decimal(
    label: &[u8],
    number: u32,
    out: &mut Vec<u8>,
) -> Result<(), AllocError>
    ensures { Appends out.old out.new result (labelled label.now (decimal number)) }
{
    out.extend_from_slice(label)?;
    push_decimal(number as u64, out)
}

/// Appends a label and flags.
pub(crate) fn push_labelled_flags(
    label: &[u8],
    table: Numbers,
    flags: u32,
    out: &mut Vec<u8>,
) -> Result<(), AllocError>
    ensures { Appends out.old out.new result (labelled label.now (named_flags (number_texts table) flags)) }
{
    out.extend_from_slice(label)?;
    push_flags(table.texts(), flags as u64, out)
}

/// Appends the address family, layer type and index of a link (rtnetlink.h, `struct ifinfomsg`).
#[tactic(auto, unfolding(crate::specs::Links::link_numbers))]
fn push_link_numbers(body: &[u8], out: &mut Vec<u8>) -> Result<(), AllocError>
    requires { 16 ≤ length body.now }
    ensures { Appends out.old out.new result (link_numbers body.now) }
{
    push_labelled(b"ifinfomsg family ", ADDRESS_FAMILY, body[0] as u32, out)?;
    push_labelled(b" type ", LINK_LAYER_TYPE, read_u16(body, 2) as u32, out)?;
    push_labelled_decimal(b" index ", read_u32(body, 4), out)
}

/// Appends a label and flags of 4 bytes, or ` (all)` for all bits.
fn push_labelled_word_flags(
    label: &[u8],
    table: Numbers,
    flags: u32,
    out: &mut Vec<u8>,
) -> Result<(), AllocError>
    ensures { Appends out.old out.new result (labelled label.now (word_flags (number_texts table) flags)) }
{
    out.extend_from_slice(label)?;
    push_word_flags(table.texts(), flags, out)
}

/// Appends a label and a link's flags.
fn push_labelled_link_flags(label: &[u8], flags: u32, out: &mut Vec<u8>) -> Result<(), AllocError>
    ensures { Appends out.old out.new result (labelled label.now (word_flags link_flag_names flags)) }
{
    push_labelled_word_flags(label, LINK_FLAGS, flags, out)
}

/// Appends the flags and the change mask of a link, and ends the line.
#[tactic(auto, unfolding(crate::specs::Links::link_flags))]
fn push_link_flags(body: &[u8], out: &mut Vec<u8>) -> Result<(), AllocError>
    requires { 16 ≤ length body.now }
    ensures { Appends out.old out.new result (link_flags body.now) }
{
    push_labelled_link_flags(b" flags ", read_u32(body, 8), out)?;
    push_labelled_link_flags(b" change ", read_u32(body, 12), out)?;
    out.extend_from_slice(b"\n")
}

/// Appends the line of a link's header at a level (rtnetlink.h, `struct ifinfomsg`).
pub(crate) fn push_link_header(
    level: usize,
    body: &[u8],
    out: &mut Vec<u8>,
) -> Result<(), AllocError>
    requires { 16 ≤ length body.now }
    ensures { Appends out.old out.new result (link_header_line level body.now) }
{
    push_indent(level, out)?;
    push_link_numbers(body, out)?;
    push_link_flags(body, out)
}
