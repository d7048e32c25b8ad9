//! The lines of normal texts.

ghost use Rattle.std.specs.Prelude.{◌≡◌, ◌<◌, ◌≤◌, ◌^◌, length, drop};
ghost use Rattle.netlink_packet_core_grammar.specs.Attributes.{nla_align};
ghost use Rattle.link_lines.specs.MessageLines.{choice_of};
ghost use Rattle.link_lines.specs.Options.{selection_of};
ghost use Rattle.link_lines_texts.specs.AppendsWith.{AppendsWith};
ghost use Rattle.link_lines_texts.specs.Captures.{shown_lines, text_lines};

use crate::options::ShowOptions;
use link_lines_texts::laws::lines_unfold_by_frames;
use link_lines_texts::push_frame;
use netlink_packet_core::{NetlinkBuffer, first_frame_len, nla_align};
use std::alloc::AllocError;

/// Returns the bytes after a frame of this length and its padding.
fn after_padding(bytes: &[u8], size: usize) -> &[u8]
    requires { size < 2 ^ 32 }
    ensures { result.now ≡ drop (nla_align size) bytes.now }
{
    let end = nla_align(size);
    if end < bytes.len() {
        &bytes[end..]
    } else {
        &[]
    }
}

/// Appends the lines of a frame, given by its bytes without the padding, if its type is shown.
fn push_shown(frame: &[u8], options: &ShowOptions<'_>, out: &mut Vec<u8>) -> Result<(), AllocError>
    requires { 16 ≤ length frame.now }
    ensures { AppendsWith (length frame.now) out.old out.new result
        (shown_lines (choice_of (selection_of options.now)) frame.now) }
{
    if !options.shows(NetlinkBuffer::new(frame).message_type()) {
        return Ok(());
    }
    push_frame(frame, options.shows_numbers(), out)
}

/// Appends the lines of some bytes, which are read as normal text, up to the first position at
/// which no whole frame begins: those of the types that the options choose, with numbers or without.
///
/// # Errors
///
/// `AllocError` if `out` lacked capacity for the lines and as many bytes as `texts` has, and can't
/// grow; what it held stays, and a part of the lines may follow.
pub fn push_lines(
    texts: &[u8],
    options: &ShowOptions<'_>,
    out: &mut Vec<u8>,
) -> Result<(), AllocError>
    ensures { AppendsWith (length texts.now) out.old out.new result
        (text_lines (choice_of (selection_of options.now)) texts.now) }
{
    lines_unfold_by_frames();
    let mut rest = texts;
    while let Some(size) = first_frame_len(rest) {
        push_shown(&rest[..size], options, out)?;
        rest = after_padding(rest, size);
    }
    Ok(())
}
