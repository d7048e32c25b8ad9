//! Messages with a fault of their body: their lines, and the fault as it is reported.

ghost use Rattle.std.specs.Prelude.{◌≡◌, map};
ghost use Rattle.netlink_packet_core_grammar.specs.Frames.{BeginsWithFrame};
ghost use Rattle.link_capture_grammar.specs.declared.fault.FaultKind.{FaultKind};
ghost use Rattle.link_capture_refusals.specs.RefusalTexts.{path_text};
ghost use Rattle.link_capture_refusals.specs.RefusalViews.{optional_found};
ghost use Rattle.link_lines_values.specs.Appends.{Appends};
ghost use Rattle.link_lines_texts.specs.AppendsWith.{AppendsWith};
ghost use Rattle.link_lines.specs.MessageLines.{body_reason, faulty_lines, refusal_line};
ghost use Rattle.link_lines.specs.Messages.{frame_of, frame_reason, is_of_body};

use crate::refused::ShowFault;
use link_capture_grammar::fault::{CaptureFault, FaultKind};
use link_capture_refusals::{Refusal, separator_after_name, why_frame};
use link_lines_parts::push_refused_body;
use link_lines_texts::push_frame;
use netlink_packet_core::{NETLINK_HEADER_LEN, NetlinkBuffer};
use std::alloc::AllocError;

/// Returns whether a fault is one of a message's body, so that the message's end is known.
pub(crate) fn is_of_body(kind: FaultKind) -> bool
    ensures { result ≡ is_of_body kind }
{
    match kind {
        FaultKind::Refused | FaultKind::EmptyPorts | FaultKind::Unfit | FaultKind::TextOverLimit =>
            true,
        _ => false,
    }
}

/// Appends the names of attributes, outermost first, and a colon if there are any.
fn push_path(path: &[&'static str], out: &mut Vec<u8>) -> Result<(), AllocError>
    ensures { Appends out.old out.new result (path_text (map (λ n. n.now) path.now)) }
{
    let mut left = path;
    'names: while let [name, rest @ ..] = left {
        out.extend_from_slice(name.as_bytes())?;
        out.extend_from_slice(separator_after_name(rest).as_bytes())?;
        left = rest;
    }
    Ok(())
}

/// Appends the reason why a message's body isn't accepted, given the message's bytes.
fn push_reason(kind: FaultKind, frame: &[u8], out: &mut Vec<u8>) -> Result<(), AllocError>
    requires { BeginsWithFrame frame.now }
    ensures { Appends out.old out.new result (body_reason kind frame.now) }
{
    match kind {
        FaultKind::Refused => match why_frame(frame, 0) {
            Some(refusal) => {
                push_path(refusal.path.as_slice(), out)?;
                out.extend_from_slice(refusal.reason.text().as_bytes())
            }
            None => Ok(()),
        },
        _ => out.extend_from_slice(kind.words().as_bytes()),
    }
}

/// Appends the line with the reason why a message's body isn't accepted.
#[tactic(auto, unfolding(crate::specs::MessageLines::refusal_line))]
fn push_refusal_line(kind: FaultKind, frame: &[u8], out: &mut Vec<u8>) -> Result<(), AllocError>
    requires { BeginsWithFrame frame.now }
    ensures { Appends out.old out.new result (refusal_line kind frame.now) }
{
    out.extend_from_slice(b"  refused: ")?;
    push_reason(kind, frame, out)?;
    out.extend_from_slice(b"\n")
}

/// Appends the lines of a message with a fault of its body: its header's, the reason, and the
/// body's bytes.
#[tactic(auto, unfolding(crate::specs::MessageLines::faulty_lines))]
pub(crate) fn push_faulty(
    numbers: bool,
    kind: FaultKind,
    frame: &[u8],
    out: &mut Vec<u8>,
) -> Result<(), AllocError>
    requires { BeginsWithFrame frame.now }
    ensures { AppendsWith 16 out.old out.new result (faulty_lines numbers kind frame.now) }
{
    push_frame(&frame[..NETLINK_HEADER_LEN], numbers, out)?;
    push_refusal_line(kind, frame, out)?;
    push_refused_body(frame, out)
}

/// Returns the first message, by the length in its header, without its padding.
pub(crate) fn frame_of(bytes: &[u8]) -> &[u8]
    requires { BeginsWithFrame bytes.now }
    ensures { result.now ≡ frame_of bytes.now }
{
    &bytes[..NetlinkBuffer::new(bytes).length() as usize]
}

/// Returns the reason why the first message's body is refused; None if the message ends 2^63 bytes
/// or more after the capture's start.
fn refusal_of(offset: u64, bytes: &[u8]) -> Option<Refusal>
    requires { BeginsWithFrame bytes.now }
    ensures { optional_found result ≡ frame_reason FaultKind.Refused offset (frame_of bytes.now) }
{
    let frame = frame_of(bytes);
    if offset >= (1 << 63) - frame.len() as u64 {
        return None;
    }
    why_frame(frame, offset)
}

/// Returns the fault of the first message, which is at an offset of the capture, with the reason if
/// it is a refused body.
pub(crate) fn fault_of(kind: FaultKind, offset: u64, bytes: &[u8]) -> ShowFault
    requires { kind ≡ FaultKind.Refused → BeginsWithFrame bytes.now }
    ensures fault { result.fault ≡ record { kind = kind; offset = offset } }
    ensures refusal { optional_found result.refusal ≡ frame_reason kind offset (frame_of bytes.now) }
{
    let refusal = match kind {
        FaultKind::Refused => refusal_of(offset, bytes),
        _ => None,
    };
    ShowFault {
        fault: CaptureFault { kind, offset },
        refusal,
    }
}
