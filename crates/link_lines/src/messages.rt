//! The messages of a capture, one after the other.

ghost use Rattle.std.specs.Prelude.{◌≡◌, ◌≤◌, ◌<◌, ◌+◌, ◌%◌, ◌^◌, ◌++◌, length, drop, IfErr, IfOk, OnErr, OnOk, Some};
ghost use Rattle.netlink_packet_core_grammar.specs.Frames.{BeginsWithFrame, frame_length};
ghost use Rattle.link_lines_values.specs.Appends.{Appends};
ghost use Rattle.link_lines.specs.Memory.{ReplacesLines, LacksMemory, LacksOutputCapacity, LacksShown, LacksText};
ghost use Rattle.link_lines.specs.MessageLines.{lines_or_json, lines_with_offset, message_lines, output_lines, selected};
ghost use Rattle.link_lines.specs.Messages.{Message.Accepted, Message.Faulty, frame_of, report_of};
ghost use Rattle.link_lines.specs.Options.{selection_of};
ghost use Rattle.link_lines.specs.Outcomes.{IsAccepted, IsToBeShown};
ghost use Rattle.link_lines.specs.Pieces.{IsShownAs};
ghost use Rattle.link_lines.specs.Walks.{Ends, IsJudged, Passes, Steps, or_else, report_in, shown_to};

use crate::faulty::{fault_of, frame_of, is_of_body, push_faulty};
use crate::lines::push_lines;
use crate::message_laws::{messages_unfold, nothing_omitted_keeps_all};
use crate::offsets::push_with_offset;
use crate::options::ShowOptions;
use crate::refused::ShowFault;
use link_capture_checks::{frame_len, push_frame as push_text};
use link_capture_grammar::fault::FaultKind;
use link_capture_grammar::laws::{frames_are_independent, frames_are_judged};
use link_lines_json::push_json;
use link_lines_parts::push_remaining;
use netlink_packet_core::{NetlinkBuffer, nla_align};
use std::alloc::{AllocError, Global};
use std::mem::swap;

/// The result for the first message of some bytes, with its length in bytes if that is known.
#[derive(Clone, Copy)]
pub(crate) enum Judgement {
    /// It is accepted.
    Accepted(usize),
    /// Its body has a fault.
    Faulty(FaultKind, usize),
    /// Its header has a fault, or it is cut.
    Invalid(FaultKind),
}

/// The result for the first message of some bytes that are shown.
#[derive(Clone, Copy, Drop)]
pub enum ShownMessage {
    /// It is accepted, has that length in bytes without its padding, and is shown.
    Accepted(usize),
    /// Its body has the fault, it has that length, and it is shown.
    Faulty(FaultKind, usize),
    /// Showing stops at it, because of the fault.
    Stopped(FaultKind),
}

/// What follows the judgement of a message.
#[derive(Clone, Copy)]
pub(crate) enum Step {
    /// The message, of that many bytes, is shown.
    Next(usize),
    /// Showing stops at the message, which has that fault.
    Stop(FaultKind),
}

/// The end of a walk over messages.
#[derive(Clone, Copy)]
pub(crate) struct Walked {
    /// The offset in the bytes after the last message that is shown and its padding.
    pub len: usize,
    /// The fault of the message at that offset; None if the bytes end there or before.
    pub last: Option<FaultKind>,
}

/// Buffers that are used message by message.
#[derive(Drop)]
pub struct Buffers {
    /// The normal text of a message.
    pub(crate) text: Vec<u8>,
    /// The lines of a message.
    pub(crate) lines: Vec<u8>,
    /// What they become by the next step.
    pub(crate) spare: Vec<u8>,
}

impl Buffers {
    /// Returns empty buffers.
    pub fn new(alloc: Global) -> Buffers {
        Buffers {
            text: Vec::new(alloc),
            lines: Vec::new(alloc),
            spare: Vec::new(alloc),
        }
    }
}

/// Judges the first message, whose length is known, and leaves its normal text in `text` if it is
/// accepted.
fn judge_frame(
    bytes: &[u8],
    len: usize,
    limit: u32,
    text: &mut Vec<u8>,
) -> Result<Judgement, AllocError>
    requires frame { BeginsWithFrame bytes.now }
    requires len { len ≡ frame_length bytes.now }
    ensures ok { IfOk result (λ judgement. IsJudged limit bytes.now text.new.items judgement) }
    ensures memory { OnErr result (IsAccepted limit bytes.now) }
    ensures cause { OnErr result (LacksText limit bytes.now text.old) }
{
    text.clear();
    match push_text(bytes, limit, text) {
        Ok(len) => Ok(Judgement::Accepted(len)),
        Err(kind) => match kind {
            FaultKind::Memory => Err(AllocError),
            _ if is_of_body(kind) => Ok(Judgement::Faulty(kind, len)),
            _ => Ok(Judgement::Invalid(kind)),
        },
    }
}

/// Judges the first message, and leaves its normal text in `text` if it is accepted.
fn judge(bytes: &[u8], limit: u32, text: &mut Vec<u8>) -> Result<Judgement, AllocError>
    ensures ok { IfOk result (λ judgement. IsJudged limit bytes.now text.new.items judgement) }
    ensures memory { OnErr result (IsAccepted limit bytes.now) }
    ensures cause { OnErr result (LacksText limit bytes.now text.old) }
{
    frames_are_judged();
    match frame_len(bytes, limit) {
        Ok(len) => judge_frame(bytes, len, limit, text),
        Err(kind) => Ok(Judgement::Invalid(kind)),
    }
}

/// Leaves in `lines` what is selected of them.
#[tactic(auto, using(crate::proofs::AllLines::all_selected))]
fn select(
    options: &ShowOptions<'_>,
    lines: &mut Vec<u8>,
    spare: &mut Vec<u8>,
) -> Result<(), AllocError>
    ensures { ReplacesLines lines.old spare.old lines.new spare.new result
        (selected (selection_of options.now) lines.old.items) }
{
    nothing_omitted_keeps_all();
    if options.selects_all() {
        return Ok(());
    }
    spare.clear();
    if options.is_about_link(lines.as_slice()) {
        push_remaining(lines.as_slice(), &options.without, spare)?;
    }
    swap(lines, spare);
    Ok(())
}

/// Leaves in `lines` the message's offset too, if it is shown.
fn locate(
    offsets: bool,
    offset: u64,
    lines: &mut Vec<u8>,
    spare: &mut Vec<u8>,
) -> Result<(), AllocError>
    ensures { ReplacesLines lines.old spare.old lines.new spare.new result
        (lines_with_offset offsets offset lines.old.items) }
{
    if !offsets || lines.is_empty() {
        return Ok(());
    }
    spare.clear();
    push_with_offset(lines.as_slice(), offset, spare)?;
    swap(lines, spare);
    Ok(())
}

/// Leaves in `lines` the object of JSON that they become, if it is shown.
fn form(json: bool, lines: &mut Vec<u8>, spare: &mut Vec<u8>) -> Result<(), AllocError>
    ensures { ReplacesLines lines.old spare.old lines.new spare.new result (lines_or_json json lines.old.items) }
{
    if !json {
        return Ok(());
    }
    spare.clear();
    push_json(lines.as_slice(), spare)?;
    swap(lines, spare);
    Ok(())
}

/// Appends a text to `out`, or nothing if an allocation fails. If `out` is empty and too small, it
/// gets the memory of the text in place of a copy.
fn append_or_take(text: &mut Vec<u8>, out: &mut Vec<u8>) -> Result<(), AllocError>
    ensures appends { Appends out.old out.new result text.old.items }
    ensures err { OnErr result (out.new.items ≡ out.old.items) }
{
    if out.is_empty() && out.capacity() < text.len() {
        swap(text, out);
        return Ok(());
    }
    out.extend_from_slice(text.as_slice())
}

/// Appends what is shown of the lines of a message at an offset, or nothing if an allocation fails.
/// Each step leaves its result in `lines`, so a message takes the memory of two of them at a time.
fn push_placed(
    options: &ShowOptions<'_>,
    offset: u64,
    lines: &mut Vec<u8>,
    spare: &mut Vec<u8>,
    out: &mut Vec<u8>,
) -> Result<(), AllocError>
    ensures ok { OnOk result (out.new.items ≡ out.old.items
        ++ output_lines (selection_of options.now) offset lines.old.items) }
    ensures memory { OnErr result (LacksOutputCapacity (selection_of options.now) offset lines.old.items
        lines.old spare.old out.old) }
    ensures err { OnErr result (out.new.items ≡ out.old.items) }
{
    select(options, lines, spare)?;
    locate(options.offsets, offset, lines, spare)?;
    form(options.json, lines, spare)?;
    append_or_take(lines, out)
}

/// Appends the lines of an accepted message, whose normal text is in the buffers, or nothing if an
/// allocation fails.
fn push_accepted(
    options: &ShowOptions<'_>,
    offset: u64,
    buffers: &mut Buffers,
    out: &mut Vec<u8>,
) -> Result<(), AllocError>
    ensures ok { OnOk result (out.new.items ≡ out.old.items
        ++ message_lines (selection_of options.now) (Accepted offset buffers.old.text.items)) }
    ensures memory { OnErr result (LacksShown (selection_of options.now)
        (Accepted offset buffers.old.text.items) buffers.old out.old) }
    ensures err { OnErr result (out.new.items ≡ out.old.items) }
{
    let Buffers { text, lines, spare } = buffers;
    lines.clear();
    push_lines(text.as_slice(), options, lines)?;
    push_placed(options, offset, lines, spare, out)
}

/// Appends the lines of a message with a fault of its body, if its type is shown, or nothing if an
/// allocation fails.
fn push_refused(
    options: &ShowOptions<'_>,
    offset: u64,
    kind: FaultKind,
    frame: &[u8],
    buffers: &mut Buffers,
    out: &mut Vec<u8>,
) -> Result<(), AllocError>
    requires { BeginsWithFrame frame.now }
    ensures ok { OnOk result (out.new.items ≡ out.old.items
        ++ message_lines (selection_of options.now) (Faulty offset kind frame.now)) }
    ensures memory { OnErr result (LacksShown (selection_of options.now)
        (Faulty offset kind frame.now) buffers.old out.old) }
    ensures err { OnErr result (out.new.items ≡ out.old.items) }
{
    let Buffers { lines, spare, .. } = buffers;
    lines.clear();
    if options.shows(NetlinkBuffer::new(frame).message_type()) {
        push_faulty(options.shows_numbers(), kind, frame, lines)?;
    }
    push_placed(options, offset, lines, spare, out)
}

/// Keeps the fault of the first message of `bytes`, if none was kept before.
fn keep_fault(found: &mut Option<ShowFault>, kind: FaultKind, offset: u64, bytes: &[u8])
    requires { BeginsWithFrame bytes.now }
    ensures { report_in found.new
        ≡ or_else (report_in found.old) (Some (report_of offset kind (frame_of bytes.now))) }
{
    if found.is_none() {
        *found = Some(fault_of(kind, offset, bytes));
    }
}

/// Appends the lines that the options select of the first message of `bytes`, which is at an offset
/// of a capture. Returns its length, or the fault at which showing stops.
///
/// # Errors
///
/// `AllocError` if the buffers or `out` lacked capacity for the message and can't grow; `out` is
/// unchanged.
pub fn push_selected_message(
    bytes: &[u8],
    offset: u64,
    limit: u32,
    options: &ShowOptions<'_>,
    buffers: &mut Buffers,
    out: &mut Vec<u8>,
) -> Result<ShownMessage, AllocError>
    ensures ok { IfOk result (λ outcome. IsShownAs (selection_of options.now) limit offset bytes.now
        out.old.items out.new.items outcome) }
    // An allocation fails only for a message that is shown, and only if the buffers or `out` lacked
    // capacity for it.
    ensures memory { OnErr result (IsToBeShown options.now.keep_going limit bytes.now) }
    ensures cause { OnErr result (LacksMemory (selection_of options.now) limit offset bytes.now
        buffers.old out.old) }
    ensures err { OnErr result (out.new.items ≡ out.old.items) }
{
    match judge(bytes, limit, &mut buffers.text)? {
        Judgement::Accepted(len) => {
            push_accepted(options, offset, buffers, out)?;
            Ok(ShownMessage::Accepted(len))
        }
        Judgement::Faulty(kind, len) if options.keep_going => {
            push_refused(options, offset, kind, frame_of(bytes), buffers, out)?;
            Ok(ShownMessage::Faulty(kind, len))
        }
        Judgement::Faulty(kind, _) | Judgement::Invalid(kind) => Ok(ShownMessage::Stopped(kind)),
    }
}

/// Appends the lines of the first message of `bytes`, which is at an offset of the capture, unless
/// showing stops there. Keeps the first fault in `found`.
fn push_message(
    bytes: &[u8],
    offset: u64,
    limit: u32,
    options: &ShowOptions<'_>,
    buffers: &mut Buffers,
    found: &mut Option<ShowFault>,
    out: &mut Vec<u8>,
) -> Result<Step, AllocError>
    ensures ok { IfOk result (λ step. Steps (selection_of options.now) limit offset bytes.now
        out.old.items out.new.items (report_in found.old) (report_in found.new) step) }
    ensures memory { OnErr result (IsToBeShown options.now.keep_going limit bytes.now) }
    ensures err { OnErr result (out.new.items ≡ out.old.items) }
    ensures found { OnErr result (found.new ≡ found.old) }
{
    messages_unfold();
    frames_are_independent();
    match push_selected_message(bytes, offset, limit, options, buffers, out)? {
        ShownMessage::Accepted(len) => Ok(Step::Next(len)),
        ShownMessage::Faulty(kind, len) => {
            keep_fault(found, kind, offset, bytes);
            Ok(Step::Next(len))
        }
        ShownMessage::Stopped(kind) => Ok(Step::Stop(kind)),
    }
}

/// Appends the lines of the messages of `bytes`, which begin at the offset `start` of the capture,
/// from the offset `from` on. Keeps the first fault in `found`.
///
/// # Errors
///
/// The offset in `bytes` of the message for which an allocation failed; `out` has gained the lines of
/// those before it.
pub(crate) fn push_messages(
    bytes: &[u8],
    start: u64,
    from: usize,
    limit: u32,
    options: &ShowOptions<'_>,
    buffers: &mut Buffers,
    found: &mut Option<ShowFault>,
    out: &mut Vec<u8>,
) -> Result<Walked, usize>
    requires fits { start + length bytes.now < 2 ^ 64 }
    requires near { from ≤ 3 }
    ensures passes { Passes (selection_of options.now) limit start bytes.now from (shown_to result)
        out.old.items out.new.items (report_in found.old) (report_in found.new) }
    ensures ends { IfOk result (λ w. Ends options.now.keep_going limit bytes.now w.len w.last) }
    ensures bounds { IfOk result (λ w. w.len ≤ length bytes.now + 3) }
    ensures memory { IfErr result (λ at. (at < length bytes.now)
        × IsToBeShown options.now.keep_going limit (drop at bytes.now)) }
    // The messages after the first begin at multiples of 4 from it.
    ensures frame_start { IfErr result (λ at. at % 4 ≡ from % 4) }
{
    let mut len = from;
    'messages: while len < bytes.len() {
        let Ok(step) = push_message(
            &bytes[len..],
            start + len as u64,
            limit,
            options,
            buffers,
            found,
            out,
        ) else {
            return Err(len);
        };
        match step {
            Step::Next(size) => len += nla_align(size),
            Step::Stop(kind) => {
                return Ok(Walked {
                    len,
                    last: Some(kind),
                });
            }
        }
    }
    Ok(Walked { len, last: None })
}
