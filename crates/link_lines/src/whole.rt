//! The lines of a whole capture that are selected.

ghost use Rattle.std.specs.Prelude.{◌≡◌, ◌≢◌, ◌≤◌, ◌+◌, ◌++◌, ℕ, List, length, drop, Some, IfErr, OnOk};
ghost use Rattle.link_capture_grammar.specs.Captures.{first_fault, IsLegal};
ghost use Rattle.link_capture_reader.specs.Readers.{IsFrameOffsetOf};
ghost use Rattle.link_capture_refusals.specs.RefusalViews.{optional_found};
ghost use Rattle.link_lines.specs.Meanings.{GainsShown};
ghost use Rattle.link_lines.specs.Options.{selection_of};
ghost use Rattle.link_lines.specs.Outcomes.{RunsOutAt};
ghost use Rattle.link_lines.specs.Refused.{reported_refusal};
ghost use Rattle.link_lines.specs.Walks.{Ends, last_report, or_else, report_in, reported_by};
ghost use Rattle.link_message_grammar.specs.Body.{link_body};

use crate::engine::{fault_at, stopped_by};
use crate::message_laws::{first_faults_are_reported, messages_unfold};
use crate::messages::{Buffers, Walked, push_messages};
use crate::options::ShowOptions;
use crate::refused::ShowFault;
use link_capture_grammar::fault::FaultKind;
use link_capture_grammar::laws::faults_are_at_frames;
use std::alloc::Global;

/// Returns the result for a whole capture, given the first fault that was kept and the walk's end.
fn conclude(
    bytes: &[u8],
    found: Option<ShowFault>,
    walked: Walked,
    keep_going: bool,
    limit: u32,
) -> Result<(), ShowFault>
    requires { Ends keep_going limit bytes.now walked.len walked.last }
    ensures { reported_by result
        ≡ or_else (report_in found) (last_report walked.len walked.last (drop walked.len bytes.now)) }
{
    match walked.last {
        Some(kind) => Err(stopped_by(found, kind, walked.len as u64, &bytes[walked.len..])),
        None => match found {
            Some(fault) => Err(fault),
            None => Ok(()),
        },
    }
}

/// Appends what the options select of a capture's lines to `out`.
///
/// `limit` is the greatest length in bytes that a message, read or in its normal text, may have. Ok
/// means that the capture is legal.
///
/// # Errors
///
/// - the capture's first fault, with its offset, and what `why` returns for a refused body. `out` has
///   gained the lines of the messages before it; with `keep_going` also those of messages with a
///   fault of their body, and of those after them, up to a fault of another kind;
/// - `Memory` at the offset of the message for which an allocation fails; `out` has gained the lines
///   of those before it.
pub fn show_bytes(
    alloc: Global,
    bytes: &[u8],
    limit: u32,
    options: &ShowOptions<'_>,
    out: &mut Vec<u8>,
) -> Result<(), ShowFault>
    requires { 16 ≤ limit }
    // It succeeds only on legal captures, and appends their lines.
    ensures legal { OnOk result (IsLegal link_body limit bytes.now
        × GainsShown (selection_of options.now) limit bytes.now out.old out.new) }
    // Otherwise it returns the first fault, unless an allocation fails, and appends the lines that
    // are shown.
    ensures fault { IfErr result
        (λ e. e.fault.kind ≢ FaultKind.Memory → (first_fault link_body limit bytes.now ≡ Some e.fault)
        × GainsShown (selection_of options.now) limit bytes.now out.old out.new) }
    // The reason is that of the refused body, if the fault is one.
    ensures refusal { IfErr result
        (λ e. optional_found e.refusal ≡ reported_refusal bytes.now e.fault.kind e.fault.offset) }
    // A fault's offset is the start of a frame.
    ensures frame_start { IfErr result (λ e. IsFrameOffsetOf bytes.now e.fault.offset) }
    // An allocation fails only for a message that is shown, and the lines of those before it are
    // appended.
    ensures memory { IfErr result (λ e. e.fault.kind ≡ FaultKind.Memory → (w : List ℕ)
        × RunsOutAt (selection_of options.now) limit bytes.now w e.fault.offset
        × (out.new.items ≡ out.old.items ++ w)) }
{
    messages_unfold();
    first_faults_are_reported();
    faults_are_at_frames();
    let mut buffers = Buffers::new(alloc);
    let mut found = None;
    match push_messages(bytes, 0, 0, limit, options, &mut buffers, &mut found, out) {
        Ok(walked) => conclude(bytes, found, walked, options.keep_going, limit),
        Err(offset) => Err(fault_at(FaultKind::Memory, offset as u64)),
    }
}
