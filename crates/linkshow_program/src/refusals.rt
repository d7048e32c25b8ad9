//! The text of a fault, and of the reason of a refused body.

ghost use Rattle.std.specs.Prelude.{◌≡◌, map};
ghost use Rattle.link_capture_refusals.specs.RefusalTexts.{path_text};
ghost use Rattle.link_lines.specs.Refused.{fault_message, refusal_message};
ghost use Rattle.link_capture_reader.specs.States.{IsReported, sink_state};

use super::lines::report_texts;
use link_capture_reader::{Sink, report_text};
use link_capture_refusals::{Refusal, separator_after_name};
use link_lines::ShowFault;

/// Writes names from the outermost to the innermost, followed by a colon if there are any. Returns
/// whether all was written.
fn report_path<E: Sink>(errors: &mut E, path: &[&'static str]) -> bool
    ensures { IsReported (sink_state E.holds E.failures errors.old)
        (sink_state E.holds E.failures errors.new)
        (path_text (map (λ n. n.now) path.now)) result }
{
    let mut left = path;
    'names: while let [name, rest @ ..] = left {
        if !report_texts(errors, &[name, separator_after_name(rest)]) {
            return false;
        }
        left = rest;
    }
    true
}

/// Writes a colon and the reason of a refused body, if there is one. Returns whether all was
/// written.
fn report_refusal<E: Sink>(errors: &mut E, refusal: &Option<Refusal>) -> bool
    ensures { IsReported (sink_state E.holds E.failures errors.old)
        (sink_state E.holds E.failures errors.new) (refusal_message refusal.now) result }
{
    let Some(refusal) = refusal else {
        return true;
    };
    if !report_text(errors, ": ") {
        return false;
    }
    if !report_path(errors, refusal.path.as_slice()) {
        return false;
    }
    report_text(errors, refusal.reason_text().as_str())
}

/// Writes the text of a fault with its offset, and the reason of a refused body. Returns whether
/// all was written.
pub(crate) fn report_fault_message<E: Sink>(errors: &mut E, found: &ShowFault) -> bool
    ensures { IsReported (sink_state E.holds E.failures errors.old)
        (sink_state E.holds E.failures errors.new) (fault_message found.now) result }
{
    if !report_text(errors, found.fault.text().as_str()) {
        return false;
    }
    report_refusal(errors, &found.refusal)
}
