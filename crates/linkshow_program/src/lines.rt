//! Texts that are written to a sink.

ghost use Rattle.std.specs.Prelude.{◌≡◌, ◌≤◌, ◌++◌, ◌∷◌, [], codes, length};
ghost use Rattle.link_capture_reader.specs.States.{IsReported, sink_state};
ghost use Rattle.linkshow_program.specs.Reporting.{texts_joined};

use arrayvec::ArrayString;
use link_capture_reader::{Sink, report_text};

/// Returns the line of a note with this text.
pub(crate) fn note(text: &str) -> ArrayString<135>
    requires { length text.now ≤ 128 }
    ensures { result.bytes ≡ codes "note: " ++ (text.now ++ 10 ∷ []) }
{
    let mut line = ArrayString::new();
    line.push_str("note: ");
    line.push_str(text);
    line.push_str("\n");
    line
}

/// Writes texts, one after the other. Returns whether all of them were written: after a failure of
/// the sink the rest isn't.
pub(crate) fn report_texts<K: Sink>(sink: &mut K, texts: &[&str]) -> bool
    ensures { IsReported (sink_state K.holds K.failures sink.old)
        (sink_state K.holds K.failures sink.new)
        (texts_joined texts.now) result }
{
    let mut left = texts;
    'texts: while let [text, rest @ ..] = left {
        if !report_text(sink, text) {
            return false;
        }
        left = rest;
    }
    true
}
