//! Texts that are written to a sink.

ghost use Rattle.std.specs.Prelude.{◌≡◌, ◌≤◌};
ghost use Rattle.link_capture_reader.specs.States.{IsReported, sink_state};

use super::devices::Sink;
use super::engine::write_all;

/// Writes a text. Returns whether all of it was written; if not, the sink failed after a prefix of
/// it.
pub fn report_text<K: Sink>(sink: &mut K, text: &str) -> bool
    ensures { IsReported (sink_state K.holds K.failures sink.old)
        (sink_state K.holds K.failures sink.new) text.now result }
{
    match write_all(sink, text.as_bytes(), 0) {
        Ok(_) => true,
        Err(_) => false,
    }
}
