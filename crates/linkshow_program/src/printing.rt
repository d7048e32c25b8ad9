//! Texts that the arguments ask for.

ghost use Rattle.std.specs.Prelude.{◌≡◌};
ghost use Rattle.std.specs.Process.{exit_status};
ghost use Rattle.link_capture_reader.specs.States.{sink_state};
ghost use Rattle.linkshow_program.specs.Runs.{PrintRun};

use super::lines::report_texts;
use link_capture_commands::NOT_PRINTED;
use link_capture_reader::{Sink, report_text};
use std::process::ExitCode;

/// Prints a text, or reports that it can't be printed. Returns the program's status.
pub(crate) fn print<K: Sink, E: Sink>(sink: &mut K, errors: &mut E, text: &str) -> ExitCode
    ensures { PrintRun (sink_state K.holds K.failures sink.old)
        (sink_state K.holds K.failures sink.new) (sink_state E.holds E.failures errors.old)
        (sink_state E.holds E.failures errors.new) text.now (exit_status result) }
{
    if report_text(sink, text) {
        return ExitCode::from(0);
    }
    report_texts(errors, &[NOT_PRINTED.text().as_str(), "\n"]);
    ExitCode::from(2)
}
