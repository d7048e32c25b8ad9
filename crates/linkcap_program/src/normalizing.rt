//! Normalises the capture of a source.

ghost use Rattle.std.specs.Prelude.{◌≡◌, ◌≤◌};
ghost use Rattle.std.specs.Process.{exit_status};
ghost use Rattle.link_capture_commands.specs.Commands.{status_of_norm};
ghost use Rattle.link_capture_reader.specs.States.{IsReportedUnlessSinkFails, sink_state, source_state};
ghost use Rattle.linkcap_program.specs.Runs.{NormRun, norm_error, run_of};

use super::lines::line;
use link_capture_commands::status_norm;
use link_capture_grammar::fault::CaptureFault;
use link_capture_reader::{Sink, Source, normalize, report_text};
use std::alloc::Global;
use std::process::ExitCode;

/// Reports a fault in a line, and writes nothing if there is none. Returns the exit status.
fn report<E: Sink>(errors: &mut E, outcome: Result<(), CaptureFault>) -> ExitCode
    ensures status { exit_status result ≡ status_of_norm outcome }
    ensures fault_reported { IsReportedUnlessSinkFails (sink_state E.holds E.failures errors.old)
        (sink_state E.holds E.failures errors.new) (norm_error outcome) }
{
    match outcome {
        Ok(()) => ExitCode::from(status_norm(&outcome)),
        Err(fault) => {
            report_text(errors, line(fault.text().as_str()).as_str());
            ExitCode::from(status_norm(&outcome))
        }
    }
}

/// Writes the normal text of a source's capture, as its frames come, and reports the fault. If a
/// write fails, that is the fault that is reported. Returns the exit status.
pub fn run_norm<S: Source, K: Sink, E: Sink>(
    alloc: Global,
    source: &mut S,
    sink: &mut K,
    errors: &mut E,
    limit: u32,
) -> ExitCode
    requires { 16 ≤ limit }
    ensures { NormRun (run_of (source_state S.to_come S.failures S.ends_reported)
        (sink_state K.holds K.failures) (sink_state E.holds E.failures)
        source.old source.new sink.old sink.new errors.old errors.new) limit (exit_status result) }
{
    let outcome = normalize(alloc, source, sink, limit);
    report(errors, outcome)
}
