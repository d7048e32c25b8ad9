//! The lines of a source, and reports of what went wrong.

ghost use Rattle.std.specs.Prelude.{◌≡◌, ◌≤◌, ◌++◌, option_map};
ghost use Rattle.std.specs.Process.{exit_status};
ghost use Rattle.link_capture_reader.specs.States.{IsReported, IsReportedUnlessSinkFails, sink_state, source_state};
ghost use Rattle.linkshow_program.specs.Devices.{run_of};
ghost use Rattle.linkshow_program.specs.Runs.{chosen, fault_report, is_unread, name_report};
ghost use Rattle.linkshow_program.specs.Runs.{nothing_shown, report_of, ShowRun, status_of, unopened};

use super::lines::report_texts;
use super::refusals::report_fault_message;
use crate::arguments::Options;
use crate::texts::{advice, cause};
use link_capture_grammar::fault::FaultKind;
use link_capture_reader::{Sink, Source, report_text};
use link_lines::{FirstBytes, ShowFault, show_keeping_first};
use std::alloc::Global;
use std::io::ErrorKind;
use std::process::ExitCode;

/// Returns whether the source failed.
fn is_unread(kind: FaultKind) -> bool
    ensures { result ≡ is_unread kind }
{
    match kind {
        FaultKind::Read => true,
        _ => false,
    }
}

/// Writes the name of a file that couldn't be read, before the text of the fault. Returns whether
/// all was written.
fn report_name<E: Sink>(errors: &mut E, file: Option<&str>, is_unread: bool) -> bool
    ensures { IsReported (sink_state E.holds E.failures errors.old)
        (sink_state E.holds E.failures errors.new)
        (name_report (option_map (λ name. name.now) file.entry) is_unread) result }
{
    match file {
        Some(name) if is_unread => report_texts(errors, &["linkshow: ", name, ": "]),
        _ => true,
    }
}

/// Reports a fault in one line, which begins with the file's name if the file couldn't be read,
/// followed by a line of advice if the capture is a file of another format. Returns whether all was
/// written.
fn report_fault<E: Sink>(
    errors: &mut E,
    file: Option<&str>,
    first: &[u8],
    found: &ShowFault,
) -> bool
    ensures { IsReported (sink_state E.holds E.failures errors.old)
        (sink_state E.holds E.failures errors.new)
        (fault_report (option_map (λ name. name.now) file.entry) first.now found.now) result }
{
    if !report_name(errors, file, is_unread(found.fault.kind)) {
        return false;
    }
    if !report_fault_message(errors, found) {
        return false;
    }
    report_texts(errors, &["\n", advice(first)])
}

/// Reports that a file can't be opened, and why. Returns whether all was written.
pub(crate) fn report_unopened<E: Sink>(errors: &mut E, name: &str, kind: ErrorKind) -> bool
    ensures { IsReported (sink_state E.holds E.failures errors.old)
        (sink_state E.holds E.failures errors.new) (unopened name.now kind) result }
{
    if !report_name(errors, Some(name), true) {
        return false;
    }
    report_texts(errors, &[cause(kind), "\n"])
}

/// Returns the report on a legal capture: nothing, or `no messages` if it has no lines.
fn nothing_shown(has_lines: bool) -> &'static str
    ensures { result.now ≡ nothing_shown has_lines }
{
    if has_lines { "" } else { "no messages\n" }
}

/// Reports in one line what went wrong, or that no message was shown. Returns the program's status.
pub(crate) fn report<E: Sink>(
    errors: &mut E,
    file: Option<&str>,
    first: &[u8],
    outcome: Result<bool, ShowFault>,
) -> ExitCode
    ensures status { exit_status result ≡ status_of outcome }
    ensures reported { IsReportedUnlessSinkFails (sink_state E.holds E.failures errors.old)
        (sink_state E.holds E.failures errors.new)
        (report_of (option_map (λ name. name.now) file.entry) first.now outcome) }
{
    match outcome {
        Ok(has_lines) => {
            report_text(errors, nothing_shown(has_lines));
            ExitCode::from(0)
        }
        Err(found) => {
            report_fault(errors, file, first, &found);
            ExitCode::from(2)
        }
    }
}

/// Writes the lines of a source, read to its end, and reports what went wrong. Returns the
/// program's status.
pub fn run_show<S: Source, K: Sink, E: Sink>(
    alloc: Global,
    source: &mut S,
    sink: &mut K,
    errors: &mut E,
    options: &Options<'_>,
) -> ExitCode
    requires { 16 ≤ options.now.limit }
    ensures { ShowRun (chosen options.now) (run_of
        (source_state S.to_come S.failures S.ends_reported) (sink_state K.holds K.failures)
        (sink_state E.holds E.failures) source.old source.new sink.old sink.new
        errors.old errors.new) (option_map (λ name. name.now) options.now.file) options.now.limit
        (exit_status result) }
{
    let mut first = FirstBytes::new();
    let outcome = show_keeping_first(
        alloc,
        source,
        sink,
        options.limit,
        &options.show,
        &mut first,
    );
    report(errors, options.file, first.as_slice(), outcome)
}
