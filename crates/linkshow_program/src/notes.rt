//! Notes of encoding quirks, which some kernels treat differently from the normal text.

ghost use Rattle.std.specs.Prelude.{◌≡◌, ◌≤◌, option_map};
ghost use Rattle.std.specs.Process.{exit_status};
ghost use Rattle.link_capture_quirks.specs.CaptureQuirks.{capture_quirks};
ghost use Rattle.link_capture_reader.specs.States.{IsReportedUnlessSinkFails, sink_state, source_state};
ghost use Rattle.linkshow_program.specs.Devices.{run_of};
ghost use Rattle.linkshow_program.specs.Runs.{chosen, notes_text, NotesRun};

use super::lines::note;
use super::showing::report;
use crate::arguments::Options;
use link_capture_quirks::quirks;
use link_capture_reader::{
    FirstBytes, Sink, SliceSource, Source, read_all_keeping_first, report_text,
};
use link_lines::{ShowFault, show};
use std::alloc::Global;
use std::process::ExitCode;

/// Writes a note for each encoding quirk of a capture, up to the first fault. After a failure of
/// the sink the rest isn't written.
fn report_notes<E: Sink>(errors: &mut E, bytes: &[u8], limit: u32)
    ensures { IsReportedUnlessSinkFails (sink_state E.holds E.failures errors.old)
        (sink_state E.holds E.failures errors.new)
        (notes_text (capture_quirks limit bytes.now)) }
{
    let mut left = quirks(bytes, limit);
    'notes: loop {
        let Some(Ok(found)) = left.next() else {
            return;
        };
        if !report_text(errors, note(found.text().as_str()).as_str()) {
            return;
        }
    }
}

/// Reads a source to its end, writes a note for each encoding quirk, then the lines, and reports
/// what went wrong. Returns the program's status.
///
/// If reading fails, or an allocation for what is read, this is reported before any note or line.
pub fn run_notes<S: Source, K: Sink, E: Sink>(
    alloc: Global,
    source: &mut S,
    sink: &mut K,
    errors: &mut E,
    options: &Options<'_>,
) -> ExitCode
    requires { 16 ≤ options.now.limit }
    ensures { NotesRun (chosen options.now) (run_of
        (source_state S.to_come S.failures S.ends_reported) (sink_state K.holds K.failures)
        (sink_state E.holds E.failures) source.old source.new sink.old sink.new
        errors.old errors.new) (sink.new ≡ sink.old) (option_map (λ name. name.now) options.now.file) options.now.limit
        (exit_status result) }
{
    let mut first = FirstBytes::new();
    match read_all_keeping_first(alloc, source, &mut first) {
        Ok(bytes) => {
            report_notes(errors, bytes.as_slice(), options.limit);
            let mut whole = SliceSource::new(bytes.as_slice());
            let outcome = show(alloc, &mut whole, sink, options.limit, &options.show);
            report(errors, options.file, first.as_slice(), outcome)
        }
        Err(fault) => report(
            errors,
            options.file,
            first.as_slice(),
            Err(ShowFault::from(fault)),
        ),
    }
}
