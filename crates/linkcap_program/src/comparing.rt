//! Compares the captures in two files.

ghost use Rattle.std.specs.Prelude.{◌≡◌, ◌⊎◌, ℕ, List, true, false, Ok, Err};
ghost use Rattle.std.specs.Process.{exit_status};
ghost use Rattle.link_capture_comparing.specs.Comparisons.{IsReadWhole, IsReadUpTo};
ghost use Rattle.link_capture_reader.specs.Files.{files_of};
ghost use Rattle.link_capture_reader.specs.States.{sink_state, source_state};
ghost use Rattle.linkcap_program.specs.Comparisons.{Compares, FailsAt, IsOpenFault};
ghost use Rattle.linkcap_program.specs.Runs.{SameRun, SameReported, same_line};

use super::lines::line;
use link_capture_checks::SideFault;
use link_capture_commands::{NOT_PRINTED, status_same};
use link_capture_comparing::{read_to_end, same_sources};
use link_capture_grammar::fault::{CaptureFault, FaultKind};
use link_capture_reader::{FileSystem, Sink, Source, report_text};
use std::alloc::Global;
use std::process::ExitCode;

/// The fault of a file that can't be opened.
const NOT_OPENED: CaptureFault = CaptureFault {
    kind: FaultKind::Read,
    offset: 0,
};

/// Returns the fault of the first or the second of two files.
fn fault_of(second: bool, fault: CaptureFault) -> SideFault
    ensures { result ≡ record { second = second; fault = fault } }
{
    SideFault { second, fault }
}

/// Returns the fault if the second file can't be opened: that of the first file, if reading it to its
/// end fails.
fn unopened_second<S: Source>(first: &mut S) -> SideFault
    ensures { (read : List ℕ) × ((IsReadWhole (source_state S.to_come S.failures S.ends_reported first.old)
        (source_state S.to_come S.failures S.ends_reported first.new) read
        × FailsAt true IsOpenFault (Err result))
        ⊎ FailsAt false (IsReadUpTo (source_state S.to_come S.failures S.ends_reported first.old)
        (source_state S.to_come S.failures S.ends_reported first.new) read) (Err result)) }
{
    match read_to_end(first) {
        Ok(()) => fault_of(true, NOT_OPENED),
        Err(fault) => fault_of(false, fault),
    }
}

/// Returns whether the captures in two files mean the same under a limit. The first file is opened
/// once, and then the second; if the first can't be opened, the second isn't. Then both are read in
/// step, each to its end. If the second can't be opened, the first is read to its end all the same,
/// since a fault of reading it comes first.
///
/// # Errors
///
/// The first of these faults, with the file that has it: `Read` at 0 if the first file can't be
/// opened, or at the number of bytes read if reading it fails; the same for the second file; the
/// first fault of the first capture, or that of the second if the first is legal. At a message that
/// is cut in what was read, and before which there is no fault, it is `Memory` if an allocation
/// fails. More than `u64::MAX` bytes are `TooLong`, which ranks as a failed read.
pub fn compare<F: FileSystem>(
    alloc: Global,
    files: &mut F,
    first: &str,
    second: &str,
    limit: u32,
) -> Result<bool, SideFault>
    ensures { Compares (files_of (source_state F.File.to_come F.File.failures F.File.ends_reported)
        F.contents F.openings files.old files.new) first.now second.now limit result }
{
    let Ok(mut left) = files.open(first) else {
        return Err(fault_of(false, NOT_OPENED));
    };
    let Ok(mut right) = files.open(second) else {
        return Err(unopened_second(&mut left));
    };
    same_sources(alloc, &mut left, &mut right, limit)
}

// Returns the line that is printed for two captures.
fn line_of(is_same: bool) -> &'static str
    ensures { result.now ≡ same_line (Ok is_same) }
{
    if is_same { "same\n" } else { "different\n" }
}

/// Prints a line that says whether two captures mean the same, or reports a fault in a line.
/// Returns the exit status.
fn report<K: Sink, E: Sink>(
    sink: &mut K,
    errors: &mut E,
    outcome: Result<bool, SideFault>,
) -> ExitCode
    ensures { SameReported (sink_state K.holds K.failures sink.old)
        (sink_state K.holds K.failures sink.new) (sink_state E.holds E.failures errors.old)
        (sink_state E.holds E.failures errors.new) outcome (exit_status result) }
{
    match outcome {
        Ok(is_same) => {
            if report_text(sink, line_of(is_same)) {
                return ExitCode::from(status_same(&outcome));
            }
            report_text(errors, line(NOT_PRINTED.text().as_str()).as_str());
            ExitCode::from(2)
        }
        Err(fault) => {
            report_text(errors, line(fault.text().as_str()).as_str());
            ExitCode::from(status_same(&outcome))
        }
    }
}

/// Prints a line that says whether the captures in two files mean the same, and reports a fault on
/// the error writer. Returns the exit status.
pub fn run_same<F: FileSystem, K: Sink, E: Sink>(
    alloc: Global,
    files: &mut F,
    sink: &mut K,
    errors: &mut E,
    first: &str,
    second: &str,
    limit: u32,
) -> ExitCode
    ensures { SameRun (Compares (files_of (source_state F.File.to_come F.File.failures F.File.ends_reported)
        F.contents F.openings files.old files.new) first.now second.now limit)
        (sink_state K.holds K.failures sink.old) (sink_state K.holds K.failures sink.new)
        (sink_state E.holds E.failures errors.old) (sink_state E.holds E.failures errors.new)
        (exit_status result) }
{
    let outcome = compare(alloc, files, first, second, limit);
    report(sink, errors, outcome)
}
