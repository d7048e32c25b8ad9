//! The program `linkshow`: it writes the lines of a netlink link capture, from standard input or a
//! file, to standard output.
#![tactic(auto)]

ghost use Rattle.std.specs.Prelude.{◌≡◌, ◌≤◌, map, option_map, string_bytes, Some};
ghost use Rattle.std.specs.Process.{exit_status};
ghost use Rattle.link_capture_reader.specs.Files.{files_of};
ghost use Rattle.link_capture_reader.specs.States.{sink_state, source_state};
ghost use Rattle.linkshow_program.specs.Arguments.{usage_fault};
ghost use Rattle.linkshow_program.specs.Devices.{run_of};
ghost use Rattle.linkshow_program.specs.Runs.{RunsAsAsked, CaptureRun, FileRun, OpensOne, UsageRun, chosen};

mod arguments;
mod lines;
mod notes;
mod printing;
mod refusals;
mod showing;
mod texts;
mod usage;

pub use arguments::{Asked, Options, UsageError, read_words};
use link_capture_commands::arguments;
use link_capture_reader::{FileSystem, HostFiles, ReadSource, Sink, Source, WriteSink};
pub use notes::run_notes;
use printing::print;
use showing::report_unopened;
pub use showing::run_show;
use std::alloc::Global;
use std::io;
use std::process::ExitCode;
use texts::{help, version};
use usage::report_usage;

/// Reports why arguments are invalid, and returns the status of a usage error.
fn run_usage<E: Sink>(errors: &mut E, error: UsageError<'_>) -> ExitCode
    ensures { UsageRun (sink_state E.holds E.failures errors.old)
        (sink_state E.holds E.failures errors.new) (usage_fault error.entry) (exit_status result) }
{
    report_usage(errors, error);
    ExitCode::from(3)
}

/// Writes the lines of a capture, and, if the options ask for them, notes of encoding quirks before
/// these.
fn run_capture<S: Source, K: Sink, E: Sink>(
    alloc: Global,
    source: &mut S,
    sink: &mut K,
    errors: &mut E,
    options: &Options<'_>,
) -> ExitCode
    requires { 16 ≤ options.now.limit }
    ensures { CaptureRun options.now.kernels (chosen options.now) (run_of
        (source_state S.to_come S.failures S.ends_reported) (sink_state K.holds K.failures)
        (sink_state E.holds E.failures) source.old source.new sink.old sink.new
        errors.old errors.new) (sink.new ≡ sink.old)
        (option_map (λ name. name.now) options.now.file) options.now.limit (exit_status result) }
{
    if options.kernels {
        run_notes(alloc, source, sink, errors, options)
    } else {
        run_show(alloc, source, sink, errors, options)
    }
}

/// Opens a file by its name, and writes the lines of its capture as `run_capture` does. If it
/// can't be opened, this is reported.
fn run_file<F: FileSystem, K: Sink, E: Sink>(
    alloc: Global,
    files: &mut F,
    sink: &mut K,
    errors: &mut E,
    name: &str,
    options: &Options<'_>,
) -> ExitCode
    requires low { 16 ≤ options.now.limit }
    requires name { option_map (λ name. name.now) options.now.file ≡ Some name.now }
    ensures { OpensOne (files_of (source_state F.File.to_come F.File.failures F.File.ends_reported)
        F.contents F.openings files.old files.new) name.now
        (λ outcome. FileRun (source_state F.File.to_come F.File.failures F.File.ends_reported)
        (F.contents files.old name.now) outcome name.now
        (sink_state K.holds K.failures sink.old) (sink_state K.holds K.failures sink.new)
        (sink_state E.holds E.failures errors.old) (sink_state E.holds E.failures errors.new)
        (sink.new ≡ sink.old) options.now.kernels (chosen options.now) options.now.limit
        (exit_status result)) }
{
    match files.open(name) {
        Ok(mut file) => run_capture(alloc, &mut file, sink, errors, options),
        Err(kind) => {
            report_unopened(errors, name, kind);
            ExitCode::from(2)
        }
    }
}

/// Runs the program and returns its status: writes the lines of a file or of the source, as the
/// arguments ask, and reports any error on the error writer. If the arguments ask for help or the
/// version, or are invalid, no file is opened and nothing is read; if they name a file, the source
/// isn't read.
pub fn run<F: FileSystem, S: Source, K: Sink, E: Sink>(
    alloc: Global,
    arguments: &[String],
    files: &mut F,
    source: &mut S,
    sink: &mut K,
    errors: &mut E,
) -> ExitCode
    ensures { RunsAsAsked (map string_bytes arguments.now)
        (files.new ≡ files.old) (source.new ≡ source.old) (sink.new ≡ sink.old) (run_of
        (source_state S.to_come S.failures S.ends_reported) (sink_state K.holds K.failures)
        (sink_state E.holds E.failures) source.old source.new sink.old sink.new
        errors.old errors.new) (files_of (source_state F.File.to_come F.File.failures F.File.ends_reported)
        F.contents F.openings files.old files.new) (exit_status result) }
{
    match read_words(arguments) {
        Err(error) => run_usage(errors, error),
        Ok(Asked::Help) => print(sink, errors, help()),
        Ok(Asked::Version) => print(sink, errors, version()),
        Ok(Asked::Show(options)) => match options.file {
            Some(name) => run_file(alloc, files, sink, errors, name, &options),
            None => run_capture(alloc, source, sink, errors, &options),
        },
    }
}

/// Runs the program on standard input, output and error, the process's files and its arguments. It
/// only passes them on.
///
/// If an argument isn't UTF-8, or an allocation for the arguments fails, a single empty argument is
/// passed, which is a usage error.
pub fn outcome(rt: &HostRuntime) -> ExitCode {
    let invalid_arguments = [String::new(rt.alloc())];
    let arguments = arguments(rt);
    let mut source = ReadSource::new(rt.reader());
    let mut sink = WriteSink::new(io::writer(rt));
    let mut errors = WriteSink::new(rt.stderr());
    run(
        rt.alloc(),
        arguments
            .as_ref()
            .map_or(&invalid_arguments, |arguments| arguments.as_slice()),
        &mut HostFiles::new(rt),
        &mut source,
        &mut sink,
        &mut errors,
    )
}
