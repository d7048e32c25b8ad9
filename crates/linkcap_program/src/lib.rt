//! The program `linkcap`: writes the normal text of a netlink link capture from standard input to
//! standard output, or reports whether the captures in two files mean the same. It is a library,
//! since a crate has one stored run: tests run it on devices of their own.
#![tactic(auto)]

ghost use Rattle.std.specs.Prelude.{◌≡◌, map, string_bytes};
ghost use Rattle.std.specs.Process.{exit_status};
ghost use Rattle.link_capture_reader.specs.Files.{files_of};
ghost use Rattle.link_capture_reader.specs.States.{sink_state, source_state};
ghost use Rattle.linkcap_program.specs.Runs.{RunsAsAsked, UsageRun, run_of};
ghost use Rattle.linkcap_program.specs.Comparisons.{Compares};

mod comparing;
mod lines;
mod normalizing;

pub use comparing::{compare, run_same};
use link_capture_commands::{Command, arguments, read_words};
use link_capture_reader::{
    FileSystem, HostFiles, ReadSource, Sink, Source, WriteSink, report_text,
};
pub use normalizing::run_norm;
use std::alloc::Global;
use std::io;
use std::process::ExitCode;

/// The error message for a usage error, as a line.
const USAGE: &str = "usage: linkcap norm [LIMIT] or linkcap same FILE FILE [LIMIT]\n";

/// Reports on the error writer how the program is used. Returns the exit status.
fn run_usage<E: Sink>(errors: &mut E) -> ExitCode
    ensures { UsageRun (sink_state E.holds E.failures errors.old)
        (sink_state E.holds E.failures errors.new) (exit_status result) }
{
    report_text(errors, USAGE);
    ExitCode::from(3)
}

/// Runs the program: does what the arguments ask for, reports faults on the error writer, and
/// returns the exit status. If the arguments are a usage error, nothing is opened, read or printed;
/// for a normal text no file is opened; to compare two files, the source isn't read.
pub fn run<F: FileSystem, S: Source, K: Sink, E: Sink>(
    alloc: Global,
    arguments: &[String],
    files: &mut F,
    source: &mut S,
    sink: &mut K,
    errors: &mut E,
) -> ExitCode
    ensures { RunsAsAsked (map string_bytes arguments.now)
        (files.new ≡ files.old) (source.new ≡ source.old) (sink.new ≡ sink.old)
        (run_of (source_state S.to_come S.failures S.ends_reported) (sink_state K.holds K.failures)
        (sink_state E.holds E.failures) source.old source.new sink.old sink.new errors.old errors.new)
        (Compares (files_of (source_state F.File.to_come F.File.failures F.File.ends_reported)
        F.contents F.openings files.old files.new)) (exit_status result) }
{
    match read_words(arguments) {
        None => run_usage(errors),
        Some(Command::Norm { limit }) => run_norm(alloc, source, sink, errors, limit),
        Some(
            Command::Same {
                first,
                second,
                limit,
            },
        ) => run_same(alloc, files, sink, errors, first, second, limit),
    }
}

/// Runs the program on the process's standard input, output and error, files and arguments, which
/// it only passes.
pub fn outcome(rt: &HostRuntime) -> ExitCode {
    let arguments = arguments(rt).unwrap_or(Vec::new(rt.alloc()));
    let mut source = ReadSource::new(rt.reader());
    let mut sink = WriteSink::new(io::writer(rt));
    let mut errors = WriteSink::new(rt.stderr());
    run(
        rt.alloc(),
        arguments.as_slice(),
        &mut HostFiles::new(rt),
        &mut source,
        &mut sink,
        &mut errors,
    )
}
