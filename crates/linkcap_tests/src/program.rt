//! The program's arguments, and its complete output and error messages.

ghost use Rattle.std.specs.Prelude.{None};

use super::devices::{LimitedReader, LimitedWriter, Plan};
use super::program_arguments::words_of;
use super::runs::{CAPTURE, TEXT};
use link_capture::{ReadSource, WriteSink};
use link_capture_reader::FileSystem;
use linkcap_program::{run, run_same};
use std::alloc::Global;
use std::io::ErrorKind;
use std::test::Fail;

/// Files by their names.
#[derive(Drop)]
struct SampleFiles;

impl FileSystem for SampleFiles {
    type File = ReadSource<LimitedReader<'static>>;

    ghost contents = { λ _ _. None };

    ghost openings = { λ _. None };

    fn open(&mut self, name: &str) -> Result<ReadSource<LimitedReader<'static>>, ErrorKind> {
        let rest: &'static [u8] = match name {
            "capture" => &CAPTURE,
            "text" => &TEXT,
            "front" => &TEXT[..48],
            "cut" => &CAPTURE[..63],
            "broken" => &CAPTURE[..16],
            _ => return Err(ErrorKind::NotFound),
        };
        let plan = Plan {
            size: 1,
            calls: rest.len(),
            fails: name == "broken",
        };
        Ok(ReadSource::new(LimitedReader { rest, plan }))
    }
}

const USAGE_LINE: &str = "usage: linkcap norm [LIMIT] or linkcap same FILE FILE [LIMIT]\n";

/// Arguments after the program's name, the output for the capture and these files, and the error
/// message.
const ARGUMENTS: [(&str, &[u8], &str); 17] = [
    ("norm", &TEXT, ""),
    ("norm 48", &TEXT, ""),
    ("norm 47", b"", "frame over the limit at 0\n"),
    ("norm 15", b"", USAGE_LINE),
    ("norm 48 48", b"", USAGE_LINE),
    ("same capture text", b"same\n", ""),
    ("same text capture 48", b"same\n", ""),
    ("same text text", b"same\n", ""),
    ("same text front", b"different\n", ""),
    ("same cut missing", b"", "second: read failed at 0\n"),
    ("same broken missing", b"", "first: read failed at 16\n"),
    ("same cut broken", b"", "second: read failed at 16\n"),
    ("same broken cut", b"", "first: read failed at 16\n"),
    ("same cut text", b"", "first: cut frame at 48\n"),
    ("same text cut", b"", "second: cut frame at 48\n"),
    (
        "same text text 47",
        b"",
        "first: frame over the limit at 0\n",
    ),
    ("same text", b"", USAGE_LINE),
];

/// Returns the output for the capture and these files, and the error message.
fn run_of_arguments(alloc: Global, arguments: &[String]) -> (Vec<u8>, Vec<u8>) {
    let mut source = ReadSource::new(CAPTURE.as_slice());
    let mut text = Vec::new(alloc);
    let mut sink = WriteSink::new(&mut text);
    let mut reported = Vec::new(alloc);
    let mut errors = WriteSink::new(&mut reported);
    run(
        alloc,
        arguments,
        &mut SampleFiles,
        &mut source,
        &mut sink,
        &mut errors,
    );
    (text, reported)
}

#[test]
fn arguments_are_carried_out(rt: HostRuntime) -> Result<(), Fail> {
    for (line, written, error) in &ARGUMENTS {
        let words = words_of(rt.alloc(), line)?;
        let (text, reported) = run_of_arguments(rt.alloc(), words.as_slice());
        assert!(rt;
            text.as_slice() == *written && reported.as_slice() == error.as_bytes(),
            "{line}"
        );
    }
    Ok(())
}

/// A result of which the writer takes only a part.
#[test]
fn a_result_that_is_not_printed_is_reported(rt: HostRuntime) {
    let mut writer = LimitedWriter {
        taken: Vec::new(rt.alloc()),
        plan: Plan {
            size: 2,
            calls: 2,
            fails: true,
        },
    };
    let mut sink = WriteSink::new(&mut writer);
    let mut reported = Vec::new(rt.alloc());
    let mut errors = WriteSink::new(&mut reported);
    run_same(
        rt.alloc(),
        &mut SampleFiles,
        &mut sink,
        &mut errors,
        "capture",
        "text",
        1000,
    );
    assert!(rt; writer.taken.as_slice() == b"same".as_slice());
    assert!(rt; reported.as_slice() == b"write failed at 0\n".as_slice());
}
