// Captures that come in pieces: a reader, which also normalises whole captures, and the engine,
// which reads a capture from a source and writes its normal text to a sink.
#![tactic(auto)]

mod devices;
mod engine;
mod files;
mod first;
mod frames;
mod pieces;
mod reader;
mod reporting;
mod sinks;
mod sources;
mod whole;

pub use devices::{DeviceFailed, Sink, Source};
pub use engine::{normalize, read_all, read_all_keeping_first, write_all};
pub use files::{FileSystem, HostFiles};
pub use first::{FirstBytes, keep_first};
pub use reader::CaptureReader;
pub use reporting::report_text;
pub use sinks::{VecSink, WriteSink};
pub use sources::{ReadSource, SliceSource};
pub use whole::normalize_bytes;
