// The lines of link captures, for people: of a whole capture as bytes, or from a source to a sink.
#![tactic(auto)]

mod about;
mod engine;
mod faulty;
mod lines;
pub mod message_laws;
mod messages;
mod offsets;
mod options;
mod refused;
mod types;
mod whole;
mod without;
mod words;

pub use about::is_about;
pub use engine::{show, show_keeping_first};
pub use lines::push_lines;
pub use link_capture_commands::DEFAULT_LIMIT;
pub use link_capture_grammar::fault::{CaptureFault, FaultKind};
pub use link_capture_reader::{
    CaptureReader, DeviceFailed, FirstBytes, ReadSource, Sink, SliceSource, Source, VecSink,
    WriteSink, normalize_bytes, read_all, write_all,
};
pub use link_capture_refusals::{Reason, Refusal};
pub use link_lines_json::push_json;
pub use link_lines_parts::{COUNTERS, INDEXES, Without, push_remaining};
pub use link_lines_texts::laws;
pub use messages::{Buffers, ShownMessage, push_selected_message};
pub use offsets::push_with_offset;
pub use options::ShowOptions;
pub use refused::ShowFault;
pub use types::{Types, read_types};
pub use whole::show_bytes;
pub use without::read_without;
pub use words::WordError;
