// Netlink link captures: the normal text of a capture, or its first fault with its offset; the
// messages of captures as values, and an iterator over them.
#![tactic(auto)]

mod fault;
mod frames;
mod message_laws;
mod messages;
mod other;
mod readable;
mod route;
mod types;

pub use fault::RouteFault;
pub use frames::read_message;
pub use link_capture_attributes::laws::{
    attributes_are_apart, attributes_are_where_they_say, next_is_from_payload,
};
pub use link_capture_attributes::{AttributeAt, attribute_from};
pub use link_capture_checks::{Measure, SideFault, check, measure, normal_len, same};
pub use link_capture_commands::{Command, DEFAULT_LIMIT, read_words, status_norm, status_same};
pub use link_capture_comparing::{read_to_end, same_sources};
pub use link_capture_grammar::fault::{CaptureFault, FaultKind};
pub use link_capture_grammar::laws;
pub use link_capture_grammar::link_types::{RTM_DELLINK, RTM_GETLINK, RTM_NEWLINK, RTM_SETLINK};
pub use link_capture_numbers::clear_numbers;
pub use link_capture_numbers::laws::cleared_captures_have_cleared_texts;
pub use link_capture_quirks::laws::texts_have_no_quirk;
pub use link_capture_quirks::{CaptureQuirks, Quirk, QuirkAt, quirks};
pub use link_capture_reader::{
    CaptureReader, DeviceFailed, FirstBytes, ReadSource, Sink, SliceSource, Source, VecSink,
    WriteSink, normalize, normalize_bytes, read_all, read_all_keeping_first, write_all,
};
pub use link_capture_refusals::laws::{refusals_are_independent, refused_bodies_have_refusals};
pub use link_capture_refusals::{Reason, Refusal, why, why_frame};
pub use link_message::laws::equal_texts_mean_equal_messages;
pub use message_laws::{equal_entries_mean_equal_routes, routes_read_back_equal};
pub use messages::Messages;
pub use readable::NotReadable;
pub use route::RouteLink;
pub use types::{OtherMessage, ReadableLink};
