//! Laws of the definitions. No function here makes a call, but for three of
//! `netlink_packet_core_messages`, which read the code of their parameter.

ghost use Rattle.netlink_packet_core.specs.Ethernet.{ProtocolsKeepNumbers, NumbersNameProtocols};

pub use netlink_packet_core_attributes::laws::{
    lists_are_walked, others_end_in_a_fault, texts_are_read_back, texts_are_walked,
    typed_rows_write_the_kind, walks_are_short, walks_are_the_relation,
};
pub use netlink_packet_core_grammar::laws::{
    attributes_are_split_in_one_way, attributes_are_the_relation, encodings_are_split,
    first_attributes_are_viewed, lists_are_joined,
};
pub use netlink_packet_core_messages::laws::{
    bodies_end_with_their_frame, bytes_past_a_frame_change_nothing, canonical_frames_are_stable,
    constants_are_of_the_header, cut_frames_are_refused, equal_messages_have_one_text,
    finalized_headers_match, finalized_twice_is_once, frames_are_checked, headers_are_written_back,
    headers_read_back, messages_are_frames, messages_read_back, padding_ends_a_frame,
    read_frames_keep_their_header, short_lengths_are_refused, texts_have_one_message,
};
pub use netlink_packet_core_numbers::laws::{
    numbers_are_determined_by_their_bytes, numbers_have_sizes,
};

/// The protocol of a number has that number.
pub fn protocols_keep_their_numbers()
    ensures { ProtocolsKeepNumbers }
{}

/// A protocol is the one of its number, unless it is `Other` with a listed number.
pub fn protocols_are_named_by_their_numbers()
    ensures { NumbersNameProtocols }
{}
