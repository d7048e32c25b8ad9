// The parts that lines are made of and cut into: whole lists of attributes, kinds as words, lines of
// bytes; the levels and words of lines, and what remains of the lines of a message.
#![tactic(auto)]

mod bytes_lines;
mod cuts;
mod kind_names;
mod levels;
mod names;
mod remaining;
mod whole;

pub use bytes_lines::{push_bytes_line, push_refused_body};
pub use cuts::{LineParts, line_len, line_parts, split_line, split_word, without_newline};
pub use kind_names::{has_byte_order_bit, has_nested_bit, push_kind_name};
pub use levels::DEEPEST_LEVEL;
pub use names::{COUNTERS, INDEXES, is_among};
pub use remaining::{Without, is_header, is_index_field, push_remaining};
pub use whole::{is_whole, shown_padding};
