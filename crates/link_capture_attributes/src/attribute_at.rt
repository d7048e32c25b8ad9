//! An attribute with its context.

use link_interpreter::Attribute;

/// An attribute of a link message with its context.
#[derive(Clone, Copy)]
pub struct AttributeAt<'a> {
    /// The offset of its header of 4 bytes, after which the payload begins, in bytes from the
    /// capture's start.
    pub offset: u64,
    /// Its kind with flag bits, and its payload.
    pub attribute: Attribute<'a>,
    /// How many attributes it is inside, at most 6.
    pub depth: u32,
    /// Its name (if_link.h and others); none if its table has no row for its kind.
    pub name: Option<&'static str>,
    /// The link kind whose data, statistics or port data it holds or is in, without the NUL; none
    /// elsewhere, and if none is in force.
    pub link_kind: Option<&'a [u8]>,
}
