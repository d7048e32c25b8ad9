//! Measures of texts: of a body's, a frame's and a capture's.

/// The measure of a body's text.
#[derive(Clone, Copy)]
pub(crate) struct MeasuredBody {
    /// The length of the text in bytes.
    pub len: u128,
    /// The number of attribute headers inside, at all depths.
    pub attributes: u64,
    /// Whether the body is known to be canonical already; it may be so even if this is false.
    pub is_canonical: bool,
    /// How many bytes at the start of a link message's body are known to be canonical already; 0
    /// for other bodies.
    pub canonical_prefix: usize,
}

/// The measure of a frame's text.
#[derive(Clone, Copy)]
pub struct MeasuredFrame {
    /// The length in the frame's header, in bytes.
    pub len: usize,
    /// The length in the header of the frame's text, in bytes.
    pub size: usize,
    /// The length of the frame's text in bytes, with the padding.
    pub text_len: usize,
    /// The number of attribute headers inside, at all depths.
    pub attributes: u64,
    /// Whether the body is known to be canonical already; it may be so even if this is false.
    pub is_canonical: bool,
    /// How many bytes at the start of a link message's body are known to be canonical already; 0
    /// for other messages.
    pub canonical_prefix: usize,
}

/// The numbers of a legal capture.
#[derive(Clone, Copy, Debug, PartialEq, Eq)]
pub struct Measure {
    /// The number of its frames.
    pub frames: u64,
    /// The number of attribute headers in the bodies of its link messages, at all depths.
    pub attributes: u64,
    /// The length of its normal text, in bytes.
    pub text_len: u128,
}
