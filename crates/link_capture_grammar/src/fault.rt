//! Faults of captures: their kinds, offsets and texts. They are code of the grammar, so that no
//! second set of kinds has to be kept equal to them.

ghost use Rattle.std.specs.Prelude.{◌≡◌, ◌≤◌, ◌<◌, Some, length};
ghost use Rattle.link_capture_grammar.specs.Faults.{words, fault_text};

use arrayvec::ArrayString;
use itoa::Buffer;
use std::fmt;

/// What is wrong with a capture, or with a run over one. The kinds that a frame itself can have
/// come first, in the order in which a frame is judged.
#[derive(Clone, Copy, Debug, PartialEq, Eq, Drop)]
pub enum FaultKind {
    /// Fewer bytes are left than a header has, or than the header's length.
    Cut,
    /// The length in the header is under 16.
    ShortLength,
    /// The length in the header is over the limit.
    OverLimit,
    /// The body isn't accepted for its type.
    Refused,
    /// An accepted IFLA_VF_PORTS keeps no entry.
    EmptyPorts,
    /// An attribute of the normal text would be longer than 65535 bytes.
    Unfit,
    /// The length of the frame's normal text would be over the limit.
    TextOverLimit,
    /// An allocation failed.
    Memory,
    /// The source failed.
    Read,
    /// The sink failed.
    Write,
    /// The capture has more bytes than 64 bits can count.
    TooLong,
    /// The reader returned a fault before.
    Failed,
}

/// A fault with its offset: the start of the faulty frame in bytes from the capture's start, or,
/// for faults of devices, the number of bytes read or written.
#[derive(Clone, Copy, Debug, PartialEq, Eq, Drop)]
pub struct CaptureFault {
    pub kind: FaultKind,
    /// In bytes; what it counts depends on `kind`.
    pub offset: u64,
}

impl FaultKind {
    /// Returns the text of this kind, in ASCII.
    pub fn words(self) -> &'static str
        ensures words { result.now ≡ words self }
        ensures short { length result.now ≤ 40 }
    {
        match self {
            FaultKind::Cut => "cut frame",
            FaultKind::ShortLength => "length under 16",
            FaultKind::OverLimit => "frame over the limit",
            FaultKind::Refused => "refused body",
            FaultKind::EmptyPorts => "ports with foreign entries alone",
            FaultKind::Unfit => "attribute over 65535",
            FaultKind::TextOverLimit => "normal text over the limit",
            FaultKind::Memory => "no memory",
            FaultKind::Read => "read failed",
            FaultKind::Write => "write failed",
            FaultKind::TooLong => "capture too long",
            FaultKind::Failed => "failed before",
        }
    }
}

impl CaptureFault {
    /// Returns the text of the kind, ` at `, and the offset in decimal. Allocates nothing.
    pub fn text(self) -> ArrayString<96>
        ensures text { result.bytes ≡ fault_text self }
        ensures fits { length result.bytes < 96 }
    {
        let mut digits = Buffer::new();
        let mut text = ArrayString::new();
        text.push_str(self.kind.words());
        text.push_str(" at ");
        text.push_str(digits.format(self.offset));
        text
    }
}

// Format options change nothing: the kit's `write!` guarantees its text only without options, so
// displays write fixed texts.
impl fmt::Display for FaultKind {
    ghost output = { λ k. Some (words k) };

    ghost styled_output = { λ k _. Some (words k) };

    fn fmt<W: fmt::Write>(&self, f: &mut fmt::Formatter<W>) -> fmt::Result {
        f.write_str(self.words())
    }
}

impl fmt::Display for CaptureFault {
    ghost output = { λ x. Some (fault_text x) };

    ghost styled_output = { λ x _. Some (fault_text x) };

    fn fmt<W: fmt::Write>(&self, f: &mut fmt::Formatter<W>) -> fmt::Result {
        f.write_str(self.text().as_str())
    }
}
