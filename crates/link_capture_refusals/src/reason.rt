//! Why something is refused.

ghost use Rattle.std.specs.Prelude.{◌≡◌, ◌+◌, ◌≤◌, Some, length};
ghost use Rattle.link_capture_refusals.specs.ReasonTexts.{number_between, missing_reason, words, shape_reason};

use arrayvec::ArrayString;
use itoa::Buffer;
use link_capture_lists::MissingKind;
use link_tables::Shape;
use std::fmt;

/// Why something in a body is refused. Sizes and lengths are in bytes.
#[derive(Clone, Copy, Debug, PartialEq, Eq, Drop)]
pub enum Reason {
    /// The row doesn't accept a payload of this size.
    PayloadSize(usize),
    /// A text that isn't UTF-8.
    NotUtf8,
    /// An empty list, of IFLA_LINKINFO or IFLA_VF_PORTS.
    EmptyList,
    /// Data or statistics while no IFLA_INFO_KIND is in force.
    NoKind,
    /// Port data while no IFLA_INFO_SLAVE_KIND is in force.
    NoPortKind,
    /// A payload under a kind of link that accepts none.
    NoPayload,
    /// Fewer bytes than the header of an attribute: how many are left.
    CutHeader(usize),
    /// The header of an attribute whose length is under 4, or over the number of bytes left: that
    /// number, and the length.
    WrongLength(usize, u16),
    /// A link's body, or a peer, of this size, which is less than its header of 16 bytes.
    CutLink(usize),
    /// A peer with an IFLA_VF_PORTS that keeps no entry.
    EmptyPorts,
    /// A peer whose normal text would have an attribute longer than 65535 bytes.
    Unfit,
    /// The body of an NLMSG_ERROR or NLMSG_DONE of this size, which is less than its code of 4
    /// bytes.
    CutCode(usize),
}

/// Returns the reason why a payload of this size is refused by a shape.
pub fn shape_reason(shape: Shape, size: usize) -> Reason
    ensures { result ≡ shape_reason shape size }
{
    match shape {
        Shape::Text => Reason::NotUtf8,
        Shape::Never => Reason::NoPayload,
        _ => Reason::PayloadSize(size),
    }
}

/// Returns the reason why data are refused while a kind isn't in force.
pub fn missing_reason(missing: MissingKind) -> Reason
    ensures { result ≡ missing_reason missing }
{
    match missing {
        MissingKind::Link => Reason::NoKind,
        MissingKind::Port => Reason::NoPortKind,
    }
}

/// Returns a text without a number.
fn plain(text: &str) -> ArrayString<160>
    requires { length text.now ≤ 64 }
    ensures text { result.bytes ≡ text.now }
    ensures short { length result.bytes ≤ 64 }
{
    let mut words = ArrayString::new();
    words.push_str(text);
    words
}

/// Returns a number in decimal between two texts.
fn number_between(before: &str, count: usize, following: &str) -> ArrayString<160>
    requires { length before.now + length following.now ≤ 64 }
    ensures text { result.bytes ≡ number_between before.now count following.now }
    ensures short { length result.bytes ≤ 104 }
{
    let mut digits = Buffer::new();
    let mut words = ArrayString::new();
    words.push_str(before);
    words.push_str(digits.format(count));
    words.push_str(following);
    words
}

/// Returns the text for a length that is under 4 or over the number of bytes left.
fn wrong_length(left: usize, length: u16) -> ArrayString<160>
    ensures { result.bytes ≡ words (Reason.WrongLength left length) }
{
    let mut digits = Buffer::new();
    let mut words = number_between(
        "no attribute: ",
        left,
        " bytes are left, and its length is ",
    );
    words.push_str(digits.format(length));
    words
}

impl Reason {
    /// Returns the text of this reason, in ASCII. Allocates nothing.
    pub fn text(self) -> ArrayString<160>
        ensures { result.bytes ≡ words self }
    {
        match self {
            Reason::PayloadSize(size) => number_between("a payload of ", size, " bytes"),
            Reason::NotUtf8 => plain("a text that isn't UTF-8"),
            Reason::EmptyList => plain("an empty list"),
            Reason::NoKind => plain("no IFLA_INFO_KIND is in force"),
            Reason::NoPortKind => plain("no IFLA_INFO_SLAVE_KIND is in force"),
            Reason::NoPayload => plain("no payload is accepted under this kind of link"),
            Reason::CutHeader(left) => number_between("no attribute: ", left, " bytes are left"),
            Reason::WrongLength(left, length) => wrong_length(left, length),
            Reason::CutLink(size) => number_between("a header of ", size, " bytes"),
            Reason::EmptyPorts => plain("ports of which nothing is kept"),
            Reason::Unfit => plain("an attribute of the text is over 65535 bytes"),
            Reason::CutCode(size) => number_between("a body of ", size, " bytes"),
        }
    }
}

// Format options change nothing.
impl fmt::Display for Reason {
    ghost output = { λ r. Some (words r) };

    ghost styled_output = { λ r _. Some (words r) };

    fn fmt<W: fmt::Write>(&self, f: &mut fmt::Formatter<W>) -> fmt::Result {
        f.write_str(self.text().as_str())
    }
}
