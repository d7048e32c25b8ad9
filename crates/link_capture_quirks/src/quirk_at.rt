//! Encoding quirks: their kinds, offsets and texts.

ghost use Rattle.std.specs.Prelude.{◌≡◌, ◌≤◌, ◌<◌, Some, length};
ghost use Rattle.link_capture_quirks.specs.QuirkTexts.{words, quirk_text};

use arrayvec::ArrayString;
use itoa::Buffer;
use std::fmt;

/// An encoding quirk of a legal capture: some kernel treats it differently from its normal text,
/// which doesn't have it (if_link.h and rtnetlink.h name the kinds).
#[derive(Clone, Copy, Debug, PartialEq, Eq, Drop)]
pub enum Quirk {
    /// IFLA_PROTINFO of a bridge with the nested bit, which is a list of settings; without the bit
    /// it is an old port state.
    NestedPortSettings,
    /// IFLA_INET_CONF whose length isn't 132 bytes, as in requests, which have a list of attributes
    /// here.
    ResizedSettings,
    /// IFLA_GRE_PMTUDISC over 1.
    PathDiscoveryOverOne,
    /// The peer of `veth` or `vxcan` after another attribute of the data.
    TrailingPeer,
    /// IFLA_IFALIAS of 255 bytes without a NUL at the end.
    LongAlias,
    /// An empty IFLA_IFNAME; IFLA_PARENT_DEV_NAME or IFLA_BATADV_ALGO_NAME without a NUL.
    NameWithoutNul,
    /// A flag, which is set by being present, with a payload.
    FlagWithPayload,
    /// A boolean over 1 that some kernels accept only as 0 or 1.
    BooleanOverOne,
    /// The nested bit on a kind that is checked strictly and isn't nested.
    StrayNestedBit,
    /// An entry of a kind other than 1 in IFLA_VFINFO_LIST.
    UnexpectedFunction,
    /// A second byte of the link header of an RTM_GETLINK that isn't 0.
    HeaderByte,
    /// IFLA_MAP of less than 32 bytes.
    ShortMap,
}

/// An encoding quirk with its offset: the start of the attribute that has it, or the byte of the
/// header, in bytes from the capture's start.
#[derive(Clone, Copy, Debug, PartialEq, Eq, Drop)]
pub struct QuirkAt {
    pub quirk: Quirk,
    /// In bytes.
    pub offset: u64,
}

impl Quirk {
    /// Returns the text of this quirk, in ASCII.
    pub fn words(self) -> &'static str
        ensures words { result.now ≡ words self }
        ensures short { length result.now ≤ 44 }
    {
        match self {
            Quirk::NestedPortSettings => "IFLA_PROTINFO with the nested bit",
            Quirk::ResizedSettings => "IFLA_INET_CONF not of 132 bytes",
            Quirk::PathDiscoveryOverOne => "IFLA_GRE_PMTUDISC over 1",
            Quirk::TrailingPeer => "peer behind another attribute",
            Quirk::LongAlias => "IFLA_IFALIAS of 255 bytes without a NUL",
            Quirk::NameWithoutNul => "name without a NUL",
            Quirk::FlagWithPayload => "flag with a payload",
            Quirk::BooleanOverOne => "truth over 1",
            Quirk::StrayNestedBit => "stray nested bit",
            Quirk::UnexpectedFunction => "foreign entry in IFLA_VFINFO_LIST",
            Quirk::HeaderByte => "second byte of the header of RTM_GETLINK",
            Quirk::ShortMap => "IFLA_MAP under 32 bytes",
        }
    }
}

impl QuirkAt {
    /// Returns the text of the quirk, ` at `, and the offset in decimal. Allocates nothing.
    pub fn text(self) -> ArrayString<96>
        ensures text { result.bytes ≡ quirk_text self }
        ensures fits { length result.bytes < 96 }
    {
        let mut digits = Buffer::new();
        let mut text = ArrayString::new();
        text.push_str(self.quirk.words());
        text.push_str(" at ");
        text.push_str(digits.format(self.offset));
        text
    }
}

// Format options change nothing.
impl fmt::Display for Quirk {
    ghost output = { λ s. Some (words s) };

    ghost styled_output = { λ s _. Some (words s) };

    fn fmt<W: fmt::Write>(&self, f: &mut fmt::Formatter<W>) -> fmt::Result {
        f.write_str(self.words())
    }
}

impl fmt::Display for QuirkAt {
    ghost output = { λ x. Some (quirk_text x) };

    ghost styled_output = { λ x _. Some (quirk_text x) };

    fn fmt<W: fmt::Write>(&self, f: &mut fmt::Formatter<W>) -> fmt::Result {
        f.write_str(self.text().as_str())
    }
}
