//! Faults and quirks as C has them.

ghost use Rattle.std.specs.Prelude.{◌≡◌, ◌<◌, ◌⊎◌, IfSome, IfNone};
ghost use Rattle.linkcap_c.specs.Findings.{fault_of, kind_number, quirk_number, quirk_of, side_number};

use link_capture_checks::SideFault;
use link_capture_grammar::fault::{CaptureFault, FaultKind};
use link_capture_quirks::{Quirk, QuirkAt};

/// A fault of a capture, or an encoding that some kernels treat differently from its normal text.
#[repr(C)]
#[derive(Drop)]
pub struct LinkcapFinding {
    /// From 1 to 12 in the order of `FaultKind`, or from 101 to 112 in that of `Quirk`.
    pub kind: u32,
    /// Of two captures 1 for the first and 2 for the second, else 0.
    pub side: u32,
    /// Of a fault the offset of its message, of a quirk that of its attribute, in bytes from the capture's start.
    pub offset: u64,
}

/// The least number of a quirk.
pub(crate) const FIRST_QUIRK: u32 = 101;

/// The number of a kind of faults.
fn fault_number(kind: FaultKind) -> u32
    ensures { result ≡ kind_number kind }
{
    match kind {
        FaultKind::Cut => 1,
        FaultKind::ShortLength => 2,
        FaultKind::OverLimit => 3,
        FaultKind::Refused => 4,
        FaultKind::EmptyPorts => 5,
        FaultKind::Unfit => 6,
        FaultKind::TextOverLimit => 7,
        FaultKind::Memory => 8,
        FaultKind::Read => 9,
        FaultKind::Write => 10,
        FaultKind::TooLong => 11,
        FaultKind::Failed => 12,
    }
}

/// The fault of a capture that is alone.
pub(crate) fn of_one(fault: CaptureFault) -> LinkcapFinding
    ensures { result ≡ fault_of 0 fault }
{
    LinkcapFinding {
        kind: fault_number(fault.kind),
        side: 0,
        offset: fault.offset,
    }
}

/// The fault of one of two captures.
pub(crate) fn of_two(found: SideFault) -> LinkcapFinding
    ensures { result ≡ fault_of (side_number found.second) found.fault }
{
    LinkcapFinding {
        kind: fault_number(found.fault.kind),
        side: if found.second { 2 } else { 1 },
        offset: found.fault.offset,
    }
}

/// The kind of faults with a number.
pub(crate) fn fault_numbered(number: u32) -> Option<FaultKind>
    ensures some { IfSome result (λ kind. kind_number kind ≡ number) }
    ensures none { IfNone result ((number ≡ 0) ⊎ (12 < number)) }
{
    match number {
        1 => Some(FaultKind::Cut),
        2 => Some(FaultKind::ShortLength),
        3 => Some(FaultKind::OverLimit),
        4 => Some(FaultKind::Refused),
        5 => Some(FaultKind::EmptyPorts),
        6 => Some(FaultKind::Unfit),
        7 => Some(FaultKind::TextOverLimit),
        8 => Some(FaultKind::Memory),
        9 => Some(FaultKind::Read),
        10 => Some(FaultKind::Write),
        11 => Some(FaultKind::TooLong),
        12 => Some(FaultKind::Failed),
        _ => None,
    }
}

/// The number of a quirk.
fn number_of_quirk(found: Quirk) -> u32
    ensures { result ≡ quirk_number found }
{
    match found {
        Quirk::NestedPortSettings => 101,
        Quirk::ResizedSettings => 102,
        Quirk::PathDiscoveryOverOne => 103,
        Quirk::TrailingPeer => 104,
        Quirk::LongAlias => 105,
        Quirk::NameWithoutNul => 106,
        Quirk::FlagWithPayload => 107,
        Quirk::BooleanOverOne => 108,
        Quirk::StrayNestedBit => 109,
        Quirk::UnexpectedFunction => 110,
        Quirk::HeaderByte => 111,
        Quirk::ShortMap => 112,
    }
}

/// The quirk with a number.
pub(crate) fn quirk_numbered(number: u32) -> Option<Quirk>
    ensures some { IfSome result (λ found. quirk_number found ≡ number) }
    ensures none { IfNone result ((number < 101) ⊎ (112 < number)) }
{
    match number {
        101 => Some(Quirk::NestedPortSettings),
        102 => Some(Quirk::ResizedSettings),
        103 => Some(Quirk::PathDiscoveryOverOne),
        104 => Some(Quirk::TrailingPeer),
        105 => Some(Quirk::LongAlias),
        106 => Some(Quirk::NameWithoutNul),
        107 => Some(Quirk::FlagWithPayload),
        108 => Some(Quirk::BooleanOverOne),
        109 => Some(Quirk::StrayNestedBit),
        110 => Some(Quirk::UnexpectedFunction),
        111 => Some(Quirk::HeaderByte),
        112 => Some(Quirk::ShortMap),
        _ => None,
    }
}

/// A quirk of a capture.
pub(crate) fn of_quirk(found: QuirkAt) -> LinkcapFinding
    ensures { result ≡ quirk_of found }
{
    LinkcapFinding {
        kind: number_of_quirk(found.quirk),
        side: 0,
        offset: found.offset,
    }
}
