//! The displays of faults.

use examples::RequestFault;
use link_capture::{CaptureFault, FaultKind, NotReadable, RouteFault};
use std::alloc::Global;
use std::fmt::Display;
use std::test::Fail;

/// Each kind with its text, and a fault of that kind with its display.
const TEXTS: [(FaultKind, &str, u64, &str); 12] = [
    (FaultKind::Cut, "cut frame", 0, "cut frame at 0"),
    (
        FaultKind::ShortLength,
        "length under 16",
        4,
        "length under 16 at 4",
    ),
    (
        FaultKind::OverLimit,
        "frame over the limit",
        8,
        "frame over the limit at 8",
    ),
    (FaultKind::Refused, "refused body", 16, "refused body at 16"),
    (
        FaultKind::EmptyPorts,
        "ports with foreign entries alone",
        20,
        "ports with foreign entries alone at 20",
    ),
    (
        FaultKind::Unfit,
        "attribute over 65535",
        48,
        "attribute over 65535 at 48",
    ),
    (
        FaultKind::TextOverLimit,
        "normal text over the limit",
        1000,
        "normal text over the limit at 1000",
    ),
    (FaultKind::Memory, "no memory", 0, "no memory at 0"),
    (FaultKind::Read, "read failed", 30, "read failed at 30"),
    (FaultKind::Write, "write failed", 20, "write failed at 20"),
    (
        FaultKind::TooLong,
        "capture too long",
        18446744073709551615,
        "capture too long at 18446744073709551615",
    ),
    (
        FaultKind::Failed,
        "failed before",
        96,
        "failed before at 96",
    ),
];

/// Returns whether a value is displayed as this text.
pub(crate) fn is_displayed<T: Display>(alloc: Global, value: &T, text: &str) -> Result<bool, Fail> {
    Ok(format!(in alloc; "{value}")?.as_str() == text)
}

/// Returns a result as a text: `ok`, or the display of its fault.
pub(crate) fn shown(alloc: Global, outcome: &Result<(), CaptureFault>) -> Result<String, Fail> {
    Ok(match outcome {
        Ok(()) => "ok".to_string(alloc)?,
        Err(fault) => format!(in alloc; "{fault}")?,
    })
}

#[test]
fn faults_are_displayed(rt: HostRuntime) -> Result<(), Fail> {
    for (kind, words, offset, text) in &TEXTS {
        let fault = CaptureFault {
            kind: *kind,
            offset: *offset,
        };
        assert!(rt; is_displayed(rt.alloc(), kind, words)?, "{words}");
        assert!(rt; is_displayed(rt.alloc(), &fault, text)?, "{text}");
    }
    Ok(())
}

#[test]
fn refusals_have_their_texts(rt: HostRuntime) -> Result<(), Fail> {
    let cases = [
        (RouteFault::Refused, "refused body"),
        (RouteFault::EmptyPorts, "ports with foreign entries alone"),
        (RouteFault::Unfit, "attribute over 65535"),
        (RouteFault::Memory, "no memory"),
    ];
    for (fault, words) in &cases {
        assert!(rt; is_displayed(rt.alloc(), fault, words)?, "{words}");
    }
    let cases = [
        (NotReadable::Unfit, "attribute over 65535"),
        (
            NotReadable::ReadsOtherwise,
            "refused or read as another message",
        ),
        (NotReadable::Memory, "no memory"),
    ];
    for (why, words) in &cases {
        assert!(rt; is_displayed(rt.alloc(), why, words)?, "{words}");
    }
    Ok(())
}

#[test]
fn faults_of_requests_have_their_texts(rt: HostRuntime) -> Result<(), Fail> {
    for (fault, words) in &[
        (RequestFault::Unfit, "attribute over 65535"),
        (
            RequestFault::ReadsOtherwise,
            "refused or read as another message",
        ),
        (RequestFault::TooLong, "frame over 4294967295"),
        (RequestFault::Memory, "no memory"),
    ] {
        assert!(rt; is_displayed(rt.alloc(), fault, words)?, "{words}");
    }
    Ok(())
}
