//! The messages of a capture, one after the other, without a state between the calls.

ghost use Rattle.std.specs.Prelude.{◌≡◌, ◌≢◌, ◌+◌, ◌<◌, ◌≤◌, ◌⊎◌, length, drop, min, Some, Err};
ghost use Rattle.netlink_packet_core_grammar.specs.Attributes.{nla_align};
ghost use Rattle.link_capture_grammar.specs.declared.fault.FaultKind.{FaultKind};
ghost use Rattle.link_capture_grammar.specs.Captures.{first_fault, first_frame};
ghost use Rattle.linkcap_c.specs.Statuses.{KeepsFault};
ghost use Rattle.linkcap_c.specs.Messages.{IsFollowed, IsMessage};
ghost use Rattle.linkcap_c.specs.Findings.{fault_of};
ghost use Rattle.linkcap_c.specs.Options.{AreInvalid, AreValid, limit_of};
ghost use Rattle.link_capture_grammar.specs.Body.{link_body};

use crate::findings::{LinkcapFinding, of_one};
use crate::options::{LinkcapOptions, read_limit};
use crate::statuses::{FAULT, NONE, OK, WRONG};
use link_capture_checks::measure_frame;
use link_capture_grammar::fault::CaptureFault;
use link_capture_grammar::laws::{captures_are_counted, captures_unfold_by_frames};
use netlink_packet_core::{NetlinkBuffer, nla_align};

/// One message of a capture.
#[repr(C)]
#[derive(Drop)]
pub struct LinkcapMessage {
    /// The offset of the message after it, or the capture's length if it is the last.
    pub next: u64,
    /// Its length in bytes, as its header has it, without the padding.
    pub size: u32,
    /// The type in its header (netlink.h, `nlmsg_type`).
    pub message_type: u32,
}

/// The message at an offset where one starts, or its fault; nothing at the end. Allocates nothing.
#[unsafe(no_mangle)]
pub extern "C" fn linkcap_next_message(
    capture: &[u8],
    options: &LinkcapOptions<'_>,
    offset: u64,
    message: &mut LinkcapMessage,
    fault: &mut LinkcapFinding,
) -> u32
    ensures message { result ≡ 0 → IsMessage (limit_of options.now) (drop offset capture.now) message.new.size
        message.new.message_type }
    ensures next { result ≡ 0 → message.new.next ≡ min (offset + nla_align message.new.size) (length capture.now) }
    ensures inside { (result ≡ 0) ⊎ (result ≡ 2) → offset < length capture.now }
    ensures fault { result ≡ 2 → (kind : FaultKind)
        × (fault.new ≡ fault_of 0 (record { kind = kind; offset = offset }))
        × (first_frame link_body (limit_of options.now) (drop offset capture.now) ≡ Err kind) }
    ensures ended { result ≡ 6 → length capture.now ≤ offset }
    ensures wrong { result ≡ 3 → AreInvalid options.now }
    ensures valid { result ≢ 3 → AreValid options.now }
    ensures kept { KeepsFault result fault.old fault.new }
    ensures unwritten { result ≢ 0 → message.new ≡ message.old }
    ensures status { (result ≡ 0) ⊎ (result ≡ 2) ⊎ (result ≡ 3) ⊎ (result ≡ 6) }
    // The messages from here on are this one and those from the next offset on.
    ensures continues { result ≡ 0 → IsFollowed (limit_of options.now) capture.now offset message.new.next }
    // A fault is the first one from here on.
    ensures fails { result ≡ 2 → (kind : FaultKind) × (fault.new ≡ fault_of 0 (record { kind = kind; offset = offset }))
        × (first_fault link_body (limit_of options.now) (drop offset capture.now) ≡ Some (record { kind = kind; offset = 0 })) }
{
    captures_are_counted();
    captures_unfold_by_frames();
    let Some(limit) = read_limit(options) else {
        return WRONG;
    };
    if offset >= capture.len() as u64 {
        return NONE;
    }
    let frame = &capture[offset as usize..];
    match measure_frame(frame, limit) {
        Ok(found) => {
            let next = offset + nla_align(found.len) as u64;
            *message = LinkcapMessage {
                next: next.min(capture.len() as u64),
                size: found.len as u32,
                message_type: NetlinkBuffer::new(frame).message_type() as u32,
            };
            OK
        }
        Err(kind) => {
            *fault = of_one(CaptureFault { kind, offset });
            FAULT
        }
    }
}
