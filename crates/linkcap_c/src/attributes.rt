//! The attributes of a message, one after the other, without a state between the calls.

ghost use Rattle.std.specs.Prelude.{◌≡◌, ◌≢◌, ◌≤◌, ◌<◌, ◌^◌, ◌++◌, ◌⊎◌, ℕ, length, drop, option_map, Err};
ghost use Rattle.link_capture_attributes.specs.AttributeViews.{found};
ghost use Rattle.link_capture_grammar.specs.declared.fault.FaultKind.{FaultKind};
ghost use Rattle.link_capture_grammar.specs.Captures.{first_frame};
ghost use Rattle.linkcap_c.specs.Attributes.{HasNoneFrom, IsNextAttribute, attribute_of, name_of};
ghost use Rattle.linkcap_c.specs.Findings.{fault_of};
ghost use Rattle.linkcap_c.specs.Messages.{IsMessage};
ghost use Rattle.linkcap_c.specs.Options.{AreInvalid, AreValid, limit_of};
ghost use Rattle.linkcap_c.specs.Statuses.{KeepsFault};
ghost use Rattle.link_capture_grammar.specs.Body.{link_body};

use crate::findings::{LinkcapFinding, of_one};
use crate::options::{LinkcapOptions, read_limit};
use crate::statuses::{FAULT, NONE, OK, WRONG};
use link_capture_attributes::laws::attributes_are_where_they_say;
use link_capture_attributes::{AttributeAt, attribute_from};
use link_capture_checks::measure_frame;
use link_capture_grammar::fault::CaptureFault;
use link_capture_grammar::laws::captures_are_counted;
use link_interpreter::KIND_BOUND;

/// The length of an array for a name and at least one NUL after it.
const NAME_ROOM: usize = 64;

/// One attribute of a link message with its context.
#[repr(C)]
#[derive(Drop)]
pub struct LinkcapAttribute {
    /// The offset of its header, in bytes from the capture's start.
    pub offset: u64,
    /// The offset of its payload, which is the position from which the next attribute is found.
    pub payload: u64,
    /// The length of its payload in bytes.
    pub length: u64,
    /// Its type without flag bits (netlink.h, `nla_type`).
    pub attribute_type: u32,
    /// The flag bits of its type (netlink.h, `NLA_F_NESTED` and `NLA_F_NET_BYTEORDER`).
    pub flags: u32,
    /// How many attributes it is inside, at most 6.
    pub depth: u32,
    /// Its name, and NULs after it; none has only NULs.
    pub name: [u8; NAME_ROOM],
    /// The link kind whose data it holds or is in, and NULs after it; none has only NULs.
    pub link_kind: [u8; NAME_ROOM],
}

/// Copies a name to the start of an array.
fn copy_name(name: &[u8], text: &mut [u8; NAME_ROOM])
    requires { length name.now ≤ 64 }
    ensures { text.new ≡ name.now ++ drop (length name.now) text.old }
{
    text[..name.len()].copy_from_slice(name);
}

/// A name and NULs after it; only NULs for none.
fn name_of(name: Option<&[u8]>) -> [u8; NAME_ROOM]
    ensures { result ≡ name_of (option_map (λ n. n.now) name.entry) }
{
    let mut text = [0; NAME_ROOM];
    if let Some(name) = name {
        copy_name(&name[..name.len().min(NAME_ROOM - 1)], &mut text);
    }
    text
}

/// An attribute as C has it.
fn attribute_of(attribute: AttributeAt<'_>) -> LinkcapAttribute
    requires { attribute.offset < 2 ^ 63 }
    ensures { result ≡ attribute_of (found attribute.entry) }
{
    let name = match attribute.name {
        Some(name) => Some(name.as_bytes()),
        None => None,
    };
    let kind = attribute.attribute.kind % KIND_BOUND;
    LinkcapAttribute {
        offset: attribute.offset,
        payload: attribute.offset + 4,
        length: attribute.attribute.payload.len() as u64,
        attribute_type: kind as u32,
        flags: (attribute.attribute.kind - kind) as u32,
        depth: attribute.depth,
        name: name_of(name),
        link_kind: name_of(attribute.link_kind),
    }
}

/// The first attribute at `position` or after it, of the message that begins at the offset `message`; or the message's
/// fault; nothing if there is no attribute left, no message, or one of another type than links'. Allocates nothing.
#[unsafe(no_mangle)]
pub extern "C" fn linkcap_next_attribute(
    capture: &[u8],
    options: &LinkcapOptions<'_>,
    message: u64,
    position: u64,
    attribute: &mut LinkcapAttribute,
    fault: &mut LinkcapFinding,
) -> u32
    ensures legal { result ≡ 0 → (size kind : ℕ) × IsMessage (limit_of options.now) (drop message capture.now) size kind }
    ensures attribute { result ≡ 0 → IsNextAttribute capture.now message position attribute.new }
    ensures inside { (result ≡ 0) ⊎ (result ≡ 2) → message < length capture.now }
    ensures position { result ≡ 0 → position ≤ attribute.new.offset }
    ensures none { result ≡ 6 → (length capture.now ≤ message)
        ⊎ HasNoneFrom (limit_of options.now) capture.now message position }
    ensures fault { result ≡ 2 → (kind : FaultKind)
        × (fault.new ≡ fault_of 0 (record { kind = kind; offset = message }))
        × (first_frame link_body (limit_of options.now) (drop message capture.now) ≡ Err kind) }
    ensures wrong { result ≡ 3 → AreInvalid options.now }
    ensures valid { result ≢ 3 → AreValid options.now }
    ensures kept { KeepsFault result fault.old fault.new }
    ensures unwritten { result ≢ 0 → attribute.new ≡ attribute.old }
    ensures status { (result ≡ 0) ⊎ (result ≡ 2) ⊎ (result ≡ 3) ⊎ (result ≡ 6) }
{
    captures_are_counted();
    attributes_are_where_they_say();
    let Some(limit) = read_limit(options) else {
        return WRONG;
    };
    if message >= capture.len() as u64 {
        return NONE;
    }
    let frame = &capture[message as usize..];
    if let Err(kind) = measure_frame(frame, limit) {
        *fault = of_one(CaptureFault {
            kind,
            offset: message,
        });
        return FAULT;
    }
    match attribute_from(frame, message, position) {
        Some(found) => {
            *attribute = attribute_of(found);
            OK
        }
        None => NONE,
    }
}
