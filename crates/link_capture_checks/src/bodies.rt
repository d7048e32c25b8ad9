//! The texts of the bodies of frames, by the types of their messages.

ghost use Rattle.std.specs.Prelude.{◌≡◌, ◌≤◌, ◌+◌, ◌++◌, true, length, is_ok, vec_capacity, IfOk, IfErr, Ok, Err};
ghost use Rattle.link_message_grammar.specs.Body.{link_body, link_peer};
ghost use Rattle.link_message_checks.specs.Prefixes.{IsBodyPrefix};
ghost use Rattle.link_capture_grammar.specs.Bodies.{body_text, done_text, error_text, ruled_text};
ghost use Rattle.link_capture_grammar.specs.Captures.{IsOfFrames};
ghost use Rattle.link_capture_grammar.specs.Numbers.{body_attribute_count};
ghost use Rattle.link_capture_grammar.specs.Same.{done_body};
ghost use Rattle.link_capture_checks.specs.Measures.{IsMeasuredBody, text_or_empty};

use crate::texts::MeasuredBody;
use attribute_tables_grammar::laws::measures_determine_rules;
use link_capture_grammar::fault::FaultKind;
use link_capture_grammar::link_types::{RTM_NEWLINK, RTM_SETLINK};
use link_interpreter::append;
use link_message_checks::{walk_body, write_body};
use netlink_packet_core::{CODE_LEN, NLMSG_DONE, NLMSG_ERROR, NLMSG_NOOP};

/// The code of a DONE message with an empty body.
const NO_CODE: [u8; CODE_LEN] = [0; CODE_LEN];

/// Returns the body of a DONE message, or the code 0 for an empty one.
pub(crate) fn with_code(body: &[u8]) -> &[u8]
    ensures { result.now ≡ done_body body.now }
{
    if body.is_empty() { &NO_CODE } else { body }
}

// Returns the measure of a body that is already canonical.
fn kept(body: &[u8]) -> MeasuredBody
    ensures text { IsMeasuredBody body.now (Ok body.now) 0 result }
    ensures canonical_prefix { result.canonical_prefix ≡ 0 }
{
    MeasuredBody {
        len: body.len() as u128,
        attributes: 0,
        is_canonical: true,
        canonical_prefix: 0,
    }
}

// Returns the measure of the body of an ERROR message: a code and more.
fn measure_error(body: &[u8]) -> Result<MeasuredBody, FaultKind>
    ensures ok { IfOk result (λ m. IsMeasuredBody body.now (error_text body.now) 0 m) }
    ensures canonical_prefix { IfOk result (λ m. m.canonical_prefix ≡ 0) }
    ensures err { IfErr result (λ kind. error_text body.now ≡ Err kind) }
    ensures of_frames { IfErr result (λ kind. IsOfFrames kind) }
{
    if body.len() < CODE_LEN {
        Err(FaultKind::Refused)
    } else {
        Ok(kept(body))
    }
}

// Returns the measure of the body of a DONE message: a code and more, or nothing, which is the code
// 0.
fn measure_done(body: &[u8]) -> Result<MeasuredBody, FaultKind>
    ensures ok { IfOk result (λ m. IsMeasuredBody body.now (done_text body.now) 0 m) }
    ensures canonical_prefix { IfOk result (λ m. m.canonical_prefix ≡ 0) }
    ensures err { IfErr result (λ kind. done_text body.now ≡ Err kind) }
    ensures of_frames { IfErr result (λ kind. IsOfFrames kind) }
{
    if body.is_empty() {
        return Ok(MeasuredBody {
            len: CODE_LEN as u128,
            attributes: 0,
            is_canonical: false,
            canonical_prefix: 0,
        });
    }
    measure_error(body)
}

// Returns the measure of the body of a link message.
fn measure_link(body: &[u8]) -> Result<MeasuredBody, FaultKind>
    ensures ok { IfOk result
        (λ m. IsMeasuredBody body.now (ruled_text link_body body.now) (link_body.attributes body.now) m) }
    ensures canonical_prefix { IfOk result (λ m. IsBodyPrefix link_peer body.now m.canonical_prefix) }
    ensures err { IfErr result (λ kind. ruled_text link_body body.now ≡ Err kind) }
    ensures of_frames { IfErr result (λ kind. IsOfFrames kind) }
{
    measures_determine_rules();
    let Some(found) = walk_body(body) else {
        return Err(FaultKind::Refused);
    };
    if found.empty_ports {
        return Err(FaultKind::EmptyPorts);
    }
    if !found.fits {
        return Err(FaultKind::Unfit);
    }
    Ok(MeasuredBody {
        len: found.text_len,
        attributes: found.attributes,
        is_canonical: found.is_canonical,
        canonical_prefix: found.prefix as usize,
    })
}

/// Returns the measure of the body of a message of a type. Inlined, so that the measure isn't copied
/// from one result into the next.
#[inline(always)]
pub(crate) fn measure_body(message_type: u16, body: &[u8]) -> Result<MeasuredBody, FaultKind>
    ensures ok { IfOk result (λ m. IsMeasuredBody body.now (body_text link_body message_type body.now)
        (body_attribute_count link_body message_type body.now) m) }
    ensures canonical_prefix { IfOk result (λ m. IsBodyPrefix link_peer body.now m.canonical_prefix) }
    ensures err { IfErr result (λ kind. body_text link_body message_type body.now ≡ Err kind) }
    ensures of_frames { IfErr result (λ kind. IsOfFrames kind) }
{
    match message_type {
        NLMSG_NOOP => Ok(MeasuredBody {
            len: 0,
            attributes: 0,
            is_canonical: false,
            canonical_prefix: 0,
        }),
        NLMSG_ERROR => measure_error(body),
        NLMSG_DONE => measure_done(body),
        RTM_NEWLINK..=RTM_SETLINK => measure_link(body),
        _ => Ok(kept(body)),
    }
}

/// Appends the text of a body that has one, for which `out` must have capacity. Of a link message's
/// body the first `canonical_prefix` bytes are known to be canonical already.
pub(crate) fn write_frame_body(
    message_type: u16,
    body: &[u8],
    canonical_prefix: usize,
    out: &mut Vec<u8>,
)
    requires text { is_ok (body_text link_body message_type body.now) ≡ true }
    requires canonical_prefix { IsBodyPrefix link_peer body.now canonical_prefix }
    requires capacity { length out.old.items + length (text_or_empty (body_text link_body message_type body.now))
        ≤ vec_capacity out.old }
    ensures text { out.new.items ≡ out.old.items ++ text_or_empty (body_text link_body message_type body.now) }
    ensures capacity { vec_capacity out.old ≤ vec_capacity out.new }
{
    match message_type {
        NLMSG_NOOP => {}
        NLMSG_ERROR => append(body, out),
        NLMSG_DONE => append(with_code(body), out),
        RTM_NEWLINK..=RTM_SETLINK => write_body(body, canonical_prefix, out),
        _ => append(body, out),
    }
}
