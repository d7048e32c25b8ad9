//! Captures that come in pieces, without a state between them.

ghost use Rattle.std.specs.Prelude.{◌≡◌, ◌≤◌, ◌<◌, ◌+◌, ◌-◌, ◌^◌, ◌++◌, ◌⊎◌, false, length, take, drop, min};
ghost use Rattle.std.specs.Prelude.{IfErr, IfOk, OnErr};
ghost use Rattle.netlink_packet_core_grammar.specs.Attributes.{nla_align};
ghost use Rattle.link_lines.specs.Outcomes.{IsToBeShown};
ghost use Rattle.linkcap_c.specs.Buffers.{Holds};
ghost use Rattle.linkcap_c.specs.Forms.{Form, keeps_going, written_at};
ghost use Rattle.linkcap_c.specs.Options.{output_form};
ghost use Rattle.linkcap_c.specs.Pieces.{IsLegalTo, IsPushed, IsWrittenTo, Stops, StopsAfter, WritesMessage};

use crate::options::Output;
use link_capture_checks::push_frame;
use link_capture_grammar::fault::FaultKind;
use link_capture_grammar::laws::{
    captures_are_counted, captures_unfold_by_frames, frames_are_independent,
    joined_captures_have_joined_texts, joined_captures_have_the_faults_of_the_second,
};
use link_lines::message_laws::{messages_unfold, pieces_are_joined};
use link_lines::{Buffers, ShownMessage, push_selected_message};
use netlink_packet_core::nla_align;
use std::alloc::{AllocError, Global};

/// Why writing stopped.
#[derive(Clone, Copy, Drop)]
pub(crate) enum Stop {
    /// Nothing is left of the last piece, or no message that is whole with its padding.
    Ended,
    /// The message there has this fault.
    Fault(FaultKind),
    /// What is written of the next message has this length in bytes, which the buffer lacks.
    Room(usize),
    /// There is no memory for the message there.
    Memory,
}

/// What was written of a message.
#[derive(Clone, Copy, Drop)]
pub(crate) struct Written {
    /// The message's bytes with its padding, as far as that is there.
    pub read: usize,
    /// The bytes that were written.
    pub wrote: usize,
    /// The fault of its body, if that has one.
    pub fault: Option<FaultKind>,
}

/// How far writing came.
#[derive(Clone, Copy, Drop)]
pub(crate) struct Progress {
    /// The bytes of the piece of which everything is written.
    pub used: usize,
    /// The bytes that were written.
    pub written: usize,
    /// The offset in the piece of the message at which writing stopped; it is among those that are written if it has a
    /// fault and messages after it are written too.
    pub at: usize,
    pub stop: Stop,
}

impl Progress {
    /// Returns how far writing came.
    fn new(used: usize, written: usize, at: usize, stop: Stop) -> Progress
        ensures { result ≡ record { used = used; written = written; at = at; stop = stop } }
    {
        Progress {
            used,
            written,
            at,
            stop,
        }
    }
}

/// Copies bytes to the start of `out`. Returns their number, or as an Err the capacity that they need.
fn put(text: &[u8], out: &mut [u8]) -> Result<usize, Stop>
    ensures ok { IfOk result (λ size. (size ≡ length text.now) × (size ≤ length out.old)
        × (out.new ≡ text.now ++ drop size out.old)) }
    ensures room { IfErr result (λ stop. (stop ≡ Stop.Room (length text.now)) × (length out.old < length text.now)) }
    ensures err { OnErr result (out.new ≡ out.old) }
{
    if text.len() > out.len() {
        return Err(Stop::Room(text.len()));
    }
    out[..text.len()].copy_from_slice(text);
    Ok(text.len())
}

/// Appends the text of the first message. Returns its length, or the fault at which writing stops.
fn push_text(bytes: &[u8], limit: u32, out: &mut Vec<u8>) -> Result<ShownMessage, AllocError>
    ensures ok { IfOk result (λ shown. IsPushed Form.Text limit 0 bytes.now out.old.items out.new.items shown) }
    ensures memory { OnErr result (IsToBeShown false limit bytes.now) }
{
    match push_frame(bytes, limit, out) {
        Ok(len) => Ok(ShownMessage::Accepted(len)),
        Err(FaultKind::Memory) => Err(AllocError),
        Err(kind) => Ok(ShownMessage::Stopped(kind)),
    }
}

/// Appends what is written of the first message of `bytes`, which is at an offset of a capture. Returns its length, or
/// the fault at which writing stops.
fn push_message(
    bytes: &[u8],
    offset: u64,
    limit: u32,
    output: &Output<'_>,
    buffers: &mut Buffers,
    out: &mut Vec<u8>,
) -> Result<ShownMessage, AllocError>
    ensures ok { IfOk result (λ shown. IsPushed (output_form output.now) limit offset bytes.now
        out.old.items out.new.items shown) }
    ensures memory { OnErr result (IsToBeShown (keeps_going (output_form output.now)) limit bytes.now) }
{
    match output {
        Output::Texts => push_text(bytes, limit, out),
        Output::Lines(options) => push_selected_message(
            bytes, offset, limit, options, buffers, out,
        ),
    }
}

/// Writes the text or the lines of the message at the start of `bytes`, whose length is `len`, to the start of `out`.
fn put_message(
    len: usize,
    fault: Option<FaultKind>,
    bytes: &[u8],
    last: bool,
    text: &[u8],
    out: &mut [u8],
) -> Result<Written, Stop>
    requires { len ≤ length bytes.now }
    ensures ok { IfOk result (λ w. (w.fault ≡ fault) × (w.read ≡ min (nla_align len) (length bytes.now))
        × (w.wrote ≡ length text.now) × (out.new ≡ text.now ++ drop w.wrote out.old)) }
    ensures inside { IfOk result (λ w. w.wrote ≤ length out.old) }
    ensures padded { IfOk result (λ w. last ≡ false → nla_align len ≤ length bytes.now) }
    ensures stops { IfErr result (λ stop.
        ((stop ≡ Stop.Ended) × (last ≡ false) × (length bytes.now < nla_align len))
        ⊎ ((stop ≡ Stop.Room (length text.now)) × (length out.old < length text.now))) }
    ensures err { OnErr result (out.new ≡ out.old) }
{
    let size = nla_align(len);
    if size > bytes.len() && !last {
        return Err(Stop::Ended);
    }
    match put(text, out) {
        Ok(wrote) => Ok(Written {
            read: size.min(bytes.len()),
            wrote,
            fault,
        }),
        Err(stop) => Err(stop),
    }
}

/// Writes the first message of `bytes`, which is at an offset of a capture, to the start of `out`, by way of `text`.
fn write_message(
    bytes: &[u8],
    offset: u64,
    last: bool,
    limit: u32,
    output: &Output<'_>,
    buffers: &mut Buffers,
    text: &mut Vec<u8>,
    out: &mut [u8],
) -> Result<Written, Stop>
    requires { 0 < length bytes.now }
    ensures ok { IfOk result (λ w. WritesMessage (output_form output.now) limit offset last bytes.now
        out.old out.new w) }
    ensures inside { IfOk result (λ w. (0 < w.read) × (w.read ≤ length bytes.now) × (w.wrote ≤ length out.old)) }
    ensures stops { IfErr result (λ stop. Stops (output_form output.now) limit offset last bytes.now
        (length out.old) stop) }
    ensures err { OnErr result (out.new ≡ out.old) }
{
    captures_unfold_by_frames();
    frames_are_independent();
    pieces_are_joined();
    text.clear();
    let Ok(shown) = push_message(bytes, offset, limit, output, buffers, text) else {
        return Err(Stop::Memory);
    };
    match shown {
        ShownMessage::Accepted(len) => put_message(len, None, bytes, last, text.as_slice(), out),
        ShownMessage::Faulty(kind, len) => put_message(
            len,
            Some(kind),
            bytes,
            last,
            text.as_slice(),
            out,
        ),
        ShownMessage::Stopped(FaultKind::Cut) if !last => Err(Stop::Ended),
        ShownMessage::Stopped(kind) => Err(Stop::Fault(kind)),
    }
}

/// Writes the leading messages of a piece that are whole with their padding, and the last one of the last piece, to the
/// start of `out`, as far as it has capacity, up to the first fault. A message with that fault is written too if those
/// after it are.
pub(crate) fn write_messages(
    alloc: Global,
    bytes: &[u8],
    offset: u64,
    last: bool,
    limit: u32,
    output: &Output<'_>,
    out: &mut [u8],
) -> Progress
    requires { offset + length bytes.now < 2 ^ 64 }
    ensures used { IsWrittenTo (output_form output.now) limit offset last bytes.now result.used result.written }
    ensures room { result.written ≤ length out.old }
    ensures written { Holds (written_at (output_form output.now) limit offset (take result.used bytes.now))
        result.written out.old out.new }
    ensures legal { IsLegalTo limit last bytes.now result.at }
    ensures stops { StopsAfter (output_form output.now) limit offset last bytes.now result.used result.at
        (length out.old - result.written) result.stop }
{
    captures_are_counted();
    captures_unfold_by_frames();
    frames_are_independent();
    joined_captures_have_joined_texts();
    joined_captures_have_the_faults_of_the_second();
    messages_unfold();
    pieces_are_joined();
    let mut buffers = Buffers::new(alloc);
    let mut text = Vec::new(alloc);
    let mut used = 0;
    let mut written = 0;
    'messages: while used < bytes.len() {
        let at = used;
        match write_message(
            &bytes[used..],
            offset + used as u64,
            last,
            limit,
            output,
            &mut buffers,
            &mut text,
            &mut out[written..],
        ) {
            Ok(message) => {
                used += message.read;
                written += message.wrote;
                if let Some(kind) = message.fault {
                    return Progress::new(used, written, at, Stop::Fault(kind));
                }
            }
            Err(stop) => return Progress::new(used, written, at, stop),
        }
    }
    Progress::new(used, written, used, Stop::Ended)
}
