//! Texts and lines written to a caller's buffer.

ghost use Rattle.std.specs.Prelude.{◌≡◌, ◌≢◌, ◌+◌, ◌-◌, ◌^◌, ◌<◌, ◌≤◌, ◌++◌, ◌⊎◌, List, [], IsTrue, true, false};
ghost use Rattle.std.specs.Prelude.{ℕ, length, take, drop, Some};
ghost use Rattle.link_capture_grammar.specs.Captures.{first_fault};
ghost use Rattle.link_capture_grammar.specs.declared.fault.FaultKind.{FaultKind};
ghost use Rattle.link_capture_reader.specs.NormalTexts.{HasLawfulTexts};
ghost use Rattle.link_lines.specs.Captures.{Choice, lines};
ghost use Rattle.link_lines.specs.MessageLaws.{plain};
ghost use Rattle.link_lines.specs.MessageLines.{shown};
ghost use Rattle.link_lines.specs.Meanings.{DependsOnMeaning};
ghost use Rattle.link_lines.specs.Pieces.{goes_past};
ghost use Rattle.linkcap_c.specs.Buffers.{Holds};
ghost use Rattle.linkcap_c.specs.Forms.{Form, keeps_going, written_at};
ghost use Rattle.linkcap_c.specs.Options.{AreInvalid, AreValid, Asks, ChooseOfText, limit_of, output_form};
ghost use Rattle.linkcap_c.specs.Pieces.{Continues, IsBefore, IsFaulty, IsInvalid, IsLegalTo, IsValid};
ghost use Rattle.linkcap_c.specs.Pieces.{IsWrittenTo, StopsAfter, StopsWhole, WritesPiece, is_last};
ghost use Rattle.linkcap_c.specs.Statuses.{KeepsFault};
ghost use Rattle.link_capture_grammar.specs.Body.{link_body};

use crate::findings::{LinkcapFinding, of_one};
use crate::options::{LinkcapOptions, Output, limit_of, output_by, read_options};
use crate::pieces::{Progress, Stop, write_messages};
use crate::statuses::{FAULT, NO_MEMORY, NO_ROOM, OK, WRONG};
use link_capture_grammar::fault::{CaptureFault, FaultKind};
use link_capture_grammar::laws::{
    captures_are_counted, captures_unfold_by_frames, frames_are_independent,
    joined_captures_are_legal, joined_captures_have_joined_texts,
    joined_captures_have_the_faults_of_the_second, texts_are_canonical, texts_are_legal,
    texts_are_small, texts_mean_the_same,
};
use link_lines::message_laws::{
    lines_depend_on_meaning, lines_of_messages_are_of_texts, messages_unfold, pieces_are_joined,
};
use std::alloc::Global;

/// A piece of a capture.
#[repr(C)]
#[derive(Drop)]
pub struct LinkcapPiece<'a> {
    /// The bytes, which are those that the call before left, and more after them.
    pub bytes: &'a [u8],
    /// The offset of its first byte in the capture.
    pub offset: u64,
    /// Whether no piece follows: 0 if one does.
    pub last: u32,
    /// For later versions.
    pub reserved: u32,
}

/// How far a call over a piece came.
#[repr(C)]
#[derive(Drop)]
pub struct LinkcapProgress {
    /// The bytes of the piece of which everything is written.
    pub used: u64,
    /// The bytes that were written.
    pub written: u64,
    /// If the buffer is too small, the bytes that the next message needs, else 0.
    pub wanted: u64,
}

/// Writes a piece that follows others, whatever these are.
fn write_piece(
    alloc: Global,
    piece: &LinkcapPiece<'_>,
    limit: u32,
    output: &Output<'_>,
    out: &mut [u8],
) -> Progress
    requires { piece.now.offset + length piece.now.bytes.now < 2 ^ 64 }
    ensures used { IsWrittenTo (output_form output.now) limit piece.now.offset (is_last piece.now) piece.now.bytes.now
        result.used result.written }
    ensures room { result.written ≤ length out.old }
    ensures written { Holds (written_at (output_form output.now) limit piece.now.offset
        (take result.used piece.now.bytes.now)) result.written out.old out.new }
    ensures legal { IsLegalTo limit (is_last piece.now) piece.now.bytes.now result.at }
    ensures stops { StopsAfter (output_form output.now) limit piece.now.offset (is_last piece.now) piece.now.bytes.now
        result.used result.at (length out.old - result.written) result.stop }
    // What the pieces write one after the other is what the whole writes.
    ensures continues { (before : List ℕ) → IsBefore (output_form output.now) limit piece.now.offset before
        → Continues (output_form output.now) limit piece.now.offset (is_last piece.now)
        (take result.used piece.now.bytes.now) before }
    // The first fault is the whole's.
    ensures first { (before more : List ℕ) (kind : FaultKind) → IsBefore Form.Text limit piece.now.offset before
        → (is_last piece.now ≡ true → more ≡ [])
        → IsFaulty limit (is_last piece.now) (drop result.at piece.now.bytes.now) kind
        → first_fault link_body limit (before ++ (piece.now.bytes.now ++ more))
        ≡ Some (record { kind = kind; offset = piece.now.offset + result.at }) }
    // And where writing stops, the whole writes no more.
    ensures ends { (before more : List ℕ) (kind : FaultKind)
        → IsBefore (output_form output.now) limit piece.now.offset before → (is_last piece.now ≡ true → more ≡ [])
        → IsFaulty limit (is_last piece.now) (drop result.used piece.now.bytes.now) kind
        → goes_past (keeps_going (output_form output.now)) kind ≡ false
        → StopsWhole (output_form output.now) limit piece.now.offset kind result.used piece.now.bytes.now
        before more }
{
    captures_are_counted();
    captures_unfold_by_frames();
    frames_are_independent();
    joined_captures_have_joined_texts();
    joined_captures_have_the_faults_of_the_second();
    messages_unfold();
    pieces_are_joined();
    write_messages(
        alloc,
        piece.bytes,
        piece.offset,
        piece.last != 0,
        limit,
        output,
        out,
    )
}

/// Writes a piece to the start of `out`, and reports how far that came.
fn write_some(
    alloc: Global,
    piece: &LinkcapPiece<'_>,
    limit: u32,
    output: &Output<'_>,
    out: &mut [u8],
    progress: &mut LinkcapProgress,
    fault: &mut LinkcapFinding,
) -> u32
    requires { piece.now.offset + length piece.now.bytes.now < 2 ^ 64 }
    ensures written { WritesPiece (output_form output.now) limit piece.now.offset (is_last piece.now)
        piece.now.bytes.now result progress.new fault.new out.old out.new }
    ensures kept { KeepsFault result fault.old fault.new }
    ensures status { (result ≡ 0) ⊎ (result ≡ 2) ⊎ (result ≡ 4) ⊎ (result ≡ 5) }
{
    pieces_are_joined();
    let done = write_piece(alloc, piece, limit, output, out);
    progress.used = done.used as u64;
    progress.written = done.written as u64;
    progress.wanted = 0;
    match done.stop {
        Stop::Ended => OK,
        Stop::Fault(kind) => {
            *fault = of_one(CaptureFault {
                kind,
                offset: piece.offset + done.at as u64,
            });
            FAULT
        }
        Stop::Room(wanted) => {
            progress.wanted = wanted as u64;
            NO_ROOM
        }
        Stop::Memory => {
            *fault = of_one(CaptureFault {
                kind: FaultKind::Memory,
                offset: piece.offset + done.used as u64,
            });
            NO_MEMORY
        }
    }
}

/// The laws of the text and the lines of a capture.
fn text_is_normal(capture: &[u8], limit: u32)
    ensures text { HasLawfulTexts limit capture.now }
    ensures plain { (choice : Choice) → shown (plain choice) limit capture.now ≡ lines choice limit capture.now }
    ensures meaning { (choice : Choice) → DependsOnMeaning choice limit capture.now }
{
    joined_captures_are_legal();
    joined_captures_have_joined_texts();
    lines_depend_on_meaning();
    lines_of_messages_are_of_texts();
    texts_are_legal();
    texts_are_canonical();
    texts_are_small();
    texts_mean_the_same();
}

/// Whether a piece is valid.
fn is_valid(piece: &LinkcapPiece<'_>) -> bool
    ensures valid { IsTrue result → IsValid piece.now }
    ensures invalid { (result ≡ true → ⊥) → IsInvalid piece.now }
{
    piece.reserved == 0 && piece.offset <= u64::MAX - piece.bytes.len() as u64
}

/// Writes the text, the lines or the JSON of the messages that are whole in a piece of a capture, with their padding,
/// to the start of `out`, as far as it has capacity; of the last piece the last message may lack padding. The caller
/// gives the bytes that weren't used again, with more after them. With `KEEP_GOING` a message whose body has the first
/// fault is written too, and used.
#[unsafe(no_mangle)]
pub extern "C" fn linkcap_write(
    alloc: Global,
    options: &LinkcapOptions<'_>,
    piece: &LinkcapPiece<'_>,
    out: &mut [u8],
    progress: &mut LinkcapProgress,
    fault: &mut LinkcapFinding,
) -> u32
    ensures written { result ≢ 3 → (f : Form) × Asks options.now f × WritesPiece f (limit_of options.now)
        piece.now.offset (is_last piece.now) piece.now.bytes.now result progress.new fault.new out.old out.new }
    ensures wrong { result ≡ 3 → AreInvalid options.now ⊎ (ChooseOfText options.now ⊎ IsInvalid piece.now) }
    ensures valid { result ≢ 3 → AreValid options.now × IsValid piece.now }
    ensures kept { KeepsFault result fault.old fault.new }
    ensures unwritten { result ≡ 3 → (out.new ≡ out.old) × (progress.new ≡ progress.old) }
    ensures status { (result ≡ 0) ⊎ ((2 ≤ result) × (result ≤ 5)) }
    // The normal text is legal, canonical, equivalent, and at most 77 times as long.
    ensures text { result ≢ 3 → HasLawfulTexts (limit_of options.now) piece.now.bytes.now }
    // Without other options, the lines are those of the texts, and depend only on the capture's meaning.
    ensures plain { result ≢ 3 → (choice : Choice) → shown (plain choice) (limit_of options.now) piece.now.bytes.now
        ≡ lines choice (limit_of options.now) piece.now.bytes.now }
    ensures meaning { result ≢ 3 → (choice : Choice)
        → DependsOnMeaning choice (limit_of options.now) piece.now.bytes.now }
{
    let Some(show) = read_options(options) else {
        return WRONG;
    };
    let Some(output) = output_by(options, show) else {
        return WRONG;
    };
    if !is_valid(piece) {
        return WRONG;
    }
    let limit = limit_of(options);
    text_is_normal(piece.bytes, limit);
    write_some(alloc, piece, limit, &output, out, progress, fault)
}
