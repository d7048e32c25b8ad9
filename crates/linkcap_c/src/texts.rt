//! The words of findings, unknown words, and the versions, for C.

ghost use Rattle.std.specs.Prelude.{◌≡◌, ◌≢◌, ◌≤◌, ◌⊎◌, ℕ, List, [], true, false, Ok};
ghost use Rattle.link_capture_grammar.specs.declared.fault.CaptureFault.{CaptureFault};
ghost use Rattle.link_capture_grammar.specs.Faults.{fault_text};
ghost use Rattle.link_capture_quirks.specs.declared.quirk_at.QuirkAt.{QuirkAt};
ghost use Rattle.link_capture_quirks.specs.QuirkTexts.{quirk_text};
ghost use Rattle.link_lines.specs.Types.{TakesType};
ghost use Rattle.link_lines.specs.Remaining.{nothing_omitted};
ghost use Rattle.link_lines.specs.Without.{TakesWord};
ghost use Rattle.linkcap_c.specs.Buffers.{Holds, IsCopied, Lacks};
ghost use Rattle.linkcap_c.specs.Findings.{IsFault, IsQuirk, fault_of, quirk_of, words_of_side};
ghost use Rattle.linkcap_c.specs.Options.{AreRead, IsInvalidList, IsUnknownWord, ReadsTypes};

use crate::buffers::copy_text;
use crate::findings::{FIRST_QUIRK, LinkcapFinding, fault_numbered, quirk_numbered};
use crate::options::{LinkcapOptions, read_lists};
use crate::statuses::{NONE, OK, WRONG};
use crate::words::ListError;
use link_capture_checks::SideFault;
use link_capture_grammar::fault::CaptureFault;
use link_capture_quirks::QuirkAt;

/// The version of the interface.
const VERSION: u32 = 3;

/// The format version of normal texts and lines.
const FORMAT: u32 = 4;

/// A fault of one of two captures.
fn of_side(fault: CaptureFault, second: bool) -> SideFault
    ensures { result ≡ record { second = second; fault = fault } }
{
    SideFault { second, fault }
}

/// Writes the words of a fault and its offset to the start of `out`, after the name of its side if it has one.
fn fault_words(fault: &LinkcapFinding, out: &mut [u8], written: &mut u64) -> u32
    ensures alone { (found : CaptureFault) → fault.now ≡ fault_of 0 found
        → IsCopied 0 (fault_text found) result written.new out.old out.new }
    ensures first { (found : CaptureFault) → fault.now ≡ fault_of 1 found
        → IsCopied 0 (words_of_side false found) result written.new out.old out.new }
    ensures second { (found : CaptureFault) → fault.now ≡ fault_of 2 found
        → IsCopied 0 (words_of_side true found) result written.new out.old out.new }
    ensures wrong { result ≡ 3 → IsFault fault.now → ⊥ }
    ensures right { result ≢ 3 → IsFault fault.now }
    ensures kept { result ≡ 3 → (out.new ≡ out.old) × (written.new ≡ written.old) }
    ensures short { (result ≡ 0) ⊎ (result ≡ 4) → written.new ≤ 127 }
    ensures status { (result ≡ 0) ⊎ (result ≡ 3) ⊎ (result ≡ 4) }
{
    let Some(kind) = fault_numbered(fault.kind) else {
        return WRONG;
    };
    let found = CaptureFault {
        kind,
        offset: fault.offset,
    };
    match fault.side {
        0 => copy_text(found.text().as_str().as_bytes(), OK, out, written),
        1 => copy_text(
            of_side(found, false).text().as_str().as_bytes(),
            OK,
            out,
            written,
        ),
        2 => copy_text(
            of_side(found, true).text().as_str().as_bytes(),
            OK,
            out,
            written,
        ),
        _ => WRONG,
    }
}

/// Writes the words of a quirk and its offset to the start of `out`.
fn quirk_words(quirk: &LinkcapFinding, out: &mut [u8], written: &mut u64) -> u32
    ensures text { (found : QuirkAt) → quirk.now ≡ quirk_of found
        → IsCopied 0 (quirk_text found) result written.new out.old out.new }
    ensures wrong { result ≡ 3 → IsQuirk quirk.now → ⊥ }
    ensures right { result ≢ 3 → IsQuirk quirk.now }
    ensures kept { result ≡ 3 → (out.new ≡ out.old) × (written.new ≡ written.old) }
    ensures short { (result ≡ 0) ⊎ (result ≡ 4) → written.new ≤ 127 }
    ensures status { (result ≡ 0) ⊎ (result ≡ 3) ⊎ (result ≡ 4) }
{
    let Some(found) = quirk_numbered(quirk.kind) else {
        return WRONG;
    };
    if quirk.side != 0 {
        return WRONG;
    }
    let quirk_at = QuirkAt {
        quirk: found,
        offset: quirk.offset,
    };
    copy_text(quirk_at.text().as_str().as_bytes(), OK, out, written)
}

/// Writes the words of a fault or a quirk and its offset to the start of `out`, after the name of its side if it has
/// one.
#[unsafe(no_mangle)]
pub extern "C" fn linkcap_words(finding: &LinkcapFinding, out: &mut [u8], written: &mut u64) -> u32
    ensures alone { (found : CaptureFault) → finding.now ≡ fault_of 0 found
        → IsCopied 0 (fault_text found) result written.new out.old out.new }
    ensures first { (found : CaptureFault) → finding.now ≡ fault_of 1 found
        → IsCopied 0 (words_of_side false found) result written.new out.old out.new }
    ensures second { (found : CaptureFault) → finding.now ≡ fault_of 2 found
        → IsCopied 0 (words_of_side true found) result written.new out.old out.new }
    ensures quirk { (found : QuirkAt) → finding.now ≡ quirk_of found
        → IsCopied 0 (quirk_text found) result written.new out.old out.new }
    ensures wrong { result ≡ 3 → IsFault finding.now ⊎ IsQuirk finding.now → ⊥ }
    ensures right { result ≢ 3 → IsFault finding.now ⊎ IsQuirk finding.now }
    ensures kept { result ≡ 3 → (out.new ≡ out.old) × (written.new ≡ written.old) }
    ensures short { (result ≡ 0) ⊎ (result ≡ 4) → written.new ≤ 127 }
    ensures status { (result ≡ 0) ⊎ (result ≡ 3) ⊎ (result ≡ 4) }
{
    if finding.kind < FIRST_QUIRK {
        fault_words(finding, out, written)
    } else {
        quirk_words(finding, out, written)
    }
}

/// Writes the first word that isn't known to the start of `out`: that of `only`, or else of `without`. If `out` is too
/// small, it is unchanged, and `written` is the length that is needed.
#[unsafe(no_mangle)]
pub extern "C" fn linkcap_unknown_word(
    options: &LinkcapOptions<'_>,
    out: &mut [u8],
    written: &mut u64,
) -> u32
    ensures word { result ≡ 0 → (word : List ℕ) × IsUnknownWord options.now.only.now options.now.without.now word
        × Holds word written.new out.old out.new }
    ensures room { result ≡ 4 → (word : List ℕ) × IsUnknownWord options.now.only.now options.now.without.now word
        × Lacks word written.new out.old }
    ensures wrong { result ≡ 3 → IsInvalidList TakesType [] options.now.only.now
        ⊎ (((types : List ℕ) × ReadsTypes options.now.only.now (Ok types))
        × IsInvalidList TakesWord nothing_omitted options.now.without.now) }
    ensures none { result ≡ 6 → AreRead options.now.only.now options.now.without.now × (written.new ≡ 0) }
    ensures kept { (result ≡ 3) ⊎ (result ≡ 4) ⊎ (result ≡ 6) → out.new ≡ out.old }
    ensures kept_length { result ≡ 3 → written.new ≡ written.old }
    ensures status { (result ≡ 0) ⊎ (result ≡ 3) ⊎ (result ≡ 4) ⊎ (result ≡ 6) }
{
    match read_lists(options.only, options.without) {
        Ok(_) => {
            *written = 0;
            NONE
        }
        Err(ListError::Unknown(word)) => copy_text(word.as_bytes(), OK, out, written),
        Err(ListError::Invalid) => WRONG,
    }
}

/// The version of the interface, which `linkcap.h` has as `LINKCAP_VERSION`.
#[unsafe(no_mangle)]
pub extern "C" fn linkcap_version() -> u32
    ensures { result ≡ 3 }
{
    VERSION
}

/// The format version of normal texts and lines, which `linkcap.h` has as `LINKCAP_FORMAT`.
#[unsafe(no_mangle)]
pub extern "C" fn linkcap_format() -> u32
    ensures { result ≡ 4 }
{
    FORMAT
}
