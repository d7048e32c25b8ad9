//! The encodings of a capture that some kernels treat differently from its normal text, for C.

ghost use Rattle.std.specs.Prelude.{◌≡◌, ◌≢◌, ◌≤◌, ◌<◌, ◌-◌, ◌^◌, ◌++◌, ◌↔◌, ◌⊎◌, length, drop, min};
ghost use Rattle.link_capture_grammar.specs.Captures.{first_fault};
ghost use Rattle.linkcap_c.specs.Findings.{found_quirks};
ghost use Rattle.linkcap_c.specs.Options.{AreInvalid, AreValid, limit_of};
ghost use Rattle.linkcap_c.specs.Statuses.{Judges, KeepsFault};
ghost use Rattle.link_capture_grammar.specs.Body.{link_body};

use crate::findings::{LinkcapFinding, of_one, of_quirk};
use crate::options::{LinkcapOptions, read_limit};
use crate::statuses::{FAULT, NO_ROOM, OK, WRONG};
use link_capture_grammar::fault::CaptureFault;
use link_capture_quirks::quirks;

/// How many quirks a capture has before its first fault, at most 2^64 - 1, and that fault.
fn count_quirks(capture: &[u8], limit: u32) -> (u64, Option<CaptureFault>)
    ensures count { result.0 ≡ min (length (found_quirks limit capture.now)) (2 ^ 64 - 1) }
    ensures fault { result.1 ≡ first_fault link_body limit capture.now }
{
    let mut left = quirks(capture, limit);
    let mut count = 0u64;
    'quirks: loop {
        match left.next() {
            Some(Ok(_)) => count = count.saturating_add(1),
            Some(Err(fault)) => return (count, Some(fault)),
            None => return (count, None),
        }
    }
}

/// Writes the quirks of a capture to the start of `out`.
fn write_quirks(capture: &[u8], limit: u32, out: &mut [LinkcapFinding])
    requires { length (found_quirks limit capture.now) ≤ length out.old }
    ensures { out.new ≡ found_quirks limit capture.now
        ++ drop (length (found_quirks limit capture.now)) out.old }
{
    let mut left = quirks(capture, limit);
    let mut written = 0;
    'quirks: loop {
        match left.next() {
            Some(Ok(found)) => {
                out[written] = of_quirk(found);
                written += 1;
            }
            Some(Err(_)) | None => return,
        }
    }
}

/// Writes the quirks of a capture to the start of `quirks`, in the order of their offsets, or those before its first
/// fault. If `quirks` is too small for them, it is unchanged. Their number goes to `count`. Allocates nothing.
#[unsafe(no_mangle)]
pub extern "C" fn linkcap_quirks(
    capture: &[u8],
    options: &LinkcapOptions<'_>,
    quirks: &mut [LinkcapFinding],
    count: &mut u64,
    fault: &mut LinkcapFinding,
) -> u32
    ensures judged { Judges (limit_of options.now) capture.now result fault.new }
    ensures written { (result ≡ 0) ⊎ (result ≡ 2)
        → (count.new ≡ length (found_quirks (limit_of options.now) capture.now))
        × (quirks.new ≡ found_quirks (limit_of options.now) capture.now ++ drop count.new quirks.old) }
    ensures room { result ≢ 3
        → (result ≡ 4) ↔ (length quirks.old < length (found_quirks (limit_of options.now) capture.now)) }
    ensures wanted { result ≡ 4
        → count.new ≡ min (length (found_quirks (limit_of options.now) capture.now)) (2 ^ 64 - 1) }
    ensures kept { (result ≡ 3) ⊎ (result ≡ 4) → quirks.new ≡ quirks.old }
    ensures kept_count { result ≡ 3 → count.new ≡ count.old }
    ensures kept_fault { KeepsFault result fault.old fault.new }
    ensures wrong { result ≡ 3 → AreInvalid options.now }
    ensures valid { result ≢ 3 → AreValid options.now }
    ensures status { (result ≡ 0) ⊎ ((2 ≤ result) × (result ≤ 4)) }
{
    let Some(limit) = read_limit(options) else {
        return WRONG;
    };
    let (found, first) = count_quirks(capture, limit);
    *count = found;
    if found > quirks.len() as u64 {
        return NO_ROOM;
    }
    write_quirks(capture, limit, quirks);
    match first {
        Some(found) => {
            *fault = of_one(found);
            FAULT
        }
        None => OK,
    }
}
