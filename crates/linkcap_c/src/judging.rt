//! One capture judged and measured.

ghost use Rattle.std.specs.Prelude.{◌≡◌, ◌≢◌, ◌+◌, ◌*◌, ◌^◌, ◌⊎◌, length};
ghost use Rattle.link_capture_grammar.specs.Captures.{texts};
ghost use Rattle.link_capture_grammar.specs.Numbers.{attribute_count, frame_count};
ghost use Rattle.linkcap_c.specs.Options.{AreInvalid, AreValid, limit_of};
ghost use Rattle.linkcap_c.specs.Statuses.{Judges, KeepsFault};
ghost use Rattle.link_capture_grammar.specs.Body.{link_body};

use crate::findings::{LinkcapFinding, of_one};
use crate::options::{LinkcapOptions, read_limit};
use crate::statuses::{FAULT, OK, WRONG};
use link_capture_checks::measure;

/// The sizes of a legal capture.
#[repr(C)]
#[derive(Drop)]
pub struct LinkcapSizes {
    /// Its frames.
    pub frames: u64,
    /// The attribute headers in the bodies of its link messages, at all depths.
    pub attributes: u64,
    /// The length of its normal text in bytes, but for multiples of 2^64.
    pub text_low: u64,
    /// How many multiples of 2^64 there are.
    pub text_high: u64,
}

/// Whether a capture is legal under a limit on the bytes of a message and of its text, and its sizes; or its first
/// fault. Allocates nothing.
#[unsafe(no_mangle)]
pub extern "C" fn linkcap_check(
    capture: &[u8],
    options: &LinkcapOptions<'_>,
    sizes: &mut LinkcapSizes,
    fault: &mut LinkcapFinding,
) -> u32
    ensures judged { Judges (limit_of options.now) capture.now result fault.new }
    ensures frames { result ≡ 0 → sizes.new.frames ≡ frame_count link_body (limit_of options.now) capture.now }
    ensures attributes { result ≡ 0 → sizes.new.attributes ≡ attribute_count link_body (limit_of options.now) capture.now }
    ensures text { result ≡ 0 → sizes.new.text_low + 2 ^ 64 * sizes.new.text_high
        ≡ length (texts link_body (limit_of options.now) capture.now) }
    ensures unmeasured { result ≢ 0 → sizes.new ≡ sizes.old }
    ensures kept { KeepsFault result fault.old fault.new }
    ensures wrong { result ≡ 3 → AreInvalid options.now }
    ensures valid { result ≢ 3 → AreValid options.now }
    ensures status { (result ≡ 0) ⊎ (result ≡ 2) ⊎ (result ≡ 3) }
{
    let Some(limit) = read_limit(options) else {
        return WRONG;
    };
    match measure(capture, limit) {
        Ok(found) => {
            *sizes = LinkcapSizes {
                frames: found.frames,
                attributes: found.attributes,
                text_low: (found.text_len & u64::MAX as u128) as u64,
                text_high: (found.text_len >> 64) as u64,
            };
            OK
        }
        Err(found) => {
            *fault = of_one(found);
            FAULT
        }
    }
}
