//! Two captures compared, with their sequence numbers and netlink port IDs or without.

ghost use Rattle.std.specs.Prelude.{◌≡◌, ◌≢◌, ◌≤◌, ◌↔◌, ◌⊎◌, true, cond, Some, IfErr, IfOk, OnOk};
ghost use Rattle.link_capture_grammar.specs.Captures.{first_fault, texts, IsLegal};
ghost use Rattle.link_capture_grammar.specs.Same.{SameCapture};
ghost use Rattle.link_capture_numbers.specs.Cleared.{numbers_cleared};
ghost use Rattle.linkcap_c.specs.Apart.{SameButNumbers, compared_by};
ghost use Rattle.linkcap_c.specs.Findings.{ReportsFault};
ghost use Rattle.linkcap_c.specs.Options.{AreInvalid, AreValid, has_flag, limit_of};
ghost use Rattle.linkcap_c.specs.Statuses.{KeepsFault};
ghost use Rattle.link_capture_grammar.specs.Body.{link_body};

use crate::findings::{LinkcapFinding, of_two};
use crate::numbers::same_but_numbers;
use crate::options::{LinkcapOptions, leaves_out_numbers, read_limit};
use crate::statuses::{DIFFERENT, FAULT, OK, WRONG};
use link_capture_checks::{SideFault, check, same};
use link_capture_grammar::laws::texts_determine_meanings;
use link_capture_numbers::laws::cleared_captures_have_cleared_texts;

/// Whether two captures are legal and mean the same after zeroing their sequence numbers and netlink port IDs, those
/// too of the request's header that an NLMSG_ERROR repeats.
fn same_without_numbers(first: &[u8], second: &[u8], limit: u32) -> Result<bool, SideFault>
    ensures legal { OnOk result (IsLegal link_body limit first.now × IsLegal link_body limit second.now) }
    ensures same { IfOk result (λ is_same. (is_same ≡ true) ↔ SameButNumbers limit first.now second.now) }
    ensures texts { IfOk result (λ is_same. (is_same ≡ true)
        ↔ (numbers_cleared (texts link_body limit first.now) ≡ numbers_cleared (texts link_body limit second.now))) }
    ensures fault { IfErr result (λ e. first_fault link_body limit (cond e.second second.now first.now) ≡ Some e.fault) }
    ensures in_turn { IfErr result (λ e. e.second ≡ true → IsLegal link_body limit first.now) }
{
    texts_determine_meanings();
    cleared_captures_have_cleared_texts();
    if let Err(fault) = check(first, limit) {
        return Err(SideFault {
            second: false,
            fault,
        });
    }
    if let Err(fault) = check(second, limit) {
        return Err(SideFault {
            second: true,
            fault,
        });
    }
    Ok(same_but_numbers(first, second, limit))
}

/// Whether two captures are legal and mean the same, with their numbers or without.
fn same_by(
    without_numbers: bool,
    first: &[u8],
    second: &[u8],
    limit: u32,
) -> Result<bool, SideFault>
    ensures legal { OnOk result (IsLegal link_body limit first.now × IsLegal link_body limit second.now) }
    ensures same { IfOk result (λ is_same. (is_same ≡ true)
        ↔ SameCapture link_body limit (compared_by without_numbers first.now) (compared_by without_numbers second.now)) }
    ensures texts { IfOk result (λ is_same. (is_same ≡ true) ↔ (compared_by without_numbers (texts link_body limit first.now)
        ≡ compared_by without_numbers (texts link_body limit second.now))) }
    ensures fault { IfErr result (λ e. first_fault link_body limit (cond e.second second.now first.now) ≡ Some e.fault) }
    ensures in_turn { IfErr result (λ e. e.second ≡ true → IsLegal link_body limit first.now) }
{
    if without_numbers {
        same_without_numbers(first, second, limit)
    } else {
        same(first, second, limit)
    }
}

/// Whether two captures mean the same under a limit, with their sequence numbers and netlink port IDs or after zeroing
/// them; else the first fault of the first one, or of the second if the first is legal. Allocates nothing.
#[unsafe(no_mangle)]
pub extern "C" fn linkcap_same(
    first: &[u8],
    second: &[u8],
    options: &LinkcapOptions<'_>,
    fault: &mut LinkcapFinding,
) -> u32
    ensures legal { (result ≡ 0) ⊎ (result ≡ 1)
        → IsLegal link_body (limit_of options.now) first.now × IsLegal link_body (limit_of options.now) second.now }
    ensures same { result ≡ 0 → SameCapture link_body (limit_of options.now)
        (compared_by (has_flag 1 options.now.flags) first.now) (compared_by (has_flag 1 options.now.flags) second.now) }
    ensures different { result ≡ 1 → SameCapture link_body (limit_of options.now)
        (compared_by (has_flag 1 options.now.flags) first.now)
        (compared_by (has_flag 1 options.now.flags) second.now) → ⊥ }
    ensures texts { (result ≡ 0) ⊎ (result ≡ 1) → (result ≡ 0)
        ↔ (compared_by (has_flag 1 options.now.flags) (texts link_body (limit_of options.now) first.now)
        ≡ compared_by (has_flag 1 options.now.flags) (texts link_body (limit_of options.now) second.now)) }
    ensures first_side { result ≡ 2 → fault.new.side ≡ 1
        → ReportsFault 1 (limit_of options.now) first.now fault.new }
    ensures second_side { result ≡ 2 → fault.new.side ≡ 2
        → IsLegal link_body (limit_of options.now) first.now × ReportsFault 2 (limit_of options.now) second.now fault.new }
    ensures side { result ≡ 2 → (fault.new.side ≡ 1) ⊎ (fault.new.side ≡ 2) }
    ensures kept { KeepsFault result fault.old fault.new }
    ensures wrong { result ≡ 3 → AreInvalid options.now }
    ensures valid { result ≢ 3 → AreValid options.now }
    ensures status { result ≤ 3 }
{
    let Some(limit) = read_limit(options) else {
        return WRONG;
    };
    match same_by(leaves_out_numbers(options), first, second, limit) {
        Ok(true) => OK,
        Ok(false) => DIFFERENT,
        Err(found) => {
            *fault = of_two(found);
            FAULT
        }
    }
}
