//! The arguments and the exit statuses of the program linkcap.

ghost use Rattle.std.specs.Prelude.{◌≡◌, ℕ, [], map, IfSome, IfNone, string_bytes};
ghost use Rattle.std.specs.Str.Parse.{digits_value};
ghost use Rattle.link_capture_commands.specs.Commands.{IsLimitArgument, AsksForLimit, AsksForCommand, LimitIsAtLeast16};
ghost use Rattle.link_capture_commands.specs.Commands.{status_of_norm, status_of_same};

use link_capture_checks::SideFault;
use link_capture_grammar::fault::CaptureFault;

/// The limit if no argument is one: 1 MiB.
pub const DEFAULT_LIMIT: u32 = 1048576;

/// A command of the program.
#[derive(Clone, Copy, Debug, PartialEq, Eq, Drop)]
pub enum Command<'a> {
    /// Write the normal text of standard input to standard output, if no message is longer than
    /// `limit` bytes.
    Norm {
        limit: u32,
    },
    /// Report whether the captures in two files, which have these names, mean the same, under that
    /// limit.
    Same {
        first: &'a str,
        second: &'a str,
        limit: u32,
    },
}

/// Returns the limit that an argument writes: digits of a number from 16 to 4294967295, without a
/// sign. Returns None for any other argument.
pub fn read_limit(argument: &str) -> Option<u32>
    ensures some { IfSome result (λ n. IsLimitArgument argument.now × (n ≡ digits_value 10 argument.now)) }
    ensures none { IfNone result (IsLimitArgument argument.now → ⊥) }
{
    let bytes = argument.as_bytes();
    if !bytes.is_empty() && bytes[0] == b'+' {
        return None;
    }
    match argument.parse::<u32>() {
        Ok(limit) if limit >= 16 => Some(limit),
        _ => None,
    }
}

/// Returns the limit in the last arguments: the only one, or `DEFAULT_LIMIT` if there is none.
fn read_last(arguments: &[String]) -> Option<u32>
    ensures some { IfSome result (λ n. AsksForLimit (map string_bytes arguments.now) n) }
    ensures none { IfNone result ((n : ℕ) → AsksForLimit (map string_bytes arguments.now) n → ⊥) }
{
    match arguments {
        [] => Some(DEFAULT_LIMIT),
        [limit] => read_limit(limit.as_str()),
        _ => None,
    }
}

/// Returns the command in the arguments after the program's name: `norm`, or `same` and the names
/// of two files, followed by a limit or nothing. Returns None for any other arguments. Allocates
/// nothing.
pub fn read_words(arguments: &[String]) -> Option<Command<'_>>
    ensures some { IfSome result (λ command. AsksForCommand (map string_bytes arguments.now) command) }
    ensures limit { IfSome result (λ command. LimitIsAtLeast16 command) }
    // The limit if no argument is one.
    ensures default { AsksForLimit [] DEFAULT_LIMIT }
    ensures none { IfNone result ((command : Command)
        → AsksForCommand (map string_bytes arguments.now) command → ⊥) }
{
    match arguments {
        [norm, last @ ..] if norm.as_str() == "norm" => Some(Command::Norm {
            limit: read_last(last)?,
        }),
        [same, first, second, last @ ..] if same.as_str() == "same" => Some(Command::Same {
            first: first.as_str(),
            second: second.as_str(),
            limit: read_last(last)?,
        }),
        _ => None,
    }
}

/// Returns the exit status after a run of `norm`: 0 if it succeeded, 2 after a fault.
pub fn status_norm(outcome: &Result<(), CaptureFault>) -> u8
    ensures { result ≡ status_of_norm outcome.now }
{
    match outcome {
        Ok(()) => 0,
        Err(_) => 2,
    }
}

/// Returns the exit status after a run of `same`: 0 if the captures mean the same, 1 if they don't,
/// 2 after a fault.
pub fn status_same(outcome: &Result<bool, SideFault>) -> u8
    ensures { result ≡ status_of_same outcome.now }
{
    match outcome {
        Ok(true) => 0,
        Ok(false) => 1,
        Err(_) => 2,
    }
}
