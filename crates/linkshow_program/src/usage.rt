//! Reports of usage errors.

ghost use Rattle.std.specs.Prelude.{◌≡◌};
ghost use Rattle.link_capture_reader.specs.States.{IsReported, sink_state};
ghost use Rattle.linkshow_program.specs.Arguments.{usage_fault};
ghost use Rattle.linkshow_program.specs.Texts.{usage_text};

use super::lines::report_texts;
use crate::arguments::UsageError;
use crate::texts::USAGE;
use link_capture_reader::{Sink, report_text};

/// Reports in one line why arguments are invalid. Returns whether all was written.
pub(crate) fn report_usage<E: Sink>(errors: &mut E, error: UsageError<'_>) -> bool
    ensures { IsReported (sink_state E.holds E.failures errors.old)
        (sink_state E.holds E.failures errors.new) (usage_text (usage_fault error.entry)) result }
{
    match error {
        UsageError::Usage => report_text(errors, USAGE),
        UsageError::InvalidLimit(word) => {
            let text = "linkshow: --limit: not a number from 16 to 4294967295: ";
            report_texts(errors, &[text, word, "\n"])
        }
        UsageError::UnknownType(word) => {
            let text = "linkshow: --only: no type of messages is called ";
            report_texts(errors, &[text, word, "\n"])
        }
        UsageError::UnknownName(word) => {
            let text = "linkshow: --without: no attribute or group is called ";
            report_texts(errors, &[text, word, "\n"])
        }
    }
}
