//! A fault, and the reason of a refused body.

ghost use Rattle.std.specs.Prelude.{◌≡◌, Some};
ghost use Rattle.std.specs.Fmt.{WritesOnOk, WritesStyledOnOk};
ghost use Rattle.link_lines.specs.Refused.{fault_message, without_refusal};

use link_capture_grammar::fault::CaptureFault;
use link_capture_refusals::Refusal;
use std::fmt;

/// The reason why a capture isn't shown to its end.
#[derive(Clone, Debug, PartialEq, Eq, Drop)]
pub struct ShowFault {
    /// The fault and its offset.
    pub fault: CaptureFault,
    /// What `why` returns for a refused body: None for any other fault, or if the message ends 2^63
    /// bytes or more after the capture's start.
    pub refusal: Option<Refusal>,
}

impl From<CaptureFault> for ShowFault {
    ghost from_gives = { λ fault e. e ≡ without_refusal fault };

    fn from(fault: CaptureFault) -> ShowFault {
        ShowFault {
            fault,
            refusal: None,
        }
    }
}

// Options of a format change nothing: the text is always the same.
impl fmt::Display for ShowFault {
    ghost output = { λ e. Some (fault_message e) };

    ghost styled_output = { λ e _. Some (fault_message e) };

    fn fmt<W: fmt::Write>(&self, f: &mut fmt::Formatter<W>) -> fmt::Result {
        f.write_str(self.fault.text().as_str())?;
        match &self.refusal {
            Some(refusal) => {
                f.write_str(": ")?;
                fmt::Display::fmt(refusal, f)
            }
            None => Ok(()),
        }
    }
}
