//! Refusals: the attribute that isn't accepted, its offset and the reason.

ghost use Rattle.std.specs.Prelude.{◌≡◌, ◌<◌, ◌+◌, ◌++◌, length, map, Some};
ghost use Rattle.link_capture_refusals.specs.ReasonTexts.{words};
ghost use Rattle.link_capture_refusals.specs.Refusals.{found_at, named};
ghost use Rattle.link_capture_refusals.specs.RefusalViews.{found};
ghost use Rattle.link_capture_refusals.specs.RefusalTexts.{separator_after_name, path_text, offset_text, refusal_text};
ghost use Rattle.std.specs.Fmt.{WritesOnOk, WritesStyledOnOk};

use crate::reason::Reason;
use arrayvec::{ArrayString, ArrayVec};
use itoa::Buffer;
use std::fmt;

/// How deeply attributes are nested at most: link info, data and peer, the same three of the peer,
/// and an address.
pub const DEPTH: usize = 7;

/// Why a body is refused: the first attribute that isn't accepted, its offset, and the reason.
#[derive(Clone, Debug, PartialEq, Eq, Drop)]
pub struct Refusal {
    /// The names of the attribute and of those around it, outermost first (if_link.h and others).
    pub path: ArrayVec<&'static str, DEPTH>,
    /// The offset at which the attribute begins, or the bytes that are no attribute, in bytes from
    /// the capture's start. NLMSG_ERROR and NLMSG_DONE have none.
    pub offset: Option<u64>,
    pub reason: Reason,
}

impl Refusal {
    /// Returns a refusal outside of all attributes, at an offset.
    pub(crate) fn at(offset: u64, reason: Reason) -> Self
        ensures found { found result ≡ found_at offset reason }
        ensures bare { length result.path.items ≡ 0 }
    {
        Refusal {
            path: ArrayVec::new(),
            offset: Some(offset),
            reason,
        }
    }

    /// Returns the same refusal inside an attribute with a name.
    pub(crate) fn inside(mut self, name: &'static str) -> Self
        requires { length self.path.items < 7 }
        ensures found { found result ≡ named name.entry.now (found self) }
        ensures longer { length result.path.items ≡ length self.path.items + 1 }
    {
        self.path.insert(0, name);
        self
    }

    /// Returns the text after the names: the reason, and the offset if there is one. Allocates
    /// nothing.
    pub fn reason_text(&self) -> ArrayString<256>
        ensures { result.bytes ≡ words self.now.reason ++ offset_text self.now.offset }
    {
        let mut text = ArrayString::new();
        text.push_str(self.reason.text().as_str());
        if let Some(offset) = self.offset {
            text.push_str(" at ");
            text.push_str(Buffer::new().format(offset));
        }
        text
    }
}

/// Returns the separator after a name, before the names of attributes inside it.
pub fn separator_after_name(rest: &[&'static str]) -> &'static str
    ensures { result.now ≡ separator_after_name (map (λ n. n.now) rest.now) }
{
    if rest.is_empty() { ": " } else { " > " }
}

/// Writes the names, outermost first, and a colon if there are any.
fn write_path<W: fmt::Write>(f: &mut fmt::Formatter<W>, path: &[&'static str]) -> fmt::Result
    ensures writes { WritesOnOk W.write_str_gives f.old result (path_text (map (λ n. n.now) path.now)) f.new }
    ensures styled { WritesStyledOnOk W.write_str_gives f.old result (path_text (map (λ n. n.now) path.now)) f.new }
{
    let mut left = path;
    'names: while let [name, rest @ ..] = left {
        f.write_str(name)?;
        f.write_str(separator_after_name(rest))?;
        left = rest;
    }
    Ok(())
}

// Format options change nothing.
impl fmt::Display for Refusal {
    ghost output = { λ r. Some (refusal_text (found r)) };

    ghost styled_output = { λ r _. Some (refusal_text (found r)) };

    fn fmt<W: fmt::Write>(&self, f: &mut fmt::Formatter<W>) -> fmt::Result {
        write_path(f, self.path.as_slice())?;
        f.write_str(self.reason_text().as_str())
    }
}
