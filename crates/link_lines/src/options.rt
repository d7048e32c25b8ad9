//! The choice of what is shown of a capture.

ghost use Rattle.std.specs.Prelude.{◌≡◌, IsTrue};
ghost use Rattle.link_lines_texts.specs.Captures.{everything, is_among, is_chosen};
ghost use Rattle.link_lines.specs.MessageLines.{SelectsAllLines, choice_of, is_about_given};
ghost use Rattle.link_lines.specs.MessageLaws.{plain};
ghost use Rattle.link_lines.specs.Options.{selection_of};

use crate::about::is_about;
use crate::types::Types;
use link_lines_parts::Without;

/// What is shown of a capture; by default everything up to its first fault.
#[derive(Clone, Debug, PartialEq, Eq, Drop)]
pub struct ShowOptions<'a> {
    /// Whether sequence numbers and netlink port IDs are left out: those of messages, and of the
    /// request's header that an NLMSG_ERROR repeats after its code (netlink.h, `struct nlmsghdr`,
    /// `struct nlmsgerr`). They also are if they are among what `without` leaves out.
    pub without_numbers: bool,
    /// The types of the messages that are shown (netlink.h, rtnetlink.h); None shows all.
    pub only: Option<Types>,
    /// The name or the index of the link that messages have to be about; None shows those about any.
    pub link: Option<&'a [u8]>,
    /// What is left out of lines.
    pub without: Without,
    /// Whether each message's first line ends with its offset in the capture, in bytes.
    pub offsets: bool,
    /// Whether messages with a fault of their body are shown too, and those after them.
    pub keep_going: bool,
    /// Whether each message's lines become an object of JSON in a line of its own.
    pub json: bool,
}

impl Default for ShowOptions<'_> {
    ghost is_default = { λ o. selection_of o ≡ plain everything };

    fn default() -> Self {
        ShowOptions {
            without_numbers: false,
            only: None,
            link: None,
            without: Without::nothing(),
            offsets: false,
            keep_going: false,
            json: false,
        }
    }
}

/// Returns whether a type is one of these.
fn is_among(types: &[u16], message_type: u16) -> bool
    ensures { result ≡ is_among types.now message_type }
{
    let mut left = types;
    'types: while let [first, rest @ ..] = left {
        if *first == message_type {
            return true;
        }
        left = rest;
    }
    false
}

impl ShowOptions<'_> {
    /// Returns whether messages of a type are shown.
    pub fn shows(&self, message_type: u16) -> bool
        ensures { result ≡ is_chosen (selection_of self.now).only message_type }
    {
        match &self.only {
            Some(types) => is_among(types.as_slice(), message_type),
            None => true,
        }
    }

    /// Returns whether sequence numbers and netlink port IDs are shown.
    pub fn shows_numbers(&self) -> bool
        ensures { result ≡ (choice_of (selection_of self.now)).numbers }
    {
        !self.without.numbers && !self.without_numbers
    }

    /// Returns whether messages are shown with all their lines, whatever link they are about.
    pub(crate) fn selects_all(&self) -> bool
        ensures { IsTrue result → SelectsAllLines (selection_of self.now) }
    {
        self.link.is_none() && self.without.keeps_lines()
    }

    /// Returns whether a message's lines are about the link, if one is given.
    pub(crate) fn is_about_link(&self, lines: &[u8]) -> bool
        ensures { result ≡ is_about_given (selection_of self.now).link lines.now }
    {
        match self.link {
            Some(link) => is_about(lines, link),
            None => true,
        }
    }
}
