//! Laws of the messages of a capture, as they are shown. No function here makes a call.
#![tactic(auto, using(crate::proofs::Together::laws))]

ghost use Rattle.link_lines.specs.MessageLaws.{FirstFaultsAreReported, LinesDetermineContents, LinesDetermineOffsets};
ghost use Rattle.link_lines.specs.MessageLaws.{LinesOfMessagesAreOfTexts, MessagesUnfold, NothingOmittedKeepsAll};
ghost use Rattle.link_lines.specs.Meanings.{LinesDependOnMeaning};
ghost use Rattle.link_lines.specs.Pieces.{PiecesAreJoined};

/// The messages of a capture are determined one by one.
pub fn messages_unfold()
    ensures { MessagesUnfold }
{}

/// The messages of a capture in pieces, and their lines, are those of the whole.
pub fn pieces_are_joined()
    ensures { PiecesAreJoined }
{}

/// The first fault of the messages that are shown is that of the capture.
pub fn first_faults_are_reported()
    ensures { FirstFaultsAreReported }
{}

/// All lines remain if nothing is left out but numbers.
pub fn nothing_omitted_keeps_all()
    ensures { NothingOmittedKeepsAll }
{}

/// A capture of which all is shown up to its first fault has the lines of its texts.
pub fn lines_of_messages_are_of_texts()
    ensures { LinesOfMessagesAreOfTexts }
{}

/// The lines of a capture up to its first fault depend only on its meaning: a capture has the lines of
/// its texts, and of any capture that means the same; and what follows a legal one, whose size is a
/// multiple of 4, is shown independently of it.
pub fn lines_depend_on_meaning()
    ensures { LinesDependOnMeaning }
{}

/// Two captures of which all messages are shown, also those with a fault of their body, have the
/// same lines if and only if their messages have the same contents.
pub fn lines_determine_contents()
    ensures { LinesDetermineContents }
{}

/// Two captures of fewer than 2^64 bytes of which all messages are shown, each with its offset,
/// have the same lines if and only if their messages have the same contents at the same offsets.
pub fn lines_determine_offsets()
    ensures { LinesDetermineOffsets }
{}
