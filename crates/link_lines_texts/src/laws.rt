//! Laws of the definitions: each function has an empty body, and its contract holds for all values.
#![tactic(auto, using(crate::proofs::Together::laws))]

ghost use Rattle.link_lines_texts.specs.Laws.{AcceptedFramesHaveLines, LinesAreJoined, LinesAreShort, LinesUnfoldByFrames};
ghost use Rattle.link_lines_texts.specs.Laws.{LinesDetermineMeanings, LinesDetermineTexts};
ghost use Rattle.link_lines_texts.specs.Laws.{LinesWithoutNumbersDetermineClearedTexts};
ghost use Rattle.link_lines_texts.specs.Laws.{ListsUnfoldByAttributes, RowsAreDetermined};
ghost use Rattle.link_lines_texts.specs.Determination.{AcceptedFramesAreCanonical, FramesAreDetermined};
ghost use Rattle.link_lines_texts.specs.Determination.{ListsAreDetermined, ShapesAreDetermined};

/// The lines of a list are determined attribute by attribute.
pub fn lists_unfold_by_attributes()
    ensures { ListsUnfoldByAttributes }
{}

/// Bytes that begin with a whole frame have that frame's lines, followed by those of what comes
/// after its padding; other bytes have none.
pub fn lines_unfold_by_frames()
    ensures { LinesUnfoldByFrames }
{}

/// What follows the texts of some frames is shown independently of them.
pub fn lines_are_joined()
    ensures { LinesAreJoined }
{}

/// A capture has lines if and only if its first frame is accepted.
pub fn accepted_frames_have_lines()
    ensures { AcceptedFramesHaveLines }
{}

/// Each row of the tables of link messages, and of every nested table, has a name and a format that
/// determines the row's payload; each name is that of a row; no two names of a table are equal, and
/// none is that of a raw attribute of another kind.
pub fn rows_are_determined()
    ensures { RowsAreDetermined }
{}

/// Two canonical payloads of a shape are equal if a format that determines the shape shows them
/// alike.
pub fn shapes_are_determined()
    ensures { ShapesAreDetermined }
{}

/// Two canonical lists of a link's attributes are equal if their lines are.
pub fn lists_are_determined()
    ensures { ListsAreDetermined }
{}

/// Two frames with canonical bodies are equal except for their length if their lines are.
pub fn frames_are_determined()
    ensures { FramesAreDetermined }
{}

/// The text of an accepted frame is shown as a frame whose body is canonical.
pub fn accepted_frames_are_canonical()
    ensures { AcceptedFramesAreCanonical }
{}

/// Two captures have the same lines if and only if they have the same texts; for legal captures, if
/// and only if their normal texts are equal.
pub fn lines_determine_texts()
    ensures { LinesDetermineTexts }
{}

/// Two captures have the same lines without numbers if and only if their texts, with the numbers
/// cleared, are equal.
pub fn lines_without_numbers_determine_cleared_texts()
    ensures { LinesWithoutNumbersDetermineClearedTexts }
{}

/// Two legal captures have the same lines if and only if they mean the same.
pub fn lines_determine_meanings()
    ensures { LinesDetermineMeanings }
{}

/// The lines of a normal text are at most 46 times as long as the text.
pub fn lines_are_short()
    ensures { LinesAreShort }
{}
