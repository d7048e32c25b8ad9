//! Laws of the definitions. No function here calls anything.
#![tactic(auto, using(crate::proofs::Steps::whole, crate::proofs::Steps::stopped, crate::proofs::ClearedCaptures::cleared))]

ghost use Rattle.link_capture_numbers.specs.Laws.{NumbersAreClearedByFrames, ClearedCapturesHaveClearedTexts};

/// Numbers are cleared frame by frame: those of the first frame, and then those of the bytes after
/// it and its padding. Bytes that don't begin with a whole frame are unchanged.
pub fn numbers_are_cleared_by_frames()
    ensures { NumbersAreClearedByFrames }
{}

/// A capture with its numbers cleared has the first fault of the capture, so it is legal if and
/// only if the capture is. Its texts are those of the capture, with their numbers cleared.
pub fn cleared_captures_have_cleared_texts()
    ensures { ClearedCapturesHaveClearedTexts }
{}
