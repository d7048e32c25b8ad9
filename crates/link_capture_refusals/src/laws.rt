//! Laws of the definitions. No function here makes a call.
#![tactic(auto, using(crate::proofs::Together::laws))]

ghost use Rattle.link_capture_refusals.specs.RefusalLaws.{LinksAreAccepted, ListsAreAccepted, ListsUnfoldByAttributes};
ghost use Rattle.link_capture_refusals.specs.RefusalLaws.{RefusedBodiesHaveRefusals, RefusedFramesAreWhole, RefusalsAreIndependent};

/// The refusal of a list is that of its first attribute, or else that of the attributes after it.
pub fn lists_unfold_by_attributes()
    ensures { ListsUnfoldByAttributes }
{}

/// A list has no refusal if and only if the rule of its table accepts it.
pub fn lists_are_accepted()
    ensures { ListsAreAccepted }
{}

/// A link has no refusal if and only if its rule accepts it.
pub fn links_are_accepted()
    ensures { LinksAreAccepted }
{}

/// If the first fault of a capture is a refused body, the frame at its offset is whole.
pub fn refused_frames_are_whole()
    ensures { RefusedFramesAreWhole }
{}

/// A capture has a refusal if and only if its first fault is a refused body. For a link the refusal
/// has an offset, from the start of the faulty frame to its end, which is included; for other
/// messages it has none.
pub fn refused_bodies_have_refusals()
    ensures { RefusedBodiesHaveRefusals }
{}

/// The refusal of a frame depends only on the frame's bytes, whatever follows.
pub fn refusals_are_independent()
    ensures { RefusalsAreIndependent }
{}
