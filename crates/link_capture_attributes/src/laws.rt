//! Laws of the definitions. No function here makes a call.
#![tactic(auto, using(crate::proofs::Together::laws))]

ghost use Rattle.link_capture_attributes.specs.AttributeLaws.{AttributesAreApart, AttributesAreWhereTheySay};
ghost use Rattle.link_capture_attributes.specs.AttributeLaws.{ListsUnfoldByAttributes, NextIsFromPayload};

/// The attributes of a list are its first one, those inside it, and those of the rest.
pub fn lists_unfold_by_attributes()
    ensures { ListsUnfoldByAttributes }
{}

/// The attributes of a frame are in the order of their bytes: the header of each is inside the
/// frame, and ends before the next one begins.
pub fn attributes_are_apart()
    ensures { AttributesAreApart }
{}

/// After an attribute of such a list, the next one is the first from the end of its header on.
pub fn next_is_from_payload()
    ensures { NextIsFromPayload }
{}

/// The payload of each attribute of a frame is in the frame, 4 bytes after the attribute's offset.
pub fn attributes_are_where_they_say()
    ensures { AttributesAreWhereTheySay }
{}
