//! Laws of the definitions. No function here makes a call.
#![tactic(auto, using(crate::proofs::Together::laws))]

ghost use Rattle.link_capture_quirks.specs.QuirkLaws.{ListsUnfoldByAttributes, QuirksUnfoldByFrames, WrittenAttributesHaveNone};
ghost use Rattle.link_capture_quirks.specs.TextLaws.{TextsHaveNoQuirk};

/// The quirks of a list are those of its first attribute, of the list inside that, and of the rest.
pub fn lists_unfold_by_attributes()
    ensures { ListsUnfoldByAttributes }
{}

/// The quirks of a capture are those of its first frame, and of the bytes after it. From a faulty
/// frame on there are none.
pub fn quirks_unfold_by_frames()
    ensures { QuirksUnfoldByFrames }
{}

/// An accepted attribute of a link, of the data of a kind of link, of the settings of IPv4, of
/// programs or of virtual functions, as its row writes it, has no quirk itself, and neither has a
/// link's header, as it is written. The text of a pair's data has no attribute after the first one.
/// This law isn't about lists inside lists, nor about whole texts.
pub fn written_attributes_have_none()
    ensures { WrittenAttributesHaveNone }
{}

/// The texts of any bytes, under a limit of 32 bits, have no quirk: not in an attribute of a link,
/// at any depth of its lists, nor inside a judged peer, nor in a header. So a normal text has none.
pub fn texts_have_no_quirk()
    ensures { TextsHaveNoQuirk }
{}
