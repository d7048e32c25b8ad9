//! Laws of the definitions, under the rule of link bodies in force. No function here calls
//! anything.
#![tactic(auto, using(crate::proofs::EveryRule::laws))]

ghost use Rattle.link_message_grammar.specs.Body.{link_body};
ghost use Rattle.link_capture_grammar.specs.Laws.{CaptureLawsHoldUnderEveryRule};
ghost use Rattle.link_capture_grammar.specs.Laws.{TextsAreLegal, TextsAreCanonical, JoinedFaults, JoinedLegal};
ghost use Rattle.link_capture_grammar.specs.Laws.{JoinedTexts, PrefixFaults, PrefixTexts, TextsAreSmall, FaultsAreAtFrames};
ghost use Rattle.link_capture_grammar.specs.Laws.{BodyTextsAreCanonical, TextsMeanTheSame, SameAreLegal};
ghost use Rattle.link_capture_grammar.specs.Laws.{FramesAreIndependent, CapturesUnfoldByFrames};
ghost use Rattle.link_capture_grammar.specs.Laws.{FramesAreJudged, CapturesAreCounted, TextsKeepFrames, PaddingIsIgnored};
ghost use Rattle.link_capture_grammar.specs.Laws.{SmallFramesFit, UnlistedAttributesAreKept, OldCapturesAreMigrated};
ghost use Rattle.link_capture_grammar.specs.Laws.{BodyTextsDetermineMeanings, TextsDetermineMeanings, SamenessUnfoldsByFrames};

/// The texts of any bytes are legal under the same limit.
pub fn texts_are_legal()
    ensures { TextsAreLegal link_body }
{}

/// The texts of any bytes are already canonical: normalising them again changes nothing.
pub fn texts_are_canonical()
    ensures { TextsAreCanonical link_body }
{}

/// Let a capture be legal, with a size that is a multiple of 4. The first fault of that capture
/// followed by another is the first fault of the other, its offset increased by the size of the
/// first.
pub fn joined_captures_have_the_faults_of_the_second()
    ensures { JoinedFaults link_body }
{}

/// Let a capture be legal, with a size that is a multiple of 4. That capture followed by another is
/// legal if and only if the other is.
pub fn joined_captures_are_legal()
    ensures { JoinedLegal link_body }
{}

/// The texts of two joined captures, of which the first is legal and has a size that is a multiple
/// of 4, are their texts joined.
pub fn joined_captures_have_joined_texts()
    ensures { JoinedTexts link_body }
{}

/// A first fault of a prefix, other than a cut frame, is that of the whole.
pub fn faults_of_a_prefix_stay()
    ensures { PrefixFaults link_body }
{}

/// The texts of a prefix are a prefix of the texts of the whole.
pub fn texts_of_a_prefix_stay()
    ensures { PrefixTexts link_body }
{}

/// Texts are at most 77 times as long as the capture.
pub fn texts_are_small()
    ensures { TextsAreSmall link_body }
{}

/// A first fault is inside the capture, at a multiple of 4, and is of a kind that a frame can have.
pub fn faults_are_at_frames()
    ensures { FaultsAreAtFrames link_body }
{}

/// The text of a body is already canonical.
pub fn body_texts_are_canonical()
    ensures { BodyTextsAreCanonical link_body }
{}

/// If a capture is legal under the rule that kept peers as bytes and under the rule in force, its
/// text under the old rule is legal under the rule in force, and the normal text of that is the
/// normal text of the capture. The same holds for any two rules of link bodies of which one
/// migrates the other.
pub fn old_captures_are_migrated()
    ensures { OldCapturesAreMigrated }
{}

/// A legal capture and its normal text mean the same.
pub fn texts_mean_the_same()
    ensures { TextsMeanTheSame link_body }
{}

/// Captures that mean the same are legal.
pub fn same_captures_are_legal()
    ensures { SameAreLegal link_body }
{}

/// Captures mean the same if and only if they are legal and their normal texts are equal. So
/// equivalence is reflexive on legal captures, symmetric and transitive.
pub fn texts_determine_meanings()
    ensures { TextsDetermineMeanings link_body }
{}

/// Two bodies of messages of one type that have texts mean the same if and only if these texts are
/// equal.
pub fn body_texts_determine_meanings()
    ensures { BodyTextsDetermineMeanings link_body }
{}

/// The text of a legal frame keeps its type, flags, sequence number and port number. It keeps its
/// length and its body too, except for a NOOP, a DONE without a code, and messages of links, whose
/// bodies are written by their rule.
pub fn texts_keep_frames()
    ensures { TextsKeepFrames link_body }
{}

/// Under every lawful rule of peers, a frame of at most 883 bytes is never refused because of the
/// lengths in its text, if the limit is at least 65559: each length inside its text fits, and the
/// text is within the limit.
pub fn small_frames_fit()
    ensures { SmallFramesFit }
{}

/// An attribute that no table lists is kept with its kind, flag bits and payload, at any depth: if
/// a list keeps it, or keeps a list or a judged peer that has it inside, then it is in the text of
/// the list, and in the text of a link's frame. This holds under every lawful rule of peers.
pub fn unlisted_attributes_are_kept()
    ensures { UnlistedAttributesAreKept }
{}

/// The result for a frame depends only on the frame's bytes: if a frame isn't cut, appended bytes
/// don't change its result; a cut frame has fewer bytes than a header, or than the length in its
/// header.
pub fn frames_are_independent()
    ensures { FramesAreIndependent link_body }
{}

/// A capture is judged and written frame by frame: the bytes up to the end of the whole frames are
/// legal and have these texts, whatever follows, and the bytes after them are judged independently.
pub fn captures_unfold_by_frames()
    ensures { CapturesUnfoldByFrames link_body }
{}

/// The first frame is judged by its header, then by its body, then by the size of its text, which
/// is the sum of the sizes of the header, the body's text and the padding.
pub fn frames_are_judged()
    ensures { FramesAreJudged link_body }
{}

/// Frames, attributes and texts of a capture are counted frame by frame. Four times the number of
/// attributes is at most the length of the capture.
pub fn captures_are_counted()
    ensures { CapturesAreCounted link_body }
{}

/// The padding after an accepted frame changes no result: whatever its bytes are, and if some is
/// missing at the end, the frame is the same, and so are the first fault, the texts, and the
/// numbers of frames and attributes.
pub fn padding_is_ignored()
    ensures { PaddingIsIgnored link_body }
{}

/// Equivalence of captures is decided frame by frame: two captures that aren't empty mean the same
/// if and only if their first frames are legal and mean the same, and the bytes after these mean
/// the same; an empty capture means the same as an empty one only. Two frames with equal bytes mean
/// the same if one is legal.
pub fn sameness_unfolds_by_frames()
    ensures { SamenessUnfoldsByFrames link_body }
{}

/// All these laws hold under every lawful rule of link bodies. `sameness_unfolds_by_frames` also needs
/// a rule that accepts nothing without a header; the laws of unlisted attributes and small frames
/// are about tables, and hold under every lawful rule of peers; the law of old captures is about
/// two rules.
pub fn capture_laws_hold_under_every_rule()
    ensures { CaptureLawsHoldUnderEveryRule }
{}
