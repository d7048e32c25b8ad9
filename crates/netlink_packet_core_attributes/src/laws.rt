//! Laws of the definitions. No function here makes a call.
#![tactic(auto, using(crate::proofs::Together::laws))]

ghost use Rattle.netlink_packet_core_attributes.specs.Laws.{WalkIsTheRelation, ListsAreWalked, OthersEndInAFault};
ghost use Rattle.netlink_packet_core_attributes.specs.Laws.{TextsAreWalked, TextsAreReadBack, WalksAreShort};
ghost use Rattle.netlink_packet_core_attributes.specs.Laws.{TypedRowsWriteTheKind, WalksUnfold};

/// The function that defines the walk computes the relation.
pub fn walks_are_the_relation()
    ensures { WalkIsTheRelation }
{}

/// The walk over a list has no fault, and yields the list's attributes.
pub fn lists_are_walked()
    ensures { ListsAreWalked }
{}

/// The walk over bytes that are no list ends with one fault.
pub fn others_end_in_a_fault()
    ensures { OthersEndInAFault }
{}

/// The walk over a written list yields its attributes, and continues with the bytes after it.
pub fn texts_are_walked()
    ensures { TextsAreWalked }
{}

/// A written attribute is read back with its kind and payload.
pub fn texts_are_read_back()
    ensures { TextsAreReadBack }
{}

/// A walk yields at most one item for every 4 bytes begun.
pub fn walks_are_short()
    ensures { WalksAreShort }
{}

/// Each step of a walk depends only on the remaining bytes: without bytes it ends; if they begin
/// with a whole attribute, it yields a view of it and continues after it; otherwise it yields a
/// fault and ends.
pub fn walks_unfold()
    ensures { WalksUnfold }
{}

/// A typed row writes an attribute with the kind without flags, whatever flags it has.
#[tactic(auto, using(crate::proofs::Families::families))]
pub fn typed_rows_write_the_kind()
    ensures { TypedRowsWriteTheKind }
{}
