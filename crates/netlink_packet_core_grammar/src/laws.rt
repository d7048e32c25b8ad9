//! Laws of the definitions. No function here makes a call.
#![tactic(auto, using(crate::proofs::Together::laws))]

ghost use Rattle.netlink_packet_core_grammar.specs.Laws.{SplittingIsUnique, SplittingIsTheRelation, JoinedListsAreSplit, EncodingsAreSplit};
ghost use Rattle.netlink_packet_core_grammar.specs.Laws.{FirstIsViewed, FirstIsWithin, WrittenIsFirst, NumbersAreIndependent};

/// A byte string is a list of attributes in at most one way.
pub fn attributes_are_split_in_one_way()
    ensures { SplittingIsUnique }
{}

/// The function that cuts bytes into attributes computes the relation.
pub fn attributes_are_the_relation()
    ensures { SplittingIsTheRelation }
{}

/// Bytes after a list whose size is a multiple of 4 are cut into attributes independently of it.
pub fn lists_are_joined()
    ensures { JoinedListsAreSplit }
{}

/// The encoding of attributes is cut into the same attributes, and its length is their size.
pub fn encodings_are_split()
    ensures { EncodingsAreSplit }
{}

/// The first attribute of a byte string is the one that a view of it shows, and the rest is what
/// follows its padding. Bytes that don't begin with a whole attribute have no first attribute.
pub fn first_attributes_are_viewed()
    ensures { FirstIsViewed }
{}

/// The first attribute ends within the bytes; the bytes after it are those that remain after its
/// padding.
pub fn first_attributes_are_within()
    ensures { FirstIsWithin }
{}

/// If an attribute's encoding is followed by other bytes, the attribute is the first one, and these
/// bytes are the rest.
pub fn written_attributes_come_first()
    ensures { WrittenIsFirst }
{}

/// A number at the start of a byte string doesn't depend on the bytes that follow it.
pub fn numbers_are_independent()
    ensures { NumbersAreIndependent }
{}
