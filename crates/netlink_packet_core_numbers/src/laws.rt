//! Laws of the definitions. No function here makes a call.

ghost use Rattle.netlink_packet_core_numbers.specs.Laws.{NumbersAreDetermined, NumbersHaveSizes};

/// The bytes of a number determine it, in either byte order and at each size.
pub fn numbers_are_determined_by_their_bytes()
    ensures { NumbersAreDetermined }
{}

/// A number is written as 2, 4, 8 or 16 bytes, by its type.
#[tactic(auto, using(netlink_packet_core_grammar::proofs::Sizes::sizes))]
pub fn numbers_have_sizes()
    ensures { NumbersHaveSizes }
{}
