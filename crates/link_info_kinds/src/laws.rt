//! Laws of the definitions. No function here makes a call.

ghost use Rattle.link_info_kinds.specs.Laws.{NamesDetermineKinds, NamesDeterminePortKinds};

/// Two kinds with one name are the same variant, or both `Other`, unless one is an `Other` with a
/// listed name. So `from_name` of a kind's display returns that kind.
pub fn names_determine_kinds()
    ensures { NamesDetermineKinds }
{}

/// Two port kinds with one name are the same variant, or both `Other`, unless one is an `Other`
/// with a listed name.
pub fn names_determine_port_kinds()
    ensures { NamesDeterminePortKinds }
{}
