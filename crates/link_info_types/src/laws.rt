//! Laws of the constants. No function here makes a call.

ghost use Rattle.link_info_types.specs.Laws.{ConstantsAreNamed};
ghost use Rattle.link_info_types.specs.TunnelLaws.{TunnelConstantsAreNamed};

/// The constant of each flag has the bits of its name, and the alias of a netkit policy is that
/// policy.
pub fn constants_are_named()
    ensures { ConstantsAreNamed }
{}

/// The constant of each flag has the bits of its name.
pub fn tunnel_constants_are_named()
    ensures { TunnelConstantsAreNamed }
{}
