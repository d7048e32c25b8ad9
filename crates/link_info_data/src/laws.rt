//! Laws of the definitions. No function here makes a call.
#![tactic(auto, using(crate::proofs::Together::laws))]

ghost use Rattle.link_info_data.specs.Laws.{DataWithoutPeersHaveOneRule, NamesDetermineRules, PortDataHaveOneRule, PortNamesDetermineRules};

/// Data under a name in force have the rule of the kind with that name.
pub fn names_determine_rules()
    ensures { NamesDetermineRules }
{}

/// Port data under a name in force have the rule of the port kind with that name.
pub fn port_names_determine_rules()
    ensures { PortNamesDetermineRules }
{}

/// The rule of data of any kind except `netkit`, `veth` and `vxcan` is the same under all rules of
/// peers.
pub fn data_without_peers_have_one_rule()
    ensures { DataWithoutPeersHaveOneRule }
{}

/// The rule of port data is the same under all rules of peers.
pub fn port_data_have_one_rule()
    ensures { PortDataHaveOneRule }
{}
