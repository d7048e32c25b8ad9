//! Link info: a list in which the kind's name determines the data, and the port kind's name the
//! port data (if_link.h, IFLA_INFO_*).

ghost use Rattle.std.specs.Prelude.{◌≡◌, IfSome, IfNone};
ghost use Rattle.attribute_tables_grammar.specs.Peers.{RuleOfPeers};
ghost use Rattle.attribute_tables_grammar.specs.Rules.{shape_rule};
ghost use Rattle.attribute_tables_grammar.specs.Shapes.{never};
ghost use Rattle.attribute_tables_grammar.specs.Tables.{info_next};
ghost use Rattle.link_info_grammar.specs.LinkInfo.{link_info_row};
ghost use Rattle.link_tables.specs.InForce.{held_in_force, in_force};
ghost use Rattle.link_tables.specs.Tables.{held_rule};

use crate::kinds::{data_held, port_held};
use crate::rows::{Held, Shape};
use attribute_tables_grammar::laws::names_are_looked_up;
use netlink_packet_core_numbers::without_nul;

/// `IFLA_INFO_KIND`: the kind of the link.
pub const IFLA_INFO_KIND: u16 = 1;

/// `IFLA_INFO_DATA`: data of that kind.
pub const IFLA_INFO_DATA: u16 = 2;

/// `IFLA_INFO_XSTATS`: statistics of that kind.
pub const IFLA_INFO_XSTATS: u16 = 3;

/// `IFLA_INFO_SLAVE_KIND`: the kind of the port.
pub const IFLA_INFO_SLAVE_KIND: u16 = 4;

/// `IFLA_INFO_SLAVE_DATA`: data of that port kind.
pub const IFLA_INFO_SLAVE_DATA: u16 = 5;

/// The kind and the port kind in force.
#[derive(Clone, Copy)]
pub struct InForce<'a> {
    pub kind: Option<&'a [u8]>,
    pub port_kind: Option<&'a [u8]>,
}

/// Before the first attribute no kind is in force.
pub const NO_KINDS: InForce<'static> = InForce {
    kind: None,
    port_kind: None,
};

/// Returns the kinds in force after an attribute of link info, whose kind has no flag bits. A kind
/// is in force up to the next one, a port kind up to its port data.
pub fn next_force<'a>(force: InForce<'a>, kind: u16, payload: &'a [u8]) -> InForce<'a>
    ensures { in_force result ≡ info_next (in_force force.entry) kind payload.now }
{
    match kind {
        IFLA_INFO_KIND => InForce {
            kind: Some(without_nul(payload)),
            port_kind: force.port_kind,
        },
        IFLA_INFO_SLAVE_KIND => InForce {
            kind: force.kind,
            port_kind: Some(without_nul(payload)),
        },
        IFLA_INFO_SLAVE_DATA => InForce {
            kind: force.kind,
            port_kind: None,
        },
        _ => force,
    }
}

/// Returns the payload of an attribute of link info, whose kind has no flag bits; `None` if it
/// depends on a kind, and none is in force.
#[tactic(auto, unfolding(crate::specs::InForce::data_under, crate::specs::InForce::port_data_under))]
pub fn info_held(force: InForce<'_>, kind: u16) -> Option<Held>
    ensures is { result ≡ held_in_force (in_force force.entry) kind }
    ensures some { (p : RuleOfPeers) → IfSome result (λ held. held_rule p held
        ≡ (link_info_row p (in_force force.entry) kind).rule) }
    ensures none { (p : RuleOfPeers) → IfNone result ((link_info_row p (in_force force.entry) kind).rule
        ≡ shape_rule never) }
{
    names_are_looked_up();
    match kind {
        IFLA_INFO_KIND | IFLA_INFO_SLAVE_KIND => Some(Held::Plain(Shape::Text)),
        IFLA_INFO_DATA => match force.kind {
            Some(name) => Some(data_held(name)),
            None => None,
        },
        IFLA_INFO_XSTATS => match force.kind {
            Some(_) => Some(Held::Plain(Shape::Raw)),
            None => None,
        },
        IFLA_INFO_SLAVE_DATA => match force.port_kind {
            Some(name) => Some(port_held(name)),
            None => None,
        },
        _ => Some(Held::Plain(Shape::Raw)),
    }
}
