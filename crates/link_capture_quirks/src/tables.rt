//! The lists in which encoding quirks occur, as far as their quirks differ.

ghost use Rattle.std.specs.Prelude.{◌≡◌, ◌≤◌, ◌<◌, length, option_map, IfSome};
ghost use Rattle.link_tables.specs.InForce.{in_force};
ghost use Rattle.link_capture_walks.specs.Listings.{listing};
ghost use Rattle.link_capture_quirks.specs.QuirkTables.{data_of, data_in, data_list, info_list};
ghost use Rattle.link_capture_quirks.specs.QuirkTables.{family_table, next_list, inside_link, inside_table};
ghost use Rattle.link_capture_quirks.specs.QuirkTables.{has_peer, inside, depth};

use crate::kinds::{AF_INET, IFLA_AF_SPEC, IFLA_LINKINFO, IFLA_VFINFO_LIST, IFLA_XDP};
use link_capture_walks::Listed;
use link_tables::kinds::{
    BAREUDP, BATADV, GENEVE, GRE, GRE6, IP4_TUNNEL, IP6_TUNNEL, NETKIT, VETH, VXCAN, VXLAN,
};
use link_tables::table::{LINK_BRIDGE, LINK_UNSPEC};
use link_tables::{Form, Held, InForce, Table as Shared, info_held};

/// The data of a kind of link, as far as their quirks differ.
#[derive(Clone, Copy)]
pub enum Data {
    /// Data in which no quirk occurs.
    Other,
    Vxlan,
    Geneve,
    /// Of `gre`, `gretap` and `erspan`.
    Gre,
    /// Of `ip6gre`, `ip6gretap` and `ip6erspan`.
    Gre6,
    /// Of `ipip`, `sit` and `ip6tnl`.
    IpTunnel,
    BareUdp,
    Batadv,
    Netkit,
    /// Of `veth` and `vxcan`, before their first attribute.
    Pair,
    /// Of `veth` and `vxcan`, after their first attribute.
    AfterFirst,
}

/// A kind of list of attributes.
#[derive(Clone, Copy)]
pub enum Table {
    /// The attributes of a link of the family AF_UNSPEC.
    Unspec,
    /// The attributes of a link of AF_BRIDGE.
    Bridge,
    /// The attributes of a link of any other family.
    Link,
    /// IFLA_LINKINFO.
    Info,
    /// IFLA_AF_SPEC of AF_UNSPEC.
    Families,
    /// AF_INET in IFLA_AF_SPEC.
    Inet,
    /// IFLA_XDP.
    Programs,
    /// IFLA_VFINFO_LIST.
    Functions,
    /// IFLA_INFO_DATA.
    OfKind(Data),
}

/// Returns the data with the rows of a shared table.
fn data_of(table: Shared) -> Data
    ensures { result ≡ data_of table.0 }
{
    match table {
        VXLAN => Data::Vxlan,
        GENEVE => Data::Geneve,
        GRE => Data::Gre,
        GRE6 => Data::Gre6,
        IP4_TUNNEL | IP6_TUNNEL => Data::IpTunnel,
        BAREUDP => Data::BareUdp,
        BATADV => Data::Batadv,
        NETKIT => Data::Netkit,
        _ => Data::Other,
    }
}

/// Returns the data with a payload of the shared tables.
fn data_in(held: Held) -> Data
    ensures { result ≡ data_in held }
{
    match held {
        Held::List(Form::FirstOnly, VETH | VXCAN) => Data::Pair,
        Held::List(Form::FirstOnly, _) => Data::Other,
        Held::List(_, table) => data_of(table),
        _ => Data::Other,
    }
}

/// Returns the list that a payload of the shared tables is, if it is one.
fn data_list(held: Held) -> Option<Table>
    ensures { result ≡ data_list held }
{
    match held {
        Held::List(form, table) => Some(Table::OfKind(data_in(Held::List(form, table)))),
        _ => None,
    }
}

/// Returns the list in an attribute of link info, under the kinds in force.
fn info_list(force: InForce<'_>, kind: u16) -> Option<Table>
    ensures { result ≡ info_list (in_force force.entry) kind }
{
    match info_held(force, kind) {
        Some(held) => data_list(held),
        None => None,
    }
}

/// Returns the list kind of the attributes of a link of an address family.
pub fn family_table(family: u8) -> Table
    ensures { result ≡ family_table family }
{
    match link_tables::family_table(family) {
        LINK_UNSPEC => Table::Unspec,
        LINK_BRIDGE => Table::Bridge,
        _ => Table::Link,
    }
}

/// Returns the rest of a list after an attribute, whose kind has no flag bits.
pub fn next_list<'a>(list: Listed<'a, Table>, kind: u16, payload: &'a [u8]) -> Listed<'a, Table>
    ensures next { listing result ≡ next_list (listing list.entry) kind payload.now }
    ensures as_deep { depth (listing result) ≡ depth (listing list.entry) }
{
    match list.table {
        Table::Info => list.after_info(kind, payload),
        Table::OfKind(Data::Pair) => Listed {
            table: Table::OfKind(Data::AfterFirst),
            ..list
        },
        _ => list,
    }
}

/// Returns the list in an attribute of a link.
fn inside_link(kind: u16) -> Option<Table>
    ensures { result ≡ inside_link kind }
{
    match kind {
        IFLA_LINKINFO => Some(Table::Info),
        IFLA_VFINFO_LIST => Some(Table::Functions),
        IFLA_XDP => Some(Table::Programs),
        _ => None,
    }
}

/// Returns the list in an attribute, unless it is a peer.
fn inside_table(table: Table, force: InForce<'_>, kind: u16) -> Option<Table>
    ensures { result ≡ inside_table table (in_force force.entry) kind }
{
    match table {
        Table::Unspec if kind == IFLA_AF_SPEC => Some(Table::Families),
        Table::Unspec | Table::Bridge | Table::Link => inside_link(kind),
        Table::Info => info_list(force, kind),
        Table::Families if kind == AF_INET => Some(Table::Inet),
        _ => None,
    }
}

/// Returns whether an attribute of kind 1 is a peer.
fn has_peer(table: Table) -> bool
    ensures { result ≡ has_peer table }
{
    matches!(table, Table::OfKind(Data::Netkit | Data::Pair))
}

/// Returns the list in an attribute, and the number of bytes before it: 16 for a peer's header,
/// which is a link's.
#[tactic(auto, unfolding(crate::specs::QuirkTables::inside))]
pub fn inside<'a>(
    list: Listed<'a, Table>,
    kind: u16,
    payload: &'a [u8],
) -> Option<(Listed<'a, Table>, usize)>
    ensures inside { option_map (λ x. (listing x.0, x.1)) result
        ≡ inside (listing list.entry) kind payload.now }
    ensures header_size { IfSome result (λ x. x.1 ≤ length payload.now) }
    ensures lower { IfSome result (λ x. depth (listing x.0) < depth (listing list.entry)) }
{
    if kind == 1 && list.judged && payload.len() >= 16 && has_peer(list.table) {
        return Some((Listed::new(family_table(payload[0]), false), 16));
    }
    match inside_table(list.table, list.force, kind) {
        Some(table) => Some((Listed::new(table, list.judged), 0)),
        None => None,
    }
}
