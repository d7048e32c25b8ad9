//! The data of a kind of link (if_link.h, IFLA_INFO_DATA).

ghost use Rattle.std.specs.Prelude.{◌≡◌, false, true};
ghost use Rattle.netlink_packet_core.specs.Errors.{is_memory};
ghost use Rattle.link_info_data.specs.Data.{info_data_entry, info_data_fits};
ghost use Rattle.link_info_data.specs.Data.{data_rule_of, data_rule_of_under};
ghost use Rattle.link_info_data.specs.Outcomes.{IsDataRead};
ghost use Rattle.attribute_tables.specs.Outcomes.{IsRefusedUnless, SucceedsIf};

use super::laws::{data_without_peers_have_one_rule, names_determine_rules};
use crate::payloads::{emit_list, emit_one, list_len, one_len};
use attribute_tables::{parse_bytes, parse_family, parse_first};
use link_info_devices::{
    InfoBatAdv, InfoBond, InfoBridge, InfoCan, InfoDsa, InfoHsr, InfoIpVlan, InfoIpVtap, InfoIpoib,
    InfoMacSec, InfoMacVlan, InfoMacVtap, InfoNetkit, InfoRmNet, InfoTun, InfoVeth, InfoVlan,
    InfoVrf, InfoVxcan, InfoWireguard, InfoWwan, parse_mac_vlan, parse_netkit_with,
    parse_pair_with,
};
use link_info_kinds::InfoKind;
use link_info_tunnels::{
    InfoAmt, InfoBareUdp, InfoGeneve, InfoGre, InfoGre6, InfoGtp, InfoIpTunnel, InfoVti, InfoVxlan,
    InfoXfrm, parse_ip_tunnel,
};
use link_interpreter::{BytesPeer, PeerRule, PeerSet, Ruled, data_error};
use link_tables::IFLA_INFO_DATA;
use netlink_packet_core::{DecodeError, Nla, fits_all};
use std::alloc::Global;

/// The data of a kind of link: a list of the kind's attributes, or bytes.
#[derive(Debug, PartialEq, Eq, Drop)]
pub enum InfoData {
    /// Attributes of `bridge`.
    Bridge(Vec<InfoBridge>),
    /// Attributes of `can`.
    Can(Vec<InfoCan>),
    /// Attributes of `tun`.
    Tun(Vec<InfoTun>),
    /// Attributes of `vlan`.
    Vlan(Vec<InfoVlan>),
    /// The attribute at the start of the data of `veth`.
    Veth(InfoVeth),
    /// Attributes of `vxlan`.
    Vxlan(Vec<InfoVxlan>),
    /// Attributes of `bond`.
    Bond(Vec<InfoBond>),
    /// Attributes of `ipvlan`.
    IpVlan(Vec<InfoIpVlan>),
    /// Attributes of `ipvtap`.
    IpVtap(Vec<InfoIpVtap>),
    /// Attributes of `macvlan`.
    MacVlan(Vec<InfoMacVlan>),
    /// Attributes of `macvtap`.
    MacVtap(Vec<InfoMacVtap>),
    /// Attributes of `gretap`.
    GreTap(Vec<InfoGre>),
    /// Attributes of `ip6gretap`.
    GreTap6(Vec<InfoGre6>),
    /// Attributes of `gre`.
    GreTun(Vec<InfoGre>),
    /// Attributes of `ip6gre`.
    GreTun6(Vec<InfoGre6>),
    /// Attributes of `vti` and `vti6`.
    Vti(Vec<InfoVti>),
    /// Attributes of `vrf`.
    Vrf(Vec<InfoVrf>),
    /// Attributes of `gtp`.
    Gtp(Vec<InfoGtp>),
    /// Attributes of `ipoib`.
    Ipoib(Vec<InfoIpoib>),
    /// Attributes of `xfrm`.
    Xfrm(Vec<InfoXfrm>),
    /// Attributes of `macsec`.
    MacSec(Vec<InfoMacSec>),
    /// Attributes of `hsr`.
    Hsr(Vec<InfoHsr>),
    /// Attributes of `geneve`.
    Geneve(Vec<InfoGeneve>),
    /// Attributes of `ipip`, `ip6tnl` and `sit`.
    IpTunnel(Vec<InfoIpTunnel>),
    /// Attributes of `netkit`.
    Netkit(Vec<InfoNetkit>),
    /// The attribute at the start of the data of `vxcan`.
    Vxcan(InfoVxcan),
    /// Attributes of `amt`.
    Amt(Vec<InfoAmt>),
    /// Attributes of `batadv`.
    BatAdv(Vec<InfoBatAdv>),
    /// Attributes of `bareudp`.
    BareUdp(Vec<InfoBareUdp>),
    /// Attributes of `dsa`.
    Dsa(Vec<InfoDsa>),
    /// Attributes of `wwan`.
    Wwan(Vec<InfoWwan>),
    /// Attributes of `rmnet`.
    RmNet(Vec<InfoRmNet>),
    /// Attributes of `erspan`.
    ErSpan(Vec<InfoGre>),
    /// Attributes of `ip6erspan`.
    Ip6ErSpan(Vec<InfoGre6>),
    /// Attributes of `wireguard`.
    Wireguard(Vec<InfoWireguard>),
    /// The bytes of any other kind.
    Other(Vec<u8>),
}

/// Wraps a value that was read in its variant.
macro_rules! data {
    ($variant:ident, $read:expr) => {
        match $read {
            Ok(value) => Ok(Self::$variant(value)),
            Err(error) => Err(error),
        }
    };
}

// The error for data of a kind that weren't read, with these peers: out of memory only if the data
// are accepted. Allocates nothing.
fn error_of<P: PeerSet>(
    peers: &P,
    kind: &InfoKind,
    payload: &[u8],
    error: DecodeError,
) -> DecodeError
    requires refused { is_memory error ≡ false
        → (data_rule_of_under P.peer kind.now).accepted payload.now ≡ false }
    ensures { (data_rule_of_under P.peer kind.now).accepted payload.now ≡ is_memory result }
{
    names_determine_rules();
    match kind {
        InfoKind::Other(_) => error,
        _ => data_error(peers, kind.as_str().as_bytes(), payload, error),
    }
}

impl InfoData {
    // Reads the data of a kind; it may run out of memory before it reaches an invalid attribute.
    fn read(alloc: Global, payload: &[u8], kind: &InfoKind) -> Result<InfoData, DecodeError>
        ensures judged { SucceedsIf result ((data_rule_of kind.now).accepted payload.now) }
        ensures read { IsDataRead result kind.now (data_rule_of kind.now) payload.now }
    {
        match kind {
            InfoKind::Bridge => data!(Bridge, parse_family(alloc, payload)),
            InfoKind::Can => data!(Can, parse_family(alloc, payload)),
            InfoKind::Tun => data!(Tun, parse_family(alloc, payload)),
            InfoKind::Vlan => data!(Vlan, parse_family(alloc, payload)),
            InfoKind::Veth => data!(Veth, parse_first(alloc, payload)),
            InfoKind::Vxlan => data!(Vxlan, parse_family(alloc, payload)),
            InfoKind::Bond => data!(Bond, parse_family(alloc, payload)),
            InfoKind::IpVlan => data!(IpVlan, parse_family(alloc, payload)),
            InfoKind::IpVtap => data!(IpVtap, parse_family(alloc, payload)),
            InfoKind::MacVlan => data!(MacVlan, parse_mac_vlan(alloc, payload)),
            InfoKind::MacVtap => data!(MacVtap, parse_mac_vlan(alloc, payload)),
            InfoKind::GreTap => data!(GreTap, parse_family(alloc, payload)),
            InfoKind::GreTap6 => data!(GreTap6, parse_family(alloc, payload)),
            InfoKind::GreTun => data!(GreTun, parse_family(alloc, payload)),
            InfoKind::GreTun6 => data!(GreTun6, parse_family(alloc, payload)),
            InfoKind::Vti | InfoKind::Vti6 => data!(Vti, parse_family(alloc, payload)),
            InfoKind::Vrf => data!(Vrf, parse_family(alloc, payload)),
            InfoKind::Gtp => data!(Gtp, parse_family(alloc, payload)),
            InfoKind::Ipoib => data!(Ipoib, parse_family(alloc, payload)),
            InfoKind::Xfrm => data!(Xfrm, parse_family(alloc, payload)),
            InfoKind::MacSec => data!(MacSec, parse_family(alloc, payload)),
            InfoKind::Hsr => data!(Hsr, parse_family(alloc, payload)),
            InfoKind::Geneve => data!(Geneve, parse_family(alloc, payload)),
            InfoKind::IpIp | InfoKind::Ip6Tnl | InfoKind::SitTun => data!(
                IpTunnel,
                parse_ip_tunnel(alloc, payload, kind)
            ),
            InfoKind::Netkit => data!(Netkit, parse_family(alloc, payload)),
            InfoKind::Vxcan => data!(Vxcan, parse_first(alloc, payload)),
            InfoKind::Amt => data!(Amt, parse_family(alloc, payload)),
            InfoKind::BatAdv => data!(BatAdv, parse_family(alloc, payload)),
            InfoKind::BareUdp => data!(BareUdp, parse_family(alloc, payload)),
            InfoKind::Dsa => data!(Dsa, parse_family(alloc, payload)),
            InfoKind::Wwan => data!(Wwan, parse_family(alloc, payload)),
            InfoKind::RmNet => data!(RmNet, parse_family(alloc, payload)),
            InfoKind::ErSpan => data!(ErSpan, parse_family(alloc, payload)),
            InfoKind::Ip6ErSpan => data!(Ip6ErSpan, parse_family(alloc, payload)),
            InfoKind::Wireguard => data!(Wireguard, parse_family(alloc, payload)),
            InfoKind::Dummy
            | InfoKind::Ifb
            | InfoKind::Nlmon
            | InfoKind::Vcan
            | InfoKind::Netdevsim
            | InfoKind::VirtWifi
            | InfoKind::Team
            | InfoKind::Pfcp
            | InfoKind::Other(_) => Ok(Self::Other(parse_bytes(alloc, payload)?)),
        }
    }

    /// Reads the data of a kind.
    ///
    /// The variant of the kind decides, not its name: data of an `InfoKind::Other` with a listed
    /// name are kept as bytes.
    ///
    /// # Errors
    ///
    /// Out of memory if an allocation fails and the kind's table accepts the data; any other
    /// [`DecodeError`] if and only if the table doesn't accept them. If an allocation fails, the
    /// rest is checked without allocating.
    pub fn parse_with_param(
        alloc: Global,
        payload: &[u8],
        kind: &InfoKind,
    ) -> Result<InfoData, DecodeError>
        ensures judged { IsRefusedUnless result ((data_rule_of kind.now).accepted payload.now) }
        ensures read { IsDataRead result kind.now (data_rule_of kind.now) payload.now }
    {
        match Self::read(alloc, payload, kind) {
            Ok(data) => Ok(data),
            Err(error) => Err(error_of(&BytesPeer, kind, payload, error)),
        }
    }

    // Reads the data of a kind, peers by a rule; it may run out of memory before it reaches an
    // invalid attribute.
    fn read_with<R: PeerRule>(
        alloc: Global,
        payload: &[u8],
        kind: &InfoKind,
        rule: &R,
    ) -> Result<InfoData, DecodeError>
        ensures judged { SucceedsIf result
            ((data_rule_of_under R.peer kind.now).accepted payload.now) }
        ensures read { IsDataRead result kind.now (data_rule_of_under R.peer kind.now) payload.now }
    {
        match kind {
            InfoKind::Netkit => data!(Netkit, parse_netkit_with(alloc, payload, rule)),
            InfoKind::Veth => data!(Veth, parse_pair_with(alloc, payload, rule)),
            InfoKind::Vxcan => data!(Vxcan, parse_pair_with(alloc, payload, rule)),
            _ => {
                data_without_peers_have_one_rule();
                Self::read(alloc, payload, kind)
            }
        }
    }

    /// Reads the data of a kind, peers by a rule: the value of a peer holds its canonical payload.
    /// `parse_with_param` is this with peers as bytes.
    ///
    /// # Errors
    ///
    /// Out of memory if an allocation fails and the kind's table accepts the data under the rule;
    /// any other [`DecodeError`] if and only if the table doesn't accept them.
    pub fn parse_with_peers<R: PeerRule>(
        alloc: Global,
        payload: &[u8],
        kind: &InfoKind,
        rule: &R,
    ) -> Result<InfoData, DecodeError>
        ensures judged { IsRefusedUnless result
            ((data_rule_of_under R.peer kind.now).accepted payload.now) }
        ensures read { IsDataRead result kind.now (data_rule_of_under R.peer kind.now) payload.now }
    {
        match Self::read_with(alloc, payload, kind, rule) {
            Ok(data) => Ok(data),
            Err(error) => Err(error_of(&Ruled(rule), kind, payload, error)),
        }
    }
}

/// Matches on the variant: one expression for those with a list of attributes, one for those with a
/// single attribute, and one for the bytes of a kind that has no table.
macro_rules! of_variants {
    ($data:expr, $list:ident => $of_list:expr, $one:ident => $of_one:expr, $bytes:pat => $of_bytes:expr) => {
        match $data {
            Self::Bridge($list) => $of_list,
            Self::Can($list) => $of_list,
            Self::Tun($list) => $of_list,
            Self::Vlan($list) => $of_list,
            Self::Vxlan($list) => $of_list,
            Self::Bond($list) => $of_list,
            Self::IpVlan($list) => $of_list,
            Self::IpVtap($list) => $of_list,
            Self::MacVlan($list) => $of_list,
            Self::MacVtap($list) => $of_list,
            Self::GreTap($list) => $of_list,
            Self::GreTap6($list) => $of_list,
            Self::GreTun($list) => $of_list,
            Self::GreTun6($list) => $of_list,
            Self::Vti($list) => $of_list,
            Self::Vrf($list) => $of_list,
            Self::Gtp($list) => $of_list,
            Self::Ipoib($list) => $of_list,
            Self::Xfrm($list) => $of_list,
            Self::MacSec($list) => $of_list,
            Self::Hsr($list) => $of_list,
            Self::Geneve($list) => $of_list,
            Self::IpTunnel($list) => $of_list,
            Self::Netkit($list) => $of_list,
            Self::Amt($list) => $of_list,
            Self::BatAdv($list) => $of_list,
            Self::BareUdp($list) => $of_list,
            Self::Dsa($list) => $of_list,
            Self::Wwan($list) => $of_list,
            Self::RmNet($list) => $of_list,
            Self::ErSpan($list) => $of_list,
            Self::Ip6ErSpan($list) => $of_list,
            Self::Wireguard($list) => $of_list,
            Self::Veth($one) => $of_one,
            Self::Vxcan($one) => $of_one,
            Self::Other($bytes) => $of_bytes,
        }
    };
}

impl Nla for InfoData {
    ghost entry = { info_data_entry };

    ghost inside_fits = { info_data_fits };

    fn value_len(&self) -> usize {
        of_variants!(self, list => list_len(list), one => one_len(one), bytes => bytes.len())
    }

    fn kind(&self) -> u16 {
        IFLA_INFO_DATA
    }

    fn emit_value(&self, buffer: &mut [u8]) {
        of_variants!(
            self,
            list => emit_list(list, buffer),
            one => emit_one(one, buffer),
            bytes => buffer.copy_from_slice(bytes)
        )
    }

    fn contents_fit(&self) -> bool {
        of_variants!(self, list => fits_all(list), one => one.fits(), _ => true)
    }
}
