//! The kind of a link (if_link.h, IFLA_INFO_KIND): the name of its driver (`rtnl_link_ops.kind`).

ghost use Rattle.std.specs.Prelude.{◌≡◌, ◌++◌, ◌∷◌, [], true, Some, IfOk, IfErr};
ghost use Rattle.netlink_packet_core.specs.AttributeViews.{BeginsWithAttribute, viewed_payload};
ghost use Rattle.netlink_packet_core.specs.Errors.{is_memory};
ghost use Rattle.netlink_packet_core.specs.Named.{named_by};
ghost use Rattle.netlink_packet_core.specs.NlaBuffers.{storage};
ghost use Rattle.netlink_packet_core.specs.Texts.{without_nul};
ghost use Rattle.link_info_grammar.specs.Families.{kind_names};
ghost use Rattle.link_info_grammar.specs.KindNames.{is_unlisted};
ghost use Rattle.link_info_kinds.specs.Kinds.{info_kind_accepted, info_kind_allocates, info_kind_entry};
ghost use Rattle.link_info_kinds.specs.Kinds.{info_kind_text, info_kind_is_named, early_kinds, late_kinds, listed_kinds, IsNamedBy};

use link_tables::IFLA_INFO_KIND;
use netlink_packet_core::{DecodeError, Field, FieldNla, NlaBuffer, Parseable, parse_str};
use std::alloc::Global;
use std::fmt;

const DUMMY: &str = "dummy";

const IFB: &str = "ifb";

const BRIDGE: &str = "bridge";

const TUN: &str = "tun";

const NLMON: &str = "nlmon";

const VLAN: &str = "vlan";

const VETH: &str = "veth";

const VXLAN: &str = "vxlan";

const BOND: &str = "bond";

const IPVLAN: &str = "ipvlan";

const IPVTAP: &str = "ipvtap";

const MACVLAN: &str = "macvlan";

const MACVTAP: &str = "macvtap";

const GRETAP: &str = "gretap";

const IP6GRETAP: &str = "ip6gretap";

const IPIP: &str = "ipip";

const IP6TNL: &str = "ip6tnl";

const SIT: &str = "sit";

const GRE: &str = "gre";

const IP6GRE: &str = "ip6gre";

const VTI: &str = "vti";

const VTI6: &str = "vti6";

const VRF: &str = "vrf";

const GTP: &str = "gtp";

const IPOIB: &str = "ipoib";

const WIREGUARD: &str = "wireguard";

const XFRM: &str = "xfrm";

const MACSEC: &str = "macsec";

const HSR: &str = "hsr";

const GENEVE: &str = "geneve";

const NETKIT: &str = "netkit";

const VCAN: &str = "vcan";

const VXCAN: &str = "vxcan";

const AMT: &str = "amt";

const BATADV: &str = "batadv";

const BAREUDP: &str = "bareudp";

const NETDEVSIM: &str = "netdevsim";

const VIRT_WIFI: &str = "virt_wifi";

const WWAN: &str = "wwan";

const CAN: &str = "can";

const DSA: &str = "dsa";

const TEAM: &str = "team";

const ERSPAN: &str = "erspan";

const IP6ERSPAN: &str = "ip6erspan";

const PFCP: &str = "pfcp";

const RMNET: &str = "rmnet";

/// The kind of a link. It is encoded as its name, in UTF-8, and one NUL, which a reader doesn't
/// require.
#[derive(Debug, PartialEq, Eq, Drop)]
pub enum InfoKind {
    /// A device that drops everything it is sent. `dummy`.
    Dummy,
    /// An intermediate functional block, which redirects traffic. `ifb`.
    Ifb,
    /// A bridge. `bridge`.
    Bridge,
    /// A TUN or TAP device. `tun`.
    Tun,
    /// A monitor of netlink messages. `nlmon`.
    Nlmon,
    /// A VLAN, 802.1Q or 802.1ad. `vlan`.
    Vlan,
    /// One end of a pair of Ethernet devices. `veth`.
    Veth,
    /// A VXLAN. `vxlan`.
    Vxlan,
    /// Several links as one. `bond`.
    Bond,
    /// An IPVLAN. `ipvlan`.
    IpVlan,
    /// An IPVLAN with a tap interface. `ipvtap`.
    IpVtap,
    /// A MACVLAN. `macvlan`.
    MacVlan,
    /// A MACVLAN with a tap interface. `macvtap`.
    MacVtap,
    /// An Ethernet tunnel in GRE over IPv4. `gretap`.
    GreTap,
    /// An Ethernet tunnel in GRE over IPv6. `ip6gretap`.
    GreTap6,
    /// An IPv4 tunnel in IPv4. `ipip`.
    IpIp,
    /// A tunnel in IPv6. `ip6tnl`.
    Ip6Tnl,
    /// An IPv6 tunnel in IPv4. `sit`.
    SitTun,
    /// A tunnel in GRE over IPv4. `gre`.
    GreTun,
    /// A tunnel in GRE over IPv6. `ip6gre`.
    GreTun6,
    /// A virtual tunnel interface over IPv4. `vti`.
    Vti,
    /// A virtual tunnel interface over IPv6. `vti6`.
    Vti6,
    /// A virtual routing and forwarding domain. `vrf`.
    Vrf,
    /// A GPRS tunnel. `gtp`.
    Gtp,
    /// IP over InfiniBand. `ipoib`.
    Ipoib,
    /// A WireGuard tunnel. `wireguard`.
    Wireguard,
    /// An IPsec interface, XFRM. `xfrm`.
    Xfrm,
    /// A MACsec channel. `macsec`.
    MacSec,
    /// A ring of high availability, HSR or PRP. `hsr`.
    Hsr,
    /// A GENEVE tunnel. `geneve`.
    Geneve,
    /// A netkit device. `netkit`.
    Netkit,
    /// A virtual CAN bus. `vcan`.
    Vcan,
    /// One end of a pair of CAN devices. `vxcan`.
    Vxcan,
    /// An automatic multicast tunnel. `amt`.
    Amt,
    /// A mesh of batman-adv. `batadv`.
    BatAdv,
    /// A tunnel in bare UDP. `bareudp`.
    BareUdp,
    /// A simulated device. `netdevsim`.
    Netdevsim,
    /// Wi-Fi over an Ethernet link. `virt_wifi`.
    VirtWifi,
    /// A link of a cellular modem. `wwan`.
    Wwan,
    /// A CAN bus. `can`.
    Can,
    /// A port of a switch. `dsa`.
    Dsa,
    /// Several links as one, driven from user space. `team`.
    Team,
    /// A mirrored port in GRE over IPv4. `erspan`.
    ErSpan,
    /// A mirrored port in GRE over IPv6. `ip6erspan`.
    Ip6ErSpan,
    /// A PFCP tunnel. `pfcp`.
    Pfcp,
    /// A multiplexed link of a modem. `rmnet`.
    RmNet,
    /// Any other name.
    Other(String),
}

impl InfoKind {
    /// Returns the kind with this name.
    ///
    /// # Errors
    ///
    /// Out of memory, and no other [`DecodeError`], if the allocation of the name fails; a listed
    /// name is never allocated.
    pub fn from_name(alloc: Global, name: &str) -> Result<InfoKind, DecodeError>
        ensures text { IfOk result (λ k. info_kind_text k ≡ name.now) }
        ensures named { IfOk result (λ k. info_kind_is_named k ≡ true) }
        ensures err { IfErr result (λ e. is_memory e ≡ true) }
        ensures memory { IfErr result (λ _. is_unlisted kind_names name.now ≡ true) }
    {
        match Self::with_name(name) {
            Some(kind) => Ok(kind),
            None => Ok(Self::Other(String::from_str(alloc, name)?)),
        }
    }

    // The variant with this name. The match is split in two, since the prover's time for one match
    // is its paths times the variants of its type.
    fn with_name(name: &str) -> Option<InfoKind>
        ensures { result ≡ named_by info_kind_text listed_kinds name.now }
    {
        match Self::with_early_name(name) {
            Some(kind) => Some(kind),
            None => Self::with_late_name(name),
        }
    }

    // The variant with this name, up to `Vrf`.
    fn with_early_name(name: &str) -> Option<InfoKind>
        ensures { result ≡ named_by info_kind_text early_kinds name.now }
    {
        match name {
            DUMMY => Some(Self::Dummy),
            IFB => Some(Self::Ifb),
            BRIDGE => Some(Self::Bridge),
            TUN => Some(Self::Tun),
            NLMON => Some(Self::Nlmon),
            VLAN => Some(Self::Vlan),
            VETH => Some(Self::Veth),
            VXLAN => Some(Self::Vxlan),
            BOND => Some(Self::Bond),
            IPVLAN => Some(Self::IpVlan),
            IPVTAP => Some(Self::IpVtap),
            MACVLAN => Some(Self::MacVlan),
            MACVTAP => Some(Self::MacVtap),
            GRETAP => Some(Self::GreTap),
            IP6GRETAP => Some(Self::GreTap6),
            IPIP => Some(Self::IpIp),
            IP6TNL => Some(Self::Ip6Tnl),
            SIT => Some(Self::SitTun),
            GRE => Some(Self::GreTun),
            IP6GRE => Some(Self::GreTun6),
            VTI => Some(Self::Vti),
            VTI6 => Some(Self::Vti6),
            VRF => Some(Self::Vrf),
            _ => None,
        }
    }

    // The variant with this name, from `Gtp` on.
    fn with_late_name(name: &str) -> Option<InfoKind>
        ensures { result ≡ named_by info_kind_text late_kinds name.now }
    {
        match name {
            GTP => Some(Self::Gtp),
            IPOIB => Some(Self::Ipoib),
            WIREGUARD => Some(Self::Wireguard),
            XFRM => Some(Self::Xfrm),
            MACSEC => Some(Self::MacSec),
            HSR => Some(Self::Hsr),
            GENEVE => Some(Self::Geneve),
            NETKIT => Some(Self::Netkit),
            VCAN => Some(Self::Vcan),
            VXCAN => Some(Self::Vxcan),
            AMT => Some(Self::Amt),
            BATADV => Some(Self::BatAdv),
            BAREUDP => Some(Self::BareUdp),
            NETDEVSIM => Some(Self::Netdevsim),
            VIRT_WIFI => Some(Self::VirtWifi),
            WWAN => Some(Self::Wwan),
            CAN => Some(Self::Can),
            DSA => Some(Self::Dsa),
            TEAM => Some(Self::Team),
            ERSPAN => Some(Self::ErSpan),
            IP6ERSPAN => Some(Self::Ip6ErSpan),
            PFCP => Some(Self::Pfcp),
            RMNET => Some(Self::RmNet),
            _ => None,
        }
    }

    /// Returns the name of the kind.
    pub fn as_str(&self) -> &str
        ensures { result.now ≡ info_kind_text self.now }
    {
        match self {
            Self::Dummy => DUMMY,
            Self::Ifb => IFB,
            Self::Bridge => BRIDGE,
            Self::Tun => TUN,
            Self::Nlmon => NLMON,
            Self::Vlan => VLAN,
            Self::Veth => VETH,
            Self::Vxlan => VXLAN,
            Self::Bond => BOND,
            Self::IpVlan => IPVLAN,
            Self::IpVtap => IPVTAP,
            Self::MacVlan => MACVLAN,
            Self::MacVtap => MACVTAP,
            Self::GreTap => GRETAP,
            Self::GreTap6 => IP6GRETAP,
            Self::IpIp => IPIP,
            Self::Ip6Tnl => IP6TNL,
            Self::SitTun => SIT,
            Self::GreTun => GRE,
            Self::GreTun6 => IP6GRE,
            Self::Vti => VTI,
            Self::Vti6 => VTI6,
            Self::Vrf => VRF,
            Self::Gtp => GTP,
            Self::Ipoib => IPOIB,
            Self::Wireguard => WIREGUARD,
            Self::Xfrm => XFRM,
            Self::MacSec => MACSEC,
            Self::Hsr => HSR,
            Self::Geneve => GENEVE,
            Self::Netkit => NETKIT,
            Self::Vcan => VCAN,
            Self::Vxcan => VXCAN,
            Self::Amt => AMT,
            Self::BatAdv => BATADV,
            Self::BareUdp => BAREUDP,
            Self::Netdevsim => NETDEVSIM,
            Self::VirtWifi => VIRT_WIFI,
            Self::Wwan => WWAN,
            Self::Can => CAN,
            Self::Dsa => DSA,
            Self::Team => TEAM,
            Self::ErSpan => ERSPAN,
            Self::Ip6ErSpan => IP6ERSPAN,
            Self::Pfcp => PFCP,
            Self::RmNet => RMNET,
            Self::Other(name) => name.as_str(),
        }
    }
}

impl fmt::Display for InfoKind {
    ghost output = { λ k. Some (info_kind_text k) };

    ghost styled_output = { λ k _. Some (info_kind_text k) };

    fn fmt<W: fmt::Write>(&self, f: &mut fmt::Formatter<W>) -> fmt::Result {
        f.write_str(self.as_str())
    }
}

impl FieldNla for InfoKind {
    ghost field_entry = { info_kind_entry };

    fn field(&self) -> (u16, Field<'_>) {
        (IFLA_INFO_KIND, Field::Text(self.as_str()))
    }
}

impl<'a> Parseable<NlaBuffer<&'a [u8]>> for InfoKind {
    ghost can_parse = { λ b. BeginsWithAttribute (storage b).now };

    ghost accepts = { λ b. info_kind_accepted (storage b).now };

    // Out of memory occurs only for an accepted attribute.
    ghost may_allocate = { λ b. info_kind_allocates (storage b).now };

    ghost gives = { λ b k. IsNamedBy (without_nul (viewed_payload (storage b).now)) k };

    fn parse(alloc: Global, buf: &NlaBuffer<&'a [u8]>) -> Result<Self, DecodeError> {
        if buf.kind() != IFLA_INFO_KIND {
            return Err(DecodeError::from("not an IFLA_INFO_KIND"));
        }
        InfoKind::from_name(alloc, parse_str(buf.value())?)
    }
}
