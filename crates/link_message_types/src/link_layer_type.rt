//! Types of the layer below a link.

ghost use Rattle.std.specs.Prelude.{◌≡◌, Some};
ghost use Rattle.netlink_packet_core.specs.Named.{numbered_by};
ghost use Rattle.link_message_types.specs.LinkLayerTypes.{link_layer_type_number, link_layer_type_of, link_layer_type_text};

use std::fmt;

/// The type of the layer below a link, `ARPHRD_*` of `linux/if_arp.h`. On the wire 2 bytes in
/// native order. A number that isn't listed is `Void`, and is written as 65535.
#[derive(Debug, PartialEq, Eq, Clone, Copy, Default)]
pub enum LinkLayerType {
    /// Amateur radio, NET/ROM: `ARPHRD_NETROM`, 0.
    #[default]
    Netrom,
    /// Ethernet: `ARPHRD_ETHER`, 1.
    Ether,
    /// Experimental Ethernet: `ARPHRD_EETHER`, 2.
    Eether,
    /// Amateur radio, AX.25: `ARPHRD_AX25`, 3.
    Ax25,
    /// Token ring, PROnet: `ARPHRD_PRONET`, 4.
    Pronet,
    /// Chaosnet: `ARPHRD_CHAOS`, 5.
    Chaos,
    /// Ethernet, token ring or another network of IEEE 802.2: `ARPHRD_IEEE802`, 6.
    Ieee802,
    /// ARCnet: `ARPHRD_ARCNET`, 7.
    Arcnet,
    /// AppleTalk: `ARPHRD_APPLETLK`, 8.
    Appletlk,
    /// A circuit of frame relay: `ARPHRD_DLCI`, 15.
    Dlci,
    /// Asynchronous transfer mode (ATM): `ARPHRD_ATM`, 19.
    Atm,
    /// Metricom STRIP: `ARPHRD_METRICOM`, 23.
    Metricom,
    /// IEEE 1394 over IPv4: `ARPHRD_IEEE1394`, 24.
    Ieee1394,
    /// EUI-64, with addresses of 64 bits: `ARPHRD_EUI64`, 27.
    Eui64,
    /// InfiniBand: `ARPHRD_INFINIBAND`, 32.
    Infiniband,
    /// The serial line Internet protocol, SLIP: `ARPHRD_SLIP`, 256.
    Slip,
    /// SLIP with compressed headers: `ARPHRD_CSLIP`, 257.
    Cslip,
    /// SLIP with 6-bit encoding: `ARPHRD_SLIP6`, 258.
    Slip6,
    /// SLIP with 6-bit encoding and compressed headers: `ARPHRD_CSLIP6`, 259.
    Cslip6,
    /// The notional type of KISS: `ARPHRD_RSRVD`, 260.
    Rsrvd,
    /// Adaptive SLIP: `ARPHRD_ADAPT`, 264.
    Adapt,
    /// Amateur radio, ROSE: `ARPHRD_ROSE`, 270.
    Rose,
    /// CCITT X.25: `ARPHRD_X25`, 271.
    X25,
    /// Boards with X.25 in firmware: `ARPHRD_HWX25`, 272.
    Hwx25,
    /// Controller area network (CAN): `ARPHRD_CAN`, 280.
    Can,
    /// Management component transport protocol (MCTP): `ARPHRD_MCTP`, 290.
    Mctp,
    /// Point-to-point protocol (PPP): `ARPHRD_PPP`, 512.
    Ppp,
    /// Cisco HDLC: `ARPHRD_HDLC`, 513.
    Hdlc,
    /// Link access procedure, balanced (LAPB): `ARPHRD_LAPB`, 516.
    Lapb,
    /// DDCMP of DEC: `ARPHRD_DDCMP`, 517.
    Ddcmp,
    /// Raw HDLC: `ARPHRD_RAWHDLC`, 518.
    Rawhdlc,
    /// Raw IP: `ARPHRD_RAWIP`, 519.
    Rawip,
    /// An IPv4 tunnel: `ARPHRD_TUNNEL`, 768.
    Tunnel,
    /// An IPv6 tunnel: `ARPHRD_TUNNEL6`, 769.
    Tunnel6,
    /// A frame relay access device: `ARPHRD_FRAD`, 770.
    Frad,
    /// SKIP: `ARPHRD_SKIP`, 771.
    Skip,
    /// The loopback device: `ARPHRD_LOOPBACK`, 772.
    Loopback,
    /// A LocalTalk device: `ARPHRD_LOCALTLK`, 773.
    Localtlk,
    /// Fiber distributed data interface (FDDI): `ARPHRD_FDDI`, 774.
    Fddi,
    /// AP1000 BIF: `ARPHRD_BIF`, 775.
    Bif,
    /// An IPv6 tunnel in IPv4: `ARPHRD_SIT`, 776.
    Sit,
    /// IP over DDP: `ARPHRD_IPDDP`, 777.
    Ipddp,
    /// GRE over IPv4: `ARPHRD_IPGRE`, 778.
    Ipgre,
    /// The register interface of PIM: `ARPHRD_PIMREG`, 779.
    Pimreg,
    /// High performance parallel interface (HIPPI): `ARPHRD_HIPPI`, 780.
    Hippi,
    /// Nexus, 64 Mbit/s: `ARPHRD_ASH`, 781.
    Ash,
    /// Acorn Econet: `ARPHRD_ECONET`, 782.
    Econet,
    /// Infrared, IrDA: `ARPHRD_IRDA`, 783.
    Irda,
    /// Fibre channel, point to point: `ARPHRD_FCPP`, 784.
    Fcpp,
    /// Fibre channel, arbitrated loop: `ARPHRD_FCAL`, 785.
    Fcal,
    /// Fibre channel, public loop: `ARPHRD_FCPL`, 786.
    Fcpl,
    /// Fibre channel, fabric: `ARPHRD_FCFABRIC`, 787.
    Fcfabric,
    /// Token ring, IEEE 802.5: `ARPHRD_IEEE802_TR`, 800.
    Ieee802Tr,
    /// Wireless LAN, IEEE 802.11: `ARPHRD_IEEE80211`, 801.
    Ieee80211,
    /// IEEE 802.11 with Prism headers: `ARPHRD_IEEE80211_PRISM`, 802.
    Ieee80211Prism,
    /// IEEE 802.11 with radiotap headers: `ARPHRD_IEEE80211_RADIOTAP`, 803.
    Ieee80211Radiotap,
    /// Wireless personal area network, IEEE 802.15.4: `ARPHRD_IEEE802154`, 804.
    Ieee802154,
    /// A monitor of IEEE 802.15.4: `ARPHRD_IEEE802154_MONITOR`, 805.
    Ieee802154Monitor,
    /// Phonet: `ARPHRD_PHONET`, 820.
    Phonet,
    /// A pipe of Phonet: `ARPHRD_PHONET_PIPE`, 821.
    PhonetPipe,
    /// CAIF: `ARPHRD_CAIF`, 822.
    Caif,
    /// GRE over IPv6: `ARPHRD_IP6GRE`, 823.
    Ip6gre,
    /// A monitor of netlink: `ARPHRD_NETLINK`, 824.
    Netlink,
    /// IPv6 over low power wireless networks: `ARPHRD_6LOWPAN`, 825.
    Sixlowpan,
    /// A monitor of vsock: `ARPHRD_VSOCKMON`, 826.
    Vsockmon,
    /// No header at all: `ARPHRD_NONE`, 65534.
    None,
    /// Unknown, and every number that isn't listed: `ARPHRD_VOID`, 65535.
    Void,
}

impl LinkLayerType {
    /// The alias of Cisco HDLC: `ARPHRD_CISCO`.
    pub const Cisco: Self = Self::Hdlc;
}

/// The types in the order of their numbers.
const LISTED: [LinkLayerType; 67] = [
    LinkLayerType::Netrom,
    LinkLayerType::Ether,
    LinkLayerType::Eether,
    LinkLayerType::Ax25,
    LinkLayerType::Pronet,
    LinkLayerType::Chaos,
    LinkLayerType::Ieee802,
    LinkLayerType::Arcnet,
    LinkLayerType::Appletlk,
    LinkLayerType::Dlci,
    LinkLayerType::Atm,
    LinkLayerType::Metricom,
    LinkLayerType::Ieee1394,
    LinkLayerType::Eui64,
    LinkLayerType::Infiniband,
    LinkLayerType::Slip,
    LinkLayerType::Cslip,
    LinkLayerType::Slip6,
    LinkLayerType::Cslip6,
    LinkLayerType::Rsrvd,
    LinkLayerType::Adapt,
    LinkLayerType::Rose,
    LinkLayerType::X25,
    LinkLayerType::Hwx25,
    LinkLayerType::Can,
    LinkLayerType::Mctp,
    LinkLayerType::Ppp,
    LinkLayerType::Hdlc,
    LinkLayerType::Lapb,
    LinkLayerType::Ddcmp,
    LinkLayerType::Rawhdlc,
    LinkLayerType::Rawip,
    LinkLayerType::Tunnel,
    LinkLayerType::Tunnel6,
    LinkLayerType::Frad,
    LinkLayerType::Skip,
    LinkLayerType::Loopback,
    LinkLayerType::Localtlk,
    LinkLayerType::Fddi,
    LinkLayerType::Bif,
    LinkLayerType::Sit,
    LinkLayerType::Ipddp,
    LinkLayerType::Ipgre,
    LinkLayerType::Pimreg,
    LinkLayerType::Hippi,
    LinkLayerType::Ash,
    LinkLayerType::Econet,
    LinkLayerType::Irda,
    LinkLayerType::Fcpp,
    LinkLayerType::Fcal,
    LinkLayerType::Fcpl,
    LinkLayerType::Fcfabric,
    LinkLayerType::Ieee802Tr,
    LinkLayerType::Ieee80211,
    LinkLayerType::Ieee80211Prism,
    LinkLayerType::Ieee80211Radiotap,
    LinkLayerType::Ieee802154,
    LinkLayerType::Ieee802154Monitor,
    LinkLayerType::Phonet,
    LinkLayerType::PhonetPipe,
    LinkLayerType::Caif,
    LinkLayerType::Ip6gre,
    LinkLayerType::Netlink,
    LinkLayerType::Sixlowpan,
    LinkLayerType::Vsockmon,
    LinkLayerType::None,
    LinkLayerType::Void,
];

impl From<u16> for LinkLayerType {
    ghost from_gives = { λ n v. v ≡ link_layer_type_of n };

    #[tactic(auto, unfolding(crate::specs::LinkLayerTypes::link_layer_type_of))]
    fn from(number: u16) -> Self
        ensures named { result ≡ link_layer_type_of number }
    {
        numbered(&LISTED, number)
    }
}

/// Returns the first of some types that has a number; `Void` if none has it. The types are a
/// parameter, since the prover spells out a constant inside a loop in each goal.
fn numbered(types: &[LinkLayerType], number: u16) -> LinkLayerType
    ensures { result
        ≡ numbered_by link_layer_type_number types.now (λ _. LinkLayerType.Void) number }
{
    for layer_type in types {
        if u16::from(*layer_type) == number {
            return *layer_type;
        }
    }
    LinkLayerType::Void
}

impl From<LinkLayerType> for u16 {
    ghost from_gives = { λ v n. n ≡ link_layer_type_number v };

    fn from(value: LinkLayerType) -> Self {
        match value {
            LinkLayerType::Netrom => 0,
            LinkLayerType::Ether => 1,
            LinkLayerType::Eether => 2,
            LinkLayerType::Ax25 => 3,
            LinkLayerType::Pronet => 4,
            LinkLayerType::Chaos => 5,
            LinkLayerType::Ieee802 => 6,
            LinkLayerType::Arcnet => 7,
            LinkLayerType::Appletlk => 8,
            LinkLayerType::Dlci => 15,
            LinkLayerType::Atm => 19,
            LinkLayerType::Metricom => 23,
            LinkLayerType::Ieee1394 => 24,
            LinkLayerType::Eui64 => 27,
            LinkLayerType::Infiniband => 32,
            LinkLayerType::Slip => 256,
            LinkLayerType::Cslip => 257,
            LinkLayerType::Slip6 => 258,
            LinkLayerType::Cslip6 => 259,
            LinkLayerType::Rsrvd => 260,
            LinkLayerType::Adapt => 264,
            LinkLayerType::Rose => 270,
            LinkLayerType::X25 => 271,
            LinkLayerType::Hwx25 => 272,
            LinkLayerType::Can => 280,
            LinkLayerType::Mctp => 290,
            LinkLayerType::Ppp => 512,
            LinkLayerType::Hdlc => 513,
            LinkLayerType::Lapb => 516,
            LinkLayerType::Ddcmp => 517,
            LinkLayerType::Rawhdlc => 518,
            LinkLayerType::Rawip => 519,
            LinkLayerType::Tunnel => 768,
            LinkLayerType::Tunnel6 => 769,
            LinkLayerType::Frad => 770,
            LinkLayerType::Skip => 771,
            LinkLayerType::Loopback => 772,
            LinkLayerType::Localtlk => 773,
            LinkLayerType::Fddi => 774,
            LinkLayerType::Bif => 775,
            LinkLayerType::Sit => 776,
            LinkLayerType::Ipddp => 777,
            LinkLayerType::Ipgre => 778,
            LinkLayerType::Pimreg => 779,
            LinkLayerType::Hippi => 780,
            LinkLayerType::Ash => 781,
            LinkLayerType::Econet => 782,
            LinkLayerType::Irda => 783,
            LinkLayerType::Fcpp => 784,
            LinkLayerType::Fcal => 785,
            LinkLayerType::Fcpl => 786,
            LinkLayerType::Fcfabric => 787,
            LinkLayerType::Ieee802Tr => 800,
            LinkLayerType::Ieee80211 => 801,
            LinkLayerType::Ieee80211Prism => 802,
            LinkLayerType::Ieee80211Radiotap => 803,
            LinkLayerType::Ieee802154 => 804,
            LinkLayerType::Ieee802154Monitor => 805,
            LinkLayerType::Phonet => 820,
            LinkLayerType::PhonetPipe => 821,
            LinkLayerType::Caif => 822,
            LinkLayerType::Ip6gre => 823,
            LinkLayerType::Netlink => 824,
            LinkLayerType::Sixlowpan => 825,
            LinkLayerType::Vsockmon => 826,
            LinkLayerType::None => 65534,
            LinkLayerType::Void => 65535,
        }
    }
}

impl LinkLayerType {
    // Returns the name of the type.
    fn name(self) -> &'static str
        ensures { result.now ≡ link_layer_type_text self }
    {
        match self {
            Self::Netrom => "netrom",
            Self::Ether => "ether",
            Self::Eether => "eether",
            Self::Ax25 => "ax25",
            Self::Pronet => "pronet",
            Self::Chaos => "chaos",
            Self::Ieee802 => "ieee802",
            Self::Arcnet => "arcnet",
            Self::Appletlk => "appletlk",
            Self::Dlci => "dlci",
            Self::Atm => "atm",
            Self::Metricom => "metricom",
            Self::Ieee1394 => "ieee1394",
            Self::Eui64 => "eui64",
            Self::Infiniband => "infiniband",
            Self::Slip => "slip",
            Self::Cslip => "cslip",
            Self::Slip6 => "slip6",
            Self::Cslip6 => "cslip6",
            Self::Rsrvd => "rsrvd",
            Self::Adapt => "adapt",
            Self::Rose => "rose",
            Self::X25 => "x25",
            Self::Hwx25 => "hwx25",
            Self::Can => "can",
            Self::Mctp => "mctp",
            Self::Ppp => "ppp",
            Self::Hdlc => "hdlc",
            Self::Lapb => "lapb",
            Self::Ddcmp => "ddcmp",
            Self::Rawhdlc => "rawhdlc",
            Self::Rawip => "rawip",
            Self::Tunnel => "tunnel",
            Self::Tunnel6 => "tunnel6",
            Self::Frad => "frad",
            Self::Skip => "skip",
            Self::Loopback => "loopback",
            Self::Localtlk => "localtlk",
            Self::Fddi => "fddi",
            Self::Bif => "bif",
            Self::Sit => "sit",
            Self::Ipddp => "ipddp",
            Self::Ipgre => "ipgre",
            Self::Pimreg => "pimreg",
            Self::Hippi => "hippi",
            Self::Ash => "ash",
            Self::Econet => "econet",
            Self::Irda => "irda",
            Self::Fcpp => "fcpp",
            Self::Fcal => "fcal",
            Self::Fcpl => "fcpl",
            Self::Fcfabric => "fcfabric",
            Self::Ieee802Tr => "ieee802tr",
            Self::Ieee80211 => "ieee80211",
            Self::Ieee80211Prism => "ieee80211prism",
            Self::Ieee80211Radiotap => "ieee80211radiotap",
            Self::Ieee802154 => "ieee802154",
            Self::Ieee802154Monitor => "ieee802154monitor",
            Self::Phonet => "phonet",
            Self::PhonetPipe => "phonetpipe",
            Self::Caif => "caif",
            Self::Ip6gre => "ip6gre",
            Self::Netlink => "netlink",
            Self::Sixlowpan => "sixlowpan",
            Self::Vsockmon => "vsockmon",
            Self::None => "none",
            Self::Void => "void",
        }
    }
}

impl fmt::Display for LinkLayerType {
    ghost output = { λ v. Some (link_layer_type_text v) };

    ghost styled_output = { λ v _. Some (link_layer_type_text v) };

    fn fmt<W: fmt::Write>(&self, f: &mut fmt::Formatter<W>) -> fmt::Result {
        f.write_str(self.name())
    }
}
