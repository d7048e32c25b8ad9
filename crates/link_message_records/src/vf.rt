//! Records of virtual functions.
#![tactic(auto, using(netlink_packet_core_grammar::proofs::Sizes::sizes))]

ghost use Rattle.std.specs.Prelude.{◌≡◌, ⊤, refl, take, length, ◌++◌};
ghost use Rattle.netlink_packet_core.specs.Attributes.{zeros};
ghost use Rattle.netlink_packet_core.specs.Numbers.{be2};
ghost use Rattle.link_message_types.specs.VfTypes.{vf_link_state_number, vf_link_state_of};
ghost use Rattle.link_message_types.specs.VlanTypes.{vlan_protocol_number, vlan_protocol_of};
ghost use Rattle.link_message_records.specs.VfRecords.{vf_info_vlan_bytes, vf_info_tx_rate_bytes, vf_info_rate_bytes};
ghost use Rattle.link_message_records.specs.VfRecords.{vf_info_link_state_bytes, vf_info_mac_bytes};
ghost use Rattle.link_message_records.specs.VfRecords.{vf_info_broadcast_bytes, vf_vlan_info_bytes};

use super::record::{FieldRecord, bytes_of, write_record};
use link_message_types::{Record, RecordBuffer, VfLinkState, VlanProtocol};
use netlink_packet_core::Emitable;

/// The VLAN of a virtual function, `struct ifla_vf_vlan` of `linux/if_link.h`. On the wire 12
/// bytes, numbers of 4 bytes in native order.
#[derive(Debug, PartialEq, Eq, Clone, Copy)]
pub struct VfInfoVlan {
    /// The number of the virtual function.
    pub vf_id: u32,
    /// The VLAN id, 0 for none.
    pub vlan_id: u32,
    /// The quality of service (priority).
    pub qos: u32,
}

impl VfInfoVlan {
    /// Returns a record of these fields.
    pub fn new(vf_id: u32, vlan_id: u32, qos: u32) -> Self
        ensures vf_id { result.vf_id ≡ vf_id }
        ensures vlan_id { result.vlan_id ≡ vlan_id }
        ensures qos { result.qos ≡ qos }
    {
        Self {
            vf_id,
            vlan_id,
            qos,
        }
    }
}

impl Emitable for VfInfoVlan {
    ghost text = { vf_info_vlan_bytes };

    ghost can_emit = { λ _. ⊤ };

    fn buffer_len(&self) -> usize {
        12
    }

    fn emit(&self, buffer: &mut [u8]) {
        write_record(self, buffer);
    }
}

impl Record<12> for VfInfoVlan {
    fn to_bytes(&self) -> [u8; 12] {
        bytes_of(self)
    }
}

impl FieldRecord<12> for VfInfoVlan {
    type Fields = (u32, (u32, u32));

    ghost fields_of = { λ v. (v.vf_id, (v.vlan_id, v.qos)) };

    fn from_fields((vf_id, (vlan_id, qos)): Self::Fields) -> Self {
        Self::new(vf_id, vlan_id, qos)
    }

    fn fields(&self) -> Self::Fields {
        (self.vf_id, (self.vlan_id, self.qos))
    }

    ghost fills_record = { refl };
}

/// The 12 bytes of a `VfInfoVlan`.
pub type VfInfoVlanBuffer = RecordBuffer<VfInfoVlan, 12>;

/// The maximum rate of a virtual function, `struct ifla_vf_tx_rate` of `linux/if_link.h`. On the
/// wire 8 bytes, numbers of 4 bytes in native order.
#[derive(Debug, PartialEq, Eq, Clone, Copy)]
pub struct VfInfoTxRate {
    /// The number of the virtual function.
    pub vf_id: u32,
    /// The maximum rate of transmission, in Mbit/s, 0 for no limit.
    pub rate: u32,
}

impl VfInfoTxRate {
    /// Returns a record of these fields.
    pub fn new(vf_id: u32, rate: u32) -> Self
        ensures vf_id { result.vf_id ≡ vf_id }
        ensures rate { result.rate ≡ rate }
    {
        Self { vf_id, rate }
    }
}

impl Emitable for VfInfoTxRate {
    ghost text = { vf_info_tx_rate_bytes };

    ghost can_emit = { λ _. ⊤ };

    fn buffer_len(&self) -> usize {
        8
    }

    fn emit(&self, buffer: &mut [u8]) {
        write_record(self, buffer);
    }
}

impl Record<8> for VfInfoTxRate {
    fn to_bytes(&self) -> [u8; 8] {
        bytes_of(self)
    }
}

impl FieldRecord<8> for VfInfoTxRate {
    type Fields = (u32, u32);

    ghost fields_of = { λ v. (v.vf_id, v.rate) };

    fn from_fields((vf_id, rate): Self::Fields) -> Self {
        Self { vf_id, rate }
    }

    fn fields(&self) -> Self::Fields {
        (self.vf_id, self.rate)
    }

    ghost fills_record = { refl };
}

/// The 8 bytes of a `VfInfoTxRate`.
pub type VfInfoTxRateBuffer = RecordBuffer<VfInfoTxRate, 8>;

/// The minimum and maximum rate of a virtual function, `struct ifla_vf_rate` of `linux/if_link.h`.
/// On the wire 12 bytes, numbers of 4 bytes in native order.
#[derive(Debug, PartialEq, Eq, Clone, Copy)]
pub struct VfInfoRate {
    /// The number of the virtual function.
    pub vf_id: u32,
    /// The guaranteed minimum rate of transmission, in Mbit/s.
    pub min_tx_rate: u32,
    /// The maximum rate of transmission, in Mbit/s, 0 for no limit.
    pub max_tx_rate: u32,
}

impl VfInfoRate {
    /// Returns a record of these fields.
    pub fn new(vf_id: u32, min_tx_rate: u32, max_tx_rate: u32) -> Self
        ensures vf_id { result.vf_id ≡ vf_id }
        ensures min_tx_rate { result.min_tx_rate ≡ min_tx_rate }
        ensures max_tx_rate { result.max_tx_rate ≡ max_tx_rate }
    {
        Self {
            vf_id,
            min_tx_rate,
            max_tx_rate,
        }
    }
}

impl Emitable for VfInfoRate {
    ghost text = { vf_info_rate_bytes };

    ghost can_emit = { λ _. ⊤ };

    fn buffer_len(&self) -> usize {
        12
    }

    fn emit(&self, buffer: &mut [u8]) {
        write_record(self, buffer);
    }
}

impl Record<12> for VfInfoRate {
    fn to_bytes(&self) -> [u8; 12] {
        bytes_of(self)
    }
}

impl FieldRecord<12> for VfInfoRate {
    type Fields = (u32, (u32, u32));

    ghost fields_of = { λ v. (v.vf_id, (v.min_tx_rate, v.max_tx_rate)) };

    fn from_fields((vf_id, (min_tx_rate, max_tx_rate)): Self::Fields) -> Self {
        Self::new(vf_id, min_tx_rate, max_tx_rate)
    }

    fn fields(&self) -> Self::Fields {
        (self.vf_id, (self.min_tx_rate, self.max_tx_rate))
    }

    ghost fills_record = { refl };
}

/// The 12 bytes of a `VfInfoRate`.
pub type VfInfoRateBuffer = RecordBuffer<VfInfoRate, 12>;

/// The link state of a virtual function, `struct ifla_vf_link_state` of `linux/if_link.h`. On the
/// wire 8 bytes, numbers of 4 bytes in native order.
#[derive(Debug, PartialEq, Eq, Clone, Copy)]
pub struct VfInfoLinkState {
    /// The number of the virtual function.
    pub vf_id: u32,
    /// The link state.
    pub state: VfLinkState,
}

impl VfInfoLinkState {
    /// Returns a record of these fields.
    pub fn new(vf_id: u32, state: VfLinkState) -> Self
        ensures vf_id { result.vf_id ≡ vf_id }
        ensures state { result.state ≡ state }
    {
        Self { vf_id, state }
    }
}

impl Emitable for VfInfoLinkState {
    ghost text = { vf_info_link_state_bytes };

    ghost can_emit = { λ _. ⊤ };

    fn buffer_len(&self) -> usize {
        8
    }

    fn emit(&self, buffer: &mut [u8]) {
        write_record(self, buffer);
    }
}

impl Record<8> for VfInfoLinkState {
    fn to_bytes(&self) -> [u8; 8] {
        bytes_of(self)
    }
}

impl FieldRecord<8> for VfInfoLinkState {
    type Fields = (u32, u32);

    ghost fields_of = { λ v. (v.vf_id, vf_link_state_number v.state) };

    ghost is_named = { λ v. v.state ≡ vf_link_state_of (vf_link_state_number v.state) };

    fn from_fields((vf_id, state): Self::Fields) -> Self {
        Self {
            vf_id,
            state: VfLinkState::from(state),
        }
    }

    fn fields(&self) -> Self::Fields {
        (self.vf_id, u32::from(self.state))
    }

    ghost fills_record = { refl };
}

/// The 8 bytes of a `VfInfoLinkState`.
pub type VfInfoLinkStateBuffer = RecordBuffer<VfInfoLinkState, 8>;

/// The hardware address of a virtual function, `struct ifla_vf_mac` of `linux/if_link.h`. On the
/// wire 36 bytes: a number of 4 bytes in native order, and 32 bytes.
#[derive(Debug, PartialEq, Eq, Clone, Copy)]
pub struct VfInfoMac {
    /// The number of the virtual function.
    pub vf_id: u32,
    /// The address, padded with zeros.
    pub mac: [u8; 32],
}

impl VfInfoMac {
    /// Returns a record of a virtual function and an address; a longer address is truncated, a
    /// shorter one padded with zeros.
    pub fn new(vf_id: u32, mac: &[u8]) -> Self
        ensures vf_id { result.vf_id ≡ vf_id }
        ensures mac { result.mac ≡ take 32 (mac.now ++ zeros 32) }
    {
        Self {
            vf_id,
            mac: filled(mac),
        }
    }
}

impl Emitable for VfInfoMac {
    ghost text = { vf_info_mac_bytes };

    ghost can_emit = { λ _. ⊤ };

    fn buffer_len(&self) -> usize {
        4 + self.mac.as_slice().len()
    }

    fn emit(&self, buffer: &mut [u8]) {
        write_record(self, buffer);
    }
}

impl Record<36> for VfInfoMac {
    fn to_bytes(&self) -> [u8; 36] {
        bytes_of(self)
    }
}

impl FieldRecord<36> for VfInfoMac {
    type Fields = (u32, [u8; 32]);

    ghost fields_of = { λ v. (v.vf_id, v.mac) };

    fn from_fields((vf_id, mac): Self::Fields) -> Self {
        Self { vf_id, mac }
    }

    fn fields(&self) -> Self::Fields {
        (self.vf_id, self.mac)
    }

    ghost fills_record = { refl };
}

/// The 36 bytes of a `VfInfoMac`.
pub type VfInfoMacBuffer = RecordBuffer<VfInfoMac, 36>;

/// The broadcast address of a virtual function, `struct ifla_vf_broadcast` of `linux/if_link.h`. On
/// the wire 32 bytes.
#[derive(Debug, PartialEq, Eq, Clone, Copy)]
pub struct VfInfoBroadcast {
    /// The address, padded with zeros.
    pub addr: [u8; 32],
}

impl VfInfoBroadcast {
    /// Returns a record of an address; a longer one is truncated, a shorter one padded with zeros.
    pub fn new(addr: &[u8]) -> Self
        ensures { result.addr ≡ take 32 (addr.now ++ zeros 32) }
    {
        Self { addr: filled(addr) }
    }
}

impl Emitable for VfInfoBroadcast {
    ghost text = { vf_info_broadcast_bytes };

    ghost can_emit = { λ _. ⊤ };

    fn buffer_len(&self) -> usize {
        self.addr.as_slice().len()
    }

    fn emit(&self, buffer: &mut [u8]) {
        write_record(self, buffer);
    }
}

impl Record<32> for VfInfoBroadcast {
    fn to_bytes(&self) -> [u8; 32] {
        bytes_of(self)
    }
}

impl FieldRecord<32> for VfInfoBroadcast {
    type Fields = [u8; 32];

    ghost fields_of = { λ v. v.addr };

    fn from_fields(addr: Self::Fields) -> Self {
        Self { addr }
    }

    fn fields(&self) -> Self::Fields {
        self.addr
    }

    ghost fills_record = { refl };
}

/// The 32 bytes of a `VfInfoBroadcast`.
pub type VfInfoBroadcastBuffer = RecordBuffer<VfInfoBroadcast, 32>;

/// A VLAN in the list of a virtual function, `struct ifla_vf_vlan_info` of `linux/if_link.h`. On
/// the wire 16 bytes: three numbers of 4 bytes in native order, the protocol in 2 bytes,
/// big-endian, and 2 zeros, which may be missing when reading.
#[derive(Debug, PartialEq, Eq, Clone, Copy)]
pub struct VfVlanInfo {
    /// The number of the virtual function.
    pub vf_id: u32,
    /// The VLAN id, 0 for none.
    pub vlan_id: u32,
    /// The quality of service (priority).
    pub qos: u32,
    /// The protocol of the tag.
    pub protocol: VlanProtocol,
}

impl VfVlanInfo {
    /// Returns a record of these fields.
    pub fn new(vf_id: u32, vlan_id: u32, qos: u32, protocol: VlanProtocol) -> Self
        ensures vf_id { result.vf_id ≡ vf_id }
        ensures vlan_id { result.vlan_id ≡ vlan_id }
        ensures qos { result.qos ≡ qos }
        ensures protocol { result.protocol ≡ protocol }
    {
        Self {
            vf_id,
            vlan_id,
            qos,
            protocol,
        }
    }
}

#[tactic(auto, using(netlink_packet_core_grammar::proofs::Sizes::sizes, crate::proofs::Pairs::pairs))]
impl Emitable for VfVlanInfo {
    ghost text = { vf_vlan_info_bytes };

    ghost can_emit = { λ _. ⊤ };

    fn buffer_len(&self) -> usize {
        16
    }

    fn emit(&self, buffer: &mut [u8]) {
        write_record(self, buffer);
    }
}

impl Record<16> for VfVlanInfo {
    fn to_bytes(&self) -> [u8; 16] {
        bytes_of(self)
    }
}

impl FieldRecord<16> for VfVlanInfo {
    type Fields = (u32, (u32, (u32, [u8; 2])));

    ghost fields_of = { λ v.
        (v.vf_id, (v.vlan_id, (v.qos, be2 (vlan_protocol_number v.protocol)))) };

    ghost is_named = { λ v. v.protocol ≡ vlan_protocol_of (vlan_protocol_number v.protocol) };

    #[tactic(auto, using(netlink_packet_core_grammar::proofs::Numbers::be2_read))]
    fn from_fields((vf_id, (vlan_id, (qos, protocol))): Self::Fields) -> Self {
        Self {
            vf_id,
            vlan_id,
            qos,
            protocol: VlanProtocol::from(u16::from_be_bytes(protocol)),
        }
    }

    #[tactic(auto, using(netlink_packet_core_grammar::proofs::Numbers::digits))]
    fn fields(&self) -> Self::Fields {
        (
            self.vf_id,
            (
                self.vlan_id,
                (self.qos, u16::from(self.protocol).to_be_bytes()),
            ),
        )
    }

    ghost fills_record = { refl };
}

/// The 16 bytes of a `VfVlanInfo`.
pub(crate) type VfVlanInfoBuffer = RecordBuffer<VfVlanInfo, 16>;

/// Returns the first `N` of some bytes, padded with zeros if there are fewer.
pub(crate) fn filled<const N: usize>(bytes: &[u8]) -> [u8; N]
    ensures { result ≡ take N (bytes.now ++ zeros N) }
{
    let mut filled = [0; N];
    let count = bytes.len().min(N);
    filled[..count].copy_from_slice(&bytes[..count]);
    filled
}
