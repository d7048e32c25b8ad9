//! Settings of virtual functions that are on or off.

ghost use Rattle.std.specs.Prelude.{◌≡◌, ◌↔◌, ◌++◌, ⊤, true, false, length, IsOk, IfOk, IfErr};
ghost use Rattle.netlink_packet_core.specs.Attributes.{zeros};
ghost use Rattle.netlink_packet_core.specs.Errors.{is_memory};
ghost use Rattle.netlink_packet_core.specs.Booleans.{boolean_byte};
ghost use Rattle.attribute_tables_grammar.specs.Shapes.{accepts, meaning, encoding, id_and_boolean, number_boolean};
ghost use Rattle.link_message_records.specs.VfSettings.{vf_info_setting_bytes};

use link_message_types::{Record, RecordBuffer};
use netlink_packet_core::{DecodeError, Emitable, fill_bool, fill_u32, parse_u32};

/// The size of a setting in bytes.
const VF_INFO_SETTING_LEN: usize = 8;

/// A setting of a virtual function that is on or off, such as `struct ifla_vf_spoofchk` of
/// `linux/if_link.h`, by the kind of its attribute. On the wire 8 bytes, numbers of 4 bytes in
/// native order; every number except 0 is on, and is written as 1.
#[derive(Debug, PartialEq, Eq, Clone, Copy)]
pub struct VfInfoSetting<const KIND: u16> {
    /// The number of the virtual function.
    pub vf_id: u32,
    /// Whether the setting is on.
    pub enabled: bool,
}

/// Whether spoofed source addresses of a virtual function are checked: `IFLA_VF_SPOOFCHK`.
pub type VfInfoSpoofCheck = VfInfoSetting<4>;

/// Whether a virtual function may query its RSS configuration: `IFLA_VF_RSS_QUERY_EN`.
pub type VfInfoRssQueryEn = VfInfoSetting<7>;

/// Whether a virtual function is trusted: `IFLA_VF_TRUST`.
pub type VfInfoTrust = VfInfoSetting<9>;

/// The 8 bytes of a `VfInfoSpoofCheck`.
pub type VfInfoSpoofCheckBuffer = RecordBuffer<VfInfoSpoofCheck, 8>;

/// The 8 bytes of a `VfInfoRssQueryEn`.
pub type VfInfoRssQueryEnBuffer = RecordBuffer<VfInfoRssQueryEn, 8>;

/// The 8 bytes of a `VfInfoTrust`.
pub type VfInfoTrustBuffer = RecordBuffer<VfInfoTrust, 8>;

impl<const KIND: u16> VfInfoSetting<KIND> {
    /// Returns a record of these fields.
    pub fn new(vf_id: u32, enabled: bool) -> Self
        ensures vf_id { result.vf_id ≡ vf_id }
        ensures enabled { result.enabled ≡ enabled }
    {
        Self { vf_id, enabled }
    }

    /// Reads the record at the start of a payload; the bytes after it are dropped. Allocates
    /// nothing.
    ///
    /// # Errors
    ///
    /// A refusal if the payload has fewer than 8 bytes.
    pub fn parse(payload: &[u8]) -> Result<Self, DecodeError>
        ensures size { IsOk result ↔ (accepts id_and_boolean payload.now ≡ true) }
        ensures text { IfOk result
            (λ v. vf_info_setting_bytes v
            ≡ encoding id_and_boolean (meaning id_and_boolean payload.now)) }
        ensures err { IfErr result (λ e. is_memory e ≡ false) }
    {
        if payload.len() < VF_INFO_SETTING_LEN {
            return Err(DecodeError::invalid_number(VF_INFO_SETTING_LEN, payload.len()));
        }
        let (vf_id, rest) = payload.split_at(4);
        let (boolean, _) = rest.split_at(4);
        Ok(Self {
            vf_id: parse_u32(vf_id)?,
            enabled: is_true(boolean),
        })
    }
}

/// Returns whether a number of 4 bytes isn't 0.
#[tactic(auto, using(crate::proofs::BooleanBytes::booleans))]
fn is_true(bytes: &[u8]) -> bool
    requires { length bytes.now ≡ 4 }
    ensures { boolean_byte result ++ zeros 3 ≡ number_boolean bytes.now }
{
    match bytes {
        [a, b, c, d] => *a as u32 + *b as u32 + *c as u32 + *d as u32 != 0,
        _ => unreachable!(),
    }
}

impl<const KIND: u16> Emitable for VfInfoSetting<KIND> {
    ghost text = { vf_info_setting_bytes };

    ghost can_emit = { λ _. ⊤ };

    #[tactic(auto, using(crate::proofs::BooleanBytes::setting_sizes))]
    fn buffer_len(&self) -> usize {
        VF_INFO_SETTING_LEN
    }

    #[tactic(auto, using(crate::proofs::BooleanBytes::setting_sizes))]
    fn emit(&self, buffer: &mut [u8]) {
        let (prefix, _) = buffer.split_at_mut(VF_INFO_SETTING_LEN);
        fill_setting(self, prefix);
    }
}

impl<const KIND: u16> Record<8> for VfInfoSetting<KIND> {
    fn to_bytes(&self) -> [u8; 8] {
        let mut bytes = [0; 8];
        fill_setting(self, &mut bytes);
        bytes
    }
}

/// Writes a setting to a buffer of its size.
#[tactic(auto, using(netlink_packet_core_grammar::proofs::Sizes::sizes))]
fn fill_setting<const KIND: u16>(setting: &VfInfoSetting<KIND>, buffer: &mut [u8])
    requires { length buffer.old ≡ 8 }
    ensures { buffer.new ≡ vf_info_setting_bytes setting.now }
{
    let (vf_id, rest) = buffer.split_at_mut(4);
    fill_u32(vf_id, setting.vf_id);
    let (boolean, zeros) = rest.split_at_mut(1);
    fill_bool(boolean, setting.enabled);
    zeros.fill(0);
}
