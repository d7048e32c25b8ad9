//! Virtual functions by their own reader, and how their addresses are made.

use super::values::is_shown;
use attribute_tables::parse_entries;
use link_message_nested::LinkVfInfoReader;
use link_message_records::VfInfoMac;

/// A function with a list of one VLAN, without the padding at its end.
const FUNCTION: [u8; 26] = [
    26, 0, 1, 0, 22, 0, 12, 0, 18, 0, 1, 0, 0, 0, 0, 0, 100, 0, 0, 0, 0, 0, 0, 0, 129, 0,
];

#[test]
fn a_list_of_vlans_is_read(rt: HostRuntime) {
    let functions = parse_entries(rt.alloc(), &LinkVfInfoReader, &FUNCTION);
    let text = "[LinkVfInfo([VlanList([Info(VfVlanInfo \
        { vf_id: 0, vlan_id: 100, qos: 0, protocol: Ieee8021Q })])])]";
    assert!(rt; is_shown(rt.alloc(), functions, text));
}

#[test]
fn addresses_are_cut_or_filled_up(rt: HostRuntime) {
    assert!(rt; VfInfoMac::new(1, &[7; 40]).mac == [7; 32]);
    assert!(rt; VfInfoMac::new(1, &[]).mac == [0; 32]);
}
