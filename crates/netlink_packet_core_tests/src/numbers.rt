use netlink_packet_core::{
    emit_i32, emit_u64_be, emit_u128_le, fill_ip, fill_range, fill_text, parse_bool, parse_i16,
    parse_ip, parse_mac, parse_one, parse_string, parse_u16_be, parse_u32, parse_u128_be,
};
use std::net::{IpAddr, Ipv4Addr, Ipv6Addr};

#[test]
fn numbers_booleans_and_addresses_are_read(rt: HostRuntime) {
    assert!(rt; parse_u16_be(&[0x12, 0x34]) == Ok(0x1234));
    assert!(rt; parse_u32(&[0x34, 0x0e, 0xf9, 0x5a]) == Ok(1526271540));
    assert!(rt; parse_i16(&[0xfe, 0xff]) == Ok(-2));
    let octets = [0x20, 0x01, 0x0d, 0xb8, 0, 0, 0, 0, 0, 0, 0, 0, 0, 0, 0, 1];
    assert!(rt; parse_u128_be(&octets) == Ok(0x20010db8000000000000000000000001));
    let documentation = Ipv6Addr::new(0x2001, 0xdb8, 0, 0, 0, 0, 0, 1);
    assert!(rt; parse_ip(&octets) == Ok(IpAddr::V6(documentation)));
    assert!(rt; parse_ip(&[127, 0, 0, 1]) == Ok(IpAddr::V4(Ipv4Addr::new(127, 0, 0, 1))));
    assert!(rt; (parse_bool(&[2]), parse_one(&[2])) == (Ok(true), Ok(false)));
    assert!(rt; parse_mac(&[0, 0, 94, 0, 83, 1]) == Ok([0, 0, 94, 0, 83, 1]));
}

#[test]
fn texts_are_read(rt: HostRuntime) {
    let read = parse_string(rt.alloc(), &[0x6c, 0x6f, 0x00]);
    assert!(rt; matches!(&read, Ok(text) if text.as_str() == "lo"));
    let refused = parse_string(rt.alloc(), &[0xff, 0x00]);
    assert!(rt; matches!(&refused, Err(error) if !error.is_memory()));
}

#[test]
fn numbers_and_whole_payloads_are_written(rt: HostRuntime) {
    let mut buffer = [9u8; 17];
    let emitted = emit_i32(&mut buffer, -19);
    assert!(rt; emitted.is_ok() && buffer.starts_with(&[0xed, 0xff, 0xff, 0xff, 9]));
    let emitted = emit_u64_be(&mut buffer, 0x0102030405060708);
    assert!(rt; emitted.is_ok() && buffer.starts_with(&[1, 2, 3, 4, 5, 6, 7, 8, 9]));
    let emitted = emit_u128_le(&mut buffer, 0x0807060504030201);
    assert!(rt; emitted.is_ok() && buffer == [1, 2, 3, 4, 5, 6, 7, 8, 0, 0, 0, 0, 0, 0, 0, 0, 9]);
    let mut four = [9u8; 4];
    fill_range(&mut four, (32768, 61000));
    assert!(rt; four == [0x80, 0x00, 0xee, 0x48]);
    fill_ip(&mut four, &IpAddr::V4(Ipv4Addr::new(127, 0, 0, 1)));
    assert!(rt; four == [127, 0, 0, 1]);
    let mut text = [9u8; 3];
    fill_text(&mut text, "lo");
    assert!(rt; text == [0x6c, 0x6f, 0x00]);
}
