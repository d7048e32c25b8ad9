//! Numbers, addresses and texts of netlink messages as bytes, and the errors of reading them.
#![tactic(auto)]

pub mod emitters;
pub mod error;
pub mod laws;
pub mod parsers;
pub mod payloads;

pub use emitters::{
    emit_i16, emit_i16_be, emit_i16_le, emit_i32, emit_i32_be, emit_i32_le, emit_i64, emit_i64_be,
    emit_i64_le, emit_i128, emit_i128_be, emit_i128_le, emit_u16, emit_u16_be, emit_u16_le,
    emit_u32, emit_u32_be, emit_u32_le, emit_u64, emit_u64_be, emit_u64_le, emit_u128,
    emit_u128_be, emit_u128_le,
};
pub use error::{ContextText, DecodeError, ErrorContext};
pub use parsers::{
    is_text, parse_bool, parse_i8, parse_i16, parse_i16_be, parse_i16_le, parse_i32, parse_i32_be,
    parse_i32_le, parse_i64, parse_i64_be, parse_i64_le, parse_i128, parse_i128_be, parse_i128_le,
    parse_ip, parse_ipv4_addr, parse_ipv6, parse_ipv6_addr, parse_mac, parse_one, parse_range,
    parse_str, parse_string, parse_u8, parse_u16, parse_u16_be, parse_u16_le, parse_u32,
    parse_u32_be, parse_u32_le, parse_u64, parse_u64_be, parse_u64_le, parse_u128, parse_u128_be,
    parse_u128_le, without_nul,
};
pub use payloads::{
    fill_bool, fill_ip, fill_mac, fill_range, fill_text, fill_u8, fill_u16, fill_u16_be, fill_u32,
    fill_u32_be, fill_u64, fill_u64_be, ip_len,
};
