//! The checks of number types and flag sets, through their traits.

use link_info::Flags;
use netlink_packet_core::DecodeError;
use std::alloc::Global;
use std::fmt::Display;
use std::str::FromStr;

/// Returns whether a number is read as this value, and the value has this number.
pub fn is_numbered<N, T>(number: N, value: T) -> bool
where
    N: Copy + PartialEq + From<T>,
    T: Copy + PartialEq + From<N>,
{
    T::from(number) == value && N::from(value) == number
}

/// Returns whether a value is displayed as this text; not if an allocation fails.
pub fn is_displayed<T: Copy + Display>(alloc: Global, value: T, text: &str) -> bool {
    match format!(in alloc; "{value}") {
        Ok(shown) => shown.as_str() == text,
        Err(_) => false,
    }
}

/// Returns whether a value is displayed as this text, and the text names the value.
pub fn is_named<T>(alloc: Global, value: T, text: &str) -> bool
where
    T: Copy + Display + PartialEq + FromStr<Err = DecodeError>,
{
    T::from_str(text) == Ok(value) && is_displayed(alloc, value, text)
}

/// Returns whether a flag has these bits, another flag has others, and a set keeps the bits of
/// both.
pub fn are_flags<F>(flag: F, bits: F::Bits, other: F) -> bool
where
    F: Flags + Copy + PartialEq,
{
    let both = flag.union(other);
    flag.bits() == bits
        && F::from_bits_retain(bits) == flag
        && !flag.contains(other)
        && both.contains(flag)
        && both.contains(other)
        && F::empty().is_empty()
}
