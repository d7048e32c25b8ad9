//! Questions and values that tests of several files share.

use link_info::ListMeasure;
use netlink_packet_core::{DecodeError, Nla, emit_all, fits_all, len_all};
use std::alloc::Global;
use std::fmt::Debug;
use std::test::Fail;

/// Returns a name of `size` bytes.
pub(crate) fn name_of(alloc: Global, size: usize) -> Result<String, Fail> {
    match String::from_utf8(Vec::from_elem(alloc, b'a', size)?) {
        Ok(name) => Ok(name),
        Err(_) => Err(Fail::from("a name of ASCII")),
    }
}

/// Returns whether a value was read whose Debug text is this; not if an allocation fails.
pub(crate) fn is_shown<V: Debug + Drop>(
    alloc: Global,
    read: Result<V, DecodeError>,
    text: &str,
) -> bool {
    match read {
        Ok(value) => match format!(in alloc; "{value:?}") {
            Ok(shown) => shown.as_str() == text,
            Err(_) => false,
        },
        Err(_) => false,
    }
}

/// Returns whether a result is a refusal, not out of memory.
pub(crate) fn is_refused<V: Drop>(read: Result<V, DecodeError>) -> bool {
    match read {
        Ok(_) => false,
        Err(error) => !error.is_memory(),
    }
}

/// Returns whether a value is written as these bytes, at most 64.
pub(crate) fn is_written_as<N: Nla>(value: &N, bytes: &[u8]) -> bool {
    let mut buffer = [0xffu8; 64];
    let size = value.buffer_len();
    if !value.fits() || size > buffer.len() {
        return false;
    }
    value.emit(&mut buffer);
    &buffer[..size] == bytes
}

/// Returns whether values are written as these bytes, at most 64.
pub(crate) fn are_written_as<N: Nla>(values: &[N], bytes: &[u8]) -> bool {
    let mut buffer = [0xffu8; 64];
    let size = len_all(values);
    if !fits_all(values) || size > buffer.len() {
        return false;
    }
    emit_all(values, &mut buffer);
    &buffer[..size] == bytes
}

/// Returns the length of a list's text, the number of its attributes, and whether it fits; none if
/// it is refused.
pub(crate) fn counts(measure: Result<ListMeasure, DecodeError>) -> Option<(u128, u64, bool)> {
    match measure {
        Ok(measure) => Some((measure.text_len, measure.attributes, measure.fits)),
        Err(_) => None,
    }
}
