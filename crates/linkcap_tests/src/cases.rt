//! Cases as texts, of which the first part is bytes in hex.

use hex::decode;
use std::alloc::Global;
use std::test::Fail;

/// Returns the bytes of a text in hex.
pub(crate) fn bytes_of(alloc: Global, text: &str) -> Result<Vec<u8>, Fail> {
    match decode(alloc, text) {
        Ok(bytes) => Ok(bytes),
        Err(_) => Err(Fail::from("not hex")),
    }
}

/// Returns the bytes in hex before the first delimiter of a case, and the text after it.
pub(crate) fn split(
    alloc: Global,
    case: &'static str,
    delimiter: char,
) -> Result<(Vec<u8>, &'static str), Fail> {
    let Some((bytes, text)) = case.split_once(delimiter) else {
        return Err(Fail::from("no delimiter"));
    };
    Ok((bytes_of(alloc, bytes)?, text))
}
