// Lists of attributes of one table, read into typed values.
#![tactic(auto)]

mod bytes;
mod entries;
mod family;
mod reader;

pub use bytes::parse_bytes;
pub use entries::{EntryReader, parse_entries, parse_ports};
pub use family::{FamilyReader, parse_family, parse_first};
pub use reader::{Reader, parse_first_by, parse_list};

/// The variant of a payload that was read, or the error. A number type or a flag set is made from
/// the number. Kinds that are read alike may share an arm: `of_u32(kind)` names the function that
/// makes the variant of a kind. (A `match`, since `?` in each arm of a long table doubles the time
/// that the prover takes.)
#[macro_export]
macro_rules! typed {
    ($make:ident($kind:ident), $read:expr) => {
        match $read {
            Ok(value) => Ok(Self::$make($kind, value)),
            Err(error) => Err(error),
        }
    };
    ($variant:ident, $read:expr) => {
        match $read {
            Ok(value) => Ok(Some(Self::$variant(value))),
            Err(error) => Err(error),
        }
    };
    ($variant:ident, $read:expr, $name:ident) => {
        match $read {
            Ok(value) => Ok(Some(Self::$variant($name::from(value)))),
            Err(error) => Err(error),
        }
    };
    ($variant:ident, $read:expr, $name:ident::$make:ident) => {
        match $read {
            Ok(value) => Ok(Some(Self::$variant($name::$make(value)))),
            Err(error) => Err(error),
        }
    };
}
