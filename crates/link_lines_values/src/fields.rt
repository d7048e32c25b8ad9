//! The fields of records, in the order of their bytes, and layouts by index.

ghost use Rattle.std.specs.Prelude.{◌≡◌};
ghost use Rattle.link_lines_values.specs.Layouts.{layout_fields};
ghost use Rattle.link_lines_values.specs.Records.{fields_of};

use crate::number_tables::{GROUP_SIZE, Numbers};
use crate::{device_layouts, layouts, line_layouts, route_layouts, traffic_layouts};

/// How a field of a record is shown, with names of numbers of type `T`, also for bits.
#[derive(Clone, Copy)]
pub enum FieldShownBy<T> {
    /// A little-endian number with its name.
    Number(T),
    /// A signed little-endian number of 1, 2, 4 or 8 bytes.
    Signed,
    /// A big-endian number with its name.
    BigEndian(T),
    /// A little-endian set of flags with the names of its bits; ` (all)` for all bits of 4 bytes.
    Flags(T),
    /// A big-endian set of flags without names; ` (all)` for all bits of 4 bytes.
    BigEndianFlags,
    /// A byte, and in brackets the weight of a next hop, which is one more (rtnetlink.h: the hops of
    /// struct rtnexthop).
    Weight,
    /// A hardware address, padded with zeros.
    Address,
    /// A boolean: a number that is zero or not.
    Boolean,
    /// A handle of 4 bytes with its name: upper and lower 16 bits in hex, as in `8001:0`.
    Handle(T),
    /// A text of fixed size in quotes, without the NULs at its end.
    Text,
    /// An address of 16 bytes and its big-endian protocol with its name (if_bridge.h: the addr of
    /// struct br_mdb_entry).
    Group(T),
    /// An IPv6 address of 16 bytes.
    Ipv6,
    /// Bytes in hex, which are shown only if they aren't all zero.
    Padding,
}

/// A field of a record: its name of type `N`, its size in bytes, and how it is shown, with names of
/// type `T`.
#[derive(Clone, Copy)]
pub struct FieldOf<N, T>(pub N, pub u8, pub FieldShownBy<T>);

/// How a field is shown, with names that are byte strings.
pub type FieldShown = FieldShownBy<Numbers>;

/// A field whose name is a byte string.
pub type Field = FieldOf<&'static [u8], Numbers>;

/// The fields of a record.
pub type Fields = &'static [Field];

/// The layout of a record, by its index.
#[derive(Clone, Copy)]
pub struct Layout(pub u8);

impl Layout {
    /// Returns the fields of a record with this layout.
    #[tactic(auto, unfolding(crate::specs::Layouts::layout_fields))]
    pub fn fields(self) -> Fields
        ensures { fields_of (λ b. b.now) result.now ≡ layout_fields self }
    {
        let index = self.0 % GROUP_SIZE;
        match self.0 / GROUP_SIZE {
            0 => layouts::fields(index),
            1 => line_layouts::fields(index),
            2 => route_layouts::fields(index),
            3 => device_layouts::fields(index),
            4 => traffic_layouts::fields(index),
            _ => &[],
        }
    }
}
