//! Appends to a vector that has the capacity.

ghost use Rattle.std.specs.Prelude.{◌≡◌, ◌≤◌, ◌+◌, ◌-◌, ◌++◌, length, take, drop, vec_capacity};
ghost use Rattle.netlink_packet_core_grammar.specs.Attributes.{attribute_header, nla_align, zeros};
ghost use Rattle.link_interpreter.specs.Capacity.{HasCapacity};

/// Appends `bytes`.
pub fn append(bytes: &[u8], out: &mut Vec<u8>)
    requires { HasCapacity out.old bytes.now }
    ensures text { out.new.items ≡ out.old.items ++ bytes.now }
    ensures capacity { vec_capacity out.old ≤ vec_capacity out.new }
{
    if out.extend_from_slice(bytes).is_err() {
        unreachable!();
    }
}

/// Appends `count` zeros.
pub fn append_zeros(count: usize, out: &mut Vec<u8>)
    requires { length out.old.items + count ≤ vec_capacity out.old }
    ensures text { out.new.items ≡ out.old.items ++ zeros count }
    ensures capacity { vec_capacity out.old ≤ vec_capacity out.new }
{
    if count > 0 && out.resize(out.len() + count, 0).is_err() {
        unreachable!();
    }
}

/// Writes the header of an attribute whose payload has `size` bytes over the four bytes at offset
/// `at`: length and kind, 2 bytes each, little-endian (netlink.h, struct nlattr).
pub fn write_header(at: usize, kind: u16, size: usize, out: &mut Vec<u8>)
    requires offset { at + 4 ≤ length out.old.items }
    requires size { 4 + size ≤ 65535 }
    ensures text { out.new.items
        ≡ take at out.old.items ++ (attribute_header (4 + size) kind ++ drop (at + 4) out.old.items) }
    ensures capacity { vec_capacity out.old ≤ vec_capacity out.new }
{
    let [a, b] = (4 + size as u16).to_le_bytes();
    let [c, d] = kind.to_le_bytes();
    out.as_mut_slice()[at..at + 4].copy_from_slice(&[a, b, c, d]);
}

/// Appends the padding after `size` bytes, as zeros, up to a multiple of 4.
#[inline(always)]
pub fn append_padding(size: usize, out: &mut Vec<u8>)
    requires { length out.old.items + (nla_align size - size) ≤ vec_capacity out.old }
    ensures text { out.new.items ≡ out.old.items ++ zeros (nla_align size - size) }
    ensures capacity { vec_capacity out.old ≤ vec_capacity out.new }
{
    match size % 4 {
        1 => append(&[0, 0, 0], out),
        2 => append(&[0, 0], out),
        3 => append(&[0], out),
        _ => {}
    }
}
