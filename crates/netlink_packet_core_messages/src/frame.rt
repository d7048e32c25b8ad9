//! The frame at the start of some bytes.

ghost use Rattle.std.specs.Prelude.{◌≡◌, ◌<◌, ◌≤◌, ◌^◌, true, false, length, IfSome, IfNone};
ghost use Rattle.netlink_packet_core_grammar.specs.Frames.{frame_length, begins_with_frame};

use crate::buffer::{NETLINK_HEADER_LEN, NetlinkBuffer};

/// Returns the length in bytes of the frame at the start of some bytes, if they begin with a whole
/// one: if `NetlinkBuffer::new_checked` accepts them. The length counts the header, and no padding.
pub fn first_frame_len(bytes: &[u8]) -> Option<usize>
    ensures some { IfSome result (λ n. (begins_with_frame bytes.now ≡ true) × (n ≡ frame_length bytes.now)) }
    ensures none { IfNone result (begins_with_frame bytes.now ≡ false) }
    ensures bounds { IfSome result (λ n. (16 ≤ n) × (n ≤ length bytes.now) × (n < 2 ^ 32)) }
{
    if bytes.len() < NETLINK_HEADER_LEN {
        return None;
    }
    let size = NetlinkBuffer::new(bytes).length() as usize;
    if size < NETLINK_HEADER_LEN || size > bytes.len() {
        return None;
    }
    Some(size)
}
