//! The attributes of the first frame of some bytes.

ghost use Rattle.std.specs.Prelude.{◌≡◌, ◌<◌, ◌≤◌, ◌+◌, ◌^◌, length, IfSome};
ghost use Rattle.netlink_packet_core.specs.Frames.{BeginsWithFrame};
ghost use Rattle.link_capture_attributes.specs.Attributes.{first_from, frame_attributes};
ghost use Rattle.link_capture_attributes.specs.AttributeViews.{optional_found};

use crate::attribute_at::AttributeAt;
use crate::laws::lists_unfold_by_attributes;
use crate::walk::{Level, attribute_in};
use link_capture_checks::frame_body;
use link_capture_grammar::link_types::is_link_type;
use link_capture_lists::whole;
use link_capture_walks::following;
use link_tables::{Form, LINK_HEADER_LEN, family_table};
use netlink_packet_core::{NETLINK_HEADER_LEN, NetlinkBuffer};

/// Returns the first attribute at `position` or after it, with its context, of the first frame of
/// `bytes`, which is at `offset`; both in bytes from the capture's start. After an attribute, the
/// next one is that from 4 bytes after its offset on (`next_is_from_payload`), which may be inside
/// it. Messages other than those of links have no attributes here. Allocates nothing.
#[tactic(auto, unfolding(crate::specs::Attributes::frame_attributes))]
pub fn attribute_from(bytes: &[u8], offset: u64, position: u64) -> Option<AttributeAt<'_>>
    requires frame { BeginsWithFrame bytes.now }
    requires near { offset + length bytes.now < 2 ^ 63 }
    ensures found { optional_found result ≡ first_from position (frame_attributes offset bytes.now) }
    ensures shallow { IfSome result (λ a. a.depth ≤ 6) }
{
    lists_unfold_by_attributes();
    if !is_link_type(NetlinkBuffer::new(bytes).message_type()) {
        return None;
    }
    let body = frame_body(bytes);
    if body.len() < LINK_HEADER_LEN {
        return None;
    }
    let level = Level {
        list: whole(Form::Any, family_table(body[0]), true),
        depth: 0,
        link_kind: None,
    };
    let start = offset + NETLINK_HEADER_LEN as u64 + LINK_HEADER_LEN as u64;
    attribute_in(level, start, following(body, LINK_HEADER_LEN), position)
}
