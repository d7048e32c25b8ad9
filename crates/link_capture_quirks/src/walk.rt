//! A walk through the nested lists of a frame.

ghost use Rattle.std.specs.Prelude.{◌≡◌, ◌≤◌, ◌<◌, ◌+◌, ◌^◌, ◌∷◌, ◌++◌, [], true, length, IfSome, IfNone};
ghost use Rattle.netlink_packet_core.specs.Frames.{BeginsWithFrame, frame_type, frame_body};
ghost use Rattle.link_capture_grammar.specs.Bodies.{is_link_type};
ghost use Rattle.link_capture_quirks.specs.QuirkLists.{quirks_at};
ghost use Rattle.link_capture_quirks.specs.CaptureQuirks.{frame_quirks};
ghost use Rattle.link_capture_quirks.specs.QuirkWalks.{optional_quirk, levels_quirks, walk_quirks, AreWithin, weight};

use crate::laws::lists_unfold_by_attributes;
use crate::quirk_at::{Quirk, QuirkAt};
use crate::rows::{attribute_quirks, header_quirk};
use crate::tables::{Table, family_table, inside, next_list};
use arrayvec::ArrayVec;
use link_capture_checks::frame_body;
use link_capture_grammar::link_types::is_link_type;
use link_capture_walks::{Listed, following};
use link_interpreter::{KIND_BOUND, first_attribute};
use link_tables::LINK_HEADER_LEN;
use netlink_packet_core::{NETLINK_HEADER_LEN, NetlinkBuffer, nla_align};
use std::default::Default;

/// How deeply lists are nested: a link's attributes, its link info, the data, and the same three of
/// a peer. So a walk holds its lists itself, and needs no allocation.
const DEPTH: usize = 6;

/// The rest of a list, and its offset in bytes from the capture's start.
#[derive(Clone, Copy, Drop)]
pub(crate) struct Level<'a> {
    pub list: Listed<'a, Table>,
    pub offset: usize,
    pub rest: &'a [u8],
}

impl Default for Level<'_> {
    fn default() -> Self {
        Level {
            list: Listed::new(Table::Link, false),
            offset: 0,
            rest: &[],
        }
    }
}

/// The rest of a frame: up to two quirks that were found already, and then nested lists, each
/// inside the one before it.
#[derive(Drop)]
pub(crate) struct Walk<'a> {
    pub first: Option<QuirkAt>,
    pub second: Option<QuirkAt>,
    pub levels: ArrayVec<Level<'a>, DEPTH>,
}

/// Returns a quirk with its offset.
fn quirk_at(offset: usize, quirk: Option<Quirk>) -> Option<QuirkAt>
    ensures { optional_quirk result ≡ quirks_at offset quirk }
{
    match quirk {
        Some(quirk) => Some(QuirkAt {
            quirk,
            offset: offset as u64,
        }),
        None => None,
    }
}

impl<'a> Walk<'a> {
    /// Returns a walk with nothing left.
    pub(crate) fn new() -> Self
        ensures within { AreWithin 0 result.levels.items }
        ensures quirks_left { walk_quirks result.first result.second result.levels.items ≡ [] }
    {
        Walk {
            first: None,
            second: None,
            levels: ArrayVec::new(),
        }
    }

    /// Begins the first frame of `bytes`, which are at `offset`.
    pub(crate) fn enter(&mut self, bytes: &'a [u8], offset: usize)
        requires frame { BeginsWithFrame bytes.now }
        requires body { is_link_type (frame_type bytes.now) ≡ true → 16 ≤ length (frame_body bytes.now) }
        requires near { offset + length bytes.now < 2 ^ 63 }
        requires quirks_left { walk_quirks self.old.first self.old.second self.old.levels.items ≡ [] }
        requires ended { self.old.levels.items ≡ [] }
        ensures within { AreWithin 0 self.new.levels.items }
        ensures quirks_left { walk_quirks self.new.first self.new.second self.new.levels.items ≡ frame_quirks offset bytes.now }
    {
        let message_type = NetlinkBuffer::new(bytes).message_type();
        if !is_link_type(message_type) {
            return;
        }
        let body = frame_body(bytes);
        let start = offset + NETLINK_HEADER_LEN;
        self.first = quirk_at(start + 1, header_quirk(message_type, body));
        self.second = None;
        let list = Listed::new(family_table(body[0]), true);
        self.levels.push(Level {
            list,
            offset: start + LINK_HEADER_LEN,
            rest: following(body, LINK_HEADER_LEN),
        });
    }

    /// Passes an attribute of the innermost list, and enters the list inside it.
    fn step(&mut self, level: Level<'a>)
        requires { AreWithin 0 (self.old.levels.items ++ level ∷ []) }
        ensures within { AreWithin 0 self.new.levels.items }
        ensures quirks_left { walk_quirks self.new.first self.new.second self.new.levels.items
            ≡ levels_quirks (self.old.levels.items ++ level.entry ∷ []) }
        ensures less { weight self.new.levels.items
            < weight (self.old.levels.items ++ level.entry ∷ []) }
    {
        lists_unfold_by_attributes();
        let Some((attribute, after)) = first_attribute(level.rest) else {
            self.first = None;
            self.second = None;
            return;
        };
        let kind = attribute.kind % KIND_BOUND;
        let (nested, in_payload) = attribute_quirks(
            level.list.table,
            attribute.kind,
            attribute.payload,
        );
        self.first = quirk_at(level.offset, nested);
        self.second = quirk_at(level.offset, in_payload);
        self.levels.push(Level {
            list: next_list(level.list, kind, attribute.payload),
            offset: level.offset + nla_align(4 + attribute.payload.len()),
            rest: after,
        });
        if let Some((list, header_size)) = inside(level.list, kind, attribute.payload) {
            self.levels.push(Level {
                list,
                offset: level.offset + 4 + header_size,
                rest: following(attribute.payload, header_size),
            });
        }
    }

    /// Returns the next quirk of the frame.
    pub(crate) fn next(&mut self) -> Option<QuirkAt>
        requires { AreWithin 0 self.old.levels.items }
        ensures within { AreWithin 0 self.new.levels.items }
        ensures some { IfSome result (λ x. walk_quirks self.old.first self.old.second self.old.levels.items
            ≡ x ∷ walk_quirks self.new.first self.new.second self.new.levels.items) }
        ensures none { IfNone result
            (walk_quirks self.old.first self.old.second self.old.levels.items ≡ []) }
        ensures ended { IfNone result
            (walk_quirks self.new.first self.new.second self.new.levels.items ≡ []) }
        ensures bare { IfNone result (self.new.levels.items ≡ []) }
    {
        'lists: loop {
            if let Some(found) = self.first.take() {
                return Some(found);
            }
            if let Some(found) = self.second.take() {
                return Some(found);
            }
            let Some(level) = self.levels.pop() else {
                return None;
            };
            self.step(level);
        }
    }
}
