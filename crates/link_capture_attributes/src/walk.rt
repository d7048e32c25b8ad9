//! A walk through the nested lists of a link message, up to an offset.

ghost use Rattle.std.specs.Prelude.{◌≡◌, ◌≤◌, ◌<◌, ◌+◌, ◌^◌, length, option_map, IfSome};
ghost use Rattle.link_interpreter.specs.Sameness.{attribute_of};
ghost use Rattle.link_capture_lists.specs.ListTables.{IsLower};
ghost use Rattle.link_capture_attributes.specs.Attributes.{found_in, first_from, inside, level_by_row, link_kind_of};
ghost use Rattle.link_capture_attributes.specs.Attributes.{list_attributes};
ghost use Rattle.link_capture_attributes.specs.AttributeViews.{IsShallow, optional_found, found, level_of};

use crate::attribute_at::AttributeAt;
use crate::laws::lists_unfold_by_attributes;
use link_capture_lists::{Inside, ListTable, list_rest, next_list, row_in, whole};
use link_capture_walks::{Listed, following};
use link_interpreter::{Attribute, KIND_BOUND, first_attribute};
use link_tables::{
    Form, IFLA_INFO_DATA, IFLA_INFO_SLAVE_DATA, IFLA_INFO_XSTATS, LINK_HEADER_LEN, family_table,
};
use netlink_packet_core::nla_align;

/// A list from some attribute on, and where it is.
#[derive(Clone, Copy)]
pub(crate) struct Level<'a> {
    pub list: Listed<'a, ListTable>,
    /// How many attributes it is inside.
    pub depth: u32,
    /// The link kind whose data it is in.
    pub link_kind: Option<&'a [u8]>,
}

/// The name of an attribute and the content of its payload, if its table has them.
type Row = Option<(&'static str, Inside)>;

/// Returns the link kind whose data an attribute holds or is in, by its kind without flag bits.
fn link_kind_of<'a>(level: Level<'a>, kind: u16) -> Option<&'a [u8]>
    ensures { option_map (λ name. name.now) result ≡ link_kind_of (level_of level.entry) kind }
{
    if !level.list.table.rows.is_link_info() {
        return level.link_kind;
    }
    match kind {
        IFLA_INFO_DATA | IFLA_INFO_XSTATS => level.list.force.kind,
        IFLA_INFO_SLAVE_DATA => level.list.force.port_kind,
        _ => None,
    }
}

/// Returns the list in a payload with a row, and the number of bytes before it: 16 for the header of
/// a peer. Inside a peer, peers are bytes.
fn level_by_row<'a>(
    level: Level<'a>,
    link_kind: Option<&'a [u8]>,
    row: Row,
    payload: &'a [u8],
) -> Option<(Level<'a>, usize)>
    requires lower { IfSome row (λ x. IsLower level.list.table.rows.0 x.1) }
    requires deep { IsShallow level }
    ensures level { option_map (λ x. (level_of x.0, x.1)) result
        ≡ level_by_row (level_of level.entry) (option_map (λ name. name.now) link_kind.entry)
        (option_map (λ x. (x.0.now, x.1)) row.entry) payload.now }
    ensures deep { IfSome result (λ x. IsShallow x.0) }
    ensures fits { IfSome result (λ x. x.1 ≤ length payload.now) }
{
    let judged = level.list.judged;
    let (list, link_kind, header_size) = match row {
        Some((_, Inside::List(form, table))) => (whole(form, table, judged), link_kind, 0),
        Some((_, Inside::Peer)) if judged && payload.len() >= LINK_HEADER_LEN => (
            whole(Form::Any, family_table(payload[0]), false),
            None,
            LINK_HEADER_LEN,
        ),
        _ => return None,
    };
    let depth = level.depth + 1;
    let below = Level {
        list,
        depth,
        link_kind,
    };
    Some((below, header_size))
}

/// Returns the first attribute of a list, which is at an offset, with its context; and the list in
/// it, with the number of bytes before that.
fn enter<'a>(
    level: Level<'a>,
    offset: u64,
    attribute: Attribute<'a>,
) -> (AttributeAt<'a>, Option<(Level<'a>, usize)>)
    requires deep { IsShallow level }
    ensures shallow { result.0.depth ≤ 6 }
    ensures here { found result.0 ≡ found_in (level_of level.entry) offset (attribute_of attribute.entry) }
    ensures inside { option_map (λ x. (level_of x.0, x.1)) result.1
        ≡ inside (level_of level.entry) (attribute_of attribute.entry) }
    ensures deep { IfSome result.1 (λ x. IsShallow x.0) }
    ensures fits { IfSome result.1 (λ x. x.1 ≤ length attribute.entry.payload.now) }
{
    let kind = attribute.kind % KIND_BOUND;
    let link_kind = link_kind_of(level, kind);
    let row = row_in(level.list, kind);
    let name = match row {
        Some((name, _)) => Some(name),
        None => None,
    };
    let here = AttributeAt {
        offset,
        attribute,
        depth: level.depth,
        name,
        link_kind,
    };
    (here, level_by_row(level, link_kind, row, attribute.payload))
}

/// Returns the first attribute at `position` or after it, of a list whose bytes begin at `offset`.
pub(crate) fn attribute_in<'a>(
    level: Level<'a>,
    offset: u64,
    bytes: &'a [u8],
    position: u64,
) -> Option<AttributeAt<'a>>
    requires near { offset + length bytes.now < 2 ^ 63 }
    requires deep { IsShallow level }
    ensures found { optional_found result ≡ first_from position (list_attributes (level_of level.entry) offset bytes.now) }
    ensures shallow { IfSome result (λ a. a.depth ≤ 6) }
{
    lists_unfold_by_attributes();
    let mut level = level;
    let mut offset = offset;
    let mut rest = bytes;
    'attributes: while let Some((attribute, after)) = first_attribute(rest) {
        let (here, inside) = enter(level, offset, attribute);
        if offset >= position {
            return Some(here);
        }
        if let Some((below, header_size)) = inside {
            let start = offset + 4 + header_size as u64;
            let found = attribute_in(
                below,
                start,
                following(attribute.payload, header_size),
                position,
            );
            if found.is_some() {
                return found;
            }
        }
        level.list = next_list(level.list, attribute.kind, attribute.payload);
        offset += nla_align(4 + attribute.payload.len()) as u64;
        rest = list_rest(level.list.table.form, after);
    }
    None
}
