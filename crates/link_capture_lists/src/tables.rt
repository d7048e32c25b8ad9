//! The lists of links, and the contents of their attributes.

ghost use Rattle.std.specs.Prelude.{◌≡◌, ◌<◌, ◌≤◌, ◌-◌, [], get_or, option_map, IfSome};
ghost use Rattle.link_tables.specs.declared.table.TheConstants.{LINK_INFO};
ghost use Rattle.link_tables.specs.declared.kinds.TheConstants.{AMT};
ghost use Rattle.link_tables.specs.InForce.{held_in_force, in_force};
ghost use Rattle.link_capture_walks.specs.Listings.{listing};
ghost use Rattle.link_capture_lists.specs.ListTables.{IsLower, data_rows, find, info_inside, info_row, inside_of};
ghost use Rattle.link_capture_lists.specs.ListTables.{list_rest, message_rows, row_in, table_row, table_rows, whole};
ghost use Rattle.link_capture_lists.specs.RowRules.{following};

use crate::names::{find, rows_at, text_of};
use crate::rows::{DATA_ROWS, MESSAGE_ROWS, NamedRow};
use link_capture_walks::Listed;
use link_interpreter::{KIND_BOUND, is_kept};
use link_tables::kinds::AMT;
use link_tables::table::LINK_INFO;
use link_tables::{
    Form, Held, IFLA_INFO_DATA, IFLA_INFO_KIND, IFLA_INFO_SLAVE_DATA, IFLA_INFO_SLAVE_KIND,
    IFLA_INFO_XSTATS, InForce, Shape, Table, info_held,
};

/// The kind that isn't in force.
#[derive(Clone, Copy)]
pub enum MissingKind {
    /// IFLA_INFO_KIND.
    Link,
    /// IFLA_INFO_SLAVE_KIND.
    Port,
}

/// The content of an attribute's payload.
#[derive(Clone, Copy)]
pub enum Inside {
    /// A value of this shape.
    Value(Shape),
    /// The attributes of a table.
    List(Form, Table),
    /// The other end of a link, as a link's body.
    Peer,
    /// Data or statistics, of which any payload is refused, as this kind isn't in force.
    Refused(MissingKind),
}

/// Which list it is: its list kind, and the table of its attributes.
#[derive(Clone, Copy)]
pub struct ListTable {
    pub form: Form,
    pub rows: Table,
}

/// Returns a list of the attributes of a table from its first attribute on.
pub fn whole<'a>(form: Form, rows: Table, judged: bool) -> Listed<'a, ListTable>
    ensures { listing result ≡ whole form rows judged }
{
    Listed::new(ListTable { form, rows }, judged)
}

/// Returns the content of a payload.
fn inside_of(content: Held) -> Inside
    ensures { result ≡ inside_of content }
{
    match content {
        Held::Plain(shape) => Inside::Value(shape),
        Held::Peer => Inside::Peer,
        Held::List(form, table) => Inside::List(form, table),
        Held::LinkInfo => Inside::List(Form::NonEmpty, LINK_INFO),
    }
}

/// Returns the content of an attribute of link info.
fn info_inside(force: InForce<'_>, kind: u16) -> Inside
    ensures inside { result ≡ info_inside kind (held_in_force (in_force force.entry) kind) }
    ensures lower { IsLower LINK_INFO.0 result }
{
    match info_held(force, kind) {
        Some(content) => inside_of(content),
        None if kind == IFLA_INFO_SLAVE_DATA => Inside::Refused(MissingKind::Port),
        None => Inside::Refused(MissingKind::Link),
    }
}

/// Returns the name of a kind in link info, and the content of its payload.
fn info_row(force: InForce<'_>, kind: u16) -> Option<(&'static str, Inside)>
    ensures row { option_map (λ x. (x.0.now, x.1)) result ≡ info_row (in_force force.entry) kind }
    ensures lower { IfSome result (λ x. IsLower LINK_INFO.0 x.1) }
{
    let name = match kind {
        IFLA_INFO_KIND => "IFLA_INFO_KIND",
        IFLA_INFO_DATA => "IFLA_INFO_DATA",
        IFLA_INFO_XSTATS => "IFLA_INFO_XSTATS",
        IFLA_INFO_SLAVE_KIND => "IFLA_INFO_SLAVE_KIND",
        IFLA_INFO_SLAVE_DATA => "IFLA_INFO_SLAVE_DATA",
        _ => return None,
    };
    Some((name, info_inside(force, kind)))
}

/// Returns the row of a kind in a table of link messages.
fn message_row(table: Table, kind: u16) -> Option<NamedRow>
    requires { table.0 < AMT.0 }
    ensures { option_map (λ r. (r.0, r.1.now, r.2)) result ≡ find kind (get_or message_rows table.0 []) }
{
    find(rows_at(&MESSAGE_ROWS, table.0), kind)
}

/// Returns the row of a kind in a table of data.
fn data_row(table: Table, kind: u16) -> Option<NamedRow>
    requires { AMT.0 ≤ table.0 }
    ensures { option_map (λ r. (r.0, r.1.now, r.2)) result ≡ find kind (get_or data_rows (table.0 - AMT.0) []) }
{
    find(rows_at(&DATA_ROWS, table.0 - AMT.0), kind)
}

/// Returns the row of a kind in any table but that of link info.
fn named_row(table: Table, kind: u16) -> Option<NamedRow>
    ensures { option_map (λ r. (r.0, r.1.now, r.2)) result ≡ find kind (get_or table_rows table.0 []) }
{
    if table.0 < AMT.0 {
        message_row(table, kind)
    } else {
        data_row(table, kind)
    }
}

/// Returns the name of a kind in any table but that of link info, and the content of its payload.
fn table_row(table: Table, kind: u16) -> Option<(&'static str, Inside)>
    ensures row { option_map (λ x. (x.0.now, x.1)) result
        ≡ table_row (find kind (get_or table_rows table.0 [])) }
    ensures lower { IfSome result (λ x. IsLower table.0 x.1) }
{
    match named_row(table, kind) {
        Some((_, name, content)) => Some((text_of(name), inside_of(content))),
        None => None,
    }
}

/// Returns the name of a kind without flag bits in a list, and the content of its payload.
#[tactic(auto, unfolding(crate::specs::ListTables::row_in))]
pub fn row_in(list: Listed<'_, ListTable>, kind: u16) -> Option<(&'static str, Inside)>
    ensures row { option_map (λ x. (x.0.now, x.1)) result
        ≡ row_in list.entry.table.rows (listing list.entry).context kind }
    ensures lower { IfSome result (λ x. IsLower list.entry.table.rows.0 x.1) }
{
    if list.table.rows.is_link_info() {
        info_row(list.force, kind)
    } else {
        table_row(list.table.rows, kind)
    }
}

/// Returns the rest of a list after an attribute, whose kind may have flag bits.
#[tactic(auto, unfolding(crate::specs::RowRules::grammar_at))]
pub fn next_list<'a>(
    list: Listed<'a, ListTable>,
    kind: u16,
    payload: &'a [u8],
) -> Listed<'a, ListTable>
    ensures { listing result
        ≡ following (listing list.entry) (record { kind = kind; payload = payload.now }) }
{
    if !is_kept(list.table.form, kind) || !list.table.rows.is_link_info() {
        return list;
    }
    list.after_info(kind % KIND_BOUND, payload)
}

/// Returns the bytes with which a list continues after an attribute.
pub fn list_rest(form: Form, after: &[u8]) -> &[u8]
    ensures { result.now ≡ list_rest form after.now }
{
    match form {
        Form::FirstOnly => &[],
        Form::Any | Form::NonEmpty | Form::OfKindOne | Form::Ports => after,
    }
}
