//! Bodies of messages other than links: the record at their start, and attributes.

ghost use Rattle.std.specs.Prelude.{◌≡◌, ◌<◌, ◌+◌, ◌^◌, ◌++◌, true, length, option_map, IfOk, OnOk};
ghost use Rattle.link_lines_values.specs.Appends.{Appends};
ghost use Rattle.link_lines_raw.specs.Bodies.{body_lines, first_fitting, fits_body, fits_family};
ghost use Rattle.link_lines_raw.specs.Bodies.{fits_request, general_header, general_lines, has_lines, header_line, is_list_of};
ghost use Rattle.link_lines_raw.specs.Bodies.{is_record_and_list, list_lines_of, record_and_list, row_lines};
ghost use Rattle.link_lines_raw.specs.Bodies.{text_or_none};
ghost use Rattle.link_lines_raw.specs.Lines.{lines_text};
ghost use Rattle.link_lines_raw.specs.Rows.{record_line_of};

use crate::lists::ListedBy;
use crate::raw::{push_listed, push_record_line};
use crate::raw_tables::{
    ACTIONS, ADDRESS, ADDRESS_LABEL, MPLS_ROUTE, MROUTE, MULTICAST, MULTICAST_GET, MULTICAST_SET,
    NAMESPACE, NEIGHBOUR, NEIGHBOUR_TABLE, NETCONF, NEXTHOP, PREFIX, ROUTE, RULE, RawTable,
    STATISTICS, STATISTICS_REQUEST, TRAFFIC_CONTROL, TUNNEL, VLANS, VLANS_DUMP,
};
use crate::records::{
    BR_PORT_MSG_LINE, BR_VLAN_MSG_LINE, FIB_RULE_HDR_LINE, IF_STATS_MSG_LINE, IFADDRLBLMSG_LINE,
    IFADDRMSG_LINE, IFINFOMSG_LINE, NDMSG_LINE, NDTMSG_LINE, NETCONFMSG_LINE, NHMSG_LINE,
    PREFIXMSG_LINE, RTGEN_LINE, RTGENMSG_LINE, RTMSG_LINE, TCAMSG_LINE, TCMSG_FILTER_LINE,
    TCMSG_LINE, TIMESTAMP_LINE, TUNNEL_MSG_LINE,
};
use crate::rows::RecordLine;
use link_lines_parts::is_whole;
use link_lines_values::{is_record, record_size};
use std::alloc::AllocError;

/// The record at the start of a body, by the name of its struct.
#[derive(Clone, Copy)]
pub enum Header {
    Timestamp,
    Ifaddrmsg,
    Rtmsg,
    Ndmsg,
    FibRuleHdr,
    Tcmsg,
    TcmsgFilter,
    Tcamsg,
    Prefixmsg,
    Ndtmsg,
    Ifaddrlblmsg,
    Netconfmsg,
    BrPortMsg,
    Rtgen,
    Rtgenmsg,
    Ifinfomsg,
    IfStatsMsg,
    Nhmsg,
    BrVlanMsg,
    TunnelMsg,
}

use Header::{
    BrPortMsg, BrVlanMsg, FibRuleHdr, IfStatsMsg, Ifaddrlblmsg, Ifaddrmsg, Ifinfomsg, Ndmsg,
    Ndtmsg, Netconfmsg, Nhmsg, Prefixmsg, Rtgen, Rtgenmsg, Rtmsg, Tcamsg, Tcmsg, TcmsgFilter,
    Timestamp, TunnelMsg,
};

/// A row of bodies: the first and the last message type; whether the messages are requests, if that
/// matters; the address family, which is a body's first byte, if that matters; the record at the
/// start; and the table of the attributes after it, if any follow.
#[derive(Clone, Copy)]
pub struct BodyRow(
    pub u16,
    pub u16,
    pub Option<bool>,
    pub Option<u8>,
    pub Header,
    pub Option<RawTable>,
);

/// The bodies of messages, by type (rtnetlink.h: RTM_*; netlink.h: NLMSG_*). The first row that fits
/// counts.
pub const BODIES: &[BodyRow] = &[
    BodyRow(15, 15, None, None, Timestamp, None),
    BodyRow(20, 22, None, None, Ifaddrmsg, Some(ADDRESS)),
    BodyRow(24, 26, None, Some(28), Rtmsg, Some(MPLS_ROUTE)),
    BodyRow(24, 26, None, Some(128), Rtmsg, Some(MROUTE)),
    BodyRow(24, 26, None, Some(129), Rtmsg, Some(MROUTE)),
    BodyRow(24, 26, None, None, Rtmsg, Some(ROUTE)),
    BodyRow(28, 30, None, None, Ndmsg, Some(NEIGHBOUR)),
    BodyRow(32, 34, None, None, FibRuleHdr, Some(RULE)),
    BodyRow(36, 38, None, None, Tcmsg, Some(TRAFFIC_CONTROL)),
    BodyRow(40, 42, None, None, Tcmsg, Some(TRAFFIC_CONTROL)),
    BodyRow(44, 46, None, None, TcmsgFilter, Some(TRAFFIC_CONTROL)),
    BodyRow(48, 50, None, None, Tcamsg, Some(ACTIONS)),
    BodyRow(52, 52, None, None, Prefixmsg, Some(PREFIX)),
    BodyRow(56, 58, None, None, Ifaddrmsg, Some(ADDRESS)),
    BodyRow(60, 62, None, None, Ifaddrmsg, Some(ADDRESS)),
    BodyRow(64, 64, None, None, Ndtmsg, Some(NEIGHBOUR_TABLE)),
    BodyRow(66, 67, None, None, Ndtmsg, Some(NEIGHBOUR_TABLE)),
    BodyRow(72, 74, None, None, Ifaddrlblmsg, Some(ADDRESS_LABEL)),
    BodyRow(80, 82, None, None, Netconfmsg, Some(NETCONF)),
    BodyRow(84, 86, Some(false), None, BrPortMsg, Some(MULTICAST)),
    BodyRow(84, 85, Some(true), None, BrPortMsg, Some(MULTICAST_SET)),
    BodyRow(86, 86, Some(true), None, BrPortMsg, Some(MULTICAST_GET)),
    BodyRow(88, 90, None, None, Rtgenmsg, Some(NAMESPACE)),
    BodyRow(92, 92, None, None, IfStatsMsg, Some(STATISTICS)),
    BodyRow(94, 95, None, None, IfStatsMsg, Some(STATISTICS_REQUEST)),
    BodyRow(100, 102, None, None, Tcmsg, Some(TRAFFIC_CONTROL)),
    BodyRow(104, 106, None, None, Nhmsg, Some(NEXTHOP)),
    BodyRow(112, 113, None, None, BrVlanMsg, Some(VLANS)),
    BodyRow(114, 114, None, None, BrVlanMsg, Some(VLANS_DUMP)),
    BodyRow(116, 118, None, None, Nhmsg, Some(NEXTHOP)),
    BodyRow(120, 122, None, None, TunnelMsg, Some(TUNNEL)),
];

/// Returns the record at the start of a body. The lines are not in the rows, since the prover spells
/// out each reference in a constant.
#[tactic(auto, unfolding(crate::specs::Bodies::header_line))]
fn header_line(header: Header) -> RecordLine
    ensures { record_line_of (λ b. b.now) result ≡ header_line header }
{
    match header {
        Timestamp => TIMESTAMP_LINE,
        Ifaddrmsg => IFADDRMSG_LINE,
        Rtmsg => RTMSG_LINE,
        Ndmsg => NDMSG_LINE,
        FibRuleHdr => FIB_RULE_HDR_LINE,
        Tcmsg => TCMSG_LINE,
        TcmsgFilter => TCMSG_FILTER_LINE,
        Tcamsg => TCAMSG_LINE,
        Prefixmsg => PREFIXMSG_LINE,
        Ndtmsg => NDTMSG_LINE,
        Ifaddrlblmsg => IFADDRLBLMSG_LINE,
        Netconfmsg => NETCONFMSG_LINE,
        BrPortMsg => BR_PORT_MSG_LINE,
        Rtgen => RTGEN_LINE,
        Rtgenmsg => RTGENMSG_LINE,
        Ifinfomsg => IFINFOMSG_LINE,
        IfStatsMsg => IF_STATS_MSG_LINE,
        Nhmsg => NHMSG_LINE,
        BrVlanMsg => BR_VLAN_MSG_LINE,
        TunnelMsg => TUNNEL_MSG_LINE,
    }
}

/// Returns whether a row is for messages that are requests, or that aren't.
fn fits_request(request: Option<bool>, is_request: bool) -> bool
    ensures { result ≡ fits_request request is_request }
{
    match request {
        Some(wanted) => wanted == is_request,
        None => true,
    }
}

/// Returns whether bytes begin with an address family, if it matters to a row.
fn fits_family(family: Option<u8>, bytes: &[u8]) -> bool
    ensures { result ≡ fits_family family bytes.now }
{
    match (family, bytes) {
        (None, _) => true,
        (Some(_), []) => false,
        (Some(family), [first, ..]) => *first == family,
    }
}

/// Returns whether a row is for the body of a message.
fn fits_body(row: &BodyRow, message_type: u16, is_request: bool, body: &[u8]) -> bool
    ensures { result ≡ fits_body row.now message_type is_request body.now }
{
    row.0 <= message_type
        && message_type <= row.1
        && fits_request(row.2, is_request)
        && fits_family(row.3, body)
}

/// Returns the first row that is for the body of a message.
fn first_fitting(
    rows: &[BodyRow],
    message_type: u16,
    is_request: bool,
    body: &[u8],
) -> Option<BodyRow>
    ensures { result ≡ first_fitting rows.now message_type is_request body.now }
{
    for row in rows {
        if fits_body(row, message_type, is_request, body) {
            return Some(*row);
        }
    }
    None
}

/// Returns whether bytes are attributes up to the end if there is a table of them, and otherwise
/// empty.
fn is_list_of(table: Option<RawTable>, bytes: &[u8]) -> bool
    ensures { result ≡ is_list_of table bytes.now }
{
    match table {
        Some(_) => is_whole(bytes),
        None => bytes.is_empty(),
    }
}

/// Returns whether bytes are a record and the attributes after it.
fn is_record_and_list(line: RecordLine, table: Option<RawTable>, bytes: &[u8]) -> bool
    ensures { result ≡ is_record_and_list
        (record_line_of (λ b. b.now) line.entry) table bytes.now }
{
    let size = record_size(line.1.fields());
    if bytes.len() < size {
        return false;
    }
    let (head, rest) = bytes.split_at(size);
    is_record(line.1.fields(), head) && is_list_of(table, rest)
}

/// Appends the lines of attributes after a record, if there is a table of them.
fn push_list_of(table: Option<RawTable>, list: &[u8], out: &mut Vec<u8>) -> Result<(), AllocError>
    ensures { Appends out.old out.new result (lines_text (list_lines_of table list.now)) }
{
    match table {
        Some(table) => push_listed(1, ListedBy::Attributes(table, list), list, out),
        None => Ok(()),
    }
}

/// Appends the lines of a record and the attributes after it if bytes are exactly that, and returns
/// whether they are.
fn push_record_and_list(
    line: RecordLine,
    table: Option<RawTable>,
    bytes: &[u8],
    out: &mut Vec<u8>,
) -> Result<bool, AllocError>
    ensures appends { Appends out.old out.new result
        (text_or_none (record_and_list (record_line_of (λ b. b.now) line.entry) table bytes.now)) }
    ensures shown { IfOk result (λ is_shown. is_shown ≡ has_lines (record_and_list
        (record_line_of (λ b. b.now) line.entry) table bytes.now)) }
{
    if !is_record_and_list(line, table, bytes) {
        return Ok(false);
    }
    let (head, rest) = bytes.split_at(record_size(line.1.fields()));
    push_record_line(1, line, head, out)?;
    push_list_of(table, rest, out)?;
    Ok(true)
}

/// Returns the record of this size that a request of any type may be alone: the address family in 1
/// byte or in 4, or the header of links.
fn general_header(size: usize) -> Option<Header>
    ensures { result ≡ general_header size }
{
    match size {
        1 => Some(Rtgen),
        4 => Some(Rtgenmsg),
        16 => Some(Ifinfomsg),
        _ => None,
    }
}

/// Appends the lines of a body that is such a record alone, in a message type that asks for objects,
/// and returns whether it is.
fn push_general(message_type: u16, body: &[u8], out: &mut Vec<u8>) -> Result<bool, AllocError>
    ensures appends { Appends out.old out.new result (text_or_none (general_lines message_type body.now)) }
    ensures shown { IfOk result (λ is_shown. is_shown ≡ has_lines (general_lines message_type body.now)) }
{
    if message_type % 4 != 2 {
        return Ok(false);
    }
    match general_header(body.len()) {
        Some(header) => push_record_and_list(header_line(header), None, body, out),
        None => Ok(false),
    }
}

/// Appends the lines of the body of a message other than a link, if they determine every byte of it,
/// and returns whether they do; if not, nothing is appended.
///
/// # Errors
///
/// `AllocError` if `out` lacked capacity for the lines and can't grow; what it held stays, and a
/// part of the lines may follow.
#[tactic(auto, unfolding(crate::specs::Bodies::body_lines))]
pub fn push_body(
    message_type: u16,
    is_request: bool,
    body: &[u8],
    out: &mut Vec<u8>,
) -> Result<bool, AllocError>
    ensures appends { Appends out.old out.new result
        (text_or_none (body_lines message_type is_request body.now)) }
    ensures shown { IfOk result (λ is_shown. is_shown ≡ has_lines (body_lines message_type is_request body.now)) }
{
    let Some(row) = first_fitting(BODIES, message_type, is_request, body) else {
        return Ok(false);
    };
    if push_record_and_list(header_line(row.4), row.5, body, out)? {
        return Ok(true);
    }
    push_general(message_type, body, out)
}
