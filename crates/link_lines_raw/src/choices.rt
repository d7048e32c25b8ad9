//! What attributes hold if another attribute of the same list chooses it.

ghost use Rattle.std.specs.Prelude.{◌≡◌, option_map};
ghost use Rattle.netlink_packet_core_grammar.specs.Attributes.{first_attribute};
ghost use Rattle.link_interpreter.specs.Sameness.{attribute_of};
ghost use Rattle.link_lines_raw.specs.Choices.{choices_in_code, choices_of, chosen, chosen_in, is_of_kind};
ghost use Rattle.link_lines_raw.specs.Choices.{payload_after, raw_or, resolved};
ghost use Rattle.link_lines_raw.specs.Rows.{raw_of};

use crate::raw_tables::{
    BPF_FILTER, ENCAP_BPF, ENCAP_ILA, ENCAP_IOAM6, ENCAP_IP, ENCAP_IP6, ENCAP_MPLS, ENCAP_RPL,
    ENCAP_SEG6, ENCAP_SEG6_LOCAL, ENCAP_XFRM, FLOWER, FQ_CODEL, GACT, HTB, MATCHALL, MIRRED, PRIO,
    TBF, U32_FILTER, UNNAMED,
};
use crate::records::TC_PRIO_QOPT_LINE;
use crate::rows::RawBy::{Chosen, Head, List, Value};
use crate::rows::{Choice, Raw};
use link_interpreter::{Attribute, KIND_BOUND, first_attribute};
use link_lines_parts::has_byte_order_bit;
use link_lines_values::ExactBy::Record;
use link_lines_values::traffic_layouts::TC_FIFO_QOPT;

/// The payload of an attribute, and what it chooses for another attribute.
pub type ChoiceRow = (&'static [u8], Raw);

/// Encapsulations, by their type in 2 bytes, little-endian (lwtunnel.h: LWTUNNEL_ENCAP_*).
pub const ENCAPSULATIONS: &[ChoiceRow] = &[
    (b"\x01\0", List(ENCAP_MPLS)),
    (b"\x02\0", List(ENCAP_IP)),
    (b"\x03\0", List(ENCAP_ILA)),
    (b"\x04\0", List(ENCAP_IP6)),
    (b"\x05\0", List(ENCAP_SEG6)),
    (b"\x06\0", List(ENCAP_BPF)),
    (b"\x07\0", List(ENCAP_SEG6_LOCAL)),
    (b"\x08\0", List(ENCAP_RPL)),
    (b"\x09\0", List(ENCAP_IOAM6)),
    (b"\x0a\0", List(ENCAP_XFRM)),
];

/// Options of queueing disciplines and of filters, by their name (pkt_sched.h, pkt_cls.h).
pub const OPTIONS: &[ChoiceRow] = &[
    (b"pfifo\0", Value(Record(TC_FIFO_QOPT))),
    (b"bfifo\0", Value(Record(TC_FIFO_QOPT))),
    (b"pfifo_head_drop\0", Value(Record(TC_FIFO_QOPT))),
    (b"pfifo_fast\0", Head(TC_PRIO_QOPT_LINE, PRIO)),
    (b"prio\0", Head(TC_PRIO_QOPT_LINE, PRIO)),
    (b"tbf\0", List(TBF)),
    (b"htb\0", List(HTB)),
    (b"fq_codel\0", List(FQ_CODEL)),
    (b"ingress\0", List(UNNAMED)),
    (b"clsact\0", List(UNNAMED)),
    (b"u32\0", List(U32_FILTER)),
    (b"flower\0", List(FLOWER)),
    (b"matchall\0", List(MATCHALL)),
    (b"bpf\0", List(BPF_FILTER)),
];

/// Options of actions, by their name (tc_act/tc_gact.h, tc_act/tc_mirred.h).
pub const ACTION_OPTIONS: &[ChoiceRow] = &[(b"gact\0", List(GACT)), (b"mirred\0", List(MIRRED))];

/// Returns the rows of a set of choices.
#[tactic(auto, unfolding(crate::specs::Choices::choices_of))]
fn choices(choice: Choice) -> &'static [ChoiceRow]
    ensures { choices_in_code (λ b. b.now) result.now ≡ choices_of choice }
{
    match choice {
        Choice::Encapsulation => ENCAPSULATIONS,
        Choice::Options => OPTIONS,
        Choice::ActionOptions => ACTION_OPTIONS,
    }
}

/// Returns what a payload chooses among some rows.
fn chosen_in(rows: &'static [ChoiceRow], payload: &[u8]) -> Option<&'static Raw>
    ensures { option_map (λ raw. raw_of (λ b. b.now) raw.now) result
        ≡ chosen_in payload.now (choices_in_code (λ b. b.now) rows.now) }
{
    for row in rows {
        if row.0 == payload {
            return Some(&row.1);
        }
    }
    None
}

/// Returns whether an attribute is of this kind, with or without the nested bit.
fn is_of_kind(kind: u16, attribute: Attribute<'_>) -> bool
    ensures { result ≡ is_of_kind kind (attribute_of attribute.entry) }
{
    !has_byte_order_bit(attribute.kind) && attribute.kind % KIND_BOUND == kind
}

/// Returns the payload of the first attribute of this kind in a list.
fn payload_of(kind: u16, list: &[u8]) -> Option<&[u8]>
    ensures { option_map (λ p. p.now) result ≡ payload_after kind 0 list.now }
{
    let mut rest = list;
    while let Some((attribute, after)) = first_attribute(rest) {
        if is_of_kind(kind, attribute) {
            return Some(attribute.payload);
        }
        rest = after;
    }
    None
}

/// Returns what another attribute in this list chooses for one, if that is known.
fn chosen(raw: &Raw, list: &[u8]) -> Option<&'static Raw>
    ensures { option_map (λ raw. raw_of (λ b. b.now) raw.now) result
        ≡ chosen (raw_of (λ b. b.now) raw.now) list.now }
{
    match raw {
        Chosen(choice, kind) => {
            let payload = payload_of(*kind, list)?;
            chosen_in(choices(*choice), payload)
        }
        _ => None,
    }
}

/// Returns what an attribute in this list holds: what another attribute chooses, if that is known.
#[tactic(auto, unfolding(crate::specs::Choices::resolved))]
pub(crate) fn resolved(raw: &'static Raw, list: &[u8]) -> &'static Raw
    ensures { raw_of (λ b. b.now) result.now ≡ resolved (raw_of (λ b. b.now) raw.now) list.now }
{
    chosen(raw, list).unwrap_or(raw)
}
