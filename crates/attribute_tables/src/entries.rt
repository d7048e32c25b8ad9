//! Lists of which only the attributes of kind 1 are kept.

ghost use Rattle.std.specs.Prelude.{◌≡◌, ◌<◌, ℕ, List, Bool, true, length, IfOk, IfErr};
ghost use Rattle.std.specs.List.{All};
ghost use Rattle.netlink_packet_core_grammar.specs.AttributeViews.{viewed_attribute, viewed_payload, BeginsWithAttribute};
ghost use Rattle.netlink_packet_core.specs.NlaBuffers.{storage};
ghost use Rattle.attribute_tables_grammar.specs.Lists.{Row, of_kind_one, ports, is_of_kind_one, without_context};
ghost use Rattle.attribute_tables_grammar.specs.LookUps.{rows_rule, only_kind_one};
ghost use Rattle.attribute_tables_grammar.specs.Readings.{reading_as};
ghost use Rattle.attribute_tables.specs.Beginnings.{entries_begin_readable};
ghost use Rattle.attribute_tables.specs.Outcomes.{IfMemory, IsRewrittenBy, ListIsReadAs, ListIsWrittenBy, SucceedsIf};

use attribute_tables_grammar::laws::{
    ports_are_entries, readings_determine_rules, readings_unfold,
};
use netlink_packet_core::{DecodeError, Nla, NlaBuffer, skip_first};
use netlink_packet_core_grammar::laws::{first_attributes_are_viewed, first_attributes_are_within};
use std::alloc::Global;

/// The kind of the entries that are kept.
const ENTRY: u16 = 1;

/// A reader of the entries of a list that keeps only those of kind 1.
pub trait EntryReader {
    type Value: Nla + Drop;

    /// The row of kind 1.
    ghost entry_row: { Self → Row };

    /// The value is the variant of its row.
    ghost is_row_variant: { Self → Self.Value → Type 0 };

    /// Whether reading the payload of an entry may run out of memory.
    ghost may_allocate: { Self → List ℕ → Bool };

    /// Reads one entry.
    ///
    /// # Errors
    ///
    /// Out of memory only if `may_allocate` holds; any other [`DecodeError`] only if the row
    /// rejects the payload.
    fn read(&self, alloc: Global, buf: &NlaBuffer<&[u8]>) -> Result<Self::Value, DecodeError>
        requires whole { BeginsWithAttribute (storage buf.now).now }
        requires one { is_of_kind_one (viewed_attribute (storage buf.now).now) ≡ true }
        ensures judged { SucceedsIf result
            ((entry_row self.now).rule.accepted (viewed_payload (storage buf.now).now)) }
        ensures written { IsRewrittenBy result Self.Value.entry Self.Value.inside_fits
            (entry_row self.now) (viewed_attribute (storage buf.now).now) }
        ensures is_row_variant { IfOk result (λ v. is_row_variant self.now v) }
        ensures memory { IfMemory result
            (may_allocate self.now (viewed_payload (storage buf.now).now) ≡ true) };
}

/// Reads a list of which the attributes of kind 1 are kept; every other attribute may hold any
/// bytes, and is dropped. An empty list is accepted.
///
/// # Errors
///
/// Out of memory if an allocation fails, and only if the row accepts the first attribute of kind 1,
/// or reading that one may run out of memory; any other [`DecodeError`] only if the list isn't
/// accepted.
pub fn parse_entries<R: EntryReader>(
    alloc: Global,
    reader: &R,
    bytes: &[u8],
) -> Result<Vec<R::Value>, DecodeError>
    ensures judged { SucceedsIf result
        ((rows_rule of_kind_one (only_kind_one (R.entry_row reader.now))).accepted bytes.now) }
    ensures read { ListIsReadAs result R.Value.entry R.Value.inside_fits
        (reading_as of_kind_one (without_context (only_kind_one (R.entry_row reader.now))) bytes.now) }
    ensures written { ListIsWrittenBy result R.Value.entry R.Value.inside_fits
        (rows_rule of_kind_one (only_kind_one (R.entry_row reader.now))) bytes.now }
    ensures is_row_variant { IfOk result (λ v. All (R.is_row_variant reader.now) v.items) }
    ensures not_empty { IfErr result (λ _. 0 < length bytes.now) }
    ensures memory { IfMemory result
        (entries_begin_readable (R.entry_row reader.now) (R.may_allocate reader.now) bytes.now
        ≡ true) }
{
    readings_unfold();
    readings_determine_rules();
    first_attributes_are_viewed();
    first_attributes_are_within();
    let mut list = Vec::new(alloc);
    let mut rest = bytes;
    while !rest.is_empty() {
        let buf = NlaBuffer::new_checked(rest)?;
        if buf.kind() == ENTRY {
            list.push(reader.read(alloc, &buf)?)?;
        }
        rest = skip_first(rest);
    }
    Ok(list)
}

/// Reads a list of which the attributes of kind 1 are kept, and which has at least one attribute,
/// of any kind.
///
/// # Errors
///
/// Out of memory if an allocation fails; any other [`DecodeError`] only if the list isn't accepted.
pub fn parse_ports<R: EntryReader>(
    alloc: Global,
    reader: &R,
    bytes: &[u8],
) -> Result<Vec<R::Value>, DecodeError>
    ensures judged { SucceedsIf result
        ((rows_rule ports (only_kind_one (R.entry_row reader.now))).accepted bytes.now) }
    ensures read { ListIsReadAs result R.Value.entry R.Value.inside_fits
        (reading_as ports (without_context (only_kind_one (R.entry_row reader.now))) bytes.now) }
    ensures written { ListIsWrittenBy result R.Value.entry R.Value.inside_fits
        (rows_rule ports (only_kind_one (R.entry_row reader.now))) bytes.now }
    ensures is_row_variant { IfOk result (λ v. All (R.is_row_variant reader.now) v.items) }
    ensures not_empty { IfMemory result (0 < length bytes.now) }
    ensures memory { IfMemory result
        (entries_begin_readable (R.entry_row reader.now) (R.may_allocate reader.now) bytes.now
        ≡ true) }
{
    ports_are_entries();
    if bytes.is_empty() {
        return Err(DecodeError::from("a list of ports without an attribute"));
    }
    parse_entries(alloc, reader, bytes)
}
