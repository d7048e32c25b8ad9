//! Readers of the attributes of one table, and of lists of them.

ghost use Rattle.std.specs.Prelude.{◌≡◌, ◌<◌, ◌&&◌, ℕ, List, Bool, true, length, IfOk, IfErr};
ghost use Rattle.std.specs.List.{All};
ghost use Rattle.netlink_packet_core_grammar.specs.Attributes.{attribute_text};
ghost use Rattle.netlink_packet_core_grammar.specs.AttributeViews.{viewed_attribute, BeginsWithAttribute};
ghost use Rattle.netlink_packet_core_grammar.specs.Fits.{attribute_fits};
ghost use Rattle.netlink_packet_core.specs.NlaBuffers.{storage};
ghost use Rattle.attribute_tables_grammar.specs.Lists.{Row, any, first_only, without_context};
ghost use Rattle.attribute_tables_grammar.specs.LookUps.{rows_rule};
ghost use Rattle.attribute_tables_grammar.specs.Readings.{reading_as};
ghost use Rattle.attribute_tables.specs.Views.{is_accepted_by, viewed_row};
ghost use Rattle.attribute_tables.specs.Beginnings.{begins_readable};
ghost use Rattle.attribute_tables.specs.Outcomes.{IfMemory, IsRewrittenBy, IsWrittenBy, ListIsReadAs, ListIsWrittenBy, SucceedsIf};

use attribute_tables_grammar::laws::{
    readings_determine_rules, readings_unfold, single_first_attributes_are_read,
};
use netlink_packet_core::{DecodeError, Nla, NlaBuffer, skip_first};
use netlink_packet_core_grammar::laws::first_attributes_are_viewed;
use std::alloc::Global;

/// A reader of the attributes of one table, in a context that it holds.
pub trait Reader {
    type Value: Nla + Drop;

    /// The row of a kind without its flag bits.
    ghost row_of: { Self → ℕ → Row };

    /// The value is the variant of its row.
    ghost is_row_variant: { Self → Self.Value → Type 0 };

    /// Whether reading an attribute may run out of memory.
    ghost may_allocate: { Self → List ℕ → Bool };

    /// Reads one attribute.
    ///
    /// # Errors
    ///
    /// Out of memory only if `may_allocate` holds; any other [`DecodeError`] only if the row
    /// rejects the payload.
    fn read(&self, alloc: Global, buf: &NlaBuffer<&[u8]>) -> Result<Self::Value, DecodeError>
        requires { BeginsWithAttribute (storage buf.now).now }
        ensures judged { SucceedsIf result
            (is_accepted_by (row_of self.now) (storage buf.now).now) }
        ensures written { IsRewrittenBy result Self.Value.entry Self.Value.inside_fits
            (viewed_row (row_of self.now) (storage buf.now).now)
            (viewed_attribute (storage buf.now).now) }
        ensures is_row_variant { IfOk result (λ v. is_row_variant self.now v) }
        ensures memory { IfMemory result
            (may_allocate self.now (storage buf.now).now ≡ true) };
}

/// Reads a list of attributes of one table. An empty list is accepted.
///
/// # Errors
///
/// Out of memory if an allocation fails, and only if the first attribute is accepted, or reading
/// that one may run out of memory; any other [`DecodeError`] only if the list isn't accepted.
pub fn parse_list<R: Reader>(
    alloc: Global,
    reader: &R,
    bytes: &[u8],
) -> Result<Vec<R::Value>, DecodeError>
    ensures judged { SucceedsIf result
        ((rows_rule any (R.row_of reader.now)).accepted bytes.now) }
    ensures read { ListIsReadAs result R.Value.entry R.Value.inside_fits
        (reading_as any (without_context (R.row_of reader.now)) bytes.now) }
    ensures written { ListIsWrittenBy result R.Value.entry R.Value.inside_fits
        (rows_rule any (R.row_of reader.now)) bytes.now }
    ensures is_row_variant { IfOk result (λ v. All (R.is_row_variant reader.now) v.items) }
    ensures not_empty { IfErr result (λ _. 0 < length bytes.now) }
    ensures memory { IfMemory result
        (begins_readable (R.row_of reader.now) (R.may_allocate reader.now) bytes.now ≡ true) }
{
    readings_unfold();
    readings_determine_rules();
    first_attributes_are_viewed();
    let mut list = Vec::new(alloc);
    let mut rest = bytes;
    while !rest.is_empty() {
        let buf = NlaBuffer::new_checked(rest)?;
        list.push(reader.read(alloc, &buf)?)?;
        rest = skip_first(rest);
    }
    Ok(list)
}

/// Reads the attribute of one table at the start of a payload; any bytes may follow it, and are
/// dropped.
///
/// # Errors
///
/// Out of memory if an allocation fails, and only for a whole attribute of which reading may run
/// out of memory; any other [`DecodeError`] only if it isn't accepted.
pub fn parse_first_by<R: Reader>(
    alloc: Global,
    reader: &R,
    bytes: &[u8],
) -> Result<R::Value, DecodeError>
    ensures judged { SucceedsIf result
        ((rows_rule first_only (R.row_of reader.now)).accepted bytes.now) }
    ensures written { IsWrittenBy result (λ v. attribute_text (R.Value.entry v))
        (λ v. attribute_fits (R.Value.entry v) && R.Value.inside_fits v)
        (rows_rule first_only (R.row_of reader.now)) bytes.now }
    ensures is_row_variant { IfOk result (λ v. R.is_row_variant reader.now v) }
    ensures whole { IfMemory result (BeginsWithAttribute bytes.now) }
    ensures allocates { IfMemory result (R.may_allocate reader.now bytes.now ≡ true) }
{
    single_first_attributes_are_read();
    readings_determine_rules();
    let buf = NlaBuffer::new_checked(bytes)?;
    let value = reader.read(alloc, &buf)?;
    Ok(value)
}
