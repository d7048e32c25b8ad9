//! The reader of a family, and of lists of its attributes.

ghost use Rattle.std.specs.Prelude.{◌≡◌, ◌<◌, true, length, IfOk, IfErr};
ghost use Rattle.std.specs.List.{All};
ghost use Rattle.netlink_packet_core_grammar.specs.Attributes.{attribute_text};
ghost use Rattle.netlink_packet_core_grammar.specs.Fits.{attribute_fits};
ghost use Rattle.netlink_packet_core.specs.Families.{family_row, may_allocate};
ghost use Rattle.attribute_tables_grammar.specs.Lists.{any, first_only, without_context};
ghost use Rattle.attribute_tables_grammar.specs.LookUps.{table_list_rule};
ghost use Rattle.attribute_tables_grammar.specs.Peers.{bytes_peer};
ghost use Rattle.attribute_tables_grammar.specs.Readings.{reading_as};
ghost use Rattle.attribute_tables.specs.Beginnings.{begins_accepted};
ghost use Rattle.attribute_tables.specs.Outcomes.{IfMemory, IsRefusedUnless, IsWrittenBy, ListIsReadAs, ListIsWrittenBy, SucceedsIf};

use super::reader::{Reader, parse_first_by, parse_list};
use attribute_tables_grammar::laws::{
    readings_determine_rules, rows_are_looked_up, rows_without_lists_fit,
    single_first_attributes_are_read,
};
use netlink_packet_core::{DecodeError, Family, NlaBuffer, read_attribute};
use netlink_packet_core_grammar::laws::first_attributes_are_viewed;
use std::alloc::Global;
use std::marker::PhantomData;

/// A reader of the attributes of a family.
#[derive(Drop)]
pub struct FamilyReader<F>(PhantomData<F>);

impl<F> FamilyReader<F> {
    /// Returns the reader of the family. It has no state, so all are equal.
    pub const fn new() -> Self
        ensures { (r : FamilyReader F) → r ≡ result }
    {
        FamilyReader(PhantomData)
    }
}

impl<F: Family + Drop> Reader for FamilyReader<F> {
    type Value = F;

    ghost row_of = { λ _. family_row F.rows };

    ghost is_row_variant = { λ _. F.is_row_variant };

    ghost may_allocate = { λ _. may_allocate F.rows };

    #[tactic(auto, using(crate::proofs::Families::families))]
    fn read(&self, alloc: Global, buf: &NlaBuffer<&[u8]>) -> Result<F, DecodeError> {
        rows_without_lists_fit();
        read_attribute(alloc, buf)
    }
}

/// Reads a list of attributes of a family. An empty list is accepted.
///
/// # Errors
///
/// Out of memory if an allocation fails, and only if the list's first attribute is accepted; any
/// other [`DecodeError`] only if the list isn't accepted.
#[tactic(auto, using(crate::proofs::Families::family_lists))]
pub fn parse_family<F: Family + Drop>(alloc: Global, bytes: &[u8]) -> Result<Vec<F>, DecodeError>
    ensures judged { SucceedsIf result ((table_list_rule bytes_peer any F.rows).accepted bytes.now) }
    ensures read { ListIsReadAs result F.field_entry (λ _. true)
        (reading_as any (without_context (family_row F.rows)) bytes.now) }
    ensures written { ListIsWrittenBy result F.field_entry (λ _. true)
        (table_list_rule bytes_peer any F.rows) bytes.now }
    ensures is_row_variant { IfOk result (λ v. All F.is_row_variant v.items) }
    ensures not_empty { IfErr result (λ _. 0 < length bytes.now) }
    ensures memory { IfMemory result (begins_accepted (family_row F.rows) bytes.now ≡ true) }
{
    rows_are_looked_up();
    parse_list(alloc, &FamilyReader::<F>::new(), bytes)
}

/// Reads the attribute of a family at the start of a payload; any bytes may follow it, and are
/// dropped.
///
/// # Errors
///
/// Out of memory if the attribute is accepted, holds bytes or a text, isn't empty, and an
/// allocation fails; any other [`DecodeError`] only if it isn't accepted.
pub fn parse_first<F: Family + Drop>(alloc: Global, bytes: &[u8]) -> Result<F, DecodeError>
    ensures judged { IsRefusedUnless result
        ((table_list_rule bytes_peer first_only F.rows).accepted bytes.now) }
    ensures written { IsWrittenBy result (λ v. attribute_text (F.field_entry v))
        (λ v. attribute_fits (F.field_entry v)) (table_list_rule bytes_peer first_only F.rows) bytes.now }
    ensures is_row_variant { IfOk result (λ v. F.is_row_variant v) }
    ensures not_empty { IfMemory result (0 < length bytes.now) }
    ensures allocates { IfMemory result (may_allocate F.rows bytes.now ≡ true) }
    ensures memory { IfMemory result (begins_accepted (family_row F.rows) bytes.now ≡ true) }
{
    single_first_attributes_are_read();
    readings_determine_rules();
    rows_are_looked_up();
    first_attributes_are_viewed();
    parse_first_by(alloc, &FamilyReader::<F>::new(), bytes)
}
