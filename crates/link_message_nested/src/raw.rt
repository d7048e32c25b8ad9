//! Lists of raw attributes.

ghost use Rattle.std.specs.Prelude.{◌≡◌, ◌<◌, ⊤, true, length, IfErr};
ghost use Rattle.netlink_packet_core.specs.Families.{family_row, may_allocate};
ghost use Rattle.attribute_tables_grammar.specs.Lists.{any};
ghost use Rattle.attribute_tables_grammar.specs.LookUps.{table_list_rule, table_row};
ghost use Rattle.attribute_tables_grammar.specs.Peers.{bytes_peer};
ghost use Rattle.attribute_tables_grammar.specs.Tables.{Table.end};
ghost use Rattle.attribute_tables.specs.Beginnings.{begins_accepted};
ghost use Rattle.attribute_tables.specs.Outcomes.{IfMemory, ListIsWrittenBy, SucceedsIf};

use attribute_tables::{Reader, parse_list};
use attribute_tables_grammar::laws::rows_are_looked_up;
use netlink_packet_core::{DecodeError, DefaultNla, NlaBuffer, Parseable};
use std::alloc::Global;

/// The reader of raw attributes of any kinds.
struct RawReader;

impl Reader for RawReader {
    type Value = DefaultNla;

    ghost row_of = { λ _. table_row bytes_peer end };

    ghost is_row_variant = { λ _ _. ⊤ };

    ghost may_allocate = { λ _. may_allocate end };

    fn read(&self, alloc: Global, buf: &NlaBuffer<&[u8]>) -> Result<DefaultNla, DecodeError> {
        DefaultNla::parse(alloc, buf)
    }
}

/// Reads a list of attributes of any kinds, each kept unchanged. Allocates the returned list,
/// nothing for no bytes.
///
/// # Errors
///
/// A refusal if the bytes aren't a list; out of memory if an allocation fails, which requires that
/// the first attribute is valid.
#[tactic(auto, using(crate::proofs::RawRules::raw_rules, attribute_tables::proofs::Families::family_lists))]
pub fn parse_raw(alloc: Global, bytes: &[u8]) -> Result<Vec<DefaultNla>, DecodeError>
    ensures judged { SucceedsIf result ((table_list_rule bytes_peer any end).accepted bytes.now) }
    ensures written { ListIsWrittenBy result (λ a. a) (λ _. true) (table_list_rule bytes_peer any end)
        bytes.now }
    ensures not_empty { IfErr result (λ _. 0 < length bytes.now) }
    ensures memory { IfMemory result (begins_accepted (family_row end) bytes.now ≡ true) }
{
    rows_are_looked_up();
    parse_list(alloc, &RawReader, bytes)
}
