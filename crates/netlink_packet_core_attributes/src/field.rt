//! Values that are written as an attribute without attributes inside, and read from one.

ghost use Rattle.std.specs.Prelude.{◌≡◌, ◌<◌, true, length, IsTrue, IfOk, IfErr, IfSome, IfNone, OnOk};
ghost use Rattle.netlink_packet_core_grammar.specs.Attributes.{Attribute, proper_kind};
ghost use Rattle.netlink_packet_core_grammar.specs.AttributeViews.{viewed_kind, viewed_payload, BeginsWithAttribute};
ghost use Rattle.netlink_packet_core_grammar.specs.Numbers.{as_usize};
ghost use Rattle.netlink_packet_core_numbers.specs.Errors.{is_memory};
ghost use Rattle.netlink_packet_core_attributes.specs.NlaBuffers.{storage};
ghost use Rattle.netlink_packet_core_attributes.specs.Fields.{field_bytes};
ghost use Rattle.netlink_packet_core_attributes.specs.Families.{Gives, accepts, attribute, family_row, may_allocate};
ghost use Rattle.attribute_tables_grammar.specs.Lists.{canonical_form};
ghost use Rattle.attribute_tables_grammar.specs.LookUps.{HasNoRow, holds_no_lists, row_allocates};
ghost use Rattle.attribute_tables_grammar.specs.Tables.{Table};

use super::nla::{DefaultNla, Nla};
use super::nla_buffer::NlaBuffer;
use super::payload::Field;
use super::traits::Parseable;
use netlink_packet_core_numbers::error::DecodeError;
use std::alloc::Global;

/// A value that is written as an attribute whose payload holds no attributes.
pub trait FieldNla {
    /// The attribute: the kind with its flags, and the bytes of the payload.
    ghost field_entry: { Self → Attribute };

    /// Returns the kind and the payload.
    fn field(&self) -> (u16, Field<'_>)
        ensures kind { result.0 ≡ (field_entry self.now).kind }
        ensures payload { field_bytes result.1 ≡ (field_entry self.now).payload };
}

impl<F: FieldNla> Nla for F {
    ghost entry = { F.field_entry };

    ghost inside_fits = { λ _. true };

    fn value_len(&self) -> usize {
        self.field().1.len()
    }

    fn kind(&self) -> u16 {
        self.field().0
    }

    fn emit_value(&self, buffer: &mut [u8]) {
        self.field().1.fill(buffer);
    }

    fn contents_fit(&self) -> bool {
        true
    }
}

/// A value of a family of attributes whose rows hold no attributes.
pub trait Family: FieldNla + Sized {
    /// The table of the family.
    ghost rows: { Table };

    /// The value is the variant of its row.
    ghost is_row_variant: { Self → Type 0 };

    /// Reads the payload of a kind without its flag bits; `None` if the kind has no row.
    ///
    /// # Errors
    ///
    /// Out of memory if the row accepts the payload, which isn't empty, and an allocation fails;
    /// any other [`DecodeError`] if and only if the row doesn't accept it.
    fn read_row(alloc: Global, kind: u16, payload: &[u8]) -> Result<Option<Self>, DecodeError>
        ensures ok { OnOk result (IsTrue ((family_row rows kind).rule.accepted payload.now)) }
        ensures none { IfOk result (λ o. IfNone o (HasNoRow rows kind)) }
        ensures typed { IfOk result (λ o. IfSome o (λ _. (family_row rows kind).is_typed ≡ true)) }
        ensures value { IfOk result
            (λ o. IfSome o
            (λ v. Self.field_entry v
            ≡ canonical_form (family_row rows kind) (attribute kind payload.now))) }
        ensures is_row_variant { IfOk result (λ o. IfSome o (λ v. is_row_variant v)) }
        ensures err { IfErr result
            (λ e. (family_row rows kind).rule.accepted payload.now ≡ is_memory e) }
        ensures memory { IfErr result
            (λ e. is_memory e ≡ true → row_allocates rows kind ≡ true) }
        ensures not_empty { IfErr result (λ e. is_memory e ≡ true → 0 < length payload.now) };

    /// Returns the variant of an attribute whose kind has no row.
    fn other(nla: DefaultNla) -> Self
        ensures entry { Self.field_entry result ≡ nla }
        ensures is_row_variant { HasNoRow rows (proper_kind nla.kind) → is_row_variant result };

    /// No row holds attributes.
    ghost plain: { holds_no_lists rows ≡ true };
}

/// Reads one attribute of a family.
///
/// # Errors
///
/// Out of memory if the row accepts the payload, which isn't empty, and an allocation fails; any
/// other [`DecodeError`] if and only if the row doesn't accept it.
#[tactic(auto, using(crate::proofs::Families::families))]
pub fn read_attribute<F: Family>(alloc: Global, buf: &NlaBuffer<&[u8]>) -> Result<F, DecodeError>
    requires { BeginsWithAttribute (storage buf.now).now }
    ensures ok { OnOk result (IsTrue (accepts F.rows (storage buf.now).now)) }
    ensures value { IfOk result (λ v. Gives F.rows (storage buf.now).now (F.field_entry v)) }
    ensures is_row_variant { IfOk result (λ v. F.is_row_variant v) }
    ensures err { IfErr result (λ e. accepts F.rows (storage buf.now).now ≡ is_memory e) }
    ensures memory { IfErr result
        (λ e. is_memory e ≡ true
        → row_allocates F.rows (proper_kind (viewed_kind (storage buf.now).now)) ≡ true) }
    ensures not_empty { IfErr result
        (λ e. is_memory e ≡ true → 0 < length (viewed_payload (storage buf.now).now)) }
{
    match F::read_row(alloc, buf.kind(), buf.value()) {
        Ok(Some(value)) => Ok(value),
        Ok(None) => Ok(F::other(DefaultNla::parse(alloc, buf)?)),
        Err(error) => Err(error),
    }
}

impl<'a, F: Family> Parseable<NlaBuffer<&'a [u8]>> for F {
    ghost can_parse = { λ b. BeginsWithAttribute (storage b).now };

    ghost accepts = { λ b. accepts F.rows (storage b).now };

    ghost may_allocate = { λ b. may_allocate F.rows (storage b).now };

    ghost gives = { λ b v. Gives F.rows (storage b).now (F.field_entry v) × F.is_row_variant v };

    fn parse(alloc: Global, buf: &NlaBuffer<&'a [u8]>) -> Result<Self, DecodeError> {
        read_attribute(alloc, buf)
    }
}
