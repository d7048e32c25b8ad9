//! Payloads that are attributes: their length and their encoding.

ghost use Rattle.std.specs.Prelude.{◌≡◌, true, length};
ghost use Rattle.netlink_packet_core.specs.Numbers.{as_usize};
ghost use Rattle.netlink_packet_core.specs.Attributes.{attribute_text};
ghost use Rattle.netlink_packet_core.specs.Fits.{attribute_fits};
ghost use Rattle.netlink_packet_core.specs.Lists.{text_by, all_fit_by};

use netlink_packet_core::{Nla, emit_all, len_all};

/// Returns the length of a list's encoding; it saturates at `usize::MAX`.
#[tactic(auto, using(attribute_tables::proofs::Lists::lists))]
pub(crate) fn list_len<N: Nla>(list: &[N]) -> usize
    ensures { result ≡ as_usize (length (text_by N.entry list.now)) }
{
    len_all(list)
}

/// Writes a list into a buffer of its size.
#[tactic(auto, using(attribute_tables::proofs::Lists::lists))]
pub(crate) fn emit_list<N: Nla>(list: &[N], buffer: &mut [u8])
    requires fits { all_fit_by N.entry N.inside_fits list.now ≡ true }
    requires capacity { length buffer.old ≡ length (text_by N.entry list.now) }
    ensures { buffer.new ≡ text_by N.entry list.now }
{
    emit_all(list, buffer)
}

/// Returns the length of an attribute's encoding; it saturates at `usize::MAX`.
#[tactic(auto, using(attribute_tables::proofs::Lists::lists))]
pub(crate) fn one_len<N: Nla>(one: &N) -> usize
    ensures { result ≡ as_usize (length (attribute_text (N.entry one.now))) }
{
    one.buffer_len()
}

/// Writes an attribute into a buffer of its size.
#[tactic(auto, using(attribute_tables::proofs::Lists::lists))]
pub(crate) fn emit_one<N: Nla>(one: &N, buffer: &mut [u8])
    requires fits { attribute_fits (N.entry one.now) ≡ true }
    requires inside { N.inside_fits one.now ≡ true }
    requires capacity { length buffer.old ≡ length (attribute_text (N.entry one.now)) }
    ensures { buffer.new ≡ attribute_text (N.entry one.now) }
{
    one.emit(buffer)
}
