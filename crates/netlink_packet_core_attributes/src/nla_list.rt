ghost use Rattle.std.specs.Prelude.{◌≡◌, ◌≤◌, ◌++◌, true, length, drop};
ghost use Rattle.std.specs.Iterator.{item_count};
ghost use Rattle.netlink_packet_core_grammar.specs.AttributeViews.{BeginsWithAttribute, after_first};
ghost use Rattle.netlink_packet_core_grammar.specs.Numbers.{as_usize};
ghost use Rattle.netlink_packet_core_attributes.specs.Lists.{text_by, size_by, all_fit_by};
ghost use Rattle.netlink_packet_core_attributes.specs.Walks.{attribute_walk, StepsOnWalk};

use super::laws::walks_unfold;
use super::nla::{Nla, nla_align};
use super::nla_buffer::NlaBuffer;
use super::view::read_u16;
use netlink_packet_core_numbers::error::DecodeError;
use std::marker::Model;

/// An iterator over the attributes of a byte string: each as a view, then one error if bytes remain
/// that begin with no whole attribute, then `None` for ever.
#[derive(Clone, Copy, Debug, PartialEq, Eq, Drop)]
pub struct NlasIterator<T> {
    rest: T,
}

impl<T> Model for NlasIterator<T> {
    ghost Value = { T };

    ghost view = { λ s. s.rest };

    ghost inverse = { λ s. record { rest = s } };
}

impl<T> NlasIterator<T> {
    /// Returns the iterator over a buffer.
    pub fn new(buffer: T) -> Self
        ensures { result ≡ buffer }
    {
        NlasIterator { rest: buffer }
    }
}

impl<'a> Iterator for NlasIterator<&'a [u8]> {
    type Item = Result<NlaBuffer<&'a [u8]>, DecodeError>;

    ghost next_gives = { StepsOnWalk };

    ghost remaining = { item_count (λ s. attribute_walk s.now) };

    fn next(&mut self) -> Option<Result<NlaBuffer<&'a [u8]>, DecodeError>> {
        walks_unfold();
        if self.rest.is_empty() {
            return None;
        }
        let bytes = self.rest;
        match NlaBuffer::new_checked(bytes) {
            Ok(nla) => {
                self.rest = skip_first(bytes);
                Some(Ok(nla))
            }
            Err(error) => {
                self.rest = &[];
                Some(Err(error))
            }
        }
    }
}

/// Returns the bytes after the first attribute and its padding.
pub fn skip_first(bytes: &[u8]) -> &[u8]
    requires { BeginsWithAttribute bytes.now }
    ensures { result.now ≡ after_first bytes.now }
{
    let end = nla_align(read_u16(bytes, 0) as usize);
    if end < bytes.len() {
        &bytes[end..]
    } else {
        &[]
    }
}

/// Returns the length of the attributes' encoding; it saturates at `usize::MAX`.
pub fn len_all<N: Nla>(items: &[N]) -> usize
    ensures { result ≡ as_usize (size_by N.entry items.now) }
{
    let mut size = 0usize;
    for item in items {
        size = size.saturating_add(item.buffer_len());
    }
    size
}

/// Returns whether each attribute fits, and everything inside it; true if there are none.
pub fn fits_all<N: Nla>(items: &[N]) -> bool
    ensures { result ≡ all_fit_by N.entry N.inside_fits items.now }
{
    items.iter().all(|item| item.fits())
}

/// Writes attributes one after another at the start of a buffer; the rest of the buffer is left
/// unchanged.
pub fn emit_all<N: Nla>(items: &[N], buffer: &mut [u8])
    requires fits { all_fit_by N.entry N.inside_fits items.now ≡ true }
    requires capacity { size_by N.entry items.now ≤ length buffer.old }
    ensures { buffer.new
        ≡ text_by N.entry items.now ++ drop (size_by N.entry items.now) buffer.old }
{
    let mut at = 0usize;
    for item in items {
        let rest = &mut buffer[at..];
        item.emit(rest);
        // The header just written has the size, so the value needn't compute it again.
        at += nla_align(read_u16(rest, 0) as usize);
    }
}
