//! An iterator over the messages of a capture.

ghost use Rattle.std.specs.Prelude.{◌≡◌, ◌≤◌, ◌+◌, ◌-◌, length};
ghost use Rattle.std.specs.Iterator.{at_most};
ghost use Rattle.link_capture.specs.Messages.{MessagesLeft, FirstFaultIsAhead, IsNext};

use super::frames::read_first_message;
use super::route::RouteLink;
use link_capture_grammar::fault::CaptureFault;
use link_capture_grammar::laws::{captures_are_counted, captures_unfold_by_frames};
use netlink_packet_core::{NetlinkMessage, nla_align};
use std::alloc::Global;
use std::marker::Model;

/// Yields the messages of a capture in order, each as an Ok; then, if the capture isn't legal or an
/// allocation fails, the fault as an Err; then `None` for ever.
#[derive(Drop)]
pub struct Messages<'a> {
    alloc: Global,
    limit: u32,
    bytes: &'a [u8],
    offset: usize,
}

impl<'a> Model for Messages<'a> {
    ghost Value = { MessagesLeft };

    ghost view = { λ m. record { limit = m.limit; capture = m.bytes.now; offset = m.offset } };

    ghost invariant = { λ m. FirstFaultIsAhead (record {
      limit = m.limit;
      capture = m.bytes.now;
      offset = m.offset;
    }) };
}

impl<'a> Messages<'a> {
    /// Returns an iterator over the messages of a capture. `limit` is the greatest length in bytes
    /// of a message, as read and as written. Allocates nothing until `next` is called.
    pub fn new(alloc: Global, bytes: &'a [u8], limit: u32) -> Self
        ensures limit { result.limit ≡ limit }
        ensures capture { result.capture ≡ bytes.now }
        ensures offset { result.offset ≡ 0 }
    {
        Messages {
            alloc,
            limit,
            bytes,
            offset: 0,
        }
    }

    /// Returns the offset of the next message in bytes from the capture's start. After the last
    /// message it is the capture's size, or up to 3 bytes more; after a fault it is 0.
    pub fn offset(&self) -> usize
        ensures offset { result ≡ self.now.offset }
        ensures near { result ≤ length self.now.capture + 3 }
    {
        self.offset
    }
}

impl<'a> Iterator for Messages<'a> {
    type Item = Result<NetlinkMessage<RouteLink>, CaptureFault>;

    ghost next_gives = { IsNext };

    ghost remaining = { λ s. at_most (length s.capture - s.offset) };

    fn next(&mut self) -> Option<Result<NetlinkMessage<RouteLink>, CaptureFault>> {
        captures_are_counted();
        captures_unfold_by_frames();
        if self.offset >= self.bytes.len() {
            return None;
        }
        match read_first_message(self.alloc, &self.bytes[self.offset..], self.limit) {
            Ok((len, message)) => {
                self.offset += nla_align(len);
                Some(Ok(message))
            }
            Err(kind) => {
                let offset = self.offset as u64;
                self.bytes = &[];
                self.offset = 0;
                Some(Err(CaptureFault { kind, offset }))
            }
        }
    }
}
