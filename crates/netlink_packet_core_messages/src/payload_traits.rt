ghost use Rattle.std.specs.Prelude.{◌≡◌, ℕ, List, Option, Some, None, Bool, true, false, length, IfOk, IfErr};
ghost use Rattle.netlink_packet_core_grammar.specs.Numbers.{as_usize};
ghost use Rattle.netlink_packet_core_messages.specs.TypedBodies.{IsInner, TypedBody};

use super::header::NetlinkHeader;
use std::alloc::Global;

/// A message of a protocol that can be written.
pub trait NetlinkSerializable {
    /// The message's type, and the bytes of its body.
    ghost entry: { Self → TypedBody };

    /// The condition under which the message can be written.
    ghost fits: { Self → Type 0 };

    /// Returns the type of the message.
    fn message_type(&self) -> u16
        ensures { result ≡ (entry self.now).0 };

    /// Returns the size of the body in bytes.
    fn buffer_len(&self) -> usize
        ensures { result ≡ as_usize (length (entry self.now).1) };

    /// Writes the body, into a buffer of its size.
    fn serialize(&self, buffer: &mut [u8])
        requires fits { fits self.now }
        requires capacity { length buffer.old ≡ length (entry self.now).1 }
        ensures { buffer.new ≡ (entry self.now).1 };
}

/// A message of a protocol that can be read.
pub trait NetlinkDeserializable: Sized {
    /// Why a body is rejected.
    type Error;

    /// The type of a message's value: equal messages have equal values.
    ghost Value: { Type 0 };

    ghost value: { Self → Value };

    /// The value of a message with this type and body, if it is accepted.
    ghost reads: { ℕ → List ℕ → Option Value };

    /// Whether the error is out of memory.
    ghost is_memory: { Self.Error → Bool };

    /// Whether reading the body of a frame of this type may run out of memory.
    ghost may_allocate: { ℕ → List ℕ → Bool };

    /// The guarantee of an error for a message type and a body.
    ghost determines: { Self.Error → ℕ → List ℕ → Type 0 };

    /// Reads the body of a frame with this header. The types 1 to 4 are those of control messages.
    ///
    /// # Errors
    ///
    /// Out of memory (`is_memory`) if an allocation fails, and only if `may_allocate` holds; any
    /// other error only if the body isn't accepted, with the guarantee `determines`.
    fn deserialize(
        alloc: Global,
        header: &NetlinkHeader,
        payload: &[u8],
    ) -> Result<Self, Self::Error>
        requires { IsInner header.now.message_type }
        ensures ok { IfOk result (λ m. reads header.now.message_type payload.now
            ≡ Some (value m)) }
        ensures err { IfErr result (λ e. is_memory e ≡ false
            → reads header.now.message_type payload.now ≡ None) }
        ensures reported { IfErr result (λ e. is_memory e ≡ false
            → determines e header.now.message_type payload.now) }
        ensures memory { IfErr result (λ e. is_memory e ≡ true
            → may_allocate header.now.message_type payload.now ≡ true) };
}

/// A protocol: a message that is written is read back.
pub trait NetlinkProtocol: NetlinkSerializable + NetlinkDeserializable {
    /// The bytes of a message are read as its value, under each header of its type.
    ghost round_trip: { (x : Self) → Self.fits x
        → Self.reads (Self.entry x).0 (Self.entry x).1 ≡ Some (Self.value x) };

    /// No message has a type from 1 to 4.
    ghost inner: { (x : Self) → IsInner (Self.entry x).0 };

    /// Messages with equal values are written in the same way.
    ghost same_implies_equal_text: { (x y : Self) → Self.value x ≡ Self.value y → Self.entry x ≡ Self.entry y };
}
