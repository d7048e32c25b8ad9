ghost use Rattle.std.specs.Prelude.{◌≡◌, ◌≤◌, ◌++◌, ℕ, List, Bool, true, false, length, drop, IsTrue, IfOk, IfErr, OnOk};
ghost use Rattle.netlink_packet_core_grammar.specs.Numbers.{as_usize};
ghost use Rattle.netlink_packet_core_numbers.specs.Errors.{is_memory};

use netlink_packet_core_numbers::error::DecodeError;
use std::alloc::Global;

/// A value that can be written at the start of a buffer.
pub trait Emitable {
    /// The bytes of the value's encoding.
    ghost text: { Self → List ℕ };

    /// The condition on the value, beside the buffer's size, under which `emit` may be called.
    ghost can_emit: { Self → Type 0 };

    /// Returns the length of the encoding; it saturates at `usize::MAX`.
    fn buffer_len(&self) -> usize
        ensures { result ≡ as_usize (length (text self.now)) };

    /// Writes the value at the start of a buffer; the rest of the buffer is left unchanged.
    fn emit(&self, buffer: &mut [u8])
        requires ready { can_emit self.now }
        requires capacity { length (text self.now) ≤ length buffer.old }
        ensures { buffer.new ≡ text self.now ++ drop (length (text self.now)) buffer.old };
}

/// A value that is read from a `T`.
pub trait Parseable<T>: Sized {
    /// The condition on the buffer under which `parse` may be called.
    ghost can_parse: { T → Type 0 };

    /// Whether the buffer is accepted.
    ghost accepts: { T → Bool };

    /// Whether reading the buffer may run out of memory. It is false for a rejected buffer, except
    /// if the value is a list: an allocation may fail before the rejected attribute is reached.
    ghost may_allocate: { T → Bool };

    /// The value is the one that the buffer encodes.
    ghost gives: { T → Self → Type 0 };

    /// Reads the value.
    ///
    /// # Errors
    ///
    /// Out of memory ([`DecodeError::is_memory`]) if an allocation fails, and only if
    /// `may_allocate` holds; any other error only if the buffer isn't accepted.
    fn parse(alloc: Global, buf: &T) -> Result<Self, DecodeError>
        requires { can_parse buf.now }
        ensures ok { OnOk result (IsTrue (accepts buf.now)) }
        ensures value { IfOk result (λ v. gives buf.now v) }
        ensures err { IfErr result (λ e. is_memory e ≡ false → accepts buf.now ≡ false) }
        ensures memory { IfErr result (λ e. is_memory e ≡ true → may_allocate buf.now ≡ true) };
}

/// A value that is read from a `T` under a parameter.
pub trait ParseableParametrized<T, P>: Sized {
    /// The condition on the buffer and the parameter under which `parse_with_param` may be called.
    ghost can_parse: { T → P → Type 0 };

    /// Whether the buffer is accepted under the parameter.
    ghost accepts: { T → P → Bool };

    /// Whether reading the buffer may run out of memory. It is false for a rejected buffer, except
    /// if the value is a list: an allocation may fail before the rejected attribute is reached.
    ghost may_allocate: { T → P → Bool };

    /// The value is the one that the buffer encodes under the parameter.
    ghost gives: { T → P → Self → Type 0 };

    /// Reads the value.
    ///
    /// # Errors
    ///
    /// Out of memory ([`DecodeError::is_memory`]) if an allocation fails, and only if
    /// `may_allocate` holds; any other error only if the buffer isn't accepted.
    fn parse_with_param(alloc: Global, buf: &T, params: P) -> Result<Self, DecodeError>
        requires { can_parse buf.now params }
        ensures ok { OnOk result (IsTrue (accepts buf.now params)) }
        ensures value { IfOk result (λ v. gives buf.now params v) }
        ensures err { IfErr result (λ e. is_memory e ≡ false → accepts buf.now params ≡ false) }
        ensures memory { IfErr result (λ e. is_memory e ≡ true
            → may_allocate buf.now params ≡ true) };
}
