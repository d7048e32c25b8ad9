ghost use Rattle.std.specs.Prelude.{◌≡◌, ◌++◌, ℕ, Bool, true, false, List, Some, None, replicate, is_err};
ghost use Rattle.std.specs.Borrow.{Bor};
ghost use Rattle.netlink_packet_core_numbers.specs.declared.error.Cause.TheVariants.{Buffer};
ghost use Rattle.std.specs.Fmt.{WritesOnOk, WritesStyledOnOk, decimal};
ghost use Rattle.netlink_packet_core_numbers.specs.Errors.{is_memory, in_context, in_context_if, cause_text, prefix_text, display_text};
ghost use Rattle.netlink_packet_core_numbers.specs.Errors.{out_of_memory, invalid_buffer, invalid_mac_address};
ghost use Rattle.netlink_packet_core_numbers.specs.Errors.{invalid_ip_address, invalid_number, nla_buffer_too_small};
ghost use Rattle.netlink_packet_core_numbers.specs.Errors.{nla_length_mismatch, nla_invalid_length, buffer_too_small};
ghost use Rattle.netlink_packet_core_numbers.specs.Errors.{of_text};

use std::alloc::{AllocError, AllocFailed};
use std::fmt;

/// The cause of an error.
#[derive(Clone, Copy, Debug, PartialEq, Eq, Drop)]
enum Cause {
    Memory,
    Buffer(&'static str, usize, usize),
    MacAddress(usize),
    IpAddress(usize),
    Number(usize, usize),
    NlaBufferTooSmall(usize, usize),
    NlaLengthMismatch(usize, usize),
    NlaInvalidLength(usize, usize),
    BufferTooSmall(usize, usize),
    Text(&'static str),
}

/// Why bytes were rejected, or that an allocation failed, with the first four contexts added.
#[derive(Clone, Copy, Debug, PartialEq, Eq, Drop)]
pub struct DecodeError {
    cause: Cause,
    contexts: [Option<&'static str>; 4],
}

impl DecodeError {
    fn of(cause: Cause) -> Self
        ensures cause { result.cause ≡ cause }
        ensures contexts { result.contexts ≡ replicate 4 None }
    {
        DecodeError {
            cause,
            contexts: [None; 4],
        }
    }

    /// Returns the error of a failed allocation.
    pub fn memory() -> Self
        ensures refusal { result ≡ out_of_memory }
        ensures cause { is_memory result ≡ true }
    {
        DecodeError::of(Cause::Memory)
    }

    /// Returns the error of a `name`'s buffer that has `received` bytes, fewer than `minimum`.
    pub fn invalid_buffer(name: &'static str, received: usize, minimum: usize) -> Self
        ensures refusal { result ≡ invalid_buffer name.entry received minimum }
        ensures cause { is_memory result ≡ false }
    {
        DecodeError::of(Cause::Buffer(name, received, minimum))
    }

    /// Returns the error of a hardware address of `received` bytes, not 6.
    pub fn invalid_mac_address(received: usize) -> Self
        ensures refusal { result ≡ invalid_mac_address received }
        ensures cause { is_memory result ≡ false }
    {
        DecodeError::of(Cause::MacAddress(received))
    }

    /// Returns the error of an Internet protocol address of `received` bytes, neither 4 nor 16.
    pub fn invalid_ip_address(received: usize) -> Self
        ensures refusal { result ≡ invalid_ip_address received }
        ensures cause { is_memory result ≡ false }
    {
        DecodeError::of(Cause::IpAddress(received))
    }

    /// Returns the error of a payload of `received` bytes instead of the `expected` bytes of a
    /// number.
    pub fn invalid_number(expected: usize, received: usize) -> Self
        ensures refusal { result ≡ invalid_number expected received }
        ensures cause { is_memory result ≡ false }
    {
        DecodeError::of(Cause::Number(expected, received))
    }

    /// Returns the error of a buffer of `buffer_len` bytes that is too small for an attribute's
    /// header, or for its `nla_len` bytes.
    pub fn nla_buffer_too_small(buffer_len: usize, nla_len: usize) -> Self
        ensures refusal { result ≡ nla_buffer_too_small buffer_len nla_len }
        ensures cause { is_memory result ≡ false }
    {
        DecodeError::of(Cause::NlaBufferTooSmall(buffer_len, nla_len))
    }

    /// Returns the error of an attribute whose length, `nla_len`, exceeds the buffer's,
    /// `buffer_len`.
    pub fn nla_length_mismatch(buffer_len: usize, nla_len: usize) -> Self
        ensures refusal { result ≡ nla_length_mismatch buffer_len nla_len }
        ensures cause { is_memory result ≡ false }
    {
        DecodeError::of(Cause::NlaLengthMismatch(buffer_len, nla_len))
    }

    /// Returns the error of an attribute whose length, `nla_len`, is less than the size of its
    /// header.
    pub fn nla_invalid_length(buffer_len: usize, nla_len: usize) -> Self
        ensures refusal { result ≡ nla_invalid_length buffer_len nla_len }
        ensures cause { is_memory result ≡ false }
    {
        DecodeError::of(Cause::NlaInvalidLength(buffer_len, nla_len))
    }

    /// Returns the error of a buffer of `buffer_len` bytes that is too small for a value of
    /// `value_len` bytes.
    pub fn buffer_too_small(buffer_len: usize, value_len: usize) -> Self
        ensures refusal { result ≡ buffer_too_small buffer_len value_len }
        ensures cause { is_memory result ≡ false }
    {
        DecodeError::of(Cause::BufferTooSmall(buffer_len, value_len))
    }

    /// Returns whether the error is a failed allocation.
    pub fn is_memory(&self) -> bool
        ensures { result ≡ is_memory self.now }
    {
        matches!(self.cause, Cause::Memory)
    }
}

impl From<&'static str> for DecodeError {
    ghost from_gives = { λ text e. e ≡ of_text text };

    fn from(text: &'static str) -> DecodeError {
        DecodeError::of(Cause::Text(text))
    }
}

impl From<AllocError> for DecodeError {
    ghost from_gives = { λ _ e. is_memory e ≡ true };

    fn from(_error: AllocError) -> DecodeError {
        DecodeError::memory()
    }
}

impl<T: Drop> From<AllocFailed<T>> for DecodeError {
    ghost from_gives = { λ _ e. is_memory e ≡ true };

    fn from(_error: AllocFailed<T>) -> DecodeError {
        DecodeError::memory()
    }
}

// Writes a text followed by a number.
fn write_count<W: fmt::Write>(f: &mut fmt::Formatter<W>, label: &str, number: usize) -> fmt::Result
    ensures writes { WritesOnOk W.write_str_gives f.old result (label.now ++ decimal number) f.new }
    ensures styled { WritesStyledOnOk W.write_str_gives f.old result (label.now ++ decimal number) f.new }
{
    f.write_str(label)?;
    f.write_str(itoa::Buffer::new().format(number))
}

// Writes the message for a buffer that is too short for a `name`.
fn write_buffer<W: fmt::Write>(
    f: &mut fmt::Formatter<W>,
    name: &'static str,
    received: usize,
    minimum: usize,
) -> fmt::Result
    ensures writes { WritesOnOk W.write_str_gives f.old result (cause_text (Buffer name.entry received minimum)) f.new }
    ensures styled { WritesStyledOnOk W.write_str_gives f.old result (cause_text (Buffer name.entry received minimum)) f.new }
{
    f.write_str("invalid ")?;
    f.write_str(name)?;
    write_count(f, ": ", received)?;
    write_count(f, " bytes, at least ", minimum)?;
    f.write_str(" are needed")
}

impl fmt::Display for Cause {
    ghost output = { λ c. Some (cause_text c) };

    ghost styled_output = { λ c _. Some (cause_text c) };

    fn fmt<W: fmt::Write>(&self, f: &mut fmt::Formatter<W>) -> fmt::Result {
        match self {
            Cause::Memory => f.write_str("out of memory"),
            Cause::Buffer(name, received, minimum) => write_buffer(f, name, *received, *minimum),
            Cause::MacAddress(received) => {
                write_count(f, "invalid MAC address: ", *received)?;
                f.write_str(" bytes, not 6")
            }
            Cause::IpAddress(received) => {
                write_count(f, "invalid IP address: ", *received)?;
                f.write_str(" bytes, not 4 or 16")
            }
            Cause::Number(expected, received) => {
                write_count(f, "invalid number: ", *received)?;
                write_count(f, " bytes, not ", *expected)
            }
            Cause::NlaBufferTooSmall(buffer_len, nla_len) => {
                write_count(f, "buffer of ", *buffer_len)?;
                write_count(f, " bytes is too small for an attribute of ", *nla_len)
            }
            Cause::NlaLengthMismatch(buffer_len, nla_len) => {
                write_count(f, "attribute of ", *nla_len)?;
                write_count(f, " bytes in a buffer of ", *buffer_len)
            }
            Cause::NlaInvalidLength(buffer_len, nla_len) => {
                write_count(f, "attribute of ", *nla_len)?;
                write_count(
                    f,
                    " bytes is shorter than its header, in a buffer of ",
                    *buffer_len,
                )
            }
            Cause::BufferTooSmall(buffer_len, value_len) => {
                write_count(f, "buffer of ", *buffer_len)?;
                write_count(f, " bytes is too small for a value of ", *value_len)
            }
            Cause::Text(text) => f.write_str(text),
        }
    }
}

/// Displays a context before the errors that it was added to.
#[derive(Drop)]
struct Prefix(Option<&'static str>);

impl fmt::Display for Prefix {
    ghost output = { λ p. Some (prefix_text p.0) };

    ghost styled_output = { λ p _. Some (prefix_text p.0) };

    fn fmt<W: fmt::Write>(&self, f: &mut fmt::Formatter<W>) -> fmt::Result {
        match self.0 {
            None => Ok(()),
            Some(text) => {
                f.write_str(text)?;
                f.write_str(" caused by ")
            }
        }
    }
}

impl fmt::Display for DecodeError {
    ghost output = { λ e. Some (display_text e) };

    ghost styled_output = { λ e _. Some (display_text e) };

    fn fmt<W: fmt::Write>(&self, f: &mut fmt::Formatter<W>) -> fmt::Result {
        let [first, second, third, fourth] = self.contexts;
        fmt::Display::fmt(&Prefix(fourth), f)?;
        fmt::Display::fmt(&Prefix(third), f)?;
        fmt::Display::fmt(&Prefix(second), f)?;
        fmt::Display::fmt(&Prefix(first), f)?;
        fmt::Display::fmt(&self.cause, f)
    }
}

/// A text that the closure of `with_context` may return.
pub trait ContextText: Sized {
    ghost text: { Self → Bor (List ℕ) };

    /// Returns the text itself.
    fn into_text(self) -> &'static str
        ensures { result ≡ text self };
}

impl ContextText for &'static str {
    ghost text = { λ t. t };

    fn into_text(self) -> &'static str {
        self
    }
}

/// Adds to an error what was being read when it occurred.
pub trait ErrorContext: Sized {
    /// Whether there is an error.
    ghost fails: { Self → Bool };

    /// the same with one more context; only the first four are kept
    ghost in_context: { Self → Bor (List ℕ) → Self };

    /// Returns the error with the context `text`.
    fn context(self, text: &'static str) -> Self
        ensures { result ≡ in_context self text.entry };

    /// Returns the error with the context that `text` returns; the closure is called only if there
    /// is an error.
    fn with_context<C: ContextText, F: FnOnce() -> C>(self, text: F) -> Self
        requires { fails self ≡ true → F.pre text }
        ensures failed { fails self ≡ true
            → (c : C) × F.post text c × (result ≡ in_context self (C.text c)) }
        ensures kept { fails self ≡ false → result ≡ self };
}

impl ErrorContext for DecodeError {
    ghost fails = { λ _. true };

    ghost in_context = { λ e text. in_context text e };

    fn context(mut self, text: &'static str) -> Self {
        match self.contexts {
            [None, _, _, _] => self.contexts[0] = Some(text),
            [_, None, _, _] => self.contexts[1] = Some(text),
            [_, _, None, _] => self.contexts[2] = Some(text),
            [_, _, _, None] => self.contexts[3] = Some(text),
            _ => {}
        }
        self
    }

    fn with_context<C: ContextText, F: FnOnce() -> C>(self, text: F) -> Self {
        self.context(text().into_text())
    }
}

impl<T> ErrorContext for Result<T, DecodeError> {
    ghost fails = { is_err };

    ghost in_context = { λ r text. in_context_if text r };

    fn context(self, text: &'static str) -> Self {
        match self {
            Ok(value) => Ok(value),
            Err(error) => Err(error.context(text)),
        }
    }

    fn with_context<C: ContextText, F: FnOnce() -> C>(self, text: F) -> Self {
        match self {
            Ok(value) => Ok(value),
            Err(error) => Err(error.context(text().into_text())),
        }
    }
}
