ghost use Rattle.std.specs.Prelude.{◌≡◌, ◌↔◌, ◌≤◌, length, ◌+◌, ◌++◌, drop, false, IfOk, IfErr, IsOk};
ghost use Rattle.netlink_packet_core_messages.specs.Codes.{code_of, code_text};
ghost use Rattle.netlink_packet_core_messages.specs.NetlinkBuffers.{storage};
ghost use Rattle.netlink_packet_core_grammar.specs.Bytes.{put_at};
ghost use Rattle.netlink_packet_core_numbers.specs.Errors.{is_memory};

use super::buffer::MessageBuffer;
use super::payload::NLMSG_DONE;
use netlink_packet_core_attributes::view::{ByteView, ByteViewMut, write_u32};
use netlink_packet_core_numbers::error::DecodeError;
use netlink_packet_core_numbers::payloads::fill_u32;

/// The size of the code at the start of the body of a DONE or an ERROR message (netlink.h), in
/// bytes.
pub const CODE_LEN: usize = 4;

// What bodies that begin with a code share.
impl<T: ByteView, const TYPE: u16> MessageBuffer<T, 4, TYPE> {
    /// Returns a view of bytes that hold a code.
    ///
    /// # Errors
    ///
    /// [`DecodeError::invalid_buffer`] if there are fewer than 4 bytes. Allocates nothing.
    pub fn new_checked(buffer: T) -> Result<Self, DecodeError>
    where
        T: Drop,
        ensures whole { IsOk result ↔ (4 ≤ length (T.bytes buffer)) }
        ensures ok { IfOk result (λ view. storage view ≡ buffer) }
        ensures err { IfErr result (λ e. is_memory e ≡ false) }
    {
        let size = buffer.as_bytes().len();
        if size < CODE_LEN {
            let name = if TYPE == NLMSG_DONE {
                "DoneBuffer"
            } else {
                "ErrorBuffer"
            };
            return Err(DecodeError::invalid_buffer(name, size, CODE_LEN));
        }
        Ok(MessageBuffer { buffer })
    }
}

impl<T: ByteViewMut, const TYPE: u16> MessageBuffer<T, 4, TYPE> {
    /// Sets the code.
    pub fn set_code(&mut self, value: i32)
        requires { 4 ≤ length (T.ByteView.bytes (storage self.old)) }
        ensures bytes { T.ByteView.bytes (storage self.new)
            ≡ put_at 0 (code_text value) (T.ByteView.bytes (storage self.old)) }
        ensures same { T.same_storage (storage self.old) (storage self.new) }
    {
        write_u32(&mut self.buffer, 0, value.cast_unsigned());
    }
}

/// Returns the code at the start of the bytes.
#[tactic(auto, unfolding(netlink_packet_core_grammar::specs::Numbers::u32_at))]
pub(crate) fn read_code(bytes: &[u8]) -> i32
    requires { 4 ≤ length bytes.now }
    ensures { result ≡ code_of bytes.now }
{
    i32::from_le_bytes([bytes[0], bytes[1], bytes[2], bytes[3]])
}

/// Writes a code, followed by `rest`, at the start of a buffer.
#[tactic(auto, using(netlink_packet_core_grammar::proofs::Sizes::sizes))]
pub(crate) fn emit_code(code: i32, rest: &[u8], buffer: &mut [u8])
    requires { 4 + length rest.now ≤ length buffer.old }
    ensures { buffer.new ≡ (code_text code ++ rest.now) ++ drop (4 + length rest.now) buffer.old }
{
    let (prefix, back) = buffer.split_at_mut(CODE_LEN);
    fill_u32(prefix, code.cast_unsigned());
    let (following, _) = back.split_at_mut(rest.len());
    following.copy_from_slice(rest);
}
