//! The hooks to which XDP programs are attached.

ghost use Rattle.std.specs.Prelude.{◌≡◌, Some, IsOk, IfOk};
ghost use Rattle.std.specs.Result.{result_ok};
ghost use Rattle.link_message_types.specs.XdpTypes.{xdp_attached_number, xdp_attached_of};

use netlink_packet_core::DecodeError;

/// The hook to which an XDP program is attached, `XDP_ATTACHED_*` of `linux/if_link.h`. On the wire
/// 1 byte.
#[derive(Debug, PartialEq, Eq, Clone, Copy)]
pub enum XdpAttached {
    /// No program is attached: `XDP_ATTACHED_NONE`, 0.
    None,
    /// The driver: `XDP_ATTACHED_DRV`, 1.
    Driver,
    /// The generic hook, on socket buffers: `XDP_ATTACHED_SKB`, 2.
    SocketBuffer,
    /// The device: `XDP_ATTACHED_HW`, 3.
    Hardware,
    /// Several hooks: `XDP_ATTACHED_MULTI`, 4.
    Multiple,
    /// Every other number.
    Other(u8),
}

impl TryFrom<u8> for XdpAttached {
    type Error = DecodeError;

    ghost try_from_gives = { λ n r. result_ok r ≡ Some (xdp_attached_of n) };

    /// Returns the hook of a number; every number is one.
    fn try_from(number: u8) -> Result<Self, DecodeError>
        ensures ok { IsOk result }
        ensures named { IfOk result (λ v. v ≡ xdp_attached_of number) }
        ensures keeps_the_number { IfOk result (λ v. xdp_attached_number v ≡ number) }
    {
        Ok(match number {
            0 => Self::None,
            1 => Self::Driver,
            2 => Self::SocketBuffer,
            3 => Self::Hardware,
            4 => Self::Multiple,
            _ => Self::Other(number),
        })
    }
}

impl From<XdpAttached> for u8 {
    ghost from_gives = { λ v n. n ≡ xdp_attached_number v };

    fn from(value: XdpAttached) -> Self {
        match value {
            XdpAttached::None => 0,
            XdpAttached::Driver => 1,
            XdpAttached::SocketBuffer => 2,
            XdpAttached::Hardware => 3,
            XdpAttached::Multiple => 4,
            XdpAttached::Other(number) => number,
        }
    }
}
