//! Calls of the core, which the page `docs/rattle/netlink_packet_core.md` quotes.

ghost use Rattle.std.specs.Prelude.{◌≡◌, true, IfOk};
ghost use Rattle.netlink_packet_core.specs.Attributes.{attribute_text};
ghost use Rattle.netlink_packet_core.specs.Frames.{BeginsWithFrame};
ghost use Rattle.netlink_packet_core.specs.Numbers.{le4, u32_at};

use netlink_packet_core::laws::numbers_have_sizes;
use netlink_packet_core::{DecodeError, Emitable, NetlinkBuffer, Nla, fill_u32};

/// The kind of the attribute with a link's greatest packet size (if_link.h).
const IFLA_MTU: u16 = 4;

/// The greatest size of a packet on a link, in bytes.
#[derive(Clone, Copy)]
struct Mtu(u32);

impl Nla for Mtu {
    ghost entry = { λ mtu. record { kind = 4; payload = le4 mtu.0 } };

    ghost inside_fits = { λ _. true };

    fn value_len(&self) -> usize {
        numbers_have_sizes();
        4
    }

    fn kind(&self) -> u16 {
        IFLA_MTU
    }

    fn emit_value(&self, buffer: &mut [u8]) {
        numbers_have_sizes();
        fill_u32(buffer, self.0);
    }

    fn contents_fit(&self) -> bool {
        true
    }
}

/// Returns the attribute of this packet size, as it is in a message.
fn mtu_attribute(mtu: u32) -> [u8; 8]
    ensures { result ≡ attribute_text (record { kind = 4; payload = le4 mtu }) }
{
    let mut bytes = [0u8; 8];
    Mtu(mtu).emit(&mut bytes);
    bytes
}

/// Returns the sequence number of the first message, if the bytes have it whole.
fn sequence_number(bytes: &[u8]) -> Result<u32, DecodeError>
    ensures ok { IfOk result (λ number. BeginsWithFrame bytes.now × (number ≡ u32_at 8 bytes.now)) }
{
    let message = NetlinkBuffer::new_checked(bytes)?;
    Ok(message.sequence_number())
}

#[test]
fn calls_of_the_core(rt: HostRuntime) {
    assert!(rt; mtu_attribute(1500) == [8, 0, 4, 0, 0xdc, 5, 0, 0]);
    let done = [
        20, 0, 0, 0, 3, 0, 2, 0, 0x78, 0x56, 0x34, 0x12, 0, 0, 0, 0, 0, 0, 0, 0,
    ];
    assert!(rt; matches!(sequence_number(&done), Ok(0x12345678)));
    assert!(rt; sequence_number(&done[..19]).is_err());
}
