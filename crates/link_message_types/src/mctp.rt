//! Numbers of the management component transport protocol.

ghost use Rattle.std.specs.Prelude.{◌≡◌, Some};
ghost use Rattle.link_message_types.specs.MctpTypes.{mctp_phys_binding_number, mctp_phys_binding_of, mctp_phys_binding_text};

use itoa::Buffer;
use std::fmt;

/// The physical binding of the management component transport protocol, `MCTP_PHYS_BINDING_*` of
/// `linux/if_link.h`. On the wire 1 byte.
#[derive(Debug, PartialEq, Eq, Clone, Copy)]
pub enum MctpPhysBinding {
    /// SMBus or I2C: `MCTP_PHYS_BINDING_SMBUS`, 1.
    Smbus,
    /// Messages of a PCIe vendor: `MCTP_PHYS_BINDING_PCIE_VDM`, 2.
    PcieVdm,
    /// USB: `MCTP_PHYS_BINDING_USB`, 3.
    Usb,
    /// A keyboard controller style interface: `MCTP_PHYS_BINDING_KCS`, 4.
    Kcs,
    /// A serial line: `MCTP_PHYS_BINDING_SERIAL`, 5.
    Serial,
    /// I3C: `MCTP_PHYS_BINDING_I3C`, 6.
    I3c,
    /// A buffer mapped into memory: `MCTP_PHYS_BINDING_MMBI`, 7.
    Mmbi,
    /// A platform communication channel: `MCTP_PHYS_BINDING_PCC`, 8.
    Pcc,
    /// Chiplets, UCIe: `MCTP_PHYS_BINDING_UCIE`, 9.
    Ucie,
    /// A binding that a vendor defines: `MCTP_PHYS_BINDING_VENDOR`, 255.
    Vendor,
    /// Every other number.
    Other(u8),
}

impl From<u8> for MctpPhysBinding {
    ghost from_gives = { λ n v. v ≡ mctp_phys_binding_of n };

    fn from(number: u8) -> Self
        ensures named { result ≡ mctp_phys_binding_of number }
        ensures keeps_the_number { mctp_phys_binding_number result ≡ number }
    {
        match number {
            1 => Self::Smbus,
            2 => Self::PcieVdm,
            3 => Self::Usb,
            4 => Self::Kcs,
            5 => Self::Serial,
            6 => Self::I3c,
            7 => Self::Mmbi,
            8 => Self::Pcc,
            9 => Self::Ucie,
            255 => Self::Vendor,
            _ => Self::Other(number),
        }
    }
}

impl From<&MctpPhysBinding> for u8 {
    ghost from_gives = { λ v n. n ≡ mctp_phys_binding_number v.now };

    fn from(value: &MctpPhysBinding) -> Self {
        match value {
            MctpPhysBinding::Smbus => 1,
            MctpPhysBinding::PcieVdm => 2,
            MctpPhysBinding::Usb => 3,
            MctpPhysBinding::Kcs => 4,
            MctpPhysBinding::Serial => 5,
            MctpPhysBinding::I3c => 6,
            MctpPhysBinding::Mmbi => 7,
            MctpPhysBinding::Pcc => 8,
            MctpPhysBinding::Ucie => 9,
            MctpPhysBinding::Vendor => 255,
            MctpPhysBinding::Other(number) => *number,
        }
    }
}

impl fmt::Display for MctpPhysBinding {
    ghost output = { λ v. Some (mctp_phys_binding_text v) };

    ghost styled_output = { λ v _. Some (mctp_phys_binding_text v) };

    fn fmt<W: fmt::Write>(&self, f: &mut fmt::Formatter<W>) -> fmt::Result {
        match self {
            Self::Smbus => f.write_str("smbus"),
            Self::PcieVdm => f.write_str("pcievdm"),
            Self::Usb => f.write_str("usb"),
            Self::Kcs => f.write_str("kcs"),
            Self::Serial => f.write_str("serial"),
            Self::I3c => f.write_str("i3c"),
            Self::Mmbi => f.write_str("mmbi"),
            Self::Pcc => f.write_str("pcc"),
            Self::Ucie => f.write_str("ucie"),
            Self::Vendor => f.write_str("vendor"),
            Self::Other(number) => f.write_str(Buffer::new().format(*number)),
        }
    }
}
