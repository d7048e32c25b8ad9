//! Numbers of MACsec.

ghost use Rattle.std.specs.Prelude.{◌≡◌};
ghost use Rattle.link_info_types.specs.MacSecTypes.{mac_sec_cipher_id_number, mac_sec_cipher_id_of};
ghost use Rattle.link_info_types.specs.MacSecTypes.{mac_sec_validate_number, mac_sec_validate_of};
ghost use Rattle.link_info_types.specs.MacSecTypes.{mac_sec_offload_number, mac_sec_offload_of};

const MACSEC_DEFAULT_CIPHER_ID: u64 = 0x0080020001000001;

const MACSEC_CIPHER_ID_GCM_AES_128: u64 = 0x0080C20001000001;

const MACSEC_CIPHER_ID_GCM_AES_256: u64 = 0x0080C20001000002;

const MACSEC_CIPHER_ID_GCM_AES_XPN_128: u64 = 0x0080C20001000003;

const MACSEC_CIPHER_ID_GCM_AES_XPN_256: u64 = 0x0080C20001000004;

/// The cipher suite of a MACsec device, `MACSEC_CIPHER_ID_*` of `linux/if_macsec.h`. Encoded in 8
/// bytes, in native byte order.
#[derive(Debug, PartialEq, Eq, Clone, Copy)]
pub enum MacSecCipherId {
    /// The number that GCM-AES-128 had before the standard's: `MACSEC_DEFAULT_CIPHER_ID`.
    DefaultGcmAes128,
    /// GCM-AES-128: `MACSEC_CIPHER_ID_GCM_AES_128`.
    GcmAes128,
    /// GCM-AES-256: `MACSEC_CIPHER_ID_GCM_AES_256`.
    GcmAes256,
    /// GCM-AES-XPN-128, packet numbers of 64 bits: `MACSEC_CIPHER_ID_GCM_AES_XPN_128`.
    GcmAesXpn128,
    /// GCM-AES-XPN-256, packet numbers of 64 bits: `MACSEC_CIPHER_ID_GCM_AES_XPN_256`.
    GcmAesXpn256,
    /// Any other number.
    Other(u64),
}

impl From<u64> for MacSecCipherId {
    ghost from_gives = { λ n m. m ≡ mac_sec_cipher_id_of n };

    fn from(number: u64) -> Self
        ensures named { result ≡ mac_sec_cipher_id_of number }
        ensures keeps_the_number { mac_sec_cipher_id_number result ≡ number }
    {
        match number {
            MACSEC_DEFAULT_CIPHER_ID => Self::DefaultGcmAes128,
            MACSEC_CIPHER_ID_GCM_AES_128 => Self::GcmAes128,
            MACSEC_CIPHER_ID_GCM_AES_256 => Self::GcmAes256,
            MACSEC_CIPHER_ID_GCM_AES_XPN_128 => Self::GcmAesXpn128,
            MACSEC_CIPHER_ID_GCM_AES_XPN_256 => Self::GcmAesXpn256,
            _ => Self::Other(number),
        }
    }
}

impl From<MacSecCipherId> for u64 {
    ghost from_gives = { λ m n. n ≡ mac_sec_cipher_id_number m };

    fn from(value: MacSecCipherId) -> Self {
        match value {
            MacSecCipherId::DefaultGcmAes128 => MACSEC_DEFAULT_CIPHER_ID,
            MacSecCipherId::GcmAes128 => MACSEC_CIPHER_ID_GCM_AES_128,
            MacSecCipherId::GcmAes256 => MACSEC_CIPHER_ID_GCM_AES_256,
            MacSecCipherId::GcmAesXpn128 => MACSEC_CIPHER_ID_GCM_AES_XPN_128,
            MacSecCipherId::GcmAesXpn256 => MACSEC_CIPHER_ID_GCM_AES_XPN_256,
            MacSecCipherId::Other(number) => number,
        }
    }
}

/// How strictly received frames are validated, `MACSEC_VALIDATE_*` of `linux/if_link.h`. Encoded in
/// 1 byte.
#[derive(Debug, PartialEq, Eq, Clone, Copy)]
pub enum MacSecValidate {
    /// Frames aren't validated: `MACSEC_VALIDATE_DISABLED`, 0.
    Disabled,
    /// Frames are validated, and those that fail are counted: `MACSEC_VALIDATE_CHECK`, 1.
    Check,
    /// Frames are validated, and those that fail are dropped: `MACSEC_VALIDATE_STRICT`, 2.
    Strict,
    /// Any other number.
    Other(u8),
}

impl From<u8> for MacSecValidate {
    ghost from_gives = { λ n m. m ≡ mac_sec_validate_of n };

    fn from(number: u8) -> Self
        ensures named { result ≡ mac_sec_validate_of number }
        ensures keeps_the_number { mac_sec_validate_number result ≡ number }
    {
        match number {
            0 => Self::Disabled,
            1 => Self::Check,
            2 => Self::Strict,
            _ => Self::Other(number),
        }
    }
}

impl From<MacSecValidate> for u8 {
    ghost from_gives = { λ m n. n ≡ mac_sec_validate_number m };

    fn from(value: MacSecValidate) -> Self {
        match value {
            MacSecValidate::Disabled => 0,
            MacSecValidate::Check => 1,
            MacSecValidate::Strict => 2,
            MacSecValidate::Other(number) => number,
        }
    }
}

/// The part of the hardware that MACsec is offloaded to, `MACSEC_OFFLOAD_*` of `linux/if_link.h`.
/// Encoded in 1 byte.
#[derive(Debug, PartialEq, Eq, Clone, Copy)]
pub enum MacSecOffload {
    /// None: `MACSEC_OFFLOAD_OFF`, 0.
    Off,
    /// The physical layer: `MACSEC_OFFLOAD_PHY`, 1.
    Phy,
    /// The media access controller: `MACSEC_OFFLOAD_MAC`, 2.
    Mac,
    /// Any other number.
    Other(u8),
}

impl From<u8> for MacSecOffload {
    ghost from_gives = { λ n m. m ≡ mac_sec_offload_of n };

    fn from(number: u8) -> Self
        ensures named { result ≡ mac_sec_offload_of number }
        ensures keeps_the_number { mac_sec_offload_number result ≡ number }
    {
        match number {
            0 => Self::Off,
            1 => Self::Phy,
            2 => Self::Mac,
            _ => Self::Other(number),
        }
    }
}

impl From<MacSecOffload> for u8 {
    ghost from_gives = { λ m n. n ≡ mac_sec_offload_number m };

    fn from(value: MacSecOffload) -> Self {
        match value {
            MacSecOffload::Off => 0,
            MacSecOffload::Phy => 1,
            MacSecOffload::Mac => 2,
            MacSecOffload::Other(number) => number,
        }
    }
}
