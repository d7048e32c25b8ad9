//! Numbers of IP over InfiniBand.

ghost use Rattle.std.specs.Prelude.{◌≡◌};
ghost use Rattle.link_info_types.specs.IpoibTypes.{ipoib_mode_number, ipoib_mode_of};

/// How IP over InfiniBand sends its packets, `IPOIB_MODE_*` of `linux/if_link.h`. Encoded in 2
/// bytes, in native byte order.
#[derive(Debug, PartialEq, Eq, Clone, Copy)]
pub enum IpoibMode {
    /// Over unreliable datagrams: `IPOIB_MODE_DATAGRAM`, 0.
    Datagram,
    /// Over reliable connections: `IPOIB_MODE_CONNECTED`, 1.
    Connected,
    /// Any other number.
    Other(u16),
}

impl From<u16> for IpoibMode {
    ghost from_gives = { λ n m. m ≡ ipoib_mode_of n };

    fn from(number: u16) -> Self
        ensures named { result ≡ ipoib_mode_of number }
        ensures keeps_the_number { ipoib_mode_number result ≡ number }
    {
        match number {
            0 => Self::Datagram,
            1 => Self::Connected,
            _ => Self::Other(number),
        }
    }
}

impl From<IpoibMode> for u16 {
    ghost from_gives = { λ m n. n ≡ ipoib_mode_number m };

    fn from(value: IpoibMode) -> Self {
        match value {
            IpoibMode::Datagram => 0,
            IpoibMode::Connected => 1,
            IpoibMode::Other(number) => number,
        }
    }
}
