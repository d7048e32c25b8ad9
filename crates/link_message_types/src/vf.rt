//! Numbers of virtual functions.

ghost use Rattle.std.specs.Prelude.{◌≡◌};
ghost use Rattle.link_message_types.specs.VfTypes.{vf_link_state_number, vf_link_state_of};

/// The link state of a virtual function, `IFLA_VF_LINK_STATE_*` of `linux/if_link.h`. On the wire 4
/// bytes in native order.
#[derive(Debug, PartialEq, Eq, Clone, Copy)]
pub enum VfLinkState {
    /// The state of the device's link: `IFLA_VF_LINK_STATE_AUTO`, 0.
    Auto,
    /// Always up: `IFLA_VF_LINK_STATE_ENABLE`, 1.
    Enable,
    /// Always down: `IFLA_VF_LINK_STATE_DISABLE`, 2.
    Disable,
    /// Every other number.
    Other(u32),
}

impl From<u32> for VfLinkState {
    ghost from_gives = { λ n v. v ≡ vf_link_state_of n };

    fn from(number: u32) -> Self
        ensures named { result ≡ vf_link_state_of number }
        ensures keeps_the_number { vf_link_state_number result ≡ number }
    {
        match number {
            0 => Self::Auto,
            1 => Self::Enable,
            2 => Self::Disable,
            _ => Self::Other(number),
        }
    }
}

impl From<VfLinkState> for u32 {
    ghost from_gives = { λ v n. n ≡ vf_link_state_number v };

    fn from(value: VfLinkState) -> Self {
        match value {
            VfLinkState::Auto => 0,
            VfLinkState::Enable => 1,
            VfLinkState::Disable => 2,
            VfLinkState::Other(number) => number,
        }
    }
}
