ghost use Rattle.std.specs.Prelude.{◌≡◌};

use netlink_packet_core_numbers::error::DecodeError;

/// Why a frame was rejected: for its header or as a control message, or by the protocol, as an
/// inner message.
#[derive(Debug, Drop, PartialEq, Eq)]
pub enum FrameError<E> {
    /// The bytes begin with no whole frame, or the body of a control message is invalid.
    Frame(DecodeError),
    /// The protocol rejects the body.
    Inner(E),
}

impl<E> From<DecodeError> for FrameError<E> {
    ghost use Rattle.netlink_packet_core_messages.specs.declared.frame_error.FrameError.TheVariants.{Frame};

    ghost from_gives = { λ e f. f ≡ Frame e };

    fn from(error: DecodeError) -> Self {
        FrameError::Frame(error)
    }
}
