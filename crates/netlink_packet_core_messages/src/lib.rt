//! Netlink messages: views of frames and of the bodies of control messages, over any storage of
//! bytes; the header of a frame, these bodies, and the payloads of protocols.
#![tactic(auto)]

pub mod buffer;
pub mod byte_vec;
mod code;
pub mod constants;
pub mod done;
pub mod error;
pub mod frame;
pub mod frame_error;
pub mod header;
pub mod laws;
pub mod message;
pub mod payload;
pub mod payload_traits;

pub use buffer::{MessageBuffer, NETLINK_HEADER_LEN, NetlinkBuffer};
pub use byte_vec::ByteVec;
pub use code::CODE_LEN;
pub use done::{DoneBuffer, DoneMessage};
pub use error::{ErrorBuffer, ErrorCode, ErrorMessage};
pub use frame::first_frame_len;
pub use frame_error::FrameError;
pub use header::NetlinkHeader;
pub use message::NetlinkMessage;
pub use payload::{
    NLMSG_ALIGNTO, NLMSG_DONE, NLMSG_ERROR, NLMSG_NOOP, NLMSG_OVERRUN, NetlinkPayload,
};
pub use payload_traits::{NetlinkDeserializable, NetlinkProtocol, NetlinkSerializable};
