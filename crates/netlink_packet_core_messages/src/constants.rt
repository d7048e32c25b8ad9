//! The flags of a frame header (netlink.h). The meaning of some bits depends on the message's type.

/// The message is a request.
pub const NLM_F_REQUEST: u16 = 1;
/// The message is one of several, which a DONE message ends.
pub const NLM_F_MULTIPART: u16 = 2;
/// The sender requests an acknowledgement.
pub const NLM_F_ACK: u16 = 4;
/// The sender requests an echo of the notification that the change causes.
pub const NLM_F_ECHO: u16 = 8;
/// The dump is inconsistent, since data changed between its messages.
pub const NLM_F_DUMP_INTR: u16 = 16;
/// The dump was filtered as requested.
pub const NLM_F_DUMP_FILTERED: u16 = 32;

/// Of a request for data: return the whole table.
pub const NLM_F_ROOT: u16 = 0x100;
/// Of a request for data: return all entries that match.
pub const NLM_F_MATCH: u16 = 0x200;
/// Of a request for data: return an atomic snapshot.
pub const NLM_F_ATOMIC: u16 = 0x400;
/// Of a request for data: dump, `NLM_F_ROOT` and `NLM_F_MATCH` joined.
pub const NLM_F_DUMP: u16 = 0x300;

/// Of a request for a new object: replace an existing one.
pub const NLM_F_REPLACE: u16 = 0x100;
/// Of a request for a new object: fail if it exists already.
pub const NLM_F_EXCL: u16 = 0x200;
/// Of a request for a new object: create it if it doesn't exist.
pub const NLM_F_CREATE: u16 = 0x400;
/// Of a request for a new object: append it to the end of the list.
pub const NLM_F_APPEND: u16 = 0x800;

/// Of a request to delete: don't delete recursively.
pub const NLM_F_NONREC: u16 = 0x100;

/// Of an acknowledgement: the request that it repeats was capped, to its header.
pub const NLM_F_CAPPED: u16 = 0x100;
/// Of an acknowledgement: attributes follow, those of an extended acknowledgement.
pub const NLM_F_ACK_TLVS: u16 = 0x200;
