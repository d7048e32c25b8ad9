//! Kinds of a link's attributes (if_link.h) in which quirks occur.

/// The name.
pub const IFLA_IFNAME: u16 = 3;

/// Port settings of a bridge.
pub const IFLA_PROTINFO: u16 = 12;

/// The memory map of the device.
pub const IFLA_MAP: u16 = 14;

/// Link info.
pub const IFLA_LINKINFO: u16 = 18;

/// The alias.
pub const IFLA_IFALIAS: u16 = 20;

/// The virtual functions.
pub const IFLA_VFINFO_LIST: u16 = 22;

/// Settings by address family.
pub const IFLA_AF_SPEC: u16 = 26;

/// The program that runs on each packet.
pub const IFLA_XDP: u16 = 43;

/// The name of the parent device.
pub const IFLA_PARENT_DEV_NAME: u16 = 56;

/// IPv4, a kind inside IFLA_AF_SPEC (socket.h).
pub const AF_INET: u16 = 2;
