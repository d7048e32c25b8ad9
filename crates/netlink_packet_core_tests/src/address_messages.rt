//! Address messages over the core only: the body of `RTM_NEWADDR` and `RTM_DELADDR` as a header and
//! the bytes of its attributes, which are kept as they are.

ghost use Rattle.std.specs.Prelude.{◌≡◌, ◌≢◌, ◌↔◌, ◌+◌, ◌<◌, ◌^◌, ⊤, length, Some, Err, IfOk, IfErr};
ghost use Rattle.netlink_packet_core.specs.Messages.{IsFinalized, message_text, message_value, read_message};
ghost use Rattle.netlink_packet_core.specs.TypedBodies.{TypedBody};
ghost use Rattle.netlink_packet_core_tests.specs.Addresses.{header_text, address_text};
ghost use Rattle.netlink_packet_core_tests.specs.AddressMessages.{accepts_address, address_entry, address_determines};
ghost use Rattle.netlink_packet_core_tests.specs.AddressMessages.{reads_address, is_out_of_memory};
ghost use Rattle.netlink_packet_core_tests.specs.AddressRoundTrips.{round_trip, address_inner};

use netlink_packet_core::laws::messages_read_back;
use netlink_packet_core::{
    ByteVec, Emitable, NetlinkDeserializable, NetlinkHeader, NetlinkMessage, NetlinkPayload,
    NetlinkProtocol, NetlinkSerializable, fill_u32,
};
use std::alloc::Global;
use thiserror::Error;

/// Why the body of a message was rejected.
#[derive(Clone, Copy, Debug, PartialEq, Eq, Drop, Error)]
pub enum AddressFault {
    /// The message is of another type than `RTM_NEWADDR` and `RTM_DELADDR`.
    #[error("not a message of addresses")]
    OtherType,
    /// The body has fewer bytes than a header, which has 8.
    #[error("body under 8 bytes")]
    Short,
    /// The attributes couldn't be allocated.
    #[error("no memory")]
    Memory,
}

/// The length of a header in bytes.
pub const ADDRESS_HEADER_LEN: usize = 8;

/// The header of an address message, `struct ifaddrmsg` of `linux/if_addr.h`, 8 bytes: four numbers
/// of one byte, and the index, 4 bytes, little-endian. The default is 8 zeros.
#[derive(Clone, Copy, Debug, PartialEq, Eq, Default)]
pub struct AddressHeader {
    /// The family, an `AF_` number: 2 for IPv4, and 10 for IPv6. `ifa_family`.
    pub family: u8,
    /// The length of the network prefix in bits: `ifa_prefixlen`.
    pub prefix_len: u8,
    /// The lowest 8 flags, `IFA_F_` values joined: `ifa_flags`.
    pub flags: u8,
    /// The scope of the address, an `RT_SCOPE_` number: `ifa_scope`.
    pub scope: u8,
    /// The index of its link: `ifa_index`.
    pub index: u32,
}

impl AddressHeader {
    /// Reads the bytes of a header.
    #[tactic(auto, using(crate::proofs::AddressHeaders::header_read))]
    fn parse(bytes: &[u8]) -> Self
        requires { length bytes.now ≡ 8 }
        ensures { header_text result ≡ bytes.now }
    {
        AddressHeader {
            family: bytes[0],
            prefix_len: bytes[1],
            flags: bytes[2],
            scope: bytes[3],
            index: u32::from_le_bytes([bytes[4], bytes[5], bytes[6], bytes[7]]),
        }
    }

    /// Writes the header, into a buffer of its size.
    #[tactic(auto, unfolding(crate::specs::Addresses::header_text))]
    fn emit(self, buffer: &mut [u8])
        requires { length buffer.old ≡ 8 }
        ensures { buffer.new ≡ header_text self }
    {
        let (numbers, index) = buffer.split_at_mut(4);
        numbers.copy_from_slice(&[self.family, self.prefix_len, self.flags, self.scope]);
        fill_u32(index, self.index);
    }
}

/// The body of a message: a header, followed by the attributes as bytes.
#[derive(Debug, PartialEq, Eq, Drop)]
pub struct Address {
    /// The header.
    pub header: AddressHeader,
    /// The bytes of the attributes, kept as they are.
    pub attributes: ByteVec,
}

impl Address {
    /// Reads the body of a message.
    ///
    /// # Errors
    ///
    /// [`AddressFault::Short`] if and only if the body has fewer than 8 bytes; otherwise only
    /// [`AddressFault::Memory`], if an allocation fails.
    pub fn parse(alloc: Global, body: &[u8]) -> Result<Self, AddressFault>
        ensures ok { IfOk result (λ address. address_text address ≡ body.now) }
        ensures short { (result ≡ Err AddressFault.Short) ↔ (length body.now < 8) }
        ensures err { IfErr result (λ fault. fault ≢ AddressFault.OtherType) }
    {
        if body.len() < ADDRESS_HEADER_LEN {
            return Err(AddressFault::Short);
        }
        let (header, attributes) = body.split_at(ADDRESS_HEADER_LEN);
        match ByteVec::from_slice(alloc, attributes) {
            Ok(attributes) => Ok(Address {
                header: AddressHeader::parse(header),
                attributes,
            }),
            Err(_) => Err(AddressFault::Memory),
        }
    }
}

impl Emitable for Address {
    ghost text = { address_text };

    ghost can_emit = { λ _. ⊤ };

    #[tactic(auto, using(crate::proofs::AddressHeaders::header_sizes))]
    fn buffer_len(&self) -> usize {
        self.attributes.len().saturating_add(ADDRESS_HEADER_LEN)
    }

    #[tactic(auto, using(crate::proofs::AddressHeaders::header_sizes))]
    fn emit(&self, buffer: &mut [u8]) {
        let (prefix, _) = buffer.split_at_mut(ADDRESS_HEADER_LEN + self.attributes.len());
        let (header, attributes) = prefix.split_at_mut(ADDRESS_HEADER_LEN);
        self.header.emit(header);
        attributes.copy_from_slice(self.attributes.as_slice());
    }
}

/// The type of a message that announces an address, or adds one (linux/rtnetlink.h).
pub const RTM_NEWADDR: u16 = 20;

/// The type of a message that announces the removal of an address, or removes one.
pub const RTM_DELADDR: u16 = 21;

/// An address message. Control messages are variants of `NetlinkPayload`.
#[derive(Debug, PartialEq, Eq, Drop)]
pub enum AddressMessage {
    /// `RTM_NEWADDR`, 20: an address exists, or is to be added.
    NewAddress(Address),
    /// `RTM_DELADDR`, 21: an address was removed, or is to be removed.
    DelAddress(Address),
}

impl NetlinkSerializable for AddressMessage {
    ghost entry = { address_entry };

    ghost fits = { λ _. ⊤ };

    fn message_type(&self) -> u16 {
        match self {
            Self::NewAddress(_) => RTM_NEWADDR,
            Self::DelAddress(_) => RTM_DELADDR,
        }
    }

    fn buffer_len(&self) -> usize {
        match self {
            Self::NewAddress(address) | Self::DelAddress(address) => address.buffer_len(),
        }
    }

    fn serialize(&self, buffer: &mut [u8]) {
        match self {
            Self::NewAddress(address) | Self::DelAddress(address) => address.emit(buffer),
        }
    }
}

impl NetlinkDeserializable for AddressMessage {
    type Error = AddressFault;

    ghost Value = { TypedBody };

    ghost value = { address_entry };

    ghost reads = { reads_address };

    ghost is_memory = { is_out_of_memory };

    ghost may_allocate = { accepts_address };

    ghost determines = { address_determines };

    fn deserialize(
        alloc: Global,
        header: &NetlinkHeader,
        payload: &[u8],
    ) -> Result<Self, AddressFault> {
        match header.message_type {
            RTM_NEWADDR => Ok(Self::NewAddress(Address::parse(alloc, payload)?)),
            RTM_DELADDR => Ok(Self::DelAddress(Address::parse(alloc, payload)?)),
            _ => Err(AddressFault::OtherType),
        }
    }
}

impl NetlinkProtocol for AddressMessage {
    ghost round_trip = { λ x _. round_trip x };

    ghost inner = { address_inner };

    ghost same_implies_equal_text = { λ x y e. e };
}

/// Returns the message that adds an address, or announces one, of a header and the bytes of its
/// attributes. Its type and its length are set; its flags, sequence number and port are 0.
#[tactic(auto, using(crate::proofs::AddressHeaders::header_sizes))]
pub fn new_address(header: AddressHeader, attributes: Vec<u8>) -> NetlinkMessage<AddressMessage>
    requires { 24 + length attributes.items < 2 ^ 32 }
    ensures header { result.header ≡ record {
      length = 24 + length attributes.items;
      message_type = 20;
      flags = 0;
      sequence_number = 0;
      port_number = 0;
    } }
    ensures payload { result.payload ≡ NetlinkPayload.InnerMessage (AddressMessage.NewAddress
        (record { header = header; attributes = attributes.items })) }
    ensures finalized { IsFinalized address_entry result }
    ensures read_back { read_message reads_address (message_text address_entry result)
        ≡ Some (message_value address_entry result) }
{
    let mut message = NetlinkMessage::from(AddressMessage::NewAddress(Address {
        header,
        attributes: ByteVec::from(attributes),
    }));
    message.finalize();
    messages_read_back(&message, &[]);
    message
}
