//! The IPv4 settings of a link (if_link.h, IFLA_INET_*). Numbers are little-endian.

ghost use Rattle.std.specs.Prelude.{◌≡◌, ◌<◌, ◌≤◌, ◌+◌, ◌++◌, true, length, map, take};
ghost use Rattle.std.specs.Int.{w32, cast_unsigned};
ghost use Rattle.netlink_packet_core.specs.AttributeViews.{BeginsWithAttribute};
ghost use Rattle.netlink_packet_core.specs.Families.{Gives, accepts, may_allocate};
ghost use Rattle.netlink_packet_core.specs.NlaBuffers.{storage};
ghost use Rattle.attribute_tables_grammar.specs.LookUps.{table_row};
ghost use Rattle.attribute_tables_grammar.specs.Peers.{bytes_peer};
ghost use Rattle.link_message_grammar.specs.NestedTables.{inet};
ghost use Rattle.link_message_nested.specs.InetSettings.{af_spec_inet_entry, af_spec_inet_names_row, requested_entry};
ghost use Rattle.link_message_nested.specs.InetSettings.{requested_setting, requested_from, requested_so_far};

use attribute_tables::Reader;
use link_message_records::{InetDevConf, emit_record, read_settings};
use netlink_packet_core::{
    DecodeError, DefaultNla, Emitable, Field, FieldNla, NLA_F_NESTED, Nla, NlaBuffer, Parseable,
    emit_all, len_all,
};
use std::alloc::Global;

const IFLA_INET_CONF: u16 = 1;

/// The number of settings.
const SETTINGS: usize = 33;

/// An attribute of the IPv4 settings of a link.
#[derive(Debug, PartialEq, Eq, Drop)]
pub enum AfSpecInet {
    /// `IFLA_INET_CONF`: all settings, written as 132 bytes and read from any number of bytes.
    DevConf(InetDevConf),
    /// `IFLA_INET_CONF` as a request to change settings: a list of attributes with the nested bit,
    /// one of 4 bytes for each setting that isn't 0, whose kind is the setting's index plus 1. It
    /// is only written: reading always yields a `DevConf`.
    DevConfRequest(InetDevConf),
    /// Any other kind, kept unchanged.
    Other(DefaultNla),
}

/// A setting that is requested: its kind and its value.
#[derive(Clone, Copy)]
struct RequestedSetting {
    kind: u16,
    number: u32,
}

impl FieldNla for RequestedSetting {
    ghost field_entry = { requested_entry };

    fn field(&self) -> (u16, Field<'_>) {
        (self.kind, Field::U32(self.number))
    }
}

/// The settings that are requested, at the start of an array, with their number.
#[derive(Clone, Copy)]
struct Request {
    settings: [RequestedSetting; SETTINGS],
    count: usize,
}

impl Request {
    /// Returns the settings of a record that aren't 0.
    fn new(asked: &InetDevConf) -> Self
        ensures capacity { result.count ≤ 33 }
        ensures requested { requested_so_far result ≡ requested_from 1 asked.now.values }
    {
        let nothing = RequestedSetting { kind: 0, number: 0 };
        let mut request = Self {
            settings: [nothing; SETTINGS],
            count: 0,
        };
        for index in 0..SETTINGS {
            request.push(index as u16 + 1, asked.values[index].cast_unsigned());
        }
        request
    }

    /// Appends a setting, unless it is 0.
    fn push(&mut self, kind: u16, number: u32)
        requires { self.old.count < 33 }
        ensures capacity { self.new.count ≤ self.old.count + 1 }
        ensures requested { requested_so_far self.new
            ≡ requested_so_far self.old ++ requested_setting kind number }
    {
        if number != 0 {
            self.settings[self.count] = RequestedSetting { kind, number };
            self.count += 1;
        }
    }

    /// Returns the settings.
    fn as_slice(&self) -> &[RequestedSetting]
        requires { self.now.count ≤ 33 }
        ensures { map requested_entry result.now ≡ requested_so_far self.now }
    {
        &self.settings[..self.count]
    }
}

impl Nla for AfSpecInet {
    ghost entry = { af_spec_inet_entry };

    ghost inside_fits = { λ _. true };

    #[tactic(auto, using(attribute_tables::proofs::Lists::lists))]
    fn value_len(&self) -> usize {
        match self {
            Self::DevConf(record) => record.buffer_len(),
            Self::DevConfRequest(record) => len_all(Request::new(record).as_slice()),
            Self::Other(nla) => nla.value_len(),
        }
    }

    fn kind(&self) -> u16 {
        match self {
            Self::DevConf(_) => IFLA_INET_CONF,
            Self::DevConfRequest(_) => IFLA_INET_CONF | NLA_F_NESTED,
            Self::Other(nla) => nla.kind(),
        }
    }

    #[tactic(auto, using(attribute_tables::proofs::Lists::lists, crate::proofs::Requests::requests))]
    fn emit_value(&self, buffer: &mut [u8]) {
        match self {
            Self::DevConf(record) => emit_record(record, buffer),
            Self::DevConfRequest(record) => emit_all(Request::new(record).as_slice(), buffer),
            Self::Other(nla) => nla.emit_value(buffer),
        }
    }

    fn contents_fit(&self) -> bool {
        true
    }
}

/// The reader of the attributes of IPv4 settings.
pub struct AfSpecInetReader;

impl Reader for AfSpecInetReader {
    type Value = AfSpecInet;

    ghost row_of = { λ _. table_row bytes_peer inet };

    ghost is_row_variant = { λ _. af_spec_inet_names_row };

    ghost may_allocate = { λ _. may_allocate inet };

    fn read(&self, alloc: Global, buf: &NlaBuffer<&[u8]>) -> Result<AfSpecInet, DecodeError> {
        match buf.kind() {
            IFLA_INET_CONF => Ok(AfSpecInet::DevConf(read_settings(buf.value()))),
            _ => Ok(AfSpecInet::Other(DefaultNla::parse(alloc, buf)?)),
        }
    }
}

impl<'a> Parseable<NlaBuffer<&'a [u8]>> for AfSpecInet {
    ghost can_parse = { λ b. BeginsWithAttribute (storage b).now };

    ghost accepts = { λ b. accepts inet (storage b).now };

    ghost may_allocate = { λ b. may_allocate inet (storage b).now };

    ghost gives = { λ b v. Gives inet (storage b).now (af_spec_inet_entry v)
        × af_spec_inet_names_row v };

    fn parse(alloc: Global, buf: &NlaBuffer<&'a [u8]>) -> Result<Self, DecodeError> {
        AfSpecInetReader.read(alloc, buf)
    }
}
