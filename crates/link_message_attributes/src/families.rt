//! Address families as the checks of attributes number them.

ghost use Rattle.std.specs.Prelude.{◌≡◌};
ghost use Rattle.link_message_grammar.specs.LinkMessage.{family_of};
ghost use Rattle.link_message_types.specs.AddressFamilies.{table_family};

use link_message_types::AddressFamily;

/// Returns the number of the table of a family's attributes. Only the variant counts, so this isn't
/// the number that the family is written as.
pub fn number_of_table(family: AddressFamily) -> u8
    ensures { family_of result ≡ table_family family }
{
    match family {
        AddressFamily::Unspec => 0,
        AddressFamily::Bridge => 7,
        AddressFamily::Inet6 => 10,
        AddressFamily::Unix
        | AddressFamily::Inet
        | AddressFamily::Netlink
        | AddressFamily::Packet
        | AddressFamily::Mctp
        | AddressFamily::Other(_) => 1,
    }
}
