//! The types of link layers (if_arp.h, ARPHRD_*).

ghost use Rattle.std.specs.Prelude.{◌≡◌};
ghost use Rattle.link_message_grammar.specs.Body.{has_layer_type_name};

const ARPHRD_NETROM: u16 = 0;

const ARPHRD_ETHER: u16 = 1;

const ARPHRD_LOOPBACK: u16 = 772;

/// The layer types that have a name; every other is written as ARPHRD_VOID.
const LAYER_TYPES: [u16; 67] = [
    0, 1, 2, 3, 4, 5, 6, 7, 8, 15, 19, 23, 24, 27, 32, 256, 257, 258, 259, 260, 264, 270, 271, 272,
    280, 290, 512, 513, 516, 517, 518, 519, 768, 769, 770, 771, 772, 773, 774, 775, 776, 777, 778,
    779, 780, 781, 782, 783, 784, 785, 786, 787, 800, 801, 802, 803, 804, 805, 820, 821, 822, 823,
    824, 825, 826, 65534, 65535,
];

/// Returns whether a layer type has a name. That of requests, 0, and those of most links are found
/// without searching the list.
#[tactic(auto, unfolding(link_message_grammar::specs::Body::has_layer_type_name))]
pub fn has_name(layer_type: u16) -> bool
    ensures { result ≡ has_layer_type_name layer_type }
{
    match layer_type {
        ARPHRD_NETROM | ARPHRD_ETHER | ARPHRD_LOOPBACK => true,
        _ => LAYER_TYPES.contains(&layer_type),
    }
}
