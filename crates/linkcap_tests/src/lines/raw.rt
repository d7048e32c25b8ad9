//! Raw attributes as lines: lists, next hops and records, of payloads that are exactly that and of
//! others. The expected lines come from an independent implementation.

use crate::cases::split;
use link_interpreter::Attribute;
use link_lines_raw::raw_tables::{ACTIONS, MULTICAST_ROUTERS, NEXTHOP, ROUTE};
use link_lines_raw::{RawTable, push_raw};
use std::test::Fail;

/// The table and kind of an attribute; and its payload in hex, followed by its lines.
const CASES: [(RawTable, u16, &str); 27] = [
    // Lists, and payloads that are none.
    (
        ROUTE,
        8,
        "08000200780500000800040003000000\nRTA_METRICS\n  RTAX_MTU 1400\n  RTAX_RTT 3\n",
    ),
    (ROUTE, 8, "\nRTA_METRICS\n"),
    (
        ROUTE,
        0x8008,
        "0800020078050000\nRTA_METRICS nested\n  RTAX_MTU 1400\n",
    ),
    (
        ROUTE,
        8,
        "080002007805000000\nRTA_METRICS bytes 080002007805000000\n",
    ),
    (
        ROUTE,
        8,
        "0600100078000101\nRTA_METRICS\n  RTAX_CC_ALGO \"x\"\n    padding 0101\n",
    ),
    // Indexes as names.
    (
        ACTIONS,
        1,
        "0c000100070001006f6b0000\nTCA_ROOT_TAB\n  [1]\n    TCA_ACT_KIND \"ok\"\n",
    ),
    (ACTIONS, 1, "04000280\nTCA_ROOT_TAB\n  [2] nested\n"),
    // Encapsulations, by their type.
    (
        ROUTE,
        9,
        "1c0000000300000006001500010000000c0016000800010000064100
RTA_MULTIPATH
  rtnexthop flags 0x0 hops 0 (weight 1) ifindex 3
    RTA_ENCAP_TYPE 1 (mpls)
    RTA_ENCAP
      MPLS_IPTUNNEL_DST 100 tc 0 s 1 ttl 0
",
    ),
    (
        ROUTE,
        9,
        "1c000000030000000c00160008000100000641000600150001000000
RTA_MULTIPATH
  rtnexthop flags 0x0 hops 0 (weight 1) ifindex 3
    RTA_ENCAP
      MPLS_IPTUNNEL_DST 100 tc 0 s 1 ttl 0
    RTA_ENCAP_TYPE 1 (mpls)
",
    ),
    (
        ROUTE,
        9,
        "1c0000000300000006001580010000000c0016800500020007000000
RTA_MULTIPATH
  rtnexthop flags 0x0 hops 0 (weight 1) ifindex 3
    RTA_ENCAP_TYPE nested 1 (mpls)
    RTA_ENCAP nested
      MPLS_IPTUNNEL_TTL 7
",
    ),
    (
        ROUTE,
        9,
        "1c0000000300000006001500630000000c0016000800010000064100
RTA_MULTIPATH
  rtnexthop flags 0x0 hops 0 (weight 1) ifindex 3
    RTA_ENCAP_TYPE 99
    RTA_ENCAP bytes 0800010000064100
",
    ),
    (
        ROUTE,
        9,
        "1c0000000300000005001500010000000c0016000800010000064100
RTA_MULTIPATH
  rtnexthop flags 0x0 hops 0 (weight 1) ifindex 3
    RTA_ENCAP_TYPE bytes 01
    RTA_ENCAP bytes 0800010000064100
",
    ),
    // Next hops, one by one.
    (
        ROUTE,
        9,
        "100000000300000008000500c0000201100001000400000008000500c0000202
RTA_MULTIPATH
  rtnexthop flags 0x0 hops 0 (weight 1) ifindex 3
    RTA_GATEWAY 192.0.2.1
  rtnexthop flags 0x1 (DEAD) hops 0 (weight 1) ifindex 4
    RTA_GATEWAY 192.0.2.2
",
    ),
    (
        ROUTE,
        9,
        "080000000300000008000000\nRTA_MULTIPATH bytes 080000000300000008000000\n",
    ),
    (
        ROUTE,
        9,
        "0c00000003000000\nRTA_MULTIPATH bytes 0c00000003000000\n",
    ),
    // Records at the start.
    (
        MULTICAST_ROUTERS,
        1,
        "030000000500020001000000\nMDBA_ROUTER_PORT\n  router_port ifindex 3\n  MDBA_ROUTER_PATTR_TYPE 1 (temp_query)\n",
    ),
    (
        MULTICAST_ROUTERS,
        1,
        "03000000\nMDBA_ROUTER_PORT\n  router_port ifindex 3\n",
    ),
    (
        MULTICAST_ROUTERS,
        1,
        "030000\nMDBA_ROUTER_PORT bytes 030000\n",
    ),
    // Records one after another.
    (
        NEXTHOP,
        2,
        "0a000000000000000b00000001000000
NHA_GROUP
  nexthop_grp id 10 weight 0 weight_high 0 resvd2 0
  nexthop_grp id 11 weight 1 weight_high 0 resvd2 0
",
    ),
    (NEXTHOP, 2, "\nNHA_GROUP\n"),
    (
        NEXTHOP,
        2,
        "0a000000000000\nNHA_GROUP bytes 0a000000000000\n",
    ),
    // Flag bits of kinds.
    (ROUTE, 0x8004, "05000000\nRTA_OIF nested 5\n"),
    (ROUTE, 0x4004, "05000000\nkind 0x4004 05000000\n"),
    (ROUTE, 0xc004, "\nkind 0xc004\n"),
    (ROUTE, 0x2fff, "0a0b\nkind 0x2fff 0a0b\n"),
    (ROUTE, 4, "05\nRTA_OIF bytes 05\n"),
    (ROUTE, 4, "\nRTA_OIF bytes\n"),
];

/// Longer payloads than any case has are cut, since `push_raw` asks for a bound.
#[test]
fn attributes_are_shown(rt: HostRuntime) -> Result<(), Fail> {
    for (table, kind, case) in &CASES {
        let (payload, lines) = split(rt.alloc(), case, '\n')?;
        let attribute = Attribute {
            kind: *kind,
            payload: &payload[..payload.len().min(100)],
        };
        let mut out = Vec::new(rt.alloc());
        push_raw(1, *table, attribute, &mut out)?;
        assert!(rt; out.as_slice() == lines.as_bytes(), "{case}");
    }
    Ok(())
}
