//! The lines of a message without some attributes, with its offset, and whether they are about a
//! link. The lines, and those expected, come from an independent implementation.

use link_lines::{COUNTERS, INDEXES, Without, is_about, push_remaining, push_with_offset};
use std::test::Fail;

/// The lines of a link with alternative names.
const LINK: &str = "RTM_NEWLINK flags 0x0 seq 1 port 0
  ifinfomsg family 0 (AF_UNSPEC) type 1 (ether) index 12 flags 0x0 change 0x0
  IFLA_IFNAME \"v0\"
  IFLA_MTU 1500
  IFLA_PROP_LIST
    IFLA_ALT_IFNAME \"uplink\"
    IFLA_ALT_IFNAME \"a \\\"b\\\\\\x01\\x7f\\xc3\\xa9\"
  IFLA_LINK 3
";

/// The lines of another link, whose name has bytes that are shown escaped.
const OTHER_LINK: &str = "RTM_NEWLINK flags 0x0 seq 1 port 0
  ifinfomsg family 0 (AF_UNSPEC) type 1 (ether) index 12 flags 0x0 change 0x0
  IFLA_IFNAME \"a \\\"b\\\\\\x01\\x7f\\xc3\\xa9\"
  IFLA_ALT_IFNAME \"other\"
";

/// The lines of a route with next hops.
const ROUTE: &str = "RTM_NEWROUTE flags 0x605 (REQUEST | ACK | EXCL | CREATE) seq 1795885696 port 0
  rtmsg family 2 (AF_INET) dst_len 24 src_len 0 tos 0 table 254 (main) protocol 3 (boot) scope 0 (universe) type 1 (unicast) flags 0x0
  RTA_DST 198.51.100.0
  RTA_MULTIPATH
    rtnexthop flags 0x0 hops 0 (weight 1) ifindex 0
      RTA_GATEWAY 192.0.2.2
    rtnexthop flags 0x0 hops 9 (weight 10) ifindex 0
      RTA_GATEWAY 192.0.2.3
";

/// The lines of a neighbour.
const NEIGHBOUR: &str = "RTM_DELNEIGH flags 0x0 seq 0 port 0
  ndmsg family 10 (AF_INET6) ifindex 2 state 0x40 (NOARP) flags 0x0 type 5 (multicast)
  NDA_DST ff02::2
  NDA_LLADDR 33:33:00:00:00:02
  NDA_PROBES 0
  NDA_CACHEINFO confirmed=6007 used=7 updated=7 refcnt=0
";

/// The lines of an address.
const ADDRESS: &str = "RTM_NEWADDR flags 0x5 (REQUEST | ACK) seq 1795830313 port 0
  ifaddrmsg family 10 (AF_INET6) prefixlen 128 flags 0x0 scope 0 (universe) index 5
  IFA_CACHEINFO prefered=0 valid=4294967295 (forever) cstamp=0 tstamp=0
  IFA_LOCAL fe80::9
  IFA_FLAGS 0x2 (NODAD)
  IFA_PROTO 18
";

/// The lines of a route to a link, of a rule by a link's name, and of settings of all links.
const LINK_ROUTE: &str = "RTM_NEWROUTE flags 0x0 seq 1 port 0
  rtmsg family 2 (AF_INET) dst_len 24 src_len 0 tos 0 table 254 (main) protocol 3 (boot) scope 253 (link) type 1 (unicast) flags 0x0
  RTA_DST 198.51.100.0
  RTA_OIF 12
";

const RULE: &str = "RTM_NEWRULE flags 0x0 seq 1 port 0
  fib_rule_hdr family 2 (AF_INET) dst_len 0 src_len 0 tos 0 table 0 (unspec) action 1 (to_tbl) flags 0x0
  FRA_IIFNAME \"v0\"
  FRA_PRIORITY 12
";

const SETTINGS: &str = "RTM_NEWNETCONF flags 0x0 seq 1 port 0
  netconfmsg family 2 (AF_INET)
  NETCONFA_IFINDEX 4294967295 (all)
  NETCONFA_FORWARDING 12
";

/// The lines of a queueing discipline, whose statistics have padding that isn't zero; and of a link
/// whose alias has the same word in it.
const QDISC: &str = "RTM_NEWQDISC flags 0x0 seq 0 port 0
  tcmsg family 0 (AF_UNSPEC) ifindex 3 handle 1:0 parent ffff:ffff (root) info 0
  TCA_STATS2
    TCA_STATS_BASIC bytes=5 packets=2 padding=01000000
";

const ALIAS: &str = "RTM_NEWLINK flags 0x0 seq 0 port 0
  ifinfomsg family 0 (AF_UNSPEC) type 1 (ether) index 3 flags 0x0 change 0x0
  IFLA_IFALIAS \"bytes=5 padding=00\"
";

/// The lines of the end of a dump.
const END: &str = "NLMSG_DONE flags 0x2 (MULTI) seq 3 port 30
  code 0
";

/// Lines; the names of attributes that are left out, whether those that count are, and whether
/// indexes are; and the lines that remain.
type RemainingCase = (
    &'static str,
    &'static [&'static [u8]],
    bool,
    bool,
    &'static str,
);

const REMAINING: [RemainingCase; 19] = [
    // Attributes by name.
    (
        LINK,
        &[b"IFLA_PROP_LIST"],
        false,
        false,
        "RTM_NEWLINK flags 0x0 seq 1 port 0
  ifinfomsg family 0 (AF_UNSPEC) type 1 (ether) index 12 flags 0x0 change 0x0
  IFLA_IFNAME \"v0\"
  IFLA_MTU 1500
  IFLA_LINK 3
",
    ),
    (
        LINK,
        &[b"IFLA_MTU", b"IFLA_ALT_IFNAME"],
        false,
        false,
        "RTM_NEWLINK flags 0x0 seq 1 port 0
  ifinfomsg family 0 (AF_UNSPEC) type 1 (ether) index 12 flags 0x0 change 0x0
  IFLA_IFNAME \"v0\"
  IFLA_PROP_LIST
  IFLA_LINK 3
",
    ),
    (
        ROUTE,
        &[b"RTA_MULTIPATH"],
        false,
        false,
        "RTM_NEWROUTE flags 0x605 (REQUEST | ACK | EXCL | CREATE) seq 1795885696 port 0
  rtmsg family 2 (AF_INET) dst_len 24 src_len 0 tos 0 table 254 (main) protocol 3 (boot) scope 0 (universe) type 1 (unicast) flags 0x0
  RTA_DST 198.51.100.0
",
    ),
    (
        ROUTE,
        &[b"RTA_GATEWAY"],
        false,
        false,
        "RTM_NEWROUTE flags 0x605 (REQUEST | ACK | EXCL | CREATE) seq 1795885696 port 0
  rtmsg family 2 (AF_INET) dst_len 24 src_len 0 tos 0 table 254 (main) protocol 3 (boot) scope 0 (universe) type 1 (unicast) flags 0x0
  RTA_DST 198.51.100.0
  RTA_MULTIPATH
    rtnexthop flags 0x0 hops 0 (weight 1) ifindex 0
    rtnexthop flags 0x0 hops 9 (weight 10) ifindex 0
",
    ),
    (END, &[b"RTA_GATEWAY"], true, true, END),
    // Attributes that count.
    (
        NEIGHBOUR,
        &[],
        true,
        false,
        "RTM_DELNEIGH flags 0x0 seq 0 port 0
  ndmsg family 10 (AF_INET6) ifindex 2 state 0x40 (NOARP) flags 0x0 type 5 (multicast)
  NDA_DST ff02::2
  NDA_LLADDR 33:33:00:00:00:02
",
    ),
    (
        ADDRESS,
        &[],
        true,
        false,
        "RTM_NEWADDR flags 0x5 (REQUEST | ACK) seq 1795830313 port 0
  ifaddrmsg family 10 (AF_INET6) prefixlen 128 flags 0x0 scope 0 (universe) index 5
  IFA_LOCAL fe80::9
  IFA_FLAGS 0x2 (NODAD)
  IFA_PROTO 18
",
    ),
    (LINK, &[], true, false, LINK),
    // Indexes of links and numbers of namespaces.
    (
        LINK,
        &[],
        false,
        true,
        "RTM_NEWLINK flags 0x0 seq 1 port 0
  ifinfomsg family 0 (AF_UNSPEC) type 1 (ether) flags 0x0 change 0x0
  IFLA_IFNAME \"v0\"
  IFLA_MTU 1500
  IFLA_PROP_LIST
    IFLA_ALT_IFNAME \"uplink\"
    IFLA_ALT_IFNAME \"a \\\"b\\\\\\x01\\x7f\\xc3\\xa9\"
",
    ),
    (
        ROUTE,
        &[],
        false,
        true,
        "RTM_NEWROUTE flags 0x605 (REQUEST | ACK | EXCL | CREATE) seq 1795885696 port 0
  rtmsg family 2 (AF_INET) dst_len 24 src_len 0 tos 0 table 254 (main) protocol 3 (boot) scope 0 (universe) type 1 (unicast) flags 0x0
  RTA_DST 198.51.100.0
  RTA_MULTIPATH
    rtnexthop flags 0x0 hops 0 (weight 1)
      RTA_GATEWAY 192.0.2.2
    rtnexthop flags 0x0 hops 9 (weight 10)
      RTA_GATEWAY 192.0.2.3
",
    ),
    (
        NEIGHBOUR,
        &[b"NDA_LLADDR"],
        true,
        true,
        "RTM_DELNEIGH flags 0x0 seq 0 port 0
  ndmsg family 10 (AF_INET6) state 0x40 (NOARP) flags 0x0 type 5 (multicast)
  NDA_DST ff02::2
",
    ),
    // Padding, in records of attributes too, but not in texts.
    (
        QDISC,
        &[b"padding"],
        false,
        false,
        "RTM_NEWQDISC flags 0x0 seq 0 port 0
  tcmsg family 0 (AF_UNSPEC) ifindex 3 handle 1:0 parent ffff:ffff (root) info 0
  TCA_STATS2
    TCA_STATS_BASIC bytes=5 packets=2
",
    ),
    (ALIAS, &[b"padding"], false, false, ALIAS),
    // Nothing is left out.
    (LINK, &[], false, false, LINK),
    (OTHER_LINK, &[], false, false, OTHER_LINK),
    (ROUTE, &[], false, false, ROUTE),
    (NEIGHBOUR, &[], false, false, NEIGHBOUR),
    (ADDRESS, &[], false, false, ADDRESS),
    (END, &[], false, false, END),
];

#[test]
fn attributes_are_left_out(rt: HostRuntime) -> Result<(), Fail> {
    for (lines, names, counters, indexes, remaining) in &REMAINING {
        let mut without = Without::nothing();
        for name in *names {
            assert!(rt; without.names.try_push(*name).is_ok());
        }
        without.counters = *counters;
        without.indexes = *indexes;
        let mut out = Vec::new(rt.alloc());
        push_remaining(lines.as_bytes(), &without, &mut out)?;
        assert!(rt;
            out.as_slice() == remaining.as_bytes(),
            "{names:?} {remaining}"
        );
        let keeps_lines = names.is_empty() && !*counters && !*indexes;
        assert!(rt;
            without.keeps_lines() == keeps_lines,
            "{names:?} {remaining}"
        );
    }
    assert_eq!(rt; (COUNTERS.len(), INDEXES.len()), (57, 43));
    Ok(())
}

/// Lines, the name or index of a link, and whether the lines are about it.
const ABOUT: [(&str, &[u8], bool); 28] = [
    (LINK, b"v0", true),
    (LINK, b"v", false),
    (LINK, b"v00", false),
    (LINK, b"uplink", true),
    (LINK, b"a \"b\\\x01\x7f\xc3\xa9", true),
    (LINK, b"a \"b\\\x01\x7f\xc3", false),
    (LINK, b"a \"b/\x01\x7f\xc3\xa9", false),
    (LINK, b"12", true),
    (LINK, b"1", false),
    (LINK, b"3", false),
    (LINK, b"", false),
    (OTHER_LINK, b"a \"b\\\x01\x7f\xc3\xa9", true),
    (OTHER_LINK, b"other", true),
    (OTHER_LINK, b"a \"b", false),
    (NEIGHBOUR, b"2", true),
    (NEIGHBOUR, b"6007", false),
    (ADDRESS, b"5", true),
    (ROUTE, b"0", true),
    (ROUTE, b"9", false),
    (LINK_ROUTE, b"12", true),
    (LINK_ROUTE, b"1", false),
    (LINK_ROUTE, b"24", false),
    (RULE, b"v0", true),
    (RULE, b"v", false),
    (RULE, b"12", false),
    (SETTINGS, b"4294967295", true),
    (SETTINGS, b"12", false),
    (END, b"0", false),
];

#[test]
fn lines_are_about_a_link_or_not(rt: HostRuntime) {
    for (lines, link, is_expected) in &ABOUT {
        assert!(rt;
            is_about(lines.as_bytes(), link) == *is_expected,
            "{link:?} {lines}"
        );
    }
}

/// Lines, an offset, and the lines with it.
const OFFSETS: [(&str, u64, &str); 3] = [
    (
        END,
        1580,
        "NLMSG_DONE flags 0x2 (MULTI) seq 3 port 30 offset 1580
  code 0
",
    ),
    (
        NEIGHBOUR,
        0,
        "RTM_DELNEIGH flags 0x0 seq 0 port 0 offset 0
  ndmsg family 10 (AF_INET6) ifindex 2 state 0x40 (NOARP) flags 0x0 type 5 (multicast)
  NDA_DST ff02::2
  NDA_LLADDR 33:33:00:00:00:02
  NDA_PROBES 0
  NDA_CACHEINFO confirmed=6007 used=7 updated=7 refcnt=0
",
    ),
    (
        END,
        18446744073709551615,
        "NLMSG_DONE flags 0x2 (MULTI) seq 3 port 30 offset 18446744073709551615
  code 0
",
    ),
];

#[test]
fn offsets_are_at_the_end_of_the_first_line(rt: HostRuntime) -> Result<(), Fail> {
    for (lines, offset, expected) in &OFFSETS {
        let mut out = Vec::new(rt.alloc());
        push_with_offset(lines.as_bytes(), *offset, &mut out)?;
        assert!(rt; out.as_slice() == expected.as_bytes(), "{expected}");
    }
    Ok(())
}
