//! Bodies of messages other than links as lines. The expected lines come from an independent
//! implementation.

use crate::cases::split;
use link_lines_raw::push_body;
use std::test::Fail;

/// The type of a message, and whether it is a request; and its body in hex, followed by the lines.
const CASES: [(u16, bool, &str); 33] = [
    // Objects, by their fields.
    (
        20,
        false,
        "021880000200000008000200c0000201070003006c6f0000
  ifaddrmsg family 2 (AF_INET) prefixlen 24 flags 0x80 (PERMANENT) scope 0 (universe) index 2
  IFA_LOCAL 192.0.2.1
  IFA_LABEL \"lo\"
",
    ),
    (
        24,
        false,
        "02180000fe0300010000000008000100c00002000800040002000000
  rtmsg family 2 (AF_INET) dst_len 24 src_len 0 tos 0 table 254 (main) protocol 3 (boot) scope 0 (universe) type 1 (unicast) flags 0x0
  RTA_DST 192.0.2.0
  RTA_OIF 2
",
    ),
    (
        24,
        false,
        "81180000fe030001000000000c0017000900000000000000
  rtmsg family 129 (RTNL_FAMILY_IP6MR) dst_len 24 src_len 0 tos 0 table 254 (main) protocol 3 (boot) \
        scope 0 (universe) type 1 (unicast) flags 0x0
  RTA_EXPIRES 9
",
    ),
    (
        28,
        false,
        "02000000030000000200000108000100c0000209
  ndmsg family 2 (AF_INET) ifindex 3 state 0x2 (REACHABLE) flags 0x0 type 1 (unicast)
  NDA_DST 192.0.2.9
",
    ),
    (
        32,
        false,
        "02000000fe000001000000000800060064000000
  fib_rule_hdr family 2 (AF_INET) dst_len 0 src_len 0 tos 0 table 254 (main) action 1 (to_tbl) flags 0x0
  FRA_PRIORITY 100
",
    ),
    // Padding that isn't zero.
    (
        20,
        false,
        "0218800002000000070003006c6f0001
  ifaddrmsg family 2 (AF_INET) prefixlen 24 flags 0x80 (PERMANENT) scope 0 (universe) index 2
  IFA_LABEL \"lo\"
    padding 01
",
    ),
    // Unused bytes of a header that aren't zero.
    (
        28,
        false,
        "020000ff0300000002000001
  ndmsg family 2 (AF_INET) padding 0000ff ifindex 3 state 0x2 (REACHABLE) flags 0x0 type \
        1 (unicast)
",
    ),
    // A selector of `u32` with two keys.
    (
        44,
        true,
        "000000000300000000000100ffffffff00000000080001007533320038000200340005000100020000000000000000000000\
         ffffffffffff0a0000010c0000000000000000ff00000011000008000000ffffffff
  tcmsg family 0 (AF_UNSPEC) ifindex 3 handle 0x10000 parent ffff:ffff (root) protocol 0 prio 0
  TCA_KIND \"u32\"
  TCA_OPTIONS
    TCA_U32_SEL
      tc_u32_sel flags 0x1 (TERMINAL) offshift 0 nkeys 2 offmask 0x0 off 0 offoff 0 hoff \
        0 hmask 0xffff
      tc_u32_key mask 0xffffffff (all) val 0xa000001 off 12 offmask 0
      tc_u32_key mask 0xff0000 val 0x110000 off 8 offmask -1
",
    ),
    // A segment routing header with two segments.
    (
        24,
        true,
        "0a800000fe030001000000000600150005000000340016003000010001000000000404010100000220010db8000000000000\
         00000000000120010db8000000000000000000000002
  rtmsg family 10 (AF_INET6) dst_len 128 src_len 0 tos 0 table 254 (main) protocol 3 \
        (boot) scope 0 (universe) type 1 (unicast) flags 0x0
  RTA_ENCAP_TYPE 5 (seg6)
  RTA_ENCAP
    SEG6_IPTUNNEL_SRH
      seg6_iptunnel_encap mode 1 (encap) nexthdr 0 hdrlen 4 type 4 segments_left 1 \
        first_segment 1 flags 0x0 tag 2
      segment addr 2001:db8::1
      segment addr 2001:db8::2
",
    ),
    // Options of queueing disciplines, filters and actions, by their kind.
    (
        36,
        true,
        "000000000300000000000100ffffffff0000000008000100687462001c00020018000200030000000a000000100000000000000000000000
  tcmsg family 0 (AF_UNSPEC) ifindex 3 handle 1:0 parent ffff:ffff (root) info 0
  TCA_KIND \"htb\"
  TCA_OPTIONS
    TCA_HTB_INIT version=3 rate2quantum=10 defcls=0x10 debug=0 direct_pkts=0
",
    ),
    (
        44,
        true,
        "000000000300000000000000000001000800010008000100753332003000020008000100100001002400050001000100000000000000000000000000\
        ffff00000a0400001000000000000000
  tcmsg family 0 (AF_UNSPEC) ifindex 3 handle 0x0 parent 1:0 protocol 2048 (ip) prio 1
  TCA_KIND \"u32\"
  TCA_OPTIONS
    TCA_U32_CLASSID handle=1:10
    TCA_U32_SEL
      tc_u32_sel flags 0x1 (TERMINAL) offshift 0 nkeys 1 offmask 0x0 off 0 offoff 0 hoff 0 hmask 0x0
      tc_u32_key mask 0xffff0000 val 0xa040000 off 16 offmask 0
",
    ),
    (
        36,
        true,
        "000000000200000000000200ffffffff00000000090001007072696f000000001c000200030000000102020201020000010101010101010104000200
  tcmsg family 0 (AF_UNSPEC) ifindex 2 handle 2:0 parent ffff:ffff (root) info 0
  TCA_KIND \"prio\"
  TCA_OPTIONS
    tc_prio_qopt bands 3 priomap0 1 priomap1 2 priomap2 2 priomap3 2 priomap4 1 priomap5 2 priomap6 0 priomap7 0 priomap8 1 \
        priomap9 1 priomap10 1 priomap11 1 priomap12 1 priomap13 1 priomap14 1 priomap15 1
    TCA_OPTIONS
",
    ),
    (
        36,
        true,
        "00000000020000000000000001000200000000000a000100706669666f0000000800020005000000
  tcmsg family 0 (AF_UNSPEC) ifindex 2 handle 0:0 parent 2:1 info 0
  TCA_KIND \"pfifo\"
  TCA_OPTIONS limit=5
",
    ),
    (
        36,
        true,
        "00000000020000000000000003000200000000000d00010066715f636f64656c000000000c0002000800020064000000
  tcmsg family 0 (AF_UNSPEC) ifindex 2 handle 0:0 parent 2:3 info 0
  TCA_KIND \"fq_codel\"
  TCA_OPTIONS
    TCA_FQ_CODEL_LIMIT 100
",
    ),
    (
        44,
        true,
        "000000000200000000000000f2ffffff000300000d0001006d61746368616c6c000000003c00020038000200340001000b0001006d69727265640000\
        240002802000020000000000000000000300000000000000000000000200000003000000
  tcmsg family 0 (AF_UNSPEC) ifindex 2 handle 0x0 parent ffff:fff2 protocol 3 (all) prio 0
  TCA_KIND \"matchall\"
  TCA_OPTIONS
    TCA_MATCHALL_ACT
      [1]
        TCA_ACT_KIND \"mirred\"
        TCA_ACT_OPTIONS nested
          TCA_MIRRED_PARMS
            tc_mirred action_index 0 capab 0 action 3 (pipe) refcnt 0 bindcnt 0 eaction 2 (egress_mirror) ifindex 3
",
    ),
    (
        44,
        true,
        "000000000200000000000000f3ffffff080000000b000100666c6f77657200003400020008000c000a00000108000d00ffffffff0500090006000000\
        060013000050000008001600000000000600080008000000
  tcmsg family 0 (AF_UNSPEC) ifindex 2 handle 0x0 parent ffff:fff3 protocol 2048 (ip) prio 0
  TCA_KIND \"flower\"
  TCA_OPTIONS
    TCA_FLOWER_KEY_IPV4_DST 10.0.0.1
    TCA_FLOWER_KEY_IPV4_DST_MASK 255.255.255.255
    TCA_FLOWER_KEY_IP_PROTO 6 (tcp)
    TCA_FLOWER_KEY_TCP_DST 80
    TCA_FLOWER_FLAGS 0x0
    TCA_FLOWER_KEY_ETH_TYPE 2048 (ip)
",
    ),
    (
        36,
        true,
        "00000000000000000000000000000000000000000800010073667100080002000a000000
  tcmsg family 0 (AF_UNSPEC) ifindex 0 handle 0:0 parent 0:0 info 0
  TCA_KIND \"sfq\"
  TCA_OPTIONS bytes 0a000000
",
    ),
    (
        36,
        true,
        "0000000000000000000000000000000000000000080002000a0000000a000100706669666f000000
  tcmsg family 0 (AF_UNSPEC) ifindex 0 handle 0:0 parent 0:0 info 0
  TCA_OPTIONS limit=10
  TCA_KIND \"pfifo\"
",
    ),
    (
        36,
        true,
        "000000000000000000000000000000000000000009000100706669666f000000080002000a000000
  tcmsg family 0 (AF_UNSPEC) ifindex 0 handle 0:0 parent 0:0 info 0
  TCA_KIND bytes 706669666f
  TCA_OPTIONS bytes 0a000000
",
    ),
    (
        36,
        true,
        "00000000000000000000000000000000000000000800010068746200090002000500020001000000
  tcmsg family 0 (AF_UNSPEC) ifindex 0 handle 0:0 parent 0:0 info 0
  TCA_KIND \"htb\"
  TCA_OPTIONS
    TCA_HTB_INIT bytes 01
      padding
",
    ),
    // Requests, by their fields.
    (26, true, "02000000\n  rtgenmsg family 2 (AF_INET)\n"),
    (22, true, "0a\n  rtgen family 10 (AF_INET6)\n"),
    (
        22,
        true,
        "02000000030000000100000000000000
  ifinfomsg family 2 (AF_INET) type 0 index 3 flags 0x1 (Up) change 0x0
",
    ),
    (
        22,
        true,
        "0218800002000000
  ifaddrmsg family 2 (AF_INET) prefixlen 24 flags 0x80 (PERMANENT) scope 0 (universe) index 2
",
    ),
    (
        86,
        true,
        "0000000000000000\n  br_port_msg family 0 (AF_UNSPEC) ifindex 0\n",
    ),
    (
        26,
        true,
        "02000001\n  rtgenmsg family 2 (AF_INET) padding 000001\n",
    ),
    // Bodies that are not shown.
    (28, false, "0200000003000000020000\n"),
    (26, true, "0200000100\n"),
    (24, false, "02000000\n"),
    (20, false, "0218800002000000040003\n"),
    (20, false, "02188000020000\n"),
    (77, false, "0000000000000000\n"),
    (68, false, "00000000\n"),
];

/// Longer bodies than any case has are cut, since `push_body` asks for a bound.
#[test]
fn bodies_are_shown(rt: HostRuntime) -> Result<(), Fail> {
    for (message_type, is_request, case) in &CASES {
        let (body, lines) = split(rt.alloc(), case, '\n')?;
        let body = &body[..body.len().min(100)];
        let mut out = Vec::new(rt.alloc());
        let is_shown = push_body(*message_type, *is_request, body, &mut out)?;
        assert!(rt;
            is_shown != lines.is_empty() && out.as_slice() == lines.as_bytes(),
            "{message_type}: {case}"
        );
    }
    Ok(())
}
