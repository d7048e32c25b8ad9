//! What is shown of a capture with each option. The expected lines come from the independent
//! implementation, `tools/oracle`.

use link_lines::{
    Buffers, CaptureFault, DEFAULT_LIMIT, FaultKind, ShowFault, ShowOptions, ShownMessage,
    SliceSource, VecSink, push_selected_message, show, show_bytes,
};
use std::alloc::Global;
use std::test::Fail;

/// An NLMSG_NOOP, an RTM_NEWLINK whose IFLA_MTU has 3 bytes, and an NLMSG_NOOP.
const REFUSED: [u8; 72] = [
    16, 0, 0, 0, 1, 0, 0, 0, 1, 0, 0, 0, 0, 0, 0, 0, 40, 0, 0, 0, 16, 0, 0, 0, 5, 0, 0, 0, 0, 0, 0,
    0, 0, 0, 1, 0, 2, 0, 0, 0, 0, 0, 0, 0, 0, 0, 0, 0, 7, 0, 4, 0, 97, 98, 99, 0, 16, 0, 0, 0, 1,
    0, 0, 0, 2, 0, 0, 0, 0, 0, 0, 0,
];

/// An RTM_NEWLINK about the link `lo` with index 2, and an NLMSG_NOOP.
const LINK: [u8; 64] = [
    48, 0, 0, 0, 16, 0, 0, 0, 6, 0, 0, 0, 0, 0, 0, 0, 0, 0, 1, 0, 2, 0, 0, 0, 0, 0, 0, 0, 0, 0, 0,
    0, 7, 0, 3, 0, 108, 111, 0, 0, 8, 0, 4, 0, 220, 5, 0, 0, 16, 0, 0, 0, 1, 0, 0, 0, 3, 0, 0, 0,
    0, 0, 0, 0,
];

/// What all options show of `REFUSED`.
const REFUSED_LINES: &[u8] = b"NLMSG_NOOP flags 0x0 seq 1 port 0 offset 0
RTM_NEWLINK flags 0x0 seq 5 port 0 offset 16
  refused: IFLA_MTU: a payload of 3 bytes
  body 000001000200000000000000000000000700040061626300
NLMSG_NOOP flags 0x0 seq 2 port 0 offset 56
";

/// The same as JSON.
const REFUSED_JSON: &[u8] =
    b"{\"type\": \"NLMSG_NOOP\", \"flags\": {\"value\": 0, \"flags\": []}, \"seq\": 1, \"port\": 0, \"offset\": 0, \"attributes\": []}
{\"type\": \"RTM_NEWLINK\", \"flags\": {\"value\": 0, \"flags\": []}, \"seq\": 5, \"port\": 0, \
\"offset\": 16, \"refused\": \"IFLA_MTU: a payload of 3 bytes\", \
\"body\": \"000001000200000000000000000000000700040061626300\", \"attributes\": []}
{\"type\": \"NLMSG_NOOP\", \"flags\": {\"value\": 0, \"flags\": []}, \"seq\": 2, \"port\": 0, \"offset\": 56, \"attributes\": []}
";

/// The lines of the first message of `LINK`.
const LINK_LINES: &[u8] = b"RTM_NEWLINK flags 0x0 seq 6 port 0
  ifinfomsg family 0 (AF_UNSPEC) type 1 (ether) index 2 flags 0x0 change 0x0
  IFLA_IFNAME \"lo\"
  IFLA_MTU 1500
";

/// `LINK` as JSON.
const LINK_JSON: &[u8] =
    b"{\"type\": \"RTM_NEWLINK\", \"flags\": {\"value\": 0, \"flags\": []}, \"seq\": 6, \
\"port\": 0, \"header\": {\"struct\": \"ifinfomsg\", \"family\": {\"value\": 0, \
\"text\": \"AF_UNSPEC\"}, \"type\": {\"value\": 1, \"text\": \"ether\"}, \"index\": 2, \
\"flags\": {\"value\": 0, \"flags\": []}, \"change\": {\"value\": 0, \"flags\": []}}, \
\"attributes\": [{\"name\": \"IFLA_IFNAME\", \"value\": \"lo\", \"quoted\": true}, \
{\"name\": \"IFLA_MTU\", \"value\": 1500}]}
{\"type\": \"NLMSG_NOOP\", \"flags\": {\"value\": 0, \"flags\": []}, \"seq\": 3, \"port\": 0, \"attributes\": []}
";

/// What remains of `LINK` without IFLA_MTU and indexes.
const REMAINING_LINES: &[u8] = b"RTM_NEWLINK flags 0x0 seq 6 port 0
  ifinfomsg family 0 (AF_UNSPEC) type 1 (ether) flags 0x0 change 0x0
  IFLA_IFNAME \"lo\"
NLMSG_NOOP flags 0x0 seq 3 port 0
";

/// Returns whether this is the fault of `REFUSED`, with the reason.
fn is_first(found: &ShowFault) -> bool {
    let first = CaptureFault {
        kind: FaultKind::Refused,
        offset: 16,
    };
    found.fault == first && found.refusal.is_some()
}

/// Returns whether these lines of a capture are shown, and this result is returned: whether there is
/// a line, or None for the fault of `REFUSED`.
fn is_shown(
    alloc: Global,
    capture: &[u8],
    options: &ShowOptions<'_>,
    lines: &[u8],
    expected: Option<bool>,
) -> bool {
    let mut sink = VecSink::new(alloc);
    let mut source = SliceSource::new(capture);
    let is_expected = match show(alloc, &mut source, &mut sink, DEFAULT_LIMIT, options) {
        Ok(is_any) => expected == Some(is_any),
        Err(found) => expected.is_none() && is_first(&found),
    };
    is_expected && sink.bytes() == lines
}

/// Returns the options by which all messages are shown, with their offsets.
fn of_all() -> ShowOptions<'static> {
    ShowOptions {
        keep_going: true,
        offsets: true,
        ..ShowOptions::default()
    }
}

#[test]
fn all_messages_are_shown(rt: HostRuntime) -> Result<(), Fail> {
    let alloc = rt.alloc();
    assert!(rt; is_shown(alloc, &REFUSED, &of_all(), REFUSED_LINES, None));
    let mut options = of_all();
    options.json = true;
    assert!(rt; is_shown(alloc, &REFUSED, &options, REFUSED_JSON, None));
    let mut lines = Vec::new(alloc);
    let shown = show_bytes(alloc, &REFUSED, DEFAULT_LIMIT, &of_all(), &mut lines);
    assert!(rt; matches!(&shown, Err(found) if is_first(found)));
    assert!(rt; lines.as_slice() == REFUSED_LINES);
    Ok(())
}

#[test]
fn messages_about_a_link_are_shown(rt: HostRuntime) {
    let cases: [(&[u8], &[u8]); 3] = [(b"lo", LINK_LINES), (b"2", LINK_LINES), (b"3", b"")];
    for (link, lines) in cases {
        let mut options = ShowOptions::default();
        options.link = Some(link);
        let is_any = !lines.is_empty();
        assert!(rt;
            is_shown(rt.alloc(), &LINK, &options, lines, Some(is_any)),
            "{link:?}"
        );
    }
    let mut options = ShowOptions::default();
    options.json = true;
    assert!(rt; is_shown(rt.alloc(), &LINK, &options, LINK_JSON, Some(true)));
    options.json = false;
    assert!(rt; options.without.names.try_push(b"IFLA_MTU").is_ok());
    options.without.indexes = true;
    assert!(rt; is_shown(rt.alloc(), &LINK, &options, REMAINING_LINES, Some(true)));
}

#[test]
fn selected_messages_are_appended_one_by_one(rt: HostRuntime) -> Result<(), Fail> {
    let messages: [(&[u8], u64, bool); 3] = [
        (&REFUSED[..16], 0, false),
        (&REFUSED[16..56], 16, true),
        (&REFUSED[56..], 56, false),
    ];
    let options = of_all();
    let mut buffers = Buffers::new(rt.alloc());
    let mut lines = Vec::new(rt.alloc());
    for (message, offset, is_refused) in messages {
        let limit = DEFAULT_LIMIT;
        let shown = push_selected_message(
            message,
            offset,
            limit,
            &options,
            &mut buffers,
            &mut lines,
        )?;
        assert!(rt; matches!(shown, ShownMessage::Faulty(FaultKind::Refused, 40)) == is_refused);
    }
    assert!(rt; lines.as_slice() == REFUSED_LINES);
    Ok(())
}
