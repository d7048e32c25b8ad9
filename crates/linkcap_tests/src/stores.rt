//! Values that the calls of `examples` return. The expected ones come from outside this project's
//! code.

use bitflags::Flags;
use examples::{Finding, Interfaces, NotStored, Store, compare_with_golden, learn_all};
use link_capture::{CaptureFault, FaultKind};
use std::collections::BTreeMap;
use std::test::Fail;

/// A request for the link `lo`, which is already canonical.
const ASKED: [u8; 40] = [
    40, 0, 0, 0, 18, 0, 1, 0, 7, 0, 0, 0, 0, 0, 0, 0, 0, 0, 0, 0, 0, 0, 0, 0, 0, 0, 0, 0, 0, 0, 0,
    0, 7, 0, 3, 0, 108, 111, 0, 0,
];

/// The same request: its second header byte isn't zero, its name has a flag bit and no NUL, and its
/// padding is missing.
const ALIKE: [u8; 38] = [
    38, 0, 0, 0, 18, 0, 1, 0, 7, 0, 0, 0, 0, 0, 0, 0, 0, 255, 0, 0, 0, 0, 0, 0, 0, 0, 0, 0, 0, 0,
    0, 0, 6, 0, 3, 128, 108, 111,
];

/// A request for the link `l1`.
const OTHER: [u8; 40] = [
    40, 0, 0, 0, 18, 0, 1, 0, 7, 0, 0, 0, 0, 0, 0, 0, 0, 0, 0, 0, 0, 0, 0, 0, 0, 0, 0, 0, 0, 0, 0,
    0, 7, 0, 3, 0, 108, 49, 0, 0,
];

/// The request for `lo`, and then a cut one.
const CUT: [u8; 70] = [
    40, 0, 0, 0, 18, 0, 1, 0, 7, 0, 0, 0, 0, 0, 0, 0, 0, 0, 0, 0, 0, 0, 0, 0, 0, 0, 0, 0, 0, 0, 0,
    0, 7, 0, 3, 0, 108, 111, 0, 0, 40, 0, 0, 0, 18, 0, 1, 0, 7, 0, 0, 0, 0, 0, 0, 0, 0, 0, 0, 0, 0,
    0, 0, 0, 0, 0, 0, 0, 0, 0,
];

/// The fault of that capture.
const CUT_FAULT: CaptureFault = CaptureFault {
    kind: FaultKind::Cut,
    offset: 40,
};

#[test]
fn captures_that_mean_the_same_share_a_value(rt: HostRuntime) -> Result<(), Fail> {
    let alloc = rt.alloc();
    let mut store = Store::new(alloc, 1000);
    let learned = [
        store.get(alloc, &ASKED) == Ok(None),
        store.insert(alloc, &ASKED, 1u32) == Ok(None),
        store.get(alloc, &ALIKE) == Ok(Some(&1)),
        store.insert(alloc, &ALIKE, 2) == Ok(Some(1)),
        store.get(alloc, &ASKED) == Ok(Some(&2)),
        store.get(alloc, &OTHER) == Ok(None),
        store.insert(alloc, &OTHER, 3) == Ok(None),
        store.get(alloc, &ALIKE) == Ok(Some(&2)),
        store.get(alloc, &OTHER) == Ok(Some(&3)),
    ];
    assert_eq!(rt; learned, [true; 9]);
    Ok(())
}

#[test]
fn captures_with_a_fault_are_not_stored(rt: HostRuntime) -> Result<(), Fail> {
    let alloc = rt.alloc();
    let mut store = Store::new(alloc, 1000);
    let refused = NotStored {
        fault: CUT_FAULT,
        value: 2,
    };
    let learned = [
        store.insert(alloc, &ASKED, 1u32) == Ok(None),
        store.insert(alloc, &CUT, 2) == Err(refused),
        store.get(alloc, &CUT) == Err(CUT_FAULT),
        store.get(alloc, &ASKED) == Ok(Some(&1)),
    ];
    assert_eq!(rt; learned, [true; 4]);
    // A limit under 16 leaves only the empty capture.
    let mut store = Store::new(alloc, 15);
    let fault = CaptureFault {
        kind: FaultKind::OverLimit,
        offset: 0,
    };
    let learned = [
        store.insert(alloc, &[], 1u32) == Ok(None),
        store.get(alloc, &[]) == Ok(Some(&1)),
        store.get(alloc, &ASKED) == Err(fault),
    ];
    assert_eq!(rt; learned, [true; 3]);
    Ok(())
}

#[test]
fn captures_are_compared_with_a_golden_file(rt: HostRuntime) -> Result<(), Fail> {
    let found = [
        compare_with_golden(&ASKED, &ALIKE, 1000) == Finding::Golden,
        compare_with_golden(&ASKED, &OTHER, 1000) == Finding::Changed,
        compare_with_golden(&ASKED, &CUT, 1000) == Finding::Fault(CUT_FAULT),
        compare_with_golden(&CUT, &ASKED, 1000) == Finding::GoldenFault(CUT_FAULT),
    ];
    assert_eq!(rt; found, [true; 4]);
    Ok(())
}

/// The link 1, `lo`, exists and is up and running; 2, `eth0`, exists, and is deleted later; 3,
/// `dummy`, exists; and the last message is cut.
const LINKS: [u8; 200] = [
    0x28, 0, 0, 0, 0x10, 0, 0, 0, 0, 0, 0, 0, 0, 0, 0, 0, 0, 0, 1, 0, 1, 0, 0, 0, 0x49, 0, 0, 0, 0,
    0, 0, 0, 7, 0, 3, 0, 0x6c, 0x6f, 0, 0, 0x34, 0, 0, 0, 0x10, 0, 0, 0, 0, 0, 0, 0, 0, 0, 0, 0, 0,
    0, 1, 0, 2, 0, 0, 0, 3, 0x10, 0, 0, 0, 0, 0, 0, 8, 0, 4, 0, 0xdc, 5, 0, 0, 9, 0, 3, 0, 0x65,
    0x74, 0x68, 0x30, 0, 0, 0, 0, 0x2c, 0, 0, 0, 0x11, 0, 0, 0, 0, 0, 0, 0, 0, 0, 0, 0, 0, 0, 1, 0,
    2, 0, 0, 0, 2, 0x10, 0, 0, 0, 0, 0, 0, 9, 0, 3, 0, 0x65, 0x74, 0x68, 0x30, 0, 0, 0, 0, 0x2c, 0,
    0, 0, 0x10, 0, 0, 0, 0, 0, 0, 0, 0, 0, 0, 0, 0, 0, 1, 0, 3, 0, 0, 0, 0, 0, 0, 0, 0, 0, 0, 0,
    0x0a, 0, 3, 0, 0x64, 0x75, 0x6d, 0x6d, 0x79, 0, 0, 0, 0x20, 0, 0, 0, 0x10, 0, 0, 0, 3, 0, 0, 0,
    0, 0, 0, 0, 0, 0, 0, 0,
];

fn holds(interfaces: &Interfaces, index: u32, name: &str, flags: u32) -> bool {
    match interfaces.get(&index) {
        Some(interface) => interface.name.as_str() == name && interface.flags.bits() == flags,
        None => false,
    }
}

#[test]
fn interfaces_are_kept(rt: HostRuntime) -> Result<(), Fail> {
    let alloc = rt.alloc();
    let mut interfaces = BTreeMap::new(alloc);
    let fault = CaptureFault {
        kind: FaultKind::Cut,
        offset: 180,
    };
    let learned = [
        learn_all(alloc, &LINKS, 1000, &mut interfaces) == Err(fault),
        interfaces.len() == 2,
        holds(&interfaces, 1, "lo", 0x49),
        holds(&interfaces, 3, "dummy", 0),
        learn_all(alloc, &LINKS[40..92], 1000, &mut interfaces) == Ok(()),
        interfaces.len() == 3,
        holds(&interfaces, 2, "eth0", 0x1003),
    ];
    assert_eq!(rt; learned, [true; 7]);
    Ok(())
}
