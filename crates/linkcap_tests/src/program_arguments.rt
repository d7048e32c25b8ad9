//! The arguments and the exit statuses of the program.

use link_capture::{
    CaptureFault, Command, FaultKind, SideFault, read_words, status_norm, status_same,
};
use std::alloc::Global;
use std::test::Fail;

/// Arguments after the program's name, and the command that they ask for; None for a usage error.
const ARGUMENTS: [(&str, Option<Command<'static>>); 21] = [
    ("norm", Some(Command::Norm { limit: 1048576 })),
    ("norm 16", Some(Command::Norm { limit: 16 })),
    ("norm 0016", Some(Command::Norm { limit: 16 })),
    ("norm 4294967295", Some(Command::Norm { limit: 4294967295 })),
    ("norm 15", None),
    ("norm 4294967296", None),
    ("norm ''", None),
    ("norm +16", None),
    ("norm -16", None),
    ("norm 1e3", None),
    ("norm 16 16", None),
    ("16 norm", None),
    ("NORM", None),
    (
        "same a b",
        Some(Command::Same {
            first: "a",
            second: "b",
            limit: 1048576,
        }),
    ),
    (
        "same same 16 17",
        Some(Command::Same {
            first: "same",
            second: "16",
            limit: 17,
        }),
    ),
    ("same a b 15", None),
    ("same a b 16 16", None),
    ("same a", None),
    ("norm a b", None),
    ("same", None),
    ("", None),
];

/// Returns the arguments in a line, in which `''` is an empty one.
pub(crate) fn words_of(alloc: Global, line: &str) -> Result<Vec<String>, Fail> {
    let mut words = Vec::new(alloc);
    for word in line.split_whitespace() {
        let word = if word == "''" { "" } else { word };
        words.push(String::from_str(alloc, word)?)?;
    }
    Ok(words)
}

#[test]
fn arguments_ask_for_commands(rt: HostRuntime) -> Result<(), Fail> {
    for (line, expected) in &ARGUMENTS {
        let words = words_of(rt.alloc(), line)?;
        assert!(rt; read_words(words.as_slice()) == *expected, "{line}");
    }
    Ok(())
}

#[test]
fn a_run_without_a_fault_has_status_0(rt: HostRuntime) {
    let fault = CaptureFault {
        kind: FaultKind::Cut,
        offset: 0,
    };
    assert!(rt; status_norm(&Ok(())) == 0);
    assert!(rt; status_norm(&Err(fault)) == 2);
    let second = false;
    assert!(rt; status_same(&Ok(true)) == 0);
    assert!(rt; status_same(&Ok(false)) == 1);
    assert!(rt; status_same(&Err(SideFault { second, fault })) == 2);
}
