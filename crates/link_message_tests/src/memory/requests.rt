//! Reports the results of calls, and of an allocation after each.

use std::alloc::Global;
use std::io;

/// Allocates one byte, and prints the result. `tools/refused/run.py` refuses one allocation of a
/// run: if it is this one, all allocations of the call before were granted.
pub(crate) fn report_last_request(rt: &impl Print, alloc: Global) -> io::Result<()> {
    match Vec::from_elem(alloc, 0u8, 1) {
        Ok(_) => println!(rt; "last request: granted"),
        Err(_) => println!(rt; "last request: refused"),
    }
}

/// Prints the result of a call, followed by that of the last allocation.
pub(crate) fn report(rt: &impl Print, alloc: Global, call: &str, outcome: &str) -> io::Result<()> {
    println!(rt; "{call}: {outcome}")?;
    report_last_request(rt, alloc)
}
