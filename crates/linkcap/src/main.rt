// linkcap: writes the normal text of a netlink link capture from standard input to standard output,
// or reports whether two captures mean the same.
#![tactic(auto)]

use linkcap_program::outcome;
use std::process::ExitCode;

fn main(rt: HostRuntime) -> ExitCode {
    outcome(&rt)
}
