// linkshow: the lines of a netlink link capture, from standard input to standard output.
#![tactic(auto)]

use linkshow_program::outcome;
use std::process::ExitCode;

fn main(rt: HostRuntime) -> ExitCode {
    outcome(&rt)
}
