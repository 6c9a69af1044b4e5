//! The program `sas`.
#![tactic(auto)]

use std::process::ExitCode;

fn main(rt: HostRuntime) -> ExitCode {
    sas_tool::start(&rt, &rt.stdin(), &rt.stdout(), &rt.stderr())
}
