// walk IMAGE KEY ID RECORDING: the program that a support engineer runs, target/bin/walk. It hands the system to
// `walk_run` of the crate walk, and ends with what that answers: 0 clean, 1 damage, 2 not done. With no arguments, as
// the gate runs it, it says its usage on standard error and ends with 2.
#![tactic(auto)]

use std::process::ExitCode;

fn main(rt: HostRuntime) -> ExitCode {
    ExitCode::from(walk::walk_run(&rt, &rt.stderr()))
}
