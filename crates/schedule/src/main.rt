//! Answers the script of calls on its standard input, line by line. `run_program` of `fi_scripts` is the whole run: arguments, input,
//! output and status.
#![tactic(auto)]

use fi_scripts::run_program;
use std::env;
use std::process::ExitCode;

fn main(rt: HostRuntime) -> ExitCode {
    let arguments = env::args(&rt);
    ExitCode::from(run_program(
        rt.alloc(),
        arguments,
        &mut rt.stdin(),
        &mut rt.stdout(),
        &mut rt.stderr(),
    ))
}
