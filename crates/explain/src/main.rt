//! Prints the table of the script on its standard input, or its picture. `run_program` of `fi_explain` is the whole run: arguments, input,
//! output and status.
#![tactic(auto)]

use fi_explain::run_program;
use std::env;
use std::process::ExitCode;

fn main(rt: HostRuntime) -> ExitCode {
    let arguments = env::args(&rt);
    ExitCode::from(run_program(
        rt.alloc(),
        arguments,
        &mut rt.stdin(),
        &mut rt.stdout(),
        &mut rt.stderr(),
    ))
}
