//! Looks at runs of the core scheduler of Caladan: words, and an input on standard input or in files
//! by name; the answer on standard output or in a file.
//!
//! What it does with them is cal_view's `run_program`, the exit statuses too; here stand only the
//! ends of the process.
#![tactic(auto)]

use cal_engine::{end_with, given_words};
use cal_view::run_program;
use std::process::ExitCode;

fn main(rt: HostRuntime) -> ExitCode {
    let status = match given_words(&rt, "caladan_view") {
        Ok(words) => run_program(
            &rt,
            rt.alloc(),
            words.as_slice(),
            rt.stdin(),
            &mut rt.stdout(),
            &mut rt.stderr(),
        ),
        Err(fault) => end_with("caladan_view", &fault, &mut rt.stderr()),
    };
    ExitCode::from(status)
}
