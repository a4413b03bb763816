//! What the gate's scripts and the benchmarks run of the runtime. Its words are jobs, which it does
//! in their order: `journals` writes the journals of a run, `false_pages` makes runs over the pages
//! of broken threads, and `pass_times`, with words of its own behind it, times passes.
#![tactic(auto)]

mod false_pages;
mod journals;
mod pass_times;

use anyhow::bail;
use std::env;
use std::io::Write;
use std::process::ExitCode;

fn main(rt: HostRuntime) -> ExitCode {
    match do_each(&rt) {
        Ok(status) => ExitCode::from(status),
        Err(fault) => {
            let _ = writeln!(&mut rt.stderr(), "check_runs: {fault}");
            ExitCode::from(2)
        }
    }
}

/// Does the jobs that the words name, up to one that fails. The exit status.
fn do_each(rt: &HostRuntime) -> anyhow::Result<u8> {
    for word in env::args(rt)?.skip(1) {
        match word.as_str() {
            "journals" => match journals::tell(rt) {
                0 => (),
                status => return Ok(status),
            },
            "false_pages" => false_pages::tell(rt)?,
            "pass_times" => {
                pass_times::tell(rt)?;
                return Ok(0);
            }
            _ => bail!("its words are `journals`, `false_pages` and `pass_times`"),
        }
    }
    Ok(0)
}
