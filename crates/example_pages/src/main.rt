//! Each crate in use that a runtime calls, a file for each: what its page shows is from here, and is
//! proved and run. That of cal_sched is a small runtime as a whole. Beside it, example_guest is
//! another policy.
#![tactic(auto)]

mod commands;
mod decisions;
mod guarded;
mod kernel_threads;
mod runtime;
mod signals;

fn main(rt: HostRuntime) -> anyhow::Result<()> {
    println!(rt; "cal_signal")?;
    signals::show(&rt)?;
    println!(rt; "cal_command")?;
    commands::show(&rt)?;
    println!(rt; "cal_policy")?;
    decisions::show(&rt)?;
    println!(rt; "cal_guard")?;
    guarded::show(&rt)?;
    println!(rt; "cal_kthread")?;
    kernel_threads::show(&rt)?;
    println!(rt; "cal_sched")?;
    runtime::show(&rt)
}
