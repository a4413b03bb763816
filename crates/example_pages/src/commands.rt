//! cal_command in use: one ring, on which a scheduler sends and from which a kernel thread takes.

// begin
use cal_command::{Command, close_ring, open_ring};

pub fn show(rt: &HostRuntime) -> anyhow::Result<()> {
    let (mut sender, mut taker) = open_ring(rt.alloc())?;

    // The scheduler asks for room before it sends: send demands it, and cannot fail.
    if sender.room() {
        sender.send(Command::Run(0));
    }
    if sender.room() {
        sender.send(Command::Park);
    }

    // The kernel thread takes one command at a time. The numbers count from 1.
    if let Some((taken, command)) = taker.take() {
        println!(rt; "  command {taken}: {command:?}")?;
    }
    let end = close_ring(sender, taker);
    println!(rt; "  {} sent, {} taken", end.sent, end.taken)?;
    Ok(())
}
// end
