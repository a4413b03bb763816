//! cal_signal in use: one page, on which a kernel thread publishes and at which a scheduler looks.

// begin
use cal_signal::{Look, Record, close_page, open_page};

pub fn show(rt: &HostRuntime) -> anyhow::Result<()> {
    let (mut publisher, mut observer) = open_page(rt.alloc())?;

    // The kernel thread, at any moment: a request waits since clock 100.
    let waiting = Record {
        queued: 1,
        oldest: 100,
        stamp: 100,
        ..Record::ZERO
    };
    let place = publisher.publish(waiting)?;
    println!(rt; "  published at place {place}")?;

    // A record whose clock goes back is refused, and nothing has changed.
    if let Err(fault) = publisher.publish(Record {
        stamp: 99,
        ..waiting
    }) {
        println!(rt; "  refused: {fault:?}")?;
    }

    // The scheduler, at any moment.
    match observer.observe() {
        Look::Whole { number, rec } => {
            println!(rt;
                "  record {number}: {} queued since {}",
                rec.queued, rec.oldest
            )?;
        }
        Look::Busy { .. } => println!(rt; "  the look overlapped a publication")?,
    }
    let end = close_page(publisher, observer);
    println!(rt; "  {} published", end.published)?;
    Ok(())
}
// end
