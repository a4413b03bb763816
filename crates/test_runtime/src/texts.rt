//! What faults of the runtime say, each by its own text. Those of a turn are in
//! kernel_threads/faults.rt. No program shows them.

use cal_paced::PaceFault;
use cal_run::SimFault;
use cal_sched::PassFault;
use cal_world::Illegal;
use std::alloc::{AllocError, Global};
use std::fmt::Display;
use std::test::Fail;

/// Whether this is the text of it.
fn says<T: Display>(alloc: Global, it: &T, text: &str) -> Result<bool, AllocError> {
    let said = format!(in alloc; "{it}")?;
    Ok(said.as_str() == text)
}

#[test]
fn refused_events(rt: HostRuntime) -> Result<(), Fail> {
    let rows = [
        (Illegal::NoThread, "there is no such thread"),
        (Illegal::NothingSent, "every command that was sent is taken"),
        (Illegal::NotOn, "the thread is on no core"),
        (
            Illegal::NotItsState,
            "the record is not of the thread's state",
        ),
        (Illegal::NoSuchPlace, "there is no such place to read"),
        (Illegal::OutOfTurn, "it is out of turn"),
        (Illegal::NotThePass, "it is not the pass"),
        (Illegal::Memory, "out of memory"),
    ];
    for (why, text) in rows {
        assert!(rt; says(rt.alloc(), &why, text)?, "{text}");
    }
    Ok(())
}

#[test]
fn faults_of_passes_and_runs(rt: HostRuntime) -> Result<(), Fail> {
    assert!(rt; says(rt.alloc(), &PassFault::Memory, "out of memory")?);
    assert!(rt; says(rt.alloc(), &PassFault::HistoryFull, "the history is full")?);
    assert!(rt; says(rt.alloc(), &SimFault::Memory, "out of memory")?);
    assert!(rt;
        says(
            rt.alloc(),
            &SimFault::Spawn,
            "a thread could not be started"
        )?
    );
    assert!(rt; says(rt.alloc(), &SimFault::Gate, "the gate ended a worker")?);
    Ok(())
}

#[test]
fn faults_of_plans(rt: HostRuntime) -> Result<(), Fail> {
    let rows = [
        (PaceFault::Memory, "out of memory"),
        (PaceFault::Rows, "there are not as many passes as turns"),
        (PaceFault::Passes, "there are more than 1,048,576 passes"),
        (
            PaceFault::NoPlan,
            "a turn has at least one pass, and does at most all of its work",
        ),
        (
            PaceFault::NoMisses,
            "no request has misses that could be shown",
        ),
    ];
    for (fault, text) in rows {
        assert!(rt; says(rt.alloc(), &fault, text)?, "{text}");
    }
    Ok(())
}
