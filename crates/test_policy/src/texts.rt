//! What faults and refusals say, each by its own text. Which of them comes where is in the clauses
//! and the examples; no program shows these texts.

use cal_guard::{Refused, Why};
use cal_machine::ConfigFault;
use cal_trace::{FaultKind, TraceFault, WriteFault};
use std::alloc::{AllocError, Global};
use std::fmt::Display;
use std::test::Fail;

/// Whether this is the text of it.
fn says<T: Display>(alloc: Global, it: &T, text: &str) -> Result<bool, AllocError> {
    let said = format!(in alloc; "{it}")?;
    Ok(said.as_str() == text)
}

#[test]
fn reasons_of_the_guard(rt: HostRuntime) -> Result<(), Fail> {
    let rows = [
        (Why::TooMany, "a pass has at most 338 actions"),
        (
            Why::DoesNotFit,
            "it does not fit the state of cores, threads and tasks",
        ),
        (Why::NotLeft, "its thread was not shown to have left it"),
        (Why::Banned, "the core is banned"),
        (Why::AtLimit, "the task books as many cores as its limit"),
        (Why::AtCap, "the task books as many cores as its cap"),
        (
            Why::AtGuarantee,
            "the task holds no more cores than it is guaranteed",
        ),
        (Why::NoRoom, "the thread's ring has no room"),
        (
            Why::SecondCommand,
            "the thread was sent a command in this pass",
        ),
        (Why::BannedHeld { core: 5 }, "core 5 is banned and held"),
        (
            Why::OverCap { task: 3 },
            "task 3 holds more cores than its cap",
        ),
    ];
    for (why, text) in rows {
        assert!(rt; says(rt.alloc(), &why, text)?, "{text}");
    }
    let refused = Refused {
        place: 7,
        why: Why::Banned,
    };
    assert!(rt; says(rt.alloc(), &refused, "action 7: the core is banned")?);
    Ok(())
}

#[test]
fn faults_of_tables(rt: HostRuntime) -> Result<(), Fail> {
    let rows = [
        (ConfigFault::NotToml, "the text is no TOML document"),
        (ConfigFault::UnknownKey, "a table has an unknown key"),
        (ConfigFault::MissingKey, "a table lacks a key"),
        (ConfigFault::WrongType, "a value is of the wrong type"),
        (ConfigFault::OutOfRange, "a value is out of range"),
        (
            ConfigFault::BestEffortGuarantee,
            "a best-effort task has guaranteed cores",
        ),
        (
            ConfigFault::GuaranteesExceedCores,
            "more cores are guaranteed than there are",
        ),
        (
            ConfigFault::TooManyThreads,
            "the tasks have too many kernel threads",
        ),
        (ConfigFault::Memory, "out of memory"),
    ];
    for (fault, text) in rows {
        assert!(rt; says(rt.alloc(), &fault, text)?, "{text}");
    }
    Ok(())
}

#[test]
fn faults_of_rows(rt: HostRuntime) -> Result<(), Fail> {
    let rows = [
        (FaultKind::Read, "row 4 cannot be read"),
        (FaultKind::Header, "row 4 is not the header"),
        (FaultKind::Fields, "row 4 has the wrong fields"),
        (FaultKind::Number, "row 4 has a field that is no number"),
        (FaultKind::Order, "row 4 cannot stand here"),
        (FaultKind::Range, "row 4 is out of range"),
        (FaultKind::Backwards, "row 4 goes back"),
        (FaultKind::Memory, "row 4 could not be kept, out of memory"),
        (FaultKind::Repeated, "row 4 repeats an identity"),
    ];
    for (kind, text) in rows {
        assert!(rt;
            says(rt.alloc(), &TraceFault { row: 4, kind }, text)?,
            "{text}"
        );
    }
    assert!(rt; says(rt.alloc(), &WriteFault::Write, "the writer failed")?);
    assert!(rt; says(rt.alloc(), &WriteFault::Memory, "out of memory")?);
    Ok(())
}
