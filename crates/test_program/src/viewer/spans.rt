//! The spans of a history that was worked by hand.

use crate::viewer::worked_histories::{DISORDERLY, HISTORY, TABLE};
use cal_facts::SpanFacts;
use cal_machine::Config;
use cal_measure::{Left, Span};
use cal_policy::Cause;
use cal_trace::read_history;
use std::alloc::Global;
use std::test::Fail;

/// The spans of this history.
fn spans(alloc: Global, history: &str) -> Result<Vec<Span>, Fail> {
    let config = Config::read(alloc, TABLE.as_bytes())?;
    let history = read_history(alloc, &config, history.as_bytes())?;
    let SpanFacts { spans, .. } = SpanFacts::of_history(alloc, &config, history.as_slice())?;
    Ok(spans)
}

/// The span of a thread on a core from the pass that granted it, by this class; it was not revoked,
/// and goes on.
fn granted(core: u8, thread: u8, class: u8, from: usize) -> Span {
    Span {
        core,
        thread,
        class,
        from,
        left: None,
        to: None,
    }
}

/// The same up to another pass.
fn ended(span: Span, to: usize) -> Span {
    Span {
        to: Some(to),
        ..span
    }
}

#[test]
fn spans_of_a_worked_history(rt: HostRuntime) -> Result<(), Fail> {
    let left = Left {
        pass: 1,
        cause: Cause::Preempt { task: 0 },
    };
    let preempted = Span {
        left: Some(left),
        ..ended(granted(0, 1, 3, 0), 2)
    };
    let wanted = [preempted, granted(0, 0, 1, 2), granted(1, 2, 2, 2)];
    assert_eq!(rt; spans(rt.alloc(), HISTORY)?.as_slice(), wanted.as_slice());
    Ok(())
}

#[test]
fn what_does_not_fit_counts_for_nothing(rt: HostRuntime) -> Result<(), Fail> {
    let wanted = [ended(granted(0, 1, 3, 0), 1), ended(granted(0, 2, 2, 1), 1)];
    assert_eq!(rt;
        spans(rt.alloc(), DISORDERLY)?.as_slice(),
        wanted.as_slice()
    );
    Ok(())
}
