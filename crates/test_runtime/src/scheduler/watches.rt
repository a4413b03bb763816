//! A watch that is refused.

use crate::one_thread::record;
use crate::same::assert_same;
use cal_sched::Watch;
use cal_signal::{Look, open_page};
use std::test::Fail;

/// More rounds than memory can hold are refused, and the observer comes back.
#[test]
fn rounds_past_all_memory(rt: HostRuntime) -> Result<(), Fail> {
    let (mut publisher, observer) = open_page(rt.alloc())?;
    let rec = record([0, 0, 0, 0, 0, 0, 7, 0, 0]);
    assert!(rt; publisher.publish(rec).is_ok());
    let observers = vec![in rt.alloc(); observer]?;
    let Err(mut refused) = Watch::new(rt.alloc(), observers, u64::MAX) else {
        panic!(rt; "there was memory for 2^64 - 1 rounds")
    };
    let Some(observer) = refused.observers.get_mut(0) else {
        panic!(rt; "the observer did not come back")
    };
    assert_same(&rt, observer.observe(), Look::Whole { number: 1, rec });
    Ok(())
}
