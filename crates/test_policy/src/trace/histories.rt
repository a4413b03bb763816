//! A history with every kind of row is read, and written as it was.

use super::tables::{EVERY_ROW, history_of};
use cal_trace::{WriteFault, write_history};
use std::test::Fail;

/// With one allocation refused, wherever that is, the answer is out of memory by its name, or the
/// ample one. (tools/refusals runs it so.)
#[test]
fn every_row_is_read_and_written(rt: HostRuntime) -> Result<(), Fail> {
    let Some((_, history)) = history_of(rt.alloc(), EVERY_ROW)? else {
        return Ok(());
    };
    let mut text = Vec::new(rt.alloc());
    match write_history(history.as_slice(), &mut text) {
        Ok(()) => assert!(rt; text.as_slice() == EVERY_ROW),
        Err(fault) => assert!(rt; matches!(fault, WriteFault::Memory)),
    }
    Ok(())
}
