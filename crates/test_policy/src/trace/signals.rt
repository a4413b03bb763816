//! A file of signals is read as it says.

use super::tables::one_thread;
use cal_policy::{FoundLook, Look, Record};
use cal_trace::{SignalPass, read_signals};
use std::test::Fail;

/// The one look of a pass with this clock and this figure of bandwidth.
fn only_look(pass: &SignalPass, now: u64, bandwidth: u64) -> Option<FoundLook> {
    if pass.now != now || pass.bandwidth != bandwidth {
        return None;
    }
    match pass.looks.as_slice() {
        [found] => Some(*found),
        _ => None,
    }
}

fn is_busy(found: Option<FoundLook>) -> bool {
    let Some(FoundLook { look, room }) = found else {
        return false;
    };
    !room
        && matches!(
            look,
            Look::Busy {
                first: 6,
                second: 9
            }
        )
}

fn is_whole(found: Option<FoundLook>) -> bool {
    let words = [1, 128, 2, 3, 4, 72057594037927936, 5, 6, 7];
    let rec = Record::from_words(words);
    let look = Look::Whole { number: 3, rec };
    found == Some(FoundLook { look, room: true })
}

#[test]
fn two_passes_of_version_two(rt: HostRuntime) -> Result<(), Fail> {
    let config = one_thread(rt.alloc())?;
    let signals = read_signals(rt.alloc(), &config, SIGNALS)?;
    let [first, second] = signals.passes.as_slice() else {
        return Err(Fail::new("there are not two passes"));
    };
    assert!(rt; is_busy(only_look(first, 18446744073709551615, 7)));
    assert!(rt; is_whole(only_look(second, 1, 2)));
    Ok(())
}

const SIGNALS: &[u8] = b"caladan-signals,2\r
pass,18446744073709551615,7\r
busy,0,0,6,9\r
pass,1,2
whole,0,1,3,1,128,2,3,4,72057594037927936,5,6,7
end,2";
