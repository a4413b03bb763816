//! A whole file of arrivals is read as it says, and written again.

use super::tables::two_threads;
use cal_machine::Request;
use cal_trace::{Arrival, GivenPass, WriteFault, read_arrivals, write_arrivals};
use std::test::Fail;

fn are_passes(passes: &[GivenPass]) -> bool {
    let [first, second] = passes else {
        return false;
    };
    (first.now, first.bandwidth) == (100, 0)
        && (second.now, second.bandwidth) == (90, 18446744073709551615)
}

/// Whether these are three requests, of which the second has the greatest numbers.
fn are_requests(requests: &[Arrival]) -> bool {
    let [first, second, third] = requests else {
        return false;
    };
    let Request { id, work, misses } = second.request;
    (first.thread, second.thread, third.thread) == (0, 0, 1)
        && (first.turn, second.turn, third.turn) == (0, 2, 0)
        && (id, work, misses) == (18446744073709551615, 1000000, 4294967295)
}

#[test]
fn whole_file_of_arrivals(rt: HostRuntime) -> Result<(), Fail> {
    let Some(config) = two_threads(rt.alloc())? else {
        return Ok(());
    };
    let arrivals = read_arrivals(rt.alloc(), &config, ARRIVALS)?;
    assert!(rt; are_passes(arrivals.passes.as_slice()));
    assert!(rt; matches!(arrivals.turns.as_slice(), [105, 105, 125]));
    assert!(rt; are_requests(arrivals.requests.as_slice()));
    Ok(())
}

/// With one allocation refused, the answer is out of memory by its name, or the ample one.
#[test]
fn arrivals_are_written_as_they_were_read(rt: HostRuntime) -> Result<(), Fail> {
    let Some(config) = two_threads(rt.alloc())? else {
        return Ok(());
    };
    let arrivals = read_arrivals(rt.alloc(), &config, ARRIVALS)?;
    let mut text = Vec::new(rt.alloc());
    match write_arrivals(&arrivals, &mut text) {
        Ok(()) => assert_eq!(rt; text.as_slice(), ARRIVALS),
        Err(fault) => assert_eq!(rt; fault, WriteFault::Memory),
    }
    Ok(())
}

const ARRIVALS: &[u8] = b"caladan-arrivals,1
pass,100,0
pass,90,18446744073709551615
turn,105
turn,105
turn,125
request,0,0,7,1,3
request,0,2,18446744073709551615,1000000,4294967295
request,1,0,0,9,0
end,8
";
