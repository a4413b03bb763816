//! Looks that are judged one by one, and an input that is made of them.

use crate::same::assert_same;
use cal_machine::Config;
use cal_policy::{Book, FoundLook, Input, Look, Record, Seen, judge, orderly};
use std::alloc::{AllocError, Global};
use std::process::Abort;
use std::test::Fail;

/// The input of these looks at clock 60 and bandwidth figure 7.
fn made(
    alloc: Global,
    config: &Config,
    book: &Book,
    looks: &[FoundLook],
) -> Result<Option<Input>, AllocError> {
    if looks.len() != config.threads() {
        return Ok(None);
    }
    Ok(Some(book.input(alloc, config, 60, 7, looks)?))
}

/// What was made is what was meant.
fn assert_made<R: Abort>(rt: &R, input: &Option<Input>, seen: &[Seen], rooms: &[bool]) {
    assert!(rt; input.is_some());
    if let Some(input) = input {
        assert!(rt; input.now == 60 && input.bandwidth == 7);
        assert_eq!(rt; input.seen.as_slice(), seen);
        assert_eq!(rt; input.rooms.as_slice(), rooms);
    }
}

/// The look that finds this record at this place.
fn whole(number: u64, rec: Record) -> Look {
    Look::Whole { number, rec }
}

/// What is found of a thread.
fn found(look: Look, room: bool) -> FoundLook {
    FoundLook { look, room }
}

/// What a look at thread `k` comes to after no pass, as the history and as a book judge it.
fn judged(config: &Config, book: &Book, k: usize, look: Look) -> Option<[Seen; 2]> {
    if k >= config.threads() || !orderly(config, &[]) {
        return None;
    }
    Some([judge(config, &[], k, look), book.judge(config, k, look)])
}

/// Before the first pass no command was sent, and no thread has a core: a record that acknowledges
/// a command is ahead, and one that shows a core is foreign.
#[test]
fn looks_before_the_first_pass(rt: HostRuntime) -> Result<(), Fail> {
    let config = Config::read(rt.alloc(), TABLE.as_bytes())?;
    let book = Book::open(rt.alloc(), &config)?;
    let looks = [whole(1, IDLE), whole(1, TAKEN), whole(1, SHOWN), BUSY];
    for k in 0..4usize {
        let seen = judged(&config, &book, k, looks[k]);
        assert_same(&rt, seen, Some([FIRST[k], FIRST[k]]));
    }
    Ok(())
}

/// The same looks in an input, and the same in another order.
#[test]
fn input_of_looks_before_the_first_pass(rt: HostRuntime) -> Result<(), Fail> {
    let alloc = rt.alloc();
    let config = Config::read(alloc, TABLE.as_bytes())?;
    let book = Book::open(alloc, &config)?;
    let looks = [
        found(whole(1, IDLE), true),
        found(whole(1, TAKEN), true),
        found(whole(1, SHOWN), false),
        found(BUSY, true),
    ];
    let first = made(alloc, &config, &book, &looks)?;
    assert_made(&rt, &first, &FIRST, &[true, true, false, true]);
    let looks = [
        found(BUSY, false),
        found(whole(3, SHOWN), true),
        found(whole(2, TAKEN), true),
        found(whole(1, IDLE), true),
    ];
    let second = made(alloc, &config, &book, &looks)?;
    assert_made(&rt, &second, &SECOND, &[false, true, true, true]);
    Ok(())
}

/// Two cores, and a task of each kind with two threads.
const TABLE: &str = "\
cores = 2
bandwidth_limit = 1000
task = [
{ kind = \"lc\", guaranteed = 1, limit = 2, delay = 10, request = 50 },
{ kind = \"be\", guaranteed = 0, limit = 2, delay = 0, request = 0 },
]
";

/// What is found of a page at which the first publication is under way.
const BUSY: Look = Look::Busy {
    first: 1,
    second: 1,
};

/// A record without requests, of a thread off every core.
const IDLE: Record = Record::ZERO;

/// One that acknowledges a command.
const TAKEN: Record = Record { taken: 1, ..IDLE };

/// One that shows core 1.
const SHOWN: Record = Record { running: 2, ..IDLE };

/// What the looks of the first input come to.
const FIRST: [Seen; 4] = [
    Seen::Whole {
        number: 1,
        rec: IDLE,
    },
    Seen::Ahead {
        number: 1,
        rec: TAKEN,
    },
    Seen::Foreign {
        number: 1,
        rec: SHOWN,
    },
    Seen::Busy {
        first: 1,
        second: 1,
    },
];

/// What those of the second come to.
const SECOND: [Seen; 4] = [
    Seen::Busy {
        first: 1,
        second: 1,
    },
    Seen::Foreign {
        number: 3,
        rec: SHOWN,
    },
    Seen::Ahead {
        number: 2,
        rec: TAKEN,
    },
    Seen::Whole {
        number: 1,
        rec: IDLE,
    },
];
