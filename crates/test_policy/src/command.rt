//! One ring from end to end, in one thread and in two.
ghost use Rattle.std.specs.Prelude.{◌≡◌};
ghost use Rattle.cal_command.specs.Commands.{IsSendable};

use crate::same::assert_same;
use cal_command::{Command, Sender, Taker, close_ring, open_ring};
use std::alloc::{AllocError, Global};
use std::sync::Wait;
use std::test::Fail;
use std::thread;

#[test]
fn ring_of_four(rt: HostRuntime) -> Result<(), Fail> {
    let (mut sender, mut taker) = open_ring(rt.alloc())?;
    assert!(rt; sender.room());
    sender.send(Command::Run(0));
    assert!(rt; sender.room());
    sender.send(Command::Park);
    assert!(rt; sender.room());
    sender.send(Command::Run(1));
    assert!(rt; sender.room());
    sender.send(Command::Park);
    assert!(rt; !sender.room());
    assert_same(&rt, taker.take(), Some((1, Command::Run(0))));
    assert!(rt; sender.room());
    let end = close_ring(sender, taker);
    assert_same(&rt, (end.sent, end.taken), (4, 1));
    Ok(())
}

/// The n-th command of a long run, from 1.
fn command_at(n: u64) -> Command
    ensures { IsSendable result }
{
    if n % 3 == 0 {
        Command::Park
    } else {
        Command::Run((n % 128) as u8)
    }
}

/// Sends the first `count` commands, each as soon as there is room.
fn send_all(rt: &impl Wait, sender: Sender, count: u64) -> Sender
    ensures { result.ring ≡ sender.ring }
{
    let mut sender = sender;
    let mut next = 0;
    for _ in rt.forever() {
        if next >= count {
            break;
        }
        if sender.room() {
            next += 1;
            sender.send(command_at(next));
        } else {
            thread::yield_now();
        }
    }
    sender
}

/// Takes that many commands into the list, with their numbers.
fn take_all(
    rt: &impl Wait,
    taker: Taker,
    into: Vec<(u64, Command)>,
    count: usize,
) -> (Taker, Result<Vec<(u64, Command)>, AllocError>)
    ensures { result.0.ring ≡ taker.ring }
{
    let mut taker = taker;
    let mut into = into;
    for _ in rt.forever() {
        if into.len() >= count {
            break;
        }
        match taker.take() {
            Some(taken) => {
                if into.push(taken).is_err() {
                    return (taker, Err(AllocError));
                }
            }
            None => thread::yield_now(),
        }
    }
    (taker, Ok(into))
}

/// Whether these are that many commands, from the first one on, with their numbers.
fn are_first(taken: &[(u64, Command)], count: usize) -> bool {
    let mut n = 0u64;
    for &(number, command) in taken {
        n = n.wrapping_add(1);
        if number != n || command != command_at(n) {
            return false;
        }
    }
    taken.len() == count
}

/// The sender sends 10,002 commands and the taker takes 10,000 while it does: the last two stay on
/// the ring.
#[test]
fn two_threads(rt: HostRuntime) -> Result<(), Fail> {
    let (sender, taker) = open_ring(rt.alloc())?;
    let into = Vec::new(rt.alloc());
    let host = &rt;
    let (sender, (taker, taken)) = thread::join(
        host,
        move || -> Sender
            ensures { result.ring ≡ sender.ring }
        { send_all(host, sender, 10_002) },
        move || -> (Taker, Result<Vec<(u64, Command)>, AllocError>)
            ensures { result.0.ring ≡ taker.ring }
        { take_all(host, taker, into, 10_000) },
    );
    assert!(rt; are_first(&taken?, 10_000));
    let end = close_ring(sender, taker);
    assert!(rt; end.sent == 10_002 && end.taken == 10_000);
    Ok(())
}
