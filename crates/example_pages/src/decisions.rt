//! cal_policy in use: passes that a book decides on looks that come some other way than from pages,
//! and an audit of the same passes.

// begin
ghost use Rattle.std.specs.Prelude.{◌≡◌, length, OnOk};
ghost use Rattle.cal_machine.specs.TableTasks.{threads_of_table};
ghost use Rattle.cal_policy.specs.Auditor.{IsAuditorOf};
ghost use Rattle.cal_policy.specs.Book.{board_in};
ghost use Rattle.cal_policy.specs.State.{IsReady};

use cal_machine::Config;
use cal_policy::{Actions, Auditor, Book, FoundLook, Look, PassEntry, Record};

/// Two cores and a task of one kernel thread.
const TABLE: &[u8] = b"cores = 2\nbandwidth_limit = 1000
[[task]]\nkind = \"lc\"\nguaranteed = 1\nlimit = 1\ndelay = 10\nrequest = 50\n";

/// Decides a pass on what was found of each thread, and prints each action, and the command that it
/// sends. None where the looks do not fit those before: then the book is unchanged.
fn pass(
    rt: &HostRuntime,
    config: &Config,
    book: &mut Book,
    now: u64,
    found: &[FoundLook],
) -> anyhow::Result<Option<PassEntry>>
    requires of { IsReady config.now (board_in book.old) }
    requires each { length found.now ≡ threads_of_table config.now }
    ensures of { OnOk result (IsReady config.now (board_in book.new)) }
{
    let mut actions = Actions::reserved(rt.alloc())?;
    let input = book.input(rt.alloc(), config, now, 0, found)?;
    if !book.fits(config, &input) {
        return Ok(None);
    }
    book.step(config, &input, &mut actions);
    for action in actions.as_slice() {
        println!(rt; "  at {now} {action:?}")?;
        if let Some((thread, command)) = book.command_of(*action) {
            println!(rt; "  at {now} send {command:?} to thread {thread}")?;
        }
    }
    Ok(Some(PassEntry {
        input,
        actions: actions.list(),
    }))
}

/// Decides a pass at this clock, on the record that the thread shows at this place; and audits it.
fn pass_on(
    rt: &HostRuntime,
    config: &Config,
    book: &mut Book,
    auditor: &mut Auditor,
    shown: (u64, u64, Record),
) -> anyhow::Result<()>
    requires book { IsReady config.now (board_in book.old) }
    requires auditor { IsAuditorOf config.now auditor.old }
    ensures book { OnOk result (IsReady config.now (board_in book.new)) }
    ensures auditor { OnOk result (IsAuditorOf config.now auditor.new) }
{
    let (now, number, rec) = shown;
    let found = [FoundLook {
        look: Look::Whole { number, rec },
        room: true,
    }];
    if found.len() != config.threads() {
        return Ok(());
    }
    if let Some(entry) = pass(rt, config, book, now, &found)? {
        auditor.next(config, &entry);
    }
    Ok(())
}

/// Three passes, and what the audit says of them.
fn passes(rt: &HostRuntime, config: &Config) -> anyhow::Result<()> {
    let mut book = Book::open(rt.alloc(), config)?;
    let mut auditor = Auditor::open(rt.alloc(), config)?;
    // A request waits since clock 100; then its thread took the command and runs on core 0; then it
    // has left.
    let waiting = Record {
        queued: 1,
        oldest: 100,
        stamp: 100,
        ..Record::ZERO
    };
    let at_work = Record {
        taken: 1,
        running: 1,
        started: 112,
        stamp: 112,
        ..Record::ZERO
    };
    let done = Record {
        taken: 1,
        stamp: 125,
        ..Record::ZERO
    };
    for shown in [(111, 1, waiting), (120, 2, at_work), (130, 3, done)] {
        pass_on(rt, config, &mut book, &mut auditor, shown)?;
    }
    println!(rt; "  {:?}", auditor.verdict())?;
    Ok(())
}

pub fn show(rt: &HostRuntime) -> anyhow::Result<()> {
    let config = Config::read(rt.alloc(), TABLE)?;
    passes(rt, &config)
}
// end
