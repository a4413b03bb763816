//! Made histories, by each policy: in each pass the Book takes the inputs that may be given, and
//! does what the plain pass does, on an input and on looks that come in one by one; the guard lets
//! each pass through, and the audit finds each legal. Looks are drawn by chance from fixed seeds: as
//! before, newer, busy, refused by the commands sent or by what was shown; and clocks fall.

ghost use Rattle.std.specs.Prelude.{◌≡◌, ◌<◌, IfOk};
ghost use Rattle.cal_machine.specs.declared.numbering.TheConstants.{MOST_THREADS};
ghost use Rattle.cal_policy.specs.Auditor.{IsAuditorOf};
ghost use Rattle.cal_policy.specs.Board.{HasSizes};
ghost use Rattle.cal_policy.specs.Book.{board_in};
ghost use Rattle.cal_policy.specs.State.{IsReady};
ghost use Rattle.cal_guard.specs.Guarded as guards;

use crate::looks::take_in_all;
use cal_guard::Guard;
use cal_machine::{Config, MOST_THREADS};
use cal_policy::state::Board;
use cal_policy::{
    Actions, Auditor, Book, FoundLook, Input, Look, OpenPass, PassEntry, Policy, Record, Verdict,
    is_input, orderly, plain_pass_by,
};
use std::alloc::Global;
use std::test::Fail;

/// Numbers that look as if drawn by chance: the same ones of the same seed.
#[derive(Drop)]
struct Draw {
    seed: u64,
    /// The clock of the pass that they are drawn for.
    clock: u64,
}

impl Draw {
    /// A number below `limit`, or 0.
    fn below(&mut self, limit: u64) -> u64 {
        let next = self.seed.wrapping_mul(6_364_136_223_846_793_005);
        self.seed = next.wrapping_add(1_442_695_040_888_963_407);
        if limit == 0 {
            return 0;
        }
        self.seed / 8_589_934_592 % limit
    }
}

/// The word `running` of a thread that shows a core that it has, else 0.
fn shown_core(config: &Config, board: &Board, k: usize) -> u64
    requires { k < MOST_THREADS }
{
    config.limits();
    for core in 0..config.machine().cores() {
        if board.holding.holders[core as usize].is_with(k as u8) {
            return u64::from(core) + 1;
        }
    }
    0
}

/// The next record of thread `k`: mostly one that takes all commands and shows its core.
fn next_record(draw: &mut Draw, config: &Config, board: &Board, k: usize) -> Record
    requires { k < MOST_THREADS }
{
    let clock = draw.clock;
    let last = board.keeping.shown(k).rec;
    let sent = u64::try_from(board.holding.sent[k]).unwrap_or(0);
    let taken = match draw.below(32) {
        0 => sent.saturating_add(1),
        1 => last.taken,
        _ => sent,
    };
    let running = match draw.below(16) {
        0 => draw.below(9),
        1 | 2 | 3 => 0,
        _ => shown_core(config, board, k),
    };
    Record {
        taken: taken.max(last.taken),
        running,
        queued: draw.below(2),
        oldest: clock.saturating_sub(draw.below(64)),
        started: clock.saturating_sub(draw.below(128)),
        misses: last.misses.saturating_add(draw.below(100)),
        stamp: last.stamp.max(clock),
        paused: draw.below(4) / 3,
        since: clock.saturating_sub(draw.below(64)),
    }
}

/// What is found of thread `k`: in half of all cases what was found before.
fn found(draw: &mut Draw, config: &Config, board: &Board, k: usize) -> Look
    requires { k < MOST_THREADS }
{
    let last = board.keeping.shown(k);
    match draw.below(1024) {
        0 => Look::Whole {
            number: last.number,
            rec: next_record(draw, config, board, k),
        },
        1..64 => Look::Busy {
            first: 1,
            second: 1,
        },
        64..512 => Look::Whole {
            number: last.number.saturating_add(1),
            rec: next_record(draw, config, board, k),
        },
        _ => Look::Whole {
            number: last.number,
            rec: last.rec,
        },
    }
}

/// What a pass is drawn.
#[derive(Drop)]
struct Drawn {
    clock: u64,
    bandwidth: u64,
    /// What is found of each thread, and whether its ring has room.
    looks: Vec<FoundLook>,
}

/// What the pass at this clock is drawn.
fn draw_pass(alloc: Global, config: &Config, book: &Book, draw: &mut Draw) -> Result<Drawn, Fail> {
    config.limits();
    let mut looks = Vec::with_capacity(alloc, config.threads())?;
    for k in 0..config.threads() {
        let look = found(draw, config, book.board(), k);
        let room = draw.below(8) > 0;
        looks.push(FoundLook { look, room })?;
    }
    Ok(Drawn {
        clock: draw.clock,
        bandwidth: draw.below(2000),
        looks,
    })
}

/// A book whose looks come in one by one.
#[derive(Drop)]
struct Walked {
    book: Book,
    came: Box<OpenPass>,
}

impl Walked {
    /// After no pass.
    fn open(alloc: Global, config: &Config, policy: Policy) -> Result<Walked, Fail>
        ensures { IfOk result (λ walked. IsReady config.now (board_in walked.book)) }
    {
        Ok(Walked {
            book: Book::open_by(alloc, config, policy)?,
            came: Box::new(alloc, OpenPass::new())?,
        })
    }

    /// Takes in the looks, and says whether each of them fits.
    fn takes_in(&mut self, config: &Config, looks: &[FoundLook]) -> bool
        requires { IsReady config.now (board_in self.old.book) }
        ensures { IsReady config.now (board_in self.new.book) }
    {
        take_in_all(&mut self.came, config, self.book.board(), looks)
    }

    /// Whether the book makes these actions of these looks.
    fn makes(
        &mut self,
        alloc: Global,
        config: &Config,
        looks: &[FoundLook],
        entry: &PassEntry,
    ) -> Result<bool, Fail>
        requires { IsReady config.now (board_in self.old.book) }
        ensures { IsReady config.now (board_in self.new.book) }
    {
        let fit = self.takes_in(config, looks);
        if !fit || self.came.count != config.threads() {
            return Ok(false);
        }
        let mut made = Actions::reserved(alloc)?;
        let (now, bandwidth) = (entry.input.now, entry.input.bandwidth);
        self.book
            .pass(config, now, bandwidth, &self.came, &mut made);
        Ok(made.as_slice() == entry.actions.as_slice())
    }
}

/// The pass that the book makes on this input.
fn stepped(alloc: Global, config: &Config, book: &mut Book, input: Input) -> Result<PassEntry, Fail>
    requires of { IsReady config.now (board_in book.old) }
    requires sizes { HasSizes config.now input }
    ensures of { IsReady config.now (board_in book.new) }
    ensures sizes { IfOk result (λ entry. HasSizes config.now entry.input) }
{
    let mut actions = Actions::reserved(alloc)?;
    book.step(config, &input, &mut actions);
    let actions = actions.to_list(alloc)?;
    Ok(PassEntry { input, actions })
}

/// A guard and an audit of the same passes.
#[derive(Drop)]
struct Judges {
    guard: Guard,
    auditor: Auditor,
}

impl Judges {
    /// Of no pass.
    fn open(alloc: Global, config: &Config, policy: Policy) -> Result<Judges, Fail>
        ensures guard { IfOk result (λ judges. IsReady config.now (guards.board_in judges.guard)) }
        ensures auditor { IfOk result (λ judges. IsAuditorOf config.now judges.auditor) }
    {
        Ok(Judges {
            guard: Guard::open(alloc, config)?,
            auditor: Auditor::open_by(alloc, config, policy)?,
        })
    }

    /// Whether the guard lets the pass through, and all passes are legal up to it.
    fn let_through(&mut self, config: &Config, entry: &PassEntry) -> bool
        requires guard { IsReady config.now (guards.board_in self.old.guard) }
        requires auditor { IsAuditorOf config.now self.old.auditor }
        requires sizes { HasSizes config.now entry.now.input }
        ensures guard { IsReady config.now (guards.board_in self.new.guard) }
        ensures auditor { IsAuditorOf config.now self.new.auditor }
    {
        let step = self
            .guard
            .step(config, &entry.input, entry.actions.as_slice());
        self.auditor.next(config, entry);
        step.is_ok() && self.auditor.verdict() == Verdict::Legal
    }
}

/// Whether the plain pass on the input of this entry, after these, makes its actions.
fn is_made(
    alloc: Global,
    policy: Policy,
    config: &Config,
    before: &[PassEntry],
    entry: &PassEntry,
) -> Result<bool, Fail> {
    if !orderly(config, before) || !is_input(config, before, &entry.input) {
        return Ok(false);
    }
    let mut made = Actions::reserved(alloc)?;
    plain_pass_by(policy, config, before, &entry.input, &mut made);
    Ok(made.as_slice() == entry.actions.as_slice())
}

/// Whether the input may not be given after these passes.
fn is_refused(config: &Config, before: &[PassEntry], input: &Input) -> bool {
    orderly(config, before) && !is_input(config, before, input)
}

/// Two books, a guard and an audit after the same passes.
#[derive(Drop)]
struct Together {
    stepped: Book,
    walked: Walked,
    judges: Judges,
    history: Vec<PassEntry>,
}

impl Together {
    /// After no pass.
    fn open(alloc: Global, config: &Config, policy: Policy) -> Result<Together, Fail>
        ensures stepped { IfOk result (λ all. IsReady config.now (board_in all.stepped)) }
        ensures walked { IfOk result (λ all. IsReady config.now (board_in all.walked.book)) }
        ensures guard { IfOk result (λ all. IsReady config.now
            (guards.board_in all.judges.guard)) }
        ensures auditor { IfOk result (λ all. IsAuditorOf config.now all.judges.auditor) }
    {
        Ok(Together {
            stepped: Book::open_by(alloc, config, policy)?,
            walked: Walked::open(alloc, config, policy)?,
            judges: Judges::open(alloc, config, policy)?,
            history: Vec::new(alloc),
        })
    }

    /// Whether all do the same with what was drawn: the pass that the plain pass makes, or none.
    fn agree(&mut self, alloc: Global, config: &Config, drawn: &Drawn) -> Result<bool, Fail>
        requires stepped { IsReady config.now (board_in self.old.stepped) }
        requires walked { IsReady config.now (board_in self.old.walked.book) }
        requires guard { IsReady config.now (guards.board_in self.old.judges.guard) }
        requires auditor { IsAuditorOf config.now self.old.judges.auditor }
        ensures stepped { IfOk result (λ _. IsReady config.now (board_in self.new.stepped)) }
        ensures walked { IfOk result (λ _. IsReady config.now (board_in self.new.walked.book)) }
        ensures guard { IfOk result (λ _. IsReady config.now
            (guards.board_in self.new.judges.guard)) }
        ensures auditor { IfOk result (λ _. IsAuditorOf config.now self.new.judges.auditor) }
    {
        let looks = drawn.looks.as_slice();
        if looks.len() != config.threads() {
            return Ok(false);
        }
        let input = self
            .stepped
            .input(alloc, config, drawn.clock, drawn.bandwidth, looks)?;
        if !self.stepped.fits(config, &input) {
            let fit = self.walked.takes_in(config, looks);
            return Ok(!fit && is_refused(config, self.history.as_slice(), &input));
        }
        let entry = stepped(alloc, config, &mut self.stepped, input)?;
        let policy = self.stepped.policy();
        if !is_made(alloc, policy, config, self.history.as_slice(), &entry)? {
            return Ok(false);
        }
        if !self.walked.makes(alloc, config, looks, &entry)? {
            return Ok(false);
        }
        let through = self.judges.let_through(config, &entry);
        self.history.push(entry)?;
        Ok(through)
    }
}

/// Whether all do the same in each pass of a history of so many that is drawn.
fn are_alike(
    alloc: Global,
    config: &Config,
    policy: Policy,
    passes: u64,
    seed: u64,
) -> Result<bool, Fail> {
    let mut draw = Draw { seed, clock: 0 };
    let mut all = Together::open(alloc, config, policy)?;
    for pass in 0..passes {
        let back = if draw.below(16) == 0 { 100 } else { 0 };
        draw.clock = pass
            .saturating_mul(20)
            .saturating_add(1000)
            .saturating_sub(back);
        let drawn = draw_pass(alloc, config, &all.stepped, &mut draw)?;
        if !all.agree(alloc, config, &drawn)? {
            return Ok(false);
        }
    }
    Ok(all.history.len() > 4)
}

#[test]
fn books_and_guard_are_as_the_plain_pass(rt: HostRuntime) -> Result<(), Fail> {
    let small = Config::read(rt.alloc(), SIXTEEN_THREADS.as_bytes())?;
    for seed in 0..980u64 {
        assert!(rt;
            are_alike(rt.alloc(), &small, Policy::Caladan, 30, seed)?,
            "16 threads, seed {seed}"
        );
    }
    let large = Config::read(rt.alloc(), MANY_THREADS.as_bytes())?;
    for seed in 980..1000u64 {
        assert!(rt;
            are_alike(rt.alloc(), &large, Policy::Caladan, 30, seed)?,
            "128 threads, seed {seed}"
        );
    }
    Ok(())
}

#[test]
fn assured_books_and_guard_are_as_the_plain_pass(rt: HostRuntime) -> Result<(), Fail> {
    let small = Config::read(rt.alloc(), SIXTEEN_THREADS.as_bytes())?;
    for seed in 1000..2980u64 {
        assert!(rt;
            are_alike(rt.alloc(), &small, Policy::Assured, 12, seed)?,
            "16 threads, seed {seed}"
        );
    }
    let large = Config::read(rt.alloc(), MANY_THREADS.as_bytes())?;
    for seed in 2980..3000u64 {
        assert!(rt;
            are_alike(rt.alloc(), &large, Policy::Assured, 12, seed)?,
            "128 threads, seed {seed}"
        );
    }
    Ok(())
}

/// Eight cores, and 16 threads of four tasks.
const SIXTEEN_THREADS: &str = "\
cores = 8
bandwidth_limit = 1000
task = [
{ kind = \"lc\", guaranteed = 2, limit = 4, delay = 10, request = 50 },
{ kind = \"lc\", guaranteed = 1, limit = 4, delay = 20, request = 30 },
{ kind = \"be\", guaranteed = 0, limit = 4, delay = 5, request = 50 },
{ kind = \"be\", guaranteed = 0, limit = 4, delay = 10, request = 50 },
]
";

/// 64 cores, and 128 threads of eight tasks.
const MANY_THREADS: &str = "\
cores = 64
bandwidth_limit = 1000
task = [
{ kind = \"lc\", guaranteed = 8, limit = 16, delay = 10, request = 50 },
{ kind = \"lc\", guaranteed = 8, limit = 16, delay = 20, request = 30 },
{ kind = \"lc\", guaranteed = 4, limit = 16, delay = 10, request = 100 },
{ kind = \"lc\", guaranteed = 0, limit = 16, delay = 30, request = 50 },
{ kind = \"be\", guaranteed = 0, limit = 16, delay = 5, request = 50 },
{ kind = \"be\", guaranteed = 0, limit = 16, delay = 10, request = 50 },
{ kind = \"be\", guaranteed = 0, limit = 16, delay = 15, request = 50 },
{ kind = \"be\", guaranteed = 0, limit = 16, delay = 20, request = 50 },
]
";
