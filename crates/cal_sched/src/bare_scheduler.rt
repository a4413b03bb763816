//! A scheduler that keeps no history.

ghost use Rattle.std.specs.Prelude.{◌≡◌, ◌<◌, ◌≤◌, ◌↔◌, List, [], ◌∷◌, ◌++◌, Err, length, IfOk, IfErr};
ghost use Rattle.cal_policy.specs.Board.Counts as counts;
ghost use Rattle.cal_policy.specs.History.{actions_of, holder_of};
ghost use Rattle.cal_machine.specs.TableTasks.{threads_of_table};
ghost use Rattle.cal_policy.specs.declared.history.entry.TheConstants.{MOST_PASSES};
ghost use Rattle.cal_policy.specs.declared.policy.Policy.TheVariants.{Caladan};
ghost use Rattle.cal_sched.specs.declared.fault.PassFault.TheVariants.{HistoryFull};
ghost use Rattle.cal_policy.specs.Book.{board_in};
ghost use Rattle.cal_policy.specs.State.{IsReady, IsStateAfter};
ghost use Rattle.cal_sched.specs.Passing.{IsPassed};
ghost use Rattle.cal_sched.specs.Scheduler.{IsKept, HaveSeenNothing, HaveSentNothing};

use crate::fault::PassFault;
use crate::found_pass::FoundPass;
use crate::news::find_news;
use crate::sending::send_commands;
use cal_command::Sender;
use cal_guard::{
    each_policy_is_permitted, holders_are_of_their_last_run, permitted_settled_is_no_news,
    threads_are_sent_one_command,
};
use cal_machine::{Config, Past};
use cal_policy::state::Board;
use cal_policy::{
    Actions, Book, Holder, Input, InputLists, MOST_PASSES, OpenPass, PassEntry, Policy,
};
use cal_signal::Observer;
use std::alloc::{AllocError, Global};
use std::marker::Model;

/// A scheduler that hands the entry of each pass to its caller and keeps none of them, so that its
/// memory does not grow with its passes. It may be moved to a thread of its own; no call of it
/// waits.
///
/// A contract sees the same as of a `Scheduler`: its table, its policy, its history, and its ends of
/// the pages and rings, in thread order. Its history are the entries that its passes gave, in order, whatever
/// became of them; a `step` adds the entry that a pass would have given.
#[derive(Drop)]
pub struct BareScheduler {
    alloc: Global,
    config: Config,
    book: Book,
    // what its passes were made of
    past: Past<FoundPass>,
    // how many passes it has made
    passes: usize,
    // what its last pass found, in memory that each uses again
    looks: Box<OpenPass>,
    observers: Vec<Observer>,
    senders: Vec<Sender>,
}

impl Model for BareScheduler {
    ghost use Rattle.std.specs.Prelude.{◌≡◌, length};
    ghost use Rattle.cal_policy.specs.Book.{board_in};
    ghost use Rattle.cal_policy.specs.State.{IsReady, IsStateAfter};
    ghost use Rattle.cal_sched.specs.Past.{AreLast, history_of};
    ghost use Rattle.cal_sched.specs.Scheduler.{SchedulerView, IsKept};

    ghost Value = { SchedulerView };

    ghost view = { λ s. record {
      table = s.config;
      policy = s.book.policy;
      history = history_of s.book.policy s.config s.past;
      observers = s.observers.items;
      senders = s.senders.items;
    } };

    ghost invariant = { λ s. IsKept (record {
      table = s.config;
      policy = s.book.policy;
      history = history_of s.book.policy s.config s.past;
      observers = s.observers.items;
      senders = s.senders.items;
    }) × IsStateAfter (board_in s.book) (history_of s.book.policy s.config s.past)
        × IsReady s.config (board_in s.book)
        × (s.passes ≡ length (history_of s.book.policy s.config s.past))
        × AreLast s.book.policy s.config s.past s.looks.value };
}

/// What `Scheduler::new` or `BareScheduler::new` was given, where memory was refused.
#[derive(Drop)]
pub struct NotMade {
    /// The table.
    pub config: Config,
    /// The observers, in thread order.
    pub observers: Vec<Observer>,
    /// The senders, in thread order.
    pub senders: Vec<Sender>,
}

/// What a scheduler had when it ended, without its history.
#[derive(Drop)]
pub struct BareEnd {
    /// The table.
    pub config: Config,
    /// Its observers, in thread order.
    pub observers: Vec<Observer>,
    /// Its senders, in thread order.
    pub senders: Vec<Sender>,
}

/// The policy's book of no pass yet, and the memory of a step.
fn take_memory(
    alloc: Global,
    config: &Config,
    policy: Policy,
) -> Result<(Book, Box<OpenPass>), AllocError>
    ensures agrees { IfOk result (λ taken. IsStateAfter (board_in taken.0) []) }
    ensures of { IfOk result (λ taken. IsReady config.now (board_in taken.0)) }
    ensures policy { IfOk result (λ taken. taken.0.policy ≡ policy) }
{
    let book = Book::open_by(alloc, config, policy)?;
    let looks = Box::new(alloc, OpenPass::new())?;
    Ok((book, looks))
}

impl BareScheduler {
    /// A scheduler by `Policy::Caladan` that made no pass yet. Asks for the same as
    /// `Scheduler::new`, fails only when out of memory, and then returns all three.
    pub fn new(
        alloc: Global,
        config: Config,
        observers: Vec<Observer>,
        senders: Vec<Sender>,
    ) -> Result<BareScheduler, NotMade>
        requires pages { length observers.items ≡ threads_of_table config }
        requires rings { length senders.items ≡ threads_of_table config }
        requires unseen { HaveSeenNothing observers.items }
        requires unsent { HaveSentNothing senders.items }
        ensures made { IfOk result (λ made. made ≡ record {
          table = config;
          policy = Caladan;
          history = [];
          observers = observers.items;
          senders = senders.items;
        }) }
        ensures kept { IfOk result IsKept }
        ensures handed_back { IfErr result (λ refused.
            (refused.config ≡ config) × (refused.observers ≡ observers)
            × (refused.senders ≡ senders)) }
    {
        BareScheduler::new_by(alloc, config, Policy::Caladan, observers, senders)
    }

    /// The same by this policy, which decides all its passes.
    pub fn new_by(
        alloc: Global,
        config: Config,
        policy: Policy,
        observers: Vec<Observer>,
        senders: Vec<Sender>,
    ) -> Result<BareScheduler, NotMade>
        requires pages { length observers.items ≡ threads_of_table config }
        requires rings { length senders.items ≡ threads_of_table config }
        requires unseen { HaveSeenNothing observers.items }
        requires unsent { HaveSentNothing senders.items }
        ensures made { IfOk result (λ made. made ≡ record {
          table = config;
          policy = policy;
          history = [];
          observers = observers.items;
          senders = senders.items;
        }) }
        ensures kept { IfOk result IsKept }
        ensures handed_back { IfErr result (λ refused.
            (refused.config ≡ config) × (refused.observers ≡ observers)
            × (refused.senders ≡ senders)) }
    {
        match take_memory(alloc, &config, policy) {
            Ok((book, looks)) => Ok(BareScheduler {
                alloc,
                config,
                book,
                past: Past::none(),
                passes: 0,
                looks,
                observers,
                senders,
            }),
            Err(AllocError) => Err(NotMade {
                config,
                observers,
                senders,
            }),
        }
    }

    /// One pass, as of a `Scheduler`: looks, judges, decides, sends, and gives the entry of the
    /// pass. Waits for nobody. A record that is refused is no fault: the entry says it, and the
    /// record kept before stays.
    ///
    /// `HistoryFull` where it has made 1,048,576 passes, which is checked first; `Memory` where
    /// room for the pass was refused. Then nothing was read and nothing has changed: all the memory
    /// that a pass takes is taken before its first look, and what its entry does not need is given
    /// back.
    pub fn pass(&mut self, now: u64, bandwidth: u64) -> Result<PassEntry, PassFault>
        ensures passed { IfOk result (λ _. IsPassed now bandwidth self.old self.new) }
        ensures entered { IfOk result (λ entry.
            self.new.history ≡ self.old.history ++ entry ∷ []) }
        ensures kept { IsKept self.new }
        ensures full { (result ≡ Err HistoryFull) ↔ (MOST_PASSES ≤ length self.old.history) }
        ensures refused { IfErr result (λ _. self.new ≡ self.old) }
    {
        if self.passes >= MOST_PASSES {
            return Err(PassFault::HistoryFull);
        }
        let lists = InputLists::reserved(self.alloc, &self.config)?;
        let mut actions = Actions::reserved(self.alloc)?;
        self.step(now, bandwidth, &mut actions)?;
        let input = self.last_input(lists, now, bandwidth);
        let actions = actions.list();
        Ok(PassEntry { input, actions })
    }

    /// The input of its last pass, which was at this clock and bandwidth figure. It takes no
    /// memory.
    fn last_input(&self, lists: InputLists, now: u64, bandwidth: u64) -> Input
        requires made { (before : List PassEntry) × (entry : PassEntry)
            × (self.now.history ≡ before ++ entry ∷ []) }
        requires room { lists.threads ≡ threads_of_table self.now.table }
        requires empty { (lists.seen ≡ []) × (lists.rooms ≡ []) }
        ensures { (before : List PassEntry) (entry : PassEntry) →
            self.now.history ≡ before ++ entry ∷ [] → entry.input.now ≡ now →
            entry.input.bandwidth ≡ bandwidth → result ≡ entry.input }
    {
        self.looks
            .input(&self.config, self.book.board(), lists, now, bandwidth)
    }

    /// One pass, at this clock (in ticks) and bandwidth figure (in the unit of the table's limit),
    /// as `pass` makes it, but with no entry: it puts the actions of the pass, and no others, into
    /// `out`. It takes no memory, and waits for nobody.
    ///
    /// `HistoryFull` where it has made 1,048,576 passes, and for no other reason. Then nothing was
    /// read and nothing has changed.
    pub fn step(&mut self, now: u64, bandwidth: u64, out: &mut Actions) -> Result<(), PassFault>
        ensures passed { IfOk result (λ _. IsPassed now bandwidth self.old self.new) }
        ensures acted { IfOk result (λ _. (entry : PassEntry)
            × (self.new.history ≡ self.old.history ++ entry ∷ []) × (out.new ≡ entry.actions)) }
        ensures kept { IsKept self.new }
        ensures full { (result ≡ Err HistoryFull) ↔ (MOST_PASSES ≤ length self.old.history) }
        ensures refused { IfErr result (λ _. (self.new ≡ self.old) × (out.new ≡ out.old)) }
        ensures only { IfErr result (λ fault. fault ≡ HistoryFull) }
    {
        if self.passes >= MOST_PASSES {
            return Err(PassFault::HistoryFull);
        }
        self.config.limits();
        each_policy_is_permitted();
        permitted_settled_is_no_news();
        self.looks.begin();
        let mut found = Past::none();
        find_news(
            &self.config,
            self.book.board(),
            self.observers.as_mut_slice(),
            self.senders.as_mut_slice(),
            &mut found,
            &mut self.looks,
        );
        out.clear();
        self.book
            .pass(&self.config, now, bandwidth, &self.looks, out);
        let pass = FoundPass {
            clock: now,
            bandwidth,
            found,
        };
        send_commands(
            &self.config,
            &self.book,
            &self.past,
            &pass,
            out.as_slice(),
            self.senders.as_mut_slice(),
        );
        self.past.note(&pass);
        self.passes += 1;
        Ok(())
    }

    /// The policy that decides its passes.
    pub fn policy(&self) -> Policy
        ensures { result ≡ self.now.policy }
    {
        self.book.policy()
    }

    /// The state that its passes so far leave, for callers that count what they did.
    pub fn board(&self) -> &Board
        ensures agrees { IsStateAfter result.now self.now.history }
        ensures ready { IsReady self.now.table result.now }
    {
        self.book.board()
    }

    /// How many passes it has made.
    pub fn passes(&self) -> usize
        ensures { result ≡ length self.now.history }
    {
        self.passes
    }

    /// How many cores the task's threads hold or leave.
    pub fn booked(&self, t: usize) -> u8
        requires { t < length self.now.table.tasks }
        ensures { result ≡ counts.booked_by self.now.table (actions_of self.now.history) t }
    {
        self.book.board().booked(&self.config, t)
    }

    /// Who has the core: the thread, the number of the Run that put it there, and the cause for
    /// which it was told to leave.
    pub fn holder(&self, core: u8) -> Holder
        requires { core < self.now.table.cores }
        ensures { result ≡ holder_of (actions_of self.now.history) core }
    {
        self.config.limits();
        each_policy_is_permitted();
        threads_are_sent_one_command();
        holders_are_of_their_last_run();
        self.book.board().holder(core)
    }

    /// The table, and the ends of the pages and rings, in thread order. Takes no memory.
    pub fn end(self) -> BareEnd
        ensures config { result.config ≡ self.table }
        ensures observers { result.observers.items ≡ self.observers }
        ensures senders { result.senders.items ≡ self.senders }
        ensures kept { IsKept self }
    {
        let BareScheduler {
            config,
            observers,
            senders,
            ..
        } = self;
        BareEnd {
            config,
            observers,
            senders,
        }
    }
}
