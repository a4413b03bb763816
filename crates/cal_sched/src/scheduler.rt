//! The scheduler, with the history of its passes.

ghost use Rattle.std.specs.Prelude.{◌≡◌, ◌<◌, ◌≤◌, ◌↔◌, [], Err, length, IfOk, IfErr};
ghost use Rattle.cal_policy.specs.Board.Counts as counts;
ghost use Rattle.cal_policy.specs.History.{actions_of, holder_of};
ghost use Rattle.cal_machine.specs.TableTasks.{threads_of_table};
ghost use Rattle.cal_policy.specs.declared.history.entry.TheConstants.{MOST_PASSES};
ghost use Rattle.cal_policy.specs.declared.policy.Policy.TheVariants.{Caladan};
ghost use Rattle.cal_sched.specs.declared.fault.PassFault.TheVariants.{HistoryFull};
ghost use Rattle.cal_sched.specs.Passing.{IsPassed};
ghost use Rattle.cal_sched.specs.Scheduler.{IsKept, HaveSeenNothing, HaveSentNothing};

use crate::bare_scheduler::{BareEnd, BareScheduler, NotMade};
use crate::fault::PassFault;
use cal_command::Sender;
use cal_machine::Config;
use cal_policy::{Holder, MOST_PASSES, PassEntry, Policy};
use cal_signal::Observer;
use std::alloc::Global;
use std::marker::Model;

/// The scheduler of a table's kernel threads. It may be moved to a thread of its own; no call of it
/// waits.
///
/// A contract sees its table, its policy, its history, and its ends of the pages and rings, in
/// thread order. The history is one of its policy; of each thread the looks that carried a record are, in order, what its
/// observer found, and what was sent on its ring are its commands.
#[derive(Drop)]
pub struct Scheduler {
    bare: BareScheduler,
    // the entries of its passes
    history: Vec<PassEntry>,
}

impl Model for Scheduler {
    ghost use Rattle.std.specs.Prelude.{◌≡◌};
    ghost use Rattle.cal_sched.specs.Scheduler.{SchedulerView, IsKept};

    ghost Value = { SchedulerView };

    ghost view = { λ s. s.bare };

    ghost invariant = { λ s. IsKept s.bare × (s.history.items ≡ s.bare.history) };
}

/// What a scheduler had when it ended.
#[derive(Drop)]
pub struct SchedulerEnd {
    /// The table.
    pub config: Config,
    /// Its passes, the first one first.
    pub history: Vec<PassEntry>,
    /// Its observers, in thread order.
    pub observers: Vec<Observer>,
    /// Its senders, in thread order.
    pub senders: Vec<Sender>,
}

impl Scheduler {
    /// A scheduler by `Policy::Caladan` that made no pass yet. Asks for an observer that found
    /// nothing yet and a sender that sent nothing yet for each kernel thread of the table, in thread
    /// order. Fails only when out of memory, and then returns all three.
    pub fn new(
        alloc: Global,
        config: Config,
        observers: Vec<Observer>,
        senders: Vec<Sender>,
    ) -> Result<Scheduler, NotMade>
        requires pages { length observers.items ≡ threads_of_table config }
        requires rings { length senders.items ≡ threads_of_table config }
        requires unseen { HaveSeenNothing observers.items }
        requires unsent { HaveSentNothing senders.items }
        ensures made { IfOk result (λ made. made ≡ record {
          table = config;
          policy = Caladan;
          history = [];
          observers = observers.items;
          senders = senders.items;
        }) }
        ensures handed_back { IfErr result (λ refused.
            (refused.config ≡ config) × (refused.observers ≡ observers)
            × (refused.senders ≡ senders)) }
    {
        Scheduler::new_by(alloc, config, Policy::Caladan, observers, senders)
    }

    /// The same by this policy, which decides all its passes.
    pub fn new_by(
        alloc: Global,
        config: Config,
        policy: Policy,
        observers: Vec<Observer>,
        senders: Vec<Sender>,
    ) -> Result<Scheduler, NotMade>
        requires pages { length observers.items ≡ threads_of_table config }
        requires rings { length senders.items ≡ threads_of_table config }
        requires unseen { HaveSeenNothing observers.items }
        requires unsent { HaveSentNothing senders.items }
        ensures made { IfOk result (λ made. made ≡ record {
          table = config;
          policy = policy;
          history = [];
          observers = observers.items;
          senders = senders.items;
        }) }
        ensures handed_back { IfErr result (λ refused.
            (refused.config ≡ config) × (refused.observers ≡ observers)
            × (refused.senders ≡ senders)) }
    {
        let bare = BareScheduler::new_by(alloc, config, policy, observers, senders)?;
        Ok(Scheduler {
            bare,
            history: Vec::new(alloc),
        })
    }

    /// One pass, at this clock (in ticks) and bandwidth figure (in the unit of the table's limit):
    /// looks once at each page, asks each ring for room, in thread order, judges what it found,
    /// decides, sends each command, and enters the pass into the history. Waits for nobody. A
    /// record that is refused is no fault: the entry says it, and the record kept before stays.
    ///
    /// `HistoryFull` where the history has 1,048,576 passes, which is checked first; `Memory` where
    /// room for the pass was refused. Then nothing was read and nothing has changed: all the memory
    /// that a pass takes is taken before its first look, and what its entry does not need is given
    /// back.
    pub fn pass(&mut self, now: u64, bandwidth: u64) -> Result<(), PassFault>
        ensures passed { IfOk result (λ _. IsPassed now bandwidth self.old self.new) }
        ensures kept { IsKept self.new }
        ensures full { (result ≡ Err HistoryFull) ↔ (MOST_PASSES ≤ length self.old.history) }
        ensures refused { IfErr result (λ _. self.new ≡ self.old) }
    {
        if self.history.len() >= MOST_PASSES {
            return Err(PassFault::HistoryFull);
        }
        self.history.reserve(1)?;
        let entry = self.bare.pass(now, bandwidth)?;
        self.history.push_reserved(entry);
        Ok(())
    }

    /// The policy that decides its passes.
    pub fn policy(&self) -> Policy
        ensures { result ≡ self.now.policy }
    {
        self.bare.policy()
    }

    /// Its passes, the first one first.
    pub fn history(&self) -> &[PassEntry]
        ensures history { result.now ≡ self.now.history }
        ensures kept { IsKept self.now }
    {
        self.history.as_slice()
    }

    /// How many cores the task's threads hold or leave.
    pub fn booked(&self, t: usize) -> u8
        requires { t < length self.now.table.tasks }
        ensures { result ≡ counts.booked_by self.now.table (actions_of self.now.history) t }
    {
        self.bare.booked(t)
    }

    /// Who has the core: the thread, the number of the Run that put it there, and the cause for
    /// which it was told to leave.
    pub fn holder(&self, core: u8) -> Holder
        requires { core < self.now.table.cores }
        ensures { result ≡ holder_of (actions_of self.now.history) core }
    {
        self.bare.holder(core)
    }

    /// The same scheduler without the list of its passes, which is let go of.
    pub fn bare(self) -> BareScheduler
        ensures same { result ≡ self }
    {
        let Scheduler { bare, .. } = self;
        bare
    }

    /// The table, the history, and the ends of the pages and rings, in thread order. Takes no
    /// memory.
    pub fn end(self) -> SchedulerEnd
        ensures config { result.config ≡ self.table }
        ensures history { result.history.items ≡ self.history }
        ensures observers { result.observers.items ≡ self.observers }
        ensures senders { result.senders.items ≡ self.senders }
        ensures kept { IsKept self }
    {
        let Scheduler { bare, history } = self;
        let BareEnd {
            config,
            observers,
            senders,
        } = bare.end();
        SchedulerEnd {
            config,
            history,
            observers,
            senders,
        }
    }
}
