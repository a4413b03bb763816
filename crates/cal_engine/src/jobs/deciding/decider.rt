//! Decides passes one after the other.

ghost use Rattle.std.specs.Prelude.{◌≡◌, ◌<◌, ◌+◌, ◌^◌, ◌++◌, ◌∷◌, [], List, length};
ghost use Rattle.std.specs.Prelude.{IfOk, IfErr, OnOk};
ghost use Rattle.cal_machine.specs.TableTasks.{threads_of_table};
ghost use Rattle.cal_policy.specs.Book.{board_in};
ghost use Rattle.cal_policy.specs.State.{IsReady, IsStateAfter};
ghost use Rattle.cal_policy.specs.Judgement.Judging.{IsInput};
ghost use Rattle.cal_policy.specs.Policies.{IsLegalBy};
ghost use Rattle.cal_policy.specs.declared.history.entry.PassEntry.{PassEntry as EntryOfPass};
ghost use Rattle.cal_engine.specs.Deciding.{decided_pass, input_of, HasDecided};

use crate::jobs::deciding::keeper::Keeper;
use cal_input::RunFault;
use cal_machine::Config;
use cal_policy::{Actions, Book, PassEntry, Policy};
use cal_trace::SignalPass;
use std::alloc::{AllocError, Global};

/// Decides passes one after the other, and keeps none.
#[derive(Drop)]
pub(crate) struct Decider {
    /// The state after the passes so far.
    pub(crate) book: Book,
    /// Room for the actions of a pass.
    actions: Actions,
}

impl Decider {
    /// Before the first pass by this policy. Fails only when out of memory.
    pub(crate) fn open(
        alloc: Global,
        config: &Config,
        policy: Policy,
    ) -> Result<Decider, AllocError>
        ensures agrees { IfOk result (λ decider. IsStateAfter (board_in decider.book) []) }
        ensures of { IfOk result (λ decider. IsReady config.now (board_in decider.book)) }
        ensures policy { IfOk result (λ decider. decider.book.policy ≡ policy) }
    {
        let book = Book::open_by(alloc, config, policy)?;
        let actions = Actions::reserved(alloc)?;
        Ok(Decider { book, actions })
    }

    /// Decides the next pass, and hands it to the keeper. The fault is `Memory`.
    pub(crate) fn hand_on<K: Keeper>(
        &mut self,
        alloc: Global,
        config: &Config,
        pass: &SignalPass,
        keeper: &mut K,
    ) -> Result<(), RunFault>
        requires of { IsReady config.now (board_in self.old.book) }
        requires looks { length pass.now.looks ≡ threads_of_table config.now }
        ensures decided { (h : List EntryOfPass) → IsLegalBy self.old.book.policy config.now h →
            IsInput config.now h (input_of config.now h pass.entry.now) → length h + 1 < 2 ^ 64 →
            HasDecided (K.keeps keeper.old) h self.old → OnOk result (HasDecided
            (K.keeps keeper.new)
            (h ++ decided_pass self.old.book.policy config.now h pass.entry.now ∷ []) self.new) }
        ensures of { OnOk result (IsReady config.now (board_in self.new.book)) }
        ensures policy { OnOk result (self.new.book.policy ≡ self.old.book.policy) }
        ensures kind { IfErr result (λ fault. fault ≡ RunFault.Memory) }
    {
        let entry = self.decide(alloc, config, pass)?;
        keeper.take(entry)
    }

    /// The next pass on these signals, which is taken into the book.
    fn decide(
        &mut self,
        alloc: Global,
        config: &Config,
        pass: &SignalPass,
    ) -> Result<PassEntry, AllocError>
        requires of { IsReady config.now (board_in self.old.book) }
        requires looks { length pass.now.looks ≡ threads_of_table config.now }
        ensures decided { IfOk result (λ entry. (h : List EntryOfPass) →
            IsLegalBy self.old.book.policy config.now h →
            IsStateAfter (board_in self.old.book) h →
            IsInput config.now h (input_of config.now h pass.entry.now) →
            entry ≡ decided_pass self.old.book.policy config.now h pass.entry.now) }
        ensures agrees { IfOk result (λ entry. (h : List EntryOfPass) →
            IsLegalBy self.old.book.policy config.now h →
            IsStateAfter (board_in self.old.book) h →
            IsInput config.now h (input_of config.now h pass.entry.now) →
            IsStateAfter (board_in self.new.book) (h ++ entry ∷ [])) }
        ensures of { OnOk result (IsReady config.now (board_in self.new.book)) }
        ensures policy { OnOk result (self.new.book.policy ≡ self.old.book.policy) }
    {
        let looks = pass.looks.as_slice();
        let input = self
            .book
            .input(alloc, config, pass.now, pass.bandwidth, looks)?;
        self.actions.clear();
        self.book.step(config, &input, &mut self.actions);
        let actions = self.actions.to_list(alloc)?;
        Ok(PassEntry { input, actions })
    }
}
