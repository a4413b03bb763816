//! Passes that take looks one by one, and which look does not fit.

ghost use Rattle.std.specs.Prelude.{◌≡◌, ◌≢◌, ◌⊎◌, IsOk, IfOk, IfErr, OnErr, Err, length, false};
ghost use Rattle.std.specs.Option.{is_some, ForSome, IsSomeAnd};
ghost use Rattle.cal_machine.specs.TableTasks.{threads_of_table};
ghost use Rattle.caladan_c.specs.Answer.{refusal_number};
ghost use Rattle.caladan_c.specs.OneByOne.{input_of_each, input_given_each, AreSaid};
ghost use Rattle.caladan_c.specs.OneByOne.{IsFirstUnfit, AllFit};
ghost use Rattle.caladan_c.specs.Passing.{AfterOwn, MadePass, HasRoomToTell, IsShort};
ghost use Rattle.caladan_c.specs.Told.{AreTold};
ghost use Rattle.caladan_c.specs.declared.answer.Refusal.TheVariants.{Closed, NoRoom, Unfit};
ghost use Rattle.caladan_c.specs.declared.answer.Refusal.TheVariants.{WrongCount};
ghost use Rattle.caladan_c.specs.Kinds.{scheduler_in};

use crate::answer::Refusal;
use crate::found::Found;
use crate::handed_in::HandedIn;
use crate::handle::Handle;
use crate::handle::kept::Kept;
use crate::input::first_unfit;
use crate::scheduler::Scheduler;
use crate::told::{Told, tell_all};
use cal_policy::MOST_ACTIONS;
use std::alloc::Global;

impl Scheduler {
    /// Makes the next pass, each look by itself, and writes its actions: how many they are, or why
    /// it did nothing.
    fn pass_each_told(
        &mut self,
        given: HandedIn<'_>,
        judged: &mut [u8],
        actions: &mut [Told],
    ) -> Result<usize, Refusal>
        ensures passed { IfOk result (λ made. AfterOwn self.old.table self.old.book (λ h.
            MadePass self.old h (input_given_each self.old.table h given.entry) self.new × AreTold
            self.new.made made actions.new)) }
        ensures judged { IfOk result (λ _. AfterOwn self.old.table self.old.book (λ h.
            AreSaid self.old.table.cores h given.entry.looks.now judged.new)) }
        ensures wrong_count { length given.entry.looks.now ≢ threads_of_table self.old.table →
            result ≡ Err WrongCount }
        ensures no_room { length given.entry.looks.now ≡ threads_of_table self.old.table →
            IsShort (threads_of_table self.old.table) judged.old actions.old →
            result ≡ Err NoRoom }
        ensures answers { length given.entry.looks.now ≡ threads_of_table self.old.table →
            HasRoomToTell (threads_of_table self.old.table) judged.old actions.old → IsOk result }
        ensures why { IfErr result (λ why. (why ≡ WrongCount) ⊎ (why ≡ NoRoom)) }
        ensures refused { OnErr result ((self.new ≡ self.old) × (actions.new ≡ actions.old) ×
            (judged.new ≡ judged.old)) }
    {
        let threads = self.threads();
        if given.looks.len() != threads {
            return Err(Refusal::WrongCount);
        }
        if judged.len() < threads || actions.len() < MOST_ACTIONS {
            return Err(Refusal::NoRoom);
        }
        self.pass_each(given, judged);
        Ok(tell_all(self.made(), actions))
    }
}

/// Makes the next pass as `caladan_pass` does, each look by itself: one that is unfit, ahead or
/// foreign is taken as a busy one, so it stops nobody and leaves no trace. 0; 10 the handle is
/// closed; 13 there is not one look for each thread; 14 there is not room for `MOST_ACTIONS`
/// actions and a judgement of each look. After another number than 0 nothing has changed, but that
/// `made` is 0.
#[unsafe(no_mangle)]
pub extern "C" fn caladan_pass_each(
    alloc: Global,
    handle: &mut Handle,
    now: u64,
    bandwidth: u64,
    looks: &[Found],
    judged: &mut [u8],
    actions: &mut [Told],
    made: &mut usize,
) -> u8
    ensures closed { is_some (scheduler_in handle.old) ≡ false → result ≡ refusal_number Closed }
    ensures passed { result ≡ 0 → ForSome (scheduler_in handle.old) (λ s.
        AfterOwn s.table s.book (λ h. IsSomeAnd (scheduler_in handle.new) (λ after.
        MadePass s h (input_of_each s.table h now bandwidth looks.now) after × AreTold after.made
        made.new actions.new))) }
    ensures judged { result ≡ 0 → ForSome (scheduler_in handle.old) (λ s.
        AfterOwn s.table s.book (λ h. AreSaid s.table.cores h looks.now judged.new)) }
    ensures wrong_count { ForSome (scheduler_in handle.old) (λ s.
        length looks.now ≢ threads_of_table s.table → result ≡ refusal_number WrongCount) }
    ensures no_room { ForSome (scheduler_in handle.old) (λ s.
        length looks.now ≡ threads_of_table s.table →
        IsShort (threads_of_table s.table) judged.old actions.old →
        result ≡ refusal_number NoRoom) }
    ensures answers { ForSome (scheduler_in handle.old) (λ s.
        length looks.now ≡ threads_of_table s.table →
        HasRoomToTell (threads_of_table s.table) judged.old actions.old → result ≡ 0) }
    ensures own { (result ≡ 0) ⊎ (result ≡ refusal_number Closed) ⊎
        (result ≡ refusal_number WrongCount) ⊎ (result ≡ refusal_number NoRoom) }
    ensures refused { result ≢ 0 → (handle.new.pointer.kept ≡ handle.old.pointer.kept)
        × (actions.new ≡ actions.old) × (judged.new ≡ judged.old) × (made.new ≡ 0) }
{
    *made = 0;
    did!(Scheduler: handle, alloc;
        kept => kept.pass_each_told(HandedIn { now, bandwidth, looks }, judged, actions);
        count => *made = count)
}

/// Which look a plain pass may not be given: 0 each fits; 15 one does not fit what its thread
/// showed before, or has not the right shape, and `thread` is the first such thread; 10 the handle
/// is closed; 13 there is not one look for each thread. Only 15 writes `thread`, and nothing else
/// changes.
#[unsafe(no_mangle)]
pub extern "C" fn caladan_first_unfit(
    alloc: Global,
    handle: &mut Handle,
    looks: &[Found],
    thread: &mut usize,
) -> u8
    ensures closed { is_some (scheduler_in handle.old) ≡ false → result ≡ refusal_number Closed }
    ensures first { result ≡ refusal_number Unfit → ForSome (scheduler_in handle.old) (λ s.
        AfterOwn s.table s.book (λ h. IsFirstUnfit h looks.now thread.new)) }
    ensures none { result ≡ 0 → ForSome (scheduler_in handle.old) (λ s.
        AfterOwn s.table s.book (λ h. AllFit h looks.now)) }
    ensures wrong_count { ForSome (scheduler_in handle.old) (λ s.
        length looks.now ≢ threads_of_table s.table → result ≡ refusal_number WrongCount) }
    ensures answers { ForSome (scheduler_in handle.old) (λ s.
        length looks.now ≡ threads_of_table s.table → (result ≡ 0) ⊎
        (result ≡ refusal_number Unfit)) }
    ensures other { result ≢ refusal_number Unfit → thread.new ≡ thread.old }
    ensures same { handle.new.pointer.kept ≡ handle.old.pointer.kept }
{
    asked!(Scheduler: handle, alloc; Refusal::Closed as u8;
        kept => first_unfit(kept.config(), kept.board(), looks);
        answer => match answer {
            Ok(None) => 0,
            Ok(Some(first)) => {
                *thread = first;
                Refusal::Unfit as u8
            }
            Err(refusal) => refusal.number(),
        })
}
