//! A pass that C recorded, read back.

ghost use Rattle.std.specs.Prelude.{◌≡◌, ◌≢◌, ◌⊎◌, ℕ, IfOk, IfErr, length, map, List, Err, Some};
ghost use Rattle.std.specs.Prelude.{None};
ghost use Rattle.std.specs.Option.{IfSome};
ghost use Rattle.cal_policy.specs.History.Looks.{look_of};
ghost use Rattle.cal_policy.specs.declared.history.look.Seen.{Seen};
ghost use Rattle.cal_policy.specs.declared.history.action.Action.{Action};
ghost use Rattle.cal_policy.specs.declared.history.action.Action.TheVariants.{Revoke};
ghost use Rattle.cal_policy.specs.declared.history.action.Cause.{Cause};
ghost use Rattle.caladan_c.specs.declared.answer.Refusal.TheVariants.{Memory, NoAction};
ghost use Rattle.caladan_c.specs.declared.answer.Refusal.TheVariants.{NoJudgement, WrongCount};
ghost use Rattle.caladan_c.specs.Found.{look_of_found};
ghost use Rattle.caladan_c.specs.Recorded.{IsToldOf, AreNoJudgements, AreNoActions, room_in};
ghost use Rattle.caladan_c.specs.Told.{judgement_of, told_of};

use crate::answer::Refusal;
use crate::found::{Found, found_look};
use crate::handed_in::HandedIn;
use crate::told::{Told, tell};
use cal_policy::{Action, ActionList, Cause, Input, PassEntry, Rooms, Seen, SeenList};
use cal_signal::Look;
use std::alloc::{AllocError, Global};

/// The look with what was judged of it, where that number is a judgement of such a look.
fn seen_of(found: &Found, judged: u8) -> Option<Seen>
    ensures some { IfSome result (λ seen. (look_of seen ≡ look_of_found found.now) ×
        (judgement_of seen ≡ judged)) }
    ensures none { result ≡ None → (seen : Seen) → look_of seen ≡ look_of_found found.now →
        judgement_of seen ≡ judged → ⊥ }
{
    match found_look(found).look {
        Look::Busy { first, second } => match judged {
            2 => Some(Seen::Busy { first, second }),
            _ => None,
        },
        Look::Whole { number, rec } => match judged {
            1 => Some(Seen::Whole { number, rec }),
            3 => Some(Seen::Ahead { number, rec }),
            4 => Some(Seen::Foreign { number, rec }),
            _ => None,
        },
    }
}

/// The judged looks.
fn seen_in(alloc: Global, looks: &[Found], judged: &[u8]) -> Result<SeenList, Refusal>
    requires { length looks.now ≡ length judged.now }
    ensures looks { IfOk result (λ seen. map look_of seen ≡ map look_of_found looks.now) }
    ensures judged { IfOk result (λ seen. map judgement_of seen ≡ judged.now) }
    ensures none { result ≡ Err NoJudgement → AreNoJudgements looks.now judged.now }
    ensures why { IfErr result (λ why. (why ≡ NoJudgement) ⊎ (why ≡ Memory)) }
{
    let mut seen = Vec::with_capacity(alloc, looks.len())?;
    for (k, one) in looks.iter().enumerate() {
        match seen_of(one, judged[k]) {
            Some(look) => {
                if let Err(e) = seen.push(look) {
                    return Err(AllocError::from(e).into());
                }
            }
            None => return Err(Refusal::NoJudgement),
        }
    }
    Ok(SeenList::new(seen))
}

/// Whether its ring had room.
fn had_room(found: &Found) -> bool
    ensures { result ≡ room_in found.now }
{
    found.room != 0
}

/// Which rings had room.
fn rooms_in(alloc: Global, looks: &[Found]) -> Result<Rooms, AllocError>
    ensures { IfOk result (λ rooms. rooms ≡ map room_in looks.now) }
{
    let mut rooms = Vec::with_capacity(alloc, looks.len())?;
    for one in looks {
        rooms.push(had_room(one))?;
    }
    Ok(Rooms::new(rooms))
}

/// The cause of a revocation.
fn cause_in(told: &Told) -> Option<Cause>
    ensures { (cause : Cause) (core : ℕ) → told_of (Revoke core cause) ≡ told.now →
        result ≡ Some cause }
{
    match told.cause {
        1 => Some(Cause::Ban { by: told.by }),
        2 => Some(Cause::Bandwidth),
        3 => Some(Cause::Preempt { task: told.task }),
        _ => None,
    }
}

/// The action that is told so, if any is.
fn named_in(told: &Told) -> Option<Action>
    ensures { (action : Action) → told_of action ≡ told.now → result ≡ Some action }
{
    match told.kind {
        1 => Some(Action::Free { core: told.core }),
        2 => Some(Action::Unban { core: told.core }),
        3 => Some(Action::Ban {
            core: told.core,
            thread: told.thread,
            started: told.started,
        }),
        4 => match cause_in(told) {
            Some(cause) => Some(Action::Revoke {
                core: told.core,
                cause,
            }),
            None => None,
        },
        5 => Some(Action::Cap {
            task: told.task,
            cap: told.cap,
        }),
        6 => Some(Action::Grant {
            core: told.core,
            thread: told.thread,
            class: told.class,
        }),
        _ => None,
    }
}

/// The action that is told so, where what its kind does not name is 0.
fn action_in(told: &Told) -> Option<Action>
    ensures some { IfSome result (λ action. told_of action ≡ told.now) }
    ensures none { result ≡ None → (action : Action) → told_of action ≡ told.now → ⊥ }
{
    match named_in(told) {
        Some(action) => {
            if tell(action) == *told {
                Some(action)
            } else {
                None
            }
        }
        None => None,
    }
}

/// Reads the actions into a list that is used again. It takes memory only where that has too little
/// room.
pub fn read_actions(actions: &mut Vec<Action>, told: &[Told]) -> Result<(), Refusal>
    ensures actions { IfOk result (λ _. map told_of actions.new.items ≡ told.now) }
    ensures none { result ≡ Err NoAction → AreNoActions told.now }
    ensures why { IfErr result (λ why. (why ≡ NoAction) ⊎ (why ≡ Memory)) }
{
    actions.clear();
    for one in told {
        match action_in(one) {
            Some(action) => {
                if let Err(e) = actions.push(action) {
                    return Err(AllocError::from(e).into());
                }
            }
            None => return Err(Refusal::NoAction),
        }
    }
    Ok(())
}

/// The actions of one recorded pass, in a list of their own.
fn actions_in(alloc: Global, told: &[Told]) -> Result<ActionList, Refusal>
    ensures actions { IfOk result (λ actions. map told_of actions ≡ told.now) }
    ensures none { result ≡ Err NoAction → AreNoActions told.now }
    ensures why { IfErr result (λ why. (why ≡ NoAction) ⊎ (why ≡ Memory)) }
{
    let mut actions = Vec::with_capacity(alloc, told.len())?;
    read_actions(&mut actions, told)?;
    Ok(ActionList::new(actions))
}

/// The pass that was recorded.
pub fn entry_of(
    alloc: Global,
    given: HandedIn<'_>,
    judged: &[u8],
    told: &[Told],
) -> Result<PassEntry, Refusal>
    ensures recorded { IfOk result (IsToldOf given.entry.now given.entry.bandwidth
        given.entry.looks.now judged.now told.now) }
    ensures no_judgement { result ≡ Err NoJudgement →
        AreNoJudgements given.entry.looks.now judged.now }
    ensures no_action { result ≡ Err NoAction → AreNoActions told.now }
    ensures wrong_count { length given.entry.looks.now ≢ length judged.now →
        result ≡ Err WrongCount }
    ensures answers { length given.entry.looks.now ≡ length judged.now →
        IfErr result (λ why. (why ≡ NoJudgement) ⊎ (why ≡ NoAction) ⊎ (why ≡ Memory)) }
    ensures why { IfErr result (λ why. (why ≡ WrongCount) ⊎ (why ≡ NoJudgement) ⊎
        (why ≡ NoAction) ⊎ (why ≡ Memory)) }
{
    if given.looks.len() != judged.len() {
        return Err(Refusal::WrongCount);
    }
    let seen = seen_in(alloc, given.looks, judged)?;
    let rooms = rooms_in(alloc, given.looks)?;
    let actions = actions_in(alloc, told)?;
    Ok(PassEntry {
        input: Input {
            now: given.now,
            bandwidth: given.bandwidth,
            seen,
            rooms,
        },
        actions,
    })
}
