//! Looks taken one by one: why a look is refused, and what is taken in its place.

ghost use Rattle.std.specs.Prelude.{◌≡◌, if◌then◌else◌};
ghost use Rattle.std.specs.Option.{is_some};
ghost use Rattle.cal_policy.specs.Judgement.OneByOne as rules;

use crate::history::look::Seen;
use crate::judgement::look_fault::LookFault;
use crate::judgement::open_input::FoundLook;
use cal_signal::{Look, Record, Shown, is_busy_pair, may_follow, shaped};

/// Why a record at this place does not fit what its thread showed last.
fn misfit_of_record(last: &Shown, number: u64, rec: Record) -> Option<LookFault>
    ensures { result ≡ rules.misfit_of_record last.now number rec }
{
    if !shaped(&rec) {
        return Some(LookFault::Misshapen);
    }
    let next = Shown { number, rec };
    if may_follow(last, &next) {
        return None;
    }
    if number < last.number {
        Some(LookFault::PlaceFell)
    } else if number == last.number {
        Some(LookFault::Changed)
    } else {
        Some(LookFault::WordFell)
    }
}

/// Why a look does not fit what its thread showed last.
pub fn misfit_of(last: &Shown, look: Look) -> Option<LookFault>
    ensures { result ≡ rules.misfit_of last.now look }
{
    match look {
        Look::Busy { first, second } => {
            if is_busy_pair(first, second) {
                None
            } else {
                Some(LookFault::NoPair)
            }
        }
        Look::Whole { number, rec } => misfit_of_record(last, number, rec),
    }
}

/// Why a judged look is not kept, if that is its thread's doing.
pub fn fault_judged(seen: Seen) -> Option<LookFault>
    ensures { result ≡ rules.fault_judged seen }
{
    match seen {
        Seen::Whole { .. } | Seen::Busy { .. } => None,
        Seen::Ahead { .. } => Some(LookFault::Ahead),
        Seen::Foreign { .. } => Some(LookFault::Foreign),
    }
}

/// What is taken of what was found: as it is, or where it is refused a busy look with the same
/// room.
pub fn taken_of(found: FoundLook, fault: Option<LookFault>) -> FoundLook
    ensures look { result.look ≡ (if is_some fault then rules.refused_look else found.look) }
    ensures room { result.room ≡ found.room }
{
    match fault {
        None => found,
        Some(_) => FoundLook {
            look: Look::Busy {
                first: 1,
                second: 1,
            },
            room: found.room,
        },
    }
}
