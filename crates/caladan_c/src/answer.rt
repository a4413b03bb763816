//! What a call answers: 0, a fault of the table (1 to 9), a refusal or a finding. 12 is unused.

ghost use Rattle.std.specs.Prelude.{◌≡◌};
ghost use Rattle.caladan_c.specs.Answer.{refusal_number};
ghost use Rattle.caladan_c.specs.declared.answer.Refusal.TheVariants.{Memory, Unfit};

use cal_policy::LookFault;
use std::alloc::AllocError;

/// Why a call did nothing. `refusal as u8` is its number.
#[derive(Clone, Copy)]
pub enum Refusal {
    /// Memory was refused.
    Memory = 9,
    /// The handle is closed.
    Closed = 10,
    /// The handle is open.
    Open = 11,
    /// There is not one look for each thread.
    WrongCount = 13,
    /// There is too little room for what the call is to write.
    NoRoom = 14,
    /// A look does not fit what its thread showed before, or has not the right shape.
    Unfit = 15,
    /// The table has no such core, task or thread.
    NoSuch = 16,
    /// An action is none: its kind, or its cause, is no number of one.
    NoAction = 17,
    /// A number is no judgement of its look.
    NoJudgement = 19,
    /// No record of the thread's page can say any more that it left: `caladan_gone`.
    Lost = 21,
    /// No policy has this number.
    NoPolicy = 22,
}

/// What a call found wrong in what it was given. `finding as u8` is its number.
#[derive(Clone, Copy)]
pub enum Finding {
    /// An action is not permitted at its place.
    Stopped = 18,
    /// A recorded pass is not legal.
    Illegal = 20,
}

impl Refusal {
    /// Its number, never 0: 0 means that the call did what it was asked.
    pub fn number(self) -> u8
        ensures { result ≡ refusal_number self }
    {
        self as u8
    }
}

impl From<AllocError> for Refusal {
    ghost from_gives = { λ _ e. e ≡ Memory };

    fn from(_e: AllocError) -> Refusal {
        Refusal::Memory
    }
}

impl From<LookFault> for Refusal {
    ghost from_gives = { λ _ e. e ≡ Unfit };

    fn from(_why: LookFault) -> Refusal {
        Refusal::Unfit
    }
}
