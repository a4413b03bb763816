//! The best of several.

ghost use Rattle.std.specs.Prelude.{◌≡◌, ◌+◌, ◌<◌, nat_lt};
ghost use Rattle.std.specs.Option.{IfSome};
ghost use Rattle.cal_policy.specs.History.CoreClasses.{comes_before};
ghost use Rattle.cal_policy.specs.Pass.Choice.{better};

use crate::history::core_class::CoreClass;

/// One of several, with its rank.
#[derive(Clone, Copy, Debug, PartialEq, Eq)]
pub struct Candidate<R> {
    pub rank: R,
    pub number: u8,
}

/// The candidate so far, unless the next has a greater rank.
pub fn greater(
    best: Option<Candidate<u128>>,
    rank: Option<u128>,
    number: u8,
) -> Option<Candidate<u128>>
    requires { IfSome best (λ old. old.number < number) }
    ensures better { result ≡ better (λ rank best. nat_lt best rank) best rank number }
    ensures below { IfSome result (λ new. new.number < number + 1) }
{
    let Some(rank) = rank else { return best };
    match best {
        Some(old) if rank <= old.rank => Some(old),
        _ => Some(Candidate { rank, number }),
    }
}

/// The candidate so far, unless the class of the next comes before its own.
pub fn first_class(
    best: Option<Candidate<CoreClass>>,
    class: Option<CoreClass>,
    number: u8,
) -> Option<Candidate<CoreClass>>
    requires { IfSome best (λ old. old.number < number) }
    ensures better { result ≡ better comes_before best class number }
    ensures below { IfSome result (λ new. new.number < number + 1) }
{
    let Some(rank) = class else { return best };
    match best {
        Some(old) if old.rank.number() <= rank.number() => Some(old),
        _ => Some(Candidate { rank, number }),
    }
}
