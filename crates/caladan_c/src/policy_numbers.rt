//! A policy as a number.

ghost use Rattle.std.specs.Prelude.{◌≡◌};
ghost use Rattle.caladan_c.specs.PolicyNumbers.{policy_numbered};

use cal_policy::Policy;

/// The policy of this number, if there is one.
pub fn policy_numbered(number: u32) -> Option<Policy>
    ensures { result ≡ policy_numbered number }
{
    match number {
        0 => Some(Policy::Caladan),
        1 => Some(Policy::Assured),
        _ => None,
    }
}
