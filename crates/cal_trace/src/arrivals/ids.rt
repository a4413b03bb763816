//! The ids of requests, by which it is seen that none comes again.

ghost use Rattle.std.specs.Prelude.{◌≡◌, ◌++◌, ◌∷◌, [], false, true, not, IfErr, IfOk, OnOk};
ghost use Rattle.cal_trace.specs.Arrivals.{is_given};
ghost use Rattle.cal_trace.specs.Arrivals.Ids.{AreIdsOf};
ghost use Rattle.cal_trace.specs.declared.arrivals.Arrival.{Arrival};
ghost use Rattle.cal_trace.specs.declared.fault.FaultKind.TheVariants.{Memory};

use crate::arrivals::Arrival;
use crate::fault::FaultKind;
use std::alloc::Global;
use std::collections::BTreeSet;

/// The ids of some requests, which are all different. Files mostly number their requests in order:
/// as long as each id is above those before it, none is kept but a bound above them.
#[derive(Drop)]
pub(crate) struct Ids {
    /// Whether each was above those before it.
    rising: bool,
    /// Above all of them, while they rise.
    bound: u128,
    /// All of them, once one did not rise.
    known: BTreeSet<u64>,
}

impl Ids {
    /// Those of no request.
    pub(crate) fn new(alloc: Global) -> Ids
        ensures { AreIdsOf result [] }
    {
        Ids {
            rising: true,
            bound: 0,
            known: BTreeSet::new(alloc),
        }
    }

    /// Puts all of them into the set, where they rose so far.
    fn list(&mut self, requests: &[Arrival]) -> Result<(), FaultKind>
        requires { AreIdsOf self.old requests.now }
        ensures ids { OnOk result (AreIdsOf self.new requests.now) }
        ensures listed { OnOk result (self.new.rising ≡ false) }
        ensures memory { IfErr result (λ fault. fault ≡ Memory) }
    {
        if !self.rising {
            return Ok(());
        }
        for one in requests {
            self.known.insert(one.request.id)?;
        }
        self.rising = false;
        Ok(())
    }

    /// Adds the id of one more request to those of these, unless one of them has it already; then it
    /// answers false. Fails only when out of memory.
    pub(crate) fn insert(&mut self, requests: &[Arrival], id: u64) -> Result<bool, FaultKind>
        requires { AreIdsOf self.old requests.now }
        ensures new { IfOk result (λ new. new ≡ not (is_given id requests.now)) }
        ensures added { IfOk result (λ new. new ≡ true → (one : Arrival) → one.request.id ≡ id →
            AreIdsOf self.new (requests.now ++ one ∷ [])) }
        ensures memory { IfErr result (λ fault. fault ≡ Memory) }
    {
        if self.rising && self.bound <= u128::from(id) {
            self.bound = u128::from(id) + 1;
            return Ok(true);
        }
        self.list(requests)?;
        Ok(self.known.insert(id)?)
    }
}
