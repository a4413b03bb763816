//! Which policy chooses the actions of a pass.

ghost use Rattle.std.specs.Prelude.{◌≡◌, Some};
ghost use Rattle.cal_policy.specs.Policies.{policy_name, policy_named};

/// Which policy chooses the actions of a pass. Each goes by the same table, looks and state.
#[derive(Clone, Copy, Debug, PartialEq, Eq)]
pub enum Policy {
    /// After Caladan's core allocator and its controllers.
    Caladan,
    /// The same with a guarantee that is given: a latency-critical task that goes on waiting below
    /// its guarantee is granted a core at the latest as many passes later as threads take to leave,
    /// if no ring is full.
    Assured,
}

impl Policy {
    /// Its name, as a word.
    pub fn name(self) -> &'static str
        ensures name { result.now ≡ policy_name self }
        ensures found { policy_named result.now ≡ Some self }
    {
        match self {
            Policy::Caladan => "caladan",
            Policy::Assured => "assured",
        }
    }

    /// The policy of this name, if there is one.
    pub fn named(name: &str) -> Option<Policy>
        ensures { result ≡ policy_named name.now }
    {
        if name == "caladan" {
            return Some(Policy::Caladan);
        }
        if name == "assured" {
            return Some(Policy::Assured);
        }
        None
    }
}
