//! The classes of cores, by which the core that a task is to have is chosen.

ghost use Rattle.std.specs.Prelude.{◌≡◌, ◌≢◌};
ghost use Rattle.std.specs.Option.{MatchOption};
ghost use Rattle.cal_policy.specs.History.CoreClasses as classes;
ghost use Rattle.cal_policy.specs.History.CoreClasses.{class_number};

/// What a core is to a task that is to have one more, the best first. (The classes are Doranjei's.)
#[derive(Clone, Copy, Debug, PartialEq, Eq)]
pub enum CoreClass {
    /// It is idle, beside a core that the task holds.
    Sibling,
    /// It is idle, and was last granted to the task.
    RecentlyUsed,
    /// It is idle, and neither of these.
    OtherIdle,
    /// A best-effort task holds it.
    BestEffortBurstable,
    /// A latency-critical task holds it that is over its guarantee.
    LatencyCriticalBurstable,
}

impl CoreClass {
    /// Its number in files and reports.
    pub fn number(self) -> u8
        ensures { result ≡ class_number self }
    {
        match self {
            CoreClass::Sibling => 1,
            CoreClass::RecentlyUsed => 2,
            CoreClass::OtherIdle => 3,
            CoreClass::BestEffortBurstable => 4,
            CoreClass::LatencyCriticalBurstable => 5,
        }
    }

    /// The class of this number, if any has it.
    pub fn from_number(number: u64) -> Option<CoreClass>
        ensures { MatchOption result ((class : CoreClass) → class_number class ≢ number)
            (λ class. class_number class ≡ number) }
    {
        match number {
            1 => Some(CoreClass::Sibling),
            2 => Some(CoreClass::RecentlyUsed),
            3 => Some(CoreClass::OtherIdle),
            4 => Some(CoreClass::BestEffortBurstable),
            5 => Some(CoreClass::LatencyCriticalBurstable),
            _ => None,
        }
    }

    /// Whether the core is nobody's: then it is granted, and else revoked for the task.
    pub fn is_idle(self) -> bool
        ensures { result ≡ classes.is_idle self }
    {
        match self {
            CoreClass::Sibling | CoreClass::RecentlyUsed | CoreClass::OtherIdle => true,
            CoreClass::BestEffortBurstable | CoreClass::LatencyCriticalBurstable => false,
        }
    }
}
