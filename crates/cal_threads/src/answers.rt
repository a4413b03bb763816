//! What the threads of the kernel threads answered.

ghost use Rattle.std.specs.Prelude.{◌≡◌, [], ◌∷◌, ◌++◌};
ghost use Rattle.cal_threads.specs.Promises.{MayGive};

use crate::gate::Gate;
use crate::kernel_threads::TurningThread;
use cal_machine::Past;
use cal_run::{CollectingWorker, SimFault};
use std::thread::Threads;

/// What each thread that was joined answered, in order. Contracts see the list, and nothing comes
/// into it but what a join gave.
#[derive(Drop)]
pub(crate) struct Answers {
    noted: Past<Result<CollectingWorker, SimFault>>,
}

impl Answers {
    /// None so far.
    pub(crate) fn none() -> Answers
        ensures { result.noted ≡ [] }
    {
        Answers {
            noted: Past::none(),
        }
    }

    /// Joins a thread, notes its answer and hands it on.
    pub(crate) fn join<'a, G: Gate>(
        &mut self,
        rt: &impl Threads,
        thread: TurningThread<'a, G>,
    ) -> Result<CollectingWorker, SimFault>
        ensures noted { self.new.noted ≡ self.old.noted ++ result ∷ [] }
        ensures kept { MayGive G.answers_turn thread.entry.promise result }
    {
        self.noted.add(thread.join(rt))
    }
}
