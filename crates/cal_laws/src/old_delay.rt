//! Records without suspended requests: their delay is that of the queue alone.

ghost use Rattle.cal_laws.specs.OldDelay.{DelaysAreOfQueues};

/// Where no look so far showed a suspended request, the delays of threads and tasks are those of
/// the queues alone: so the policy does on older signals what it did before there were suspended
/// requests.
pub fn delays_are_of_queues()
    ensures { DelaysAreOfQueues }
{}
