//! The requests that the threads of a run served, by their names.

ghost use Rattle.std.specs.Prelude.{◌≡◌, ◌++◌, ℕ, [], List, IfOk, OnOk, map};
ghost use Rattle.cal_kthread.specs.declared.journal.entry.Entry.{Entry};
ghost use Rattle.cal_measure.specs.ThreadWork.{AreTotalsOfEach};
ghost use Rattle.cal_facts.specs.Served.{AreServed, served_by, served_from, service_of};
ghost use Rattle.cal_facts.specs.declared.requests.served.Served.{Served as ServedOf};

use cal_measure::{Service, ThreadTotals};
use std::alloc::{AllocError, Global};
use std::collections::HashMap;

/// A request that was served.
#[derive(Clone, Copy, Debug, PartialEq, Eq)]
pub struct Served {
    /// The thread that served it.
    pub thread: usize,
    /// What came of it.
    pub service: Service,
}

/// What came of each request that was served, by its name.
#[derive(Drop)]
pub struct ServedRequests {
    by_id: HashMap<u64, Served>,
}

impl ServedRequests {
    /// No request served yet.
    fn none(alloc: Global) -> ServedRequests
        ensures { AreServed [] result }
    {
        ServedRequests {
            by_id: HashMap::new(alloc),
        }
    }

    /// Takes those that a thread served. Fails only when out of memory.
    fn put_thread(&mut self, thread: usize, services: &[Service]) -> Result<(), AllocError>
        ensures { OnOk result ((all : List ServedOf) → AreServed all self.old →
            AreServed (all ++ map (served_by thread) services.now) self.new) }
    {
        for service in services {
            let served = Served {
                thread,
                service: *service,
            };
            self.by_id.insert(service.id, served)?;
        }
        Ok(())
    }

    /// Those of threads whose turns came to this, in thread order. Fails only when out of memory.
    pub fn of(alloc: Global, threads: &[ThreadTotals]) -> Result<ServedRequests, AllocError>
        ensures { IfOk result (λ served. (last : ℕ) (journals : List (List Entry)) →
            AreTotalsOfEach last journals threads.now →
            AreServed (served_from last 0 journals) served) }
    {
        let mut served = ServedRequests::none(alloc);
        for thread in 0..threads.len() {
            served.put_thread(thread, threads[thread].services.as_slice())?;
        }
        Ok(served)
    }

    /// What came of the request of this name, where it was served.
    pub fn of_request(&self, id: u64) -> Option<Served>
        ensures { (all : List ServedOf) → AreServed all self.now → result ≡ service_of all id }
    {
        match self.by_id.get(&id) {
            Some(served) => Some(*served),
            None => None,
        }
    }
}
