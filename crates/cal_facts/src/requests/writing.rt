//! The rows of the requests of a run.

ghost use Rattle.std.specs.Prelude.{◌≡◌, List, OnOk, Option};
ghost use Rattle.std.specs.Io.KnownBytes.{Appends};
ghost use Rattle.std.specs.List.{flat_map};
ghost use Rattle.cal_came.specs.declared.came.Came.{Came as CameOf};
ghost use Rattle.cal_facts.specs.Served.{AreServed};
ghost use Rattle.cal_facts.specs.RequestRows.{AreClocksTold, arrival_text, came_in};
ghost use Rattle.cal_facts.specs.RequestRows.{request_columns, request_line};
ghost use Rattle.cal_facts.specs.RequestRows.{served_text, text_of_requests};
ghost use Rattle.cal_facts.specs.declared.requests.served.Served.{Served as ServedOf};

use crate::cells::{Cell, task_in};
use crate::requests::served::{Served, ServedRequests};
use cal_came::clock_of;
use cal_machine::Config;
use cal_measure::{ArrivalClocks, run_end};
use cal_trace::{Arrival, Arrivals};
use std::io;
use std::io::Write;

/// A run of which the requests are told.
#[derive(Drop)]
pub(crate) struct RunRequests {
    /// Its table.
    pub(crate) config: Config,
    /// What its passes and turns were given.
    pub(crate) arrivals: Arrivals,
    /// When its requests came, where a file of comings says so.
    pub(crate) came: Option<ArrivalClocks>,
    /// What it served.
    pub(crate) served: ServedRequests,
}

/// Writes the columns and the rows of all requests of a run.
pub(crate) fn write_request_rows<W: Write>(run: &RunRequests, writer: &mut W) -> io::Result<()>
    ensures { (came : Option (List CameOf)) (all : List ServedOf) →
        AreClocksTold came run.now.came → AreServed all run.now.served →
        OnOk result (Appends (W.contents writer.old) (W.contents writer.new)
        (text_of_requests run.now.config run.now.arrivals came all)) }
{
    write_columns(writer)?;
    write_each_request(run, run.arrivals.requests.as_slice(), writer)
}

fn write_columns<W: Write>(writer: &mut W) -> io::Result<()>
    ensures { OnOk result (Appends (W.contents writer.old) (W.contents writer.new)
        request_columns) }
{
    writeln!(
        writer,
        "id,task,thread,arrived [ticks],work [turns],by thread,begun [ticks],\
         answered [ticks],worked [ticks],pending [ticks]"
    )
}

fn write_each_request<W: Write>(
    run: &RunRequests,
    requests: &[Arrival],
    writer: &mut W,
) -> io::Result<()>
    ensures { (came : Option (List CameOf)) (all : List ServedOf) →
        AreClocksTold came run.now.came → AreServed all run.now.served →
        OnOk result (Appends (W.contents writer.old) (W.contents writer.new)
        (flat_map (request_line run.now.config run.now.arrivals came all) requests.now)) }
{
    for arrival in requests {
        write_request(run, *arrival, writer)?;
    }
    Ok(())
}

/// When a request came.
fn came_in(run: &RunRequests, arrival: &Arrival) -> u64
    ensures { (came : Option (List CameOf)) → AreClocksTold came run.now.came →
        result ≡ came_in came run.now.arrivals.turns arrival.now }
{
    match &run.came {
        None => clock_of(run.arrivals.turns.as_slice(), arrival),
        Some(clocks) => clocks.of_request(arrival.request.id),
    }
}

/// Writes the row of a request.
fn write_request<W: Write>(run: &RunRequests, arrival: Arrival, writer: &mut W) -> io::Result<()>
    ensures { (came : Option (List CameOf)) (all : List ServedOf) →
        AreClocksTold came run.now.came → AreServed all run.now.served →
        OnOk result (Appends (W.contents writer.old) (W.contents writer.new)
        (request_line run.now.config run.now.arrivals came all arrival)) }
{
    let came = came_in(run, &arrival);
    write_arrival(&run.config, came, arrival, writer)?;
    let waits = run_end(&run.arrivals).saturating_sub(came);
    let served = run.served.of_request(arrival.request.id);
    write_served(waits, served, writer)
}

fn write_arrival<W: Write>(
    config: &Config,
    came: u64,
    arrival: Arrival,
    writer: &mut W,
) -> io::Result<()>
    ensures { OnOk result (Appends (W.contents writer.old) (W.contents writer.new)
        (arrival_text config.now came arrival)) }
{
    let (id, thread, work) = (arrival.request.id, arrival.thread, arrival.request.work);
    let task = Cell {
        number: task_in(config, thread),
    };
    write!(writer, "{id},{task},{thread},{came},{work}")
}

fn write_served<W: Write>(waits: u64, served: Option<Served>, writer: &mut W) -> io::Result<()>
    ensures { OnOk result (Appends (W.contents writer.old) (W.contents writer.new)
        (served_text waits served)) }
{
    match served {
        None => writeln!(writer, ",,,,,{waits}"),
        Some(served) => {
            let (thread, service) = (served.thread, served.service);
            let (begun, answered, worked) = (service.begun, service.answered, service.worked);
            writeln!(writer, ",{thread},{begun},{answered},{worked},")
        }
    }
}
