//! From when the requests of arrivals are to count, and which of them are to be ranked.

ghost use Rattle.std.specs.Prelude.{◌≡◌, IfErr, IfOk, IfSome, None, Some, map};
ghost use Rattle.std.specs.List.{list_any};
ghost use Rattle.cal_came.specs.Asked.{IsCountFault, IsCountedAs, came_by, come_at, comings_asked};
ghost use Rattle.cal_came.specs.Asked.{counted_asked, has_requests, is_asked, is_windowed};
ghost use Rattle.cal_came.specs.Asked.{window_asked};
ghost use Rattle.cal_came.specs.Windows.{is_within};
ghost use Rattle.cal_trace.specs.Rows.Answers.{IsWhatRowsSay};

use crate::came::{Came, each_own};
use crate::counted::Counted;
use crate::window::{Window, is_within};
use cal_machine::{Config, Listed};
use cal_trace::{Arrivals, Coming, Comings, FaultKind, TraceFault, read_comings};
use std::alloc::{AllocError, Global};
use std::fmt;

/// A file of comings.
#[derive(Clone, Copy)]
pub struct CameFile<'a> {
    /// Its bytes.
    pub text: &'a [u8],
}

/// From when requests are to count, and which of them are to be ranked.
#[derive(Clone, Copy)]
pub struct CountAsked<'a> {
    /// The file of when they came; without it each came to its own turn.
    pub came: Option<CameFile<'a>>,
    /// The first turn of those to which they are to have come; without it, that is turn 0.
    pub from: Option<u64>,
    /// The turn after the last of these; without it, they go to the end of the run.
    pub to: Option<u64>,
}

impl CountAsked<'_> {
    /// Each request from its own turn, and all of them ranked.
    pub const NONE: CountAsked<'static> = CountAsked {
        came: None,
        from: None,
        to: None,
    };
}

/// Why requests cannot be counted so.
#[derive(Clone, Copy, Debug, PartialEq, Eq)]
pub enum CountFault {
    /// Memory was refused.
    Memory,
    /// The file of when they came is refused.
    Came(TraceFault),
    /// None came to the turns.
    NoRequests,
}

impl fmt::Display for CountFault {
    fn fmt<W: fmt::Write>(&self, f: &mut fmt::Formatter<W>) -> fmt::Result {
        match *self {
            CountFault::Memory => f.write_str("out of memory"),
            CountFault::Came(fault) => write!(f, "{fault}"),
            CountFault::NoRequests => f.write_str(
                "no request came within the turns of --from and --to",
            ),
        }
    }
}

impl From<AllocError> for CountFault {
    ghost use Rattle.cal_came.specs.declared.asked.CountFault.TheVariants.{Memory};

    ghost from_gives = { λ _ e. e ≡ Memory };

    fn from(_e: AllocError) -> CountFault {
        CountFault::Memory
    }
}

/// From when the requests of arrivals count, and which of them are ranked; and the comings by which
/// this is known, where there is a file of them.
#[derive(Drop)]
pub struct CountedRequests {
    /// The comings.
    pub comings: Option<Comings>,
    /// From when they count, and which are ranked.
    pub counted: Counted,
}

/// The comings of a file for arrivals that are given for a table, where there is one. The fault is
/// that of the file.
pub fn comings_asked(
    alloc: Global,
    config: &Config,
    arrivals: &Arrivals,
    came: Option<CameFile<'_>>,
) -> Result<Option<Comings>, TraceFault>
    ensures { IsWhatRowsSay (λ comings. comings) result
        (comings_asked came.entry config.now arrivals.now) }
{
    match came {
        None => Ok(None),
        Some(file) => Ok(Some(read_comings(alloc, config, arrivals, file.text)?)),
    }
}

/// How a request came, by its coming.
fn come_at(turns: &[u64], coming: &Coming) -> Came
    ensures { result ≡ come_at turns.now coming.now }
{
    let clock = match turns.get(coming.turn as usize) {
        Some(clock) => *clock,
        None => 0,
    };
    Came {
        id: coming.arrival.request.id,
        turn: coming.turn,
        clock,
    }
}

/// How requests came, by their comings. Fails only when out of memory.
fn each_come_at(alloc: Global, turns: &[u64], comings: &[Coming]) -> Result<Vec<Came>, AllocError>
    ensures { IfOk result (λ came. came.items ≡ map (come_at turns.now) comings.now) }
{
    let mut came = Vec::new(alloc);
    for coming in comings {
        came.push(come_at(turns, coming))?;
    }
    Ok(came)
}

/// How the requests of arrivals came: by their comings, or each to its own turn. Fails only when out
/// of memory.
fn came_by(
    alloc: Global,
    arrivals: &Arrivals,
    comings: &Option<Comings>,
) -> Result<Vec<Came>, AllocError>
    ensures { IfOk result (λ came. came.items ≡ came_by arrivals.now comings.now) }
{
    match comings {
        None => each_own(alloc, arrivals),
        Some(comings) => each_come_at(
            alloc,
            arrivals.turns.as_slice(),
            comings.requests.as_slice(),
        ),
    }
}

/// The window of the turns asked for.
fn window_asked(asked: CountAsked<'_>) -> Window
    ensures { result ≡ window_asked asked.entry }
{
    Window {
        from: asked.from.unwrap_or(0),
        to: asked.to,
    }
}

/// Whether some of these came to a turn within a window.
fn is_some_within(window: Window, came: &[Came]) -> bool
    ensures { result ≡ list_any (λ one. is_within window one.turn) came.now }
{
    for one in came {
        if is_within(window, one.turn) {
            return true;
        }
    }
    false
}

/// Whether a file or turns are asked for; else each request counts from its own turn, and all are
/// ranked.
pub fn is_asked(asked: CountAsked<'_>) -> bool
    ensures { result ≡ is_asked asked.entry }
{
    asked.came.is_some() || is_windowed(asked)
}

/// Whether turns are asked for.
fn is_windowed(asked: CountAsked<'_>) -> bool
    ensures { result ≡ is_windowed asked.entry }
{
    asked.from.is_some() || asked.to.is_some()
}

/// Whether some of these came within a window, where turns are asked for.
fn has_requests(asked: CountAsked<'_>, window: Window, came: &[Came]) -> bool
    ensures { result ≡ has_requests asked.entry window came.now }
{
    !is_windowed(asked) || is_some_within(window, came)
}

/// From when requests count that came so, and which of them are ranked; none where turns are asked
/// for to which none came.
fn counted_asked(came: Vec<Came>, asked: CountAsked<'_>) -> Option<Counted>
    ensures { result ≡ counted_asked came.items asked.entry }
{
    let window = window_asked(asked);
    if !has_requests(asked, window, came.as_slice()) {
        return None;
    }
    Some(Counted {
        came: Listed::new(came),
        window,
    })
}

/// From when the requests of arrivals for a table count, and which of them are ranked, as it is asked
/// for.
///
/// The fault is that of the file, or else that no request came within the turns. `Memory` may come
/// at any place.
pub fn counted_requests(
    alloc: Global,
    config: &Config,
    arrivals: &Arrivals,
    asked: CountAsked<'_>,
) -> Result<CountedRequests, CountFault>
    ensures counted { IfOk result (IsCountedAs asked.entry config.now arrivals.now) }
    ensures fault { IfErr result (IsCountFault asked.entry config.now arrivals.now) }
{
    let comings = match comings_asked(alloc, config, arrivals, asked.came) {
        Ok(comings) => comings,
        Err(fault) if fault.kind == FaultKind::Memory => return Err(CountFault::Memory),
        Err(fault) => return Err(CountFault::Came(fault)),
    };
    let came = came_by(alloc, arrivals, &comings)?;
    match counted_asked(came, asked) {
        Some(counted) => Ok(CountedRequests { comings, counted }),
        None => Err(CountFault::NoRequests),
    }
}
