//! Why an engine gave no answer, what the program says of it, and its exit status.

ghost use Rattle.std.specs.Prelude.{◌≡◌, Some, OnOk};
ghost use Rattle.std.specs.Io.KnownBytes.{Appends};
ghost use Rattle.cal_input.specs.Faults.{fault_line_as, fault_line_of, status_of};

use cal_machine::ConfigFault;
use cal_run::SimFault;
use cal_trace::{FaultKind, TraceFault, WriteFault};
use std::alloc::{AllocError, AllocFailed};
use std::error::Error;
use std::fmt;
use std::io::Write;

/// Why a run gave no answer (docs/FORMATS.md has the faults' lines and statuses).
#[derive(Clone, Copy, Debug, PartialEq, Eq)]
pub enum RunFault {
    /// The reader returned an error.
    Read,
    /// The input has more than 67,108,864 bytes.
    Length,
    /// No line of the input is the separator.
    Separator,
    /// The part before the separator is not a task table.
    Config(ConfigFault),
    /// The part after the separator is not the trace that was asked for.
    Trace(TraceFault),
    /// Memory was refused.
    Memory,
    /// The writer returned an error.
    Write,
    /// A thread could not be started. Only a run in threads answers it.
    Spawn,
    /// A gate ended a worker. No engine answers it: the gate of its runs lets everything through.
    Gate,
}

ghost use Rattle.cal_input.specs.Faults.{config_number_of, folded_of, trace_number_of};

/// The same fault; of a part that memory was refused to, `Memory`.
fn folded(fault: &RunFault) -> RunFault
    ensures { result ≡ folded_of fault.now }
{
    match fault {
        RunFault::Config(ConfigFault::Memory) => RunFault::Memory,
        RunFault::Trace(
            TraceFault {
                row: _,
                kind: FaultKind::Memory,
            },
        ) => RunFault::Memory,
        fault => *fault,
    }
}

/// The reason as the program names it, without the program's name.
impl fmt::Display for RunFault {
    ghost use Rattle.cal_input.specs.Faults.{reason_of};

    ghost output = { λ fault. Some (reason_of fault) };

    fn fmt<W: fmt::Write>(&self, f: &mut fmt::Formatter<W>) -> fmt::Result {
        match folded(self) {
            RunFault::Read => f.write_str("input read"),
            RunFault::Length => f.write_str("input length"),
            RunFault::Separator => f.write_str("no separator"),
            RunFault::Config(fault) => write!(f, "config {}", config_number(fault)),
            RunFault::Trace(fault) => {
                write!(
                    f,
                    "trace row {} fault {}",
                    fault.row,
                    trace_number(fault.kind)
                )
            }
            RunFault::Memory => f.write_str("memory"),
            RunFault::Write => f.write_str("write"),
            RunFault::Spawn => f.write_str("spawn"),
            RunFault::Gate => f.write_str("gate"),
        }
    }
}

impl Error for RunFault {}

fn config_number(fault: ConfigFault) -> u8
    ensures { result ≡ config_number_of fault }
{
    fault as u8
}

fn trace_number(kind: FaultKind) -> u8
    ensures { result ≡ trace_number_of kind }
{
    kind as u8
}

impl From<AllocError> for RunFault {
    ghost use Rattle.cal_input.specs.declared.fault.RunFault.TheVariants.{Memory};

    ghost from_gives = { λ _ e. e ≡ Memory };

    fn from(_e: AllocError) -> RunFault {
        RunFault::Memory
    }
}

impl<T: Drop> From<AllocFailed<T>> for RunFault {
    ghost use Rattle.cal_input.specs.declared.fault.RunFault.TheVariants.{Memory};

    ghost from_gives = { λ _ e. e ≡ Memory };

    fn from(_e: AllocFailed<T>) -> RunFault {
        RunFault::Memory
    }
}

impl From<ConfigFault> for RunFault {
    ghost use Rattle.cal_input.specs.declared.fault.RunFault.TheVariants.{Config};

    ghost from_gives = { λ fault e. e ≡ Config fault };

    fn from(fault: ConfigFault) -> RunFault {
        RunFault::Config(fault)
    }
}

impl From<TraceFault> for RunFault {
    ghost use Rattle.cal_input.specs.declared.fault.RunFault.TheVariants.{Trace};

    ghost from_gives = { λ fault e. e ≡ Trace fault };

    fn from(fault: TraceFault) -> RunFault {
        RunFault::Trace(fault)
    }
}

impl From<SimFault> for RunFault {
    ghost use Rattle.cal_input.specs.Faults.{fault_of_run};

    ghost from_gives = { λ fault e. e ≡ fault_of_run fault };

    fn from(fault: SimFault) -> RunFault {
        match fault {
            SimFault::Memory => RunFault::Memory,
            SimFault::Spawn => RunFault::Spawn,
            SimFault::Gate => RunFault::Gate,
        }
    }
}

/// Writes the one line that caladan_sim says of a fault: its name, the reason, and a line feed.
///
/// `WriteFault::Write` comes if the writer returns an error. It takes no memory.
pub fn fault_line<W: Write>(fault: &RunFault, writer: &mut W) -> Result<(), WriteFault>
    ensures { OnOk result (Appends (W.contents writer.old) (W.contents writer.new)
        (fault_line_of fault.now)) }
{
    fault_line_as("caladan_sim", fault, writer)
}

/// Writes the one line that a program of this name says of a fault, as `fault_line` does.
pub fn fault_line_as<W: Write>(
    program: &str,
    fault: &RunFault,
    writer: &mut W,
) -> Result<(), WriteFault>
    ensures { OnOk result (Appends (W.contents writer.old) (W.contents writer.new)
        (fault_line_as program.now fault.now)) }
{
    match writeln!(writer, "{program}: {fault}") {
        Ok(()) => Ok(()),
        Err(_) => Err(WriteFault::Write),
    }
}

/// The exit status after a fault: 3 for memory, for the writer and for a thread that could not be
/// started, and 2 for an input that was refused.
pub fn status(fault: &RunFault) -> u8
    ensures { result ≡ status_of fault.now }
{
    match folded(fault) {
        RunFault::Read
        | RunFault::Length
        | RunFault::Separator
        | RunFault::Config(_)
        | RunFault::Trace(_) => 2,
        RunFault::Memory | RunFault::Write | RunFault::Spawn | RunFault::Gate => 3,
    }
}
