//! What is said of a refused file where no example has it: letters that changed places, lines that
//! are long, and letters that would move the cursor.

use cal_input::RunFault;
use cal_machine::Config;
use cal_trace::{FaultKind, TraceFault, read_signals};
use cal_why::{RefusedInput, TraceKind, explanation};
use std::process::Abort;
use std::test::Fail;

const TABLE: &str = "\
cores = 2
bandwidth_limit = 1000
[[task]]
kind = \"lc\"
guaranteed = 1
limit = 1
delay = 10
request = 50
";

/// What is said of an input whose table, or else whose signals, are refused.
fn said_of<R: Abort + AllocGlobal>(rt: &R, table: &str, signals: &[u8]) -> Result<String, Fail> {
    let mut input = Vec::new(rt.alloc());
    input.extend_from_slice(table.as_bytes())?;
    input.extend_from_slice(b"---\n")?;
    input.extend_from_slice(signals)?;
    let fault = match Config::read(rt.alloc(), table.as_bytes()) {
        Err(fault) => RunFault::Config(fault),
        Ok(config) => match read_signals(rt.alloc(), &config, signals) {
            Err(fault) => RunFault::Trace(fault),
            Ok(_) => return Err(Fail::from("it is not refused")),
        },
    };
    let refused = RefusedInput {
        input: input.as_slice(),
        wanted: &[TraceKind::Signals],
    };
    Ok(explanation(rt.alloc(), &refused, &fault)?)
}

// Two letters beside each other changed places: at the beginning, in the middle, at the end. Others
// that did, and letters that are not the word's, are no slip.
#[test]
fn swapped_letters_are_a_slip(rt: HostRuntime) -> Result<(), Fail> {
    let slip = "  did you mean `cores`?\n";
    for (key, meant) in [
        ("ocres", slip),
        ("croes", slip),
        ("corse", slip),
        ("serco", ""),
        ("corxy", ""),
    ] {
        let table = format!(in rt.alloc(); "{key} = 2\n")?;
        let told = said_of(&rt, table.as_str(), b"")?;
        let wanted = format!(in rt.alloc();
            "  line 1, column 1: {key} = 2
  `{key}` is no key here; there are: cores bandwidth_limit task\n{meant}"
        )?;
        assert_eq!(rt; told.as_str(), wanted.as_str());
    }
    Ok(())
}

// A line has its first 72 bytes, and two dots behind them where it has more.
#[test]
fn a_long_line_is_cut(rt: HostRuntime) -> Result<(), Fail> {
    let text = "aaaaaaaaaaaaaaaaaaaaaaaaaaaaaaaaaaaaaaaaaaaaaaaaaaaaaaaaaaaaa";
    for (value, end) in [("", "\""), ("a", ".."), ("ab", "..")] {
        let table = format!(in rt.alloc(); "colour = \"{text}{value}\"\n")?;
        let told = said_of(&rt, table.as_str(), b"")?;
        let shown = match value {
            "" => "",
            _ => "a",
        };
        let wanted = format!(in rt.alloc();
            "  line 1, column 1: colour = \"{text}{shown}{end}
  `colour` is no key here; there are: cores bandwidth_limit task\n"
        )?;
        assert_eq!(rt; told.as_str(), wanted.as_str());
    }
    Ok(())
}

// A tab is a blank; escape, delete, a control letter of two bytes and a byte that is no UTF-8 are
// question marks.
#[test]
fn control_letters_are_not_written(rt: HostRuntime) -> Result<(), Fail> {
    let signals = b"caladan-signals,2\nbu\x1B[31m\t\x7F\xC2\x85\xFFsy,0\n";
    let told = said_of(&rt, TABLE, signals)?;
    assert_eq!(rt;
        told.as_str(),
        "  line 11, column 1: bu?[31m ???sy,0
  `bu?[31m ???sy` is no row of this trace; there are: pass whole busy end
  fields have commas between them, and no semicolons or tabs
"
    );
    Ok(())
}

// What is said of one pass too many, by a short file in which the row is another one.
#[test]
fn one_pass_too_many(rt: HostRuntime) -> Result<(), Fail> {
    let mut input = Vec::new(rt.alloc());
    input.extend_from_slice(TABLE.as_bytes())?;
    input.extend_from_slice(b"---\ncaladan-signals,2\npass,1,0\nbusy,0,1,1,1\nend,1\n")?;
    let refused = RefusedInput {
        input: input.as_slice(),
        wanted: &[TraceKind::Signals],
    };
    let fault = RunFault::Trace(TraceFault {
        row: 2,
        kind: FaultKind::Range,
    });
    let told = explanation(rt.alloc(), &refused, &fault)?;
    assert_eq!(rt;
        told.as_str(),
        "  line 11, column 1: pass,1,0
  wanted: at most 1048576 (MOST_PASSES) passes
"
    );
    Ok(())
}
