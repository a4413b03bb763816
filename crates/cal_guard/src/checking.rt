//! Whether a history is permitted, whoever chose its actions: the reference, which walks the
//! history.

ghost use Rattle.std.specs.Prelude.{◌↔◌, IsTrue};
ghost use Rattle.cal_policy.specs.Setting.{setting};
ghost use Rattle.cal_policy.specs.Judgement.Judging.{IsInput};
ghost use Rattle.cal_guard.specs.Permitted.{ArePermitted, IsPermittedPass, IsPermittedHistory};

use crate::histories::permitted_is_orderly;
use crate::pass_looks::PassLooks;
use crate::passing::Passing;
use cal_machine::{Config, ThreadSet};
use cal_policy::state::{Terms, board_of};
use cal_policy::{Action, Input, PassEntry, is_input};

/// Whether these actions are permitted, each at its place, in a pass on this input after these
/// passes.
pub fn permits(config: &Config, before: &[PassEntry], input: &Input, actions: &[Action]) -> bool
    requires permitted { IsPermittedHistory config.now before.now }
    requires input { IsInput config.now before.now input.now }
    ensures { IsTrue result ↔ ArePermitted (setting config.now before.now input.entry.now)
        actions.now }
{
    config.limits();
    permitted_is_orderly();
    let board = board_of(config, before);
    let sent = ThreadSet::empty();
    let mut passing = Passing {
        board,
        sent,
        made: 0,
    };
    passing.begin(PassLooks::Listed(input.seen.as_slice()));
    let terms = Terms::of(config, input);
    passing.take_each(config, &terms, actions).is_ok()
}

/// Whether the entry is a permitted pass after those before it.
pub fn is_permitted_pass(config: &Config, before: &[PassEntry], entry: &PassEntry) -> bool
    requires { IsPermittedHistory config.now before.now }
    ensures { IsTrue result ↔ IsPermittedPass config.now before.now entry.now }
{
    config.limits();
    permitted_is_orderly();
    if !is_input(config, before, &entry.input) {
        return false;
    }
    permits(config, before, &entry.input, entry.actions.as_slice())
}

/// Whether a history is permitted: in each pass the input is one that it may be given, and each
/// action is permitted at its place. Any history may be asked about.
pub fn is_permitted(config: &Config, history: &[PassEntry]) -> bool
    ensures { IsTrue result ↔ IsPermittedHistory config.now history.now }
{
    for (p, entry) in history.iter().enumerate() {
        if !is_permitted_pass(config, &history[..p], entry) {
            return false;
        }
    }
    true
}
