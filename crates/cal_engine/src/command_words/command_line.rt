//! What the words of a command line ask for.

ghost use Rattle.std.specs.Prelude.{◌≡◌, Bool, false, map, IfOk, None, Option, Some, true};
ghost use Rattle.std.specs.Prelude.{option_map, unwrap_or};
ghost use Rattle.clap.specs.Words.{app_of, subcommand_rows_of};
ghost use Rattle.clap.specs.declared.builder.command.Command.TheViews.{out-Command};
ghost use Rattle.clap.specs.Simple.{new_app, subcommand_of, with_subcommand};
ghost use Rattle.clap.specs.Takes.{takes};
ghost use Rattle.clap.specs.Matches.{found_of};
ghost use Rattle.clap.specs.Values.{kind_of};
ghost use Rattle.clap.specs.Walk.{rows_of, rule_of};
ghost use Rattle.clap.specs.declared.error.kind.ErrorKind.TheVariants as kind;
ghost use Rattle.cal_policy.specs.declared.policy.Policy.{Policy as PolicyOf};
ghost use Rattle.cal_policy.specs.declared.policy.Policy.TheVariants.{Caladan};
ghost use Rattle.cal_engine.specs.CommandWords.{AsksBy, AsksTwo, Explains, FlagsAsk, IsAsked};
ghost use Rattle.cal_engine.specs.CommandWords.{IsConflict, IsJob, IsNoPolicy, Names, answer_of};
ghost use Rattle.cal_engine.specs.CommandWords.{bare_program, flag, job_of, lone_word};
ghost use Rattle.cal_engine.specs.CommandWords.{policy_asked, policy_of, policy_word, program};
ghost use Rattle.cal_engine.specs.CommandWords.{run_word};
ghost use Rattle.cal_engine.specs.declared.command_words.command_line.Job.{Job as JobOf};
ghost use Rattle.cal_engine.specs.declared.jobs.running.RunAnswer.{RunAnswer as RunAnswerOf};

use crate::command_words::help_texts::{self, Help};
use crate::jobs::running::RunAnswer;
use cal_policy::Policy;
use clap::error::ErrorKind;
use clap::{Arg, ArgAction, ArgMatches, Command, Error};
use std::alloc::{AllocError, Global};

/// What both programs say of their version: that of the project, as the file VERSION has it, and of
/// the files that they read and write.
pub const VERSION: &str = "6 (writes history 2; reads signals and history 1 and 2, arrivals 1)";

/// What the program is to do with its input.
#[derive(Clone, Copy, Debug, PartialEq, Eq)]
pub enum Job {
    /// Decide the passes of a signal trace, and write the report. No words, or `decide`.
    Decide,
    /// Make a whole run on one thread, and write its history, or its summary, its report or its
    /// history with its table where that is asked for. The word `lockstep`, and `--summary`,
    /// `--report` or `--table` after it.
    Lockstep(RunAnswer),
    /// Make a whole run in threads, and write of it what `Lockstep` writes. The word `sim`, and
    /// `--summary`, `--report` or `--table` after it.
    Sim(RunAnswer),
    /// Audit a history, and write what the audit says. The word `audit`.
    Audit,
}

/// What the words after the program's name ask for.
#[derive(Clone, Copy, Debug, PartialEq, Eq)]
pub struct Asked {
    /// What the program is to do with its input.
    pub job: Job,
    /// The policy that it is to go by: `--policy NAME` after the word, else `Policy::Caladan`.
    pub policy: Policy,
    /// Whether it is to say why the input is refused, if it is: `--explain` after the word.
    pub explained: bool,
}

/// The job that the words after the program's name ask for, as `asked_by` says.
pub fn words<'a>(alloc: Global, words: &'a [&'a str]) -> Result<Job, Error>
    ensures job { (policy : Option PolicyOf) (explained : Bool) → (job : Job) →
        AsksBy policy explained (map (λ word. word.now) words.now) (Some job) →
        IsJob job result }
    ensures two { (explained : Bool) →
        AsksTwo explained (map (λ word. word.now) words.now) → IsConflict result }
{
    match asked_by(alloc, words) {
        Ok(asked) => Ok(asked.job),
        Err(error) => Err(error),
    }
}

/// What the words after the program's name ask for; no words are `Job::Decide`.
///
/// The error is clap's own. A word that is not in the table is refused; a name after `--policy` that
/// no policy has is an error of the kind `InvalidValue`; more than one of `--summary`, `--report` and
/// `--table` is one of the kind `ArgumentConflict`; a request for help is an error of the kind
/// `DisplayHelp`, one for the version of the kind `DisplayVersion`, whose texts go to the standard
/// output; out of memory has the kind `OutOfMemory`.
pub fn asked_by<'a>(alloc: Global, words: &'a [&'a str]) -> Result<Asked, Error>
    ensures job { (policy : Option PolicyOf) (explained : Bool) → (job : Job) →
        AsksBy policy explained (map (λ word. word.now) words.now) (Some job) →
        IsAsked job (unwrap_or policy Caladan) explained result }
    ensures two { (explained : Bool) →
        AsksTwo explained (map (λ word. word.now) words.now) → IsConflict result }
    // Words that are in the table, but for the name of a policy.
    ensures no_policy { takes program (map (λ word. word.now) words.now) ≡ true →
        policy_asked (subcommand_of program (map (λ word. word.now) words.now)) ≡ None →
        IsNoPolicy result }
{
    let matches = program(alloc)?.try_get_matches_from(words)?;
    asked_of(alloc, &matches)
}

/// What a parsed command line asks for.
fn asked_of(alloc: Global, matches: &ArgMatches) -> Result<Asked, Error>
    ensures job { (policy : PolicyOf) (explained : Bool) → (job : JobOf) →
        policy_asked (subcommand_rows_of matches.now) ≡ Some policy →
        Explains (subcommand_rows_of matches.now) explained →
        Names (subcommand_rows_of matches.now) (Some job) → IsAsked job policy explained result }
    ensures two { (policy : PolicyOf) →
        policy_asked (subcommand_rows_of matches.now) ≡ Some policy →
        Names (subcommand_rows_of matches.now) None → IsConflict result }
    ensures no_policy { policy_asked (subcommand_rows_of matches.now) ≡ None →
        IsNoPolicy result }
{
    match policy_asked(matches) {
        Some(policy) => asked_with(alloc, matches, policy),
        None => Err(no_policy(alloc, matches)?),
    }
}

/// The same by this policy, which it asks for.
fn asked_with(alloc: Global, matches: &ArgMatches, policy: Policy) -> Result<Asked, Error>
    ensures job { (explained : Bool) → (job : JobOf) →
        Explains (subcommand_rows_of matches.now) explained →
        Names (subcommand_rows_of matches.now) (Some job) → IsAsked job policy explained result }
    ensures two { Names (subcommand_rows_of matches.now) None → IsConflict result }
{
    let explained = is_explained(matches);
    match job_named(matches) {
        Some(job) => Ok(Asked {
            job,
            policy,
            explained,
        }),
        None => Err(conflict(alloc, matches)?),
    }
}

/// The policy of the name that stands after the subcommand's `--policy`, `Policy::Caladan` where that
/// does not; none where no policy has the name.
fn policy_asked(matches: &ArgMatches) -> Option<Policy>
    ensures { result ≡ policy_asked (subcommand_rows_of matches.now) }
{
    match matches.subcommand() {
        Some((_, own)) => policy_of(own.get_str("policy")),
        None => Some(Policy::Caladan),
    }
}

/// The policy of this name, `Policy::Caladan` without one; none where no policy has it.
fn policy_of(name: Option<&str>) -> Option<Policy>
    ensures { result ≡ policy_of (option_map (λ text. text.now) name.entry) }
{
    match name {
        Some(name) => Policy::named(name),
        None => Some(Policy::Caladan),
    }
}

/// Whether `--explain` stands after the subcommand.
fn is_explained(matches: &ArgMatches) -> bool
    ensures { (explained : Bool) → Explains (subcommand_rows_of matches.now) explained →
        result ≡ explained }
{
    match matches.subcommand() {
        Some((_, flags)) => flags.get_flag("explain"),
        None => false,
    }
}

/// That no policy has the name that stands after `--policy`. Fails only when out of memory.
fn no_policy(alloc: Global, matches: &ArgMatches) -> Result<Error, AllocError>
    ensures { IfOk result (λ error. kind_of error ≡ kind.InvalidValue) }
{
    let (word, name) = match matches.subcommand() {
        Some((word, own)) => (word, own.get_str("policy").unwrap_or("")),
        None => ("", ""),
    };
    let said = not_a_policy(alloc, name)?;
    refused(alloc, word, ErrorKind::InvalidValue, said.as_str())
}

/// What is said of a name that no policy has. Fails only when out of memory.
fn not_a_policy(alloc: Global, name: &str) -> Result<String, AllocError> {
    let names = POLICIES;
    format!(in alloc; "invalid value '{name}' for '--policy <NAME>'\n  [possible values: {names}]")
}

/// That more than one answer is asked for at once, after the word for a run. Fails only when out of
/// memory.
fn conflict(alloc: Global, matches: &ArgMatches) -> Result<Error, AllocError>
    ensures { IfOk result (λ error. kind_of error ≡ kind.ArgumentConflict) }
{
    let (word, said) = match matches.subcommand() {
        Some((word, flags)) => (word, conflict_of(flags)),
        None => ("", conflict_of(matches)),
    };
    refused(alloc, word, ErrorKind::ArgumentConflict, said)
}

/// The error of this kind of what stands after a word. Fails only when out of memory.
fn refused(alloc: Global, word: &str, why: ErrorKind, said: &str) -> Result<Error, AllocError>
    ensures { IfOk result (λ error. kind_of error ≡ why) }
{
    let called = format!(in alloc; "caladan_sim {word}")?;
    let mut command = run_word(alloc, word, help_texts::NOTHING)?.bin_name(called.as_str())?;
    command.error(why, said)
}

/// Which flags ask for two answers.
fn conflict_of(flags: &ArgMatches) -> &'static str {
    match (flags.get_flag("summary"), flags.get_flag("report")) {
        (true, true) => "the argument '--summary' cannot be used with '--report'",
        (true, false) => "the argument '--summary' cannot be used with '--table'",
        _ => "the argument '--report' cannot be used with '--table'",
    }
}

/// The program, with a subcommand for each word. A word is added as its turn comes, so that little
/// stands to be dropped where memory is refused.
fn program<'a>(alloc: Global) -> Result<Command<'a>, AllocError>
    ensures { IfOk result (λ command. app_of command ≡ program) }
{
    let program = bare_program(alloc)?;
    let program = with_word(alloc, program, "decide", help_texts::DECIDE)?;
    let program = with_run(alloc, program, "lockstep", help_texts::LOCKSTEP)?;
    let program = with_run(alloc, program, "sim", help_texts::SIM)?;
    let program = with_word(alloc, program, "audit", help_texts::AUDIT)?;
    Ok(program)
}

/// The program before it has its words.
fn bare_program<'a>(alloc: Global) -> Result<Command<'a>, AllocError>
    ensures { IfOk result (λ command. app_of command ≡ bare_program) }
{
    plain_word(alloc, "caladan_sim", help_texts::PROGRAM)
        .version(VERSION)
        .no_binary_name(true)
        .bin_name("caladan_sim")
}

/// The program with one word more, which asks for its job alone.
fn with_word<'a>(
    alloc: Global,
    program: Command<'a>,
    word: &'a str,
    help: Help,
) -> Result<Command<'a>, AllocError>
    ensures { IfOk result (λ command.
        app_of command ≡ with_subcommand (app_of program.entry) (lone_word word.entry.now).top) }
{
    program.subcommand(lone_word(alloc, word, help)?)
}

/// The program with one word more, for a run.
fn with_run<'a>(
    alloc: Global,
    program: Command<'a>,
    word: &'a str,
    help: Help,
) -> Result<Command<'a>, AllocError>
    ensures { IfOk result (λ command.
        app_of command ≡ with_subcommand (app_of program.entry) (run_word word.entry.now).top) }
{
    program.subcommand(run_word(alloc, word, help)?)
}

/// A word that takes nothing after it.
fn plain_word<'a>(alloc: Global, word: &'a str, help: Help) -> Command<'a>
    ensures shape { app_of result ≡ new_app word.entry.now }
    ensures local { (out-Command result).has_globals ≡ false }
{
    Command::new(alloc, word)
        .about(help.about)
        .after_long_help(help.after)
}

/// A word that asks for its job alone, after which `--policy` and `--explain` may stand.
fn lone_word<'a>(alloc: Global, word: &'a str, help: Help) -> Result<Command<'a>, AllocError>
    ensures shape { IfOk result (λ command. app_of command ≡ lone_word word.entry.now) }
    ensures local { IfOk result (λ command. (out-Command command).has_globals ≡ false) }
{
    plain_word(alloc, word, help)
        .arg(policy_word(alloc))?
        .arg(flag(alloc, "explain", EXPLAIN))
}

/// A word for a run, after which the flag for its summary, its report or its table may stand too.
fn run_word<'a>(alloc: Global, word: &'a str, help: Help) -> Result<Command<'a>, AllocError>
    ensures shape { IfOk result (λ command. app_of command ≡ run_word word.entry.now) }
    ensures local { IfOk result (λ command. (out-Command command).has_globals ≡ false) }
{
    plain_word(alloc, word, help)
        .arg(flag(
            alloc,
            "summary",
            "Write the summary in place of the history",
        ))?
        .arg(flag(alloc, "report", "Write the report in place of the history"))?
        .arg(flag(
            alloc,
            "table",
            "Put the task table and the line --- in front",
        ))?
        .arg(policy_word(alloc))?
        .arg(flag(alloc, "explain", EXPLAIN))
}

/// The names of the policies, as help and refusals list them.
const POLICIES: &str = "caladan, assured";

/// The option `--policy`, after which the name of a policy stands.
fn policy_word<'a>(alloc: Global) -> Arg<'a>
    ensures shape { rule_of result ≡ policy_word }
    ensures local { result.global ≡ false }
{
    Arg::new(alloc, "policy")
        .long("policy")
        .action(ArgAction::Set)
        .value_name("NAME")
        .help("The policy to go by: caladan, assured [default: caladan]")
}

/// What help says of `--explain`.
const EXPLAIN: &str = "Say on standard error why an input is refused";

/// A flag of this name.
fn flag<'a>(alloc: Global, name: &'a str, help: &'a str) -> Arg<'a>
    ensures shape { rule_of result ≡ flag name.entry.now }
    ensures local { result.global ≡ false }
{
    Arg::new(alloc, name)
        .long(name)
        .action(ArgAction::SetTrue)
        .help(help)
}

/// The job that the subcommand names; none where it is a run of which two answers are asked for.
fn job_named(matches: &ArgMatches) -> Option<Job>
    ensures { (named : Option JobOf) → Names (subcommand_rows_of matches.now) named →
        result ≡ named }
{
    match matches.subcommand() {
        Some((word, flags)) => job_of(word, flags_ask(flags)),
        None => Some(Job::Decide),
    }
}

/// The job of a word, with the answer that its flags ask for; none where they ask for two, or where
/// it is no word of the program.
fn job_of(word: &str, answer: Option<RunAnswer>) -> Option<Job>
    ensures { result ≡ job_of word.now answer }
{
    if word == "decide" {
        Some(Job::Decide)
    } else if word == "lockstep" {
        Some(Job::Lockstep(answer?))
    } else if word == "sim" {
        Some(Job::Sim(answer?))
    } else if word == "audit" {
        Some(Job::Audit)
    } else {
        None
    }
}

/// What the flags after the word for a run ask for; nothing where more than one is there.
fn flags_ask(flags: &ArgMatches) -> Option<RunAnswer>
    ensures { (asked : Option RunAnswerOf) → FlagsAsk (rows_of (found_of flags.now)) asked →
        result ≡ asked }
{
    answer_of(
        flags.get_flag("summary"),
        flags.get_flag("report"),
        flags.get_flag("table"),
    )
}

fn answer_of(summary: bool, report: bool, table: bool) -> Option<RunAnswer>
    ensures { result ≡ answer_of summary report table }
{
    match (summary, report, table) {
        (false, false, false) => Some(RunAnswer::History),
        (true, false, false) => Some(RunAnswer::Summary),
        (false, true, false) => Some(RunAnswer::Report),
        (false, false, true) => Some(RunAnswer::WithTable),
        _ => None,
    }
}
