//! What the looks so far have shown.

ghost use Rattle.std.specs.Prelude.{◌≡◌, ℕ, ◌<◌, ◌≤◌, ◌==◌, ◌++◌, ◌∷◌, [], List, length};
ghost use Rattle.std.specs.Prelude.{false, replicate, slice_index, if◌then◌else◌, IsTrue};
ghost use Rattle.std.specs.Option.{unwrap_or};
ghost use Rattle.cal_machine.specs.declared.numbering.TheConstants.{MOST_THREADS};
ghost use Rattle.cal_policy.specs.declared.history.look.Seen.{Seen};
ghost use Rattle.cal_signal.specs.Records.{zero_record};
ghost use Rattle.cal_policy.specs.History.Looks.{record_to_keep, shown_by};
ghost use Rattle.cal_policy.specs.Board.{KeepsBefore};
ghost use Rattle.cal_policy.specs.State.{KeepingAgrees};
ghost use Rattle.cal_policy.specs.Board.KeepingSets.{KeepsSets, kept_in, shown_in, shows_waiting};
ghost use Rattle.cal_policy.specs.Board.KeepingSets.{FitAfter};
ghost use Rattle.cal_policy.specs.Board.Unshown.{Shows};
ghost use Rattle.cal_policy.specs.declared.board.holders.Holder.{Holder};
ghost use Rattle.cal_policy.specs.Judgement.Judging.{IsFitLook};
ghost use Rattle.cal_policy.specs.declared.history.look.Seen.TheVariants.{Whole};
ghost use Rattle.cal_machine.specs.Table.{Table};
ghost use Rattle.cal_policy.specs.declared.history.entry.PassEntry.{PassEntry};
ghost use Rattle.cal_policy.specs.declared.judgement.open_input.FoundLook.{FoundLook};
ghost use Rattle.cal_policy.specs.History.{looks_of};
ghost use Rattle.cal_policy.specs.Judgement.OpenInput.{judged_looks};
ghost use Rattle.cal_policy.specs.Judgement.OpenPass.{IsOpenAt, ShowNoted};

use crate::board::unshown::note_left;
use crate::history::look::Seen;
use crate::judgement::open_pass::OpenPass;
use cal_machine::{CoreSet, MOST_THREADS, ThreadSet};
use cal_signal::{Record, Shown};

/// The records of each thread that the looks so far have given.
#[derive(Drop)]
pub struct Keeping {
    /// That of its last whole look.
    pub kept: [Record; MOST_THREADS],
    /// The misses of the one that was kept before the last pass's look.
    pub before: [u64; MOST_THREADS],
    /// The threads whose kept record has other misses since the last pass's looks.
    pub moved: ThreadSet,
    /// The threads whose kept record shows a request that waits.
    pub waiting: ThreadSet,
    /// The place of its last look with a record, whatever was judged of it.
    pub numbers: [u64; MOST_THREADS],
    /// Whether the kept record of a thread is the one of that look: whether it is settled.
    pub settled: [bool; MOST_THREADS],
    /// The record of that look, of the threads that are not settled.
    pub unkept: [Record; MOST_THREADS],
}

fn zero_records() -> [Record; MOST_THREADS]
    ensures { result ≡ replicate MOST_THREADS zero_record }
{
    [Record::ZERO; MOST_THREADS]
}

fn none_settled() -> [bool; MOST_THREADS]
    ensures { result ≡ replicate MOST_THREADS false }
{
    [false; MOST_THREADS]
}

fn noughts() -> [u64; MOST_THREADS]
    ensures { result ≡ replicate MOST_THREADS 0 }
{
    [0; MOST_THREADS]
}

/// Whether a record shows a request that waits, queued or suspended.
fn is_waiting(rec: &Record) -> bool
    ensures { result ≡ shows_waiting rec.now }
{
    rec.queued > 0 || rec.paused > 0
}

impl Keeping {
    /// The zero record for each thread, before any look.
    pub fn new() -> Keeping
        ensures agrees { KeepingAgrees result [] }
        ensures before { KeepsBefore result [] }
        ensures sets { KeepsSets result }
    {
        Keeping {
            kept: zero_records(),
            before: noughts(),
            moved: ThreadSet::empty(),
            waiting: ThreadSet::empty(),
            numbers: noughts(),
            settled: none_settled(),
            unkept: zero_records(),
        }
    }

    /// Takes up the misses of each kept record, before the looks of the next pass.
    fn settle_all(&mut self)
        ensures kept { self.new.kept ≡ self.old.kept }
        ensures shown { (self.new.numbers ≡ self.old.numbers)
            × (self.new.settled ≡ self.old.settled) × (self.new.unkept ≡ self.old.unkept) }
        ensures before { (k : ℕ) → k < MOST_THREADS →
            slice_index self.new.before k ≡ (kept_in self.old k).misses }
        ensures sets { KeepsSets self.old → KeepsSets self.new }
    {
        for k in 0..MOST_THREADS {
            self.before[k] = self.kept[k].misses;
        }
        self.moved = ThreadSet::empty();
    }

    /// The same, where only the threads that moved are visited.
    fn settle(&mut self)
        requires sets { KeepsSets self.old }
        ensures kept { self.new.kept ≡ self.old.kept }
        ensures shown { (self.new.numbers ≡ self.old.numbers)
            × (self.new.settled ≡ self.old.settled) × (self.new.unkept ≡ self.old.unkept) }
        ensures before { (k : ℕ) → k < MOST_THREADS →
            slice_index self.new.before k ≡ (kept_in self.old k).misses }
        ensures sets { KeepsSets self.new }
    {
        let mut first = 0;
        while let Some(k) = self.moved.next(first, MOST_THREADS) {
            self.before[k] = self.kept[k].misses;
            first = k + 1;
        }
        self.moved = ThreadSet::empty();
    }

    /// Keeps a record of thread `k`, which it showed at place `number`.
    #[inline(always)]
    fn put(&mut self, k: usize, number: u64, rec: &Record)
        requires thread { k < MOST_THREADS }
        ensures kept { (j : ℕ) → j < MOST_THREADS →
            kept_in self.new j ≡ (if j == k then rec.now else kept_in self.old j) }
        ensures shown { (j : ℕ) → j < MOST_THREADS → shown_in self.new j
            ≡ (if j == k then record { number = number; rec = rec.now } else shown_in self.old j) }
        ensures before { self.new.before ≡ self.old.before }
        ensures sets { KeepsSets self.old → KeepsSets self.new }
    {
        if self.kept[k].misses != rec.misses {
            self.moved.insert(k);
        }
        if is_waiting(rec) {
            self.waiting.insert(k);
        } else {
            self.waiting.remove(k);
        }
        self.numbers[k] = number;
        self.settled[k] = true;
        self.kept[k] = *rec;
    }

    /// What was last shown of thread `k`.
    pub fn shown(&self, k: usize) -> Shown
        requires { k < MOST_THREADS }
        ensures { result ≡ shown_in self.now k }
    {
        let rec = if self.settled[k] {
            self.kept[k]
        } else {
            self.unkept[k]
        };
        Shown {
            number: self.numbers[k],
            rec,
        }
    }

    /// What the kept record of thread `k` shows it on: 0, or the core's number plus one.
    pub fn running(&self, k: usize) -> u64
        requires { k < MOST_THREADS }
        ensures { result ≡ (kept_in self.now k).running }
    {
        self.kept[k].running
    }

    /// Keeps a record of thread `k`, as `put` does, and notes the core that the record kept before
    /// showed, where this one does not.
    #[inline(always)]
    fn keep(&mut self, k: usize, number: u64, rec: &Record, unshown: &mut CoreSet)
        requires thread { k < MOST_THREADS }
        ensures kept { (j : ℕ) → j < MOST_THREADS →
            kept_in self.new j ≡ (if j == k then rec.now else kept_in self.old j) }
        ensures shown { (j : ℕ) → j < MOST_THREADS → shown_in self.new j
            ≡ (if j == k then record { number = number; rec = rec.now } else shown_in self.old j) }
        ensures before { self.new.before ≡ self.old.before }
        ensures sets { KeepsSets self.old → KeepsSets self.new }
        ensures shows { (holder : ℕ → Holder) → Shows holder (kept_in self.old) unshown.old →
            Shows holder (kept_in self.new) unshown.new }
    {
        note_left(unshown, self.running(k), rec.running);
        self.put(k, number, rec);
    }

    /// Notes what thread `k` showed, where that is not kept.
    fn note(&mut self, k: usize, number: u64, rec: &Record)
        requires thread { k < MOST_THREADS }
        ensures kept { self.new.kept ≡ self.old.kept }
        ensures shown { (j : ℕ) → j < MOST_THREADS → shown_in self.new j
            ≡ (if j == k then record { number = number; rec = rec.now } else shown_in self.old j) }
        ensures before { self.new.before ≡ self.old.before }
        ensures sets { KeepsSets self.old → KeepsSets self.new }
    {
        self.numbers[k] = number;
        self.settled[k] = false;
        self.unkept[k] = *rec;
    }

    /// Whether a fit look at this place finds thread `k` with the record that is kept already.
    fn is_as_kept(&self, k: usize, number: u64) -> bool
        requires thread { k < MOST_THREADS }
        ensures { (rec : Record) → IsTrue result →
            IsFitLook (shown_in self.now k) (Whole number rec) →
            (rec ≡ kept_in self.now k)
            × (record { number = number; rec = rec } ≡ shown_in self.now k) }
    {
        self.settled[k] && self.numbers[k] == number
    }

    /// Takes one look, at thread `k`. (Inlined, since it is made for each look that is news.)
    #[inline(always)]
    fn take(&mut self, k: usize, look: &Seen, unshown: &mut CoreSet)
        requires thread { k < MOST_THREADS }
        ensures kept { (j : ℕ) → j < MOST_THREADS → kept_in self.new j
            ≡ (if j == k then unwrap_or (record_to_keep look.now) (kept_in self.old j)
            else kept_in self.old j) }
        ensures shown { (j : ℕ) → j < MOST_THREADS → shown_in self.new j
            ≡ (if j == k then unwrap_or (shown_by look.now) (shown_in self.old j)
            else shown_in self.old j) }
        ensures before { self.new.before ≡ self.old.before }
        ensures sets { KeepsSets self.old → KeepsSets self.new }
        ensures shows { (holder : ℕ → Holder) → Shows holder (kept_in self.old) unshown.old →
            Shows holder (kept_in self.new) unshown.new }
    {
        match look {
            Seen::Whole { number, rec } => self.keep(k, *number, rec, unshown),
            Seen::Ahead { number, rec } | Seen::Foreign { number, rec } => {
                self.note(k, *number, rec);
            }
            Seen::Busy { .. } => {}
        }
    }

    /// Takes one fit look, at thread `k`. A whole one at the place that was shown before changes
    /// nothing.
    fn take_fit(&mut self, k: usize, look: &Seen, unshown: &mut CoreSet)
        requires thread { k < MOST_THREADS }
        ensures kept { IsFitLook (shown_in self.old k) look.now → (j : ℕ) → j < MOST_THREADS →
            kept_in self.new j ≡ (if j == k
            then unwrap_or (record_to_keep look.now) (kept_in self.old j) else kept_in self.old j) }
        ensures shown { IsFitLook (shown_in self.old k) look.now → (j : ℕ) → j < MOST_THREADS →
            shown_in self.new j ≡ (if j == k
            then unwrap_or (shown_by look.now) (shown_in self.old j) else shown_in self.old j) }
        ensures before { self.new.before ≡ self.old.before }
        ensures sets { KeepsSets self.old → KeepsSets self.new }
        ensures shows { (holder : ℕ → Holder) → Shows holder (kept_in self.old) unshown.old →
            Shows holder (kept_in self.new) unshown.new }
    {
        match look {
            Seen::Whole { number, .. } if self.is_as_kept(k, *number) => {}
            _ => self.take(k, look, unshown),
        }
    }

    /// Takes the looks of one more pass.
    pub fn look(&mut self, seen: &[Seen], unshown: &mut CoreSet)
        requires { length seen.now ≤ MOST_THREADS }
        ensures agrees { (looks : List (List Seen)) → KeepingAgrees self.old looks →
            KeepingAgrees self.new (looks ++ seen.now ∷ []) }
        ensures before { (looks : List (List Seen)) → KeepingAgrees self.old looks →
            KeepsBefore self.new looks }
        ensures sets { KeepsSets self.old → KeepsSets self.new }
        ensures shows { (holder : ℕ → Holder) → Shows holder (kept_in self.old) unshown.old →
            Shows holder (kept_in self.new) unshown.new }
    {
        self.settle_all();
        for (k, look) in seen.iter().enumerate() {
            self.take(k, look, unshown);
        }
    }

    /// Takes the looks of one more pass, which fit those before.
    pub fn look_fit(&mut self, seen: &[Seen], unshown: &mut CoreSet)
        requires looks { length seen.now ≤ MOST_THREADS }
        requires sets { KeepsSets self.old }
        ensures agrees { (looks : List (List Seen)) → KeepingAgrees self.old looks →
            FitAfter looks seen.now → KeepingAgrees self.new (looks ++ seen.now ∷ []) }
        ensures before { (looks : List (List Seen)) → KeepingAgrees self.old looks →
            KeepsBefore self.new looks }
        ensures sets { KeepsSets self.new }
        ensures shows { (holder : ℕ → Holder) → Shows holder (kept_in self.old) unshown.old →
            Shows holder (kept_in self.new) unshown.new }
    {
        self.settle();
        for (k, look) in seen.iter().enumerate() {
            self.take_fit(k, look, unshown);
        }
    }

    /// Takes the noted looks of one more pass; what is kept and shown of the other threads stays.
    pub fn look_noted(&mut self, pass: &OpenPass, unshown: &mut CoreSet)
        requires sets { KeepsSets self.old }
        ensures agrees { (table : Table) (h : List PassEntry) (looks : List FoundLook) →
            KeepingAgrees self.old (looks_of h) → IsOpenAt table h looks pass.now →
            KeepingAgrees self.new (looks_of h ++ judged_looks table h looks ∷ []) }
        ensures noted { (looks : List (List Seen)) (seen : List Seen) →
            KeepingAgrees self.old looks → ShowNoted pass.now seen →
            KeepingAgrees self.new (looks ++ seen ∷ []) }
        ensures before { (looks : List (List Seen)) → KeepingAgrees self.old looks →
            KeepsBefore self.new looks }
        ensures sets { KeepsSets self.new }
        ensures shows { (holder : ℕ → Holder) → Shows holder (kept_in self.old) unshown.old →
            Shows holder (kept_in self.new) unshown.new }
    {
        self.settle();
        let mut first = 0;
        while let Some(k) = pass.listed.next(first, MOST_THREADS) {
            self.take(k, pass.noted(k), unshown);
            first = k + 1;
        }
    }
}
