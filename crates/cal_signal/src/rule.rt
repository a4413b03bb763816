//! The rule of a page, and the kinds of atomic step on it.
ghost use Rattle.cal_signal.specs.Records.{words_of, record_of, zero_record, MayFollow};
ghost use Rattle.cal_signal.specs.Rule.{Kept};
ghost use Rattle.cal_signal.specs.Steps.{opening_view, no_part, publisher_part};
ghost use Rattle.cal_signal.specs.Steps.{observer_part, without_watcher, watcher_part};
ghost use Rattle.cal_signal.specs.Steps.{both_parts, both_looking, both_reading, learned};
ghost use Rattle.cal_signal.specs.Steps.{opened, wrote, spared, closed, started, peeked, ended};

use crate::record::Record;
use crate::view::View;
use atomic_table::{Join, Play, Seat, Split, Table, TableRule};
use std::alloc::Global;

/// A seat at a page. It has no bytes.
pub type PageSeat = Seat<(), View<Record>>;

/// The version word and the words of a page.
pub type PageTable = Table<(), View<Record>, (), PageRule, Global>;

/// What holds of a page between any two steps.
pub struct PageRule;

impl TableRule<(), View<Record>, ()> for PageRule {
    ghost use Rattle.cal_signal.specs.declared.record.TheConstants.{WORDS};

    ghost holds = { λ _. Kept words_of WORDS MayFollow zero_record };

    ghost first = { λ _. opening_view };
}

/// The publisher's store of the odd version.
pub struct OpenStore;

impl Play<(), View<Record>> for OpenStore {
    ghost then = { opened };
}

/// The publisher's store of one word.
pub struct WordStore;

impl Play<(), View<Record>> for WordStore {
    ghost then = { wrote };
}

/// The publisher's load of a word that stays as it is, in place of a store of it.
pub struct SparedWord;

impl Play<(), View<Record>> for SparedWord {
    ghost then = { spared words_of zero_record };
}

/// The publisher's store of the even version, which publishes the record.
pub struct ClosingStore;

impl Play<(), View<Record>> for ClosingStore {
    ghost then = { closed record_of };
}

/// The load of the version that begins a look.
pub struct FirstLoad;

impl Play<(), View<Record>> for FirstLoad {
    ghost then = { started };
}

/// The load of one word in a look.
pub struct WordLoad;

impl Play<(), View<Record>> for WordLoad {
    ghost then = { peeked };
}

/// The load of the version that ends a look.
pub struct SecondLoad;

impl Play<(), View<Record>> for SecondLoad {
    ghost then = { ended record_of MayFollow zero_record };
}

/// A version load by a seat with the publisher's part and an observer's.
pub struct Comparison;

impl Play<(), View<Record>> for Comparison {
    ghost then = { learned MayFollow zero_record };
}

/// The cut between the publisher's part and an observer's, and its undoing.
pub struct Parts;

impl Split<View<Record>> for Parts {
    ghost left = { publisher_part };

    ghost right = { observer_part };
}

impl Join<View<Record>> for Parts {
    ghost both = { both_parts };

    ghost spent = { no_part };
}

/// The cut that gives the second observer its part.
pub struct WatcherPart;

impl Split<View<Record>> for WatcherPart {
    ghost left = { without_watcher };

    ghost right = { watcher_part };
}

/// A look at an open page by both seats.
pub struct OpenLooking;

impl Join<View<Record>> for OpenLooking {
    ghost both = { both_looking };

    ghost spent = { no_part };
}

/// A reading of the last record by both seats.
pub struct ReadingBack;

impl Join<View<Record>> for ReadingBack {
    ghost both = { both_reading zero_record };

    ghost spent = { no_part };
}
