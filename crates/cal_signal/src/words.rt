//! The words of a record, to a page and from it.
ghost use Rattle.std.specs.Prelude.{◌≡◌, ◌+◌, ◌%◌, true, []};
ghost use Rattle.cal_signal.specs.Records.{words_of};
ghost use Rattle.cal_signal.specs.Pages.{last_published};

use crate::record::WORDS;
use crate::rule::{PageSeat, PageTable, SparedWord, WordLoad, WordStore};

/// Stores the words one after the other, while the version is odd; `last` are those of the last
/// record. A word that stays as it is need not be stored: the page has it already. It is loaded in
/// its turn, which costs little, where a store is an exchange.
pub fn store_words(table: &PageTable, seat: &mut PageSeat, words: [u64; WORDS], last: [u64; WORDS])
    requires own { (seat.old.table_id ≡ table.now.shared.table_id)
        × (seat.old.table_id.words ≡ WORDS + 1) }
    requires open { (seat.old.me.0.publishes ≡ true) × (seat.old.me.0.version % 2 ≡ 1)
        × (seat.old.me.0.stored ≡ []) }
    requires last { last ≡ words_of (last_published seat.old.me.0.published) }
    ensures same { (seat.new.table_id ≡ seat.old.table_id) × (seat.new.id ≡ seat.old.id) }
    ensures view { seat.new.me ≡ (record seat.old.me.0 { stored = words }, seat.old.me.1) }
{
    for i in 0..WORDS {
        if words[i] == last[i] {
            table.shared.load::<SparedWord>(seat, i + 1);
        } else {
            table.shared.store::<WordStore>(seat, i + 1, words[i]);
        }
    }
}

/// Loads the words one after the other, just after the first version load of a look.
pub fn load_words(table: &PageTable, seat: &mut PageSeat) -> [u64; WORDS]
    requires own { (seat.old.table_id ≡ table.now.shared.table_id)
        × (seat.old.table_id.words ≡ WORDS + 1) }
    requires fresh { seat.old.me.0.read ≡ [] }
    ensures same { (seat.new.table_id ≡ seat.old.table_id) × (seat.new.id ≡ seat.old.id) }
    ensures view { seat.new.me ≡ (record seat.old.me.0 { read = result }, seat.old.me.1) }
{
    let mut words = [0u64; WORDS];
    for i in 0..WORDS {
        words[i] = table.shared.load::<WordLoad>(seat, i + 1);
    }
    words
}
