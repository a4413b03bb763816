//! Laws over the definitions alone, each the contract of a function that does nothing.

ghost use Rattle.cal_engine.specs.Laws.{HistoriesAreOrderly, WithTableIsReadBack};
ghost use Rattle.cal_engine.specs.Laws.{WithTableIsReadBackBy};

use cal_trace::legal_is_read_back_by;

/// What is written of a run by any policy with its table in front is an input of `audit` again: of
/// the same table and the same history, where a file can hold it.
pub fn with_table_is_read_back_by()
    ensures { WithTableIsReadBackBy }
{
    legal_is_read_back_by();
}

/// `with_table_is_read_back_by` of `Policy::Caladan`.
pub fn with_table_is_read_back()
    ensures { WithTableIsReadBack }
{
    with_table_is_read_back_by();
}

/// A history of any policy is orderly.
pub(crate) fn histories_are_orderly()
    ensures { HistoriesAreOrderly }
{}
