//! The figures of rows, and how they are written.

ghost use Rattle.std.specs.Prelude.{◌≡◌, ◌≤◌, ◌^◌, Some};
ghost use Rattle.cal_tables.specs.Rows.{ended, exact, few_for, if_below, ranked_figure};
ghost use Rattle.cal_tables.specs.Rows.{share_of, time_in};

use crate::sheet::NumberForm;
use cal_measure::{Spread, Time, thousandths};
use std::alloc::{AllocError, Global};

/// What a number counts.
#[derive(Clone, Copy, Debug, PartialEq, Eq)]
pub enum Unit {
    /// Whole ones.
    One,
    /// Thousandths of one.
    Thousandth,
}

/// What a row says of a task or of a machine.
#[derive(Clone, Copy, Debug, PartialEq, Eq)]
pub struct Figure {
    /// The number.
    pub number: u64,
    /// Whether there may be more than that: a rank falls on a request that is pending, or the number
    /// ended at the greatest.
    pub is_bound: bool,
    /// Of how many times a rank is, where it should be of more.
    pub few: Option<usize>,
}

/// Which of some times, by nearest rank.
#[derive(Clone, Copy, Debug, PartialEq, Eq)]
pub enum Rank {
    /// The least.
    Least,
    /// 50 of 100.
    Median,
    /// 90 of 100.
    Ninety,
    /// 99 of 100.
    NinetyNine,
    /// 99.9 of 100.
    MostOfThousand,
    /// The greatest.
    Greatest,
}

impl Figure {
    /// A number.
    pub fn of(number: u64) -> Figure
        ensures { result ≡ exact number }
    {
        Figure {
            number,
            is_bound: false,
            few: None,
        }
    }

    /// The same of a number that ends at the greatest: that stands for itself and for all above it,
    /// and is a bound.
    pub fn ended(self) -> Figure
        ensures { result ≡ ended self }
    {
        Figure {
            number: self.number,
            is_bound: self.is_bound || self.number == u64::MAX,
            few: self.few,
        }
    }
}

/// A count, as a figure.
pub fn count(number: usize) -> Option<Figure>
    ensures { result ≡ Some (exact number) }
{
    Some(Figure::of(number as u64))
}

/// How many thousandths of a whole a part is, up to the greatest number, where there is a whole.
pub fn share(part: u128, whole: u128) -> Option<Figure>
    ensures { whole ≤ 2 ^ 100 → result ≡ share_of part whole }
{
    match thousandths(part, whole) {
        None => None,
        Some(share) => Some(Figure::of(share).ended()),
    }
}

/// How a rank is called.
pub fn rank_name(rank: Rank) -> &'static str {
    match rank {
        Rank::Least => "least",
        Rank::Median => "median",
        Rank::Ninety => "90 of 100",
        Rank::NinetyNine => "99 of 100",
        Rank::MostOfThousand => "99.9 of 100",
        Rank::Greatest => "greatest",
    }
}

/// One of some times; of none there is none.
pub fn time_in(times: &Spread, rank: Rank) -> Option<Time>
    ensures { result ≡ time_in times.now rank }
{
    match rank {
        Rank::Least => times.least,
        Rank::Median => times.median,
        Rank::Ninety => times.ninety,
        Rank::NinetyNine => times.ninety_nine,
        Rank::MostOfThousand => times.most_of_thousand,
        Rank::Greatest => times.greatest,
    }
}

/// So many times, where there are fewer than these.
fn if_below(needed: usize, count: usize) -> Option<usize>
    ensures { result ≡ if_below needed count }
{
    if count < needed { Some(count) } else { None }
}

/// So many times, where that is too few for a rank.
fn few_for(rank: Rank, count: usize) -> Option<usize>
    ensures { result ≡ few_for rank count }
{
    match rank {
        Rank::Least => None,
        Rank::Median => None,
        Rank::Ninety => None,
        Rank::NinetyNine => if_below(100, count),
        Rank::MostOfThousand => if_below(1000, count),
        Rank::Greatest => None,
    }
}

/// The time at a rank, as a figure: of a pending request it is a bound.
pub fn ranked_figure(times: &Spread, rank: Rank) -> Option<Figure>
    ensures { result ≡ ranked_figure times.now rank }
{
    let few = few_for(rank, times.count);
    match time_in(times, rank) {
        None => None,
        Some(Time::Known(ticks)) => Some(Figure {
            number: ticks,
            is_bound: false,
            few,
        }),
        Some(Time::More(ticks)) => Some(Figure {
            number: ticks,
            is_bound: true,
            few,
        }),
    }
}

/// A number as it is written: whole ones, or with three digits after the point.
pub fn number(alloc: Global, number: u64, unit: Unit) -> Result<String, AllocError> {
    match unit {
        Unit::One => format!(in alloc; "{number}"),
        Unit::Thousandth => {
            let (ones, rest) = (number / 1000, number % 1000);
            format!(in alloc; "{ones}.{rest:03}")
        }
    }
}

/// A figure in one cell: `>` before a bound, and after a rank of too few times how many these are.
fn cell(alloc: Global, figure: Figure, unit: Unit) -> Result<String, AllocError> {
    let digits = number(alloc, figure.number, unit)?;
    let bound = if figure.is_bound { ">" } else { "" };
    match figure.few {
        Some(count) => format!(in alloc; "{bound}{} ({count})", digits.as_str()),
        None => format!(in alloc; "{bound}{}", digits.as_str()),
    }
}

/// Puts the columns of a CSV file that a figure has: its number, `>` if that is a bound, and of how
/// many times it is where these are too few.
fn put_columns(
    alloc: Global,
    row: &mut Vec<String>,
    figure: Figure,
    unit: Unit,
) -> Result<(), AllocError> {
    row.push(number(alloc, figure.number, unit)?)?;
    let bound = if figure.is_bound { ">" } else { "" };
    row.push(String::from_str(alloc, bound)?)?;
    row.push(match figure.few {
        Some(count) => format!(in alloc; "{count}")?,
        None => String::new(alloc),
    })?;
    Ok(())
}

impl NumberForm {
    /// Puts a figure at the end of a row; a dash where there is none. In a CSV file it has three
    /// cells.
    pub fn put_figure(
        self,
        alloc: Global,
        row: &mut Vec<String>,
        figure: Option<Figure>,
        unit: Unit,
    ) -> Result<(), AllocError> {
        match (figure, self) {
            (Some(figure), NumberForm::Columns) => row.push(cell(alloc, figure, unit)?)?,
            (Some(figure), NumberForm::Csv) => put_columns(alloc, row, figure, unit)?,
            (None, _) => self.put_name(alloc, row, String::from_str(alloc, "-")?, ["", ""])?,
        }
        Ok(())
    }

    /// Puts the heading of figures at the end of a row: their name, and in a CSV file those of the
    /// cells of a bound and of too few times.
    pub fn put_heading(
        self,
        alloc: Global,
        row: &mut Vec<String>,
        name: String,
    ) -> Result<(), AllocError> {
        let bound = format!(in alloc; "{} bound", name.as_str())?;
        let few = format!(in alloc; "{} of", name.as_str())?;
        self.put_name(alloc, row, name, [bound.as_str(), few.as_str()])
    }

    /// Puts a cell at the end of a row, and in a CSV file two more.
    fn put_name(
        self,
        alloc: Global,
        row: &mut Vec<String>,
        name: String,
        more: [&str; 2],
    ) -> Result<(), AllocError> {
        row.push(name)?;
        match self {
            NumberForm::Columns => {}
            NumberForm::Csv => {
                row.push(String::from_str(alloc, more[0])?)?;
                row.push(String::from_str(alloc, more[1])?)?;
            }
        }
        Ok(())
    }
}
