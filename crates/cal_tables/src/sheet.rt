//! A table of words, as text whose columns line up or as CSV.

use crate::labels::letters;
use std::alloc::{AllocError, Global};

/// As what numbers are written.
#[derive(Clone, Copy, Debug, PartialEq, Eq)]
pub enum NumberForm {
    /// In columns that line up.
    Columns,
    /// As a CSV file.
    Csv,
}

/// Rows of cells. The first cell of a row says what the others are. A row may have fewer cells than
/// another.
#[derive(Drop)]
pub struct Sheet {
    rows: Vec<Vec<String>>,
}

/// The greatest length of a cell in a column.
fn width(rows: &[Vec<String>], column: usize) -> usize {
    let mut width = 0usize;
    for row in rows {
        if let Some(cell) = row.as_slice().get(column) {
            width = width.max(letters(cell.as_str()));
        }
    }
    width
}

/// Puts so many blanks.
fn put_blanks(text: &mut String, count: usize) -> Result<(), AllocError> {
    for _ in 0..count {
        text.push_str(" ")?;
    }
    Ok(())
}

/// Puts a cell of a column: the first to the left, each other one to the right of its column.
fn put_cell(
    text: &mut String,
    rows: &[Vec<String>],
    column: usize,
    cell: &str,
) -> Result<(), AllocError> {
    let blanks = width(rows, column).saturating_sub(letters(cell));
    if column == 0 {
        text.push_str(cell)?;
        return put_blanks(text, blanks);
    }
    text.push_str("  ")?;
    put_blanks(text, blanks)?;
    text.push_str(cell)?;
    Ok(())
}

/// Puts a row whose columns line up with those of all rows.
fn put_row(text: &mut String, rows: &[Vec<String>], row: &[String]) -> Result<(), AllocError> {
    for column in 0..row.len() {
        put_cell(text, rows, column, row[column].as_str())?;
    }
    text.push_str("\n")?;
    Ok(())
}

/// How many cells the longest row has.
fn columns(rows: &[Vec<String>]) -> usize {
    let mut columns = 0usize;
    for row in rows {
        columns = columns.max(row.len());
    }
    columns
}

/// Puts a cell as a field of a CSV file: between quotes where it has a quote, a comma or a line end,
/// with each quote in it twice.
fn put_field(text: &mut String, cell: &str) -> Result<(), AllocError> {
    if !cell.contains('"') && !cell.contains(',') && !cell.contains('\n') && !cell.contains('\r') {
        return text.push_str(cell);
    }
    text.push_str("\"")?;
    for (at, part) in cell.split('"').enumerate() {
        if at > 0 {
            text.push_str("\"\"")?;
        }
        text.push_str(part)?;
    }
    text.push_str("\"")
}

/// Puts a row as one of a CSV file of so many columns. Where the row has no cell there is nothing
/// between the commas.
fn put_csv_row(text: &mut String, columns: usize, row: &[String]) -> Result<(), AllocError> {
    for column in 0..columns {
        if column > 0 {
            text.push_str(",")?;
        }
        if let Some(cell) = row.get(column) {
            put_field(text, cell.as_str())?;
        }
    }
    text.push_str("\n")?;
    Ok(())
}

impl Sheet {
    /// A table of no rows.
    pub fn new(alloc: Global) -> Sheet {
        Sheet {
            rows: Vec::new(alloc),
        }
    }

    /// Puts a row at the end. Fails only when out of memory.
    pub fn put(&mut self, row: Vec<String>) -> Result<(), AllocError> {
        self.rows.push(row)?;
        Ok(())
    }

    /// The rows in this form. Fails only when out of memory.
    pub fn written(&self, alloc: Global, form: NumberForm) -> Result<String, AllocError> {
        match form {
            NumberForm::Columns => self.in_columns(alloc),
            NumberForm::Csv => self.csv(alloc),
        }
    }

    /// The rows in columns that line up. Fails only when out of memory.
    fn in_columns(&self, alloc: Global) -> Result<String, AllocError> {
        let mut text = String::new(alloc);
        for row in self.rows.as_slice() {
            put_row(&mut text, self.rows.as_slice(), row.as_slice())?;
        }
        Ok(text)
    }

    /// The rows as a CSV file. Fails only when out of memory.
    fn csv(&self, alloc: Global) -> Result<String, AllocError> {
        let mut text = String::new(alloc);
        let columns = columns(self.rows.as_slice());
        for row in self.rows.as_slice() {
            put_csv_row(&mut text, columns, row.as_slice())?;
        }
        Ok(text)
    }
}
