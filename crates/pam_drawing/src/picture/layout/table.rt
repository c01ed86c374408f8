//! Tables of numbers.

ghost use Rattle.std.specs.Prelude.{◌≡◌, ◌+◌, IfOk};
ghost use Rattle.pam_drawing.specs.picture.inner.Laned.{number_at};

use std::alloc::{AllocError, Global};

/// Numbers in rows and columns. One that was never set is 0, and so is one outside the table.
#[derive(Drop)]
pub(super) struct Table {
    columns: usize,
    cells: Vec<usize>,
}

impl Table {
    pub fn new(alloc: Global, rows: usize, columns: usize) -> Result<Table, AllocError> {
        let cells = vec![in alloc; 0; rows.saturating_mul(columns)]?;
        Ok(Table { columns, cells })
    }

    fn index(&self, row: usize, column: usize) -> usize {
        if column < self.columns {
            row.saturating_mul(self.columns).saturating_add(column)
        } else {
            usize::MAX
        }
    }

    pub fn get(&self, row: usize, column: usize) -> usize {
        number_at(&self.cells, self.index(row, column))
    }

    /// Sets a number. Does nothing outside the table.
    pub fn set(&mut self, row: usize, column: usize, number: usize) {
        let index = self.index(row, column);
        if index < self.cells.len() {
            self.cells[index] = number;
        }
    }
}

/// Returns a number of a list; 0 past its end.
pub(super) fn number_at(numbers: &[usize], index: usize) -> usize
    ensures { result ≡ number_at numbers.now index }
{
    match numbers.get(index) {
        Some(number) => *number,
        None => 0,
    }
}

/// Adds two lengths. A sum past the largest number is an error, as if memory had run out: there is none for such a picture.
pub(super) fn sum(length: usize, more: usize) -> Result<usize, AllocError>
    ensures { IfOk result (λ sum. sum ≡ length + more) }
{
    match length.checked_add(more) {
        Some(sum) => Ok(sum),
        None => Err(AllocError),
    }
}

/// Returns the same numbers.
pub(super) fn copied(alloc: Global, numbers: &[usize]) -> Result<Vec<usize>, AllocError>
    ensures { IfOk result (λ copy. copy.items ≡ numbers.now) }
{
    let mut copy = Vec::new(alloc);
    for number in numbers {
        copy.push(*number)?;
    }
    Ok(copy)
}
