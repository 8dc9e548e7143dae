//! The rows of a file.

use std::alloc::{AllocError, Global};

/// What is given and what is due, as they are written, with the number of the line where the row ends
/// what it gives.
#[derive(Drop)]
pub(crate) struct Row {
    pub line: usize,
    pub given: String,
    pub due: String,
}

/// The rows that were read so far.
#[derive(Drop)]
struct Sheet {
    alloc: Global,
    rows: Vec<Row>,
    /// The lines of a row whose arrow has not come yet.
    given: String,
    /// Whether indented lines go to the last row.
    is_open: bool,
}

impl Sheet {
    /// A row with what was given so far and the rest of it.
    fn push_row(&mut self, line: usize, rest: &str) -> Result<(), AllocError> {
        self.given.push_str(rest)?;
        let row = Row {
            line,
            given: self.given.clone()?,
            due: String::new(self.alloc),
        };
        self.given.clear();
        self.rows.push(row)?;
        Ok(())
    }

    /// Puts a line behind what is due of the last row.
    fn push_due(&mut self, due: &str) -> Result<(), AllocError> {
        if let Some(row) = self.rows.last_mut() {
            row.due.push_str(due)?;
            row.due.push_str("\n")?;
        }
        Ok(())
    }

    /// Reads a line that is not one of what is due.
    fn take_given(&mut self, line: usize, text: &str) -> Result<(), AllocError> {
        if let Some(given) = text.strip_suffix(" =>") {
            self.is_open = true;
            self.push_row(line, given)
        } else if let Some((given, due)) = text.rsplit_once(" => ") {
            self.push_row(line, given)?;
            self.push_due(due)
        } else {
            self.given.push_str(text)?;
            self.given.push_str("\n")
        }
    }

    /// Reads a line.
    fn take(&mut self, line: usize, text: &str) -> Result<(), AllocError> {
        if self.is_open {
            if let Some(due) = text.strip_prefix("  ") {
                return self.push_due(due);
            }
            self.is_open = false;
        }
        if self.given.is_empty() && (text.is_empty() || text.starts_with('#')) {
            return Ok(());
        }
        self.take_given(line, text)
    }
}

/// The rows of a text.
pub fn read_rows(alloc: Global, text: &str) -> Result<Vec<Row>, AllocError> {
    let mut sheet = Sheet {
        alloc,
        rows: Vec::new(alloc),
        given: String::new(alloc),
        is_open: false,
    };
    for (line, text) in text.lines().enumerate() {
        sheet.take(line.saturating_add(1), text)?;
    }
    let Sheet { rows, .. } = sheet;
    Ok(rows)
}
