//! A table of rows, and the check of one.

use crate::escape::{escape, unescape};
use crate::sheet::{Row, read_rows};
use anyhow::{Context, Result, bail};
use std::alloc::Global;
use std::{env, fs};

/// A file of rows of one kind, with what its rows are given to.
pub trait Table {
    /// The name of the file that the rows stand in.
    fn file(&self) -> &'static str;

    /// What comes for what a row gives. The rows of a table come in order, so a table may go on with what
    /// the row before left.
    fn answer(&mut self, alloc: Global, given: &str) -> Result<Vec<u8>>;
}

/// Checks the tables that the words of the command line name, or all of them where there are no words, and
/// prints a line for each. It answers how many differ.
pub fn check_tables<T: Table>(rt: &HostRuntime, tables: &mut [T]) -> Result<u32> {
    let words: Vec<String> = env::args(rt)?.collect(rt.alloc())?;
    let mut differing = 0u32;
    for table in tables {
        let Some(path) = path_of(words.as_slice(), table.file()) else {
            continue;
        };
        if !check_table(rt, table, path)? {
            differing = differing.saturating_add(1);
        }
    }
    Ok(differing)
}

/// The path of a file, if it is to be checked: its own name where there are no words behind that of the
/// program, else the first word that is a path of a file with this name.
fn path_of<'a>(words: &'a [String], file: &'a str) -> Option<&'a str> {
    let (_program, paths) = words.split_first()?;
    if paths.is_empty() {
        return Some(file);
    }
    for path in paths {
        let (_folder, name) = path.rsplit_once('/').unwrap_or(("", path.as_str()));
        if name == file {
            return Some(path.as_str());
        }
    }
    None
}

/// Checks the rows of a file and prints its line: the count of its rows, or the first that differs, with what
/// was due and what came. It answers whether what comes is always what is due.
fn check_table<T: Table>(rt: &HostRuntime, table: &mut T, path: &str) -> Result<bool> {
    let alloc = rt.alloc();
    let text = fs::read_to_string(rt, path).context(format_args!("reading {path}"))?;
    let rows = read_rows(alloc, text.as_str())?;
    let difference = first_difference(alloc, table, rows.as_slice())?;
    match &difference {
        None => println!(rt; "{}: {} rows", table.file(), rows.len())?,
        Some(difference) => println!(rt; "{}, {difference}", table.file())?,
    }
    Ok(difference.is_none())
}

/// The first row whose answer is not the one that is due, with both.
fn first_difference<T: Table>(
    alloc: Global,
    table: &mut T,
    rows: &[Row],
) -> Result<Option<String>> {
    for row in rows {
        let line = row.line;
        let came = table
            .answer(alloc, row.given.as_str())
            .context(format_args!("line {line}"))?;
        let due = unescape(alloc, row.due.as_str())?;
        if came.as_slice() != due.as_slice() {
            let due = escape(alloc, due.as_slice())?;
            let came = escape(alloc, came.as_slice())?;
            return Ok(Some(format!(in alloc; "line {line}\n  due:  {due}\n  came: {came}")?));
        }
    }
    Ok(None)
}

/// The end of a program of rows, of which each check found so many files that differ: a failure where one did.
pub fn end_of_checks(differing: &[u32]) -> Result<()> {
    let mut files = 0u32;
    for count in differing {
        files = files.saturating_add(*count);
    }
    if files > 0 {
        bail!("rows differ in {files} files");
    }
    Ok(())
}
