//! Checks the tables of texts, types, units, lowered programs and generated texts: each row of the folder `data/` says
//! what a public function is given and what is due.
//!
//! The form of the files is described in `docs/rows.md`, and that of each kind of row at the head of its file.
#![tactic(auto)]

use anyhow::Result;
use row_sheets::end_of_checks;

/// Checks the files that the words name, or all of them in this folder where there are no words.
fn main(rt: HostRuntime) -> Result<()> {
    let differing = [
        text_rows::check_rows(&rt)?,
        type_rows::check_rows(&rt)?,
        expression_rows::check_rows(&rt)?,
        unit_rows::check_rows(&rt)?,
        typed_rows::check_rows(&rt)?,
        program_rows::check_rows(&rt)?,
    ];
    end_of_checks(&differing)
}
