//! Checks the tables of values, outcomes, the machine, programs over virtual registers, what passes make, programs over
//! temporaries, what is live in these, and frames: each row of the folder `data/` says what a public function is given
//! and what is due.
//!
//! The form of the files is described in `docs/rows.md`, and that of each kind of row at the head of its file.
#![tactic(auto)]

use anyhow::Result;
use row_sheets::end_of_checks;

/// Checks the files that the words name, or all of them in this folder where there are no words.
fn main(rt: HostRuntime) -> Result<()> {
    let differing = [
        value_rows::check_rows(&rt)?,
        machine_rows::check_rows(&rt)?,
        vm_rows::check_rows(&rt)?,
        pass_rows::check_rows(&rt)?,
        temp_rows::check_rows(&rt)?,
        frame_rows::check_rows(&rt)?,
    ];
    end_of_checks(&differing)
}
