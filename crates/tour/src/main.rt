//! Writes the page `docs/tour.md`, a C program, and one of its statements, as each pass of the compiler shows them; and
//! behind it the page `docs/second-chance.md`, what the default allocator does with a function.
#![tactic(auto)]

use anyhow::{Context, Result};
use row_msc_calls::Msc;
use row_tour_page::{put_page, put_second_chances};
use std::fs;

fn main(rt: HostRuntime) -> Result<()> {
    let tour = fs::read_to_string(&rt, "tour.c").context("no C file")?;
    put_page(&rt, &Msc, tour.as_str())?;
    let dot = fs::read_to_string(&rt, "dot.c").context("no C file")?;
    put_second_chances(&rt, &Msc, dot.as_str())
}
