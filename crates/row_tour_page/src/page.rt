//! The page `docs/tour.md`: a C program, and one of its statements, as each pass of a compiler shows them.

use crate::beside::{part_lines, put_rows};
use crate::calls::{CFile, output, output_text};
use crate::passes::{
    ALLOC, ASM, BESIDE, BLOCK, EDGE, FILE, GRAPH, LABEL, OPENING, SELECT, TREE, VM,
};
use crate::section::{Section, put_head};
use crate::words::{Line, lines_behind, listing_lines, put_listing};
use anyhow::Result;
use row_calls::Compiler;

/// Writes a section with all that its call puts, and gives that.
fn show<C: Compiler>(
    rt: &HostRuntime,
    compiler: &C,
    section: &Section,
    file: &CFile<'_>,
) -> Result<String> {
    let shown = output_text(rt.alloc(), compiler, section.call, file)?;
    put_head(rt, section)?;
    println!(rt; "{shown}```")?;
    Ok(shown)
}

/// Writes the section of the slots, and gives the lines of the block in them.
fn show_places<C: Compiler>(
    rt: &HostRuntime,
    compiler: &C,
    file: &CFile<'_>,
) -> Result<Vec<String>> {
    let alloc = rt.alloc();
    let shown = output_text(alloc, compiler, ALLOC.call, file)?;
    let mut places = part_lines(alloc, shown.as_str(), BLOCK)?;
    for line in part_lines(alloc, shown.as_str(), EDGE)? {
        places.push(line)?;
    }
    put_head(rt, &ALLOC)?;
    for line in &places {
        println!(rt; "{line}")?;
    }
    println!(rt; "```")?;
    Ok(places)
}

/// Writes the section of the assembly with its words, and gives these.
fn show_words<C: Compiler>(rt: &HostRuntime, compiler: &C, file: &CFile<'_>) -> Result<Vec<Line>> {
    let alloc = rt.alloc();
    let asm = output_text(alloc, compiler, ASM.call, file)?;
    let image = output(alloc, compiler, BESIDE.call, file)?;
    let lines = listing_lines(alloc, asm.as_str(), image.as_slice())?;
    put_head(rt, &ASM)?;
    put_listing(rt, lines.as_slice())?;
    println!(rt; "```")?;
    Ok(lines)
}

/// Writes the page about a program with this text, by calls of the compiler. It fails where a call does not write what
/// it was asked for.
pub fn put_page<C: Compiler>(rt: &HostRuntime, compiler: &C, text: &str) -> Result<()> {
    let alloc = rt.alloc();
    let file = CFile { name: FILE, text };
    println!(rt; "{OPENING}\n\n```c\n{text}```")?;
    show(rt, compiler, &TREE, &file)?;
    show(rt, compiler, &VM, &file)?;
    show(rt, compiler, &GRAPH, &file)?;
    let selected = show(rt, compiler, &SELECT, &file)?;
    let places = show_places(rt, compiler, &file)?;
    let lines = show_words(rt, compiler, &file)?;
    put_head(rt, &BESIDE)?;
    put_rows(
        rt,
        part_lines(alloc, selected.as_str(), BLOCK)?.as_slice(),
        places.as_slice(),
        lines_behind(lines.as_slice(), LABEL),
    )?;
    println!(rt; "```")?;
    Ok(())
}
