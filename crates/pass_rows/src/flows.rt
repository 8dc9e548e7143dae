//! What flows between the blocks of graphs that are given by their edges.

ghost use Rattle.std.specs.Prelude.{◌≡◌};
ghost use Rattle.bk_bits.specs.Sets.{has};
ghost use Rattle.bitvector_flow.specs.Flows.{has_at};

use anyhow::{Context, Result, bail, ensure};
use bitvector_flow::{Flow, Problem, solve};
use bk_bits::BitSet;
use bk_containers::Seq;
use cfg::Graph;
use row_sheets::number::number;
use std::alloc::Global;

/// The most blocks of a graph.
const MOST_BLOCKS: usize = 256;

/// A problem as a table: for each block the marks of the numbers that it makes, and of those that it stops.
#[derive(Drop)]
struct FlowTable {
    size: u32,
    made_marks: Seq<Seq<bool>>,
    stopped_marks: Seq<Seq<bool>>,
    is_backward: bool,
}

/// Whether a number has a mark.
fn has_mark(marks: &[bool], k: u32) -> bool
    ensures { result ≡ has marks.now k }
{
    if k as usize >= marks.len() {
        return false;
    }
    marks[k as usize]
}

/// Whether a number has a mark in a block.
fn has_mark_in(blocks: &[Seq<bool>], block: u32, k: u32) -> bool
    ensures { result ≡ has_at blocks.now block k }
{
    if block as usize >= blocks.len() {
        return false;
    }
    has_mark(blocks[block as usize].as_slice(), k)
}

impl Problem for FlowTable {
    ghost bound = { λ t. t.size };

    ghost made = { λ t. has_at t.made_marks };

    ghost stopped = { λ t. has_at t.stopped_marks };

    ghost goes_back = { λ t. t.is_backward };

    fn size(&self) -> u32 {
        self.size
    }

    fn makes(&self, block: u32, k: u32) -> bool {
        has_mark_in(self.made_marks.as_slice(), block, k)
    }

    fn stops(&self, block: u32, k: u32) -> bool {
        has_mark_in(self.stopped_marks.as_slice(), block, k)
    }

    fn backward(&self) -> bool {
        self.is_backward
    }
}

/// What a line says of a block: where it goes on, and which numbers it makes and stops.
#[derive(Drop)]
struct FlowBlock {
    to: Seq<u32>,
    made: Seq<u32>,
    stopped: Seq<u32>,
}

/// Numbers with a blank between.
fn small_numbers(alloc: Global, text: &str) -> Result<Seq<u32>> {
    let mut numbers = Seq::new(alloc);
    for word in text.split(' ') {
        numbers.push(u32::try_from(number(word)?)?)?;
    }
    Ok(numbers)
}

/// The marks of the numbers below a bound that stand in a list.
fn marks_of(alloc: Global, bound: u32, numbers: &[u32]) -> Result<Seq<bool>> {
    let mut marks = Seq::new(alloc);
    for k in 0..bound {
        marks.push(numbers.contains(&k))?;
    }
    Ok(marks)
}

/// The block that the parts of a line say.
fn block_of(alloc: Global, text: &str) -> Result<FlowBlock> {
    let mut block = FlowBlock {
        to: Seq::new(alloc),
        made: Seq::new(alloc),
        stopped: Seq::new(alloc),
    };
    for part in text.split(", ") {
        let (word, rest) = part.split_once(' ').unwrap_or((part, ""));
        match word {
            "" => {}
            "to" => block.to = small_numbers(alloc, rest)?,
            "makes" => block.made = small_numbers(alloc, rest)?,
            "stops" => block.stopped = small_numbers(alloc, rest)?,
            _ => bail!("no part of a block: {word:?}"),
        }
    }
    Ok(block)
}

/// What a row says, as far as it was read.
#[derive(Drop)]
struct Row {
    succ: Seq<Seq<u32>>,
    table: FlowTable,
}

impl Row {
    fn new(alloc: Global) -> Row {
        Row {
            succ: Seq::new(alloc),
            table: FlowTable {
                size: 0,
                made_marks: Seq::new(alloc),
                stopped_marks: Seq::new(alloc),
                is_backward: false,
            },
        }
    }

    /// Reads the line of the next block.
    fn take_block(&mut self, alloc: Global, name: &str, rest: &str) -> Result<()> {
        let due = format!(in alloc; "B{}", self.succ.len())?;
        ensure!(name == due.as_str(), "{name:?} stands for {due}");
        let FlowBlock { to, made, stopped } = block_of(alloc, rest)?;
        let size = self.table.size;
        let made = marks_of(alloc, size, made.as_slice())?;
        let stopped = marks_of(alloc, size, stopped.as_slice())?;
        self.succ.push(to)?;
        self.table.made_marks.push(made)?;
        self.table.stopped_marks.push(stopped)?;
        Ok(())
    }

    /// Reads a line.
    fn take(&mut self, alloc: Global, line: &str) -> Result<()> {
        let (word, rest) = line.split_once(' ').unwrap_or((line, ""));
        match word {
            "bound" => self.table.size = u32::try_from(number(rest)?)?,
            "forward" => self.table.is_backward = false,
            "backward" => self.table.is_backward = true,
            _ => self.take_block(alloc, word, rest)?,
        }
        Ok(())
    }
}

/// Puts a block behind others, once for each of its edges that leads to a block.
fn put_sources(sources: &mut Seq<u32>, block: usize, nexts: &[u32], to: usize) -> Result<()> {
    for next in nexts {
        if *next as usize == to {
            sources.push(u32::try_from(block)?)?;
        }
    }
    Ok(())
}

/// The blocks from which an edge leads to a block, once for each edge.
fn sources_of(alloc: Global, succ: &[Seq<u32>], to: usize) -> Result<Seq<u32>> {
    let mut sources = Seq::new(alloc);
    for (block, nexts) in succ.iter().enumerate() {
        put_sources(&mut sources, block, nexts.as_slice(), to)?;
    }
    Ok(sources)
}

/// The graph of edges.
fn graph_of(alloc: Global, succ: Seq<Seq<u32>>) -> Result<Graph> {
    let mut pred = Seq::new(alloc);
    for to in 0..succ.len() {
        pred.push(sources_of(alloc, succ.as_slice(), to)?)?;
    }
    Ok(Graph { succ, pred })
}

/// The least sets of a table over a graph.
fn flow_of(alloc: Global, graph: &Graph, table: &FlowTable) -> Result<Flow> {
    ensure!(graph.succ.len() <= MOST_BLOCKS, "too many blocks");
    ensure!(
        graph.pred.len() == graph.succ.len(),
        "a block has no sources"
    );
    Ok(solve(alloc, graph, table)?)
}

/// Puts the members of a set of numbers below a bound.
fn put_members(shown: &mut Vec<u8>, alloc: Global, set: &BitSet, bound: u32) -> Result<()> {
    let mut from = 0u32;
    for _ in 0..bound {
        match set.next_from(from) {
            None => return Ok(()),
            Some(k) => {
                shown.extend_from_slice(format!(in alloc; " {k}")?.as_bytes())?;
                from = k.saturating_add(1);
            }
        }
    }
    Ok(())
}

/// A line for each block, with what flows at its top and at its bottom.
fn text_of(alloc: Global, flow: &Flow, bound: u32) -> Result<Vec<u8>> {
    let mut shown = Vec::new(alloc);
    for (block, top) in flow.top.as_slice().iter().enumerate() {
        let bottom = flow
            .bottom
            .as_slice()
            .get(block)
            .context("a block has no bottom")?;
        shown.extend_from_slice(format!(in alloc; "B{block} top")?.as_bytes())?;
        put_members(&mut shown, alloc, top, bound)?;
        shown.extend_from_slice(b" bottom")?;
        put_members(&mut shown, alloc, bottom, bound)?;
        shown.push(b'\n')?;
    }
    Ok(shown)
}

/// What flows in the graph of a row.
pub fn answer(alloc: Global, given: &str) -> Result<Vec<u8>> {
    let mut row = Row::new(alloc);
    for line in given.lines() {
        row.take(alloc, line)?;
    }
    let Row { succ, table } = row;
    let graph = graph_of(alloc, succ)?;
    let flow = flow_of(alloc, &graph, &table)?;
    text_of(alloc, &flow, table.size)
}
