//! Functions, and placements of their temporaries, from their texts.

use crate::insns::{Around, behind, insn};
use alloc_model::allocation::{Allocation, EdgeCode, TempPlace, Transfer};
use anyhow::{Context, Result, ensure};
use bk_containers::{Name, Seq};
use pass_checks::{Parts, function_of};
use pass_core::function::{Func, MemoryLocal};
use row_sheets::number::{number, numbers};
use std::alloc::{AllocError, Global};
use temp_ir::insn::TempInsn;
use temp_ir::text_parts::put_insn;

/// A placement of the temporaries of a function.
#[derive(Drop)]
pub struct Placement {
    /// Whether a line of it was read.
    pub is_given: bool,
    at: Seq<Seq<Transfer>>,
    regs: Seq<Seq<u8>>,
    edges: Vec<EdgeCode>,
}

/// What was read.
#[derive(Drop)]
pub struct TempReader {
    alloc: Global,
    around: Around,
    pub functions: Vec<Func<TempInsn>>,
    pub placements: Vec<Placement>,
    function: Option<Parts<TempInsn>>,
    placement: Placement,
    /// The transfers that were read since the last instruction.
    transfers: Seq<Transfer>,
}

/// A placement of which nothing was read.
fn no_placement(alloc: Global) -> Placement {
    Placement {
        is_given: false,
        at: Seq::new(alloc),
        regs: Seq::new(alloc),
        edges: Vec::new(alloc),
    }
}

/// The number of a word, which is 32 bits long.
fn small(text: &str) -> Result<u32> {
    Ok(u32::try_from(number(text)?)?)
}

/// The number of a register.
pub fn register(text: &str) -> Result<u8> {
    Ok(u8::try_from(behind(text, "$")?)?)
}

/// How many parameters each function of a text has.
fn params_of(alloc: Global, given: &str) -> Result<Vec<u32>> {
    let mut params = Vec::new(alloc);
    for line in given.lines() {
        if let Some(count) = line.strip_prefix("params ") {
            params.push(small(count)?)?;
        }
    }
    Ok(params)
}

/// A transfer, if the word is that of one.
pub fn transfer(word: &str, rest: &str) -> Result<Option<Transfer>> {
    let mut words = rest.split(' ');
    let temp = words.next().unwrap_or("");
    let first = words.next().unwrap_or("");
    match word {
        "store" => Ok(Some(Transfer::Store {
            temp: behind(temp, "t")?,
            reg: register(first)?,
        })),
        "load" => Ok(Some(Transfer::Load {
            temp: behind(temp, "t")?,
            reg: register(first)?,
        })),
        "move" => Ok(Some(Transfer::Shift {
            temp: behind(temp, "t")?,
            from: register(first)?,
            to: register(words.next().unwrap_or(""))?,
        })),
        _ => Ok(None),
    }
}

/// Empty maps, as many as there are blocks.
fn empty_maps(alloc: Global, count: usize) -> Result<Seq<Seq<TempPlace>>, AllocError> {
    let mut maps = Seq::new(alloc);
    for _ in 0..count {
        maps.push(Seq::new(alloc))?;
    }
    Ok(maps)
}

/// The allocation of a function by a placement.
pub fn allocation(alloc: Global, f: &Func<TempInsn>, placement: Placement) -> Result<Allocation> {
    let Placement {
        at,
        regs,
        edges,
        ..
    } = placement;
    Ok(Allocation {
        func: temp_ir::copy_fn(alloc, f)?,
        top: empty_maps(alloc, f.blocks.len())?,
        bottom: empty_maps(alloc, f.blocks.len())?,
        at,
        regs,
        edges: Seq::from_vec(edges),
        journal: Seq::new(alloc),
    })
}

impl TempReader {
    /// What stands in a text.
    pub fn of(alloc: Global, given: &str) -> Result<TempReader> {
        let mut reader = TempReader {
            alloc,
            around: Around {
                params: params_of(alloc, given)?,
                service: 0,
            },
            functions: Vec::new(alloc),
            placements: Vec::new(alloc),
            function: None,
            placement: no_placement(alloc),
            transfers: Seq::new(alloc),
        };
        for line in given.lines() {
            reader.take(line)?;
        }
        reader.end_function()?;
        Ok(reader)
    }

    /// Ends the function that was begun, if there is one.
    fn end_function(&mut self) -> Result<()> {
        let alloc = self.alloc;
        if let Some(parts) = self.function.take() {
            let function = function_of(alloc, parts)?.context("a function is not lawful")?;
            self.functions.push(function)?;
            let placement = std::mem::replace(&mut self.placement, no_placement(alloc));
            self.placements.push(placement)?;
        }
        Ok(())
    }

    /// Begins a function.
    fn begin_function(&mut self, name: &str) -> Result<()> {
        self.end_function()?;
        self.function = Some(Parts {
            name: Name::from_slice(self.alloc, name.as_bytes())?,
            params: 0,
            registers: 0,
            objects: Seq::new(self.alloc),
            blocks: Vec::new(self.alloc),
        });
        Ok(())
    }

    /// The function that was begun.
    fn parts(&mut self) -> Result<&mut Parts<TempInsn>> {
        self.function.as_mut().context("no function was begun")
    }

    /// The transfers that were read since the last instruction, which are left out from now on.
    fn take_transfers(&mut self) -> Seq<Transfer> {
        let alloc = self.alloc;
        std::mem::replace(&mut self.transfers, Seq::new(alloc))
    }

    /// Reads a transfer: of the edge that was read last, or of the instruction that comes.
    fn take_transfer(&mut self, transfer: Transfer) -> Result<()> {
        self.placement.is_given = true;
        match self.placement.edges.last_mut() {
            Some(edge) => edge.code.push(transfer)?,
            None => self.transfers.push(transfer)?,
        }
        Ok(())
    }

    /// Reads an edge, whose transfers stand behind it.
    fn take_edge(&mut self, rest: &str) -> Result<()> {
        let (from, to) = rest.split_once(' ').context("an edge has two blocks")?;
        let alloc = self.alloc;
        self.placement.is_given = true;
        self.placement.edges.push(EdgeCode {
            from: behind(from, "B")?,
            to: behind(to, "B")?,
            code: Seq::new(alloc),
        })?;
        Ok(())
    }

    /// Reads an instruction and the registers of its temporaries. Its text has to be that which it is shown by.
    fn take_insn(&mut self, rest: &str) -> Result<()> {
        let alloc = self.alloc;
        let (text, given) = rest.split_once(" | ").unwrap_or((rest, ""));
        let insn = insn(alloc, &mut self.around, text)?;
        let mut shown = Vec::new(alloc);
        put_insn(&mut shown, "t", &insn)?;
        ensure!(
            shown.as_slice() == text.as_bytes(),
            "the instruction's text is another one than {text:?}"
        );
        let mut registers = Seq::new(alloc);
        if !given.is_empty() {
            self.placement.is_given = true;
            for register in &numbers(alloc, given)? {
                registers.push(u8::try_from(*register)?)?;
            }
        }
        let transfers = self.take_transfers();
        self.placement.at.push(transfers)?;
        self.placement.regs.push(registers)?;
        let blocks = &mut self.parts()?.blocks;
        blocks.last_mut().context("no block was begun")?.push(insn)?;
        Ok(())
    }

    /// Reads the sizes of memory locals, which begin at multiples of 8.
    fn take_objects(&mut self, rest: &str) -> Result<()> {
        let alloc = self.alloc;
        let sizes = numbers(alloc, rest)?;
        let parts = self.parts()?;
        for size in &sizes {
            parts.objects.push(MemoryLocal {
                size: *size,
                align: 8,
            })?;
        }
        Ok(())
    }

    /// Reads a line.
    fn take(&mut self, line: &str) -> Result<()> {
        let alloc = self.alloc;
        if line.starts_with('B') && line.ends_with(':') {
            self.parts()?.blocks.push(Seq::new(alloc))?;
            return Ok(());
        }
        let (word, rest) = line.split_once(' ').context("a line has a word in front")?;
        if let Some(transfer) = transfer(word, rest)? {
            return self.take_transfer(transfer);
        }
        match word {
            "func" => self.begin_function(rest),
            "edge" => self.take_edge(rest),
            "params" => {
                self.parts()?.params = small(rest)?;
                Ok(())
            }
            "temps" => {
                self.parts()?.registers = small(rest)?;
                Ok(())
            }
            "objects" => self.take_objects(rest),
            "input" | "turns" | "stack" | "globals" => Ok(()),
            _ => {
                let _number = number(word)?;
                self.take_insn(rest)
            }
        }
    }
}
