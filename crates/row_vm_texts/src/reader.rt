//! Programs from their texts.

use crate::insns::insn;
use anyhow::{Context, Result, bail};
use bk_containers::{Name, Seq};
use mem_objects::{DataCell, DataObject, data_end, next_place};
use pass_checks::{Parts, function_of};
use pass_core::function::{Func, MemoryLocal};
use row_sheets::escape::unescape;
use row_sheets::number::number;
use std::alloc::Global;
use suifvm_checks::program::program_of;
use suifvm_ir::insn::VmInsn;
use suifvm_ir::program::VmProgram;

/// A program as far as its text was read.
#[derive(Drop)]
pub struct VmReader {
    alloc: Global,
    names: Vec<String>,
    functions: Seq<Func<VmInsn>>,
    globals: Seq<DataObject>,
    function: Option<Parts<VmInsn>>,
}

/// The number of a word, which is 32 bits long.
fn small(text: &str) -> Result<u32> {
    Ok(u32::try_from(number(text)?)?)
}

impl VmReader {
    /// A program whose text names these functions, and nothing of it yet.
    pub fn new(alloc: Global, names: Vec<String>) -> VmReader {
        VmReader {
            alloc,
            names,
            functions: Seq::new(alloc),
            globals: Seq::new(alloc),
            function: None,
        }
    }

    /// Ends the function that was begun, if there is one.
    fn end_function(&mut self) -> Result<()> {
        if let Some(parts) = self.function.take() {
            let function = function_of(self.alloc, parts)?.context("a function is not lawful")?;
            self.functions.push(function)?;
        }
        Ok(())
    }

    /// Begins a function.
    fn begin_function(&mut self, name: &str) -> Result<()> {
        self.end_function()?;
        self.function = Some(Parts {
            name: Name::from_slice(self.alloc, name.as_bytes())?,
            params: 0,
            registers: 0,
            objects: Seq::new(self.alloc),
            blocks: Vec::new(self.alloc),
        });
        Ok(())
    }

    /// Reads an object of static storage: its size, its alignment, whether it may be written, and its first bytes.
    fn take_global(&mut self, text: &str) -> Result<()> {
        let mut words = text.splitn(4, ' ');
        let size = number(words.next().context("no size")?)?;
        let align = small(words.next().context("no alignment")?)?;
        let writable = words.next() == Some("writable");
        let mut cells = Seq::new(self.alloc);
        for byte in &unescape(self.alloc, words.next().unwrap_or(""))? {
            cells.push(DataCell::Byte(*byte))?;
        }
        let end = data_end(self.globals.as_slice());
        if end > u64::from(u32::MAX) {
            bail!("too many bytes of data");
        }
        self.globals.push(DataObject {
            name: Name::from_slice(self.alloc, b"")?,
            size,
            align,
            offset: next_place(end),
            writable,
            cells,
        })?;
        Ok(())
    }

    /// The function that was begun.
    fn parts(&mut self) -> Result<&mut Parts<VmInsn>> {
        self.function.as_mut().context("no function was begun")
    }

    /// Reads a line of a function.
    fn take_part(&mut self, word: &str, rest: &str) -> Result<()> {
        let alloc = self.alloc;
        match word {
            "params" => self.parts()?.params = small(rest)?,
            "registers" => self.parts()?.registers = small(rest)?,
            "object" => {
                let (size, align) = rest.split_once(' ').context("no alignment")?;
                let object = MemoryLocal {
                    size: number(size)?,
                    align: small(align)?,
                };
                self.parts()?.objects.push(object)?;
            }
            _ => {
                let _number = number(word)?;
                let insn = insn(alloc, self.names.as_slice(), rest)?;
                let block = self
                    .parts()?
                    .blocks
                    .last_mut()
                    .context("no block was begun")?;
                block.push(insn)?;
            }
        }
        Ok(())
    }

    /// Reads a line.
    pub fn take(&mut self, line: &str) -> Result<()> {
        let alloc = self.alloc;
        if line.starts_with('B') && line.ends_with(':') {
            self.parts()?.blocks.push(Seq::new(alloc))?;
            return Ok(());
        }
        let (word, rest) = line.split_once(' ').context("a line has a word in front")?;
        match word {
            "func" => self.begin_function(rest),
            "global" => self.take_global(rest),
            _ => self.take_part(word, rest),
        }
    }

    /// The program.
    pub fn program(self) -> Result<VmProgram> {
        let mut reader = self;
        reader.end_function()?;
        let VmReader {
            functions,
            globals,
            ..
        } = reader;
        program_of(functions, globals).context("the program is not lawful")
    }
}
