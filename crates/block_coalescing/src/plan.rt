//! What is planned for a block. Nothing is proved of a plan: the walk finds whether it keeps what the block does.

use crate::renamed::{copied, is_pure};
use crate::walk::Plan;
use bk_bits::BitSet;
use pass_core::Insn;
use std::alloc::{AllocError, Global};
use temp_ir::insn::TempInsn;

/// A copy that goes if the value is put into its temporary where it is made.
#[derive(Clone, Copy)]
struct Wish {
    temp: u32,
    copy: usize,
}

/// What is known of a temporary at a place of a block, from what stands behind it.
#[derive(Clone, Copy)]
struct Outlook {
    /// The number of the block of which this is known.
    block: u32,
    live: bool,
    /// The last place where the value that is live is read.
    last_read: usize,
    /// The next place where it is written, and where it is read or written.
    next_write: usize,
    next_touch: usize,
    wish: Option<Wish>,
}

/// The plan of a block so far, from its end. What is known of a temporary counts in its block alone, so nothing is
/// cleared between blocks.
#[derive(Drop)]
pub(crate) struct Planner {
    outlooks: Vec<Outlook>,
    plans: Vec<Plan>,
    block: u32,
}

/// What is known where nothing behind speaks of a temporary.
fn unknown(block: u32, live: bool) -> Outlook {
    Outlook {
        block,
        live,
        last_read: usize::MAX,
        next_write: usize::MAX,
        next_touch: usize::MAX,
        wish: None,
    }
}

impl Planner {
    /// No plan, for so many temporaries.
    pub(crate) fn new(alloc: Global, temps: u32) -> Result<Planner, AllocError> {
        let mut outlooks = Vec::new(alloc);
        outlooks.resize(temps as usize, unknown(0, false))?;
        Ok(Planner {
            outlooks,
            plans: Vec::new(alloc),
            block: 0,
        })
    }

    fn outlook(&self, temp: u32) -> Outlook {
        match self.outlooks.get(temp as usize) {
            None => unknown(self.block, false),
            Some(outlook) => {
                if outlook.block == self.block {
                    *outlook
                } else {
                    unknown(self.block, false)
                }
            }
        }
    }

    fn set_outlook(&mut self, temp: u32, outlook: Outlook) {
        if (temp as usize) < self.outlooks.len() {
            self.outlooks[temp as usize] = outlook;
        }
    }

    fn set_plan(&mut self, at: usize, plan: Plan) {
        if at < self.plans.len() {
            self.plans[at] = plan;
        }
    }

    /// A temporary is read at a place, and again up to another one.
    fn read(&mut self, temp: u32, at: usize, last: usize) {
        let mut outlook = self.outlook(temp);
        if !outlook.live || outlook.last_read < last {
            outlook.last_read = last;
        }
        outlook.live = true;
        outlook.next_touch = at;
        self.set_outlook(temp, outlook);
    }

    /// It is written at a place.
    fn write(&mut self, temp: u32, at: usize) {
        let mut outlook = self.outlook(temp);
        outlook.live = false;
        outlook.next_write = at;
        outlook.next_touch = at;
        outlook.wish = None;
        self.set_outlook(temp, outlook);
    }

    /// Where the value of a temporary goes that an instruction writes at a place: into the temporary of its copy, where
    /// that is neither read nor written between.
    fn destination(&mut self, temp: u32, at: usize) -> u32 {
        let Some(wish) = self.outlook(temp).wish else {
            return temp;
        };
        if self.outlook(wish.temp).next_touch != wish.copy {
            return temp;
        }
        self.set_plan(wish.copy, Plan::Goes);
        self.write(wish.temp, at);
        wish.temp
    }

    /// A copy.
    fn plan_copy(&mut self, to: u32, from: u32, at: usize) {
        let copy = self.outlook(to);
        let source = self.outlook(from);
        if !copy.live || to == from {
            return;
        }
        let place = self.destination(to, at);
        if place == to && copy.last_read < usize::MAX && copy.last_read <= source.next_write {
            self.write(to, at);
            self.read(from, at, copy.last_read);
            return;
        }
        self.set_plan(at, Plan::Stays(place));
        self.write(to, at);
        self.read(from, at, at);
        if !source.live {
            let mut outlook = self.outlook(from);
            outlook.wish = Some(Wish {
                temp: place,
                copy: at,
            });
            self.set_outlook(from, outlook);
        }
    }

    /// What an instruction reads at a place.
    fn plan_reads(&mut self, insn: TempInsn, at: usize) {
        match insn.read_at(0) {
            None => {}
            Some(temp) => self.read(temp, at, at),
        }
        match insn.read_at(1) {
            None => {}
            Some(temp) => self.read(temp, at, at),
        }
    }

    /// Any other instruction.
    fn plan_other(&mut self, insn: TempInsn, at: usize) {
        let mut place = 0;
        match insn.write_at(0) {
            None => {}
            Some(to) => {
                if is_pure(insn) && !self.outlook(to).live {
                    return;
                }
                place = self.destination(to, at);
                self.write(to, at);
            }
        }
        self.set_plan(at, Plan::Stays(place));
        self.plan_reads(insn, at);
    }

    fn plan_insn(&mut self, insn: TempInsn, at: usize) {
        match copied(insn) {
            None => self.plan_other(insn, at),
            Some((to, from)) => self.plan_copy(to, from, at),
        }
    }

    /// Another block begins, with so many instructions.
    fn begin(&mut self, bottom: &BitSet, count: usize) -> Result<(), AllocError> {
        self.block = self.block.wrapping_add(1);
        self.plans.clear();
        self.plans.resize(count, Plan::Goes)?;
        let mut from = 0;
        for _turn in 0..u32::MAX {
            let Some(temp) = bottom.next_from(from) else {
                return Ok(());
            };
            let outlook = unknown(self.block, true);
            self.set_outlook(temp, outlook);
            from = temp.wrapping_add(1);
        }
        Ok(())
    }

    /// A plan for a block, from the last instruction to the first.
    pub(crate) fn plan_block(
        &mut self,
        insns: &[TempInsn],
        bottom: &BitSet,
    ) -> Result<(), AllocError> {
        self.begin(bottom, insns.len())?;
        for behind in 0..insns.len() {
            let at = insns.len() - 1 - behind;
            self.plan_insn(insns[at], at);
        }
        Ok(())
    }

    /// What was planned for the instructions of the block.
    pub(crate) fn plans(&self) -> &[Plan] {
        self.plans.as_slice()
    }
}
