//! What the page `docs/tour.md` shows and says of each pass.

use crate::section::Section;

/// The file of the program.
pub const FILE: &str = "tour.c";

/// What stands before the program.
pub const OPENING: &str = "# A tour of the passes\n\n\
    A small program on its way from C to machine words, as each pass of the compiler shows it. Follow the \
    statement `x = 3 * x + 1;`. The program `tour` of this repository writes this page, out of what the calls in \
    the titles write, and the gate compares it.";

/// The syntax tree.
pub const TREE: Section = Section {
    title: "The tree",
    call: "msc print tour.c --pass tree",
    said: "The parser reads the text by the grammar of C99 6.5 to 6.9. Each line is a node, and what stands \
        under it, one level further in, are its parts. The statement is the `expression` in the `while`: an \
        assignment to `x` of a sum whose left operand is a product.",
};

/// The code over virtual registers.
pub const VM: Section = Section {
    title: "The code over virtual registers",
    call: "msc print tour.c --pass vm",
    said: "Lowering makes blocks of simple instructions, over as many registers `vK` as it takes, and \
        numbers the instructions of the whole program. The variable `x` is `v0`. The statement is in block `B1`: \
        each node of its tree becomes one instruction, operands first: the number 3, `x`, the product, the number \
        1, the sum, and the assignment. `x` was a copy of `v0` in a register of its own, as in front of the \
        comparison and the `return`; such copies are gone here, since `v0` is read where it stands and nothing \
        reads them any more. `mrk` in front counts a turn of the loop. The condition stands behind the \
        body, in `B2`, so that each further turn takes one branch. `B4` is the end of `main` behind the `return`, \
        where C99 5.1.2.2.3 returns 0.",
};

/// The flow graph.
pub const GRAPH: Section = Section {
    title: "The flow graph",
    call: "msc print tour.c --pass graph",
    said: "Each block with those that may come next. `B1` and `B2` are the loop, and nothing comes to `B4`.",
};

/// Instructions over temporaries.
pub const SELECT: Section = Section {
    title: "Instructions of the processor over temporaries",
    call: "msc print tour.c --pass select",
    said: "Selection puts instructions of the Alpha in place of those, over as many temporaries `tK` as it \
        takes, beside the registers `$K` which calls and services fix; `v0` is `t4`, `v1` is `t5`, and `v6` is \
        `t10`. Each instruction of this statement becomes one. Then copies between temporaries go, and the block \
        that nothing comes to: `x` is read where it stands, in `t4`, and the sum is made there. `lda` from `$31`, \
        which always reads 0, makes a small number, `bis` with `$31` copies, and `mull/v` and `addl/v` trap where \
        the result is no `int`. `docs/selection.md` says what each instruction becomes.",
};

/// Temporaries in their slots.
pub const ALLOC: Section = Section {
    title: "Temporaries in slots",
    call: "msc print tour.c --pass alloc --alloc plain",
    said: "With `--alloc plain` each temporary lives in a slot of the frame, which is followed most easily; \
        without it, values live in registers as far as these go. Before an instruction, what it reads is loaded into \
        registers, from `$1` on. What it writes gets the next register, and is stored before the next instruction, \
        or behind the last one of the block on the edge to the next block. These are the lines of block `B1` and of \
        the edge to `B2`.",
};

/// The assembly.
pub const ASM: Section = Section {
    title: "The assembly, and its words in the image",
    call: "msc print tour.c --pass asm --alloc plain",
    said: "Slots are now offsets from `$30`, where the frame begins: `t4` is at 96, `t5` at 104 and `t10` at \
        144. Every block has a label. In front stands the code that begins a run, and behind the functions stand the \
        division routines, which are left out here. Beside each instruction stand its address and its word, both \
        hexadecimal. The words are those of the image, which `msc build tour.c --alloc plain` writes; `mrk` is \
        none, since the machine counts no turns.",
};

/// One statement in each form.
pub const BESIDE: Section = Section {
    title: "The statement, side by side",
    call: "msc build tour.c --alloc plain",
    said: "The block `B1` behind selection, from the left to the right: over temporaries, over slots, in \
        assembly, and as words. Between the instructions stand the loads and stores of \
        slots, and the last one is on the edge to `B2`.",
};

/// The block of the statement, as the passes name it.
pub const BLOCK: &str = "B1";

/// The edge behind that block.
pub const EDGE: &str = "edge B1 B2";

/// The label of that block in the assembly.
pub const LABEL: &str = "L258:";
