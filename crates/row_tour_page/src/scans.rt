//! What the page `docs/second-chance.md` shows and says.

use crate::section::Section;

/// The file of the program.
pub const FILE: &str = "dot.c";

/// The function that the page follows. It is the first one of the program, so its instructions have the same numbers in
/// each text.
pub const FUNCTION: &str = "dot";

/// What stands before the program.
pub const OPENING: &str = "# Second chances\n\n\
    How the allocator `binpack`, which stands where none is asked for, gives a function with 28 values the 26 \
    registers that there are for values. It goes over the instructions once, in their order. What an instruction \
    writes gets the best of the free registers: the one that stays free for the shortest time, of those that are free \
    as long as the value is wanted, or else the one that stays free longest; where several do, the first one of `$1` to \
    `$8`, `$22` to `$25`, `$0`, `$16` to `$21`, `$9` to `$15`. Where none is free, of the values in registers the one leaves that is read again last; it is stored in its \
    slot of the frame first, if it is wanted again and its slot does not hold it. A value that is read and stands in \
    its slot is loaded into a register and stays there: that is its second chance (Traub, Holloway and Smith, \
    \"Quality and speed in linear-scan register allocation\", PLDI 1998). The program `tour` of this repository writes \
    this page, out of what the calls in the titles write, and the gate compares it.\n\n\
    The function is the dot product of two vectors of 14 numbers. It puts a full stop on the way, for which the \
    service takes two registers away.";

/// The instructions of the function.
pub const INSTRUCTIONS: Section = Section {
    title: "The instructions over temporaries",
    call: "msc print dot.c --pass select",
    said: "The numbers of the first vector are `t4` to `t17`, those of the second one `t18` to `t31`. The first six \
        come in the registers `$16` to `$21`, where a call has its arguments, all others from the places of \
        arguments on the stack. The sum is made in `t32`, and each product but the first one in `t33`.",
};

/// What is live.
pub const LIFETIMES: Section = Section {
    title: "The lifetimes, with their holes",
    call: "msc print dot.c --pass live",
    said: "Instruction n reads at point 2n and writes at point 2n + 1. For each temporary stand the parts of its \
        lifetime, each from its first to its last point. Between two parts is a hole: what the temporary holds there \
        is not wanted any more, and its register may be given away. Temporaries that are wanted nowhere are left \
        out.",
};

/// What the allocator did.
pub const JOURNAL: Section = Section {
    title: "The journal, line by line",
    call: "msc print dot.c --pass journal",
    said: "On the left stands the journal, on the right what each line says: first the instruction that is visited, \
        then what leaves its register, what is done before the instruction, which temporaries get registers, and \
        what the instruction writes. A temporary keeps its place, in holes of its lifetime too, until something \
        takes its register, so a write that finds its temporary in a register has no `assign`. Up to instruction 25 \
        each value gets a register: `t4` and `t5` those that the service takes at 48 and 49, since they are read for \
        the last time before that. At 26 and 27 none is free: `t17` and `t16` leave theirs, which are read last of \
        all. What stands in `$16` and `$0` at 48 and 49 is not wanted any more, so nothing is stored or moved for the \
        service. At 55 and 57 `t16` and `t17` are read, and have their second chance; `t38` leaves in a hole there, so \
        it is not stored.",
};

/// What two allocations do before each instruction.
pub const ALLOCATIONS: Section = Section {
    title: "What is stored, loaded and moved, beside the same under `plain`",
    call: "msc print dot.c --pass alloc",
    said: "Before each instruction, what the allocation does there; on the right what `--alloc plain` does, which \
        loads each temporary before it is read and stores it behind each write.",
};

/// The call for the allocation on the right.
pub const IN_SLOTS: &str = "msc print dot.c --pass alloc --alloc plain";

/// What both cost.
pub const STEPS: Section = Section {
    title: "How many of them, and how many steps",
    call: "msc run dot.c --budget STEPS",
    said: "How often each stands in the function, and how many steps the machine takes for the whole program: the \
        least `--budget` with which `run` ends, with `--alloc binpack` and with `--alloc plain`.",
};
