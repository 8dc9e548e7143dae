//! What is noted.

ghost use Rattle.std.specs.Prelude.{◌≡◌, OnOk};
ghost use Rattle.c_typing_rules.specs.Rulings.{Ruling, RuleGives};
ghost use Rattle.c_typing_state.specs.Checks.{Finds, note_fault};
ghost use Rattle.c_typing_state.specs.Notes as spec;

use crate::meanings::{Tag, UntaggedStruct, Use};
use bk_containers::Seq;
use c_typed_tree::StructDef;
use c_typing_faults::{Fault, Kind};
use c_typing_rules::{LvalueKind, Refusal};
use c_typing_scopes::NameTable;
use std::alloc::{AllocError, Global};
use std::mem::replace;

/// What was noted, and the structs and tags of the unit. Names are borrowed from its tree.
#[derive(Drop)]
pub struct Notes<'a> {
    /// The faults.
    pub faults: Seq<Fault>,
    /// The numbers of the locals whose address was taken, in the function.
    pub addressed: Seq<u32>,
    /// The string literals that are objects, with the zero at their end.
    pub texts: Seq<Seq<u8>>,
    /// The number of the first of them among the objects of the unit.
    pub first_text: u32,
    /// The uses of what the unit never defines.
    pub uses: Seq<Use>,
    /// The structs by their numbers.
    pub structs: Seq<StructDef>,
    /// Of each struct the names of its members, with their numbers; none of one whose declaration has a fault.
    pub members: Seq<NameTable<'a, Option<u32>>>,
    /// The tags. All are of file scope.
    pub tags: NameTable<'a, Tag>,
    /// The struct without a tag whose members were declared last.
    pub untagged: Option<UntaggedStruct>,
}

/// Notes a fault.
pub fn note(notes: &mut Notes<'_>, at: u32, kind: Kind) -> Result<(), AllocError>
    ensures { OnOk result (notes.new ≡ spec.with_fault at kind notes.old) }
{
    notes.faults.push(Fault { at, kind })
}

/// Notes the fault of a rule, or gives what it makes.
pub fn note_fault<T: Drop>(
    notes: &mut Notes<'_>,
    ruling: Result<T, Refusal>,
) -> Result<Option<T>, AllocError>
    ensures { (m : Ruling T) → RuleGives m ruling → Finds (note_fault m notes.old) result notes.new }
{
    match ruling {
        Ok(found) => Ok(Some(found)),
        Err(Refusal::Refused(Fault { at, kind })) => {
            note(notes, at, kind)?;
            Ok(None)
        }
        Err(Refusal::NoMemory) => Err(AllocError),
    }
}

/// Notes that the address of a local was taken, where a place is one or a part of one.
pub fn take_address(notes: &mut Notes<'_>, place: LvalueKind) -> Result<(), AllocError>
    ensures { OnOk result (notes.new ≡ spec.with_address place notes.old) }
{
    match place {
        LvalueKind::Nowhere => Ok(()),
        LvalueKind::Local(number) => notes.addressed.push(number),
        LvalueKind::Global(_) => Ok(()),
        LvalueKind::Elsewhere => Ok(()),
    }
}

/// Notes a use of what the unit never defines.
pub fn note_use(notes: &mut Notes<'_>, number: u32, at: u32) -> Result<(), AllocError>
    ensures { OnOk result (notes.new ≡ spec.with_use number at notes.old) }
{
    notes.uses.push(Use { number, at })
}

/// Notes a string literal that is an object, and gives its number.
pub fn note_text(notes: &mut Notes<'_>, bytes: Seq<u8>) -> Result<u32, AllocError>
    ensures { Finds (spec.new_text bytes notes.old) result notes.new }
{
    match u32::try_from(notes.texts.len()) {
        Err(_) => Err(AllocError),
        Ok(count) => match notes.first_text.checked_add(count) {
            None => Err(AllocError),
            Some(number) => {
                notes.texts.push(bytes)?;
                Ok(number)
            }
        },
    }
}

/// Adds a struct without members, and gives its number.
pub fn add_struct(
    alloc: Global,
    notes: &mut Notes<'_>,
    structure: StructDef,
) -> Result<u32, AllocError>
    ensures { Finds (spec.new_struct structure notes.old) result notes.new }
{
    match u32::try_from(notes.structs.len()) {
        Err(_) => Err(AllocError),
        Ok(number) => {
            notes.structs.push(structure)?;
            notes.members.push(NameTable::new(alloc))?;
            Ok(number)
        }
    }
}

/// Declares a tag.
pub fn add_tag<'a>(notes: &mut Notes<'a>, name: &'a [u8], tag: Tag) -> Result<(), AllocError>
    ensures { OnOk result (notes.new ≡ spec.with_tag name.now tag notes.old) }
{
    notes.tags.push(name, tag)
}

/// What an operand that is not evaluated would take is noted apart: gives what was noted before.
pub fn keep_apart(alloc: Global, notes: &mut Notes<'_>) -> (Seq<u32>, Seq<Seq<u8>>)
    ensures addressed { result.0 ≡ notes.old.addressed }
    ensures texts { result.1 ≡ notes.old.texts }
    ensures notes { notes.new ≡ spec.nothing_taken notes.old }
{
    let addressed = replace(&mut notes.addressed, Seq::new(alloc));
    let texts = replace(&mut notes.texts, Seq::new(alloc));
    (addressed, texts)
}

/// Forgets what an operand that is not evaluated would take.
pub fn rejoin(notes: &mut Notes<'_>, addressed: Seq<u32>, texts: Seq<Seq<u8>>)
    ensures { notes.new ≡ spec.rejoin addressed texts notes.old }
{
    notes.addressed = addressed;
    notes.texts = texts;
}
