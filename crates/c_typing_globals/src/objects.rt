//! Objects with names, and what their initialisers give.

ghost use Rattle.std.specs.Prelude.{◌≡◌, slice_get};
ghost use Rattle.c_typing_globals.specs.Globals as spec;

use bk_containers::{Name, Seq};
use c_typed_tree::CType;
use mem_objects::DataCell;
use std::alloc::Global;
use std::mem::replace;

/// An object of static storage with a name.
#[derive(Drop)]
pub struct UnitObject {
    pub name: Name,
    pub ty: CType,
    /// Its first cells; all behind them are zero.
    pub cells: Seq<DataCell>,
}

/// Gives the object with a number its cells, if it is there.
fn replace_cells(objects: &mut Vec<UnitObject>, number: usize, cells: Seq<DataCell>)
    ensures { objects.new.items
        ≡ spec.replace_cells number cells (slice_get objects.old.items number) objects.old.items }
{
    match objects.get_mut(number) {
        None => {}
        Some(object) => object.cells = cells,
    }
}

/// Gives the object with a number what its initialiser gives, if it is there.
pub fn set_cells(alloc: Global, objects: &mut Seq<UnitObject>, number: u32, cells: Seq<DataCell>)
    ensures { objects.new ≡ spec.set_cells number cells objects.old }
{
    let mut list = Seq::into_vec(replace(objects, Seq::new(alloc)));
    replace_cells(&mut list, number as usize, cells);
    *objects = Seq::from_vec(list);
}
