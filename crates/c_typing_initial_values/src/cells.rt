//! The cells that values fill.

ghost use Rattle.std.specs.Prelude.{◌≡◌, ◌++◌, OnOk, map, take};
ghost use Rattle.c_typing_initial_values.specs.Cells as spec;
ghost use Rattle.mem_objects.specs.declared.DataCell.TheVariants.{Byte};

use crate::values::InitialValue;
use bk_arithmetic::integer_type::IntegerType;
use c_typing_constants::c_constant_rules::addresses::Address;
use mem_objects::DataCell;
use std::alloc::AllocError;

/// Lets cells go as far as a place at least.
fn pad(cells: &mut Vec<DataCell>, place: u64) -> Result<(), AllocError>
    ensures { OnOk result (cells.new.items ≡ spec.reach place cells.old.items) }
{
    let missing = place.saturating_sub(cells.len() as u64);
    for _zero in 0..missing {
        cells.push(DataCell::Byte(0))?;
    }
    Ok(())
}

/// Puts the low bytes of a word, the least first.
#[tactic(auto, using(crate::proofs::Words::word_turn, crate::proofs::Words::word_end))]
fn put_word(cells: &mut Vec<DataCell>, count: u8, word: u64) -> Result<(), AllocError>
    ensures { OnOk result (cells.new.items ≡ cells.old.items ++ spec.word_cells count word) }
{
    let mut rest = word;
    for _byte in 0..count {
        cells.push(DataCell::Byte((rest % 256) as u8))?;
        rest /= 256;
    }
    Ok(())
}

fn put_address(cells: &mut Vec<DataCell>, address: Address) -> Result<(), AllocError>
    ensures { OnOk result (cells.new.items ≡ cells.old.items ++ spec.address_cells address) }
{
    let Address { global, plus, .. } = address;
    cells.extend_from_slice(&[
        DataCell::AddressPart {
            global,
            plus,
            part: 0,
        },
        DataCell::AddressPart {
            global,
            plus,
            part: 1,
        },
        DataCell::AddressPart {
            global,
            plus,
            part: 2,
        },
        DataCell::AddressPart {
            global,
            plus,
            part: 3,
        },
        DataCell::AddressPart {
            global,
            plus,
            part: 4,
        },
        DataCell::AddressPart {
            global,
            plus,
            part: 5,
        },
        DataCell::AddressPart {
            global,
            plus,
            part: 6,
        },
        DataCell::AddressPart {
            global,
            plus,
            part: 7,
        },
    ])
}

fn put_null(cells: &mut Vec<DataCell>) -> Result<(), AllocError>
    ensures { OnOk result (cells.new.items ≡ cells.old.items ++ spec.zero_cells 8) }
{
    cells.extend_from_slice(&[DataCell::Byte(0); 8])
}

fn put_in(
    cells: &mut Vec<DataCell>,
    to: Option<IntegerType>,
    value: InitialValue,
) -> Result<(), AllocError>
    ensures { OnOk result (cells.new.items ≡ cells.old.items ++ spec.value_cells to value) }
{
    match to {
        None => match value {
            InitialValue::Word { .. } => put_null(cells),
            InitialValue::Null => put_null(cells),
            InitialValue::Address(address) => put_address(cells, address),
        },
        Some(to) => match value {
            InitialValue::Word { of, word } => put_word(cells, to.bytes(), of.convert(to, word)),
            InitialValue::Null => Ok(()),
            InitialValue::Address(_) => Ok(()),
        },
    }
}

/// Puts a value at a place of an object, in the integer type that it is converted to there, or else in a pointer type.
pub fn put_value(
    cells: &mut Vec<DataCell>,
    place: u64,
    to: Option<IntegerType>,
    value: InitialValue,
) -> Result<(), AllocError>
    ensures { OnOk result (cells.new.items ≡ spec.place_piece place (spec.value_cells to value) cells.old.items) }
{
    pad(cells, place)?;
    put_in(cells, to, value)
}

fn put_bytes(cells: &mut Vec<DataCell>, text: &[u8]) -> Result<(), AllocError>
    ensures { OnOk result (cells.new.items ≡ cells.old.items ++ map Byte text.now) }
{
    for byte in text {
        cells.push(DataCell::Byte(*byte))?;
    }
    Ok(())
}

/// As many bytes of a text as there is room for.
fn front(room: u64, text: &[u8]) -> &[u8]
    ensures { result.now ≡ take room text.now }
{
    if room < text.len() as u64 {
        return &text[..room as usize];
    }
    text
}

/// Puts the bytes of a text at a place of an object, as many as there is room for.
pub fn put_text(
    cells: &mut Vec<DataCell>,
    place: u64,
    room: u64,
    text: &[u8],
) -> Result<(), AllocError>
    ensures { OnOk result (cells.new.items ≡ spec.place_piece place (spec.text_cells room text.now) cells.old.items) }
{
    pad(cells, place)?;
    put_bytes(cells, front(room, text))
}
