// What is kept of each live cell.
ghost use Rattle.std.specs.Prelude.{◌≡◌, ◌<◌, [], cond, nat_eq, None, Some, ◌&&◌, IfOk, OnOk, OnErr, length};
ghost use Rattle.cc_meaning.specs.declared.event.Cell.{Cell};
ghost use Rattle.cc_record_laws.specs.Past.{same_cell};
ghost use Rattle.cc_record_tables.specs.CellTable as spec;
ghost use Rattle.cc_record_tables.specs.CellTable.{SameSlots, PutsSlot, ReplacesSlot, SameRows, Puts, Replaces};

use crate::slot::Slot;
use cc_base::Memory;
use cc_meaning::Cell;
use indexmap::IndexMap;
use std::alloc::Global;

/// What is kept of the cells of an object, by index.
#[derive(Drop)]
pub struct Row {
    pub object: u32,
    pub slots: Vec<Option<Slot>>,
}

/// What is kept of each live cell. The objects of one instance stand together, so that they end at once; there is one.
#[derive(Drop)]
pub struct Cells {
    pub alloc: Global,
    pub rows: IndexMap<u64, Vec<Row>>,
}

// What is kept of a cell of an object.
fn row_slot(row: &Row, index: u32) -> Option<Slot>
    ensures { result ≡ spec.row_slot row.now index }
{
    match row.slots.get(index as usize) {
        Some(slot) => *slot,
        None => None,
    }
}

// What is kept of a cell of these objects.
fn slot_in(rows: &[Row], object: u32, index: u32) -> Option<Slot>
    ensures { result ≡ spec.slot_in rows.now object index }
{
    for row in rows {
        if row.object == object {
            return row_slot(row, index);
        }
    }
    None
}

// The place of the object among these.
fn place(rows: &[Row], object: u32) -> Option<usize>
    ensures { result ≡ spec.place_from 0 rows.now object }
{
    for (i, row) in rows.iter().enumerate() {
        if row.object == object {
            return Some(i);
        }
    }
    None
}

// Makes places up to this index.
#[tactic(auto, using(crate::proofs::CellFacts::same_more))]
fn make_places(slots: &mut Vec<Option<Slot>>, index: u32) -> Result<(), Memory>
    ensures same { SameSlots slots.old.items slots.new.items }
    ensures room { OnOk result (index < length slots.new.items) }
{
    while slots.len() <= index as usize {
        slots.push(None)?;
    }
    Ok(())
}

// Keeps this of a cell of an object.
#[tactic(auto, using(crate::proofs::CellFacts::at_set, crate::proofs::CellFacts::put_after))]
fn put_in_row(row: &mut Row, index: u32, slot: Slot) -> Result<(), Memory>
    ensures object { row.new.object ≡ row.old.object }
    ensures put { OnOk result (PutsSlot row.old.slots.items index slot row.new.slots.items) }
    ensures err { OnErr result (SameSlots row.old.slots.items row.new.slots.items) }
{
    make_places(&mut row.slots, index)?;
    row.slots[index as usize] = Some(slot);
    Ok(())
}

// A row of one cell.
fn new_row(alloc: Global, object: u32, index: u32, slot: Slot) -> Result<Row, Memory>
    ensures object { IfOk result (λ row. row.object ≡ object) }
    ensures put { IfOk result (λ row. PutsSlot [] index slot row.slots.items) }
{
    let mut row = Row {
        object,
        slots: Vec::new(alloc),
    };
    put_in_row(&mut row, index, slot)?;
    Ok(row)
}

// Keeps this of a cell of these objects.
fn put_in_rows(
    alloc: Global,
    rows: &mut Vec<Row>,
    object: u32,
    index: u32,
    slot: Slot,
) -> Result<(), Memory>
    ensures put { OnOk result (Puts rows.old.items object index slot rows.new.items) }
    ensures err { OnErr result (SameRows rows.old.items rows.new.items) }
{
    match place(rows, object) {
        Some(i) => put_in_row(&mut rows[i], index, slot),
        None => {
            let row = new_row(alloc, object, index, slot)?;
            rows.push(row)?;
            Ok(())
        }
    }
}

// The rows of one cell.
fn new_rows(alloc: Global, object: u32, index: u32, slot: Slot) -> Result<Vec<Row>, Memory>
    ensures { IfOk result (λ rows. Puts [] object index slot rows.items) }
{
    let mut rows = Vec::new(alloc);
    put_in_rows(alloc, &mut rows, object, index, slot)?;
    Ok(rows)
}

// Keeps this of a cell of an object, if it has a place.
#[tactic(auto, using(crate::proofs::CellFacts::replaced_slot, crate::proofs::CellFacts::kept_slot))]
fn replace_in_row(row: &mut Row, index: u32, slot: Slot)
    ensures object { row.new.object ≡ row.old.object }
    ensures put { ReplacesSlot row.old.slots.items index slot row.new.slots.items }
{
    if (index as usize) < row.slots.len() {
        row.slots[index as usize] = Some(slot);
    }
}

// Keeps this of a cell of these objects, if it has a place.
fn replace_in_rows(rows: &mut Vec<Row>, object: u32, index: u32, slot: Slot)
    ensures { Replaces rows.old.items object index slot rows.new.items }
{
    if let Some(i) = place(rows, object) {
        replace_in_row(&mut rows[i], index, slot);
    }
}

impl Cells {
    /// Nothing is kept. Takes no memory.
    pub fn new(alloc: Global) -> Cells
        ensures { (c : Cell) → spec.slot_of result c ≡ None }
    {
        Cells {
            alloc,
            rows: IndexMap::new(alloc),
        }
    }

    /// What is kept of a cell.
    pub fn slot(&self, cell: Cell) -> Option<Slot>
        ensures { result ≡ spec.slot_of self.now cell }
    {
        match self.rows.get(&cell.instance) {
            Some(rows) => slot_in(rows, cell.object, cell.index),
            None => None,
        }
    }

    /// Keeps this of a cell. After an error all is as it was.
    pub fn put(&mut self, cell: Cell, slot: Slot) -> Result<(), Memory>
        ensures put { OnOk result ((c : Cell) → spec.slot_of self.new c
            ≡ cond (same_cell cell c) (Some slot) (spec.slot_of self.old c)) }
        ensures err { OnErr result ((c : Cell) → spec.slot_of self.new c ≡ spec.slot_of self.old c) }
    {
        match self.rows.get_mut(&cell.instance) {
            Some(rows) => put_in_rows(self.alloc, rows, cell.object, cell.index, slot),
            None => {
                let rows = new_rows(self.alloc, cell.object, cell.index, slot)?;
                self.rows.insert(cell.instance, rows)?;
                Ok(())
            }
        }
    }

    /// Keeps this of a cell that has a place, and changes nothing for any other.
    pub fn replace(&mut self, cell: Cell, slot: Slot)
        ensures { (c : Cell) → spec.slot_of self.new c
            ≡ cond (same_cell cell c && spec.has_place self.old cell) (Some slot) (spec.slot_of self.old c) }
    {
        if let Some(rows) = self.rows.get_mut(&cell.instance) {
            replace_in_rows(rows, cell.object, cell.index, slot);
        }
    }

    /// Keeps nothing of the cells of an instance.
    pub fn end(&mut self, instance: u64)
        ensures { (c : Cell) → spec.slot_of self.new c
            ≡ cond (nat_eq instance c.instance) None (spec.slot_of self.old c) }
    {
        self.rows.swap_remove(&instance);
    }
}
