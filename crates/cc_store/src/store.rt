// The store.

ghost use Rattle.std.specs.Prelude.{◌≡◌, ◌<◌, ◌+◌, ◌^◌, [], None, Some, OnOk, IfOk, is_some};
ghost use Rattle.cc_store.specs.Objects.{ended, live_cells, made, missing, next_pointer, object_of, put_cell, read_cell, read_of, refused, write_cell, last_object};

use crate::header::{Header, cell_of, header_at};
use crate::stack::Stack;
use crate::value::{Pointer, Value};
use cc_base::Memory;
use cc_meaning::Undef;
use std::alloc::Global;
use std::marker::Model;

/// The live objects of a run. A contract sees them as a list, each with its own cells, the object made last first.
#[derive(Drop)]
pub struct Store {
    headers: Stack<Header>,
    cells: Vec<Value>,
    next: u64,
}

impl Model for Store {
    ghost use Rattle.std.specs.Prelude.{length};
    ghost use Rattle.cc_store.specs.Objects.{Live};

    ghost Value = { Live };

    ghost use Rattle.cc_store.specs.Layout.{Falls, objects_of};

    ghost view = { λ s. record { objects = objects_of s.headers s.cells.items; next = s.next } };

    ghost invariant = { λ s. Falls s.headers (length s.cells.items) s.next };
}

impl Store {
    /// No object. Takes no memory.
    pub fn new(alloc: Global) -> Store
        ensures { result ≡ record { objects = []; next = 0 } }
    {
        Store {
            headers: Stack::new(alloc),
            cells: Vec::new(alloc),
            next: 0,
        }
    }

    /// How many cells are live.
    pub fn live(&self) -> usize
        ensures { result ≡ live_cells self.now.objects }
    {
        self.cells.as_slice().len()
    }

    /// Whether the object that the pointer points into still lives.
    pub fn lives(&self, p: Pointer) -> bool
        ensures { result ≡ is_some (object_of p.instance self.now.objects) }
    {
        header_at(&self.headers, p.instance, p.place).is_some()
    }

    /// What is read through the pointer, or why nothing is: its object has ended, it points past the end, or the cell was
    /// never written.
    pub fn read(&self, p: Pointer) -> Result<Value, Undef>
        ensures value { result ≡ read_cell p self.now }
        ensures small { IfOk result (λ v. p.base + p.index < 2 ^ 32) }
    {
        match cell_of(&self.headers, &self.cells, p) {
            Err(why) => Err(why),
            Ok(cell) => given(self.cells[cell.number]),
        }
    }

    /// Writes through the pointer, or says why it does not: its object has ended, it points past the end, or the object is
    /// read only.
    pub fn write(&mut self, p: Pointer, value: Value) -> Option<Undef>
        ensures why { result ≡ refused p self.old }
        ensures objects { self.new ≡ write_cell p value self.old }
        ensures small { result ≡ None → p.base + p.index < 2 ^ 32 }
    {
        match cell_of(&self.headers, &self.cells, p) {
            Err(why) => Some(why),
            Ok(cell) => {
                if cell.is_fixed {
                    return Some(Undef::ReadOnly);
                }
                self.cells[cell.number] = value;
                None
            }
        }
    }

    /// Writes through the pointer, also into an object that is read only, or says why it does not: its object has ended, or
    /// it points past the end.
    pub fn put(&mut self, p: Pointer, value: Value) -> Option<Undef>
        ensures why { result ≡ missing p self.old }
        ensures objects { self.new ≡ put_cell p value self.old }
        ensures small { result ≡ None → p.base + p.index < 2 ^ 32 }
    {
        match cell_of(&self.headers, &self.cells, p) {
            Err(why) => Some(why),
            Ok(cell) => {
                self.cells[cell.number] = value;
                None
            }
        }
    }

    /// Makes an object of this many cells, and gives a pointer to it.
    pub fn make(&mut self, declarator: u32, count: u32, is_fixed: bool) -> Result<Pointer, Memory>
        ensures objects { OnOk result (self.new ≡ made declarator count is_fixed self.old) }
        ensures pointer { IfOk result (λ p. p ≡ next_pointer declarator self.old) }
    {
        let place = self.headers.len();
        let start = self.cells.as_slice().len();
        let instance = self.next;
        if place > u32::MAX as usize || start > u32::MAX as usize || instance == u64::MAX {
            return Err(Memory);
        }
        self.cells.resize(start + count as usize, Value::Unwritten)?;
        let header = Header {
            declarator,
            instance,
            start,
            length: count,
            is_fixed,
        };
        if self.headers.push(header).is_err() {
            self.cells.truncate(start);
            return Err(Memory);
        }
        self.next = instance + 1;
        Ok(Pointer {
            object: declarator,
            instance,
            place: place as u32,
            base: 0,
            length: 1,
            index: 0,
        })
    }

    /// The declarator and the instance of the object that was made last.
    pub fn last(&self) -> Option<(u32, u64)>
        ensures { result ≡ last_object self.now.objects }
    {
        match self.headers.top() {
            None => None,
            Some(header) => Some((header.declarator, header.instance)),
        }
    }

    /// Ends the object that was made last.
    pub fn end(&mut self)
        ensures { self.new ≡ ended self.old }
    {
        if let Some(header) = self.headers.pop() {
            self.cells.truncate(header.start);
        }
    }
}

// What a cell with this value gives to one who reads it.
fn given(value: Value) -> Result<Value, Undef>
    ensures { result ≡ read_of (Some value) }
{
    match value {
        Value::Unwritten => Err(Undef::NeverWritten),
        Value::Int(_) | Value::Null | Value::Function(_) | Value::Points(_) => Ok(value),
    }
}
