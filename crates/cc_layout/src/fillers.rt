// What the cells of new objects get (C17 6.7.9).
use crate::constants::{Constants, changed, known};
use crate::counts::small;
use crate::types::conversion_to;
use cc_acts::{Conversion, Filler};
use cc_arena::Node;
use cc_base::Memory;
use cc_program::Program;
use cc_store::{Row, Stack, Value};
use cc_types::{Member, Shape, TypeId};
use std::alloc::Global;

/// Where the value of an initialiser's expression comes from.
#[derive(Clone, Copy)]
pub(crate) enum Source {
    /// It was evaluated, and is the next operand.
    Operands,
    /// It is constant.
    Constants,
}

// What is to be filled next.
#[derive(Clone, Copy)]
enum Task {
    // So many objects of this type without an initialiser.
    Zeros(TypeId, u64),
    // An object with this initialiser.
    Given(TypeId, u32),
}

/// Fills objects, one after another. What is to be done lies on a stack, the next task on top, so that fillers come in the
/// order of the cells.
#[derive(Drop)]
pub(crate) struct Filling<'a> {
    pub program: &'a Program,
    pub constants: &'a Constants,
    pub fillers: Row<Filler>,
    tasks: Stack<Task>,
    operands: u32,
}

// A byte as a `char`.
fn signed(byte: u8) -> i128 {
    if byte < 128 {
        i128::from(byte)
    } else {
        i128::from(byte) - 256
    }
}

// The value of a scalar without an initialiser (C17 6.7.9p10).
fn zero(shape: Shape) -> Value {
    match conversion_to(shape) {
        Conversion::Pointer => Value::Null,
        Conversion::Integer(_) | Conversion::Void => Value::Int(0),
    }
}

impl<'a> Filling<'a> {
    /// No fillers. Takes no memory.
    pub fn new(alloc: Global, program: &'a Program, constants: &'a Constants) -> Filling<'a> {
        Filling {
            program,
            constants,
            fillers: Row::new(alloc),
            tasks: Stack::new(alloc),
            operands: 0,
        }
    }

    // So many cells that get this value.
    fn push_cells(&mut self, count: u64, value: Value) -> Result<(), Memory> {
        if count == 0 {
            return Ok(());
        }
        if count >= u32::MAX as u64 {
            return Err(Memory);
        }
        self.fillers.push(Filler::Cells {
            count: count as u32,
            value,
        })
    }

    // The members of a struct from number `from` on, without initialisers.
    fn push_members(&mut self, members: &[Member], from: usize) -> Result<(), Memory> {
        for k in (from..members.len()).rev() {
            if let Some(member) = members.get(k) {
                self.tasks.push(Task::Zeros(member.kind, 1))?;
            }
        }
        Ok(())
    }

    // So many structs without an initialiser.
    fn push_structs(&mut self, t: TypeId, members: &[Member], count: u64) -> Result<(), Memory> {
        if count == 0 {
            return Ok(());
        }
        self.tasks.push(Task::Zeros(t, count - 1))?;
        self.push_members(members, 0)
    }

    // So many objects of a type without an initialiser: their scalars are zero (C17 6.7.9p10, p21).
    fn fill_zeros(&mut self, t: TypeId, count: u64) -> Result<(), Memory> {
        let program = self.program;
        match program.types().shape(t) {
            Shape::Array(_, element, length) => {
                let elements = count.saturating_mul(length.unwrap_or(0));
                self.tasks.push(Task::Zeros(element, elements))
            }
            Shape::Struct(_, id) => self.push_structs(t, program.members(id), count),
            shape => self.push_cells(count, zero(shape)),
        }
    }

    // A scalar with this expression.
    fn fill_scalar(&mut self, source: Source, shape: Shape, n: u32) -> Result<(), Memory> {
        let to = conversion_to(shape);
        match source {
            Source::Operands => {
                self.operands = self.operands.saturating_add(1);
                self.fillers.push(Filler::Operand { to })
            }
            Source::Constants => {
                let value = known(self.constants, n).unwrap_or(Value::Unwritten);
                self.push_cells(1, changed(to, value))
            }
        }
    }

    // A scalar with this initialiser, in braces or not (C17 6.7.9p11).
    fn fill_single(
        &mut self,
        source: Source,
        t: TypeId,
        shape: Shape,
        n: u32,
    ) -> Result<(), Memory> {
        let program = self.program;
        match program.node(n) {
            Some(Node::Braces(values)) => match program.arena().part_list(values).get(0) {
                Some(inner) => self.tasks.push(Task::Given(t, *inner)),
                None => self.push_cells(1, zero(shape)),
            },
            _ => self.fill_scalar(source, shape, n),
        }
    }

    // The elements of an array, given by these initialisers and then by none.
    fn push_elements(
        &mut self,
        element: TypeId,
        length: u64,
        values: &[u32],
    ) -> Result<(), Memory> {
        let rest = length.saturating_sub(values.len() as u64);
        self.tasks.push(Task::Zeros(element, rest))?;
        for k in (0..values.len()).rev() {
            if let Some(value) = values.get(k) {
                self.tasks.push(Task::Given(element, *value))?;
            }
        }
        Ok(())
    }

    // The elements of an array, given by the bytes of a string literal and then by none (C17 6.7.9p14).
    fn fill_text(&mut self, element: TypeId, length: u64, bytes: &[u8]) -> Result<(), Memory> {
        let to = conversion_to(self.program.types().shape(element));
        for byte in bytes {
            self.push_cells(1, changed(to, Value::Int(signed(*byte))))?;
        }
        self.fill_zeros(element, length.saturating_sub(bytes.len() as u64))
    }

    // An array with this initialiser.
    fn fill_array(&mut self, element: TypeId, length: u64, n: u32) -> Result<(), Memory> {
        let program = self.program;
        let arena = program.arena();
        match program.node(n) {
            Some(Node::Braces(values)) => {
                self.push_elements(element, length, arena.part_list(values))
            }
            Some(Node::Str(bytes)) => self.fill_text(element, length, arena.byte_list(bytes)),
            // the 0 of `{0}` is the first scalar's
            _ => self.push_elements(element, length, &[n]),
        }
    }

    // The members of a struct, given by these initialisers and then by none.
    fn push_given(&mut self, members: &[Member], values: &[u32]) -> Result<(), Memory> {
        self.push_members(members, values.len())?;
        for k in (0..members.len().min(values.len())).rev() {
            if let (Some(member), Some(value)) = (members.get(k), values.get(k)) {
                self.tasks.push(Task::Given(member.kind, *value))?;
            }
        }
        Ok(())
    }

    // A struct with this initialiser.
    fn fill_struct(&mut self, members: &[Member], n: u32) -> Result<(), Memory> {
        let program = self.program;
        match program.node(n) {
            Some(Node::Braces(values)) => {
                self.push_given(members, program.arena().part_list(values))
            }
            // the 0 of `{0}` is the first scalar's
            _ => self.push_given(members, &[n]),
        }
    }

    fn fill_given(&mut self, source: Source, t: TypeId, n: u32) -> Result<(), Memory> {
        let program = self.program;
        match program.types().shape(t) {
            Shape::Array(_, element, length) => { self.fill_array(element, length.unwrap_or(0), n) }
            Shape::Struct(_, id) => self.fill_struct(program.members(id), n),
            shape => self.fill_single(source, t, shape, n),
        }
    }

    // Does the tasks that are left.
    fn finish(&mut self, source: Source) -> Result<(), Memory> {
        for _ in 0..u64::MAX {
            match self.tasks.pop() {
                None => return Ok(()),
                Some(Task::Zeros(t, count)) => self.fill_zeros(t, count)?,
                Some(Task::Given(t, n)) => self.fill_given(source, t, n)?,
            }
        }
        Err(Memory)
    }

    /// Adds the fillers of an object of this type with this initialiser, or with none; how many operands they take.
    pub fn fill(&mut self, source: Source, t: TypeId, value: Option<u32>) -> Result<u32, Memory> {
        self.operands = 0;
        match value {
            Some(n) => self.tasks.push(Task::Given(t, n))?,
            None => self.tasks.push(Task::Zeros(t, 1))?,
        }
        self.finish(source)?;
        Ok(self.operands)
    }

    /// Adds the fillers of a string literal that is an object: its bytes, and a zero (C17 6.4.5p6).
    pub fn fill_string(&mut self, bytes: &[u8]) -> Result<(), Memory> {
        for byte in bytes {
            self.push_cells(1, Value::Int(signed(*byte)))?;
        }
        self.push_cells(1, Value::Int(0))
    }

    /// How many fillers there are.
    pub fn count(&self) -> Result<u32, Memory> {
        small(self.fillers.len())
    }
}
