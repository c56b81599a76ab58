// The acts of a program.
use crate::act::Act;
use crate::value_act::Conversion;
use cc_store::{Row, Value};

/// What stands at a point: an act, and whether the point takes a turn first. The entries of functions and the tests of loops
/// do; a loop's test is before its condition or, where that is missing, before its body.
#[derive(Clone, Copy)]
pub struct Node {
    pub takes_turn: bool,
    pub act: Act,
}

/// A label of a switch: its value, converted to the switch's kind, and the point that it leads to.
#[derive(Clone, Copy)]
pub struct Case {
    pub value: i128,
    pub point: u32,
}

/// What some cells of a new object get.
#[derive(Clone, Copy)]
pub enum Filler {
    /// The next `count` cells get this value.
    Cells { count: u32, value: Value },
    /// The next cell gets the value of the next operand, converted.
    Operand { to: Conversion },
}

/// A static object or a string literal: its declarator or literal, its cells and their fillers, and whether it is read only.
#[derive(Clone, Copy)]
pub struct Lasting {
    pub declarator: u32,
    pub cells: u32,
    pub from: u32,
    pub fillers: u32,
    pub is_fixed: bool,
}

/// The acts of a program.
#[derive(Drop)]
pub struct Acts {
    /// What stands at each point.
    pub nodes: Row<Node>,
    /// The entry of each function that has a body, by the function's number.
    pub entries: Row<Option<u32>>,
    /// The declarators of formals.
    pub formals: Row<u32>,
    /// The labels of switches.
    pub cases: Row<Case>,
    /// What the cells of new objects get.
    pub fillers: Row<Filler>,
    /// The static objects and the string literals, in the order in which they are made.
    pub lasting: Row<Lasting>,
}
