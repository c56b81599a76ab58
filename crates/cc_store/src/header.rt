// Where the cells of the live objects stand.

ghost use Rattle.std.specs.Prelude.{◌≡◌, ◌<◌, ◌+◌, ◌^◌, ℕ, IfOk, length};
ghost use Rattle.cc_store.specs.Layout.{cell_at, found_in, header_of, IsLaidOut, Falls};

use crate::stack::Stack;
use crate::value::{Pointer, Value};
use cc_meaning::Undef;

// A live object, whose cells are the `length` ones from number `start`.
#[derive(Clone, Copy)]
pub struct Header {
    pub declarator: u32,
    pub instance: u64,
    pub start: usize,
    pub length: u32,
    pub is_fixed: bool,
}

// The first header with the instance.
fn found(headers: &[Header], instance: u64) -> Option<Header>
    ensures { result ≡ found_in instance headers.now }
{
    for header in headers {
        if header.instance == instance {
            return Some(*header);
        }
    }
    None
}

// The header of an instance; it is looked for at the place first.
pub fn header_at(headers: &Stack<Header>, instance: u64, place: u32) -> Option<Header>
    requires { IsLaidOut headers.now }
    ensures { result ≡ header_of instance headers.now }
{
    if let Some(header) = headers.at(place as usize) {
        if header.instance == instance {
            return Some(header);
        }
    }
    found(headers.as_slice(), instance)
}

// A cell of the store, and whether it is read only.
#[derive(Clone, Copy)]
pub struct Cell {
    pub number: usize,
    pub is_fixed: bool,
}

// The cell that the pointer points to.
pub fn cell_of(headers: &Stack<Header>, cells: &[Value], p: Pointer) -> Result<Cell, Undef>
    requires { (next : ℕ) × Falls headers.now (length cells.now) next }
    ensures at { result ≡ cell_at p (header_of p.instance headers.now) }
    ensures within { IfOk result (λ c. c.number < length cells.now) }
    ensures small { IfOk result (λ c. p.base + p.index < 2 ^ 32) }
{
    let _count = cells.len();
    match header_at(headers, p.instance, p.place) {
        None => Err(Undef::Ended),
        Some(header) => {
            let n = p.base as usize + p.index as usize;
            if p.index < p.length && n < header.length as usize {
                Ok(Cell {
                    number: header.start + n,
                    is_fixed: header.is_fixed,
                })
            } else {
                Err(Undef::PastEnd)
            }
        }
    }
}
