// The numbers of the holders.
ghost use Rattle.std.specs.Prelude.{◌≡◌, ◌<◌, ◌^◌, length, IsTrue};
ghost use Rattle.cc_points_base.specs.Layouts as spec;

use crate::parts::part_list;
use crate::view::{Class, Seen, View, What};

/// How many occurrences, slots and functions there are.
#[derive(Clone, Copy)]
pub struct Layout {
    pub nodes: u32,
    pub slots: u32,
    pub functions: u32,
    /// How many pointers the struct assignments copy.
    pub copies: u32,
}

// How many pointers an occurrence copies.
pub fn copies_in(lists: &[u32], what: What, class: Class) -> u32
    requires { length lists.now < 2 ^ 30 }
    ensures { result ≡ spec.copies_in lists.now what class }
{
    match what {
        What::Assign(_, _) => match class {
            Class::Struct(_, paths) => part_list(lists, paths).len() as u32,
            _ => 0,
        },
        _ => 0,
    }
}

/// How many pointers these occurrences copy.
fn all_copies(lists: &[u32], nodes: &[Seen]) -> u32
    requires lists { length lists.now < 2 ^ 30 }
    requires small { spec.all_copies lists.now nodes.now < 2 ^ 30 }
    ensures { result ≡ spec.all_copies lists.now nodes.now }
{
    let mut copies = 0;
    for place in nodes {
        copies += copies_in(lists, place.what, place.class);
    }
    copies
}

/// Whether the numbers of holders fit.
pub fn is_small(view: &View) -> bool
    requires nodes { length view.now.nodes < 2 ^ 30 }
    requires lists { length view.now.lists < 2 ^ 30 }
    ensures { IsTrue result → spec.IsSmall (spec.layout_of view.now) }
{
    let nodes = view.nodes.as_slice();
    if nodes.len() >= 536870912
        || view.parts.count() >= 536870912
        || view.functions.as_slice().len() >= 536870912
    {
        return false;
    }
    let mut copies = 0;
    for place in nodes {
        copies += copies_in(view.lists.as_slice(), place.what, place.class);
        if copies >= 536870912 {
            return false;
        }
    }
    true
}

/// The layout of a view.
pub fn lay_out(view: &View) -> Layout
    requires nodes { length view.now.nodes < 2 ^ 30 }
    requires lists { length view.now.lists < 2 ^ 30 }
    requires small { spec.IsSmall (spec.layout_of view.now) }
    ensures { result ≡ spec.layout_of view.now }
{
    Layout {
        nodes: view.nodes.as_slice().len() as u32,
        slots: view.parts.count(),
        functions: view.functions.as_slice().len() as u32,
        copies: all_copies(view.lists.as_slice(), view.nodes.as_slice()),
    }
}

#[tactic(auto, unfolding(crate::specs::Layouts::value, crate::specs::Layouts::slot, crate::specs::Layouts::place, crate::specs::Layouts::result, crate::specs::Layouts::copy, crate::specs::Layouts::spare))]
impl Layout {
    /// The holder of a number that is out of range.
    pub fn spare(self) -> u32
        requires { spec.IsSmall self }
        ensures { result ≡ spec.spare self }
    {
        self.nodes + self.slots + self.nodes + self.functions + self.copies
    }

    /// The value of an occurrence.
    pub fn value(self, n: u32) -> u32
        requires { spec.IsSmall self }
        ensures { result ≡ spec.value self n }
    {
        if n < self.nodes { n } else { self.spare() }
    }

    /// A slot.
    pub fn slot(self, s: u32) -> u32
        requires { spec.IsSmall self }
        ensures { result ≡ spec.slot self s }
    {
        if s < self.slots {
            self.nodes + s
        } else {
            self.spare()
        }
    }

    /// The parts of an lvalue.
    pub fn place(self, n: u32) -> u32
        requires { spec.IsSmall self }
        ensures { result ≡ spec.place self n }
    {
        if n < self.nodes {
            self.nodes + self.slots + n
        } else {
            self.spare()
        }
    }

    /// What the returns of a function may be.
    pub fn result(self, i: u32) -> u32
        requires { spec.IsSmall self }
        ensures { result ≡ spec.result self i }
    {
        if i < self.functions {
            self.nodes + self.slots + self.nodes + i
        } else {
            self.spare()
        }
    }

    /// What a struct assignment copies by its k-th pointer.
    pub fn copy(self, k: u32) -> u32
        requires { spec.IsSmall self }
        ensures { result ≡ spec.copy self k }
    {
        if k < self.copies {
            self.nodes + self.slots + self.nodes + self.functions + k
        } else {
            self.spare()
        }
    }
}
