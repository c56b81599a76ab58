// What the targets of holders do.
ghost use Rattle.std.specs.Prelude.{◌≡◌, ◌⊎◌, ◌↔◌, Contains, OnOk, slice_index_or, []};
ghost use Rattle.cc_points_base.specs.Layouts.{IsSmall};
ghost use Rattle.cc_points_solve.specs.Watching as spec;
ghost use Rattle.cc_points_solve.specs.Problems.{row_of};

use cc_points_base::{
    Layout, View, Watch, element_of, formal_of, function_of, is_function, is_part, leaf_of,
    member_of, slot_of,
};
use cc_solver::{Edge, Pair, Rules};
use sqlite_items::Items;
use std::alloc::AllocError;

fn loads(layout: Layout, slot: Option<u32>, to: u32) -> Option<Edge>
    requires { IsSmall layout }
    ensures { result ≡ spec.loads layout slot to }
{
    match slot {
        Some(slot) => Some(Edge {
            from: layout.slot(slot),
            to,
        }),
        None => None,
    }
}

fn stores(layout: Layout, slot: Option<u32>, from: u32) -> Option<Edge>
    requires { IsSmall layout }
    ensures { result ≡ spec.stores layout slot from }
{
    match slot {
        Some(slot) => Some(Edge {
            from,
            to: layout.slot(slot),
        }),
        None => None,
    }
}

fn returns(layout: Layout, function: Option<u32>, to: u32) -> Option<Edge>
    requires { IsSmall layout }
    ensures { result ≡ spec.returns layout function to }
{
    match function {
        Some(function) => Some(Edge {
            from: layout.result(function),
            to,
        }),
        None => None,
    }
}

// The edge that a target adds.
fn edge_of(view: &View, layout: Layout, watch: Watch, target: u32) -> Option<Edge>
    requires { IsSmall layout }
    ensures { result ≡ spec.edge_of view.now layout watch target }
{
    match watch {
        Watch::Loads(to) => loads(layout, slot_of(view, target), to),
        Watch::Stores(from) => stores(layout, slot_of(view, target), from),
        Watch::Passes(k, from) => stores(layout, formal_of(view, target, k), from),
        Watch::Copies(id, w, to) => loads(layout, leaf_of(view, id, target, w), to),
        Watch::Pastes(id, w, from) => stores(layout, leaf_of(view, id, target, w), from),
        Watch::Returns(to) => returns(layout, function_of(view, target), to),
        _ => None,
    }
}

fn gives(target: Option<u32>, to: u32) -> Option<Pair>
    ensures { result ≡ spec.gives target to }
{
    match target {
        Some(target) => Some(Pair { holder: to, target }),
        None => None,
    }
}

// The pair that a target gives.
fn pair_of(view: &View, watch: Watch, target: u32) -> Option<Pair>
    ensures { result ≡ spec.pair_of view.now watch target }
{
    match watch {
        Watch::Member(m, to) => gives(member_of(view, target, m), to),
        Watch::Element(to) => gives(element_of(view, target), to),
        Watch::Parts(to) => {
            if is_part(view, target) {
                Some(Pair { holder: to, target })
            } else {
                None
            }
        }
        Watch::Functions(to) => {
            if is_function(view, target) {
                Some(Pair { holder: to, target })
            } else {
                None
            }
        }
        _ => None,
    }
}

fn push_edge(out: &mut Vec<Edge>, edge: Option<Edge>) -> Result<(), AllocError>
    ensures { OnOk result (out.new.items ≡ spec.edge_pushed edge out.old.items) }
{
    if let Some(edge) = edge {
        out.push(edge)?;
    }
    Ok(())
}

fn push_pair(out: &mut Vec<Pair>, pair: Option<Pair>) -> Result<(), AllocError>
    ensures { OnOk result (out.new.items ≡ spec.pair_pushed pair out.old.items) }
{
    if let Some(pair) = pair {
        out.push(pair)?;
    }
    Ok(())
}

fn row_of(table: &[Items<Watch>], holder: u32) -> &[Watch]
    ensures { result.now ≡ row_of table.now holder }
{
    match table.get(holder as usize) {
        Some(row) => row.as_slice(),
        None => &[],
    }
}

fn add_edges(
    out: &mut Vec<Edge>,
    view: &View,
    layout: Layout,
    row: &[Watch],
    target: u32,
) -> Result<(), AllocError>
    requires { IsSmall layout }
    ensures { OnOk result (out.new.items ≡ spec.edges_by view.now layout row.now target out.old.items) }
{
    for watch in row {
        push_edge(out, edge_of(view, layout, *watch, target))?;
    }
    Ok(())
}

fn add_pairs(out: &mut Vec<Pair>, view: &View, row: &[Watch], target: u32) -> Result<(), AllocError>
    ensures { OnOk result (out.new.items ≡ spec.pairs_by view.now row.now target out.old.items) }
{
    for watch in row {
        push_pair(out, pair_of(view, *watch, target))?;
    }
    Ok(())
}

/// What the targets of holders do, by a table.
#[derive(Drop)]
pub struct Watching<'a> {
    pub view: &'a View,
    pub layout: Layout,
    pub table: &'a [Items<Watch>],
    ghost small: { IsSmall layout },
}

impl Rules for Watching<'_> {
    ghost adds = { λ rules h t g k. spec.AddsEdge rules.view.now rules.layout (row_of rules.table.now h) t (record { from = g; to = k }) };

    ghost gives = { λ rules h t k u. spec.GivesPair rules.view.now (row_of rules.table.now h) t (record { holder = k; target = u }) };

    fn edges(&self, holder: u32, target: u32, out: &mut Vec<Edge>) -> Result<(), AllocError> {
        add_edges(
            out,
            self.view,
            self.layout,
            row_of(self.table, holder),
            target,
        )?;
        Ok(())
    }

    fn pairs(&self, holder: u32, target: u32, out: &mut Vec<Pair>) -> Result<(), AllocError> {
        add_pairs(out, self.view, row_of(self.table, holder), target)?;
        Ok(())
    }
}
