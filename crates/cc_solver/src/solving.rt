// The solver.
ghost use Rattle.std.specs.Prelude.{◌≡◌, ◌≢◌, ◌⊎◌, ℕ, ◌+◌, ◌<◌, ◌≤◌, ◌↔◌, ◌∷◌, [], ◌++◌, Ok, Err, Some, None, Option, List, Contains, All, IfOk, OnOk, IfSome, IfNone, length};
ghost use Rattle.cc_blocks.specs.Cells.{row_bit};
ghost use Rattle.cc_blocks.specs.declared.cell.Cell.{Cell};
ghost use Rattle.cc_blocks.specs.Pairs.{pair_bit, pair_count};
ghost use Rattle.cc_solver.specs.declared.rules.Pair.{Pair};
ghost use Rattle.cc_solver.specs.declared.rules.Edge.{Edge};
ghost use Rattle.cc_solver.specs.declared.state.Stop.TheVariants.{TooMany, Memory};
ghost use Rattle.cc_solver.specs.Least.{Least, HasMore};
ghost use Rattle.cc_solver.specs.Solving.{Has, In, IsState, Told, told_of, HasEdges, HasPairs, Grows, Exceeds, Links, Solves, OwesNone, LagsNone, OwesDue, OwesAll, LagsAll, LagsDue, HasGiven, HasJoins, Keeps, Takes, Begins, Spreads, SpreadsMany};

use crate::rules::{Edge, Pair, Rules};
use crate::state::{Limits, State, Stop};
use cc_blocks::{Row, Rows};
use std::alloc::{AllocError, Global};
use std::collections::VecDeque;

fn enqueue(work: &mut VecDeque<u32>, holder: u32) -> Result<(), AllocError>
    ensures { OnOk result (work.new.items ≡ work.old.items ++ holder ∷ []) }
{
    work.push_back(holder)?;
    Ok(())
}

// Counts the pairs that a holder got, where it counts.
fn tell(told: &mut u64, holder: u32, added: u64, limits: Limits) -> Result<(), Stop>
    requires limits { (limits.most ≤ 4294967296) × (limits.room ≤ 4294967296) }
    requires told { told.old ≤ limits.most }
    requires added { added ≤ 4294967296 }
    ensures told { OnOk result (Told limits told.old told.new holder added) }
    ensures many { result ≡ Err TooMany → (holder < limits.counters) × (limits.most < told.old + added) }
{
    if holder >= limits.counters {
        return Ok(());
    }
    *told += added;
    if *told > limits.most {
        return Err(Stop::TooMany);
    }
    Ok(())
}

// Counts the pairs that a holder got.
fn note(state: &mut State, holder: u32, added: u64, limits: Limits) -> Result<(), Stop>
    requires limits { (limits.most ≤ 4294967296) × (limits.room ≤ 4294967296) }
    requires count { state.old.count ≤ limits.room }
    requires told { state.old.told ≤ limits.most }
    requires added { added ≤ 4294967296 }
    ensures pairs { state.new.pairs.rows.items ≡ state.old.pairs.rows.items }
    ensures fresh { state.new.fresh.rows.items ≡ state.old.fresh.rows.items }
    ensures edges { state.new.edges.rows.items ≡ state.old.edges.rows.items }
    ensures count { OnOk result ((state.new.count ≡ state.old.count + added) × (state.new.count ≤ limits.room)) }
    ensures told { OnOk result (Told limits state.old.told state.new.told holder added) }
    ensures work { OnOk result (((added ≡ 0) × (state.new.work.items ≡ state.old.work.items))
        ⊎ ((0 < added) × (state.new.work.items ≡ state.old.work.items ++ holder ∷ []))) }
    ensures many { result ≡ Err TooMany → (holder < limits.counters) × (limits.most < state.old.told + added) }
{
    if added == 0 {
        return Ok(());
    }
    enqueue(&mut state.work, holder)?;
    tell(&mut state.told, holder, added, limits)?;
    state.count += added;
    if state.count > limits.room {
        return Err(Stop::Memory);
    }
    Ok(())
}

// Gives targets to a holder.
fn give(state: &mut State, holder: u32, row: &Row, limits: Limits) -> Result<(), Stop>
    requires limits { (limits.most ≤ 4294967296) × (limits.room ≤ 4294967296) }
    requires state { IsState limits state.old }
    requires holder { holder < length state.old.pairs.rows.items }
    ensures state { OnOk result (IsState limits state.new) }
    ensures grows { OnOk result (Grows state.old state.new holder (In row.now.cells.items)) }
    ensures got { OnOk result ((t : ℕ) → In row.now.cells.items t → Has state.new.pairs holder t) }
    ensures edges { state.new.edges.rows.items ≡ state.old.edges.rows.items }
    ensures many { result ≡ Err TooMany → Exceeds limits state.old state.new holder (In row.now.cells.items) }
{
    let added = state.pairs.give(holder, row, &mut state.fresh)?;
    note(state, holder, added, limits)?;
    Ok(())
}

// Gives the targets of a holder to another one.
fn flow(state: &mut State, alloc: Global, from: u32, to: u32, limits: Limits) -> Result<(), Stop>
    requires limits { (limits.most ≤ 4294967296) × (limits.room ≤ 4294967296) }
    requires state { IsState limits state.old }
    requires from { from < length state.old.pairs.rows.items }
    requires to { to < length state.old.pairs.rows.items }
    requires apart { from ≢ to }
    ensures state { OnOk result (IsState limits state.new) }
    ensures grows { OnOk result (Grows state.old state.new to (Has state.old.pairs from)) }
    ensures got { OnOk result ((t : ℕ) → Has state.old.pairs from t → Has state.new.pairs to t) }
    ensures edges { state.new.edges.rows.items ≡ state.old.edges.rows.items }
    ensures many { result ≡ Err TooMany → Exceeds limits state.old state.new to (Has state.old.pairs from) }
{
    let added = state.pairs.flow(alloc, from, to, &mut state.fresh)?;
    note(state, to, added, limits)?;
    Ok(())
}

// Adds an edge.
fn add_edge(
    state: &mut State,
    alloc: Global,
    from: u32,
    to: u32,
    limits: Limits,
) -> Result<(), Stop>
    requires limits { (limits.most ≤ 4294967296) × (limits.room ≤ 4294967296) }
    requires state { IsState limits state.old }
    requires from { from < length state.old.pairs.rows.items }
    requires to { to < length state.old.pairs.rows.items }
    ensures state { OnOk result (IsState limits state.new) }
    ensures links { OnOk result (Links state.old state.new from to) }
    ensures many { result ≡ Err TooMany → Exceeds limits state.old state.new to (Has state.old.pairs from) }
{
    let new = state.edges.add(from, to)?;
    if !new {
        return Ok(());
    }
    if from == to {
        return Ok(());
    }
    flow(state, alloc, from, to, limits)?;
    Ok(())
}

// Adds the edges that a pair adds.
fn trigger_one<R: Rules>(
    state: &mut State,
    alloc: Global,
    rules: &R,
    holder: u32,
    target: u32,
    out: &mut Vec<Edge>,
    limits: Limits,
) -> Result<(), Stop>
    requires limits { (limits.most ≤ 4294967296) × (limits.room ≤ 4294967296) }
    requires state { IsState limits state.old }
    requires adds { (h t g k : ℕ) → R.adds rules.now h t g k
        → (g < length state.old.pairs.rows.items) × (k < length state.old.pairs.rows.items) }
    requires pair { Has state.old.pairs holder target }
    ensures state { OnOk result (IsState limits state.new) }
    ensures keeps { OnOk result (Keeps state.old state.new) }
    ensures all { OnOk result (HasEdges state.new (R.adds rules.now) holder target) }
    ensures on { OnOk result ((given : List Pair) (joins : List Edge) (h : ℕ) (delta : List Cell) (next : Option ℕ)
        → Solves given joins (R.adds rules.now) (R.gives rules.now) state.old (OwesDue h delta next) (LagsAll h delta)
        → Solves given joins (R.adds rules.now) (R.gives rules.now) state.new (OwesDue h delta next) (LagsAll h delta)) }
    ensures many { result ≡ Err TooMany → (given : List Pair) (joins : List Edge) (h : ℕ) (delta : List Cell) (next : Option ℕ)
        → Solves given joins (R.adds rules.now) (R.gives rules.now) state.old (OwesDue h delta next) (LagsAll h delta)
        → HasMore limits (Least given joins (R.adds rules.now) (R.gives rules.now)) }
{
    out.clear();
    rules.edges(holder, target, out)?;
    for edge in &*out {
        add_edge(state, alloc, edge.from, edge.to, limits)?;
    }
    Ok(())
}

// Adds the pairs that a pair gives.
fn hand_one<R: Rules>(
    state: &mut State,
    alloc: Global,
    rules: &R,
    holder: u32,
    target: u32,
    out: &mut Vec<Pair>,
    limits: Limits,
) -> Result<(), Stop>
    requires limits { (limits.most ≤ 4294967296) × (limits.room ≤ 4294967296) }
    requires state { IsState limits state.old }
    requires gives { (h t k u : ℕ) → R.gives rules.now h t k u → k < length state.old.pairs.rows.items }
    requires pair { Has state.old.pairs holder target }
    ensures state { OnOk result (IsState limits state.new) }
    ensures keeps { OnOk result (Keeps state.old state.new) }
    ensures all { OnOk result (HasPairs state.new (R.gives rules.now) holder target) }
    ensures on { OnOk result ((given : List Pair) (joins : List Edge) (h : ℕ) (delta : List Cell) (next : Option ℕ)
        → Solves given joins (R.adds rules.now) (R.gives rules.now) state.old (OwesDue h delta next) (LagsAll h delta)
        → Solves given joins (R.adds rules.now) (R.gives rules.now) state.new (OwesDue h delta next) (LagsAll h delta)) }
    ensures many { result ≡ Err TooMany → (given : List Pair) (joins : List Edge) (h : ℕ) (delta : List Cell) (next : Option ℕ)
        → Solves given joins (R.adds rules.now) (R.gives rules.now) state.old (OwesDue h delta next) (LagsAll h delta)
        → HasMore limits (Least given joins (R.adds rules.now) (R.gives rules.now)) }
{
    out.clear();
    rules.pairs(holder, target, out)?;
    for pair in &*out {
        add_pair(state, alloc, *pair, limits)?;
    }
    Ok(())
}

// Adds the edges that these targets of a holder add, and the pairs that they give.
fn trigger<R: Rules>(
    state: &mut State,
    alloc: Global,
    rules: &R,
    holder: u32,
    delta: &Row,
    limits: Limits,
) -> Result<(), Stop>
    requires limits { (limits.most ≤ 4294967296) × (limits.room ≤ 4294967296) }
    requires state { IsState limits state.old }
    requires adds { (h t g k : ℕ) → R.adds rules.now h t g k
        → (g < length state.old.pairs.rows.items) × (k < length state.old.pairs.rows.items) }
    requires gives { (h t k u : ℕ) → R.gives rules.now h t k u → k < length state.old.pairs.rows.items }
    requires delta { (t : ℕ) → In delta.now.cells.items t → Has state.old.pairs holder t }
    ensures state { OnOk result (IsState limits state.new) }
    ensures keeps { OnOk result (Keeps state.old state.new) }
    ensures on { OnOk result ((given : List Pair) (joins : List Edge)
        → Solves given joins (R.adds rules.now) (R.gives rules.now) state.old (OwesAll holder delta.now.cells.items) (LagsAll holder delta.now.cells.items)
        → Solves given joins (R.adds rules.now) (R.gives rules.now) state.new OwesNone (LagsAll holder delta.now.cells.items)) }
    ensures many { result ≡ Err TooMany → (given : List Pair) (joins : List Edge)
        → Solves given joins (R.adds rules.now) (R.gives rules.now) state.old (OwesAll holder delta.now.cells.items) (LagsAll holder delta.now.cells.items)
        → HasMore limits (Least given joins (R.adds rules.now) (R.gives rules.now)) }
{
    let mut edges = Vec::new(alloc);
    let mut pairs = Vec::new(alloc);
    let mut next = delta.first_at_or_after(0);
    while let Some(target) = next {
        trigger_one(state, alloc, rules, holder, target, &mut edges, limits)?;
        hand_one(state, alloc, rules, holder, target, &mut pairs, limits)?;
        next = delta.next_after(target);
    }
    Ok(())
}

// Gives these targets of a holder to the holders to which its edges lead.
fn spread(state: &mut State, holder: u32, delta: &Row, limits: Limits) -> Result<(), Stop>
    requires limits { (limits.most ≤ 4294967296) × (limits.room ≤ 4294967296) }
    requires state { IsState limits state.old }
    requires holder { holder < length state.old.pairs.rows.items }
    requires delta { (t : ℕ) → In delta.now.cells.items t → Has state.old.pairs holder t }
    ensures state { OnOk result (IsState limits state.new) }
    ensures keeps { OnOk result (Keeps state.old state.new) }
    ensures spreads { OnOk result (Spreads state.old state.new holder delta.now.cells.items) }
    ensures many { result ≡ Err TooMany → SpreadsMany limits state.old state.new holder delta.now.cells.items }
{
    let mut next = state.edges.row(holder).first_at_or_after(0);
    while let Some(to) = next {
        give(state, to, delta, limits)?;
        next = state.edges.row(holder).next_after(to);
    }
    Ok(())
}

// A holder, and its targets that are to be handled.
#[derive(Drop)]
struct Step {
    holder: u32,
    delta: Row,
}

// Takes a holder from the work, and its targets that are to be handled.
fn take_next(state: &mut State, alloc: Global, limits: Limits) -> Option<Step>
    requires { IsState limits state.old }
    ensures none { IfNone result ((state.new.pairs.rows.items ≡ state.old.pairs.rows.items)
        × ((h t : ℕ) → Has state.old.fresh h t → ⊥)) }
    ensures state { IfSome result (λ step. IsState limits state.new) }
    ensures holder { IfSome result (λ step. step.holder < length state.new.pairs.rows.items) }
    ensures delta { IfSome result (λ step. (t : ℕ) → In step.delta.cells.items t → Has state.new.pairs step.holder t) }
    ensures takes { IfSome result (λ step. Takes state.old state.new step.holder step.delta.cells.items) }
{
    match state.work.pop_front() {
        Some(holder) => {
            let delta = state.fresh.take(alloc, holder);
            Some(Step { holder, delta })
        }
        None => None,
    }
}

// The edges and pairs that are given.
fn begin(
    alloc: Global,
    holders: u32,
    given: &[Pair],
    joins: &[Edge],
    limits: Limits,
) -> Result<State, Stop>
    requires limits { (limits.most ≤ 4294967296) × (limits.room ≤ 4294967296) }
    requires given { (pair : Pair) → Contains given.now pair → pair.holder < holders }
    requires joins { (edge : Edge) → Contains joins.now edge → (edge.from < holders) × (edge.to < holders) }
    ensures state { IfOk result (IsState limits) }
    ensures holders { IfOk result (λ state. length state.pairs.rows.items ≡ holders) }
    ensures begins { IfOk result (Begins given.now joins.now) }
    ensures many { result ≡ Err TooMany
        → HasMore limits (λ h t. Contains given.now (record { holder = h; target = t })) }
{
    let mut state = State {
        pairs: Rows::new(alloc, holders)?,
        fresh: Rows::new(alloc, holders)?,
        edges: Rows::new(alloc, holders)?,
        work: VecDeque::new(alloc),
        told: 0,
        count: 0,
    };
    for edge in joins {
        state.edges.add(edge.from, edge.to)?;
    }
    for pair in given {
        add_pair(&mut state, alloc, *pair, limits)?;
    }
    Ok(state)
}

// Adds a pair that is given.
fn add_pair(state: &mut State, alloc: Global, pair: Pair, limits: Limits) -> Result<(), Stop>
    requires limits { (limits.most ≤ 4294967296) × (limits.room ≤ 4294967296) }
    requires state { IsState limits state.old }
    requires holder { pair.holder < length state.old.pairs.rows.items }
    ensures state { OnOk result (IsState limits state.new) }
    ensures grows { OnOk result (Grows state.old state.new pair.holder (λ t. t ≡ pair.target)) }
    ensures got { OnOk result (Has state.new.pairs pair.holder pair.target) }
    ensures edges { state.new.edges.rows.items ≡ state.old.edges.rows.items }
    ensures many { result ≡ Err TooMany → Exceeds limits state.old state.new pair.holder (λ t. t ≡ pair.target) }
{
    let mut row = Row::new(alloc);
    row.add(pair.target)?;
    give(state, pair.holder, &row, limits)?;
    Ok(())
}

/// The least set of pairs that has the given ones and is closed under the given edges, and under those that its own
/// pairs add by these rules.
pub fn solve<R: Rules>(
    alloc: Global,
    holders: u32,
    given: &[Pair],
    joins: &[Edge],
    rules: &R,
    limits: Limits,
) -> Result<Rows, Stop>
    requires limits { (limits.most ≤ 4294967296) × (limits.room ≤ 4294967296) }
    requires given { (pair : Pair) → Contains given.now pair → pair.holder < holders }
    requires joins { (edge : Edge) → Contains joins.now edge → (edge.from < holders) × (edge.to < holders) }
    requires adds { (h t g k : ℕ) → R.adds rules.now h t g k → (g < holders) × (k < holders) }
    requires gives { (h t k u : ℕ) → R.gives rules.now h t k u → k < holders }
    ensures exact { IfOk result (λ rows. (h t : ℕ)
        → (pair_bit rows.rows.items h t ≡ 1) ↔ Least given.now joins.now (R.adds rules.now) (R.gives rules.now) h t) }
    ensures holders { IfOk result (λ rows. length rows.rows.items ≡ holders) }
    ensures limited { IfOk result (λ rows. told_of limits rows ≤ limits.most) }
    ensures fits { IfOk result (λ rows. HasMore limits (Least given.now joins.now (R.adds rules.now) (R.gives rules.now)) → ⊥) }
    ensures many { result ≡ Err TooMany → HasMore limits (Least given.now joins.now (R.adds rules.now) (R.gives rules.now)) }
{
    let mut state = begin(alloc, holders, given, joins, limits)?;
    while let Some(step) = take_next(&mut state, alloc, limits) {
        trigger(&mut state, alloc, rules, step.holder, &step.delta, limits)?;
        spread(&mut state, step.holder, &step.delta, limits)?;
    }
    Ok(state.pairs)
}
