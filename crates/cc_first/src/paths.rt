// Which calls a path from the root can reach.
ghost use Rattle.std.specs.Prelude.{◌≡◌, ◌<◌, ◌+◌, ◌*◌, ◌^◌, ◌++◌, ◌⊎◌, ◌↔◌, ℕ, List, [], ◌∷◌, All, Contains, Some, IfOk, OnOk, length, slice_get, if◌then◌else◌};
ghost use Rattle.cc_base.specs.Edges.{IsMarked};
ghost use Rattle.cc_first_runs.specs.Couplings.{AreCouplings, Row};
ghost use Rattle.cc_first_runs.specs.Points.{At, IsLive, IsReachable};
ghost use Rattle.cc_first.specs.SoundProgram.{IsSound};
ghost use Rattle.cc_first.specs.Numbers.{HasCall, IsEdgeOf, IsThrough, before_of, is_last_call, place};
ghost use Rattle.cc_first.specs.Views.{AreCallsOf, program_view};

use crate::program::{Call, Program};
use cc_base::{Edge, reachable};
use std::alloc::{AllocError, Global};

// The points of a program's paths are numbered so: the entry of function f is f, its exit is behind all entries, and
// behind all exits is, for each call c, the point after c. A call is reached where the point before it is.
#[derive(Clone, Copy)]
struct Points {
    functions: usize,
    calls: usize,
}

impl Points {
    // The points of the program. The error is for form's sake: no memory holds so many functions or calls that their
    // points could not be counted.
    fn of(program: &Program<'_>) -> Result<Points, AllocError>
        ensures functions { IfOk result (λ points. points.functions ≡ length program.now.functions.items) }
        ensures calls { IfOk result (λ points. points.calls ≡ length program.now.calls.items) }
        ensures fit { IfOk result (λ points. 2 * points.functions + points.calls < 2 ^ 64) }
    {
        let functions = program.functions.len();
        let calls = program.calls.len();
        if functions < usize::MAX / 4 && calls < usize::MAX / 4 {
            Ok(Points { functions, calls })
        } else {
            Err(AllocError)
        }
    }

    fn len(self) -> usize
        requires { 2 * self.functions + self.calls < 2 ^ 64 }
        ensures { result ≡ 2 * self.functions + self.calls }
    {
        2 * self.functions + self.calls
    }

    fn exit(self, function: usize) -> usize
        requires { self.functions + function < 2 ^ 64 }
        ensures { result ≡ self.functions + function }
    {
        self.functions + function
    }

    fn after(self, call: usize) -> usize
        requires { 2 * self.functions + call < 2 ^ 64 }
        ensures { result ≡ 2 * self.functions + call }
    {
        2 * self.functions + call
    }
}

// The point from which a path comes to the call: after the call before it in its body, or the function's entry.
fn point_before(points: Points, calls: &[Call<'_>], call: usize) -> usize
    requires within { call < length calls.now }
    requires fit { 2 * points.functions + call < 2 ^ 64 }
    ensures { result ≡ before_of points.functions calls.now call }
{
    if call > 0 && calls[call - 1].caller == calls[call].caller {
        points.after(call - 1)
    } else {
        calls[call].caller
    }
}

// Whether the call is the last one in its body.
fn is_last(calls: &[Call<'_>], call: usize) -> bool
    requires { call < length calls.now }
    ensures { result ≡ is_last_call calls.now call }
{
    call + 1 == calls.len() || calls[call + 1].caller != calls[call].caller
}

// The functions that a live function may call are live, and so is the entry.
fn live_functions(alloc: Global, program: &Program<'_>) -> Result<Vec<bool>, AllocError>
    requires { IsSound program.now }
    ensures len { IfOk result (λ live. length live.items ≡ length program.now.functions.items) }
    ensures exact { IfOk result (λ live. (f : ℕ) →
        IsMarked live.items f ↔ IsLive (program_view program.now) program.now.entry f) }
{
    let mut edges = Vec::new(alloc);
    for call in &program.calls {
        edges.push(Edge {
            from: call.caller,
            to: call.callee,
        })?;
    }
    reachable(alloc, program.functions.len(), &edges, program.entry)
}

// Adds the edge if it is wanted.
fn push_if(edges: &mut Vec<Edge>, wanted: bool, edge: Edge) -> Result<(), AllocError>
    ensures { OnOk result (edges.new.items ≡ edges.old.items ++ (if wanted then edge ∷ [] else [])) }
{
    if wanted {
        edges.push(edge)?;
    }
    Ok(())
}

// Adds a call's edges: into the called function, from the end of a body to the exit, and from the called function's
// exit to behind the call, if that stands in a live function.
fn push_edges(
    edges: &mut Vec<Edge>,
    points: Points,
    calls: &[Call<'_>],
    live: &[bool],
    i: usize,
) -> Result<(), AllocError>
    requires within { i < length calls.now }
    requires callers { All (λ call. call.caller < points.functions) calls.now }
    requires callees { All (λ call. call.callee < points.functions) calls.now }
    requires live { length live.now ≡ points.functions }
    requires fit { 2 * points.functions + length calls.now < 2 ^ 64 }
    ensures { OnOk result ((edge : Edge) →
        Contains edges.new.items edge
        ↔ (Contains edges.old.items edge ⊎ IsEdgeOf points.functions calls.now live.now i edge)) }
{
    let call = calls[i];
    edges.push(Edge {
        from: point_before(points, calls, i),
        to: call.callee,
    })?;
    push_if(
        edges,
        is_last(calls, i),
        Edge {
            from: points.after(i),
            to: points.exit(call.caller),
        },
    )?;
    push_if(
        edges,
        live[call.caller],
        Edge {
            from: points.exit(call.callee),
            to: points.after(i),
        },
    )
}

// For each function whether it has a call.
fn functions_with_calls(alloc: Global, program: &Program<'_>) -> Result<Vec<bool>, AllocError>
    requires { IsSound program.now }
    ensures len { IfOk result (λ marks. length marks.items ≡ length program.now.functions.items) }
    ensures exact { IfOk result (λ marks. (f : ℕ) → IsMarked marks.items f ↔ HasCall program.now.calls.items f) }
{
    let mut marks = vec![in alloc; false; program.functions.len()]?;
    for call in &program.calls {
        marks[call.caller] = true;
    }
    Ok(marks)
}

// How paths go on: over the edges of the calls, and in a function without calls from the entry to the exit.
fn edges_of(alloc: Global, program: &Program<'_>, live: &[bool]) -> Result<Vec<Edge>, AllocError>
    requires sound { IsSound program.now }
    requires live { length live.now ≡ length program.now.functions.items }
    ensures { IfOk result (λ edges. (edge : Edge) →
        Contains edges.items edge
        ↔ (((k : ℕ) × IsEdgeOf (length program.now.functions.items) program.now.calls.items live.now k edge)
        ⊎ ((f : ℕ) × IsThrough (length program.now.functions.items) program.now.calls.items f edge))) }
{
    let points = Points::of(program)?;
    let calls = program.calls.as_slice();
    let has_calls = functions_with_calls(alloc, program)?;
    let mut edges = Vec::new(alloc);
    for i in 0..calls.len() {
        push_edges(&mut edges, points, calls, live, i)?;
    }
    for function in 0..points.functions {
        push_if(
            &mut edges,
            !has_calls[function],
            Edge {
                from: function,
                to: points.exit(function),
            },
        )?;
    }
    Ok(edges)
}

// For each call whether a path leads to it.
fn reached_calls(alloc: Global, program: &Program<'_>) -> Result<Vec<bool>, AllocError>
    requires { IsSound program.now }
    ensures len { IfOk result (λ reached. length reached.items ≡ length program.now.calls.items) }
    ensures exact { IfOk result (λ reached. (k : ℕ) (call : Call) → slice_get program.now.calls.items k ≡ Some call →
        IsMarked reached.items k
        ↔ IsReachable (program_view program.now) program.now.entry
        (At call.caller (place program.now.calls.items k call.caller))) }
{
    let points = Points::of(program)?;
    let calls = program.calls.as_slice();
    let live = live_functions(alloc, program)?;
    let edges = edges_of(alloc, program, &live)?;
    let marks = reachable(alloc, points.len(), &edges, program.entry)?;
    let mut reached = Vec::new(alloc);
    for i in 0..calls.len() {
        reached.push(marks[point_before(points, calls, i)])?;
    }
    Ok(reached)
}

/// The calls that a path reaches and that lead to another component, in the order in which they stand.
pub fn coupling_calls<'a>(alloc: Global, program: &Program<'a>) -> Result<Vec<Call<'a>>, AllocError>
    requires { IsSound program.now }
    ensures { IfOk result (λ couplings. (rows : List Row)
        × AreCouplings (program_view program.now) program.now.entry rows
        × AreCallsOf (program_view program.now) rows couplings.items) }
{
    let reached = reached_calls(alloc, program)?;
    let mut couplings = Vec::new(alloc);
    for i in 0..program.calls.len() {
        let call = program.calls[i];
        let caller = program.functions[call.caller];
        let callee = program.functions[call.callee];
        if reached[i] && caller.file != callee.file {
            couplings.push(call)?;
        }
    }
    Ok(couplings)
}
