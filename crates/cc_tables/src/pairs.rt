// How many rows stand between two components, as a table.
ghost use Rattle.std.specs.Prelude.{◌≡◌, ◌++◌, ◌∷◌, [], ◌≤◌, IfOk, OnOk, length, slice_get};
ghost use Rattle.std.specs.Option.{option_copied};
ghost use Rattle.cc_program.specs.Programs.{number_of};
ghost use Rattle.cc_tables.specs.Records.{IsFresh, record_text, written};
ghost use Rattle.cc_tables.specs.Pairs as spec;

use crate::names::declarator;
use crate::records::{Records, no_records, put, text_of};
use cc_base::{CompId, List, Memory};
use cc_meaning::{Coupling, Listing, Scores, TestList};
use cc_program::Program;
use std::alloc::Global;

/// The four kinds of couplings.
#[derive(Clone, Copy)]
pub enum Kind {
    Call,
    Shared,
    Parameter,
    Return,
}

impl Kind {
    // The kind's place in the order of the table.
    fn rank(self) -> u8
        ensures { result ≡ spec.rank self }
    {
        match self {
            Kind::Call => 0,
            Kind::Shared => 1,
            Kind::Parameter => 2,
            Kind::Return => 3,
        }
    }
}

/// What counts of a row: its kind, its components, and whether a test exercises it.
#[derive(Clone, Copy)]
pub struct Span {
    pub kind: Kind,
    pub from: u32,
    pub to: u32,
    pub is_covered: bool,
}

/// The table of the ordered pairs of components that have a listed row, in the components' order: for each kind how many
/// rows there are, and how many of them a test exercises.
pub fn pairs_csv(
    alloc: Global,
    program: &Program,
    listing: &Listing,
    scores: &Scores,
    _tests: &TestList,
) -> Result<Vec<u8>, Memory>
    ensures { IfOk result (λ text. text.items ≡ spec.pairs_text program.now listing.now scores.now.marks) }
{
    let spans = spans_of(alloc, program, listing, scores)?;
    let mut records = no_records(alloc);
    put_header(&mut records)?;
    put_pairs(alloc, &mut records, program, &spans)?;
    text_of(records)
}

// Whether the row of this number has a mark.
fn is_marked(scores: &Scores, row: u32) -> bool
    ensures { result ≡ spec.is_marked (slice_get scores.now.marks row) }
{
    match scores.marks.as_slice().get(row as usize) {
        Some(Some(_)) => true,
        _ => false,
    }
}

// The number of a node's component.
fn component(program: &Program, node: u32) -> u32
    ensures { result ≡ spec.component program.now node }
{
    program.component_of(node).0
}

// What counts of a row.
fn span_of(program: &Program, row: &Coupling, is_covered: bool) -> Span
    ensures { result ≡ spec.span_of program.now row.now is_covered }
{
    match *row {
        Coupling::Call { site, callee } => Span {
            kind: Kind::Call,
            from: component(program, site),
            to: component(program, declarator(program, callee)),
            is_covered,
        },
        Coupling::Shared {
            definition,
            reader,
            ..
        } => Span {
            kind: Kind::Shared,
            from: component(program, definition),
            to: component(program, reader),
            is_covered,
        },
        Coupling::Parameter { site, callee, .. } => Span {
            kind: Kind::Parameter,
            from: component(program, site),
            to: component(program, declarator(program, callee)),
            is_covered,
        },
        Coupling::Return { site, callee, .. } => Span {
            kind: Kind::Return,
            from: component(program, declarator(program, callee)),
            to: component(program, site),
            is_covered,
        },
    }
}

// What counts of each row.
#[tactic(auto, using(crate::proofs::More::spans_more))]
fn spans_of(
    alloc: Global,
    program: &Program,
    listing: &Listing,
    scores: &Scores,
) -> Result<List<Span>, Memory>
    ensures { IfOk result (λ spans. spans
        ≡ spec.spans_to program.now listing.now scores.now.marks (length listing.now)) }
{
    let mut spans = List::new(alloc);
    for i in 0..listing.len() {
        spans.push(span_of(program, listing.row(i), is_marked(scores, i)))?;
    }
    Ok(spans)
}

// The rows that lead from a component.
#[tactic(auto, using(crate::proofs::More::leaving_more))]
fn leaving(alloc: Global, spans: &List<Span>, from: u32) -> Result<List<Span>, Memory>
    ensures { IfOk result (λ some. some ≡ spec.leaving_to from spans.now (length spans.now)) }
{
    let mut some = List::new(alloc);
    for i in 0..spans.len() {
        let span = *spans.get(i);
        if span.from == from {
            some.push(span)?;
        }
    }
    Ok(some)
}

// The rows that lead to a component.
#[tactic(auto, using(crate::proofs::More::reaching_more))]
fn reaching(alloc: Global, spans: &List<Span>, to: u32) -> Result<List<Span>, Memory>
    ensures { IfOk result (λ some. some ≡ spec.reaching_to to spans.now (length spans.now)) }
{
    let mut some = List::new(alloc);
    for i in 0..spans.len() {
        let span = *spans.get(i);
        if span.to == to {
            some.push(span)?;
        }
    }
    Ok(some)
}

// Whether the row is of this kind and, where `covered`, exercised by a test.
fn counts(span: &Span, kind: Kind, covered: bool) -> bool
    ensures { result ≡ spec.counts kind covered span.now }
{
    span.kind.rank() == kind.rank() && (span.is_covered || !covered)
}

// How many rows are of this kind and, where `covered`, exercised by a test.
#[tactic(auto, using(crate::proofs::More::count_more))]
fn count(spans: &List<Span>, kind: Kind, covered: bool) -> u64
    ensures { result ≡ spec.count_to kind covered spans.now (length spans.now) }
{
    let mut n: u64 = 0;
    for i in 0..spans.len() {
        if counts(spans.get(i), kind, covered) {
            n += 1;
        }
    }
    n
}

fn put_header(records: &mut Records) -> Result<(), Memory>
    requires { IsFresh records.old }
    ensures { OnOk result (IsFresh records.new
        × (written records.new ≡ written records.old ++ record_text spec.pairs_header)) }
{
    put(
        records,
        &[
            "from".as_bytes(),
            "to".as_bytes(),
            "call".as_bytes(),
            "call_covered".as_bytes(),
            "shared".as_bytes(),
            "shared_covered".as_bytes(),
            "parameter".as_bytes(),
            "parameter_covered".as_bytes(),
            "return".as_bytes(),
            "return_covered".as_bytes(),
        ],
    )
}

// The records of all pairs.
#[tactic(auto, using(crate::proofs::More::pairs_more))]
fn put_pairs(
    alloc: Global,
    records: &mut Records,
    program: &Program,
    spans: &List<Span>,
) -> Result<(), Memory>
    requires { IsFresh records.old }
    ensures { OnOk result (IsFresh records.new × (written records.new ≡ written records.old
        ++ spec.pairs_to program.now spans.now (number_of (length program.now.components)))) }
{
    for from in 0..program.components() {
        let rows = leaving(alloc, spans, from)?;
        put_pairs_from(alloc, records, program, from, &rows)?;
    }
    Ok(())
}

// The records of the pairs from a component, which these rows leave.
#[tactic(auto, using(crate::proofs::More::from_more))]
fn put_pairs_from(
    alloc: Global,
    records: &mut Records,
    program: &Program,
    from: u32,
    leaving: &List<Span>,
) -> Result<(), Memory>
    requires { IsFresh records.old }
    ensures { OnOk result (IsFresh records.new × (written records.new ≡ written records.old
        ++ spec.pairs_from program.now from leaving.now (number_of (length program.now.components)))) }
{
    for to in 0..program.components() {
        let some = reaching(alloc, leaving, to)?;
        put_pair(alloc, records, program, from, to, &some)?;
    }
    Ok(())
}

// The record of a pair with these rows, if there are any.
fn put_pair(
    alloc: Global,
    records: &mut Records,
    program: &Program,
    from: u32,
    to: u32,
    some: &List<Span>,
) -> Result<(), Memory>
    requires { IsFresh records.old }
    ensures { OnOk result (IsFresh records.new × (written records.new ≡ written records.old
        ++ spec.pair_text program.now from to some.now)) }
{
    if some.len() == 0 {
        return Ok(());
    }
    put_counts(alloc, records, program, from, to, some)
}

// The record of a pair with these rows.
fn put_counts(
    alloc: Global,
    records: &mut Records,
    program: &Program,
    from: u32,
    to: u32,
    some: &List<Span>,
) -> Result<(), Memory>
    requires { IsFresh records.old }
    ensures { OnOk result (IsFresh records.new × (written records.new ≡ written records.old
        ++ record_text (spec.pair_fields program.now from to some.now))) }
{
    let call = count(some, Kind::Call, false).to_string(alloc)?;
    let call_covered = count(some, Kind::Call, true).to_string(alloc)?;
    let shared = count(some, Kind::Shared, false).to_string(alloc)?;
    let shared_covered = count(some, Kind::Shared, true).to_string(alloc)?;
    let parameter = count(some, Kind::Parameter, false).to_string(alloc)?;
    let parameter_covered = count(some, Kind::Parameter, true).to_string(alloc)?;
    let returned = count(some, Kind::Return, false).to_string(alloc)?;
    let returned_covered = count(some, Kind::Return, true).to_string(alloc)?;
    put(
        records,
        &[
            program.component_name(CompId(from)).as_bytes(),
            program.component_name(CompId(to)).as_bytes(),
            call.as_bytes(),
            call_covered.as_bytes(),
            shared.as_bytes(),
            shared_covered.as_bytes(),
            parameter.as_bytes(),
            parameter_covered.as_bytes(),
            returned.as_bytes(),
            returned_covered.as_bytes(),
        ],
    )
}
