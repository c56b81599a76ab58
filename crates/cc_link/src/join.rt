// From checked files to a program.
ghost use Rattle.std.specs.Prelude.{◌≡◌, None, IfOk, IfErr, OnOk};
ghost use Rattle.cc_link.specs.Joining as spec;

use crate::fault::LinkFault;
use crate::numbers::all_numbers;
use crate::tables;
use cc_arena::Arena;
use cc_base::{List, Memory, Text};
use cc_link_rules::{
    Definitions, Fault, Links, NameFault, Standings, Tags, all_called, check_all_names,
    definitions, end_files, lesser, link_files, link_tags, link_typedefs, mark_all, standings,
    use_all, whole_structs,
};
use cc_program::{FileEntry, FuncId, Function, Program, Referent, Variable};
use cc_project::Project;
use cc_symbols::{CheckedUnit, Known, Slots, Symbols};
use cc_types::Structs;
use std::alloc::Global;

// What each declaration is, and the rule that is broken, if one is.
#[derive(Drop)]
struct Judged {
    standings: Standings,
    refusal: Option<LinkFault>,
}

// The least fault of K4 and K5.
fn type_faults(
    alloc: Global,
    symbols: &Symbols,
    units: &[CheckedUnit],
) -> Result<Option<Fault>, Memory>
    ensures { IfOk result (λ least. least ≡ spec.type_faults symbols.now units.now) }
{
    let mut tags = Tags::new(alloc);
    let mut names = Links::new(alloc);
    let tagged = link_tags(alloc, &mut tags, units)?;
    let typedefs = link_typedefs(&mut names, &symbols.texts, units)?;
    Ok(lesser(tagged, typedefs))
}

// The least fault of K3, K9 and K10.
fn use_faults(
    alloc: Global,
    symbols: &Symbols,
    arena: &Arena,
    definitions: &Definitions,
    standings: &Standings,
    units: &[CheckedUnit],
) -> Result<Option<Fault>, Memory>
    ensures { IfOk result (λ least.
        least ≡ spec.use_faults symbols.now arena.now definitions.now standings.now units.now) }
{
    let called = all_called(alloc, arena)?;
    let ended = end_files(&symbols.types, &symbols.declared, definitions, units);
    let used = use_all(symbols, standings, &called, arena, units);
    Ok(lesser(ended, used))
}

// The refusal: the least fault with a place, else the first name of the project file that breaks a rule.
fn refusal(least: Option<Fault>, named: Option<NameFault>) -> Option<LinkFault>
    ensures { result ≡ spec.refusal least named }
{
    match (least, named) {
        (Some(fault), _) => Some(LinkFault::Offence {
            place: fault.place,
            rule: fault.rule,
        }),
        (None, Some(fault)) => Some(LinkFault::Name {
            list: fault.list,
            index: fault.index,
            rule: fault.rule,
        }),
        (None, None) => None,
    }
}

// Takes down the names with external linkage. The answer is the least fault of K1 and K2.
fn link_names<'a>(
    links: &mut Links<'a>,
    symbols: &'a Symbols,
    definitions: &Definitions,
    units: &[CheckedUnit],
    project: &'a Project,
) -> Result<Option<Fault>, Memory>
    ensures { IfOk result (λ least. (links.new, least)
        ≡ spec.names_linked symbols.now definitions.now units.now project.now.environment links.old) }
{
    let least = link_files(links, &symbols.types, &symbols.texts, definitions, units)?;
    mark_all(links, &project.environment)?;
    Ok(least)
}

// Judges all rules. `links` gets the names with external linkage.
fn judge<'a>(
    alloc: Global,
    links: &mut Links<'a>,
    symbols: &'a Symbols,
    arena: &Arena,
    units: &[CheckedUnit],
    project: &'a Project,
) -> Result<Judged, Memory>
    ensures { IfOk result (λ judged.
        judged.refusal ≡ spec.refusal_of symbols.now arena.now units.now project.now links.old) }
{
    let definitions = definitions(alloc, symbols.declared.count()?, units)?;
    let external = link_names(links, symbols, &definitions, units, project)?;
    let standings = standings(
        alloc,
        links,
        &definitions,
        &symbols.texts,
        &symbols.declared,
    )?;
    let typed = type_faults(alloc, symbols, units)?;
    let used = use_faults(alloc, symbols, arena, &definitions, &standings, units)?;
    let named = check_all_names(
        links,
        &symbols.types,
        &project.entries,
        &project.environment,
    );
    let refusal = refusal(lesser(lesser(external, typed), used), named);
    Ok(Judged { standings, refusal })
}

// The tables of a program, beside the nodes and what is known of them.
#[derive(Drop)]
struct Tables {
    structs: Structs,
    referents: Slots<Option<Referent>>,
    functions: List<Function>,
    variables: List<Variable>,
    entries: List<FuncId>,
    files: List<FileEntry>,
    components: List<Text>,
}

// The tables.
fn made_tables(
    alloc: Global,
    links: &Links,
    standings: &Standings,
    symbols: &Symbols,
    arena: &Arena,
    units: &[CheckedUnit],
    project: &Project,
) -> Result<Tables, Memory> {
    let numbers = all_numbers(alloc, symbols, standings, arena)?;
    Ok(Tables {
        structs: whole_structs(alloc, &symbols.types, &symbols.structs, units)?,
        functions: tables::functions(alloc, &numbers, symbols, standings, arena)?,
        variables: tables::variables(alloc, &numbers, symbols, standings)?,
        entries: tables::entries(alloc, links, &numbers, &project.entries)?,
        files: tables::files(alloc, &project.files, units)?,
        components: tables::copied_texts(alloc, &project.components)?,
        referents: numbers.referents,
    })
}

// The tables of the program that these files make.
fn joined(
    alloc: Global,
    symbols: &Symbols,
    arena: &Arena,
    units: &[CheckedUnit],
    project: &Project,
) -> Result<Tables, LinkFault>
    ensures accepted { OnOk result (spec.refused symbols.now arena.now units.now project.now ≡ None) }
    ensures refused { IfErr result (λ fault.
        spec.IsRefusal fault (spec.refused symbols.now arena.now units.now project.now)) }
{
    let mut links = Links::new(alloc);
    let judged = judge(alloc, &mut links, symbols, arena, units, project)?;
    match judged.refusal {
        Some(fault) => Err(fault),
        None => Ok(made_tables(
            alloc,
            &links,
            &judged.standings,
            symbols,
            arena,
            units,
            project,
        )?),
    }
}

// What is known, with the structs of the whole project.
fn with_structs(known: Known, structs: Structs) -> Known
    ensures { result ≡ spec.with_structs known structs }
{
    let mut known = known;
    known.symbols.structs = structs;
    known
}

/// The program that the checked files of a project make. `units` has one unit for each file, in the order of the project;
/// `known` and `arena` are what the checking of the last one left.
///
/// Fails where a link rule is broken ([`LinkFault`]), and where memory is wanting.
pub fn link(
    alloc: Global,
    known: Known,
    arena: Arena,
    units: &List<CheckedUnit>,
    project: &Project,
) -> Result<Program, LinkFault>
    ensures accepted { OnOk result (spec.refused known.symbols arena units.now project.now ≡ None) }
    ensures refused { IfErr result (λ fault.
        spec.IsRefusal fault (spec.refused known.symbols arena units.now project.now)) }
{
    let tables = joined(alloc, &known.symbols, &arena, units.as_slice(), project)?;
    Ok(Program {
        arena,
        known: with_structs(known, tables.structs),
        referents: tables.referents,
        functions: tables.functions,
        variables: tables.variables,
        components: tables.components,
        files: tables.files,
        entries: tables.entries,
    })
}
