// The program that two files of the first form make.
ghost use Rattle.std.specs.Prelude.{◌≡◌, ◌≢◌, ◌++◌, ℕ, List, All, AllPairs, Contains, IfOk, IfSome, IfNone, IsTrue, false, map};
ghost use Rattle.std.specs.List.{AllZip};
ghost use Rattle.cc_first.specs.SoundProgram.{IsSound};
ghost use Rattle.cc_first.specs.Linking.{AreCalls, AreNumbered, IsCallFrom, bare, bare_view, names_of, texts_of};
ghost use Rattle.cc_first.specs.Linked.{IsLinked, IsUnlinked, heads_of};
ghost use Rattle.cc_first.specs.Unit.{functions_of, program_of};
ghost use Rattle.cc_first.specs.Views.{name_view, parts_view, program_view};

use crate::unit::{Name, Part};
use cc_base::FileId;
use indexmap::IndexSet;
use std::alloc::{AllocError, Global};

/// A function with a body, and the file that has it.
#[derive(Clone, Copy)]
pub struct Function<'a> {
    pub head: Name<'a>,
    pub file: FileId,
}

/// A call in a function's body: the name that it calls, and the numbers of both functions in the program.
#[derive(Clone, Copy)]
pub struct Call<'a> {
    pub name: Name<'a>,
    pub caller: usize,
    pub callee: usize,
}

/// Functions and calls in the order in which they stand in the files, and the entry.
#[derive(Drop)]
pub struct Program<'a> {
    pub functions: Vec<Function<'a>>,
    pub calls: Vec<Call<'a>>,
    pub entry: usize,
}

// Adds the functions of a file; false where a name has a body already.
fn add_functions<'a>(
    functions: &mut Vec<Function<'a>>,
    names: &mut IndexSet<&'a str>,
    file: FileId,
    parts: &[Part<'a>],
) -> Result<bool, AllocError>
    requires { AreNumbered functions.old.items names.old.keys }
    ensures numbered { IfOk result (λ whole. IsTrue whole → AreNumbered functions.new.items names.new.keys) }
    ensures more { IfOk result (λ whole. IsTrue whole →
        map bare_view functions.new.items
        ≡ map bare_view functions.old.items ++ map bare (functions_of file.0 (parts_view parts.now))) }
    ensures twice { IfOk result (λ whole. whole ≡ false → (rest : List (List ℕ)) →
        AllPairs (λ a b. a ≢ b)
        (texts_of functions.old.items ++ (heads_of (functions_of file.0 (parts_view parts.now)) ++ rest)) → ⊥) }
{
    for part in parts {
        if let Part::Definition(head, _) = part {
            if !names.insert(head.text)? {
                return Ok(false);
            }
            functions.push(Function { head: *head, file })?;
        }
    }
    Ok(true)
}

// Adds the calls of a body; false where a called name has no body.
fn add_body<'a>(
    calls: &mut Vec<Call<'a>>,
    names: &IndexSet<&'a str>,
    caller: usize,
    called: &[Name<'a>],
) -> Result<bool, AllocError>
    ensures more { IfOk result (λ whole. IsTrue whole → (own : List Call)
        × (calls.new.items ≡ calls.old.items ++ own)
        × AllZip (IsCallFrom (names_of names.now.keys) caller) (map name_view called.now) own) }
    ensures unknown { IfOk result (λ whole. whole ≡ false →
        All (λ name. Contains (names_of names.now.keys) name.text) (map name_view called.now) → ⊥) }
{
    for name in called {
        let Some(callee) = names.get_index_of(name.text) else {
            return Ok(false);
        };
        calls.push(Call {
            name: *name,
            caller,
            callee,
        })?;
    }
    Ok(true)
}

// Adds the calls of a file; false where a called name has no body.
fn add_calls<'a>(
    calls: &mut Vec<Call<'a>>,
    names: &IndexSet<&'a str>,
    parts: &[Part<'a>],
) -> Result<bool, AllocError>
    ensures more { IfOk result (λ whole. IsTrue whole → (added : List Call)
        × (calls.new.items ≡ calls.old.items ++ added)
        × ((file : ℕ) → AreCalls (names_of names.now.keys) (functions_of file (parts_view parts.now)) added)) }
    ensures unknown { IfOk result (λ whole. whole ≡ false → (file : ℕ) →
        All (λ function. Contains (names_of names.now.keys) function.head.text
        × All (λ call. Contains (names_of names.now.keys) call.text) function.calls)
        (functions_of file (parts_view parts.now)) → ⊥) }
{
    for part in parts {
        if let Part::Definition(head, called) = part {
            let Some(caller) = names.get_index_of(head.text) else {
                return Ok(false);
            };
            if !add_body(calls, names, caller, called)? {
                return Ok(false);
            }
        }
    }
    Ok(true)
}

/// The program of two files, or none where a name has two bodies, or a called name or the entry has none.
pub fn link<'a>(
    alloc: Global,
    first: &[Part<'a>],
    second: &[Part<'a>],
    entry: &str,
) -> Result<Option<Program<'a>>, AllocError>
    ensures some { IfOk result (λ linked. IfSome linked (λ program.
        (program_view program ≡ program_of (parts_view first.now) (parts_view second.now))
        × IsLinked (program_view program) entry.now program.entry × IsSound program)) }
    ensures none { IfOk result (λ linked. IfNone linked (IsUnlinked
        (program_of (parts_view first.now) (parts_view second.now)) entry.now)) }
{
    let mut names = IndexSet::new(alloc);
    let mut functions = Vec::new(alloc);
    let mut calls = Vec::new(alloc);
    if !add_functions(&mut functions, &mut names, FileId(0), first)?
        || !add_functions(&mut functions, &mut names, FileId(1), second)?
        || !add_calls(&mut calls, &names, first)?
        || !add_calls(&mut calls, &names, second)?
    {
        return Ok(None);
    }
    let Some(entry) = names.get_index_of(entry) else {
        return Ok(None);
    };
    Ok(Some(Program {
        functions,
        calls,
        entry,
    }))
}
