// The name that a declarator declares, and the parts that stand next to it.
ghost use Rattle.std.specs.Prelude.{◌≡◌, option_map};
ghost use Rattle.cc_tree.specs.Views.{view_declarator, types_of};
ghost use Rattle.cc_declare.specs.Naming as spec;

use cc_tree::{Declarator, TypeName};
use cc_tree_notes::Counted;

/// A declared name.
#[derive(Clone, Copy)]
pub struct Named<'a> {
    pub note: Counted,
    pub name: &'a str,
}

/// The name of a declarator.
pub fn name_of<'a>(d: &'a Declarator<Counted>) -> Option<Named<'a>>
    ensures { spec.name_part result ≡ spec.name_in (view_declarator d.now) }
{
    match d {
        Declarator::Name(n, x) => Some(Named {
            note: *n,
            name: x.as_str(),
        }),
        Declarator::Nameless => None,
        Declarator::Pointer(_, _, d) => name_of(d.get()),
        Declarator::Array(_, d, _) => name_of(d.get()),
        Declarator::Func(_, d, _) => name_of(d.get()),
        Declarator::Paren(_, d) => name_of(d.get()),
    }
}

/// The note of a declarator's outermost form; where nothing stands there is none.
pub fn note_of(d: &Declarator<Counted>) -> Option<Counted>
    ensures { result ≡ spec.note_in (view_declarator d.now) }
{
    match d {
        Declarator::Nameless => None,
        Declarator::Name(n, _) | Declarator::Pointer(n, _, _) => Some(*n),
        Declarator::Array(n, _, _) | Declarator::Func(n, _, _) | Declarator::Paren(n, _) => {
            Some(*n)
        }
    }
}

/// Whether there is nothing but the name, which may be missing, and parentheses round it.
pub fn is_nearest(d: &Declarator<Counted>) -> bool
    ensures { result ≡ spec.is_nearest (view_declarator d.now) }
{
    match d {
        Declarator::Name(_, _) | Declarator::Nameless => true,
        Declarator::Paren(_, d) => is_nearest(d.get()),
        _ => false,
    }
}

/// The parameters of a declarator whose form nearest to the name is that of a function.
pub fn formals<'a>(d: &'a Declarator<Counted>) -> Option<&'a [TypeName<Counted>]>
    ensures { option_map (λ ps. types_of ps.now) result ≡ spec.formals_in (view_declarator d.now) }
{
    match d {
        Declarator::Name(_, _) | Declarator::Nameless => None,
        Declarator::Pointer(_, _, d) => formals(d.get()),
        Declarator::Array(_, d, _) => formals(d.get()),
        Declarator::Func(_, d, ps) => {
            if is_nearest(d.get()) {
                Some(ps.as_slice())
            } else {
                formals(d.get())
            }
        }
        Declarator::Paren(_, d) => formals(d.get()),
    }
}

// Whether a declarator has a name.
fn has_name(d: &Declarator<Counted>) -> bool
    ensures { result ≡ spec.has_name (view_declarator d.now) }
{
    name_of(d).is_some()
}

/// Whether a parameter has no name (C23).
pub fn has_unnamed(ps: &[TypeName<Counted>]) -> bool
    ensures { result ≡ spec.has_unnamed (types_of ps.now) }
{
    for p in ps {
        if !has_name(&p.declarator) {
            return true;
        }
    }
    false
}

/// Whether there is one parameter alone, without a name.
pub fn is_lone_unnamed(ps: &[TypeName<Counted>]) -> bool
    ensures { result ≡ spec.is_lone_unnamed (types_of ps.now) }
{
    match ps {
        [] => false,
        [p] => !has_name(&p.declarator),
        [_, _, ..] => false,
    }
}
