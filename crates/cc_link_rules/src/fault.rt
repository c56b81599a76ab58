// What breaks a link rule, and where.
ghost use Rattle.std.specs.Prelude.{◌≡◌};
ghost use Rattle.cc_link_rules.specs.Faults as spec;

use cc_base::{FileId, Place, Spot};

/// A rule that is broken, by its number, and the place.
#[derive(Clone, Copy)]
pub struct Fault {
    pub place: Place,
    pub rule: u8,
}

/// The lists of names of a project file.
#[derive(Clone, Copy, Debug, PartialEq, Eq)]
pub enum Names {
    Entries,
    Environment,
}

impl Fault {
    // Whether this one comes before the other: by file, place, rule.
    fn is_before(self, other: Fault) -> bool
        ensures { result ≡ spec.is_before self other }
    {
        if self.place.file.0 != other.place.file.0 {
            self.place.file.0 < other.place.file.0
        } else if self.place.line != other.place.line {
            self.place.line < other.place.line
        } else if self.place.column != other.place.column {
            self.place.column < other.place.column
        } else {
            self.rule < other.rule
        }
    }
}

/// The one of two faults, where there are any, that comes first; the earlier one of two equal ones.
pub fn lesser(one: Option<Fault>, other: Option<Fault>) -> Option<Fault>
    ensures { result ≡ spec.lesser one other }
{
    match (one, other) {
        (Some(a), Some(b)) => Some(if b.is_before(a) { b } else { a }),
        (Some(a), None) => Some(a),
        (None, other) => other,
    }
}

/// The least fault, where a rule may be broken at this place.
pub fn noted(least: Option<Fault>, broken: Option<u8>, file: FileId, spot: Spot) -> Option<Fault>
    ensures { result ≡ spec.noted least broken file spot }
{
    match broken {
        Some(rule) => {
            let place = Place::new(file, spot);
            lesser(least, Some(Fault { place, rule }))
        }
        None => least,
    }
}

/// A rule, where it is broken.
pub fn broken_if(is_broken: bool, rule: u8) -> Option<u8>
    ensures { result ≡ spec.broken_if is_broken rule }
{
    if is_broken { Some(rule) } else { None }
}

/// The file after this one.
pub fn next_file(file: FileId) -> FileId
    ensures { result ≡ spec.next_file file }
{
    FileId(next(file.0))
}

/// The number after this one, where 2^32 - 1 stands for that many or more.
pub fn next(number: u32) -> u32
    ensures { result ≡ spec.next number }
{
    if number < u32::MAX {
        number + 1
    } else {
        number
    }
}
