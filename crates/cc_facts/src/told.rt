// What the table tells.
ghost use Rattle.std.specs.Prelude.{◌≡◌, ◌+◌, ◌≤◌, ◌<◌, ◌^◌};
ghost use Rattle.cc_facts.specs.Told as spec;

use crate::facts::Facts;
use crate::target::Target;
use cc_parts::Parts;

impl Facts {
    /// The parts of all objects.
    pub fn parts(&self) -> &Parts
        ensures { result.now ≡ self.now.parts }
    {
        &self.parts
    }

    /// The number of a target, if it is one. Takes no memory, as all that follow.
    pub fn number(&self, target: Target) -> Option<u32>
        ensures { result ≡ spec.number_of self.now target }
    {
        let count = self.parts.count();
        match target {
            Target::Part(part) => { if part < count { Some(part) } else { None } }
            Target::Function(g) => {
                if g <= u32::MAX - count {
                    Some(count + g)
                } else {
                    None
                }
            }
        }
    }

    /// The target of a number.
    pub fn target(&self, number: u32) -> Target
        ensures { result ≡ spec.target_of self.now number }
    {
        let count = self.parts.count();
        if number < count {
            Target::Part(number)
        } else {
            Target::Function(number - count)
        }
    }

    // Whether a holder has a target, if that has a number.
    fn has(&self, holder: u64, number: Option<u32>) -> bool
        ensures { result ≡ spec.has self.now holder number }
    {
        match number {
            Some(number) => self.rows.has(holder, number),
            None => false,
        }
    }

    /// Whether the value of the occurrence may be the target.
    pub fn value(&self, o: u32, target: Target) -> bool
        ensures { result ≡ spec.may_be self.now o target }
    {
        o < self.occurrences && self.has(u64::from(o), self.number(target))
    }

    // The holder of what a slot may hold, and of the parts of an lvalue.
    pub(crate) fn slot_holder(&self, slot: u32) -> u64
        ensures { result ≡ spec.slot_holder self.now slot }
    {
        u64::from(self.occurrences) + u64::from(slot)
    }

    pub(crate) fn place_holder(&self, o: u32) -> u64
        ensures { result ≡ spec.place_holder self.now o }
    {
        self.first_place() + u64::from(o)
    }

    // Where the parts of lvalues begin, after the targets of values and slots.
    fn first_place(&self) -> u64
        ensures first { result ≡ spec.first_place self.now }
        ensures small { result < 2 ^ 31 }
    {
        u64::from(self.occurrences) + u64::from(self.parts.count())
    }

    /// Whether the slot may hold the target.
    pub fn holds(&self, slot: u32, target: Target) -> bool
        ensures { result ≡ spec.may_hold self.now slot target }
    {
        slot < self.parts.count() && self.has(self.slot_holder(slot), self.number(target))
    }

    /// Whether the lvalue may have the part.
    pub fn has_part(&self, o: u32, part: u32) -> bool
        ensures { result ≡ spec.has_part self.now o part }
    {
        o < self.occurrences && self.has(self.place_holder(o), Some(part))
    }

    /// What a call calls, if the occurrence is one.
    pub fn designator(&self, site: u32) -> Option<u32>
        ensures { result ≡ spec.designator self.now site }
    {
        match self.sites.as_slice().get(site as usize).copied() {
            Some(designator) => designator,
            None => None,
        }
    }

    /// Whether the function has a body.
    pub fn is_defined(&self, g: u32) -> bool
        ensures { result ≡ spec.is_defined self.now g }
    {
        match self.defined.as_slice().get(g as usize).copied() {
            Some(is_defined) => is_defined,
            None => false,
        }
    }

    /// Whether the site may call the function: it has a body, and the value of what is called may be the function.
    pub fn may_call(&self, site: u32, g: u32) -> bool
        ensures { result ≡ spec.may_call self.now site g }
    {
        match self.designator(site) {
            Some(designator) => {
                self.is_defined(g) && self.value(designator, Target::Function(g))
            }
            None => false,
        }
    }

    /// How many facts there are.
    pub fn len(&self) -> u64
        ensures { result ≡ spec.len self.now }
    {
        self.rows.count_below(self.first_place())
    }
}
