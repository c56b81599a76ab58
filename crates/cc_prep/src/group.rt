// Groups: what stands between an `ifdef` or `ifndef` line and its `endif` line (C17 6.10.1).
ghost use Rattle.std.specs.Prelude.{◌≡◌, ◌++◌, OnOk, option_to_list};
ghost use Rattle.cc_prep.specs.Groups as spec;
ghost use Rattle.cc_prep.specs.Groups.{innermost};

use cc_base::Memory;

/// A group that is open.
#[derive(Clone, Copy)]
pub struct Group {
    /// How many bytes of the file stand before the `#` that opened it.
    pub hash: usize,
    /// Whether it stands in text that is read.
    pub is_in_active: bool,
    /// Whether its text is read.
    pub is_active: bool,
    /// Whether its `else` line is behind.
    pub has_else: bool,
}

// The innermost group, which is the last.
fn innermost(groups: &[Group]) -> Option<Group>
    ensures { result ≡ innermost groups.now }
{
    if groups.is_empty() {
        None
    } else {
        Some(groups[groups.len() - 1])
    }
}

/// Whether text is read inside these groups.
pub fn is_active(groups: &[Group]) -> bool
    ensures { result ≡ spec.is_active groups.now }
{
    match innermost(groups) {
        Some(group) => group.is_active,
        None => true,
    }
}

/// Opens a group.
pub fn open_group(groups: &mut Vec<Group>, hash: usize, condition: bool) -> Result<(), Memory>
    ensures { OnOk result (groups.new.items ≡ spec.opened groups.old.items hash condition) }
{
    let is_in_active = is_active(groups);
    groups.push(Group {
        hash,
        is_in_active,
        is_active: is_in_active && condition,
        has_else: false,
    })?;
    Ok(())
}

/// Takes an `else` line: whether there may be one.
pub fn turn_group(groups: &mut Vec<Group>) -> bool
    ensures may { result ≡ spec.may_turn (innermost groups.old.items) }
    ensures turned { groups.new.items ≡ spec.turned_in groups.old.items (innermost groups.old.items) }
{
    let Some(group) = innermost(groups) else {
        return false;
    };
    if group.has_else {
        return false;
    }
    let last = groups.len() - 1;
    groups[last] = Group {
        hash: group.hash,
        is_in_active: group.is_in_active,
        is_active: group.is_in_active && !group.is_active,
        has_else: true,
    };
    true
}

/// Takes an `endif` line: the innermost group, if there is one, which is then closed.
pub fn close_group(groups: &mut Vec<Group>) -> Option<Group>
    ensures { groups.old.items ≡ groups.new.items ++ option_to_list result }
{
    groups.pop()
}

/// Whether an `elif` line would belong to a group that stands in text that is read.
pub fn has_own_elif(groups: &[Group]) -> bool
    ensures { result ≡ spec.own_elif (innermost groups.now) }
{
    match innermost(groups) {
        Some(group) => group.is_in_active,
        None => false,
    }
}
