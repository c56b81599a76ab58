// The activations that are entered and not left.
ghost use Rattle.std.specs.Prelude.{◌≡◌, ◌∷◌, OnOk, OnErr, reverse};
ghost use Rattle.cc_record_laws.specs.Kept.{without};
ghost use Rattle.cc_record_laws.specs.Watching.{Distinct};
ghost use Rattle.cc_record_tables.specs.Opened as spec;

use cc_base::Memory;

/// Enters an activation: it stands last.
pub fn begin(acts: &mut Vec<u64>, act: u64) -> Result<(), Memory>
    ensures ok { OnOk result (reverse acts.new.items ≡ act ∷ reverse acts.old.items) }
    ensures err { OnErr result (acts.new.items ≡ acts.old.items) }
{
    acts.push(act)?;
    Ok(())
}

// The place of an activation among these.
fn place(acts: &[u64], act: u64) -> Option<usize>
    ensures { result ≡ spec.place_from 0 acts.now act }
{
    for (i, one) in acts.iter().enumerate() {
        if *one == act {
            return Some(i);
        }
    }
    None
}

// Takes an activation out, wherever it stands.
#[tactic(auto, using(crate::proofs::OpenFacts::removed_first, crate::proofs::OpenFacts::none_left))]
fn remove(acts: &mut Vec<u64>, act: u64)
    ensures { acts.new.items ≡ without act acts.old.items }
{
    while let Some(i) = place(acts, act) {
        acts.remove(i);
    }
}

// Whether the activation stands last.
fn is_last(acts: &[u64], act: u64) -> bool
    ensures { result ≡ spec.is_last acts.now act }
{
    match acts.last() {
        Some(last) => *last == act,
        None => false,
    }
}

/// Leaves an activation that was entered once.
#[tactic(auto, using(crate::proofs::OpenFacts::closed_last, crate::proofs::OpenFacts::without_reverse))]
pub fn finish(acts: &mut Vec<u64>, act: u64)
    ensures { Distinct (reverse acts.old.items) → reverse acts.new.items ≡ without act (reverse acts.old.items) }
{
    if is_last(acts, act) {
        acts.pop();
    } else {
        remove(acts, act);
    }
}
