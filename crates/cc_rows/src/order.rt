// Rows in ascending order, each once.
ghost use Rattle.std.specs.Prelude.{◌≡◌, ◌↔◌, ◌≤◌, ◌<◌, true, Contains, IfOk, Err, length};
ghost use Rattle.std.specs.List.Sorted.{IsStrictlySortedBy};
ghost use Rattle.cc_rows.specs.Limits.{HasMore};
ghost use Rattle.cc_rows.specs.declared.stop.Stop.TheVariants.{TooMany};

use crate::stop::Stop;

/// Puts rows in ascending order, each once.
pub fn arrange<T: Ord + Drop>(rows: &mut Vec<T>)
    requires exact { (x y : T) → T.eq x y ≡ true → x ≡ y }
    ensures ascending { IsStrictlySortedBy T.cmp rows.new.items }
    ensures same { (x : T) → Contains rows.new.items x ↔ Contains rows.old.items x }
{
    rows.sort_unstable();
    rows.dedup();
}

/// These rows in ascending order, each once, where they are at most so many.
pub fn limited<T: Ord + Drop>(rows: Vec<T>, most: usize) -> Result<Vec<T>, Stop>
    requires exact { (x y : T) → T.eq x y ≡ true → x ≡ y }
    ensures ascending { IfOk result (λ out. IsStrictlySortedBy T.cmp out.items) }
    ensures same { IfOk result (λ out. (x : T) → Contains out.items x ↔ Contains rows.items x) }
    ensures few { IfOk result (λ out. length out.items ≤ most) }
    ensures many { result ≡ Err TooMany → HasMore T.cmp (Contains rows.items) most }
{
    let mut out = rows;
    arrange(&mut out);
    if out.len() > most {
        return Err(Stop::TooMany);
    }
    Ok(out)
}
