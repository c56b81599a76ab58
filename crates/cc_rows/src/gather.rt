// Rows as they are found.
ghost use Rattle.std.specs.Prelude.{◌≡◌, ◌↔◌, ◌⊎◌, true, Contains, OnOk, Err};
ghost use Rattle.cc_rows.specs.Limits.{HasMore};
ghost use Rattle.cc_rows.specs.declared.stop.Stop.TheVariants.{TooMany};

use crate::order::arrange;
use crate::stop::Stop;

// How many rows may stand in memory before those that stand there several times are dropped.
fn room_for(most: usize) -> usize {
    most.saturating_add(most).saturating_add(1024)
}

// Makes room: where there are many rows, drops those of them that stand there several times, if they are not too many then.
fn make_room<T: Ord + Drop>(rows: &mut Vec<T>, most: usize) -> Result<(), Stop>
    requires exact { (x y : T) → T.eq x y ≡ true → x ≡ y }
    ensures same { OnOk result
        ((x : T) → Contains rows.new.items x ↔ Contains rows.old.items x) }
    ensures many { result ≡ Err TooMany → HasMore T.cmp (Contains rows.old.items) most }
{
    if rows.len() < room_for(most) {
        return Ok(());
    }
    arrange(rows);
    if rows.len() > most {
        return Err(Stop::TooMany);
    }
    Ok(())
}

/// Adds a row to those that were found, in any order and some of them several times, where so many different ones are not
/// too many. Not all that are too many are found here: [`crate::limited`] tells.
pub fn add_row<T: Ord + Drop>(rows: &mut Vec<T>, row: T, most: usize) -> Result<(), Stop>
    requires exact { (x y : T) → T.eq x y ≡ true → x ≡ y }
    ensures added { OnOk result ((x : T)
        → Contains rows.new.items x ↔ (Contains rows.old.items x ⊎ (row ≡ x))) }
    ensures many { result ≡ Err TooMany → HasMore T.cmp (Contains rows.old.items) most }
{
    make_room(rows, most)?;
    rows.push(row)?;
    Ok(())
}
