// Rows that tests cover.
ghost use Rattle.std.specs.Prelude.{◌≡◌, ◌+◌, ◌<◌, ◌&&◌, ◌||◌, ℕ, false, length, not, Some, true};
ghost use Rattle.std.specs.List.Sorted.{IsStrictlyIncreasing};
ghost use Rattle.cc_score.specs.Firsts.{exercises};
ghost use Rattle.cc_tables.specs.TestTable as table;
ghost use Rattle.cc_reduce.specs.Rows.{at, count_to};

use cc_meaning::Scores;

/// The rows that a test's run exercises, by number.
pub fn rows_of(scores: &Scores, test: usize) -> &[u32]
    ensures { result.now ≡ table.rows_of scores.now test }
{
    match scores.exercised.as_slice().get(test) {
        Some(rows) => rows.as_slice(),
        None => &[],
    }
}

// Whether there is such a row, and it is not covered.
fn is_open(covered: &[bool], row: u32) -> bool
    ensures open { result ≡ true → (row < length covered.now) × (at covered.now row ≡ false) }
    ensures closed { result ≡ false → row < length covered.now → at covered.now row ≡ true }
{
    let row = row as usize;
    row < covered.len() && !covered[row]
}

/// Marks these rows as covered, and says how many were not.
pub fn cover(covered: &mut [bool], rows: &[u32]) -> usize
    ensures covered { (row : ℕ) → row < length covered.old → at covered.new row ≡ (at covered.old row || exercises (Some rows.now) row) }
    ensures added { result ≡ count_to (λ row. exercises (Some rows.now) row && not (at covered.old row)) (length covered.old) }
    ensures total { count_to (λ row. at covered.new row) (length covered.old) ≡ count_to (λ row. at covered.old row) (length covered.old) + result }
{
    let mut added = 0;
    for row in rows {
        if is_open(covered, *row) {
            covered[*row as usize] = true;
            added += 1;
        }
    }
    added
}

/// How many of these rows are not covered.
pub fn uncovered(covered: &[bool], rows: &[u32]) -> usize
    requires { IsStrictlyIncreasing rows.now }
    ensures { result ≡ count_to (λ row. exercises (Some rows.now) row && not (at covered.now row)) (length covered.now) }
{
    let mut count = 0;
    for row in rows {
        if is_open(covered, *row) {
            count += 1;
        }
    }
    count
}
