// The active functions of a level, counted.
ghost use Rattle.std.specs.Prelude.{◌≡◌, ℕ, ◌*◌, ◌≤◌};
ghost use Rattle.finite.specs.Range.{count};
ghost use Rattle.surface.specs.Support.{active_count};
ghost use Rattle.rows.specs.Rows.{levels_of, Nested};
ghost use Rattle.activity.specs.Marks.{marked, spread, Front};
ghost use Rattle.activity.specs.Counts.{Counted};

// A word with n places set, each e after the one before, from the lowest on.
fn places(n: usize, e: usize) -> u64
    requires { (1 ≤ e) × (e ≤ 8) × (n * e ≤ 48) }
    ensures { result ≡ spread e n }
{
    ((1u64 << (n * e)) - 1) / ((1u64 << e) - 1)
}

// The places of the first n functions of a row, where a cell's side is e eighths.
fn front(n: usize, e: usize) -> super::Marks
    requires { (n ≤ 67) × (1 ≤ e) × (e ≤ 8) × (n * e ≤ 88) }
    ensures { Front e n result }
{
    super::Marks {
        even: places((n + 1) / 2, e),
        odd: places(n / 2, e),
    }
}

// How many functions of a row are marked, of those at the places of the first n.
fn count_row(marks: super::Marks, first: super::Marks) -> usize
    ensures { (n e : ℕ) → 1 ≤ e → Front e n first → result ≡ count n (marked e marks) }
{
    let even = (marks.even & first.even).count_ones();
    let odd = (marks.odd & first.odd).count_ones();
    (even + odd) as usize
}

// How many functions of a level are active.
pub fn active_count(rows: &[u32; 96], w: usize, h: usize, level: usize) -> usize
    requires { (w ≤ 8) × (h ≤ 8) × (level ≤ 3) × Nested rows.now }
    ensures { (result ≡ active_count w h (levels_of rows.now) level) × (result ≤ 4489) }
{
    let e = super::eighths(level);
    let n = coefficients::functions(w, level);
    let m = coefficients::functions(h, level);
    let first = front(n, e);
    let mut found: usize = 0;
    for b in 0..m {
        found += count_row(super::active_row(rows, w, h, level, b), first);
    }
    found
}

// How many functions of each level are active.
pub fn active_counts(rows: &[u32; 96], w: usize, h: usize) -> [usize; 4]
    requires { (w ≤ 8) × (h ≤ 8) × Nested rows.now }
    ensures { Counted w h (levels_of rows.now) result }
{
    [
        active_count(rows, w, h, 0),
        active_count(rows, w, h, 1),
        active_count(rows, w, h, 2),
        active_count(rows, w, h, 3),
    ]
}
