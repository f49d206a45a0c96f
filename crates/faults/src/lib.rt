// Faults of a row of coefficients, of a level's and of a table's: an active one past its limit, a passive one that is
// not 0.
#![tactic(auto)]

ghost use Rattle.std.specs.Prelude.{◌≡◌, true, ℕ, ◌*◌, ◌≤◌, ◌<◌, pos, nat_abs, length, get_or};
ghost use Rattle.surface.specs.Sheet.{functions};
ghost use Rattle.surface.specs.Support.{active};
ghost use Rattle.surface.specs.Table.{slots};
ghost use Rattle.rows.specs.Rows.{levels_of, Nested};
ghost use Rattle.activity.specs.Marks.{marked};
ghost use Rattle.faults.specs.Faults.{RowFaults, LevelFaults, TableFaults};

// Whether some active coefficient is past its limit, and whether some passive one is not 0.
#[derive(Clone, Copy, Default)]
pub struct Faults {
    pub over: bool,
    pub stray: bool,
}

// The faults of one row of a level, whose active functions are marked; a cell's side is e eighths.
fn of_marked(row: &[i64], marks: activity::Marks, e: usize, limit: i64) -> Faults
    requires { (length row.now * e ≤ 88) × (1 ≤ e) × (e ≤ 8)
        × ((m : ℕ) × (limit ≡ pos m) × (m < 9000000000)) }
    ensures { (m : ℕ) → limit ≡ pos m
        → RowFaults m (marked e marks) row.now result.over result.stray }
{
    let mut over = false;
    let mut stray = false;
    for (a, &c) in row.iter().enumerate() {
        if c == 0 {
            continue;
        }
        if !activity::is_marked(marks, a, e) {
            stray = true;
            continue;
        }
        // A branch, since `over |=` costs a row of numbers that are not 0 a tenth more instructions.
        if coefficients::past(c, limit) {
            over = true;
        }
    }
    Faults { over, stray }
}

// Whether all numbers of a row are 0.
fn only_zeros(row: &[i64]) -> bool
    ensures { result ≡ true → ((a : ℕ) → a < length row.now
        → nat_abs (get_or row.now a (pos 0)) ≡ 0) }
{
    row.iter().all(|c| *c == 0)
}

// The faults of row b of a level. A row of zeros has none, whichever of its functions are active.
fn of_row(
    row: &[i64],
    rows: &[u32; 96],
    w: usize,
    h: usize,
    level: usize,
    b: usize,
    limit: i64,
) -> Faults
    requires { (w ≤ 8) × (h ≤ 8) × (level ≤ 3) × (b < functions h level) × Nested rows.now
        × (length row.now ≡ functions w level) × ((m : ℕ) × (limit ≡ pos m) × (m < 9000000000)) }
    ensures { (m : ℕ) → limit ≡ pos m
        → RowFaults m (λ a. active w h (levels_of rows.now) level a b) row.now result.over
        result.stray }
{
    if only_zeros(row) {
        return Faults::default();
    }
    let marks = activity::active_row(rows, w, h, level, b);
    of_marked(row, marks, activity::eighths(level), limit)
}

// The faults of a level, row by row.
fn of_level(numbers: &[i64], rows: &[u32; 96], w: usize, h: usize, level: usize) -> Faults
    requires { (w ≤ 8) × (h ≤ 8) × (level ≤ 3) × (length numbers.now ≡ slots w h) × Nested rows.now }
    ensures { LevelFaults w h level rows.now numbers.now result.over result.stray }
{
    let mut from = coefficients::start(w, h, level);
    let n = coefficients::functions(w, level);
    let m = coefficients::functions(h, level);
    let bound = coefficients::limit(level);
    let mut faults = Faults::default();
    for b in 0..m {
        let to = from + n;
        let found = of_row(&numbers[from..to], rows, w, h, level, b, bound);
        faults.over |= found.over;
        faults.stray |= found.stray;
        from = to;
    }
    faults
}

// The faults of all levels.
pub fn of_table(numbers: &[i64], rows: &[u32; 96], w: usize, h: usize) -> Faults
    requires { (w ≤ 8) × (h ≤ 8) × (length numbers.now ≡ slots w h) × Nested rows.now }
    ensures { TableFaults w h rows.now numbers.now result.over result.stray }
{
    let mut faults = Faults::default();
    for level in 0..4 {
        let found = of_level(numbers, rows, w, h, level);
        faults.over |= found.over;
        faults.stray |= found.stray;
    }
    faults
}
