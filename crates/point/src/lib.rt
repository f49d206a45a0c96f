// The exact reading and the exact slopes of an acceptable table at a point, from its regions as rows of bits and its
// coefficients: a patch of sixteen, taken at level 0 and subdivided up to the level of the quarter square that holds
// the point.
#![tactic(auto)]

pub mod cell;
pub mod own;
pub mod step;
pub mod stop;

ghost use Rattle.std.specs.Prelude.{◌≡◌, List, ℕ, ◌*◌, ◌≤◌};
ghost use Rattle.surface.specs.Table.{Acceptable, table_reading};
ghost use Rattle.rows.specs.Rows.{level_rows};
ghost use Rattle.point.specs.OfTable.{OfTable, ReadAs};

// The numerator over D at (u, v), and where they are asked for both slopes, over D/16 in watts per eighth of a cell;
// else 0 in their place. A flag and no type parameter, so that the steps of a reading are compiled once.
pub fn read_at(
    numbers: &[i64],
    rows: &[u32; 96],
    w: usize,
    h: usize,
    u: usize,
    v: usize,
    sloped: bool,
) -> evaluation::Slopes
    requires { (u ≤ 128 * w) × (v ≤ 128 * h) × OfTable w h rows.now numbers.now }
    ensures { (t : List ℕ) → rows.now ≡ level_rows t → Acceptable w h t numbers.now
        → ReadAs w h t numbers.now u v sloped result }
{
    let level = stop::level_of(rows, w, h, u, v);
    let patch = stop::patch_of(numbers, rows, w, h, u, v, level);
    let place = cell::place_of(w, h, level, u, v);
    if sloped {
        return evaluation::evaluate_slopes(patch, place.steps, place.r, place.s);
    }
    evaluation::Slopes {
        watts: evaluation::evaluate(patch, place.steps, place.r, place.s),
        along_u: 0,
        along_v: 0,
    }
}

// The numerator alone.
pub fn reading_at(numbers: &[i64], rows: &[u32; 96], w: usize, h: usize, u: usize, v: usize) -> i64
    requires { (u ≤ 128 * w) × (v ≤ 128 * h) × OfTable w h rows.now numbers.now }
    ensures { (t : List ℕ) → rows.now ≡ level_rows t → Acceptable w h t numbers.now
        → result ≡ table_reading w h t numbers.now u v }
{
    let read = read_at(numbers, rows, w, h, u, v, false);
    read.watts
}
