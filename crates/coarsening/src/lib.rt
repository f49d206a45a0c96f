// The numbers of a level of a grid from those of the level after it: around cells that have a square of that level or
// a coarser one in them, a step of subdivision is undone.
#![tactic(auto)]

mod find;
mod sixteen;

ghost use Rattle.std.specs.Prelude.{◌≡◌, true, false, ℕ, ◌+◌, ◌≤◌, ◌<◌, ℤ, pos, nat_abs, length, replicate};
ghost use Rattle.surface.specs.Sheet.{functions, quarters};
ghost use Rattle.surface.specs.Table.{places};
ghost use Rattle.rows.specs.Rows.{levels_of};
ghost use Rattle.coarsening.specs.Coarser.{Stand, finer, FinerFit, Step, Undone, Coarser, Past, Backed};
ghost use Rattle.coarsening.specs.Coarser.{cell_at, Whole};

// Undoes the step at quarter square (q, r); false, with nothing put, where that passes the limit of the level.
fn back(
    coarse: &mut [i64],
    body: &[u8],
    fine: &[i64],
    w: usize,
    h: usize,
    level: usize,
    q: usize,
    r: usize,
) -> bool
    requires { (w ≤ 8) × (h ≤ 8) × (level ≤ 2) × (q < quarters w) × (r < quarters h)
        × (length coarse.old ≡ places w h level) × Stand level body.now fine.now (places w h (level + 1))
        × FinerFit w h level body.now fine.now }
    ensures { (result ≡ true → Undone w level q r
        (finer level body.now fine.now (functions w (level + 1)))
        coarse.old coarse.new)
        × (result ≡ false → (C : ℕ → ℕ → ℤ)
        → Step level (finer level body.now fine.now (functions w (level + 1))) C q r
        → Past w h level C) }
{
    let x = find::cell_at(level + 1, q);
    let y = find::cell_at(level + 1, r);
    let n = coefficients::functions(w, level + 1);
    let finer = sixteen::around(body, fine, level, n, x, y);
    let patch = parents::of_patch(finer, x % 2, y % 2);
    if !sixteen::within(patch, coefficients::limit(level)) {
        return false;
    }
    let m = coefficients::functions(w, level);
    sixteen::put_patch(
        coarse,
        m,
        find::cell_at(level, q),
        find::cell_at(level, r),
        patch,
    );
    true
}

// Undoes the steps of row y, where those of the rows before are undone; false where a number passes the limit.
// A square waits until the next one is found, and is left out where the next one's cell begins among the functions
// done or right after them: each function around its own cell is then done or around the next one's.
fn back_row(
    coarse: &mut [i64],
    body: &[u8],
    fine: &[i64],
    rows: &[u32; 96],
    w: usize,
    h: usize,
    level: usize,
    y: usize,
) -> bool
    requires { (w ≤ 8) × (h ≤ 8) × (level ≤ 2) × (y + 3 < functions h level)
        × Backed w h (levels_of rows.now) level (finer level body.now fine.now (functions w (level + 1)))
        (λ q r. cell_at level r < y) coarse.old
        × Stand level body.now fine.now (places w h (level + 1)) × FinerFit w h level body.now fine.now }
    ensures { (result ≡ true → Backed w h (levels_of rows.now) level
        (finer level body.now fine.now (functions w (level + 1)))
        (λ q r. cell_at level r < y + 1) coarse.new)
        × (result ≡ false → (C : ℕ → ℕ → ℤ) → Coarser w h (levels_of rows.now) level
        (finer level body.now fine.now (functions w (level + 1))) C → Past w h level C) }
{
    let columns = coefficients::functions(w, level) - 3;
    let mut waiting: Option<find::Square> = None;
    let mut done = 0;
    for x in 0..columns {
        let Some(square) = find::find(rows, level, x, y) else {
            continue;
        };
        if let Some(before) = waiting
            && x > done
        {
            if !back(coarse, body, fine, w, h, level, before.q, before.r) {
                return false;
            }
            done = find::cell_at(level, before.q) + 4;
        }
        waiting = Some(square);
    }
    match waiting {
        Some(last) => back(coarse, body, fine, w, h, level, last.q, last.r),
        None => true,
    }
}

// Finds the numbers of a level, which are 0 before; false where one passes the limit of the level, so that no table has
// the grid's readings.
pub fn back_level(
    coarse: &mut [i64],
    body: &[u8],
    fine: &[i64],
    rows: &[u32; 96],
    w: usize,
    h: usize,
    level: usize,
) -> bool
    requires { (0 < w) × (w ≤ 8) × (0 < h) × (h ≤ 8) × (level ≤ 2)
        × (coarse.old ≡ replicate (places w h level) (pos 0))
        × Stand level body.now fine.now (places w h (level + 1)) × FinerFit w h level body.now fine.now }
    ensures { (result ≡ true → Backed w h (levels_of rows.now) level
        (finer level body.now fine.now (functions w (level + 1))) Whole coarse.new)
        × (result ≡ false → (C : ℕ → ℕ → ℤ) → Coarser w h (levels_of rows.now) level
        (finer level body.now fine.now (functions w (level + 1))) C → Past w h level C) }
{
    let high = coefficients::functions(h, level) - 3;
    for y in 0..high {
        if !back_row(coarse, body, fine, rows, w, h, level, y) {
            return false;
        }
    }
    true
}
