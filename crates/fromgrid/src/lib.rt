// The call that converts a grid to the table over a tree that has its readings: the numbers of levels 2, 1 and 0 are
// found, each from the finer ones, and held against them; only then the slice is written.
#![tactic(auto)]

mod judge;
mod numbers;

ghost use Rattle.std.specs.Prelude.{◌≡◌, true, false, ◌+◌, ◌≤◌, ◌<◌, pos, length, replicate};
ghost use Rattle.surface.specs.Sheet.{functions};
ghost use Rattle.surface.specs.Table.{places};
ghost use Rattle.answers.specs.Answers.{sheet_answer};
ghost use Rattle.demands.specs.GridPromises.{ReadGridPromise};
ghost use Rattle.rows.specs.Rows.{levels_of, Nested};
ghost use Rattle.carry.specs.Carried.{Within};
ghost use Rattle.coarsening.specs.Coarser.{Stand, finer};
ghost use Rattle.fromgrid.specs.Converts.{Good, in_rows, RowTold, Agrees};
ghost use Rattle.fromgrid.specs.Converts.{OfBody, Levels, NotCarried, AllAgree, FoundAndAgree, Told};

use answers::{Refusal, Sheet};

// Whether row b of the level after `level` is what the numbers of `level` give, at functions whose cut support does not
// lie in the region of their level.
fn row_agrees(
    coarse: &[i64],
    body: &[u8],
    fine: &[i64],
    rows: &[u32; 96],
    w: usize,
    h: usize,
    level: usize,
    b: usize,
) -> bool
    requires { (w ≤ 8) × (h ≤ 8) × (level ≤ 2) × (length coarse.now ≡ places w h level)
        × Within 131072000 coarse.now × Stand level body.now fine.now (places w h (level + 1))
        × Nested rows.now × (b < functions h (level + 1)) }
    ensures { RowTold w h (levels_of rows.now) level
        (in_rows (functions w level) coarse.now)
        (finer level body.now fine.now (functions w (level + 1))) b result }
{
    let n = coefficients::functions(w, level + 1);
    let mut own = [0; 67];
    let mut row = [0; 67];
    let mut sums = [0; 35];
    numbers::read_row(&mut own[..n], body, fine, level, b * n);
    carry::next_row(
        &mut row[..n],
        &own[..n],
        coarse,
        &mut sums,
        rows,
        w,
        h,
        level,
        b,
        0,
    );
    numbers::same(&row[..n], &own[..n])
}

// Whether each row of the level after `level` is.
fn agrees(
    coarse: &[i64],
    body: &[u8],
    fine: &[i64],
    rows: &[u32; 96],
    w: usize,
    h: usize,
    level: usize,
) -> bool
    requires { (w ≤ 8) × (h ≤ 8) × (level ≤ 2) × (length coarse.now ≡ places w h level)
        × Within 131072000 coarse.now × Stand level body.now fine.now (places w h (level + 1))
        × Nested rows.now }
    ensures { (result ≡ true → Agrees w h (levels_of rows.now) level
        (in_rows (functions w level) coarse.now)
        (finer level body.now fine.now (functions w (level + 1))))
        × (result ≡ false → ¬ Agrees w h (levels_of rows.now) level
        (in_rows (functions w level) coarse.now)
        (finer level body.now fine.now (functions w (level + 1)))) }
{
    let m = coefficients::functions(h, level + 1);
    for b in 0..m {
        if !row_agrees(coarse, body, fine, rows, w, h, level, b) {
            return false;
        }
    }
    true
}

// Finds the numbers of levels 2, 1 and 0, which are 0 before; false where one passes its limit.
fn find_levels(
    level0: &mut [i64],
    level1: &mut [i64],
    level2: &mut [i64],
    body: &[u8],
    rows: &[u32; 96],
    w: usize,
    h: usize,
) -> bool
    requires { OfBody w h body.now × (level0.old ≡ replicate (places w h 0) (pos 0))
        × (level1.old ≡ replicate (places w h 1) (pos 0)) × (level2.old ≡ replicate (places w h 2) (pos 0)) }
    ensures { (result ≡ true → Levels w h (levels_of rows.now) body.now level0.new
        level1.new level2.new)
        × (result ≡ false → NotCarried w h (levels_of rows.now) body.now) }
{
    coarsening::back_level(level2, body, level1, rows, w, h, 2)
        && coarsening::back_level(level1, body, level2, rows, w, h, 1)
        && coarsening::back_level(level0, body, level1, rows, w, h, 0)
}

// Whether the numbers of each level agree with those of the level before it.
fn levels_agree(
    level0: &[i64],
    level1: &[i64],
    level2: &[i64],
    body: &[u8],
    rows: &[u32; 96],
    w: usize,
    h: usize,
) -> bool
    requires { OfBody w h body.now × Nested rows.now
        × Levels w h (levels_of rows.now) body.now level0.now level1.now level2.now }
    ensures { (result ≡ true → AllAgree w h (levels_of rows.now) body.now
        level0.now level1.now level2.now)
        × (result ≡ false → ¬ AllAgree w h (levels_of rows.now) body.now
        level0.now level1.now level2.now) }
{
    agrees(level0, body, level1, rows, w, h, 0)
        && agrees(level1, body, level2, rows, w, h, 1)
        && agrees(level2, body, level1, rows, w, h, 2)
}

// Finds the numbers of levels 0 to 2, which are 0 before; false where no table carries the grid's.
fn convert(
    level0: &mut [i64],
    level1: &mut [i64],
    level2: &mut [i64],
    body: &[u8],
    rows: &[u32; 96],
    w: usize,
    h: usize,
) -> bool
    requires { OfBody w h body.now × Nested rows.now × (level0.old ≡ replicate (places w h 0) (pos 0))
        × (level1.old ≡ replicate (places w h 1) (pos 0)) × (level2.old ≡ replicate (places w h 2) (pos 0)) }
    ensures { (result ≡ true → FoundAndAgree w h (levels_of rows.now) body.now
        level0.new level1.new level2.new)
        × (result ≡ false → NotCarried w h (levels_of rows.now) body.now) }
{
    find_levels(level0, level1, level2, body, rows, w, h)
        && levels_agree(level0, level1, level2, body, rows, w, h)
}

// Converts a grid's body over regions, with room for the numbers of levels 0 to 2, all 0.
fn over_regions(
    body: &[u8],
    rows: &[u32; 96],
    w: usize,
    h: usize,
    level0: &mut [i64],
    level1: &mut [i64],
    level2: &mut [i64],
    numbers_out: &mut [i64],
) -> Result<Sheet, Refusal>
    requires { OfBody w h body.now × Nested rows.now × (level0.old ≡ replicate (places w h 0) (pos 0))
        × (level1.old ≡ replicate (places w h 1) (pos 0)) × (level2.old ≡ replicate (places w h 2) (pos 0)) }
    ensures { Told w h (levels_of rows.now) body.now numbers_out.old
        (sheet_answer result) numbers_out.new }
{
    if !convert(level0, level1, level2, body, rows, w, h) {
        return Err(Refusal::NoTable);
    }
    if numbers_out.len() != coefficients::start(w, h, 4) {
        return Err(Refusal::OutputLength);
    }
    numbers::write_table(numbers_out, body, level0, level1, level2, rows, w, h);
    Ok(Sheet { w, h })
}

// Converts a grid that was judged, of a sheet with these sides, over a tree.
fn over_tree(
    grid: &[u8],
    w: usize,
    h: usize,
    tree: &[u8],
    numbers_out: &mut [i64],
) -> Result<Sheet, Refusal>
    requires { Good grid.now w h }
    ensures { ReadGridPromise grid.now tree.now numbers_out.old result
        numbers_out.new }
{
    let mut rows = [0u32; 96];
    if !quadtree::walk::regions(tree, w, h, &mut rows) {
        return Err(Refusal::Tree);
    }
    let n0 = coefficients::places(w, h, 0);
    let n1 = coefficients::places(w, h, 1);
    let n2 = coefficients::places(w, h, 2);
    let mut level0 = [0; 121];
    let mut level1 = [0; 361];
    let mut level2 = [0; 1225];
    over_regions(
        &grid[judge::NUMBERS..],
        &rows,
        w,
        h,
        &mut level0[..n0],
        &mut level1[..n1],
        &mut level2[..n2],
        numbers_out,
    )
}

// Converts a grid to the table over a tree that has its readings, writes its coefficients and returns the sides of the
// sheet; or refuses and writes nothing.
pub fn read_grid(grid: &[u8], tree: &[u8], numbers_out: &mut [i64]) -> Result<Sheet, Refusal>
    ensures { ReadGridPromise grid.now tree.now numbers_out.old result
        numbers_out.new }
{
    let sides = judge::judge(grid)?;
    over_tree(grid, sides.w, sides.h, tree, numbers_out)
}
