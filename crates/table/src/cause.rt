// The cause of the lowest number among 1 to 5 that applies to a table.
ghost use Rattle.std.specs.Prelude.{◌≡◌, ◌≤◌};
ghost use Rattle.surface.specs.Table.{region_cause, table_cause};
ghost use Rattle.surface.specs.Calls.{box_cause};
ghost use Rattle.boxes.specs.Boxes.{box_of};
ghost use Rattle.rows.specs.Rows.{level_rows};
ghost use Rattle.answers.specs.Refusals.{cause_of};

use answers::Refusal;

// Causes 1 and 2: the sides and the tree, with its regions where none applies.
pub fn region_cause(w: usize, h: usize, t: &[u8], rows: &mut [u32; 96]) -> Result<(), Refusal>
    ensures { (cause_of result ≡ region_cause w h t.now)
        × (cause_of result ≡ 0 → rows.new ≡ level_rows t.now) }
{
    if !coefficients::good_sides(w, h) {
        return Err(Refusal::Side);
    }
    if quadtree::walk::regions(t, w, h, rows) {
        Ok(())
    } else {
        Err(Refusal::Tree)
    }
}

// Cause 7: a box with no area, or past the sheet.
pub fn box_cause(w: usize, h: usize, b: boxes::Box) -> Result<(), Refusal>
    requires { (w ≤ 8) × (h ≤ 8) }
    ensures { cause_of result ≡ box_cause w h (box_of b) }
{
    if b.u1 <= b.u0 {
        return Err(Refusal::Box);
    }
    if b.v1 <= b.v0 {
        return Err(Refusal::Box);
    }
    if 4 * w < b.u1 {
        return Err(Refusal::Box);
    }
    if 4 * h < b.v1 {
        return Err(Refusal::Box);
    }
    Ok(())
}

// Causes 1 to 5, with the regions where none applies.
pub fn check(
    w: usize,
    h: usize,
    t: &[u8],
    numbers: &[i64],
    rows: &mut [u32; 96],
) -> Result<(), Refusal>
    ensures { (cause_of result ≡ table_cause w h t.now numbers.now)
        × (cause_of result ≡ 0 → rows.new ≡ level_rows t.now) }
{
    region_cause(w, h, t, rows)?;
    let slots = coefficients::start(w, h, 4);
    if numbers.len() != slots {
        return Err(Refusal::NumbersLength);
    }
    let f = faults::of_table(numbers, rows, w, h);
    if f.over {
        return Err(Refusal::CoefficientLimit);
    }
    if f.stray {
        return Err(Refusal::PassiveNotZero);
    }
    Ok(())
}

// Causes 1 to 5.
pub fn table_cause(w: usize, h: usize, t: &[u8], numbers: &[i64]) -> Result<(), Refusal>
    ensures { cause_of result ≡ table_cause w h t.now numbers.now }
{
    let mut rows = [0u32; 96];
    check(w, h, t, numbers, &mut rows)
}
