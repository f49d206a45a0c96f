// The parts of an insertion on either side of the new regions: what is read is judged, and a table is written over
// regions that another refined, with its coefficients carried over.
#![tactic(auto)]

ghost use Rattle.std.specs.Prelude.{◌≡◌, ◌≤◌, length};
ghost use Rattle.surface.specs.Table.{slots, slice_of};
ghost use Rattle.surface.specs.Calls.{TableMeets, refinement_cause};
ghost use Rattle.rows.specs.Rows.{level_rows, Nested};
ghost use Rattle.boxes.specs.Boxes.{box_of};
ghost use Rattle.carry.specs.Carried.{CarriedFit};
ghost use Rattle.answers.specs.Answers.{value_answer};
ghost use Rattle.answers.specs.Refusals.{cause_of};
ghost use Rattle.refinement.specs.Refined.{over_rows, refined_outcome};

use answers::Refusal;

// The lowest cause of the table, the box and the level; where none applies the table's regions.
pub fn refinement_cause(
    w: usize,
    h: usize,
    tree: &[u8],
    numbers: &[i64],
    b: boxes::Box,
    level: usize,
    rows: &mut [u32; 96],
) -> Result<(), Refusal>
    ensures { (cause_of result ≡ refinement_cause w h tree.now numbers.now (box_of b) level)
        × (cause_of result ≡ 0 → rows.new ≡ level_rows tree.now) }
{
    table::cause::check(w, h, tree, numbers, rows)?;
    table::cause::box_cause(w, h, b)?;
    if level < 1 {
        return Err(Refusal::Level);
    }
    if 3 < level {
        return Err(Refusal::Level);
    }
    Ok(())
}

// Carries coefficients over from one table's regions to finer ones: carried values, and 0 at passive places.
fn carry_over(
    numbers: &[i64],
    rows: &[u32; 96],
    new: &[u32; 96],
    w: usize,
    h: usize,
    out: &mut [i64],
)
    requires { (w ≤ 8) × (h ≤ 8) × (length numbers.now ≡ slots w h) × (length out.old ≡ slots w h)
        × Nested rows.now × Nested new.now × CarriedFit w h rows.now numbers.now }
    ensures { out.new
        ≡ slice_of w h (over_rows w h rows.now new.now numbers.now) }
{
    carry::fill(numbers, rows, w, h, out);
    passive::clear(out, new, w, h);
}

// Writes a table over new regions, whose tree is given, if both outputs have their lengths.
pub fn write_refined(
    w: usize,
    h: usize,
    numbers: &[i64],
    rows: &[u32; 96],
    new: &[u32; 96],
    tree: &[u8],
    tree_out: &mut [u8],
    numbers_out: &mut [i64],
) -> Result<usize, Refusal>
    requires { (w ≤ 8) × (h ≤ 8) × (length numbers.now ≡ slots w h)
        × Nested rows.now × Nested new.now × CarriedFit w h rows.now numbers.now }
    ensures { TableMeets
        (refined_outcome w h rows.now new.now numbers.now tree.now
        tree_out.old numbers_out.old)
        (value_answer result) tree_out.new numbers_out.new }
{
    let n = tree.len();
    coefficients::outputs_cause(w, h, n, tree_out, numbers_out)?;
    fields::put(tree, tree_out, 0);
    carry_over(numbers, rows, new, w, h, numbers_out);
    Ok(n)
}
