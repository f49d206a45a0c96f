// The enquiry and the commit: what inserting a box would give, and the insertion, which reads one table and writes
// another.
#![tactic(auto)]

ghost use Rattle.std.specs.Prelude.{◌≡◌, List, ℕ, ℤ, length};
ghost use Rattle.surface.specs.Calls.{refinement_cause};
ghost use Rattle.surface.specs.Enquiry.{slip_of};
ghost use Rattle.rows.specs.Rows.{level_rows};
ghost use Rattle.boxes.specs.Boxes.{box_of};
ghost use Rattle.regions.specs.Regions.{Inserted};
ghost use Rattle.demands.specs.Promises.{EnquirePromise, CommitPromise};
ghost use Rattle.answers.specs.Answers.{slip_told};
ghost use Rattle.insertion.specs.Inserting.{Insertable};

use answers::{Refusal, Slip};

// Inserts a box that may be inserted into the regions of a table, writes the tree of the new ones at the front of a
// buffer, and returns the slip.
fn insert(
    w: usize,
    h: usize,
    rows: &mut [u32; 96],
    b: boxes::Box,
    level: usize,
    built: &mut [u8; 1365],
) -> Slip
    requires { Insertable w h (box_of b) level rows.old × (length built.old ≡ 1365) }
    ensures { ((t : List ℕ) (cs : List ℤ) → rows.old ≡ level_rows t
        → 0 ≡ refinement_cause w h t cs (box_of b) level → slip_told result ≡ slip_of w h t (box_of b) level)
        × Inserted (box_of b) level rows.old rows.new result.length built.new }
{
    let n = regions::insert(rows, b, level, built);
    slip::slip_of(w, h, rows, &built[0..n], b, level)
}

// What the insertion of the box with corners (u0, v0) and (u1, v1) at a level would give, as a slip.
pub fn enquire(
    w: usize,
    h: usize,
    tree: &[u8],
    numbers: &[i64],
    u0: usize,
    v0: usize,
    u1: usize,
    v1: usize,
    level: usize,
) -> Result<Slip, Refusal>
    ensures { EnquirePromise w h (record { tree = tree.now; numbers = numbers.now })
        (record { box = record { u0 = u0; v0 = v0; u1 = u1; v1 = v1 }; level = level }) result }
{
    let mut rows = [0u32; 96];
    let b = boxes::Box { u0, v0, u1, v1 };
    refinement::refinement_cause(w, h, tree, numbers, b, level, &mut rows)?;
    let mut built = [0u8; 1365];
    let slip = insert(w, h, &mut rows, b, level, &mut built);
    Ok(slip)
}

// Inserts the slip's box if the slip is the one that the table gives: each quarter square in the box gets the greater
// of its old level and the slip's, and the coefficients are carried over; returns the new tree's length.
pub fn commit(
    w: usize,
    h: usize,
    tree: &[u8],
    numbers: &[i64],
    slip: Slip,
    tree_out: &mut [u8],
    numbers_out: &mut [i64],
) -> Result<usize, Refusal>
    ensures { CommitPromise w h (record { tree = tree.now; numbers = numbers.now })
        (record {
          slip = slip_told slip;
          tree_out = tree_out.old;
          numbers_out = numbers_out.old;
        }) result
        tree_out.new numbers_out.new }
{
    let mut rows = [0u32; 96];
    let b = boxes::Box {
        u0: slip.u0,
        v0: slip.v0,
        u1: slip.u1,
        v1: slip.v1,
    };
    let level = slip.level;
    refinement::refinement_cause(w, h, tree, numbers, b, level, &mut rows)?;
    let mut new = rows;
    let mut built = [0u8; 1365];
    let own = insert(w, h, &mut new, b, level, &mut built);
    if !slip::same(slip, own) {
        return Err(Refusal::Slip);
    }
    refinement::write_refined(
        w,
        h,
        numbers,
        &rows,
        &new,
        &built[0..own.length],
        tree_out,
        numbers_out,
    )
}
