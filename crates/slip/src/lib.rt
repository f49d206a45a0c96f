// Slips: what is told of a box before it is inserted, and whether two slips are the same.
#![tactic(auto)]

ghost use Rattle.std.specs.Prelude.{◌≡◌, true, List, ℕ, ◌≤◌, ◌<◌};
ghost use Rattle.surface.specs.Sheet.{quarters};
ghost use Rattle.surface.specs.Table.{tree_of, formed, levels};
ghost use Rattle.surface.specs.Calls.{new_tree};
ghost use Rattle.surface.specs.Enquiry.{slip_of, same_slip};
ghost use Rattle.rows.specs.Rows.{levels_of, Nested};
ghost use Rattle.boxes.specs.Boxes.{box_of, InSheet};
ghost use Rattle.answers.specs.Answers.{slip_told};

use answers::Slip;

// The slip of a box and a level, from the new regions and their tree: that of each table whose new tree it is.
pub fn slip_of(
    w: usize,
    h: usize,
    new: &[u32; 96],
    tree: &[u8],
    b: boxes::Box,
    level: usize,
) -> Slip
    requires { (w ≤ 8) × (h ≤ 8) × Nested new.now × (formed w h (tree_of tree.now) ≡ true)
        × ((q r : ℕ) → q < quarters w → r < quarters h → levels_of new.now q r ≡ levels tree.now q r)
        × InSheet w h (box_of b) }
    ensures { (t : List ℕ) → new_tree t (box_of b) level ≡ tree.now
        → slip_told result ≡ slip_of w h t (box_of b) level }
{
    let counts = activity::count::active_counts(new, w, h);
    let under = leastlevel::under(tree, w, h, b);
    Slip {
        u0: b.u0,
        v0: b.v0,
        u1: b.u1,
        v1: b.v1,
        level,
        length: tree.len(),
        active0: counts[0],
        active1: counts[1],
        active2: counts[2],
        active3: counts[3],
        visited: under.visited,
    }
}

// Whether two slips are the same, number by number.
pub fn same(a: Slip, b: Slip) -> bool
    ensures { result ≡ same_slip (slip_told a) (slip_told b) }
{
    a == b
}
