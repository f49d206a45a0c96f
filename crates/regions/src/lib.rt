// The insertion of a box into the regions, by recursion into four children with the box in hand, and the one tree of
// the new regions, written parent first; four equal leaves are merged on the way back. The recursion ends early at a
// square away from the box whose quarters all have level 0, and at one in the box with no quarter above the level.
#![tactic(auto)]

ghost use Rattle.std.specs.Prelude.{◌≡◌, true, ◌+◌, ◌≤◌, ◌<◌, length};
ghost use Rattle.boxes.specs.Boxes.{box_of};
ghost use Rattle.rows.specs.Rows.{levels_of, Nested};
ghost use Rattle.regions.specs.Regions.{LeafAt, Joined, Writable, BuiltFrom, TakesLevel, InsertedFrom, Inserted};

// Writes a leaf of a level at a place, and returns the position after it.
fn write_leaf(out: &mut [u8; 1365], at: usize, level: u8) -> usize
    requires { (at < 1365) × (length out.old ≡ 1365) }
    ensures { LeafAt level at result out.old out.new }
{
    out[at] = level;
    at + 1
}

// Joins the four trees that are written from `at + 1` to before `end` as one from `at` on, and returns the position
// after it.
fn join(out: &mut [u8; 1365], at: usize, end: usize) -> usize
    requires { (at + 5 ≤ end) × (end ≤ 1365) × (length out.old ≡ 1365) }
    ensures { Joined at end result out.old out.new }
{
    if quadtree::walk::equal_leaves(out, at + 1, end) {
        let level = out[at + 1];
        return write_leaf(out, at, level);
    }
    out[at] = 4;
    end
}

// Writes the tree of the square of this side with low corner (x, y) from `at` on, and returns the position after it.
fn build_from(
    rows: &[u32; 96],
    x: usize,
    y: usize,
    side: usize,
    out: &mut [u8; 1365],
    at: usize,
) -> usize
    requires { Writable x y side at out.old × Nested rows.now }
    ensures { BuiltFrom x y side (levels_of rows.now) at result out.old out.new }
{
    if side == 1 {
        let level = rows::level_at(rows, x, y);
        return write_leaf(out, at, level);
    }
    // A square with no quarter in the region of level 1 has none in a finer one: all have level 0.
    if rows::none_in(rows, 0, x, y, side) {
        return write_leaf(out, at, 0);
    }
    let half = side / 2;
    let p1 = build_from(rows, x, y, half, out, at + 1);
    let p2 = build_from(rows, x + half, y, half, out, p1);
    let p3 = build_from(rows, x, y + half, half, out, p2);
    let end = build_from(rows, x + half, y + half, half, out, p3);
    join(out, at, end)
}

// Whether the square of this side with low corner (x, y) lies in the box and has no quarter above the level, so that
// each of its quarters takes the level.
fn takes_level(
    rows: &[u32; 96],
    x: usize,
    y: usize,
    side: usize,
    b: &boxes::Box,
    level: usize,
) -> bool
    requires { (1 ≤ side) × (x + side ≤ 32) × (y + side ≤ 32) × (level ≤ 3) × Nested rows.now }
    ensures { result ≡ true → TakesLevel x y side (box_of b.now) level rows.now }
{
    if !boxes::holds(x, y, side, b) {
        return false;
    }
    if level == 3 {
        return true;
    }
    rows::none_in(rows, level, x, y, side)
}

// Raises the quarters of the box that lie in the square of this side with low corner (x, y) to a
// level, writes the square's new tree from `at` on, and returns the position after it.
fn insert_from(
    rows: &mut [u32; 96],
    x: usize,
    y: usize,
    side: usize,
    b: &boxes::Box,
    level: usize,
    out: &mut [u8; 1365],
    at: usize,
) -> usize
    requires { Writable x y side at out.old × (level ≤ 3) × (length rows.old ≡ 96) × Nested rows.old }
    ensures { InsertedFrom x y side (box_of b.now) level rows.old
        rows.new at result
        out.old out.new }
{
    if !boxes::meets(x, y, side, b) {
        return build_from(rows, x, y, side, out, at);
    }
    if side == 1 {
        rows::raise_square(rows, x, y, 1, level);
        let raised = rows::level_at(rows, x, y);
        return write_leaf(out, at, raised);
    }
    if takes_level(rows, x, y, side, b, level) {
        rows::raise_square(rows, x, y, side, level);
        return write_leaf(out, at, level as u8);
    }
    let half = side / 2;
    let p1 = insert_from(rows, x, y, half, b, level, out, at + 1);
    let p2 = insert_from(rows, x + half, y, half, b, level, out, p1);
    let p3 = insert_from(rows, x, y + half, half, b, level, out, p2);
    let end = insert_from(rows, x + half, y + half, half, b, level, out, p3);
    join(out, at, end)
}

// Inserts a box: the rows become those of the new levels, their tree is written, and its length returned.
pub fn insert(rows: &mut [u32; 96], b: boxes::Box, level: usize, out: &mut [u8; 1365]) -> usize
    requires { (level ≤ 3) × (length rows.old ≡ 96) × Nested rows.old × (length out.old ≡ 1365) }
    ensures { Inserted (box_of b) level rows.old rows.new result out.new }
{
    insert_from(rows, 0, 0, 32, &b, level, out, 0)
}
