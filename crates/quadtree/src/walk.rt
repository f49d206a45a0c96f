// A tree's form and its regions, by one walk: recursion into four children.
ghost use Rattle.std.specs.Prelude.{◌≡◌, true, ℕ, ◌+◌, ◌^◌, ◌≤◌, ◌<◌, length, get_or};
ghost use Rattle.rows.specs.Rows.{level_rows};
ghost use Rattle.surface.specs.Quadtree.{leaf, well_formed};
ghost use Rattle.surface.specs.Table.{tree_of, formed};
ghost use Rattle.quadtree.specs.Subtree.{Square};
ghost use Rattle.quadtree.specs.End.{equal_bytes};
ghost use Rattle.quadtree.specs.Judged.{Judged};

// Where a tree ends that is not of the form: no slice is that long, so that what is read from there on is not either.
const NOWHERE: usize = usize::MAX;

// A leaf of this byte is of the form, in the square of this side with low corner (x, y).
fn leaf_formed(b: u8, x: usize, y: usize, side: usize, w: usize, h: usize) -> bool
    requires { (x + side ≤ 32) × (y + side ≤ 32) × (w ≤ 8) × (h ≤ 8) }
    ensures { (k : ℕ) → side ≡ 2 ^ k → result ≡ well_formed w h k x y (leaf b) }
{
    if b == 0 {
        return true;
    }
    if 3 < b {
        return false;
    }
    x + side <= 4 * w && y + side <= 4 * h
}

// The trees that are written from `at` to before `end` are four equal leaves: a split takes five bytes or more.
pub fn equal_leaves(t: &[u8], at: usize, end: usize) -> bool
    requires { (at ≤ length t.now) × (end ≡ at + 4 → end ≤ length t.now) }
    ensures { result ≡ equal_bytes t.now at end }
{
    if end != at + 4 {
        return false;
    }
    let first = t[at];
    t[at + 1..end].iter().all(|byte| *byte == first)
}

// Judges the tree of the square of this side where it can only be a leaf, and raises the square.
fn leaf(
    t: &[u8],
    at: usize,
    x: usize,
    y: usize,
    side: usize,
    w: usize,
    h: usize,
    rows: &mut [u32; 96],
) -> usize
    requires { Square x y side × (w ≤ 8) × (h ≤ 8) × (length rows.old ≡ 96)
        × (get_or t.now at 0 ≡ 4 → side ≡ 1) }
    ensures { Judged w h x y side t.now at result rows.old rows.new }
{
    if t.len() <= at {
        return NOWHERE;
    }
    let b = t[at];
    if !leaf_formed(b, x, y, side, w, h) {
        return NOWHERE;
    }
    rows::raise_square(rows, x, y, side, b as usize);
    at + 1
}

// Judges a split of side 2, whose children are single quarters and can only be leaves: most splits are such.
// On its own for speed: without it a fully split tree takes 67,646 instructions, with it 34,537.
fn quarters(
    t: &[u8],
    at: usize,
    x: usize,
    y: usize,
    w: usize,
    h: usize,
    rows: &mut [u32; 96],
) -> usize
    requires { (x + 2 ≤ 32) × (y + 2 ≤ 32) × (w ≤ 8) × (h ≤ 8) × (length rows.old ≡ 96)
        × (at < length t.now) × (get_or t.now at 0 ≡ 4) }
    ensures { Judged w h x y 2 t.now at result rows.old rows.new }
{
    let p1 = leaf(t, at + 1, x, y, 1, w, h, rows);
    let p2 = leaf(t, p1, x + 1, y, 1, w, h, rows);
    let p3 = leaf(t, p2, x, y + 1, 1, w, h, rows);
    let p4 = leaf(t, p3, x + 1, y + 1, 1, w, h, rows);
    if equal_leaves(t, at + 1, p4) {
        return NOWHERE;
    }
    p4
}

// Judges the tree that is written from `at` on, of the square of this side with low corner (x, y), and raises the
// squares of its leaves. A child is read from where the one before it ends.
fn walk(
    t: &[u8],
    at: usize,
    x: usize,
    y: usize,
    side: usize,
    w: usize,
    h: usize,
    rows: &mut [u32; 96],
) -> usize
    requires { Square x y side × (1 < side) × (w ≤ 8) × (h ≤ 8) × (length rows.old ≡ 96) }
    ensures { Judged w h x y side t.now at result rows.old rows.new }
{
    if t.len() <= at {
        return NOWHERE;
    }
    if t[at] != 4 {
        return leaf(t, at, x, y, side, w, h, rows);
    }
    if side == 2 {
        return quarters(t, at, x, y, w, h, rows);
    }
    let half = side / 2;
    let p1 = walk(t, at + 1, x, y, half, w, h, rows);
    let p2 = walk(t, p1, x + half, y, half, w, h, rows);
    let p3 = walk(t, p2, x, y + half, half, w, h, rows);
    let p4 = walk(t, p3, x + half, y + half, half, w, h, rows);
    if equal_leaves(t, at + 1, p4) {
        return NOWHERE;
    }
    p4
}

// The tree is of the form, on a sheet of w by h cells; if it is, the rows become those of its levels.
pub fn regions(t: &[u8], w: usize, h: usize, rows: &mut [u32; 96]) -> bool
    requires { (w ≤ 8) × (h ≤ 8) }
    ensures { (result ≡ formed w h (tree_of t.now))
        × (result ≡ true → rows.new ≡ level_rows t.now) }
{
    *rows = [0u32; 96];
    walk(t, 0, 0, 0, 32, w, h, rows) == t.len()
}
