// The least and the greatest level under a box, with the number of tree nodes visited, by recursion into four children.
#![tactic(auto)]

ghost use Rattle.std.specs.Prelude.{◌≡◌, ◌+◌, ◌≤◌, ◌<◌, true};
ghost use Rattle.surface.specs.Table.{tree_of, formed};
ghost use Rattle.boxes.specs.Boxes.{box_of, InSheet};
ghost use Rattle.quadtree.specs.Subtree.{Readable};
ghost use Rattle.leastlevel.specs.Visits.{begun, Standing, EndsAt, Visited, WalkedOver, LevelsOf};

// The least and the greatest level of the leaves visited, and how many nodes were visited.
#[derive(Clone, Copy)]
pub struct Levels {
    pub least: usize,
    pub greatest: usize,
    pub visited: usize,
}

// How many trees a node of this byte begins: a leaf, 0 to 3, none, and a split, 4, four.
fn begins(b: u8) -> usize
    requires { b ≤ 4 }
    ensures { result ≡ begun b }
{
    (b / 4 * 4) as usize
}

// The end of the tree that is written from `at` on. The bytes have no sizes: each tree that is begun has a first byte.
fn skip(t: &[u8], at: usize) -> usize
    requires { Standing t.now at }
    ensures { EndsAt t.now at result }
{
    let mut next = at;
    let mut end = at + 1;
    // A `while`: no range fits, since the end moves on at each split that is read.
    while next < end {
        end += begins(t[next]);
        next += 1;
    }
    end
}

// Takes a visited node of this byte into what was found so far: the least level (3 before the first leaf), the greatest
// (0 before it) and the number of nodes.
fn visit(b: u8, found: &mut Levels)
    requires { found.old.visited < 9223372036854775808 }
    ensures { Visited b found.old found.new }
{
    found.visited += 1;
    if 3 < b {
        return;
    }
    let level = b as usize;
    found.least = found.least.min(level);
    found.greatest = found.greatest.max(level);
}

// Visits the tree that is written from `at` on, of the square of this side with low corner (x, y), where the square
// shares area with the box; takes the nodes visited into what was found, and returns the tree's end.
fn walk(
    t: &[u8],
    at: usize,
    x: usize,
    y: usize,
    side: usize,
    b: &boxes::Box,
    found: &mut Levels,
) -> usize
    requires { (x + side ≤ 32) × (y + side ≤ 32) × Readable side t.now at × (found.old.least ≤ 3)
        × (found.old.visited ≤ at) }
    ensures { WalkedOver x y side (box_of b.now) t.now at result found.old found.new }
{
    if !boxes::meets(x, y, side, b) {
        return skip(t, at);
    }
    let byte = t[at];
    visit(byte, found);
    if byte <= 3 {
        return at + 1;
    }
    let half = side / 2;
    let p1 = walk(t, at + 1, x, y, half, b, found);
    let p2 = walk(t, p1, x + half, y, half, b, found);
    let p3 = walk(t, p2, x, y + half, half, b, found);
    walk(t, p3, x + half, y + half, half, b, found)
}

// The levels under a box that lies in the sheet, and the nodes visited.
pub fn under(t: &[u8], w: usize, h: usize, b: boxes::Box) -> Levels
    requires { (w ≤ 8) × (h ≤ 8) × (formed w h (tree_of t.now) ≡ true) × InSheet w h (box_of b) }
    ensures { LevelsOf w h t.now (box_of b) result.least result.greatest result.visited }
{
    // A tree of one leaf, the common case, needs no walk: the box lies in the sheet, so the leaf is visited.
    let root = t[0];
    if root <= 3 {
        let l = root as usize;
        return Levels {
            least: l,
            greatest: l,
            visited: 1,
        };
    }
    let mut found = Levels {
        least: 3,
        greatest: 0,
        visited: 0,
    };
    walk(t, 0, 0, 0, 32, &b, &mut found);
    found
}
