// A box in whole quarters, the squares that share area with it, and those that lie in it; the quarter that holds a
// point.
#![tactic(auto)]

ghost use Rattle.std.specs.Prelude.{◌≡◌, ◌+◌, ◌≤◌, ◌<◌};
ghost use Rattle.surface.specs.Sheet.{quarter_of};
ghost use Rattle.boxes.specs.Boxes.{box_of, overlap, shares_area, among, lies_in};

// A box, low corner first.
#[derive(Clone, Copy)]
pub struct Box {
    pub u0: usize,
    pub v0: usize,
    pub u1: usize,
    pub v1: usize,
}

// Along one direction, the n places from x on share one with the places lo to hi - 1.
fn overlaps(lo: usize, hi: usize, x: usize, n: usize) -> bool
    requires { x + n ≤ 32 }
    ensures { result ≡ overlap lo hi x n }
{
    x < hi && lo < x + n
}

// The square of this side at (x, y) shares area with the box.
pub fn meets(x: usize, y: usize, side: usize, b: &Box) -> bool
    requires { (x + side ≤ 32) × (y + side ≤ 32) }
    ensures { result ≡ shares_area x y side (box_of b.now) }
{
    overlaps(b.u0, b.u1, x, side) && overlaps(b.v0, b.v1, y, side)
}

// Along one direction, the n places from x on are among the places lo to hi - 1.
fn within(lo: usize, hi: usize, x: usize, n: usize) -> bool
    requires { x + n ≤ 32 }
    ensures { result ≡ among lo hi x n }
{
    lo <= x && x + n <= hi
}

// The square of this side at (x, y) lies in the box.
pub fn holds(x: usize, y: usize, side: usize, b: &Box) -> bool
    requires { (x + side ≤ 32) × (y + side ≤ 32) }
    ensures { result ≡ lies_in x y side (box_of b.now) }
{
    within(b.u0, b.u1, x, side) && within(b.v0, b.v1, y, side)
}

// The quarter that holds a point, along a side of n cells of level 0, at u steps: on a shared edge the one of greater
// u, at the far edge the last.
pub fn quarter_of(n: usize, u: usize) -> usize
    requires { (0 < n) × (n ≤ 8) }
    ensures { (result ≡ quarter_of n u) × (result < 32) }
{
    let q = u / 32;
    let last = 4 * n - 1;
    q.min(last)
}
