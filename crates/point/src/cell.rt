// The cell of a level that holds a point, and where in it the point lies.
ghost use Rattle.std.specs.Prelude.{◌≡◌, ◌+◌, ◌*◌, ◌≤◌, ◌<◌};
ghost use Rattle.surface.specs.Sheet.{functions};
ghost use Rattle.surface.specs.Spline.{cell_of};
ghost use Rattle.point.specs.Places.{PlaceOf};

// Along a side of n cells of level 0, at u steps; at the far edge the last cell.
pub fn cell_of(n: usize, level: usize, u: usize) -> usize
    requires { (0 < n) × (n ≤ 8) × (level ≤ 3) × (u ≤ 128 * n) }
    ensures { (result ≡ cell_of n level u) × (result + 3 < functions n level) }
{
    let steps = 16 * activity::eighths(level);
    let last = coefficients::functions(n, level) - 4;
    (u / steps).min(last)
}

// The steps of a cell of a level, and how many of them a point is into its cell along u and along v.
#[derive(Clone, Copy)]
pub struct Place {
    pub steps: usize,
    pub r: usize,
    pub s: usize,
}

pub fn place_of(w: usize, h: usize, level: usize, u: usize, v: usize) -> Place
    requires { (0 < w) × (w ≤ 8) × (0 < h) × (h ≤ 8) × (level ≤ 3) × (u ≤ 128 * w) × (v ≤ 128 * h) }
    ensures { PlaceOf w h level u v result }
{
    let a = cell_of(w, level, u);
    let b = cell_of(h, level, v);
    let side = 16 * activity::eighths(level);
    Place {
        steps: side,
        r: u - side * a,
        s: v - side * b,
    }
}
