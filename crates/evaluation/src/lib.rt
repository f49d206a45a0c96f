// A patch of coefficients evaluated at a point of its cell: the reading there, and the slopes along u and along v.
#![tactic(auto)]

ghost use Rattle.std.specs.Prelude.{◌≡◌, ◌*◌, ◌≤◌};
ghost use Rattle.evaluation.specs.Weights.{splines_of, derivatives_of, Fit, weighed, FitRows, weighed_rows};
ghost use Rattle.evaluation.specs.Evaluated.{OfLevel, Evaluated, SlopesEvaluated};

// A number for each of the four functions of a cell at a point: the splines, or their derivatives.
#[derive(Clone, Copy)]
struct Four {
    a: i64,
    b: i64,
    c: i64,
    d: i64,
}

// A product of three numbers of steps.
fn triple(x: usize, y: usize, z: usize) -> usize
    requires { (x ≤ 128) × (y ≤ 128) × (z ≤ 128) }
    ensures { (result ≡ x * y * z) × (result ≤ 2097152) }
{
    x * y * z
}

// The splines at r steps into a cell of n, with q steps left.
fn splines_at(n: usize, r: usize) -> Four
    requires { (r ≤ n) × (n ≤ 128) }
    ensures { result ≡ splines_of n r }
{
    let q = n - r;
    let a = triple(q, q, q);
    let x = triple(r, r, q);
    let y = triple(r, q, q);
    let d = triple(r, r, r);
    Four {
        a: a as i64,
        b: (d + 6 * x + 12 * y + 4 * a) as i64,
        c: (4 * d + 12 * x + 6 * y + a) as i64,
        d: d as i64,
    }
}

// Their derivatives: the first two splines fall over the cell, the last two rise.
fn derivatives_at(n: usize, r: usize) -> Four
    requires { (r ≤ n) × (n ≤ 128) }
    ensures { result ≡ derivatives_of n r }
{
    let left = n - r;
    let a = triple(3, left, left);
    let x = triple(12, r, left);
    let d = triple(3, r, r);
    Four {
        a: 0 - a as i64,
        b: 0 - (d + x) as i64,
        c: (a + x) as i64,
        d: d as i64,
    }
}

// A weighted sum of four.
fn weigh(w: Four, x: [i64; 4]) -> i64
    requires { Fit w x }
    ensures { result ≡ weighed w x }
{
    w.a * x[0] + w.b * x[1] + w.c * x[2] + w.d * x[3]
}

// The weighted sums of the four rows of a patch, along v.
fn weigh_rows(w: Four, p: [[i64; 4]; 4]) -> [i64; 4]
    requires { FitRows w p }
    ensures { result ≡ weighed_rows w p }
{
    [
        weigh(w, p[0]),
        weigh(w, p[1]),
        weigh(w, p[2]),
        weigh(w, p[3]),
    ]
}

// The patch of a level with n steps to a cell, at the point r and s steps into its cell.
pub fn evaluate(p: [[i64; 4]; 4], n: usize, r: usize, s: usize) -> i64
    requires { (r ≤ n) × (s ≤ n) × OfLevel n p }
    ensures { Evaluated n p r s result }
{
    let u = splines_at(n, r);
    let v = splines_at(n, s);
    weigh(u, weigh_rows(v, p))
}

// The reading and the slopes there, as whole numbers.
#[derive(Clone, Copy)]
pub struct Slopes {
    pub watts: i64,
    pub along_u: i64,
    pub along_v: i64,
}

// The same, with the derivative along u and along v beside the value.
pub fn evaluate_slopes(p: [[i64; 4]; 4], n: usize, r: usize, s: usize) -> Slopes
    requires { (r ≤ n) × (s ≤ n) × OfLevel n p }
    ensures { SlopesEvaluated n p r s result }
{
    let splines_u = splines_at(n, r);
    let splines_v = splines_at(n, s);
    let slopes_u = derivatives_at(n, r);
    let slopes_v = derivatives_at(n, s);
    let rows = weigh_rows(splines_v, p);
    let sloping_rows = weigh_rows(slopes_v, p);
    Slopes {
        watts: weigh(splines_u, rows),
        along_u: weigh(slopes_u, rows),
        along_v: weigh(splines_u, sloping_rows),
    }
}
