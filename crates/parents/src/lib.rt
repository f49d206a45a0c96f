// A step of subdivision undone: the four by four numbers around a cell give those around the coarser cell that it lies
// in. Row l of a patch here has the numbers along u of the l-th function along v. Where no coarser numbers subdivide to
// those given, what comes out is nothing in particular.
#![tactic(auto)]

ghost use Rattle.std.specs.Prelude.{◌≡◌, ◌*◌, ◌≤◌, ◌<◌, pos, nat_abs, get_or};
ghost use Rattle.patch.specs.Patches.{Bounded};
ghost use Rattle.parents.specs.Parents.{wide, Wide, SecondOf, OtherOf, ThirdOf, FourWide, ParentsOf, FourWithin};
ghost use Rattle.parents.specs.Parents.{RowsBack, Back};

// The second of four parents in a row, of its three children around the near half.
fn second(a: i64, b: i64, c: i64) -> i64
    requires { Wide a × Wide b × Wide c }
    ensures { SecondOf a b c result }
{
    (4 * b - a - c) / 16
}

// The other parent of an even child, given one.
fn other(even: i64, known: i64) -> i64
    requires { Wide even × (nat_abs known ≤ 6 * wide) }
    ensures { OtherOf even known result }
{
    even / 4 - known
}

// The third parent of an odd child, given two.
fn third(odd: i64, first: i64, middle: i64) -> i64
    requires { Wide odd × (nat_abs first ≤ 6 * wide) × (nat_abs middle ≤ 7 * wide) }
    ensures { ThirdOf odd first middle result }
{
    odd - first - 6 * middle
}

// The four parents of four children around the near half.
fn near(a: i64, b: i64, c: i64, d: i64) -> [i64; 4]
    requires { Wide a × Wide b × Wide c × Wide d }
    ensures { ParentsOf 0 a b c d result }
{
    let p1 = second(a, b, c);
    let p2 = other(c, p1);
    [other(a, p1), p1, p2, third(d, p1, p2)]
}

// The parents of a row in a half; around the far half those of the mirrored row, mirrored.
fn of_row(row: [i64; 4], half: usize) -> [i64; 4]
    requires { (half ≤ 1) × FourWide row }
    ensures { FourWithin half row result }
{
    let [a, b, c, d] = row;
    if half == 0 {
        return near(a, b, c, d);
    }
    let [p3, p2, p1, p0] = near(d, c, b, a);
    [p0, p1, p2, p3]
}

// The i-th number of each of four rows.
fn column(a: [i64; 4], b: [i64; 4], c: [i64; 4], d: [i64; 4], i: usize) -> [i64; 4]
    requires { i < 4 }
    ensures { (get_or result 0 (pos 0) ≡ get_or a i (pos 0)) × (get_or result 1 (pos 0) ≡ get_or b i (pos 0))
        × (get_or result 2 (pos 0) ≡ get_or c i (pos 0)) × (get_or result 3 (pos 0) ≡ get_or d i (pos 0)) }
{
    [a[i], b[i], c[i], d[i]]
}

// A step along the rows of a patch undone, with rows and columns exchanged.
fn across(p: [[i64; 4]; 4], half: usize) -> [[i64; 4]; 4]
    requires { (half ≤ 1) × Bounded wide p }
    ensures { RowsBack half p result }
{
    let a = of_row(p[0], half);
    let b = of_row(p[1], half);
    let c = of_row(p[2], half);
    let d = of_row(p[3], half);
    [
        column(a, b, c, d, 0),
        column(a, b, c, d, 1),
        column(a, b, c, d, 2),
        column(a, b, c, d, 3),
    ]
}

// A step of subdivision onto the cell in half g along u and half h along v undone.
pub fn of_patch(p: [[i64; 4]; 4], g: usize, h: usize) -> [[i64; 4]; 4]
    requires { (g ≤ 1) × (h ≤ 1) × Bounded 8388608000 p }
    ensures { Back g h p result }
{
    across(across(p, g), h)
}
