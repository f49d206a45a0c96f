// The four by four patch of coefficients, an array of arrays by value, subdivided from level to level. Entry [k][l] is
// that of the k-th function along u and the l-th along v. A step works in place, in one array beside the patch that it
// is given: its functions take numbers, or are lent that array.
#![tactic(auto)]

ghost use Rattle.std.specs.Prelude.{◌≡◌, cond, ◌≤◌, ◌<◌, ℤ, ◌+ℤ◌};
ghost use Rattle.patch.specs.Patches.{Bounded, Subdivided};
ghost use Rattle.patch.specs.Steps.{midway, Small, Paired, even_of, odd_of, FourByFour, placed, with_place};
ghost use Rattle.patch.specs.Steps.{Parents, with_children, place, along_v, along_u};

// An even child, of two parents in a row.
pub fn even(x: i64, y: i64) -> i64
    requires { Small x × Small y }
    ensures { result ≡ even_of x y }
{
    4 * (x + y)
}

// An odd child, of three.
pub fn odd(x: i64, y: i64, z: i64) -> i64
    requires { Small x × Small y × Small z }
    ensures { result ≡ odd_of x y z }
{
    x + 6 * y + z
}

// Two parents in a row together, which the odd children on both sides share.
fn pair(x: i64, y: i64) -> i64
    requires { Small x × Small y }
    ensures { (result ≡ x +ℤ y) × Paired result }
{
    x + y
}

// An odd child, of its middle parent y and the two pairs that y is in.
fn odd_of_pairs(yz: i64, y: i64, xy: i64) -> i64
    requires { Paired yz × Small y × Paired xy }
    ensures { (x z : ℤ) → xy ≡ x +ℤ y → yz ≡ y +ℤ z → result ≡ odd_of x y z }
{
    yz + 4 * y + xy
}

// What stands at place n of a patch; places are counted row by row, from 0 to 15.
fn at(r: &[[i64; 4]; 4], n: usize) -> i64
    requires { (n < 16) × Small (placed r.now n) }
    ensures { (result ≡ placed r.now n) × Small result }
{
    r[n / 4][n % 4]
}

// Puts a number there.
fn put(r: &mut [[i64; 4]; 4], n: usize, x: i64)
    requires { n < 16 }
    ensures { r.new ≡ with_place r.old n x }
{
    r[n / 4][n % 4] = x;
}

// The children in one half of four parents in a row, put at their parents' places.
fn children<const HALF: usize>(r: &mut [[i64; 4]; 4], i: usize, j: usize, k: usize, l: usize)
    requires { (HALF ≤ 1) × Parents r.old i j k l }
    ensures { r.new ≡ with_children HALF r.old i j k l }
{
    let a = at(r, i);
    let b = at(r, j);
    let c = at(r, k);
    let d = at(r, l);
    let ab = pair(a, b);
    let bc = pair(b, c);
    let cd = pair(c, d);
    if HALF == 0 {
        put(r, i, even(a, b));
        put(r, j, odd_of_pairs(bc, b, ab));
        put(r, k, even(b, c));
        put(r, l, odd_of_pairs(cd, c, bc));
    } else {
        put(r, i, odd_of_pairs(bc, b, ab));
        put(r, j, even(b, c));
        put(r, k, odd_of_pairs(cd, c, bc));
        put(r, l, even(c, d));
    }
}

// The place of number n of a line: along v the lines are rows, along u columns.
fn place<const ALONG_V: bool>(line: usize, n: usize) -> usize
    requires { (line < 4) × (n < 4) }
    ensures { result ≡ place ALONG_V line n }
{
    if ALONG_V { 4 * line + n } else { 4 * n + line }
}

// The children in one half of all four lines.
fn each_line<const ALONG_V: bool, const HALF: usize>(r: &mut [[i64; 4]; 4])
    requires { (HALF ≤ 1) × FourByFour r.old × Bounded midway r.old }
    ensures { r.new ≡ cond ALONG_V (along_v HALF r.old) (along_u HALF r.old) }
{
    for line in 0..4 {
        children::<HALF>(
            r,
            place::<ALONG_V>(line, 0),
            place::<ALONG_V>(line, 1),
            place::<ALONG_V>(line, 2),
            place::<ALONG_V>(line, 3),
        );
    }
}

// A step along v or along u. Each half has code of its own, so that the test is made once.
fn along<const ALONG_V: bool>(r: &mut [[i64; 4]; 4], half: usize)
    requires { (half ≤ 1) × FourByFour r.old × Bounded midway r.old }
    ensures { r.new ≡ cond ALONG_V (along_v half r.old) (along_u half r.old) }
{
    if half == 0 {
        each_line::<ALONG_V, 0>(r);
    } else {
        each_line::<ALONG_V, 1>(r);
    }
}

// One step of subdivision, onto the child cell in half g along u and half h along v.
pub fn subdivide(p: [[i64; 4]; 4], g: usize, h: usize) -> [[i64; 4]; 4]
    requires { (g ≤ 1) × (h ≤ 1) × Bounded 131072000 p }
    ensures { Subdivided g h p result }
{
    let mut r = p;
    along::<true>(&mut r, h);
    along::<false>(&mut r, g);
    r
}
