// A patch's own coefficients, read in its level's part of the slice.
ghost use Rattle.std.specs.Prelude.{◌≡◌, ◌+◌, ◌*◌, ◌≤◌, ◌<◌, length};
ghost use Rattle.surface.specs.Sheet.{functions};
ghost use Rattle.surface.specs.Table.{slots};
ghost use Rattle.point.specs.Patches.{ColumnOf, InPart, OwnOf};

// Four coefficients along v, from a place on in rows of n.
fn column(part: &[i64], n: usize, at: usize) -> [i64; 4]
    requires { at + 3 * n < length part.now }
    ensures { ColumnOf part.now n at result }
{
    [part[at], part[at + n], part[at + 2 * n], part[at + 3 * n]]
}

// Those of the functions (a, b) to (a + 3, b + 3), in rows of n.
fn in_part(part: &[i64], n: usize, a: usize, b: usize) -> [[i64; 4]; 4]
    requires { (a + 3 < n) × (n ≤ 67) × (b ≤ 67) × ((b + 4) * n ≤ length part.now) }
    ensures { InPart part.now n a b result }
{
    let at = b * n + a;
    [
        column(part, n, at),
        column(part, n, at + 1),
        column(part, n, at + 2),
        column(part, n, at + 3),
    ]
}

// Those of a level.
pub fn of_level(
    numbers: &[i64],
    w: usize,
    h: usize,
    level: usize,
    a: usize,
    b: usize,
) -> [[i64; 4]; 4]
    requires { (w ≤ 8) × (h ≤ 8) × (level ≤ 3) × (a + 3 < functions w level) × (b + 3 < functions h level)
        × (length numbers.now ≡ slots w h) }
    ensures { OwnOf w h level numbers.now a b result }
{
    let n = coefficients::functions(w, level);
    let first = coefficients::start(w, h, level);
    let end = first + coefficients::places(w, h, level);
    in_part(&numbers[first..end], n, a, b)
}
