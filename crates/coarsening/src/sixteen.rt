// The sixteen numbers around a cell, taken and put: row l of a patch has those along u of the l-th function along v.
ghost use Rattle.std.specs.Prelude.{◌≡◌, true, false, ℕ, ◌+◌, ◌*◌, ◌≤◌, ◌<◌, pos, nat_abs, length, get_or};
ghost use Rattle.patch.specs.Patches.{entry, Bounded};
ghost use Rattle.coarsening.specs.Coarser.{Stand, number_of, finer, PutFour, PutAt, Tested};

// Four numbers from a place on: at level 2 those of level 3 in the grid's body, else in a slice.
fn four(body: &[u8], fine: &[i64], level: usize, at: usize) -> [i64; 4]
    requires { Stand level body.now fine.now (at + 4) × (at + 4 ≤ 4489) }
    ensures { (k : ℕ) → k < 4
        → get_or result k (pos 0) ≡ number_of level body.now fine.now (at + k) }
{
    if level == 2 {
        return [
            fields::number::read(body, at),
            fields::number::read(body, at + 1),
            fields::number::read(body, at + 2),
            fields::number::read(body, at + 3),
        ];
    }
    [fine[at], fine[at + 1], fine[at + 2], fine[at + 3]]
}

// Those of the functions (x, y) to (x + 3, y + 3), in rows of n.
pub fn around(
    body: &[u8],
    fine: &[i64],
    level: usize,
    n: usize,
    x: usize,
    y: usize,
) -> [[i64; 4]; 4]
    requires { (x + 4 ≤ n) × Stand level body.now fine.now ((y + 4) * n) × ((y + 4) * n ≤ 4489) }
    ensures { (k l : ℕ) → k < 4 → l < 4
        → entry result l k ≡ finer level body.now fine.now n (x + k) (y + l) }
{
    let at = y * n + x;
    [
        four(body, fine, level, at),
        four(body, fine, level, at + n),
        four(body, fine, level, at + 2 * n),
        four(body, fine, level, at + 3 * n),
    ]
}

// Puts four numbers from a place on.
fn put_four(s: &mut [i64], at: usize, row: [i64; 4])
    requires { at + 4 ≤ length s.old }
    ensures { PutFour at row s.old s.new }
{
    s[at] = row[0];
    s[at + 1] = row[1];
    s[at + 2] = row[2];
    s[at + 3] = row[3];
}

// Puts a patch at the functions (x, y) to (x + 3, y + 3), in rows of n.
pub fn put_patch(s: &mut [i64], n: usize, x: usize, y: usize, patch: [[i64; 4]; 4])
    requires { (x + 4 ≤ n) × ((y + 4) * n ≤ length s.old) × (length s.old ≤ 4489) }
    ensures { PutAt n x y patch s.old s.new }
{
    let at = y * n + x;
    put_four(s, at, patch[0]);
    put_four(s, at + n, patch[1]);
    put_four(s, at + 2 * n, patch[2]);
    put_four(s, at + 3 * n, patch[3]);
}

// Whether the numbers of a patch are all within a limit.
pub fn within(patch: [[i64; 4]; 4], limit: i64) -> bool
    requires { (m : ℕ) × (limit ≡ pos m) × (m < 9000000000) }
    ensures { (m : ℕ) → limit ≡ pos m → Tested m patch result }
{
    for row in patch {
        for x in row {
            if coefficients::past(x, limit) {
                return false;
            }
        }
    }
    true
}
