// The patch of a level at a point: that of level 0, and that of a level from the level before it.
ghost use Rattle.std.specs.Prelude.{◌≡◌, cond, List, ℕ, ◌*◌, ◌-◌, ◌≤◌, ◌<◌, length};
ghost use Rattle.surface.specs.Table.{slots};
ghost use Rattle.rows.specs.Rows.{Nested};
ghost use Rattle.patch.specs.Patches.{Bounded};
ghost use Rattle.point.specs.Patches.{ChosenRow, Chosen, PatchAt};

// An entry whose cut support lies in the region of its level is its own coefficient, any other is subdivided.
fn choose(inside: bool, own: i64, coarse: i64) -> i64
    ensures { result ≡ cond inside own coarse }
{
    if inside { own } else { coarse }
}

fn choose_row(inside: [bool; 4], own: [i64; 4], coarse: [i64; 4]) -> [i64; 4]
    ensures { ChosenRow inside own coarse result }
{
    [
        choose(inside[0], own[0], coarse[0]),
        choose(inside[1], own[1], coarse[1]),
        choose(inside[2], own[2], coarse[2]),
        choose(inside[3], own[3], coarse[3]),
    ]
}

fn choose_all(inside: [[bool; 4]; 4], own: [[i64; 4]; 4], coarse: [[i64; 4]; 4]) -> [[i64; 4]; 4]
    ensures { Chosen inside own coarse result }
{
    [
        choose_row(inside[0], own[0], coarse[0]),
        choose_row(inside[1], own[1], coarse[1]),
        choose_row(inside[2], own[2], coarse[2]),
        choose_row(inside[3], own[3], coarse[3]),
    ]
}

// The patch of level 0: its own coefficients.
pub fn coarsest(numbers: &[i64], w: usize, h: usize, u: usize, v: usize) -> [[i64; 4]; 4]
    requires { (0 < w) × (w ≤ 8) × (0 < h) × (h ≤ 8) × (u ≤ 128 * w) × (v ≤ 128 * h)
        × (length numbers.now ≡ slots w h) }
    ensures { (rows : List ℕ) → PatchAt w h rows numbers.now u v 0 result }
{
    let a = super::cell::cell_of(w, 0, u);
    let b = super::cell::cell_of(h, 0, v);
    super::own::of_level(numbers, w, h, 0, a, b)
}

// The patch of a level, from that of the level before it.
pub fn finer(
    p: [[i64; 4]; 4],
    numbers: &[i64],
    rows: &[u32; 96],
    w: usize,
    h: usize,
    level: usize,
    u: usize,
    v: usize,
) -> [[i64; 4]; 4]
    requires { (0 < w) × (w ≤ 8) × (0 < h) × (h ≤ 8) × (0 < level) × (level ≤ 3) × (u ≤ 128 * w) × (v ≤ 128 * h)
        × (length numbers.now ≡ slots w h) × Bounded 131072000 p
        × PatchAt w h rows.now numbers.now u v (level - 1) p × Nested rows.now }
    ensures { PatchAt w h rows.now numbers.now u v level result }
{
    let a = super::cell::cell_of(w, level, u);
    let b = super::cell::cell_of(h, level, v);
    let own = super::own::of_level(numbers, w, h, level, a, b);
    let inside = activity::near::near_region(rows, w, h, level, a, b);
    let coarse = patch::subdivide(p, a % 2, b % 2);
    choose_all(inside, own, coarse)
}
