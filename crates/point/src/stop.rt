// Where a reading stops subdividing: at the level of the quarter square that holds its point.
ghost use Rattle.std.specs.Prelude.{◌≡◌, ◌*◌, ◌≤◌, ◌<◌};
ghost use Rattle.surface.specs.Patch.{stop_level};
ghost use Rattle.rows.specs.Rows.{levels_of};
ghost use Rattle.point.specs.OfTable.{OfTable};
ghost use Rattle.point.specs.Patches.{PatchAt};

// The level of the quarter square that holds the point (u, v), at which its reading stops.
pub fn level_of(rows: &[u32; 96], w: usize, h: usize, u: usize, v: usize) -> usize
    requires { (0 < w) × (w ≤ 8) × (0 < h) × (h ≤ 8) }
    ensures { (result ≡ stop_level w h (levels_of rows.now) u v) × (result ≤ 3) }
{
    let q = boxes::quarter_of(w, u);
    let r = boxes::quarter_of(h, v);
    rows::level_at(rows, q, r) as usize
}

// The patch of that level, subdivided from level 0 on.
pub fn patch_of(
    numbers: &[i64],
    rows: &[u32; 96],
    w: usize,
    h: usize,
    u: usize,
    v: usize,
    stop: usize,
) -> [[i64; 4]; 4]
    requires { (u ≤ 128 * w) × (v ≤ 128 * h) × OfTable w h rows.now numbers.now
        × (stop ≡ stop_level w h (levels_of rows.now) u v) }
    ensures { PatchAt w h rows.now numbers.now u v
        (stop_level w h (levels_of rows.now) u v) result }
{
    let mut patch = super::step::coarsest(numbers, w, h, u, v);
    for level in 1..=stop {
        let next = super::step::finer(patch, numbers, rows, w, h, level, u, v);
        patch = next;
    }
    patch
}
