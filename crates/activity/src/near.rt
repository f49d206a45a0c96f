// Which of the sixteen functions of a patch, four along u by four along v, have their cut support in the region of
// their level.
ghost use Rattle.std.specs.Prelude.{◌+◌, ◌*◌, ◌≤◌, ◌<◌};
ghost use Rattle.surface.specs.Sheet as Sheet;
ghost use Rattle.surface.specs.Sheet.{functions};
ghost use Rattle.rows.specs.Rows.{levels_of, Nested};
ghost use Rattle.activity.specs.Marks.{placed, RegionRow};
ghost use Rattle.activity.specs.Near.{NearRegion, Column};

// Whether function a is marked in each of four rows, in words that begin 16 places before the sheet.
fn column(
    m0: super::Marks,
    m1: super::Marks,
    m2: super::Marks,
    m3: super::Marks,
    a: usize,
    e: usize,
) -> [bool; 4]
    requires { (a * e ≤ 88) × (e ≤ 8) }
    ensures { Column e (placed e m0) (placed e m1) (placed e m2) (placed e m3) a result }
{
    [
        super::stands(m0.even, m0.odd, a, e),
        super::stands(m1.even, m1.odd, a, e),
        super::stands(m2.even, m2.odd, a, e),
        super::stands(m3.even, m3.odd, a, e),
    ]
}

// Row b of a level for the region of its own level, in such words.
fn row(rows: &[u32; 96], w: usize, h: usize, level: usize, b: usize) -> super::Marks
    requires { (w ≤ 8) × (h ≤ 8) × (1 ≤ level) × (level ≤ 3) × (b < functions h level) × Nested rows.now }
    ensures { RegionRow w h level b level (levels_of rows.now) (placed (Sheet.eighths level) result) }
{
    super::region_words(rows, w, level, super::window_of(h, level, b), level)
}

// Entry [k][l] is that of function (a + k, b + l) of a level from 1 on.
pub fn near_region(
    rows: &[u32; 96],
    w: usize,
    h: usize,
    level: usize,
    a: usize,
    b: usize,
) -> [[bool; 4]; 4]
    requires { (w ≤ 8) × (h ≤ 8) × (1 ≤ level) × (level ≤ 3) × (a + 3 < functions w level)
        × (b + 3 < functions h level) × Nested rows.now }
    ensures { NearRegion w h level a b (levels_of rows.now) result }
{
    let e = super::eighths(level);
    let m0 = row(rows, w, h, level, b);
    let m1 = row(rows, w, h, level, b + 1);
    let m2 = row(rows, w, h, level, b + 2);
    let m3 = row(rows, w, h, level, b + 3);
    [
        column(m0, m1, m2, m3, a, e),
        column(m0, m1, m2, m3, a + 1, e),
        column(m0, m1, m2, m3, a + 2, e),
        column(m0, m1, m2, m3, a + 3, e),
    ]
}
