// Which functions of a level are active, from the regions as rows of bits, a row of functions at a time: the words of
// the quarter rows under a row's supports are taken together, then runs of set bits along u are found.
#![tactic(auto)]

pub mod count;
pub mod mark;
pub mod near;

ghost use Rattle.std.specs.Prelude.{◌≡◌, ℕ, ◌+◌, ◌*◌, ◌≤◌, ◌<◌};
ghost use Rattle.surface.specs.Sheet.{functions};
ghost use Rattle.surface.specs.Sheet as Sheet;
ghost use Rattle.rows.specs.Rows.{levels_of, Nested};
ghost use Rattle.activity.specs.Marks.{Common, PaddedTo, Runs, From, marked, placed};
ghost use Rattle.activity.specs.Marks.{RegionRow, ActiveRow, Without};
ghost use Rattle.activity.specs.Over.{Over};

// The side of a level's cells in eighths of a level 0 cell.
pub fn eighths(level: usize) -> usize
    requires { level ≤ 3 }
    ensures { result ≡ Sheet.eighths level }
{
    8 >> level
}

// The quarters under a cut support along one side, from low to before high.
#[derive(Clone, Copy)]
pub struct Window {
    pub low: usize,
    pub high: usize,
}

// The window of the function with index a of a level, along a side of n cells.
pub fn window_of(n: usize, level: usize, a: usize) -> Window
    requires { (n ≤ 8) × (level ≤ 3) × (a < 67) }
    ensures { Over n level a result }
{
    let e = eighths(level);
    let at = a * e;
    let before = 3 * e;
    let low = at.saturating_sub(before);
    let high = (at + e).min(8 * n);
    Window {
        low: low / 2,
        high: (high + 1) / 2,
    }
}

// Marks of the functions of one row of a level, from one function on: this one, every other after it, and those
// between, in a word each. Marks in a word stand as many places apart as a cell's side has eighths.
#[derive(Clone, Copy)]
pub struct Marks {
    pub even: u64,
    pub odd: u64,
}

// The marks from the next function on, where a cell's side is e eighths.
pub fn next(m: Marks, e: usize) -> Marks
    requires { e ≤ 8 }
    ensures { From e 1 m result }
{
    Marks {
        even: m.odd,
        odd: m.even >> e,
    }
}

// Whether function a is marked, where a cell's side is e eighths.
pub fn is_marked(m: Marks, a: usize, e: usize) -> bool
    requires { (a * e ≤ 88) × (e ≤ 8) }
    ensures { result ≡ marked e m a }
{
    let word = if a % 2 == 0 { m.even } else { m.odd };
    1 <= (word >> (a / 2 * e)) % 2
}

// The bits that are set in all words from .. to.
fn common(rows: &[u32; 96], from: usize, to: usize) -> u32
    requires { (from ≤ to) × (to ≤ 96) }
    ensures { Common rows.now from to result }
{
    let mut word = u32::MAX;
    for row in &rows[from..to] {
        word &= *row;
    }
    word
}

// A row of quarters with 16 places before it; those and the places past the sheet's edge are set, since "its support
// is cut to the sheet".
fn padded(word: u32, w: usize) -> u64
    requires { w ≤ 8 }
    ensures { PaddedTo w word result }
{
    let sheet = (u32::MAX as u64) >> (32 - 4 * w);
    (word as u64 * 65536) | !(sheet * 65536)
}

// Bit k of the result is set where the 2 e bits from k on are, e the eighths of a level's cell: runs of 2 bits at
// level 3, and of twice as many for each coarser level.
fn runs(word: u64, level: usize) -> u64
    requires { level ≤ 3 }
    ensures { Runs word (2 * Sheet.eighths level) result }
{
    let two = word & (word >> 1);
    if level == 3 {
        return two;
    }
    let four = two & (two >> 2);
    if level == 2 {
        return four;
    }
    let eight = four & (four >> 4);
    if level == 1 {
        return eight;
    }
    eight & (eight >> 8)
}

// Of the row of a level whose supports lie over a window, the functions whose cut support lies in the region of a level
// from 1 to 3, in words that begin 16 places before the sheet.
fn region_words(rows: &[u32; 96], w: usize, level: usize, window: Window, region: usize) -> Marks
    requires { (w ≤ 8) × (level ≤ 3) × (window.low ≤ window.high) × (window.high ≤ 32) × (1 ≤ region)
        × (region ≤ 3) × Nested rows.now }
    ensures { (H b : ℕ) → H ≤ 8 → Over H level b window
        → RegionRow w H level b region (levels_of rows.now) (placed (Sheet.eighths level) result) }
{
    let first = 32 * region - 32;
    let low = first + window.low;
    let high = first + window.high;
    let word = common(rows, low, high);
    let odd = runs(padded(word, w), level);
    // Every other support of level 3 halves two quarters and so covers three: two runs of two.
    let even = if level == 3 { odd & (odd >> 1) } else { odd };
    Marks { even, odd }
}

// Whether function a is marked in such words, which stand otherwise than those of `is_marked`; they are passed apart,
// since a choice between fields would go through memory.
fn stands(even: u64, odd: u64, a: usize, e: usize) -> bool
    requires { (a * e ≤ 88) × (e ≤ 8) }
    ensures { result ≡ marked e (placed e (record { even = even; odd = odd })) a }
{
    let word = if a % 2 == 0 { even } else { odd };
    let place = (32 + a * e - 3 * e) / 2;
    1 <= (word >> place) % 2
}

// Such words from functions 0 and 1 on, whose supports start 3 and 2 cells before the sheet.
fn place(m: Marks, level: usize) -> Marks
    requires { level ≤ 3 }
    ensures { result ≡ placed (Sheet.eighths level) m }
{
    let e = eighths(level);
    Marks {
        even: m.even >> ((32 - 3 * e) / 2),
        odd: m.odd >> (16 - e),
    }
}

// Of row b of a level, the functions whose cut support lies in the region of a level from 1 to 3.
pub fn region_row(
    rows: &[u32; 96],
    w: usize,
    h: usize,
    level: usize,
    b: usize,
    region: usize,
) -> Marks
    requires { (w ≤ 8) × (h ≤ 8) × (level ≤ 3) × (b < functions h level) × (1 ≤ region) × (region ≤ 3)
        × Nested rows.now }
    ensures { RegionRow w h level b region (levels_of rows.now) result }
{
    let window = window_of(h, level, b);
    place(region_words(rows, w, level, window, region), level)
}

// The bits of a word that are not set in another.
fn without(word: u64, other: u64) -> u64
    ensures { Without word other result }
{
    word & !other
}

// Of such a row the functions whose cut support lies in the region of a level, in such words: of level 0 all, past
// level 3 none.
fn in_region(rows: &[u32; 96], w: usize, level: usize, window: Window, region: usize) -> Marks
    requires { (w ≤ 8) × (level ≤ 3) × (window.low ≤ window.high) × (window.high ≤ 32) × (region ≤ 4)
        × Nested rows.now }
    ensures { (H b : ℕ) → H ≤ 8 → Over H level b window
        → RegionRow w H level b region (levels_of rows.now) (placed (Sheet.eighths level) result) }
{
    match region {
        0 => Marks {
            even: u64::MAX,
            odd: u64::MAX,
        },
        4 => Marks { even: 0, odd: 0 },
        _ => region_words(rows, w, level, window, region),
    }
}

// The active functions of row b of a level.
pub fn active_row(rows: &[u32; 96], w: usize, h: usize, level: usize, b: usize) -> Marks
    requires { (w ≤ 8) × (h ≤ 8) × (level ≤ 3) × (b < functions h level) × Nested rows.now }
    ensures { ActiveRow w h level b (levels_of rows.now) result }
{
    let window = window_of(h, level, b);
    let own = in_region(rows, w, level, window, level);
    let finer = in_region(rows, w, level, window, level + 1);
    let active = Marks {
        even: without(own.even, finer.even),
        odd: without(own.odd, finer.odd),
    };
    place(active, level)
}
