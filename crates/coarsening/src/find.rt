// Which cells of a level have a quarter square of that level or a coarser one in them.
ghost use Rattle.std.specs.Prelude.{◌≡◌, ◌+◌, ◌*◌, ◌≤◌, ◌<◌};
ghost use Rattle.rows.specs.Rows.{levels_of};
ghost use Rattle.coarsening.specs.Coarser.{cell_at, side_at, Found};

// A quarter square, by its quarters along u and along v.
#[derive(Clone, Copy)]
pub struct Square {
    pub q: usize,
    pub r: usize,
}

// The cell of a level that a quarter lies in, at level 3 the first of the two in it.
pub fn cell_at(level: usize, q: usize) -> usize
    requires { (level ≤ 3) × (q < 32) }
    ensures { (result ≡ cell_at level q) × (result < 64) }
{
    match level {
        0 => q / 4,
        1 => q / 2,
        2 => q,
        _ => 2 * q,
    }
}

// The quarters along a cell's side, up to level 2.
fn side_at(level: usize) -> usize
    requires { level ≤ 2 }
    ensures { result ≡ side_at level }
{
    match level {
        0 => 4,
        1 => 2,
        _ => 1,
    }
}

// The first quarter square of at most a level in cell (x, y) of that level.
pub fn find(rows: &[u32; 96], level: usize, x: usize, y: usize) -> Option<Square>
    requires { (level ≤ 2) × ((x + 1) * side_at level ≤ 32) × ((y + 1) * side_at level ≤ 32) }
    ensures { Found level x y (levels_of rows.now) result }
{
    let side = side_at(level);
    let most = level as u8;
    for r in y * side..(y + 1) * side {
        for q in x * side..(x + 1) * side {
            if rows::level_at(rows, q, r) <= most {
                return Some(Square { q, r });
            }
        }
    }
    None
}
