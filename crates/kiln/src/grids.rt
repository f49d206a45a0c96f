// The calls of the full-grid dialect for other languages.
ghost use Rattle.demands.specs.GridPromises.{KilnWriteGridPromise, KilnReadGridPromise};

// Writes the grid of a table; `length` receives the grid's length.
#[unsafe(no_mangle)]
pub extern "C" fn kiln_write_grid(
    w: usize,
    h: usize,
    tree: &[u8],
    numbers: &[i64],
    grid_out: &mut [u8],
    length: &mut usize,
) -> u8
    ensures { KilnWriteGridPromise w h (record { tree = tree.now; numbers = numbers.now })
        grid_out.old result length.old length.new grid_out.new }
{
    super::code::told(togrid::write_grid(w, h, tree, numbers, grid_out), length)
}

// Converts a grid over a tree to the coefficients of a table; `w` and `h` receive the sides.
#[unsafe(no_mangle)]
pub extern "C" fn kiln_read_grid(
    grid: &[u8],
    tree: &[u8],
    numbers_out: &mut [i64],
    w: &mut usize,
    h: &mut usize,
) -> u8
    ensures { KilnReadGridPromise grid.now tree.now numbers_out.old result
        w.old w.new h.old h.new numbers_out.new }
{
    match fromgrid::read_grid(grid, tree, numbers_out) {
        Ok(sheet) => {
            *w = sheet.w;
            *h = sheet.h;
            0
        }
        Err(refusal) => refusal.number(),
    }
}
