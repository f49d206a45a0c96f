// The call that writes the grid of a table, "sheet, then every level 3 coefficient": the table is checked, then the
// carried values of level 3 are put in order.
#![tactic(auto)]

mod strip;

ghost use Rattle.std.specs.Prelude.{◌≡◌, ◌+◌, ◌≤◌, ◌<◌, length};
ghost use Rattle.surface.specs.Grid.{grid_file};
ghost use Rattle.demands.specs.GridPromises.{WriteGridPromise};
ghost use Rattle.fields.specs.Put.{Put};
ghost use Rattle.togrid.specs.Strips.{Checked, numbers_bytes, grid_by};

use answers::Refusal;

// "tags 1 and 19 only": that of the numbers.
const GRID_TAG: u8 = 19;

// Puts the numbers of the grid at a position, strip by strip: eight rows each, the last one the three past them too.
fn put_body(
    numbers: &[i64],
    rows: &[u32; 96],
    w: usize,
    h: usize,
    out: &mut [u8],
    at: usize,
) -> usize
    requires { Checked w h rows.now numbers.now × (0 < h)
        × (at + length (numbers_bytes (grid_by w h rows.now numbers.now)) ≤ length out.old) }
    ensures { Put (numbers_bytes (grid_by w h rows.now numbers.now)) at out.old
        result out.new }
{
    let last = h - 1;
    let mut to = at;
    for y in 0..last {
        to = strip::put_strip(numbers, rows, w, h, y, 8, out, to);
    }
    strip::put_strip(numbers, rows, w, h, last, 11, out, to)
}

// Puts the grid with so many bytes of numbers at the front of a buffer that holds it.
fn put_grid(
    numbers: &[i64],
    rows: &[u32; 96],
    w: usize,
    h: usize,
    size: usize,
    out: &mut [u8],
) -> usize
    requires { Checked w h rows.now numbers.now × (0 < h)
        × (size ≡ length (numbers_bytes (grid_by w h rows.now numbers.now))) × (8 + size ≤ length out.old) }
    ensures { Put (grid_file w h (grid_by w h rows.now numbers.now)) 0 out.old
        result out.new }
{
    let field = tablefile::put_sides(w, h, out);
    let body = fields::put_head(GRID_TAG, size, out, field);
    put_body(numbers, rows, w, h, out, body)
}

// Writes the grid of a table to a buffer and returns its length, or refuses and writes nothing.
pub fn write_grid(
    w: usize,
    h: usize,
    tree: &[u8],
    numbers: &[i64],
    grid_out: &mut [u8],
) -> Result<usize, Refusal>
    ensures { WriteGridPromise w h (record { tree = tree.now; numbers = numbers.now })
        grid_out.old result grid_out.new }
{
    let mut rows = [0u32; 96];
    table::cause::check(w, h, tree, numbers, &mut rows)?;
    let size = fields::number::SIZE * coefficients::places(w, h, 3);
    let length = 2 * fields::HEAD + tablefile::SIDES + size;
    if grid_out.len() < length {
        return Err(Refusal::FileOutputShort);
    }
    put_grid(numbers, &rows, w, h, size, grid_out);
    Ok(length)
}
