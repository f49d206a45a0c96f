// The calls for other languages: plain numbers and slices in, the refusal number back, 0 where there is none. A slice
// passes as a pointer and a length. What a call gives beside is written through its last parameters, and nothing is
// written where it refuses. What a call writes must not overlap anything else that it is lent.
#![tactic(auto)]

mod code;
pub mod files;
pub mod grids;
pub mod windows;

ghost use Rattle.std.specs.Prelude.{◌≡◌};
ghost use Rattle.surface.specs.Table.{table_cause};
ghost use Rattle.surface.specs.Calls.{least_outcome, activity_outcome, fresh_outcome, set_outcome};
ghost use Rattle.surface.specs.Calls.{exact_outcome, display_outcome, cost_outcome};
ghost use Rattle.surface.specs.Slopes.{slopes_outcome};
ghost use Rattle.answers.specs.Codes.{code_of, NumberTold, LeastTold, lent_slip, WattsAfter, SlopesAfter};
ghost use Rattle.answers.specs.Codes.{SliceWritten, TableWritten};
ghost use Rattle.demands.specs.LinkedPromises.{KilnEnquirePromise, KilnCommitPromise, KilnExactPromise};

use answers::Slip;
use code::{code, told};

// The levels under a box: `least` receives the least and `greatest` the greatest, `visited` the number of tree nodes
// visited.
#[unsafe(no_mangle)]
pub extern "C" fn kiln_least_level(
    w: usize,
    h: usize,
    tree: &[u8],
    u0: usize,
    v0: usize,
    u1: usize,
    v1: usize,
    least: &mut u8,
    greatest: &mut u8,
    visited: &mut usize,
) -> u8
    ensures { LeastTold
        (least_outcome w h tree.now (record { u0 = u0; v0 = v0; u1 = u1; v1 = v1 })) result
        least.old least.new greatest.old greatest.new
        visited.old visited.new }
{
    match query::least_level(w, h, tree, u0, v0, u1, v1) {
        Ok(found) => {
            *least = found.least;
            *greatest = found.greatest;
            *visited = found.visited;
            0
        }
        Err(refusal) => refusal.number(),
    }
}

// The activity of a level: `out` receives one byte for each place, 1 where the function is active, else 0.
#[unsafe(no_mangle)]
pub extern "C" fn kiln_activity(w: usize, h: usize, tree: &[u8], level: usize, out: &mut [u8]) -> u8
    ensures { SliceWritten (activity_outcome w h tree.now level out.old) result
        out.new }
{
    code(query::activity_of(w, h, tree, level, out))
}

// Writes a fresh table; `tree_length` receives the tree's length.
#[unsafe(no_mangle)]
pub extern "C" fn kiln_fresh(
    w: usize,
    h: usize,
    number: i64,
    tree_out: &mut [u8],
    numbers_out: &mut [i64],
    tree_length: &mut usize,
) -> u8
    ensures { TableWritten
        (fresh_outcome w h number tree_out.old numbers_out.old) result
        tree_length.old tree_length.new
        tree_out.new numbers_out.new }
{
    told(
        edit::fresh(w, h, number, tree_out, numbers_out),
        tree_length,
    )
}

// Enquires what inserting a box at a level would give: `slip_length` receives the new tree's length, `slip_active` the
// active functions of levels 0 to 3 over the new tree, `slip_visited` the nodes that `kiln_least_level` then visits.
#[unsafe(no_mangle)]
pub extern "C" fn kiln_enquire(
    w: usize,
    h: usize,
    tree: &[u8],
    numbers: &[i64],
    u0: usize,
    v0: usize,
    u1: usize,
    v1: usize,
    level: usize,
    slip_length: &mut usize,
    slip_active: &mut [usize; 4],
    slip_visited: &mut usize,
) -> u8
    ensures { KilnEnquirePromise w h (record { tree = tree.now; numbers = numbers.now })
        (record { box = record { u0 = u0; v0 = v0; u1 = u1; v1 = v1 }; level = level }) result
        slip_length.old slip_length.new
        slip_active.old slip_active.new
        slip_visited.old slip_visited.new }
{
    match insertion::enquire(w, h, tree, numbers, u0, v0, u1, v1, level) {
        Ok(slip) => {
            *slip_length = slip.length;
            *slip_active = [slip.active0, slip.active1, slip.active2, slip.active3];
            *slip_visited = slip.visited;
            0
        }
        Err(refusal) => refusal.number(),
    }
}

// Inserts the box of a slip, which is lent as its numbers; `tree_length` receives the new tree's length.
#[unsafe(no_mangle)]
pub extern "C" fn kiln_commit(
    w: usize,
    h: usize,
    tree: &[u8],
    numbers: &[i64],
    u0: usize,
    v0: usize,
    u1: usize,
    v1: usize,
    level: usize,
    slip_length: usize,
    slip_active: &[usize; 4],
    slip_visited: usize,
    tree_out: &mut [u8],
    numbers_out: &mut [i64],
    tree_length: &mut usize,
) -> u8
    ensures { KilnCommitPromise w h (record { tree = tree.now; numbers = numbers.now })
        (record {
          slip = lent_slip (record { u0 = u0; v0 = v0; u1 = u1; v1 = v1 }) level slip_length
              slip_active.now slip_visited;
          tree_out = tree_out.old;
          numbers_out = numbers_out.old;
        }) result
        tree_length.old tree_length.new
        tree_out.new numbers_out.new }
{
    let slip = Slip {
        u0,
        v0,
        u1,
        v1,
        level,
        length: slip_length,
        active0: slip_active[0],
        active1: slip_active[1],
        active2: slip_active[2],
        active3: slip_active[3],
        visited: slip_visited,
    };
    let length = insertion::commit(w, h, tree, numbers, slip, tree_out, numbers_out);
    told(length, tree_length)
}

// Sets the coefficient of an active function of a level.
#[unsafe(no_mangle)]
pub extern "C" fn kiln_set(
    w: usize,
    h: usize,
    tree: &[u8],
    numbers: &mut [i64],
    level: usize,
    i: i64,
    j: i64,
    number: i64,
) -> u8
    ensures { SliceWritten
        (set_outcome w h tree.now numbers.old level i j number) result numbers.new }
{
    code(edit::set(w, h, tree, numbers, level, i, j, number))
}

// The lowest of causes 1 to 5 that applies to a table, 0 for an acceptable one.
#[unsafe(no_mangle)]
pub extern "C" fn kiln_table_cause(w: usize, h: usize, tree: &[u8], numbers: &[i64]) -> u8
    ensures { result ≡ table_cause w h tree.now numbers.now }
{
    code(table::cause::table_cause(w, h, tree, numbers))
}

// The exact reading: `numerator` receives its numerator over D.
#[unsafe(no_mangle)]
pub extern "C" fn kiln_exact(
    w: usize,
    h: usize,
    tree: &[u8],
    numbers: &[i64],
    u: usize,
    v: usize,
    numerator: &mut i64,
) -> u8
    ensures { KilnExactPromise w h (record { tree = tree.now; numbers = numbers.now }) u v result
        numerator.old numerator.new }
{
    told(readings::exact(w, h, tree, numbers, u, v), numerator)
}

// The reading as an f64: `watts` receives it.
#[unsafe(no_mangle)]
pub extern "C" fn kiln_watts(
    w: usize,
    h: usize,
    tree: &[u8],
    numbers: &[i64],
    u: usize,
    v: usize,
    watts: &mut f64,
) -> u8
    ensures { (result ≡ code_of (exact_outcome w h tree.now numbers.now u v))
        × WattsAfter (exact_outcome w h tree.now numbers.now u v)
        watts.old watts.new }
{
    told(readings::watts(w, h, tree, numbers, u, v), watts)
}

// The watts and both slopes: `watts`, `along_u` and `along_v` receive them.
#[unsafe(no_mangle)]
pub extern "C" fn kiln_slopes(
    w: usize,
    h: usize,
    tree: &[u8],
    numbers: &[i64],
    u: usize,
    v: usize,
    watts: &mut f64,
    along_u: &mut f64,
    along_v: &mut f64,
) -> u8
    ensures { (result ≡ code_of (slopes_outcome w h tree.now numbers.now u v))
        × SlopesAfter (slopes_outcome w h tree.now numbers.now u v)
        (record { watts = watts.old; along_u = along_u.old; along_v = along_v.old })
        (record { watts = watts.new; along_u = along_u.new; along_v = along_v.new }) }
{
    match readings::slopes(w, h, tree, numbers, u, v) {
        Ok(x) => {
            *watts = x.watts;
            *along_u = x.along_u;
            *along_v = x.along_v;
            0
        }
        Err(refusal) => refusal.number(),
    }
}

// The display: `watts` receives whole watts.
#[unsafe(no_mangle)]
pub extern "C" fn kiln_display(
    w: usize,
    h: usize,
    tree: &[u8],
    numbers: &[i64],
    u: usize,
    v: usize,
    watts: &mut i64,
) -> u8
    ensures { NumberTold (display_outcome w h tree.now numbers.now u v) result
        watts.old watts.new }
{
    told(readings::display(w, h, tree, numbers, u, v), watts)
}

// The cost per hour: `cost` receives hundredths of a cent.
#[unsafe(no_mangle)]
pub extern "C" fn kiln_cost(
    w: usize,
    h: usize,
    tree: &[u8],
    numbers: &[i64],
    u: usize,
    v: usize,
    tariff: usize,
    cost: &mut usize,
) -> u8
    ensures { NumberTold (cost_outcome w h tree.now numbers.now u v tariff) result
        cost.old cost.new }
{
    told(readings::cost(w, h, tree, numbers, u, v, tariff), cost)
}
