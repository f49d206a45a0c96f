// The calls that ask a region tree: the levels under a box, and the activity of a level.
#![tactic(auto)]

ghost use Rattle.std.specs.Prelude.{◌≡◌};
ghost use Rattle.surface.specs.Calls.{least_outcome, activity_outcome, SliceMeets};
ghost use Rattle.answers.specs.Answers.{least_answer, outcome_answer};

use answers::{LevelsUnder, Refusal};

// The least and the greatest level under the box with corners (u0, v0) and (u1, v1), in quarters, with the nodes
// visited.
pub fn least_level(
    w: usize,
    h: usize,
    tree: &[u8],
    u0: usize,
    v0: usize,
    u1: usize,
    v1: usize,
) -> Result<LevelsUnder, Refusal>
    ensures { least_answer result
        ≡ least_outcome w h tree.now (record { u0 = u0; v0 = v0; u1 = u1; v1 = v1 }) }
{
    let mut rows = [0u32; 96];
    table::cause::region_cause(w, h, tree, &mut rows)?;
    let b = boxes::Box { u0, v0, u1, v1 };
    table::cause::box_cause(w, h, b)?;
    let found = leastlevel::under(tree, w, h, b);
    Ok(LevelsUnder {
        least: found.least as u8,
        greatest: found.greatest as u8,
        visited: found.visited,
    })
}

// The activity of a level: one byte for each place, 1 where the function is active, else 0.
pub fn activity_of(
    w: usize,
    h: usize,
    tree: &[u8],
    level: usize,
    out: &mut [u8],
) -> Result<(), Refusal>
    ensures { SliceMeets (activity_outcome w h tree.now level out.old) (outcome_answer result)
        out.new }
{
    let mut rows = [0u32; 96];
    table::cause::region_cause(w, h, tree, &mut rows)?;
    if 3 < level {
        return Err(Refusal::Level);
    }
    if out.len() != coefficients::places(w, h, level) {
        return Err(Refusal::OutputLength);
    }
    let n = coefficients::functions(w, level);
    let m = coefficients::functions(h, level);
    activity::mark::mark_level(&rows, w, h, level, n, m, out);
    Ok(())
}
