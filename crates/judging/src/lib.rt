// The judgement of a file in byte order, part by part. Nothing is written but the rows of the regions.
#![tactic(auto)]

ghost use Rattle.std.specs.Prelude.{◌≡◌, ℕ, ◌≤◌, ◌<◌, length, get_or, drop};
ghost use Rattle.surface.specs.Support.{active_count};
ghost use Rattle.surface.specs.TableFile.{counts_agree, counts_field, level_field, level_fields};
ghost use Rattle.activity.specs.Counts.{Counted};
ghost use Rattle.answers.specs.Refusals.{cause_of};
ghost use Rattle.judging.specs.Judged.{tree_judged, sides_judged, head_judged, count_of, inside, judged_as};
ghost use Rattle.judging.specs.Judged.{note_judged, EndJudged};

use answers::Refusal;

// The field of the tree, on a sheet with these sides, and the rows of its regions.
fn tree_judge(file: &[u8], w: usize, h: usize, rows: &mut [u32; 96]) -> Result<usize, Refusal>
    requires { (w ≤ 8) × (h ≤ 8) × (5 ≤ length file.now) }
    ensures { tree_judged result file.now w h rows.new }
{
    let end = fields::field_at(
        file,
        tablefile::TREE_FIELD,
        tablefile::TREE_TAG,
        1,
        tablefile::LONGEST_TREE,
    )?;
    if !quadtree::walk::regions(&file[tablefile::TREE..end], w, h, rows) {
        return Err(Refusal::Tree);
    }
    Ok(end)
}

// The field of the sides, at the front of a file and of a grid: the sides in it.
pub fn sides_judge(file: &[u8]) -> Result<answers::Sheet, Refusal>
    ensures { sides_judged result file.now }
{
    let n = tablefile::SIDES;
    fields::field_at(file, 0, tablefile::SIDES_TAG, n, n)?;
    let w = file[tablefile::W] as usize;
    let h = file[tablefile::H] as usize;
    if !coefficients::good_sides(w, h) {
        return Err(Refusal::Side);
    }
    Ok(answers::Sheet { w, h })
}

// The fields of the sides and of the tree, and the position after them.
pub fn head_judge(file: &[u8], rows: &mut [u32; 96]) -> Result<usize, Refusal>
    ensures { head_judged result file.now rows.new }
{
    let sides = sides_judge(file)?;
    tree_judge(file, sides.w, sides.h, rows)
}

// Whether the counts in a body are those found.
fn counts_agree(body: &[u8], counts: [usize; 4]) -> bool
    requires { length body.now ≡ 8 }
    ensures { result ≡ counts_agree (count_of counts) body.now }
{
    for (level, count) in counts.iter().enumerate() {
        if fields::two_bytes(body, 2 * level) != *count {
            return false;
        }
    }
    true
}

// The field of the counts, given those of the tree, and the position after it; the position itself where it is lacking.
pub fn counts_judge(file: &[u8], at: usize, counts: [usize; 4]) -> Result<usize, Refusal>
    requires { at ≤ length file.now }
    ensures { judged_as result file.now (counts_field (count_of counts) (drop at file.now)) }
{
    if at == file.len() {
        return Ok(at);
    }
    if file[at] != tablefile::COUNTS_TAG {
        return Ok(at);
    }
    let n = tablefile::COUNTS;
    let end = fields::field_at(file, at, tablefile::COUNTS_TAG, n, n)?;
    let body = at + fields::HEAD;
    if !counts_agree(&file[body..end], counts) {
        return Err(Refusal::FileCount);
    }
    Ok(end)
}

// The field of a level that has so many active functions, and the coefficients in it.
fn level_judge(file: &[u8], at: usize, count: usize, level: usize) -> Result<usize, Refusal>
    requires { (level ≤ 3) × (at ≤ length file.now) × (count ≤ 4489) }
    ensures { inside result file.now
        × ((W H : ℕ) (lev : ℕ → ℕ → ℕ) → count ≡ active_count W H lev level
        → judged_as result file.now (level_field W H lev level (drop at file.now))) }
{
    let n = fields::number::SIZE * count;
    let end = fields::field_at(file, at, tablefile::LEVEL_TAG + level as u8, n, n)?;
    let body = at + fields::HEAD;
    let most = coefficients::limit(level) as usize;
    if !fields::number::within(&file[body..end], count, most) {
        return Err(Refusal::CoefficientLimit);
    }
    Ok(end)
}

// The fields of the levels from a position on, given their active functions, and the position after them.
pub fn levels_judge(file: &[u8], from: usize, counts: [usize; 4]) -> Result<usize, Refusal>
    requires { (from ≤ length file.now) × ((L : ℕ) → L < 4 → get_or counts L 0 ≤ 4489) }
    ensures { (W H : ℕ) (lev : ℕ → ℕ → ℕ) → Counted W H lev counts
        → judged_as result file.now (level_fields W H lev 4 (drop from file.now)) }
{
    let mut at = from;
    for (level, count) in counts.iter().enumerate() {
        at = level_judge(file, at, *count, level)?;
    }
    Ok(at)
}

// The field of the note and the position after it; the position itself where another byte stands, or none.
fn note_judge(file: &[u8], at: usize) -> Result<usize, Refusal>
    requires { at ≤ length file.now }
    ensures { note_judged result file.now at }
{
    if at == file.len() {
        return Ok(at);
    }
    if file[at] != tablefile::NOTE_TAG {
        return Ok(at);
    }
    fields::field_at(file, at, tablefile::NOTE_TAG, 0, tablefile::LONGEST_NOTE)
}

// The cause of what follows the levels, from a position on; none where it is a note or nothing.
pub fn end_cause(file: &[u8], at: usize) -> Result<(), Refusal>
    requires { at ≤ length file.now }
    ensures { EndJudged (cause_of result) file.now at }
{
    let end = note_judge(file, at)?;
    if end < file.len() {
        return Err(Refusal::FileGoesOn);
    }
    Ok(())
}
