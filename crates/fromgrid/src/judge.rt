// A grid judged in byte order.
ghost use Rattle.std.specs.Prelude.{◌≤◌, length};
ghost use Rattle.fromgrid.specs.Converts.{GridJudged, NumbersJudged};

use answers::{Refusal, Sheet};

// Where the field of the numbers stands; its body follows a head.
const NUMBERS_FIELD: usize = 5;

pub const NUMBERS: usize = 8;

// The tag of the numbers, and their limit.
const NUMBERS_TAG: u8 = 19;

const MOST: usize = 8388608000;

// The field of the numbers of a sheet with these sides, and that nothing follows it.
fn numbers_judge(file: &[u8], w: usize, h: usize) -> Result<(), Refusal>
    requires { (w ≤ 8) × (h ≤ 8) × (5 ≤ length file.now) }
    ensures { NumbersJudged result file.now w h }
{
    let count = coefficients::places(w, h, 3);
    let n = fields::number::SIZE * count;
    let end = fields::field_at(file, NUMBERS_FIELD, NUMBERS_TAG, n, n)?;
    if !fields::number::within(&file[NUMBERS..end], count, MOST) {
        return Err(Refusal::CoefficientLimit);
    }
    if end < file.len() {
        return Err(Refusal::FileGoesOn);
    }
    Ok(())
}

// The fields of the sides and of the numbers: the sides, or what is faulty in them.
pub fn judge(file: &[u8]) -> Result<Sheet, Refusal>
    ensures { GridJudged result file.now }
{
    let sides = judging::sides_judge(file)?;
    numbers_judge(file, sides.w, sides.h)?;
    Ok(sides)
}
