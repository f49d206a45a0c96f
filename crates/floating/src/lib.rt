// Watts and slopes as f64s, from the exact reading and the exact slopes.
#![tactic(auto)]

ghost use Rattle.std.specs.Prelude.{◌^◌};
ghost use Rattle.surface.specs.Truncation.{D};
ghost use Rattle.surface.specs.FloatReading.{Near};
ghost use Rattle.surface.specs.Slopes.{slope_d};

// The f64 nearest to n, over D = 36 × 2^42, which an f64 holds exactly.
pub fn watts(n: i64) -> f64
    ensures { Near (2 ^ 30) D n result }
{
    std::num::nearest_i64_to_f64(n) / 158329674399744.0
}

// The same over D/16: n/D watts per step are n/(D/16) watts per eighth of a cell, which is 16 steps.
pub fn slope(n: i64) -> f64
    ensures { Near (2 ^ 20) slope_d n result }
{
    std::num::nearest_i64_to_f64(n) / 9895604649984.0
}
