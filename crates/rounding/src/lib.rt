// Whole watts and cost from the exact reading, by floor division.
#![tactic(auto)]

ghost use Rattle.std.specs.Prelude.{◌≡◌, ◌≤◌, nat_abs};
ghost use Rattle.surface.specs.Calls.{whole_watts, cost_of};

// D, the denominator of the exact readings: 36 × 2^42.
const DENOMINATOR: i64 = 158329674399744;

const HALF: i64 = DENOMINATOR / 2;

// D again, for numbers that are not below zero, and half of 1,000 × D.
const UNSIGNED_DENOMINATOR: usize = DENOMINATOR as usize;

const HALF_OF_THOUSAND_D: usize = 500 * UNSIGNED_DENOMINATOR;

// The exact watts n/D to the nearest whole number, halves upward, also below zero.
pub fn whole_watts(n: i64) -> i64
    ensures { (result ≡ whole_watts n) × (nat_abs result ≤ 60000) }
{
    let floor = n.div_euclid(DENOMINATOR);
    let left = n.rem_euclid(DENOMINATOR);
    if left < HALF { floor } else { floor + 1 }
}

// Cost per hour in hundredths of a cent, of n/D watts: n × tariff over 1,000 × D to the nearest whole number, halves
// upward. 64 bits do not hold that product, so n goes by its quotient over D and by what is left over.
pub fn cost_of(n: i64, tariff: usize) -> usize
    requires { tariff ≤ 99999 }
    ensures { result ≡ cost_of n tariff }
{
    if n < 0 {
        return 0;
    }
    let numerator = n as usize;
    let quotient = numerator / UNSIGNED_DENOMINATOR;
    let left = numerator % UNSIGNED_DENOMINATOR;
    (quotient * tariff + (left * tariff + HALF_OF_THOUSAND_D) / UNSIGNED_DENOMINATOR) / 1000
}
