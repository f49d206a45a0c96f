// Regions as rows of bits: for each of the levels 1 to 3 a word of 32 bits for each row of quarter squares, bit q of
// word 32 l + r for quarter square (q, r) and level l + 1.
#![tactic(auto)]

ghost use Rattle.std.specs.Prelude.{◌≡◌, true, false, cond, ℕ, ◌+◌, ◌≤◌, ◌<◌, length};
ghost use Rattle.finite.specs.Bits.{bit};
ghost use Rattle.rows.specs.Rows.{in_span, levels_of, NoneIn, Masked, Raised};

// A word with the n bits from x on set.
pub fn span(x: usize, n: usize) -> u32
    requires { (1 ≤ n) × (x + n ≤ 32) }
    ensures { (q : ℕ) → q < 32 → bit result q ≡ cond (in_span x n q) 1 0 }
{
    (4294967295u32 >> (32 - n)) << x
}

// The level of quarter square (q, r).
pub fn level_at(rows: &[u32; 96], q: usize, r: usize) -> u8
    requires { (q < 32) × (r < 32) }
    ensures { result ≡ levels_of rows.now q r }
{
    let a = (rows[r] >> q) % 2;
    let b = (rows[32 + r] >> q) % 2;
    let c = (rows[64 + r] >> q) % 2;
    (a + b + c) as u8
}

// Whether no quarter square of the square of this side with low corner (x, y) lies in the region of level l + 1.
pub fn none_in(rows: &[u32; 96], l: usize, x: usize, y: usize, side: usize) -> bool
    requires { (l < 3) × (1 ≤ side) × (x + side ≤ 32) × (y + side ≤ 32) }
    ensures { (result ≡ true → NoneIn l x y side side rows.now)
        × (result ≡ false → ¬ (NoneIn l x y side side rows.now)) }
{
    let mask = span(x, side);
    let first = l * 32 + y;
    rows[first..first + side]
        .iter()
        .all(|word| *word & mask == 0)
}

// Sets the bits of a mask in n words from a place on.
pub fn set_bits(rows: &mut [u32; 96], from: usize, n: usize, mask: u32)
    requires { (from + n ≤ 96) × (length rows.old ≡ 96) }
    ensures { Masked (in_span from n) mask rows.old rows.new }
{
    for word in &mut rows[from..from + n] {
        *word |= mask;
    }
}

// Raises the square of this side with low corner (x, y) to a level.
pub fn raise_square(rows: &mut [u32; 96], x: usize, y: usize, side: usize, level: usize)
    requires { (1 ≤ side) × (x + side ≤ 32) × (y + side ≤ 32) × (level ≤ 3) × (length rows.old ≡ 96) }
    ensures { Raised x y side (λ _ _. level) rows.old rows.new }
{
    let mask = span(x, side);
    for l in 0..level {
        set_bits(rows, l * 32 + y, side, mask);
    }
}
