// Machine words: wrapping sums and differences, products, quotients, and two's complement of any width.
#![tactic(auto)]

pub mod power_table;

ghost use Rattle.std.specs.Prelude.{◌≡◌, ◌+◌, ◌-◌, ◌*◌, ◌/◌, ◌%◌, ◌^◌, ◌<◌, ◌≤◌, if◌then◌else◌, nat_eq, nat_lt};
ghost use Rattle.words.specs.Word.{size, word, signed, widen};

// The greatest word.
pub const MAX: u64 = u64::MAX;

// The 128 bits of a product.
#[derive(Clone, Copy)]
pub struct Halves {
    pub low: u64,
    pub high: u64,
}

// The whole product.
pub fn product(u: u64, v: u64) -> Halves
    ensures { (result.low ≡ u * v % 2 ^ 64) × (result.high ≡ u * v / 2 ^ 64) }
{
    let (low, high) = u.carrying_mul(v, 0);
    Halves { low, high }
}

pub fn add(a: u64, b: u64) -> u64
    ensures { result ≡ word (a + b) }
{
    a.wrapping_add(b)
}

pub fn sub(a: u64, b: u64) -> u64
    ensures { result ≡ word (a + (size - b)) }
{
    a.wrapping_sub(b)
}

// The quotient that REMU sorts by, and that guesses use: 0 where b is 0.
pub fn quotient(a: u64, b: u64) -> u64
    ensures { result ≡ (if nat_eq b 0 then 0 else a / b) }
{
    a.checked_div(b).unwrap_or(0)
}

// 1 where a is below b, and otherwise 0.
pub fn below(a: u64, b: u64) -> u64
    ensures { result ≡ (if nat_lt a b then 1 else 0) }
{
    u64::from(a < b)
}

// The number that `width` bits hold in two's complement.
pub fn signed(width: usize, n: usize) -> i64
    requires { (1 ≤ width) × (width ≤ 32) × (n < 2 ^ width) }
    ensures { result ≡ signed width n }
{
    let half = 1usize << (width - 1);
    if n < half {
        n as i64
    } else {
        let y = half + half - 1 - n;
        -1 - y as i64
    }
}

// A signed number as a word.
pub fn widen(z: i64) -> u64
    ensures { result ≡ widen z }
{
    z.cast_unsigned()
}
