// Texts and numbers on a lent slice: each function writes from `at` on, as far as it fits, and answers where the next byte goes.
ghost use Rattle.std.specs.Prelude.{◌≡◌};
ghost use Rattle.printing.specs.Printed.{digits, field, range};
ghost use Rattle.printing.specs.Working.Writing.{output, push, Writes};

// One byte.
fn put_byte(out: &mut [u8], at: usize, b: u8) -> usize
    ensures { output out.new result ≡ push (output out.old at) b }
{
    if at < out.len() {
        out[at] = b;
        return at + 1;
    }
    at
}

// A text, as far as it fits.
pub fn put_text(out: &mut [u8], at: usize, text: &[u8]) -> usize
    ensures { Writes out at result text.now }
{
    if out.len() <= at {
        return at;
    }
    let n = text.len().min(out.len() - at);
    out[at..at + n].copy_from_slice(&text[..n]);
    at + n
}

// A number in base ten: at most 20 calls deep, since MAX has 20 digits.
fn put_digits(out: &mut [u8], at: usize, n: u64) -> usize
    ensures { Writes out at result (digits n) }
{
    if n < 10 {
        return put_byte(out, at, b'0' + n as u8);
    }
    let p = put_digits(out, at, n / 10);
    put_byte(out, p, b'0' + (n % 10) as u8)
}

// A name and a number.
pub(crate) fn put_field(out: &mut [u8], at: usize, name: &[u8], n: u64) -> usize
    ensures { Writes out at result (field name.now n) }
{
    let p = put_text(out, at, name);
    put_digits(out, p, n)
}

// A name and an interval.
pub(crate) fn put_range(out: &mut [u8], at: usize, name: &[u8], low: u64, high: u64) -> usize
    ensures { Writes out at result (range name.now low high) }
{
    let p = put_field(out, at, name, low);
    put_field(out, p, b"..", high)
}
