// Guesses at where a class changes, from the two corners alone. Any guess is right: a good one makes the cut two probes, or four.
ghost use Rattle.std.specs.Prelude.{◌<◌, ◌^◌};

use listing::{Operand, Sorting, sorting_of};
use riscu::plain::Registers;
use riscu::{Instruction, Operation};
use words::{add, product, quotient, sub};

// Where the last value of a class or the next may stand: for an operand that is a quotient or a straight line of the input, and for
// one that is the input over a whole number or times one, rounded down.
#[derive(Clone, Copy)]
pub struct Guesses {
    pub line: u64,
    pub rounded: u64,
}

// An operand that is open beside a fixed one: its values at the two corners, the other's value, and whether it is the first.
#[derive(Clone, Copy)]
struct Open {
    low: u64,
    high: u64,
    other: u64,
    is_first: bool,
}

// An operand that goes by its width while the input goes from lo to hi.
#[derive(Clone, Copy)]
struct Rise {
    width: u64,
    lo: u64,
    hi: u64,
}

// The open one of two operands.
fn open_of(first: Operand, second: Operand, low: &Registers, high: &Registers) -> Open {
    let (a, a_high) = (first.value(low), first.value(high));
    let (b, b_high) = (second.value(low), second.value(high));
    if a == a_high {
        Open {
            low: b,
            high: b_high,
            other: a,
            is_first: false,
        }
    } else {
        Open {
            low: a,
            high: a_high,
            other: b,
            is_first: true,
        }
    }
}

impl Open {
    // The least value of the upper class of two.
    fn border(self, op: Operation) -> u64 {
        let top = self.low.max(self.high);
        match op {
            Operation::Add => sub(0, self.other),
            Operation::Mul => sub(top, quotient(product(top, self.other).low, self.other)),
            Operation::Remu => product(quotient(top, self.other), self.other).low,
            _ => if self.is_first {
                self.other
            } else {
                add(self.other, 1)
            },
        }
    }

    // The same for a branch, where equal is a class of its own.
    fn branch_border(self) -> u64 {
        let reaches = if self.low < self.high {
            self.low < self.other
        } else {
            self.low <= self.other
        };
        if reaches {
            self.other
        } else {
            add(self.other, 1)
        }
    }

    // Where the operand passes its border. Where it falls, nothing tells of a rounding.
    fn placed(self, border: u64, lo: u64, hi: u64) -> Guesses {
        let width = self.low.abs_diff(self.high);
        let rise = Rise { width, lo, hi };
        if self.low < self.high {
            Guesses {
                line: rise.reached(sub(border, self.low)),
                rounded: rounded(border, width, sub(hi, lo)),
            }
        } else {
            let line = rise.reached(add(sub(self.low, border), 1));
            Guesses {
                line,
                rounded: line,
            }
        }
    }
}

// 128 bits divided by a word greater than the high half: long division, where each bit of the quotient takes the place of one of the
// low half. A u128 divides by a function of the compiler's runtime, which the archive for C does not have.
fn wide_quotient(high: u64, low: u64, c: u64) -> u64 {
    if high == 0 {
        return quotient(low, c);
    }
    let mut rest = high;
    let mut bits = low;
    for _ in 0..64 {
        let carried = rest >> 63;
        rest = add(add(rest, rest), bits >> 63);
        bits = add(bits, bits);
        if carried == 1 || c <= rest {
            rest = sub(rest, c);
            bits = add(bits, 1);
        }
    }
    bits
}

fn is_multiple(x: u64, c: u64) -> bool {
    product(quotient(x, c), c).low == x
}

// Whether lo begins a quotient by c, and hi ends one.
fn is_whole(c: u64, lo: u64, hi: u64) -> bool {
    is_multiple(lo, c) && is_multiple(add(hi, 1), c)
}

impl Rise {
    // Whether the quotients of lo and hi by c are as far apart as the width.
    fn fits(self, c: u64) -> bool {
        sub(quotient(self.hi, c), quotient(self.lo, c)) == self.width
    }

    // The number by which the input is divided, if the operand is its quotient plus or minus a constant; 1 also if it is the input
    // rounded down.
    fn divisor(self) -> Option<u64> {
        let Rise { width, lo, hi } = self;
        let input = sub(hi, lo);
        // where lo begins a quotient and hi ends one, each quotient has so many inputs
        let stay = add(quotient(sub(input, width), add(width, 1)), 1);
        if self.fits(stay) && is_whole(stay, lo, hi) {
            return Some(stay);
        }
        // any other divisor is near the ratio of the widths
        let c = quotient(input, width);
        if self.fits(c) {
            return Some(c);
        }
        if self.fits(add(c, 1)) {
            return Some(add(c, 1));
        }
        // where lo begins a step and hi ends one, the input rounded down has steps of this size
        if is_whole(sub(add(input, 1), width), lo, hi) {
            Some(1)
        } else {
            None
        }
    }

    // Where an operand has gone so far: a quotient, or else a straight line.
    fn reached(self, far: u64) -> u64 {
        match self.divisor() {
            Some(c) => product(add(quotient(self.lo, c), far), c).low,
            None => {
                let p = product(far, sub(self.hi, self.lo));
                add(self.lo, wide_quotient(p.high, p.low, self.width))
            }
        }
    }
}

// How often a width goes into a wider one, to the nearest number.
fn ratio(wide: u64, width: u64) -> u64 {
    add(quotient(add(sub(wide, width), width / 2), width), 1)
}

// Where an operand that rises by its width, while the input rises by another, reaches a border that is one of its values, if it is
// the input over a whole number or times one, rounded down: where it would without the rounding.
fn rounded(border: u64, width: u64, input: u64) -> u64 {
    if width < input {
        product(border, ratio(input, width)).low
    } else {
        quotient(border, ratio(width, input))
    }
}

// Guesses at where the class that lo has at an instruction ends, from lo to hi: the last value that has it, or the next. Which words
// they are, is free.
pub(crate) fn hint(i: Instruction, low: &Registers, high: &Registers, lo: u64, hi: u64) -> Guesses
    ensures free { (result.line < 2 ^ 64) × (result.rounded < 2 ^ 64) }
{
    match sorting_of(i) {
        Sorting::Operates { op, first, second } => {
            let open = open_of(first, second, low, high);
            open.placed(open.border(op), lo, hi)
        }
        Sorting::Compares { first, second } => {
            let open = open_of(first, second, low, high);
            open.placed(open.branch_border(), lo, hi)
        }
        Sorting::Nothing => Guesses {
            line: lo,
            rounded: lo,
        },
    }
}
