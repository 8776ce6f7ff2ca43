// Test vectors as text: lines of hex numbers, with one byte between two numbers.
// The programs that run a table of tests read it by this crate, and tell by it which lines differ.
// Every text is read: past its end there is no digit, and a number of no digits is 0.
#![tactic(auto)]

ghost use Rattle.std.specs.Prelude.{◌≡◌, ◌+◌, ◌<◌, ◌≤◌, ◌^◌, ◌-◌, ◌%◌, ◌==◌, cond, drop, length, position, MatchOption};
ghost use Rattle.std.specs.Fn.{FnOnceReturnsAt};
ghost use Rattle.std.specs.Iterator.{at_most};
ghost use Rattle.vectors.specs.Working.Running.{RanToEnd};
ghost use Rattle.vectors.specs.Working.Text.{digit_of, number_from, IsFirstLine};

use input::{ROOM, read_full};
use std::io;

// A hex digit's value; a capital letter, which `to_digit` would take, is none.
#[tactic(auto, unfolding(crate::specs::Working::Text::digit_of))]
fn digit(b: u8) -> Option<u8>
    ensures { MatchOption result (digit_of b ≡ 16) (λ d. (digit_of b ≡ d) × (d < 16)) }
{
    match b {
        b'0'..=b'9' => Some(b - b'0'),
        b'a'..=b'f' => Some(b - b'a' + 10),
        _ => None,
    }
}

// The numbers of a line, from its first byte on.
#[derive(Drop)]
pub struct Fields<'a> {
    pub rest: &'a [u8],
}

impl<'a> Fields<'a> {
    pub fn new(line: &'a [u8]) -> Self
        ensures { result.rest.now ≡ line.now }
    {
        Fields { rest: line }
    }

    // The next number; of more than 16 digits it keeps the last.
    pub fn number(&mut self) -> u64
        ensures value { result ≡ (number_from self.old.rest.now 0 0).value }
        ensures rest { self.new.rest.now ≡ drop (number_from self.old.rest.now 0 0).next self.old.rest.now }
    {
        let mut value: u64 = 0;
        while let Some((b, rest)) = self.rest.split_first() {
            self.rest = rest;
            let Some(d) = digit(*b) else {
                return value;
            };
            value = (value << 4) + u64::from(d);
        }
        value
    }

    // The next number's low 32 bits.
    pub fn word(&mut self) -> u32
        ensures value { result ≡ (number_from self.old.rest.now 0 0).value % 2 ^ 32 }
        ensures rest { self.new.rest.now ≡ drop (number_from self.old.rest.now 0 0).next self.old.rest.now }
    {
        (self.number() % (1 << 32)) as u32
    }
}

// Where the first line feed is.
fn line_feed(text: &[u8]) -> Option<usize>
    ensures { result ≡ position (λ b. b == 10) text.now }
{
    text.iter().position(|b| *b == b'\n')
}

// The lines of a text, each without its line feed; behind the last line feed there is none.
#[derive(Drop)]
pub struct Lines<'a> {
    pub rest: &'a [u8],
}

impl<'a> Lines<'a> {
    pub fn new(text: &'a [u8]) -> Self
        ensures { result.rest.now ≡ text.now }
    {
        Lines { rest: text }
    }
}

impl<'a> Iterator for Lines<'a> {
    type Item = &'a [u8];

    ghost next_gives = { λ s r t. MatchOption r (length s.rest.now ≡ 0) (λ line. IsFirstLine s.rest.now line.now t.rest.now) };

    ghost remaining = { λ s. at_most (length s.rest.now) };

    fn next(&mut self) -> Option<&'a [u8]> {
        let text = self.rest;
        if text.is_empty() {
            return None;
        }
        let Some(end) = line_feed(text) else {
            self.rest = &[];
            return Some(text);
        };
        self.rest = &text[end + 1..];
        Some(&text[..end])
    }
}

// How many of this one test differ: 0, or 1 with its line's number printed. A print that fails changes no answer.
pub fn differs(rt: &impl Print, agrees: bool, number: u64) -> u64
    ensures { result ≡ cond agrees 0 1 }
{
    if agrees {
        return 0;
    }
    let _ = println!(rt; "line {number} differs");
    1
}

// How many lines were tested, and how many of them differ.
#[derive(Drop)]
pub struct Tally {
    pub lines: u64,
    pub differ: u64,
    ghost within: { differ ≤ lines },
}

impl Tally {
    pub fn new() -> Self
        ensures { result.lines ≡ 0 }
    {
        Tally {
            lines: 0,
            differ: 0,
        }
    }

    // Counts one more line, with its number printed where it differs.
    pub fn add(&mut self, rt: &impl Print, agrees: bool)
        requires { self.old.lines < 2 ^ 64 - 1 }
        ensures lines { self.new.lines ≡ self.old.lines + 1 }
        ensures differ { self.new.differ ≡ self.old.differ + cond agrees 0 1 }
    {
        self.lines += 1;
        self.differ += differs(rt, agrees, self.lines);
    }
}

// Runs a program's tests on the table on standard input, or prints that it is too long. A read that fails ends it with that error.
pub fn run_table<R: Input + Print, F: FnOnce(&[u8]) -> io::Result<()>>(
    rt: &R,
    run: F,
) -> io::Result<()>
    requires { F.IsAlwaysCallable run }
    ensures { RanToEnd R.Reader.remaining 65536 (FnOnceReturnsAt F.FnOnce run) result }
{
    let mut buffer = [0u8; ROOM];
    let n = read_full(&mut rt.reader(), &mut buffer)?;
    if n == ROOM {
        return println!(rt; "more input than the buffer holds");
    }
    run(&buffer[..n])
}
