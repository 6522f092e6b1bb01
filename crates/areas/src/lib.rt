// Areas for the programs to lend: 16 elements above full size each, so that any size that is asked for is a part of them. And the
// call with them.
#![tactic(auto)]

ghost use Rattle.std.specs.Prelude.{◌≡◌, ◌*◌, ◌≤◌, length, take, drop};

use grammar::{LentTable, ROW_WIDTH, RULE_WIDTH, Refusal};
use optimizer::Answer;
use refusals::{FULL_MARKS, FULL_ROWS, FULL_RULES, FULL_TEXT};

// The sizes of an area of rules (and of marks), of one of rows and of one of text.
pub const RULES_AREA: usize = 1040;

pub const ROWS_AREA: usize = 16400;

pub const TEXT_AREA: usize = 65552;

// What an area is filled with before it is lent.
pub const WORD: u32 = 0xA5A5A5A5;

pub const BYTE: u8 = 0xA5;

// The three areas of one table.
#[derive(Drop)]
pub struct Areas {
    pub rules: [u32; RULES_AREA],
    pub rows: [u32; ROWS_AREA],
    pub text: [u8; TEXT_AREA],
}

impl Areas {
    pub fn new() -> Self
        ensures rules { 1040 ≡ length result.rules }
        ensures rows { 16400 ≡ length result.rows }
        ensures text { 65552 ≡ length result.text }
    {
        Areas {
            rules: [WORD; RULES_AREA],
            rows: [WORD; ROWS_AREA],
            text: [BYTE; TEXT_AREA],
        }
    }

    // The table that an answer left in them.
    pub fn table(&self, a: Answer) -> LentTable
        ensures rules { result.rules.now ≡ take (4 * a.rules) self.now.rules }
        ensures rows { result.rows.now ≡ take (4 * a.rows) self.now.rows }
        ensures text { result.text.now ≡ take a.text self.now.text }
    {
        LentTable {
            rules: cut(&self.rules, RULE_WIDTH * a.rules as usize).0,
            rows: cut(&self.rows, ROW_WIDTH * a.rows as usize).0,
            text: cut(&self.text, a.text as usize).0,
        }
    }
}

// How much of the areas is lent, which are numbered from 1 in the entry's order: full size, but for one area that is an element below it,
// or all that is there.
#[derive(Clone, Copy, PartialEq, Eq)]
pub enum Lend {
    Full,
    Short(u32),
    Whole,
}

impl From<u32> for Lend {
    fn from(short: u32) -> Self {
        match short {
            1..=10 => Lend::Short(short),
            100 => Lend::Whole,
            _ => Lend::Full,
        }
    }
}

impl Lend {
    // The part of the area at `place` that is lent.
    pub fn part<T>(self, area: &mut [T], full: usize, place: u32) -> &mut [T]
        requires { 1 ≤ full }
    {
        let n = match self {
            Lend::Whole => area.len(),
            Lend::Short(k) if k == place => area.len().min(full - 1),
            _ => area.len().min(full),
        };
        &mut area[..n]
    }
}

// The call, with work areas of its own.
pub fn answer(
    lend: Lend,
    t: LentTable,
    out_rules: &mut [u32],
    out_rows: &mut [u32],
    out_text: &mut [u8],
) -> Result<Answer, Refusal> {
    let mut a = Areas::new();
    let mut b = Areas::new();
    let mut marks = [WORD; RULES_AREA];
    optimizer::optimize(
        &t,
        lend.part(out_rules, FULL_RULES, 1),
        lend.part(out_rows, FULL_ROWS, 2),
        lend.part(out_text, FULL_TEXT, 3),
        lend.part(&mut a.rules, FULL_RULES, 4),
        lend.part(&mut a.rows, FULL_ROWS, 5),
        lend.part(&mut a.text, FULL_TEXT, 6),
        lend.part(&mut b.rules, FULL_RULES, 7),
        lend.part(&mut b.rows, FULL_ROWS, 8),
        lend.part(&mut b.text, FULL_TEXT, 9),
        lend.part(&mut marks, FULL_MARKS, 10),
    )
}

// The first n elements of an area, or as many as it has, and those past them.
pub fn cut<T>(area: &[T], n: usize) -> (&[T], &[T])
    ensures first { result.0.now ≡ take n area.now }
    ensures past { result.1.now ≡ drop n area.now }
    ensures fits { length result.0.now ≤ length area.now }
{
    area.split_at(n.min(area.len()))
}

// Whether all is as it was filled. No early exit, so that it runs many elements at a time.
pub fn unchanged<T: Copy + PartialEq>(area: &[T], filler: T) -> bool {
    area.iter().fold(true, |same, x| same & (*x == filler))
}
