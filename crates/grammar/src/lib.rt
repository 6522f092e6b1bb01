// The numbers of document 01, for code; specs/Numbers.antt has them for definitions.
#![tactic(auto)]

ghost use Rattle.std.specs.Prelude.{◌≡◌};
ghost use Rattle.grammar.specs.Numbers.{number_of};

// A rule is so many words: where its name begins in the text, the name's length, its type, its number of rows.
pub const RULE_WIDTH: usize = 4;

pub const LENGTH: usize = 1;

pub const TYPE: usize = 2;

pub const ROWS: usize = 3;

// A row is so many words: its kind, x, y, and the rows of its subtree.
pub const ROW_WIDTH: usize = 4;

pub const X: usize = 1;

pub const Y: usize = 2;

pub const SIZE: usize = 3;

// A mark, what a call remembers of a rule, is so many words.
pub const MARK_WIDTH: usize = 4;

// The types of a rule.
pub const NORMAL: u32 = 0;

pub const SILENT: u32 = 1;

pub const ATOMIC: u32 = 2;

pub const COMPOUND_ATOMIC: u32 = 3;

pub const NON_ATOMIC: u32 = 4;

// The kinds of a row.
pub const STR: u32 = 0;

pub const INSENS: u32 = 1;

pub const RANGE: u32 = 2;

pub const IDENT: u32 = 3;

pub const PEEK_SLICE: u32 = 4;

pub const PEEK_SLICE_END: u32 = 5;

pub const POS_PRED: u32 = 6;

pub const NEG_PRED: u32 = 7;

pub const SEQ: u32 = 8;

pub const CHOICE: u32 = 9;

pub const OPT: u32 = 10;

pub const REP: u32 = 11;

pub const REP_ONCE: u32 = 12;

pub const REP_EXACT: u32 = 13;

pub const REP_MIN: u32 = 14;

pub const REP_MAX: u32 = 15;

pub const REP_MIN_MAX: u32 = 16;

pub const SKIP: u32 = 17;

pub const PUSH: u32 = 18;

pub const RESTORE_ON_ERR: u32 = 19;

// Half the kind of a row with two children: of Seq and of Choice, and of no other.
pub const PAIR: u32 = 4;

// A table as it is lent: the words of its rules and rows, and the text of its names and literals. Each is lent for itself: a part of the text
// may outlive the words.
#[derive(Clone, Copy)]
pub struct LentTable<'r, 'w, 't> {
    pub rules: &'r [u32],
    pub rows: &'w [u32],
    pub text: &'t [u8],
}

// The last byte that a name or a literal may have.
pub const LAST_ASCII: u32 = 127;

// Why words are refused, by the numbers of document 01: the lowest that holds is the one that is told.
#[derive(Clone, Copy, PartialEq, Eq)]
pub enum Refusal {
    Area = 1,
    Size = 2,
    Shape = 3,
    Text = 4,
    Names = 5,
    Count = 6,
    Cycle = 7,
    Full = 8,
}

impl From<Refusal> for u32 {
    ghost from_gives = { λ r n. n ≡ number_of r };

    fn from(r: Refusal) -> u32 {
        r as u32
    }
}
