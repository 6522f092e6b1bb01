// Reading and comparing postfix rows of four words.
#![tactic(auto)]

ghost use Rattle.std.specs.Prelude.{◌≡◌, true, ℕ, ◌+◌, ◌-◌, ◌≤◌, ◌<◌, ◌/◌, length, get_or};
ghost use Rattle.grammar.specs.Numbers.{row_width, k_pair};
ghost use Rattle.grammar.specs.Tree.{Expr};
ghost use Rattle.grammar.specs.Rows.{Span};
ghost use Rattle.grammar.specs.Text.{bytes_at, resolve};
ghost use Rattle.rows.specs.Rows.{kind_at, x_at, y_at, size_at, row_at, shape_of, cell_at, Tells, block, Unlike, LitInside, At, Stands, StandsIn};

use grammar::{
    CHOICE, IDENT, INSENS, LentTable, PEEK_SLICE, PEEK_SLICE_END, RANGE, ROW_WIDTH, SEQ, SIZE,
    SKIP, STR, X, Y,
};

// A row: its kind, its two numbers, and how many rows its subtree has.
#[derive(Clone, Copy)]
pub struct Row {
    pub kind: u32,
    pub x: u32,
    pub y: u32,
    pub size: u32,
}

// What a row of a kind has: a literal, two numbers, one child, two children, strings.
#[derive(Clone, Copy)]
pub enum Shape {
    Lit,
    Num,
    One,
    Two,
    Skips,
}

// Row i, if it is there.
pub fn row_at(rows: &[u32], i: usize) -> Option<Row>
    ensures { result ≡ row_at rows.now i }
{
    if i < rows.len() / ROW_WIDTH {
        let at = i * ROW_WIDTH;
        Some(Row {
            kind: rows[at],
            x: rows[at + X],
            y: rows[at + Y],
            size: rows[at + SIZE],
        })
    } else {
        None
    }
}

// The kind of row i.
pub fn kind_at(rows: &[u32], i: usize) -> u32
    requires { i < length rows.now / row_width }
    ensures { result ≡ kind_at rows.now i }
{
    rows[i * ROW_WIDTH]
}

// The x of row i: where its literal begins in the text, if it has one.
pub fn x_at(rows: &[u32], i: usize) -> usize
    requires { i < length rows.now / row_width }
    ensures { result ≡ x_at rows.now i }
{
    rows[i * ROW_WIDTH + X] as usize
}

// The y of row i: how many bytes its literal has, if it has one.
pub fn y_at(rows: &[u32], i: usize) -> usize
    requires { i < length rows.now / row_width }
    ensures { result ≡ y_at rows.now i }
{
    rows[i * ROW_WIDTH + Y] as usize
}

// How many rows the subtree of row i has.
pub fn size_at(rows: &[u32], i: usize) -> usize
    requires { i < length rows.now / row_width }
    ensures { result ≡ size_at rows.now i }
{
    rows[i * ROW_WIDTH + SIZE] as usize
}

// The shape of a kind.
pub fn shape_of(kind: u32) -> Shape
    ensures { result ≡ shape_of kind }
{
    match kind {
        STR | INSENS | IDENT => Shape::Lit,
        RANGE | PEEK_SLICE | PEEK_SLICE_END => Shape::Num,
        SEQ | CHOICE => Shape::Two,
        SKIP => Shape::Skips,
        _ => Shape::One,
    }
}

// The row of the left side of row i, which has two children (kind 8 or 9); its right side is the row before it.
pub fn left_of(rows: &[u32], i: usize) -> usize
    requires stands { Stands rows.now i }
    requires i_value { kind_at rows.now i / 2 ≡ k_pair }
    ensures { result ≡ i - 1 - size_at rows.now (i - 1) }
{
    let right = i - 1;
    right - size_at(rows, right)
}

// The bytes of the literal with offset x and length n.
pub fn part(text: &[u8], x: usize, n: usize) -> &[u8]
    requires { x + n ≤ length text.now }
    ensures { result.now ≡ bytes_at text.now (x, n) }
{
    let end = x + n;
    &text[x..end]
}

// So many bytes are compared at a time, with no test between them.
const BLOCK: usize = 32;

// 0 where two bytes are the same.
fn unlike(a: u8, b: u8) -> u8
    ensures { result ≡ 0 → a ≡ b }
{
    (a != b) as u8
}

// Whether a block of one text from x and of another from y shows itself as the same. No test in the loop: many bytes go at a time.
fn same_block(text1: &[u8], x: usize, text2: &[u8], y: usize) -> bool
    requires { (x + block ≤ length text1.now) × (y + block ≤ length text2.now) }
    ensures { result ≡ true → (k : ℕ) → k < block → get_or text1.now (x + k) 0 ≡ get_or text2.now (y + k) 0 }
{
    let mut m: u8 = 0;
    for i in 0..BLOCK {
        m = m.max(unlike(text1[x + i], text2[y + i]));
    }
    m == 0
}

// How many of n bytes of one text from x and of another from y are the same, block by block.
fn same_blocks(text1: &[u8], x: usize, text2: &[u8], y: usize, n: usize) -> usize
    requires { (x + n ≤ length text1.now) × (y + n ≤ length text2.now) }
    ensures { (result ≤ n) × ((k : ℕ) → k < result → get_or text1.now (x + k) 0 ≡ get_or text2.now (y + k) 0) }
{
    let mut i = 0;
    while BLOCK <= n - i {
        if !same_block(text1, x + i, text2, y + i) {
            return i;
        }
        i += BLOCK;
    }
    i
}

// How many of n bytes of one text from x and of another from y are the same before the first that is not.
pub fn first_unlike(text1: &[u8], x: usize, text2: &[u8], y: usize, n: usize) -> usize
    requires { (x + n ≤ length text1.now) × (y + n ≤ length text2.now) }
    ensures { Unlike text1.now x text2.now y n result }
{
    for i in same_blocks(text1, x, text2, y, n)..n {
        if text1[x + i] != text2[y + i] {
            return i;
        }
    }
    n
}

// Whether n bytes of one text from x and of another from y are the same.
pub fn same_bytes(text1: &[u8], x: usize, text2: &[u8], y: usize, n: usize) -> bool
    requires { (x + n ≤ length text1.now) × (y + n ≤ length text2.now) }
    ensures { Tells result (bytes_at text1.now (x, n) ≡ bytes_at text2.now (y, n)) }
{
    first_unlike(text1, x, text2, y, n) == n
}

// Whether row i of one table and row j of another are the same up to the offsets of their literals.
pub fn same_row(one: &LentTable, i: usize, other: &LentTable, j: usize) -> bool
    requires i_in_bounds { (i < length one.now.rows.now / row_width) × (j < length other.now.rows.now / row_width) }
    requires lit_inside { LitInside one.now.rows.now (length one.now.text.now) i }
    requires lit_inside_2 { LitInside other.now.rows.now (length other.now.text.now) j }
    ensures { Tells result (cell_at one.now.text.now one.now.rows.now i ≡ cell_at other.now.text.now other.now.rows.now j) }
{
    let Some(first) = row_at(one.rows, i) else {
        return false;
    };
    let Some(second) = row_at(other.rows, j) else {
        return false;
    };
    if first.kind != second.kind {
        return false;
    }
    // a literal's length, before its bytes
    if first.y != second.y {
        return false;
    }
    if let Shape::Lit = shape_of(first.kind) {
        same_bytes(
            one.text,
            first.x as usize,
            other.text,
            second.x as usize,
            first.y as usize,
        )
    } else {
        first.x == second.x
    }
}

// Whether n rows of one table from i and of another from j are the same, one by one, up to offsets.
pub fn same_rows(one: &LentTable, i: usize, other: &LentTable, j: usize, n: usize) -> bool
    requires n_in_bounds { (i + n ≤ length one.now.rows.now / row_width) × (j + n ≤ length other.now.rows.now / row_width) }
    requires by_index { (k : ℕ) → k < n → LitInside one.now.rows.now (length one.now.text.now) (i + k) }
    requires by_index_2 { (k : ℕ) → k < n → LitInside other.now.rows.now (length other.now.text.now) (j + k) }
    ensures { Tells result ((k : ℕ) → k < n → cell_at one.now.text.now one.now.rows.now (i + k) ≡ cell_at other.now.text.now other.now.rows.now (j + k)) }
{
    for k in 0..n {
        if !same_row(one, i + k, other, j + k) {
            return false;
        }
    }
    true
}

// Whether the subtrees with their roots at row i of one table and row j of another are equal; offsets don't count.
pub fn same_tree(one: &LentTable, i: usize, other: &LentTable, j: usize) -> bool
    requires stands_in { StandsIn one.now.rows.now i (length one.now.text.now) }
    requires stands_in_2 { StandsIn other.now.rows.now j (length other.now.text.now) }
    ensures { (r s : Expr Span) → At one.now.rows.now i r → At other.now.rows.now j s → Tells result (resolve one.now.text.now r ≡ resolve other.now.text.now s) }
{
    let Some(first) = row_at(one.rows, i) else {
        return false;
    };
    let Some(second) = row_at(other.rows, j) else {
        return false;
    };
    if first.size != second.size {
        return false;
    }
    let rows = first.size as usize;
    same_rows(one, i + 1 - rows, other, j + 1 - rows, rows)
}
