// Refusals 2 to 6 of a lent table: the lowest that holds, for any words and any text.
#![tactic(auto)]

ghost use Rattle.std.specs.Prelude.{◌≡◌, Bool, false, ◌||◌, ℕ, ◌+◌, ◌-◌, ◌*◌, ◌/◌, ◌%◌, ◌^◌, ◌≤◌, ◌<◌, length, take, drop, get_or, eqb};
ghost use Rattle.grammar.specs.Numbers.{rule_width, row_width, mark_width, k_str, k_restore_on_err};
ghost use Rattle.grammar.specs.Basic.{member};
ghost use Rattle.grammar.specs.Refusals.{bad_counts, bad_span, reserved, max_text, full_marks};
ghost use Rattle.rows.specs.Rows.{Tells, kind_at};
ghost use Rattle.names.specs.Names.{name_of, rows_before, NamesInside, few_rules};
ghost use Rattle.refusals.specs.Local.{up_to, uses_x, uses_y, unused_zero, OneFits, TwoFits, SkipFits, RowFits, IsTree, IsTable};
ghost use Rattle.refusals.specs.Bytes.{any_four, bad_name, bad_row, zero_row, High, Indexed};
ghost use Rattle.refusals.specs.Check.{lent, NamesChecked, Checked};

use grammar::{
    IDENT, LAST_ASCII, LENGTH, LentTable, MARK_WIDTH, NON_ATOMIC, PEEK_SLICE, PEEK_SLICE_END,
    POS_PRED, PUSH, RANGE, REP_EXACT, REP_MAX, REP_MIN_MAX, ROW_WIDTH, ROWS, RULE_WIDTH, Refusal,
    SIZE, STR, TYPE, X, Y,
};
use rows::Shape;

// Full size: 256 rules, 4,096 rows, 65,536 bytes of text.
pub const FULL_RULES: usize = 256 * RULE_WIDTH;

pub const FULL_ROWS: usize = 4096 * ROW_WIDTH;

pub const FULL_TEXT: usize = 65536;

pub const FULL_MARKS: usize = 256 * MARK_WIDTH;

// The last byte that is ASCII, and the first that is not.
const LAST_BYTE: u8 = 127;

const FIRST_HIGH: u8 = 128;

// The marks remember, for each stretch of so many bytes, where the next byte above 127 is.
const STRETCH: usize = 64;

const LAST_OF_STRETCH: usize = 63;

// ---- refusal 2

// Refusal 2: a word count that is no multiple of four, or an input above full size.
pub fn bad_counts(table: &LentTable) -> bool
    ensures { result ≡ bad_counts (lent table.now.rules.now table.now.rows.now table.now.text.now) }
{
    table.rules.len() % RULE_WIDTH != 0
        || table.rows.len() % ROW_WIDTH != 0
        || FULL_RULES < table.rules.len()
        || FULL_ROWS < table.rows.len()
        || FULL_TEXT < table.text.len()
}

// ---- refusal 3

// Whether a kind's x means something.
fn uses_x(kind: u32) -> bool
    ensures { result ≡ uses_x kind }
{
    kind < POS_PRED || REP_EXACT <= kind && kind < PUSH
}

// Whether a kind's y means something.
fn uses_y(kind: u32) -> bool
    ensures { result ≡ uses_y kind }
{
    kind < PEEK_SLICE || kind == PEEK_SLICE_END || kind == REP_MIN_MAX
}

// Whether x is 0 where its kind does not use it.
fn x_fits(kind: u32, x: usize) -> bool
    ensures { result ≡ (eqb x 0 || uses_x kind) }
{
    x == 0 || uses_x(kind)
}

// Whether the words that a kind does not use are 0.
#[tactic(auto, unfolding(crate::specs::Local::unused_zero))]
fn unused_zero(kind: u32, x: usize, y: usize) -> bool
    ensures { result ≡ unused_zero kind x y }
{
    // a literal uses both
    kind < PEEK_SLICE || (y == 0 || uses_y(kind)) && x_fits(kind, x)
}

// Whether a row of size n at i has one child before it.
fn one_fits(rows: &[u32], i: usize, n: usize) -> bool
    requires { i < length rows.now / row_width }
    ensures { Tells result (OneFits rows.now i n) }
{
    if i == 0 {
        return false;
    }
    let child = rows[(i - 1) * ROW_WIDTH + SIZE] as usize;
    n == child + 1
}

// Whether a row of size n at i has two children before it.
fn two_fits(rows: &[u32], i: usize, n: usize) -> bool
    requires { i < length rows.now / row_width }
    ensures { Tells result (TwoFits rows.now i n) }
{
    if i == 0 {
        return false;
    }
    let right = rows[(i - 1) * ROW_WIDTH + SIZE] as usize;
    if i <= right {
        return false;
    }
    let left = rows[(i - 1 - right) * ROW_WIDTH + SIZE] as usize;
    n == left + right + 1
}

// Whether rows from..to are Str rows.
fn strs(rows: &[u32], from: usize, to: usize) -> bool
    requires { (from ≤ to) × (to ≤ length rows.now / row_width) }
    ensures { Tells result ((j : ℕ) → from ≤ j → j < to → kind_at rows.now j ≡ k_str) }
{
    for j in from..to {
        if rows::kind_at(rows, j) != STR {
            return false;
        }
    }
    true
}

// Whether a row of size n at i has k strings before it.
fn skip_fits(rows: &[u32], i: usize, k: usize, n: usize) -> bool
    requires { i < length rows.now / row_width }
    ensures { Tells result (SkipFits rows.now i k n) }
{
    k <= i && n == k + 1 && strs(rows, i - k, i)
}

// Whether row i is right, with kinds up to `most`.
fn row_fits(rows: &[u32], i: usize, most: u32) -> bool
    requires { i < length rows.now / row_width }
    ensures { Tells result (RowFits most rows.now i) }
{
    let kind = rows::kind_at(rows, i);
    let x = rows::x_at(rows, i);
    if most < kind || !unused_zero(kind, x, rows::y_at(rows, i)) {
        return false;
    }
    let n = rows::size_at(rows, i);
    match rows::shape_of(kind) {
        Shape::Lit | Shape::Num => n == 1,
        Shape::One => one_fits(rows, i, n),
        Shape::Two => two_fits(rows, i, n),
        Shape::Skips => skip_fits(rows, i, x, n),
    }
}

// Whether these rows are one tree's.
fn one_tree(rows: &[u32], most: u32) -> bool
    requires { (length rows.now % row_width ≡ 0) × (most ≤ k_restore_on_err) }
    ensures { Tells result (IsTree (up_to most) rows.now) }
{
    let count = rows.len() / ROW_WIDTH;
    if count == 0 {
        return false;
    }
    for i in 0..count {
        if !row_fits(rows, i, most) {
            return false;
        }
    }
    rows::size_at(rows, count - 1) == count
}

// Whether rows from..to are one tree's.
fn rule_tree(rows: &[u32], from: usize, to: usize, most: u32) -> bool
    requires { (from ≤ to) × (to ≤ length rows.now / row_width) × (most ≤ k_restore_on_err) }
    ensures { Tells result (IsTree (up_to most) (take (row_width * (to - from)) (drop (from * row_width) rows.now))) }
{
    let a = from * ROW_WIDTH;
    let e = to * ROW_WIDTH;
    one_tree(&rows[a..e], most)
}

// Refusal 3: whether the words are a table's, with kinds up to `most`.
pub fn trees(table: &LentTable, most: u32) -> bool
    requires { (length table.now.rules.now % rule_width ≡ 0) × (length table.now.rows.now % row_width ≡ 0) × (most ≤ k_restore_on_err) }
    ensures { Tells result (IsTable (up_to most) table.now.rules.now table.now.rows.now) }
{
    let count = table.rules.len() / RULE_WIDTH;
    let total = table.rows.len() / ROW_WIDTH;
    let mut from = 0;
    for i in 0..count {
        let at = i * RULE_WIDTH;
        if table.rules[at + TYPE] > NON_ATOMIC {
            return false;
        }
        let n = table.rules[at + ROWS] as usize;
        if total - from < n {
            return false;
        }
        if !rule_tree(table.rows, from, from + n, most) {
            return false;
        }
        from += n;
    }
    from == total
}

// ---- refusal 4

// Where the first byte above 127 from p on is, when from stop on it is at `other`.
fn next_high(text: &[u8], p: usize, stop: usize, other: usize) -> usize
    requires p_le_stop { (p ≤ stop) × (stop ≤ length text.now) }
    requires high { High text.now stop other }
    ensures { High text.now p result }
{
    for i in p..stop {
        if text[i] > LAST_BYTE {
            return i;
        }
    }
    other
}

// A byte that no byte from p to stop is above. No test in the loop: many bytes go at a time.
fn highest(text: &[u8], p: usize, stop: usize) -> u8
    requires { (p ≤ stop) × (stop ≤ length text.now) }
    ensures { (j : ℕ) → p ≤ j → j < stop → get_or text.now j 0 ≤ result }
{
    let mut m: u8 = 0;
    for i in p..stop {
        m = m.max(text[i]);
    }
    m
}

// The same as `next_high`: most texts have no such byte.
fn first_high(text: &[u8], p: usize, stop: usize, other: usize) -> usize
    requires p_le_stop { (p ≤ stop) × (stop ≤ length text.now) }
    requires high { High text.now stop other }
    ensures { High text.now p result }
{
    if highest(text, p, stop) < FIRST_HIGH {
        return other;
    }
    next_high(text, p, stop, other)
}

// Writes for each 64 bytes of the text where the first byte above 127 from there on is; the first of all comes back.
fn index_high(text: &[u8], marks: &mut [u32]) -> usize
    requires { (length text.now ≤ max_text) × (full_marks ≤ length marks.old) }
    ensures { High text.now 0 result × Indexed text.now marks.new }
{
    let mut stop = text.len();
    let mut next = stop;
    for b in (0..(stop + LAST_OF_STRETCH) / STRETCH).rev() {
        next = first_high(text, b * STRETCH, stop, next);
        marks[b] = next as u32;
        stop = b * STRETCH;
    }
    next
}

// Where the first byte above 127 from x on is: at most 64 bytes are looked at.
fn high_from(text: &[u8], marks: &[u32], x: usize) -> usize
    requires x_in_bounds { x ≤ length text.now }
    requires indexed { Indexed text.now marks.now }
    ensures { High text.now x result }
{
    let b = x / STRETCH + 1;
    let at = b * STRETCH;
    if at < text.len() {
        return next_high(text, x, at, marks[b] as usize);
    }
    next_high(text, x, text.len(), text.len())
}

// Whether a name or literal is refused: it ends past the text, or has a byte above 127. `first` is where the first such byte of all is.
fn bad_span(text: &[u8], marks: &[u32], first: usize, x: u32, n: u32) -> bool
    requires high { High text.now 0 first }
    requires indexed { Indexed text.now marks.now }
    ensures { result ≡ bad_span text.now (x, n) }
{
    let end = x as usize + n as usize;
    text.len() < end || first < end && high_from(text, marks, x as usize) < end
}

// Whether some rule or row passes a test of its first three words.
fn any_four<F: Fn(u32, u32, u32) -> bool>(words: &[u32], test: F) -> bool
    requires { F.IsAlwaysCallable test }
    ensures { (p : ℕ → ℕ → ℕ → Bool) → ((a b c : ℕ) (r : Bool) → F.post test a b c r → r ≡ p a b c) → result ≡ any_four p words.now }
{
    for i in 0..words.len() / ROW_WIDTH {
        let at = i * ROW_WIDTH;
        if test(words[at], words[at + X], words[at + Y]) {
            return true;
        }
    }
    false
}

// Whether some name is refused.
fn bad_rules(table: &LentTable, marks: &[u32], first: usize) -> bool
    requires high { High table.now.text.now 0 first }
    requires indexed { Indexed table.now.text.now marks.now }
    ensures { result ≡ any_four (bad_name table.now.text.now) table.now.rules.now }
{
    any_four(
        table.rules,
        |x, n, _| bad_span(table.text, marks, first, x, n),
    )
}

// Whether a row's literal or Range is refused.
#[tactic(auto, unfolding(crate::specs::Bytes::bad_row))]
fn bad_row(text: &[u8], marks: &[u32], first: usize, kind: u32, x: u32, y: u32) -> bool
    requires high { High text.now 0 first }
    requires indexed { Indexed text.now marks.now }
    ensures { result ≡ bad_row text.now kind x y }
{
    if IDENT < kind {
        return false;
    }
    if kind == RANGE {
        return LAST_ASCII < x || LAST_ASCII < y;
    }
    bad_span(text, marks, first, x, y)
}

// Whether some row's literal or Range is refused.
fn bad_rows(table: &LentTable, marks: &[u32], first: usize) -> bool
    requires high { High table.now.text.now 0 first }
    requires indexed { Indexed table.now.text.now marks.now }
    ensures { result ≡ any_four (bad_row table.now.text.now) table.now.rows.now }
{
    any_four(
        table.rows,
        |kind, x, y| bad_row(table.text, marks, first, kind, x, y),
    )
}

// Refusal 4: some name or literal is not in the text or not ASCII, or some Range is not.
pub fn bad_text(table: &LentTable, marks: &mut [u32]) -> bool
    requires { (length table.now.text.now ≤ max_text) × (full_marks ≤ length marks.old) }
    ensures { result ≡ (any_four (bad_name table.now.text.now) table.now.rules.now || any_four (bad_row table.now.text.now) table.now.rows.now) }
{
    let first = index_high(table.text, marks);
    bad_rules(table, marks, first) || bad_rows(table, marks, first)
}

// ---- refusal 5

// Whether rule i's name is reserved.
fn name_reserved(table: &LentTable, i: usize) -> bool
    requires names_inside { NamesInside table.now.rules.now (length table.now.text.now) }
    requires i_in_bounds { i < length table.now.rules.now / rule_width }
    ensures { result ≡ member (name_of table.now.rules.now table.now.text.now i) reserved }
{
    let at = i * RULE_WIDTH;
    names::reserved(
        table.text,
        table.rules[at] as usize,
        table.rules[at + LENGTH] as usize,
    )
}

// Whether no name is reserved.
fn none_reserved(table: &LentTable) -> bool
    requires { NamesInside table.now.rules.now (length table.now.text.now) }
    ensures { Tells result ((i : ℕ) → i < length table.now.rules.now / rule_width → member (name_of table.now.rules.now table.now.text.now i) reserved ≡ false) }
{
    let count = table.rules.len() / RULE_WIDTH;
    for i in 0..count {
        if name_reserved(table, i) {
            return false;
        }
    }
    true
}

// ---- refusal 6

// Whether a row is a repeat of at most 0 times.
#[tactic(auto, unfolding(crate::specs::Bytes::zero_row))]
fn zero_row(kind: u32, x: u32, y: u32) -> bool
    ensures { result ≡ zero_row kind x y }
{
    match kind {
        REP_EXACT | REP_MAX => x == 0,
        REP_MIN_MAX => y == 0,
        _ => false,
    }
}

// Refusal 6: some row is a repeat of at most 0 times.
pub fn zero_counts(rows: &[u32]) -> bool
    ensures { result ≡ any_four zero_row rows.now }
{
    any_four(rows, zero_row)
}

// ---- the check

// Refusals 5 and 6 of a table that can be read and whose names and literals are right. The marks then hold the index of names and the rules' ends.
fn check_names(table: &LentTable, marks: &mut [u32]) -> Result<(), Refusal>
    requires names_inside { NamesInside table.now.rules.now (length table.now.text.now) }
    requires mark_width_in_bounds { (length table.now.rules.now / rule_width * mark_width ≤ length marks.old) × (length table.now.rules.now / rule_width < few_rules) × (length table.now.text.now ≤ max_text) × (rows_before table.now.rules.now (length table.now.rules.now / rule_width) < 2 ^ 32) }
    ensures { NamesChecked result table.now.rules.now table.now.rows.now table.now.text.now marks.new }
{
    if !names::index_names(table, marks) {
        return Err(Refusal::Names);
    }
    if !none_reserved(table) {
        return Err(Refusal::Names);
    }
    if zero_counts(table.rows) {
        return Err(Refusal::Count);
    }
    names::mark_ends(table.rules, marks);
    Ok(())
}

// Refusals 2 to 6: the lowest that holds. Where none does, a table stands there, and the marks hold the index of its names and its rules' ends.
// Each row is read three times, each byte once or twice, each name compared with one other, and a literal past a byte above 127 costs at most 64
// bytes more.
pub fn check(table: &LentTable, marks: &mut [u32]) -> Result<(), Refusal>
    requires { full_marks ≤ length marks.old }
    ensures { Checked result (lent table.now.rules.now table.now.rows.now table.now.text.now) marks.new }
{
    if bad_counts(table) {
        return Err(Refusal::Size);
    }
    if !trees(table, PUSH) {
        return Err(Refusal::Shape);
    }
    if bad_text(table, marks) {
        return Err(Refusal::Text);
    }
    check_names(table, marks)
}
