// Two tables side by side: the list of their differences, and the literal of a row.
#![tactic(auto)]

ghost use Rattle.std.specs.Prelude.{◌≡◌, ◌||◌, cond, eqb, ⊤, [], ◌∷◌, ℕ, ◌+◌, ◌*◌, ◌/◌, ◌^◌, ◌≤◌, ◌<◌, length, get_or, ltb};
ghost use Rattle.std.proofs.Math.Option.{some};
ghost use Rattle.grammar.specs.Numbers.{rule_width, type_word, row_width, mark_width};
ghost use Rattle.grammar.specs.Refusals.{full_marks};
ghost use Rattle.grammar.specs.Tree.{Expr};
ghost use Rattle.grammar.specs.Rows.{Span};
ghost use Rattle.grammar.specs.Text.{resolve, bytes_at};
ghost use Rattle.grammar.specs.Table.{Rule, Table, resolve_rule, resolve_table};
ghost use Rattle.rows.specs.Rows.{LitInside, At, StandsIn, cells};
ghost use Rattle.names.specs.Names.{memory_word, rows_before, NamesInside, AllIndexed};
ghost use Rattle.writing.specs.Writes.{stored};
ghost use Rattle.refusals.specs.Check.{lent, Passed, table_of};
ghost use Rattle.comparison.specs.Compare as compare;
ghost use Rattle.comparison.specs.Compare.{entry_width, full_list, first_unlike, lookup, type_entry, common_entries, rule_entries, left_entries, compare_words, refused};
ghost use Rattle.comparison.specs.Shown as literal;
ghost use Rattle.comparer.specs.Pairs.{Paired, PairedOne, Kept};
ghost use Rattle.comparer.specs.Lists.{SameRun, differs_at, sort_number, SideChecked, Sound, Standing, RuleIs, Added, unmet_from, seen};
ghost use Rattle.comparer.specs.Shows.{seen_lit, Begins};

use grammar::{
    IDENT, INSENS, LENGTH, LentTable, MARK_WIDTH, ROW_WIDTH, ROWS, RULE_WIDTH, Refusal, STR, TYPE,
};
use names::{END, MEMORY};
use refusals::FULL_MARKS;

// Full size of the list: 512 entries.
pub const FULL_LIST: usize = 512 * ENTRY_WIDTH;

// An entry is a sort, the left rule, the right rule and a row.
const ENTRY_WIDTH: usize = 4;

// What an entry says, by its number in the list.
#[derive(Clone, Copy)]
enum Sort {
    OnlyLeft = 0,
    OtherType = 1,
    OtherTree = 2,
    OnlyRight = 3,
}

// The sides, by their numbers.
#[derive(Clone, Copy, PartialEq, Eq)]
pub enum Side {
    Left = 0,
    Right = 1,
}

const LEFT: u32 = Side::Left as u32;

const RIGHT: u32 = Side::Right as u32;

// A refusal, and whose table it is.
#[derive(Clone, Copy, PartialEq, Eq)]
pub struct Refused {
    pub why: Refusal,
    pub side: Side,
}

// The literal of a row: a part of the side's text.
#[derive(Clone, Copy, PartialEq, Eq)]
pub struct Literal {
    pub offset: u32,
    pub length: u32,
}

// How many of n rows of one table from i and of another from j are the same before the first that is not.
fn same_run(one: &LentTable, i: usize, other: &LentTable, j: usize, n: usize) -> usize
    requires n_in_bounds { (i + n ≤ length one.now.rows.now / row_width) × (j + n ≤ length other.now.rows.now / row_width) }
    requires by_index { (k : ℕ) → k < n → LitInside one.now.rows.now (length one.now.text.now) (i + k) }
    requires by_index_2 { (k : ℕ) → k < n → LitInside other.now.rows.now (length other.now.text.now) (j + k) }
    ensures { SameRun one.now.text.now one.now.rows.now i other.now.text.now other.now.rows.now j n result }
{
    for k in 0..n {
        if !rows::same_row(one, i + k, other, j + k) {
            return k;
        }
    }
    n
}

// Where the trees of row i of one table and row j of another differ.
fn first_difference(one: &LentTable, i: usize, other: &LentTable, j: usize) -> Option<usize>
    requires stands_in { StandsIn one.now.rows.now i (length one.now.text.now) }
    requires stands_in_2 { StandsIn other.now.rows.now j (length other.now.text.now) }
    ensures { (r s : Expr Span) → At one.now.rows.now i r → At other.now.rows.now j s → differs_at result ≡ first_unlike (cells (resolve one.now.text.now r)) (cells (resolve other.now.text.now s)) }
{
    let n = rows::size_at(one.rows, i);
    let m = rows::size_at(other.rows, j);
    let least = n.min(m);
    let k = same_run(one, i + 1 - n, other, j + 1 - m, least);
    if k == least && n == m { None } else { Some(k) }
}

// Writes entry n, where there is room for it, and tells how many there are then.
fn put(list: &mut [u32], n: usize, sort: Sort, left: u32, right: u32, row: u32) -> usize
    requires { n < length list.old / entry_width }
    ensures { (result ≡ n + 1) × (list.new ≡ stored list.old (n * entry_width) (sort_number sort ∷ left ∷ right ∷ row ∷ [])) }
{
    writing::set_row(list, n, sort as u32, left, right, row);
    n + 1
}

// The entry for the types of left rule i and right rule j, from entry n on.
fn list_type(
    left_rules: &[u32],
    right_rules: &[u32],
    i: usize,
    j: usize,
    list: &mut [u32],
    n: usize,
) -> usize
    requires i_in_bounds { (i < length left_rules.now / rule_width) × (j < length right_rules.now / rule_width) }
    requires i_lt_full_list { (i < full_list) × (j < full_list) × (n < length list.old / entry_width) }
    ensures { Added result n (type_entry i j (get_or left_rules.now (i * rule_width + type_word) 0) (get_or right_rules.now (j * rule_width + type_word) 0)) list.old list.new }
{
    if left_rules[i * RULE_WIDTH + TYPE] == right_rules[j * RULE_WIDTH + TYPE] {
        return n;
    }
    put(list, n, Sort::OtherType, i as u32, j as u32, 0)
}

// The entries of left rule i and right rule j, which have one name, from entry n on: the type's first.
fn list_common(
    left: &LentTable,
    left_marks: &[u32],
    right: &LentTable,
    right_marks: &[u32],
    i: usize,
    j: usize,
    list: &mut [u32],
    n: usize,
) -> usize
    requires side { Sound left.now.rules.now left.now.rows.now left.now.text.now left_marks.now }
    requires side_2 { Sound right.now.rules.now right.now.rows.now right.now.text.now right_marks.now }
    requires i_in_bounds { (i < length left.now.rules.now / rule_width) × (j < length right.now.rules.now / rule_width) × (n + 2 ≤ length list.old / entry_width) }
    ensures { (x y : Rule Span) → RuleIs left.now.rules.now left.now.rows.now i x → RuleIs right.now.rules.now right.now.rows.now j y → Added result n (common_entries i j (resolve_rule left.now.text.now x) (resolve_rule right.now.text.now y)) list.old list.new }
{
    let m = list_type(left.rules, right.rules, i, j, list, n);
    let a = left_marks[i * MARK_WIDTH + END] as usize - 1;
    let b = right_marks[j * MARK_WIDTH + END] as usize - 1;
    match first_difference(left, a, right, b) {
        None => m,
        Some(k) => put(list, m, Sort::OtherTree, i as u32, j as u32, k as u32),
    }
}

// The entries of left rule i, from entry n on.
fn list_rule(
    left: &LentTable,
    left_marks: &[u32],
    right: &LentTable,
    right_marks: &[u32],
    i: usize,
    list: &mut [u32],
    n: usize,
) -> usize
    requires side { Sound left.now.rules.now left.now.rows.now left.now.text.now left_marks.now }
    requires side_2 { Sound right.now.rules.now right.now.rows.now right.now.text.now right_marks.now }
    requires paired { Paired (length left.now.rules.now / rule_width) left.now.rules.now left.now.text.now right.now.rules.now right.now.text.now left_marks.now right_marks.now }
    requires i_in_bounds { (i < length left.now.rules.now / rule_width) × (n + 2 ≤ length list.old / entry_width) }
    ensures { (x : Rule Span) (u : Table Span) → RuleIs left.now.rules.now left.now.rows.now i x → Standing u right.now.rules.now right.now.rows.now → Added result n (rule_entries i (resolve_rule left.now.text.now x) (lookup 0 (resolve_table right.now.text.now u) (bytes_at left.now.text.now x.name))) list.old list.new }
{
    let partner = left_marks[i * MARK_WIDTH + MEMORY];
    if partner == 0 {
        return put(list, n, Sort::OnlyLeft, i as u32, 0, 0);
    }
    list_common(
        left,
        left_marks,
        right,
        right_marks,
        i,
        partner as usize - 1,
        list,
        n,
    )
}

// The entries of all left rules.
fn list_left(
    left: &LentTable,
    left_marks: &[u32],
    right: &LentTable,
    right_marks: &[u32],
    list: &mut [u32],
) -> usize
    requires side { Sound left.now.rules.now left.now.rows.now left.now.text.now left_marks.now }
    requires side_2 { Sound right.now.rules.now right.now.rows.now right.now.text.now right_marks.now }
    requires paired { Paired (length left.now.rules.now / rule_width) left.now.rules.now left.now.text.now right.now.rules.now right.now.text.now left_marks.now right_marks.now }
    requires full_list_in_bounds { full_list ≤ length list.old }
    ensures { (t u : Table Span) → Standing t left.now.rules.now left.now.rows.now → Standing u right.now.rules.now right.now.rows.now → Added result 0 (left_entries 0 (resolve_table left.now.text.now t) (resolve_table right.now.text.now u)) list.old list.new }
{
    let mut n = 0;
    for i in 0..left.rules.len() / RULE_WIDTH {
        n = list_rule(left, left_marks, right, right_marks, i, list, n);
    }
    n
}

// The entries of the first `count` right rules that are not found left, from entry n on.
fn list_right(right_marks: &[u32], count: usize, list: &mut [u32], n: usize) -> usize
    requires mark_width_in_bounds { (count * mark_width ≤ length right_marks.now) × (count ≤ full_list) }
    requires count_in_bounds { n + length (unmet_from right_marks.now 0 count) ≤ length list.old / entry_width }
    ensures { Added result n (unmet_from right_marks.now 0 count) list.old list.new }
{
    let mut m = n;
    for j in 0..count {
        if right_marks[j * MARK_WIDTH + MEMORY] == 0 {
            m = put(list, m, Sort::OnlyRight, 0, j as u32, 0);
        }
    }
    m
}

// Writes into the mark of left rule i which right rule has its name, and into that one's that it is found.
fn pair_one(
    left: &LentTable,
    left_marks: &mut [u32],
    right: &LentTable,
    right_marks: &mut [u32],
    i: usize,
)
    requires names_inside { NamesInside left.now.rules.now (length left.now.text.now) }
    requires all_indexed { AllIndexed right.now.rules.now right.now.text.now right_marks.old }
    requires i_in_bounds { (i < length left.now.rules.now / rule_width) × (i * mark_width + memory_word < length left_marks.old) }
    ensures { PairedOne i left.now.rules.now left.now.text.now right.now.rules.now right.now.text.now left_marks.old left_marks.new right_marks.old right_marks.new }
{
    let at = i * RULE_WIDTH;
    let memory = i * MARK_WIDTH + MEMORY;
    let Some(j) = names::find_rule(
        right,
        right_marks,
        left.text,
        left.rules[at] as usize,
        left.rules[at + LENGTH] as usize,
    ) else {
        left_marks[memory] = 0;
        return;
    };
    left_marks[memory] = (j + 1) as u32;
    right_marks[j * MARK_WIDTH + MEMORY] = 1;
}

// The same for all left rules.
fn pair(left: &LentTable, left_marks: &mut [u32], right: &LentTable, right_marks: &mut [u32])
    requires names_inside { NamesInside left.now.rules.now (length left.now.text.now) }
    requires all_indexed { AllIndexed right.now.rules.now right.now.text.now right_marks.old }
    requires mark_width_in_bounds { length left.now.rules.now / rule_width * mark_width ≤ length left_marks.old }
    ensures paired { Paired (length left.now.rules.now / rule_width) left.now.rules.now left.now.text.now right.now.rules.now right.now.text.now left_marks.new right_marks.new }
    ensures kept { Kept left_marks.old left_marks.new × Kept right_marks.old right_marks.new }
{
    names::forget(right_marks, right.rules.len() / RULE_WIDTH);
    for i in 0..left.rules.len() / RULE_WIDTH {
        pair_one(left, left_marks, right, right_marks, i);
    }
}

// The list: the rules paired by name, the left ones' entries, then those of the right ones that are not found left.
fn list_all(
    left: &LentTable,
    left_marks: &mut [u32],
    right: &LentTable,
    right_marks: &mut [u32],
    list: &mut [u32],
) -> usize
    requires passed { Passed (lent left.now.rules.now left.now.rows.now left.now.text.now) left_marks.old }
    requires passed_2 { Passed (lent right.now.rules.now right.now.rows.now right.now.text.now) right_marks.old }
    requires full_marks_in_bounds { (full_marks ≤ length left_marks.old) × (full_marks ≤ length right_marks.old) × (full_list ≤ length list.old) }
    ensures { Added result 0 (compare.compare (table_of (lent left.now.rules.now left.now.rows.now left.now.text.now)) (table_of (lent right.now.rules.now right.now.rows.now right.now.text.now))) list.old list.new }
{
    pair(left, left_marks, right, right_marks);
    let n = list_left(left, left_marks, right, right_marks, list);
    list_right(right_marks, right.rules.len() / RULE_WIDTH, list, n)
}

// Whether the list or the marks are below full size.
fn is_short(list: usize, left_marks: usize, right_marks: usize) -> bool
    ensures { result ≡ (ltb list full_list || (ltb left_marks full_marks || ltb right_marks full_marks)) }
{
    list < FULL_LIST || left_marks < FULL_MARKS || right_marks < FULL_MARKS
}

// Refusals 2 to 6 of one side's table.
fn check_side(table: &LentTable, marks: &mut [u32], side: Side) -> Result<(), Refused>
    requires { full_marks ≤ length marks.old }
    ensures { SideChecked result side (lent table.now.rules.now table.now.rows.now table.now.text.now) marks.new }
{
    refusals::check(table, marks).map_err(|why| Refused { why, side })
}

// The differences of two tables, in the list: any words get it, or the lowest refusal that holds, the left table's first. The marks are work areas.
pub fn compare(
    left: &LentTable,
    right: &LentTable,
    list: &mut [u32],
    left_marks: &mut [u32],
    right_marks: &mut [u32],
) -> Result<u32, Refused>
    ensures { seen result list.new ≡ compare_words (lent left.now.rules.now left.now.rows.now left.now.text.now) (lent right.now.rules.now right.now.rows.now right.now.text.now) list.old left_marks.old right_marks.old }
{
    if is_short(list.len(), left_marks.len(), right_marks.len()) {
        return Err(Refused {
            why: Refusal::Area,
            side: Side::Left,
        });
    }
    check_side(left, left_marks, Side::Left)?;
    check_side(right, right_marks, Side::Right)?;
    let count = list_all(left, left_marks, right, right_marks, list);
    Ok(count as u32)
}

// Whether a kind is that of a literal.
fn is_lit(kind: u32) -> bool
    ensures { result ≡ literal.is_lit kind }
{
    kind == STR || kind == INSENS || kind == IDENT
}

// The literal at row i, if there is one and it lies in the text.
fn lit_at(table: &LentTable, i: usize) -> Option<Literal>
    ensures { seen_lit result ≡ literal.lit_at table.now.rows.now table.now.text.now i }
{
    let row = rows::row_at(table.rows, i)?;
    if is_lit(row.kind) && row.x as usize + row.y as usize <= table.text.len() {
        Some(Literal {
            offset: row.x,
            length: row.y,
        })
    } else {
        None
    }
}

// The first row of a rule that is there; of one that begins past the first `most` rows, any row past them.
fn first_row(rules: &[u32], rule: usize, most: usize) -> usize
    requires { (rule < length rules.now / rule_width) × (most < 2 ^ 62) }
    ensures { Begins rules.now rule most result }
{
    let mut before: usize = 0;
    for i in 0..rule {
        before += rules[i * RULE_WIDTH + ROWS] as usize;
        if most < before {
            return before;
        }
    }
    before
}

// The literal at a row of a rule, counted from the rule's first row.
#[tactic(auto, unfolding(comparison::specs::Shown::shown_in))]
fn shown_in(table: &LentTable, rule: usize, row: usize) -> Option<Literal>
    ensures { seen_lit result ≡ literal.shown_in (lent table.now.rules.now table.now.rows.now table.now.text.now) rule row }
{
    if rule >= table.rules.len() / RULE_WIDTH
        || row >= table.rules[rule * RULE_WIDTH + ROWS] as usize
    {
        return None;
    }
    lit_at(
        table,
        first_row(table.rules, rule, table.rows.len() / ROW_WIDTH) + row,
    )
}

// The literal at a row of a rule of the asked side, 0 or 1: where it stands in that side's text. Any words get an answer.
#[tactic(auto, unfolding(comparison::specs::Shown::shown))]
pub fn place(
    left: &LentTable,
    right: &LentTable,
    side: u32,
    rule: usize,
    row: usize,
) -> Option<Literal>
    ensures { seen_lit result ≡ literal.shown (lent left.now.rules.now left.now.rows.now left.now.text.now) (lent right.now.rules.now right.now.rows.now right.now.text.now) side rule row }
{
    match side {
        LEFT => shown_in(left, rule, row),
        RIGHT => shown_in(right, rule, row),
        _ => None,
    }
}

// The text of the asked side.
fn asked<'t>(side: u32, left_text: &'t [u8], right_text: &'t [u8]) -> &'t [u8]
    ensures { result.now ≡ cond (eqb side 0) left_text.now right_text.now }
{
    if side == LEFT { left_text } else { right_text }
}

// Its bytes, as a part of whichever text holds them; none where there is no such literal.
pub fn shown<'t>(
    left: &LentTable<'_, '_, 't>,
    right: &LentTable<'_, '_, 't>,
    side: u32,
    rule: usize,
    row: usize,
) -> &'t [u8]
    ensures { result.now ≡ literal.bytes_of (lent left.now.rules.now left.now.rows.now left.now.text.now) (lent right.now.rules.now right.now.rows.now right.now.text.now) side rule row }
{
    let text = asked(side, left.text, right.text);
    match place(left, right, side, rule, row) {
        Some(lit) => rows::part(text, lit.offset as usize, lit.length as usize),
        None => rows::part(text, 0, 0),
    }
}
