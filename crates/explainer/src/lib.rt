// Why a loop stays a loop: step 2's reading of its list, with the place at which it ends.
#![tactic(auto)]

ghost use Rattle.std.specs.Prelude.{◌≡◌, true, cond, ◌||◌, [], ℕ, suc, ◌+◌, ◌-◌, ◌*◌, ◌/◌, ◌^◌, ◌≤◌, ◌<◌, eqb, ltb, length, set};
ghost use Rattle.std.proofs.Math.Option.{some};
ghost use Rattle.grammar.specs.Numbers.{rule_width, row_width, mark_width, k_ident, k_rep};
ghost use Rattle.grammar.specs.Basic.{Bytes};
ghost use Rattle.grammar.specs.Tree.{Expr, E, any_node, as_ident, as_rep, as_seq};
ghost use Rattle.grammar.specs.Rows.{Span};
ghost use Rattle.grammar.specs.Text.{bytes_at, resolve};
ghost use Rattle.grammar.specs.Table.{Table, resolve_table};
ghost use Rattle.grammar.specs.Refusals.{full_marks};
ghost use Rattle.grammar.specs.Lists.{read_left, read_in};
ghost use Rattle.rows.specs.Rows.{Inside, At, Stands, kind_at, x_at, y_at, size_at};
ghost use Rattle.names.specs.Names.{First, Finds, AllIndexed, Ended, memory_word, rows_before};
ghost use Rattle.skipper.specs.Lends.{Lent};
ghost use Rattle.refusals.specs.Check.{lent};
ghost use Rattle.explanation.specs.Ends.{ends_left, ends_in, ends_name};
ghost use Rattle.explanation.specs.Explain as explain;
ghost use Rattle.explanation.specs.Explain.{Answer, not_any, of_right, of_seq, answer_told};
ghost use Rattle.explanation.proofs.Nests.{nests_at};
ghost use Rattle.explainer.specs.Reading.{number_of, Numbered, memory_at, Ready, ReadSo};
ghost use Rattle.explainer.specs.Answers.{seen_told, seen, Fresh};

use grammar::{
    ATOMIC, CHOICE, IDENT, LentTable, MARK_WIDTH, NEG_PRED, PAIR, REP, ROW_WIDTH, RULE_WIDTH,
    Refusal, SEQ, STR, TYPE,
};
use names::{END, MEMORY};
use refusals::FULL_MARKS;

// A rule's memory: it is being read; it was read to a list.
const OPEN: u32 = 1;

const LIST: u32 = 3;

// Full size of the list: a word for each rule.
pub const FULL_LIST: usize = 256;

// Why a row stays a loop, or that it becomes a Skip: the answers by their numbers, in the order in which they are asked.
#[derive(Clone, Copy, PartialEq, Eq)]
pub enum Reason {
    BecomesSkip = 0,
    NotRep = 1,
    Regroup = 2,
    NotAtomic = 3,
    NotSeq = 4,
    NotNegPred = 5,
    NotAny = 6,
    Unknown = 7,
    Other = 8,
    MetAgain = 9,
}

impl From<Reason> for u32 {
    ghost from_gives = { λ r n. n ≡ number_of r };

    fn from(r: Reason) -> u32 {
        r as u32
    }
}

// What a row is answered: the answer, the rule and the row at which the reading of its list ended, the rule met again, and how many were being read then.
#[derive(Clone, Copy)]
pub struct Explained {
    pub answer: Reason,
    pub rule: u32,
    pub at: u32,
    pub met: u32,
    pub opened: u32,
}

// An answer with its place.
fn told(answer: Reason, rule: usize, at: usize, met: usize, opened: usize) -> Explained
    requires { (rule < 2 ^ 32) × (at < 2 ^ 32) × (met < 2 ^ 32) × (opened < 2 ^ 32) }
    ensures { Numbered result answer rule at met opened }
{
    Explained {
        answer: answer,
        rule: rule as u32,
        at: at as u32,
        met: met as u32,
        opened: opened as u32,
    }
}

// One without: also that of a reading that came to its end.
fn plain(answer: Reason) -> Explained
    ensures { Numbered result answer 0 0 0 0 }
{
    told(answer, 0, 0, 0, 0)
}

// The rule that the Ident of row i names.
fn rule_at(table: &LentTable, marks: &[u32], i: usize) -> Option<usize>
    requires all_indexed { AllIndexed table.now.rules.now table.now.text.now marks.now }
    requires inside { Inside table.now.rows.now (length table.now.text.now) }
    requires i_in_bounds { (i < length table.now.rows.now / row_width) × (kind_at table.now.rows.now i ≡ k_ident) }
    ensures { Finds (length table.now.rules.now / rule_width) table.now.rules.now table.now.text.now (bytes_at table.now.text.now (x_at table.now.rows.now i, y_at table.now.rows.now i)) result }
{
    names::find_rule(
        table,
        marks,
        table.text,
        rows::x_at(table.rows, i),
        rows::y_at(table.rows, i),
    )
}

// Remembers that rule i was read to a list, if so it was.
fn close(marks: &mut [u32], i: usize, answer: Reason)
    requires { i * mark_width + memory_word < length marks.old }
    ensures { marks.new ≡ cond (eqb (number_of answer) 0) (set marks.old (i * mark_width + memory_word) 3) marks.old }
{
    if answer == Reason::BecomesSkip {
        marks[i * MARK_WIDTH + MEMORY] = LIST;
    }
}

// Writes rule i at its depth on the way to a rule met again.
fn note(list: &mut [u32], depth: usize, i: usize, answer: Reason)
    requires { (depth < length list.old) × (i < 2 ^ 32) }
    ensures { list.new ≡ cond (eqb (number_of answer) 9) (set list.old depth i) list.old }
{
    if answer == Reason::MetAgain {
        list[depth] = i as u32;
    }
}

// Reads rule i, which was not read, while `depth` others are being read.
#[cycle(read_in_read_leaf_read_rule)]
fn read_rule(
    table: &LentTable,
    marks: &mut [u32],
    list: &mut [u32],
    i: usize,
    depth: usize,
) -> Explained
    requires ready { Ready table.now.rules.now table.now.rows.now table.now.text.now marks.old list.old depth }
    requires i_in_bounds { (i < length table.now.rules.now / rule_width) × (memory_at marks.old i ≡ 0) }
    ensures { (t : Table Span) (x : Bytes) (rule at : ℕ) → Lent table.now.rules.now table.now.rows.now t → First (length table.now.rules.now / rule_width) table.now.rules.now table.now.text.now x i → ReadSo table.now.text.now t (length table.now.rules.now / rule_width) depth marks.old marks.new list.old list.new result (λ look. look x) (λ look. look rule at x) }
{
    let at = i * MARK_WIDTH;
    let end = marks[at + END] as usize;
    marks[at + MEMORY] = OPEN;
    let a = read_in(table, marks, list, i, end - 1, depth + 1);
    close(marks, i, a.answer);
    note(list, depth, i, a.answer);
    a
}

// Reads a literal, row `root` of rule i: what a Choice has on its left must be Str or Ident.
#[cycle(read_in_read_leaf_read_rule)]
fn read_leaf(
    table: &LentTable,
    marks: &mut [u32],
    list: &mut [u32],
    i: usize,
    root: usize,
    depth: usize,
) -> Explained
    requires ready { Ready table.now.rules.now table.now.rows.now table.now.text.now marks.old list.old depth }
    requires stands { Stands table.now.rows.now root × (i < length table.now.rules.now / rule_width) }
    ensures { (t : Table Span) (r : Expr Span) → Lent table.now.rules.now table.now.rows.now t → At table.now.rows.now root r → ReadSo table.now.text.now t (length table.now.rules.now / rule_width) depth marks.old marks.new list.old list.new result (λ look. read_left look (resolve table.now.text.now r)) (λ look. ends_left look i root (resolve table.now.text.now r)) }
{
    let kind = rows::kind_at(table.rows, root);
    if kind == STR {
        return plain(Reason::BecomesSkip);
    }
    if kind != IDENT {
        return told(Reason::Other, i, root, 0, 0);
    }
    let Some(j) = rule_at(table, marks, root) else {
        return told(Reason::Unknown, i, root, 0, 0);
    };
    let memory = marks[j * MARK_WIDTH + MEMORY];
    if memory == 0 {
        return read_rule(table, marks, list, j, depth);
    }
    if memory == OPEN {
        return told(Reason::MetAgain, i, root, j, depth);
    }
    plain(Reason::BecomesSkip)
}

// Reads an expression of rule i, whose root is row `root`: of a Choice the left side, then the right.
#[cycle(read_in_read_leaf_read_rule)]
fn read_in(
    table: &LentTable,
    marks: &mut [u32],
    list: &mut [u32],
    i: usize,
    root: usize,
    depth: usize,
) -> Explained
    requires ready { Ready table.now.rules.now table.now.rows.now table.now.text.now marks.old list.old depth }
    requires stands { Stands table.now.rows.now root × (i < length table.now.rules.now / rule_width) }
    ensures { (t : Table Span) (r : Expr Span) → Lent table.now.rules.now table.now.rows.now t → At table.now.rows.now root r → ReadSo table.now.text.now t (length table.now.rules.now / rule_width) depth marks.old marks.new list.old list.new result (λ look. read_in look (resolve table.now.text.now r)) (λ look. ends_in look i root (resolve table.now.text.now r)) }
{
    let mut at = root;
    while rows::kind_at(table.rows, at) == CHOICE {
        let left = rows::left_of(table.rows, at);
        let a = read_leaf(table, marks, list, i, left, depth);
        if a.answer != Reason::BecomesSkip {
            return a;
        }
        at -= 1;
    }
    read_leaf(table, marks, list, i, at, depth)
}

// Whether row i, a Seq or a Choice, has one of its kind on its left.
fn nests(rows: &[u32], i: usize) -> bool
    requires { Stands rows.now i }
    ensures { (t : Bytes) (r : Expr Span) → At rows.now i r → result ≡ nests_at (resolve t r) }
{
    let kind = rows::kind_at(rows, i);
    kind / 2 == PAIR && rows::kind_at(rows, rows::left_of(rows, i)) == kind
}

// Whether any row of the tree of row `root` does: then step 1 changes it.
fn nested(rows: &[u32], root: usize) -> bool
    requires { Stands rows.now root }
    ensures { (t : Bytes) (r : Expr Span) → At rows.now root r → result ≡ any_node nests_at (resolve t r) }
{
    let end = root + 1;
    for i in end - rows::size_at(rows, root)..end {
        if nests(rows, i) {
            return true;
        }
    }
    false
}

// The rule that has the row.
fn rule_of(rules: &[u32], marks: &[u32], row: usize) -> usize
    requires ended { Ended rules.now marks.now × (length rules.now / rule_width * mark_width ≤ length marks.now) }
    requires row_bound { row < rows_before rules.now (length rules.now / rule_width) }
    ensures { (result < length rules.now / rule_width) × (rows_before rules.now result ≤ row) × (row < rows_before rules.now (suc result)) }
{
    let count = rules.len() / RULE_WIDTH;
    for i in 0..count {
        if row < marks[i * MARK_WIDTH + END] as usize {
            return i;
        }
    }
    count
}

// Whether row i is an Ident ANY.
fn is_any(table: &LentTable, i: usize) -> bool
    requires { Inside table.now.rows.now (length table.now.text.now) × Stands table.now.rows.now i }
    ensures a_value { (r : Expr Span) → At table.now.rows.now i r → (a : Answer) → of_right (as_ident (resolve table.now.text.now r)) a ≡ cond result a not_any }
    ensures i_value { result ≡ true → size_at table.now.rows.now i ≡ 1 }
{
    rows::kind_at(table.rows, i) == IDENT
        && names::is_any(
            table.text,
            rows::x_at(table.rows, i),
            rows::y_at(table.rows, i),
        )
}

// Reads the list of row `row`, a Rep of rule i, if it is Rep of Seq of NegPred e and Ident ANY.
fn read_loop(
    table: &LentTable,
    marks: &mut [u32],
    list: &mut [u32],
    i: usize,
    row: usize,
) -> Explained
    requires fresh { Fresh table.now.rules.now table.now.rows.now table.now.text.now marks.old list.old }
    requires stands { Stands table.now.rows.now row × (kind_at table.now.rows.now row ≡ k_rep) × (i < length table.now.rules.now / rule_width) }
    ensures { (t : Table Span) (q : Expr Span) (e : E) → Lent table.now.rules.now table.now.rows.now t → At table.now.rows.now row q → as_rep (resolve table.now.text.now q) ≡ some e → seen_told result list.new ≡ answer_told (of_seq (as_seq e) (ends_in (ends_name (suc (length (resolve_table table.now.text.now t))) (resolve_table table.now.text.now t) []) i (row - 4))) list.old }
{
    let seq = row - 1;
    if rows::kind_at(table.rows, seq) != SEQ {
        return plain(Reason::NotSeq);
    }
    let left = rows::left_of(table.rows, seq);
    if rows::kind_at(table.rows, left) != NEG_PRED {
        return plain(Reason::NotNegPred);
    }
    if !is_any(table, seq - 1) {
        return plain(Reason::NotAny);
    }
    read_in(table, marks, list, i, left - 1, 0)
}

// The answer for a row of a table that passed.
fn explain_row(table: &LentTable, marks: &mut [u32], list: &mut [u32], row: usize) -> Explained
    requires { Fresh table.now.rules.now table.now.rows.now table.now.text.now marks.old list.old }
    ensures { (t : Table Span) → Lent table.now.rules.now table.now.rows.now t → seen_told result list.new ≡ answer_told (explain.explain (resolve_table table.now.text.now t) row) list.old }
{
    if row >= table.rows.len() / ROW_WIDTH || rows::kind_at(table.rows, row) != REP {
        return plain(Reason::NotRep);
    }
    let i = rule_of(table.rules, marks, row);
    if nested(table.rows, row) {
        return plain(Reason::Regroup);
    }
    if table.rules[i * RULE_WIDTH + TYPE] != ATOMIC {
        return plain(Reason::NotAtomic);
    }
    read_loop(table, marks, list, i, row)
}

// Whether the list or the marks are below full size.
fn is_short(list: usize, marks: usize) -> bool
    ensures { result ≡ (ltb list explain.full_list || ltb marks full_marks) }
{
    list < FULL_LIST || marks < FULL_MARKS
}

// Why the row stays a loop, or that it becomes a Skip: any words get an answer, or the lowest refusal that holds. The marks are a work area.
pub fn explain(
    table: &LentTable,
    row: usize,
    list: &mut [u32],
    marks: &mut [u32],
) -> Result<Explained, Refusal>
    ensures { seen result list.new ≡ explain.explain_words (lent table.now.rules.now table.now.rows.now table.now.text.now) row list.old marks.old }
{
    if is_short(list.len(), marks.len()) {
        return Err(Refusal::Area);
    }
    refusals::check(table, marks)?;
    names::forget(marks, table.rules.len() / RULE_WIDTH);
    Ok(explain_row(table, marks, list, row))
}
