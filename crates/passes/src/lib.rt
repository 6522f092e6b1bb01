// One pass over the rules of a table, for every step.
#![tactic(auto)]

ghost use Rattle.std.specs.Prelude.{◌≡◌, true, false, ℕ, ◌+◌, ◌*◌, ◌/◌, ◌^◌, ◌≤◌, ◌<◌, length, get_or};
ghost use Rattle.grammar.specs.Numbers.{rule_width, length_word, type_word};
ghost use Rattle.grammar.specs.Basic.{Bytes};
ghost use Rattle.grammar.specs.Tree.{Expr, E, size};
ghost use Rattle.grammar.specs.Rows.{Span};
ghost use Rattle.grammar.specs.Text.{resolve, bytes_at};
ghost use Rattle.grammar.specs.Table.{Table, resolve_table, Atomic, rule_head};
ghost use Rattle.grammar.specs.Steps.{each};
ghost use Rattle.rows.specs.Rows.{size_at, Inside, At, Stands};
ghost use Rattle.names.specs.Names.{rows_before};
ghost use Rattle.writing.specs.Writes.{Room, Areas, stored};
ghost use Rattle.passes.specs.Passes.{step_of, node_of, Leaves, LeavesFrom, StepAnswer, Lent, Held, Prepared, NameAnswer, RuleReady, RulePrepared, RuleAnswer, Holds, Passing, TableFits, PassAnswer, skip_step, concatenate_step};

use grammar::{
    ATOMIC, CHOICE, LENGTH, LentTable, PAIR, REP, REP_MIN_MAX, REP_ONCE, ROW_WIDTH, ROWS,
    RULE_WIDTH, SEQ, TYPE,
};
use writing::Place;

// The steps by number.
pub const ROTATE_STEP: u32 = 1;

pub const SKIP_STEP: u32 = 2;

pub const UNROLL_STEP: u32 = 3;

pub const CONCATENATE_STEP: u32 = 4;

pub const FACTOR_STEP: u32 = 5;

pub const LIST_STEP: u32 = 6;

pub const RESTORE_STEP: u32 = 7;

// Whether a step may rewrite row i in a rule of type `kind`: the row's kind comes first, it answers for most rows.
fn fires(step: u32, kind: u32, table: &LentTable, i: usize) -> bool
    requires inside { Inside table.now.rows.now (length table.now.text.now) }
    requires stands { Stands table.now.rows.now i }
    ensures { result ≡ false → (look : Table Bytes) (x : Expr Span) → At table.now.rows.now i x → node_of step look kind (resolve table.now.text.now x) ≡ resolve table.now.text.now x }
{
    let k = rows::kind_at(table.rows, i);
    match step {
        ROTATE_STEP => k / 2 == PAIR && rotator::fires(table.rows, i),
        SKIP_STEP => k == REP && skipper::fires(table.rows, i),
        UNROLL_STEP => REP_ONCE <= k && k <= REP_MIN_MAX,
        CONCATENATE_STEP => k == SEQ && concatenator::fires(table.rows, i),
        FACTOR_STEP => k == CHOICE && factorizer::fires(table, i, factorizer::tight_rule(kind)),
        LIST_STEP => k == SEQ && lister::fires(table, i),
        // restore looks by itself
        _ => true,
    }
}

// Whether a step leaves rules of type `kind` out: skip and concatenate are for Atomic ones alone.
fn spares(step: u32, kind: u32) -> bool
    ensures { (result ≡ true → (look : Table Bytes) (e : E) → step_of step look kind e ≡ e) × (result ≡ false → (step ≡ skip_step → kind ≡ Atomic) × (step ≡ concatenate_step → kind ≡ Atomic)) }
{
    kind != ATOMIC && (step == SKIP_STEP || step == CONCATENATE_STEP)
}

// Whether no row of the subtree of row `root`, whose first is row `start`, fires.
fn quiet(step: u32, kind: u32, table: &LentTable, start: usize, root: usize) -> bool
    requires inside { Inside table.now.rows.now (length table.now.text.now) }
    requires stands { Stands table.now.rows.now root }
    requires root_value { root + 1 ≡ start + size_at table.now.rows.now root }
    ensures { result ≡ true → (look : Table Bytes) (r : Expr Span) → At table.now.rows.now root r → (j : ℕ) → root < j + size r → j ≤ root → (x : Expr Span) → At table.now.rows.now j x → node_of step look kind (resolve table.now.text.now x) ≡ resolve table.now.text.now x }
{
    for i in start..root + 1 {
        if fires(step, kind, table, i) {
            return false;
        }
    }
    true
}

// Whether the rows show that a step leaves the subtree of row `root`, whose first is row `start`, of a rule of that type, as it is.
fn still(step: u32, kind: u32, table: &LentTable, start: usize, root: usize) -> bool
    requires inside { Inside table.now.rows.now (length table.now.text.now) }
    requires stands { Stands table.now.rows.now root }
    requires root_value { root + 1 ≡ start + size_at table.now.rows.now root }
    ensures { result ≡ true → Leaves step kind table.now.rows.now table.now.text.now root }
{
    spares(step, kind) || quiet(step, kind, table, start, root)
}

// The first rule from rule `from` on, at row `start`, that the rows do not show as left as it is by a step; or the number of rules.
pub fn first_fired(step: u32, table: &LentTable, from: usize, start: usize) -> usize
    requires held { Held table.now.rules.now table.now.rows.now table.now.text.now }
    requires from_in_bounds { (from ≤ length table.now.rules.now / rule_width) × (start ≡ rows_before table.now.rules.now from) }
    ensures { (from ≤ result) × (result ≤ length table.now.rules.now / rule_width) × LeavesFrom step table.now.rules.now table.now.rows.now table.now.text.now from result }
{
    if step == RESTORE_STEP {
        // restore looks by itself
        return from;
    }
    let count = table.rules.len() / RULE_WIDTH;
    let mut begin = start;
    for i in from..count {
        let at = i * RULE_WIDTH;
        let end = begin + table.rules[at + ROWS] as usize;
        if !still(step, table.rules[at + TYPE], table, begin, end - 1) {
            return i;
        }
        begin = end;
    }
    count
}

// The subtree of row `root`, of rule i, by a step, packed at p.
pub fn walk(
    step: u32,
    kind: u32,
    given: &LentTable,
    marks: &[u32],
    table: &LentTable,
    i: usize,
    root: usize,
    out: &mut [u32],
    lits: &mut [u8],
    p: Place,
) -> Option<Place>
    requires inside { Inside table.now.rows.now (length table.now.text.now) }
    requires stands { Stands table.now.rows.now root }
    requires room { Room p out.old lits.old }
    requires prepared { Prepared step kind given.now.rules.now given.now.rows.now given.now.text.now marks.now table.now.rows.now table.now.text.now root p out.old lits.old }
    ensures { (gs : Table Span) (r : Expr Span) → Lent gs given.now.rules.now given.now.rows.now → At table.now.rows.now root r → StepAnswer result p (step_of step (resolve_table given.now.text.now gs) kind (resolve table.now.text.now r)) out.old out.new lits.old lits.new }
{
    // a step begins at a row that is there
    rows::row_at(table.rows, root)?;
    match step {
        ROTATE_STEP => rotator::rotate(table, root, out, lits, p),
        SKIP_STEP => skipper::skip(given, marks, table, root, kind, out, lits, p),
        UNROLL_STEP => unroller::unroll(table, root, out, lits, p),
        CONCATENATE_STEP => concatenator::concatenate(table, root, kind, out, lits, p),
        FACTOR_STEP => factorizer::factor(table, root, kind, out, lits, p),
        LIST_STEP => lister::list(table, root, out, lits, p),
        RESTORE_STEP => restorer::restore(
            &LentTable {
                rules: given.rules,
                rows: table.rows,
                text: table.text,
            },
            marks,
            i,
            root,
            out,
            lits,
            p,
        ),
        _ => writing::copy(table, root, out, lits, p),
    }
}

// The same where it may be known that the step leaves the subtree as it is: a copy is cheaper than a walk.
pub fn stepped(
    step: u32,
    kind: u32,
    given: &LentTable,
    marks: &[u32],
    table: &LentTable,
    i: usize,
    root: usize,
    known: bool,
    out: &mut [u32],
    lits: &mut [u8],
    p: Place,
) -> Option<Place>
    requires inside { Inside table.now.rows.now (length table.now.text.now) }
    requires stands { Stands table.now.rows.now root }
    requires room { Room p out.old lits.old }
    requires prepared { Prepared step kind given.now.rules.now given.now.rows.now given.now.text.now marks.now table.now.rows.now table.now.text.now root p out.old lits.old }
    requires leaves { known ≡ true → Leaves step kind table.now.rows.now table.now.text.now root }
    ensures { (gs : Table Span) (r : Expr Span) → Lent gs given.now.rules.now given.now.rows.now → At table.now.rows.now root r → StepAnswer result p (step_of step (resolve_table given.now.text.now gs) kind (resolve table.now.text.now r)) out.old out.new lits.old lits.new }
{
    if known {
        return writing::copy(table, root, out, lits, p);
    }
    walk(step, kind, given, marks, table, i, root, out, lits, p)
}

// Writes n bytes of a text at p.
fn put_bytes(text: &[u8], x: usize, n: usize, lits: &mut [u8], p: Place) -> Option<Place>
    requires { (x + n ≤ length text.now) × (p.text ≤ length lits.old) }
    ensures { NameAnswer result p (bytes_at text.now (x, n)) lits.old lits.new }
{
    let from = p.text;
    if lits.len() - from < n {
        return None;
    }
    writing::copy_bytes(text, x, n, lits, from);
    Some(Place {
        rows: p.rows,
        text: from + n,
    })
}

// Writes a rule's name, of n bytes, at p.
fn put_name(text: &[u8], x: u32, n: u32, lits: &mut [u8], p: Place) -> Option<Place>
    requires { (x + n ≤ length text.now) × (p.text ≤ length lits.old) }
    ensures { NameAnswer result p (bytes_at text.now (x, n)) lits.old lits.new }
{
    put_bytes(text, x as usize, n as usize, lits, p)
}

// Writes the words of rule i: its name of n bytes at x, its type and its rows. As many as a row has.
fn set_rule(heads: &mut [u32], i: usize, x: u32, n: u32, kind: u32, size: u32)
    requires { i < length heads.old / rule_width }
    ensures { heads.new ≡ stored heads.old (i * rule_width) (rule_head (x, n) kind size) }
{
    writing::set_row(heads, i, x, n, kind, size);
}

// Rule i, whose root is row `root`: its name, its expression by the step, its four words.
pub fn one_rule(
    step: u32,
    given: &LentTable,
    marks: &[u32],
    table: &LentTable,
    i: usize,
    root: usize,
    known: bool,
    heads: &mut [u32],
    out: &mut [u32],
    lits: &mut [u8],
    p: Place,
) -> Option<Place>
    requires inside { Inside table.now.rows.now (length table.now.text.now) }
    requires stands { Stands table.now.rows.now root }
    requires room { Room p out.old lits.old }
    requires rule_ready { RuleReady table.now.rules.now i (length table.now.text.now) heads.old }
    requires rule_prepared { RulePrepared step (get_or table.now.rules.now (i * rule_width + type_word) 0) given.now.rules.now given.now.rows.now given.now.text.now marks.now table.now.rows.now table.now.text.now root p (bytes_at table.now.text.now (get_or table.now.rules.now (i * rule_width) 0, get_or table.now.rules.now (i * rule_width + length_word) 0)) out.old lits.old }
    requires leaves { known ≡ true → Leaves step (get_or table.now.rules.now (i * rule_width + type_word) 0) table.now.rows.now table.now.text.now root }
    ensures { (gs : Table Span) (r : Expr Span) → Lent gs given.now.rules.now given.now.rows.now → At table.now.rows.now root r → RuleAnswer result p i (get_or table.now.rules.now (i * rule_width + type_word) 0) (bytes_at table.now.text.now (get_or table.now.rules.now (i * rule_width) 0, get_or table.now.rules.now (i * rule_width + length_word) 0)) (step_of step (resolve_table given.now.text.now gs) (get_or table.now.rules.now (i * rule_width + type_word) 0) (resolve table.now.text.now r)) heads.old heads.new out.old out.new lits.old lits.new }
{
    let at = i * RULE_WIDTH;
    let x = table.rules[at];
    let n = table.rules[at + LENGTH];
    let kind = table.rules[at + TYPE];
    let q = put_name(table.text, x, n, lits, p)?;
    let s = stepped(
        step, kind, given, marks, table, i, root, known, out, lits, q,
    )?;
    let size = s.rows - p.rows;
    set_rule(heads, i, p.text as u32, n, kind, size as u32);
    Some(s)
}

// A step on every rule of the lent table, of which the first `stay` are known to be left as they are: the new table packed in front of the three areas, or
// None where it does not fit.
pub fn pass(
    step: u32,
    given: &LentTable,
    marks: &[u32],
    table: &LentTable,
    heads: &mut [u32],
    out: &mut [u32],
    lits: &mut [u8],
    stay: usize,
) -> Option<Place>
    requires passing { Passing step given.now.rules.now given.now.rows.now given.now.text.now marks.now table.now.rules.now table.now.rows.now table.now.text.now heads.old out.old lits.old }
    requires leaves_from { LeavesFrom step table.now.rules.now table.now.rows.now table.now.text.now 0 stay }
    requires rules_in_bounds { length table.now.rules.now ≤ length heads.old }
    requires areas { Areas out.old lits.old }
    ensures { (gs ts : Table Span) → Lent gs given.now.rules.now given.now.rows.now → Holds ts table.now.rules.now table.now.rows.now table.now.text.now → PassAnswer result (each (step_of step (resolve_table given.now.text.now gs)) (resolve_table table.now.text.now ts)) heads.old out.old lits.old heads.new out.new lits.new }
{
    let count = table.rules.len() / RULE_WIDTH;
    let mut p = Place { rows: 0, text: 0 };
    // the rules before this one, from rule i on, are known to stay as they are
    let mut next = stay;
    let mut end: usize = 0;
    for i in 0..count {
        end += table.rules[i * RULE_WIDTH + ROWS] as usize;
        p = one_rule(
            step,
            given,
            marks,
            table,
            i,
            end - 1,
            i < next,
            heads,
            out,
            lits,
            p,
        )?;
        if i == next {
            next = first_fired(step, table, i + 1, end);
        }
    }
    Some(p)
}
