// Skip lists. A rule's memory is word 1 of its mark: 0 not read, 1 being read, 2 no list, 3 a list.
// Once all are read, a list is 3 + k: its strings are read in rule k's expression.
#![tactic(auto)]

ghost use Rattle.std.specs.Prelude.{◌≡◌, false, List, ℕ, ◌+◌, ◌-◌, ◌*◌, ◌/◌, ◌^◌, ◌≤◌, ◌<◌, length, get_or};
ghost use Rattle.std.proofs.Math.Option.{some};
ghost use Rattle.std.proofs.Math.ListN.{get_elem?};
ghost use Rattle.grammar.specs.Numbers.{rule_width, row_width, mark_width, k_str, k_ident, k_rep};
ghost use Rattle.grammar.specs.Basic.{Bytes, any};
ghost use Rattle.grammar.specs.Tree.{Expr, Un, Rep, un, skip, any_node, as_neg_pred};
ghost use Rattle.grammar.specs.Rows.{Span};
ghost use Rattle.grammar.specs.Text.{bytes_at, resolve};
ghost use Rattle.grammar.specs.Table.{Table, Rule, rule_words, resolve_rule, resolve_table, Atomic};
ghost use Rattle.grammar.specs.Lists.{strings, read_left, read_in, loop_over, skip_list};
ghost use Rattle.grammar.specs.Steps.{rotate, is_atomic, top_down, or_same, skip?, skip_to};
ghost use Rattle.rows.specs.Rows.{Inside, At, Stands, kind_at, x_at, y_at, size_at};
ghost use Rattle.writing.specs.Writes.{Room, RowAnswer, LitAnswer, StrsAnswer, Answer};
ghost use Rattle.names.specs.Names.{First, Finds, AllIndexed, IsName, memory_word};
ghost use Rattle.chains.specs.Runs.{wrap};
ghost use Rattle.skipper.specs.Memory.{by_marks};
ghost use Rattle.skipper.specs.Lends.{lists_of, Given, Lent, Steady, memory_of, ReadsOf};
ghost use Rattle.skipper.specs.Loops.{LoopAnswer, TreeRows, open_at, rule_open, LoopsOf};
ghost use Rattle.skipper.specs.Ways.{Spells, Gives, told_at, TargetsOf, Targets, Leading, Relisted, Led};
ghost use Rattle.skipper.specs.Lists.{ListsAnswer};
ghost use Rattle.skipper.specs.declared.Node.TheVariants.{Pair};
ghost use Rattle.skipper.specs.Skips.{node_of, is_list, ListAnswer, Spelled, literal_at, Named, BodyAt, Skipped, Settles, Settling, FallAnswer, Rising, RisenAnswer, CrownedAnswer};

use grammar::{
    ATOMIC, CHOICE, IDENT, LentTable, MARK_WIDTH, NEG_PRED, REP, ROW_WIDTH, ROWS, RULE_WIDTH,
    Refusal, SEQ, SKIP, STR, TYPE,
};
use names::{END, MEMORY};
use rows::Shape;
use writing::Place;

// The memory of a rule that has a list.
const LIST: u32 = 3;

// Why a reading gives no list: it comes to a rule that is being read, or to what has none. By the memory that it leaves.
#[derive(Clone, Copy, PartialEq, Eq)]
enum Unlisted {
    Again = 1,
    Absent = 2,
}

// How a walk from the top goes on: with no child, with one, with two.
#[derive(Clone, Copy)]
enum Node {
    Leaf,
    Single,
    Pair,
}

// Where a way down through rows with one child ends: with nothing to skip, at a loop over row e that has a list, at a row with two children.
#[derive(Clone, Copy)]
enum Fallen {
    Plain,
    Looped { base: usize, e: usize },
    Forked { base: usize, kind: u32 },
}

// The rule of the table with the text `given` that the Ident of row `root` names.
fn rule_at(given: &LentTable, marks: &[u32], table: &LentTable, root: usize) -> Option<usize>
    requires all_indexed { AllIndexed given.now.rules.now given.now.text.now marks.now }
    requires inside { Inside table.now.rows.now (length table.now.text.now) }
    requires root_in_bounds { root < length table.now.rows.now / row_width }
    requires root_value { kind_at table.now.rows.now root ≡ k_ident }
    ensures { Finds (length given.now.rules.now / rule_width) given.now.rules.now given.now.text.now (literal_at table.now.rows.now table.now.text.now root) result }
{
    names::find_rule(
        given,
        marks,
        table.text,
        rows::x_at(table.rows, root),
        rows::y_at(table.rows, root),
    )
}

// The memory that a reading leaves.
fn memory_of(a: Result<(), Unlisted>) -> u32
    ensures { result ≡ memory_of a }
{
    match a {
        Ok(()) => LIST,
        Err(e) => e as u32,
    }
}

// The reading that left a memory.
fn recalled(w: u32) -> Result<(), Unlisted>
    ensures { 1 ≤ w → w ≤ 3 → memory_of result ≡ w }
{
    if w == Unlisted::Again as u32 {
        return Err(Unlisted::Again);
    }
    if w == Unlisted::Absent as u32 {
        return Err(Unlisted::Absent);
    }
    Ok(())
}

// Reads rule i, which was not read.
#[cycle(read_in_read_leaf_read_rule)]
fn read_rule(table: &LentTable, marks: &mut [u32], i: usize) -> Result<(), Unlisted>
    requires given { Given table.now.rules.now table.now.rows.now table.now.text.now marks.old }
    requires i_in_bounds { i < length table.now.rules.now / rule_width }
    requires memory_word_value { get_or marks.old (i * mark_width + memory_word) 0 ≡ 0 }
    ensures steady { Steady marks.old marks.new }
    ensures reads_of { (t : Table Span) (x : Bytes) → Lent table.now.rules.now table.now.rows.now t → First (length table.now.rules.now / rule_width) table.now.rules.now table.now.text.now x i → ReadsOf table.now.text.now t marks.old marks.new (memory_of result) (λ look. look x) }
{
    let at = i * MARK_WIDTH;
    let end = marks[at + END] as usize;
    marks[at + MEMORY] = Unlisted::Again as u32;
    let a = read_in(table, marks, end - 1);
    marks[at + MEMORY] = memory_of(a);
    a
}

// Reads a literal: what a Choice has on its left must be Str or Ident.
#[cycle(read_in_read_leaf_read_rule)]
fn read_leaf(table: &LentTable, marks: &mut [u32], root: usize) -> Result<(), Unlisted>
    requires given { Given table.now.rules.now table.now.rows.now table.now.text.now marks.old }
    requires stands { Stands table.now.rows.now root }
    ensures steady { Steady marks.old marks.new }
    ensures reads_of { (t : Table Span) (r : Expr Span) → Lent table.now.rules.now table.now.rows.now t → At table.now.rows.now root r → ReadsOf table.now.text.now t marks.old marks.new (memory_of result) (λ look. read_left look (resolve table.now.text.now r)) }
{
    let kind = rows::kind_at(table.rows, root);
    if kind == STR {
        return Ok(());
    }
    if kind != IDENT {
        return Err(Unlisted::Absent);
    }
    let Some(i) = rule_at(table, marks, &*table, root) else {
        return Err(Unlisted::Absent);
    };
    let mark = marks[i * MARK_WIDTH + MEMORY];
    if mark != 0 {
        return recalled(mark);
    }
    read_rule(table, marks, i)
}

// Reads a rule's expression: of a Choice the left side, then the right.
#[cycle(read_in_read_leaf_read_rule)]
fn read_in(table: &LentTable, marks: &mut [u32], root: usize) -> Result<(), Unlisted>
    requires given { Given table.now.rules.now table.now.rows.now table.now.text.now marks.old }
    requires stands { Stands table.now.rows.now root }
    ensures steady { Steady marks.old marks.new }
    ensures reads_of { (t : Table Span) (r : Expr Span) → Lent table.now.rules.now table.now.rows.now t → At table.now.rows.now root r → ReadsOf table.now.text.now t marks.old marks.new (memory_of result) (λ look. read_in look (resolve table.now.text.now r)) }
{
    if rows::kind_at(table.rows, root) != CHOICE {
        return read_leaf(table, marks, root);
    }
    read_leaf(table, marks, rows::left_of(table.rows, root))?;
    read_in(table, marks, root - 1)
}

// Reads the expression of a loop, which counts as rotated: the leaves of its Choice tree from left to right.
fn read_leaves(table: &LentTable, marks: &mut [u32], root: usize) -> Result<(), Unlisted>
    requires given { Given table.now.rules.now table.now.rows.now table.now.text.now marks.old }
    requires stands { Stands table.now.rows.now root }
    ensures steady { Steady marks.old marks.new }
    ensures reads_of { (t : Table Span) (r : Expr Span) → Lent table.now.rules.now table.now.rows.now t → At table.now.rows.now root r → ReadsOf table.now.text.now t marks.old marks.new (memory_of result) (λ look. read_in look (rotate (resolve table.now.text.now r))) }
{
    if rows::kind_at(table.rows, root) != CHOICE {
        return read_leaf(table, marks, root);
    }
    read_leaves(table, marks, rows::left_of(table.rows, root))?;
    read_leaves(table, marks, root - 1)
}

// The row of e where !e ~ ANY stands at `root`.
fn in_loop(table: &LentTable, root: usize) -> Option<usize>
    requires inside { Inside table.now.rows.now (length table.now.text.now) }
    requires stands { Stands table.now.rows.now root }
    ensures { (r : Expr Span) → At table.now.rows.now root r → LoopAnswer result table.now.rows.now table.now.text.now (loop_over (un Rep (resolve table.now.text.now r))) }
{
    if rows::kind_at(table.rows, root) != SEQ {
        return None;
    }
    let right = root - 1;
    if rows::kind_at(table.rows, right) != IDENT {
        return None;
    }
    if names::is_any(
        table.text,
        rows::x_at(table.rows, right),
        rows::y_at(table.rows, right),
    ) {
        after_not(table.rows, right - 1)
    } else {
        None
    }
}

// The row of e where !e stands at `root`.
fn after_not(rows: &[u32], root: usize) -> Option<usize>
    requires { Stands rows.now root }
    ensures { (s : Bytes) (r : Expr Span) → At rows.now root r → LoopAnswer result rows.now s (as_neg_pred (resolve s r)) }
{
    if rows::kind_at(rows, root) != NEG_PRED {
        return None;
    }
    Some(root - 1)
}

// Reads row i if it is a loop (!e ~ ANY)*.
fn read_loop(table: &LentTable, marks: &mut [u32], i: usize) -> Result<(), Refusal>
    requires given { Given table.now.rules.now table.now.rows.now table.now.text.now marks.old }
    requires stands { Stands table.now.rows.now i }
    ensures steady { Steady marks.old marks.new }
    ensures loops_of { (t : Table Span) (r : Expr Span) → Lent table.now.rules.now table.now.rows.now t → At table.now.rows.now i r → LoopsOf table.now.text.now t marks.old marks.new result (λ look. open_at look (resolve table.now.text.now r)) }
{
    if rows::kind_at(table.rows, i) != REP {
        return Ok(());
    }
    let Some(e) = in_loop(table, i - 1) else {
        return Ok(());
    };
    match read_leaves(table, marks, e) {
        Err(Unlisted::Again) => Err(Refusal::Cycle),
        Err(Unlisted::Absent) => Ok(()),
        Ok(()) => Ok(()),
    }
}

// Reads the loops of the rows from `from` to `end`, which are one tree.
fn read_loops(table: &LentTable, marks: &mut [u32], from: usize, end: usize) -> Result<(), Refusal>
    requires given { Given table.now.rules.now table.now.rows.now table.now.text.now marks.old }
    requires tree_rows { TreeRows table.now.rows.now from end }
    ensures steady { Steady marks.old marks.new }
    ensures loops_of { (t : Table Span) (r : Expr Span) → Lent table.now.rules.now table.now.rows.now t → At table.now.rows.now (end - 1) r → LoopsOf table.now.text.now t marks.old marks.new result (λ look. any_node (open_at look) (resolve table.now.text.now r)) }
{
    for i in from..end {
        read_loop(table, marks, i)?;
    }
    Ok(())
}

// Reads the loops of rule k, if it is Atomic.
fn read_atomic(table: &LentTable, marks: &mut [u32], k: usize) -> Result<(), Refusal>
    requires given { Given table.now.rules.now table.now.rows.now table.now.text.now marks.old }
    requires k_in_bounds { k < length table.now.rules.now / rule_width }
    ensures steady { Steady marks.old marks.new }
    ensures loops_of { (t : Table Span) (r : Rule Span) → Lent table.now.rules.now table.now.rows.now t → get_elem? t k ≡ some r → LoopsOf table.now.text.now t marks.old marks.new result (λ look. rule_open look (resolve_rule table.now.text.now r)) }
{
    let at = k * RULE_WIDTH;
    if table.rules[at + TYPE] != ATOMIC {
        return Ok(());
    }
    let end = marks[k * MARK_WIDTH + END] as usize;
    read_loops(table, marks, end - table.rules[at + ROWS] as usize, end)
}

// Reads the loops of all Atomic rules.
fn read_rules(table: &LentTable, marks: &mut [u32]) -> Result<(), Refusal>
    requires { Given table.now.rules.now table.now.rows.now table.now.text.now marks.old }
    ensures steady { Steady marks.old marks.new }
    ensures loops_of { (t : Table Span) → Lent table.now.rules.now table.now.rows.now t → LoopsOf table.now.text.now t marks.old marks.new result (λ look. any (rule_open look) (resolve_table table.now.text.now t)) }
{
    let count = table.rules.len() / RULE_WIDTH;
    for k in 0..count {
        read_atomic(table, marks, k)?;
    }
    Ok(())
}

// The rule in whose expression the strings of rule i are read.
fn told(marks: &[u32], i: usize) -> usize
    requires { i * mark_width + memory_word < length marks.now }
    ensures { result ≡ told_at marks.now i }
{
    let w = marks[i * MARK_WIDTH + MEMORY];
    if w >= LIST { (w - LIST) as usize } else { i }
}

// The rule that the expression of rule i names, where it is an Ident, else rule i.
fn named_by(table: &LentTable, marks: &[u32], i: usize) -> usize
    requires given { Given table.now.rules.now table.now.rows.now table.now.text.now marks.now }
    requires i_in_bounds { i < length table.now.rules.now / rule_width }
    ensures { (t : Table Span) → Lent table.now.rules.now table.now.rows.now t → Gives (resolve_table table.now.text.now t) i result }
{
    let root = marks[i * MARK_WIDTH + END] as usize - 1;
    if rows::kind_at(table.rows, root) != IDENT {
        return i;
    }
    // not names::find_known: that the name is a rule's follows from the list alone, which is not asked for here
    rule_at(table, marks, &*table, root).unwrap_or(i)
}

// Tells rule i, if it has a list, which rule it names. Whether that is another.
fn tell(table: &LentTable, marks: &mut [u32], i: usize) -> bool
    requires given { Given table.now.rules.now table.now.rows.now table.now.text.now marks.old }
    requires i_in_bounds { i < length table.now.rules.now / rule_width }
    ensures relisted { Relisted marks.old marks.new }
    ensures targets_of { (t : Table Span) → Lent table.now.rules.now table.now.rows.now t → TargetsOf i (resolve_table table.now.text.now t) marks.old → TargetsOf (i + 1) (resolve_table table.now.text.now t) marks.new }
{
    if marks[i * MARK_WIDTH + MEMORY] < LIST {
        return false;
    }
    let j = named_by(table, marks, i);
    marks[i * MARK_WIDTH + MEMORY] = LIST + j as u32;
    j != i
}

// Tells every rule that has a list which rule it names. Whether one of them names another.
fn tell_all(table: &LentTable, marks: &mut [u32]) -> bool
    requires { Given table.now.rules.now table.now.rows.now table.now.text.now marks.old }
    ensures relisted { Relisted marks.old marks.new }
    ensures targets { (t : Table Span) → Lent table.now.rules.now table.now.rows.now t → Targets (resolve_table table.now.text.now t) marks.new }
{
    let count = table.rules.len() / RULE_WIDTH;
    let mut others = false;
    for i in 0..count {
        others |= tell(table, marks, i);
    }
    others
}

// Rule i was told rule k: tells it what rule k was told.
fn pass_on(marks: &mut [u32], i: usize)
    requires memory_word_in_bounds { i * mark_width + memory_word < length marks.old }
    requires memory_word_in_bounds_2 { told_at marks.old i * mark_width + memory_word < length marks.old }
    ensures relisted { Relisted marks.old marks.new }
    ensures targets { (t : Table Bytes) → i < length t → Targets t marks.old → Targets t marks.new }
{
    let k = told(marks, i);
    let w = marks[k * MARK_WIDTH + MEMORY];
    if w >= LIST {
        marks[i * MARK_WIDTH + MEMORY] = w;
    }
}

// The same for each of `count` rules: each then spans at least twice as many steps of its way, or all.
fn pass_all(marks: &mut [u32], count: usize)
    requires mark_width_in_bounds { count * mark_width ≤ length marks.old }
    requires leading { Leading count marks.old }
    ensures relisted { Relisted marks.old marks.new }
    ensures targets { (t : Table Bytes) → count ≡ length t → Targets t marks.old → Targets t marks.new }
{
    for i in 0..count {
        pass_on(marks, i);
    }
}

// Tells every rule that has a list in which rule's expression its strings are read, past rules that only name another.
fn shorten(table: &LentTable, marks: &mut [u32])
    requires { Given table.now.rules.now table.now.rows.now table.now.text.now marks.old }
    ensures relisted { Relisted marks.old marks.new }
    ensures targets { (t : Table Span) → Lent table.now.rules.now table.now.rows.now t → Targets (resolve_table table.now.text.now t) marks.new }
{
    let count = table.rules.len() / RULE_WIDTH;
    // most tables have no way to shorten
    if !tell_all(table, marks) {
        return;
    }
    let mut steps = 1;
    while steps < count {
        pass_all(marks, count);
        steps *= 2;
    }
}

// Reads every skip list of a table as it was given. The one refusal is Cycle.
pub fn read_lists(table: &LentTable, marks: &mut [u32]) -> Result<(), Refusal>
    requires { Given table.now.rules.now table.now.rows.now table.now.text.now marks.old }
    ensures given { Given table.now.rules.now table.now.rows.now table.now.text.now marks.new }
    ensures lists_answer { (t : Table Span) → Lent table.now.rules.now table.now.rows.now t → ListsAnswer result (resolve_table table.now.text.now t) marks.new }
{
    names::forget(marks, table.rules.len() / RULE_WIDTH);
    read_rules(table, marks)?;
    shorten(table, marks);
    Ok(())
}

// How a walk goes on at a row of a kind.
fn node_of(kind: u32) -> Node
    ensures { result ≡ node_of kind }
{
    match rows::shape_of(kind) {
        Shape::Lit | Shape::Num | Shape::Skips => Node::Leaf,
        Shape::One => Node::Single,
        Shape::Two => Node::Pair,
    }
}

// Whether a literal has a list, by the marks of the table with the text `given`.
fn leaf_listed(given: &LentTable, marks: &[u32], table: &LentTable, root: usize) -> bool
    requires all_indexed { AllIndexed given.now.rules.now given.now.text.now marks.now }
    requires inside { Inside table.now.rows.now (length table.now.text.now) }
    requires stands { Stands table.now.rows.now root }
    ensures { (t : Table Span) (r : Expr Span) → given.now.rules.now ≡ rule_words t → At table.now.rows.now root r → result ≡ is_list (read_left (by_marks (lists_of (resolve_table given.now.text.now t) marks.now)) (resolve table.now.text.now r)) }
{
    let kind = rows::kind_at(table.rows, root);
    if kind == STR {
        return true;
    }
    if kind != IDENT {
        return false;
    }
    let Some(i) = rule_at(given, marks, table, root) else {
        return false;
    };
    marks[i * MARK_WIDTH + MEMORY] >= LIST
}

// Whether an expression has a list, by the marks.
fn listed(given: &LentTable, marks: &[u32], table: &LentTable, root: usize) -> bool
    requires all_indexed { AllIndexed given.now.rules.now given.now.text.now marks.now }
    requires inside { Inside table.now.rows.now (length table.now.text.now) }
    requires stands { Stands table.now.rows.now root }
    ensures { (t : Table Span) (r : Expr Span) → given.now.rules.now ≡ rule_words t → At table.now.rows.now root r → result ≡ is_list (read_in (by_marks (lists_of (resolve_table given.now.text.now t) marks.now)) (resolve table.now.text.now r)) }
{
    if rows::kind_at(table.rows, root) != CHOICE {
        return leaf_listed(given, marks, table, root);
    }
    leaf_listed(given, marks, table, rows::left_of(table.rows, root))
        && listed(given, marks, table, root - 1)
}

// The row of e where a loop (!e ~ ANY)* stands at `root` and e has a list.
fn list_at(given: &LentTable, marks: &[u32], table: &LentTable, root: usize) -> Option<usize>
    requires all_indexed { AllIndexed given.now.rules.now given.now.text.now marks.now }
    requires inside { Inside table.now.rows.now (length table.now.text.now) }
    requires stands { Stands table.now.rows.now root }
    ensures { (t : Table Span) (r : Expr Span) → given.now.rules.now ≡ rule_words t → At table.now.rows.now root r → ListAnswer result table.now.rows.now table.now.text.now (by_marks (lists_of (resolve_table given.now.text.now t) marks.now)) (resolve table.now.text.now r) }
{
    if rows::kind_at(table.rows, root) != REP {
        return None;
    }
    let e = in_loop(table, root - 1)?;
    listed(given, marks, table, e).then_some(e)
}

// Writes the Str of row `root`.
fn put_str(
    table: &LentTable,
    root: usize,
    out: &mut [u32],
    lits: &mut [u8],
    p: Place,
) -> Option<Place>
    requires inside { Inside table.now.rows.now (length table.now.text.now) }
    requires root_in_bounds { root < length table.now.rows.now / row_width }
    requires root_value { kind_at table.now.rows.now root ≡ k_str }
    requires room { Room p out.old lits.old }
    ensures { LitAnswer result p 0 (literal_at table.now.rows.now table.now.text.now root) out.old out.new lits.old lits.new }
{
    writing::put_lit(
        table.text,
        rows::x_at(table.rows, root),
        rows::y_at(table.rows, root),
        STR,
        out,
        lits,
        p,
    )
}

// The row of an expression that gives the strings of the Ident of row `root`, which names a rule of the table with the text `given_text`.
fn body_of(given: &LentTable, marks: &[u32], table: &LentTable, root: usize) -> usize
    requires named { Named given.now.rules.now given.now.text.now marks.now }
    requires inside { Inside table.now.rows.now (length table.now.text.now) }
    requires root_in_bounds { root < length table.now.rows.now / row_width }
    requires root_value { kind_at table.now.rows.now root ≡ k_ident }
    requires name { IsName given.now.rules.now given.now.text.now (literal_at table.now.rows.now table.now.text.now root) }
    ensures { (w : List ℕ) (t : Table Span) → Lent given.now.rules.now w t → Targets (resolve_table given.now.text.now t) marks.now → BodyAt result w given.now.text.now t (literal_at table.now.rows.now table.now.text.now root) }
{
    let x = rows::x_at(table.rows, root);
    let y = rows::y_at(table.rows, root);
    let i = names::find_known(given, marks, table.text, x, y);
    let k = told(marks, i);
    marks[k * MARK_WIDTH + END] as usize - 1
}

// Writes the strings of a literal: itself, or those of the rule that it names, through at most `fuel` rules.
#[cycle(write_leaf_write_rule)]
fn write_leaf(
    given: &LentTable,
    marks: &[u32],
    table: &LentTable,
    root: usize,
    fuel: usize,
    out: &mut [u32],
    lits: &mut [u8],
    p: Place,
) -> Option<Place>
    requires led { Led given.now.rules.now given.now.rows.now given.now.text.now marks.now }
    requires inside { Inside table.now.rows.now (length table.now.text.now) }
    requires spelled { Spelled given.now.rules.now given.now.rows.now given.now.text.now table.now.rows.now table.now.text.now root fuel read_left }
    requires room { Room p out.old lits.old }
    ensures { (t : Table Span) (r : Expr Span) (ss : List Bytes) → Lent given.now.rules.now given.now.rows.now t → At table.now.rows.now root r → Spells (resolve_table given.now.text.now t) fuel (λ look. read_left look (resolve table.now.text.now r)) ss → StrsAnswer result p ss out.old out.new lits.old lits.new }
{
    if rows::kind_at(table.rows, root) == STR {
        return put_str(table, root, out, lits, p);
    }
    let body = body_of(given, marks, table, root);
    write_rule(given, marks, body, fuel - 1, out, lits, p)
}

// Writes the strings of a rule's expression, in reading order: a call for what a Choice has on its left, none for the last leaf.
#[cycle(write_leaf_write_rule)]
fn write_rule(
    table: &LentTable,
    marks: &[u32],
    root: usize,
    fuel: usize,
    out: &mut [u32],
    lits: &mut [u8],
    p: Place,
) -> Option<Place>
    requires led { Led table.now.rules.now table.now.rows.now table.now.text.now marks.now }
    requires spelled { Spelled table.now.rules.now table.now.rows.now table.now.text.now table.now.rows.now table.now.text.now root fuel read_in }
    requires room { Room p out.old lits.old }
    ensures { (t : Table Span) (r : Expr Span) (ss : List Bytes) → Lent table.now.rules.now table.now.rows.now t → At table.now.rows.now root r → Spells (resolve_table table.now.text.now t) fuel (λ look. read_in look (resolve table.now.text.now r)) ss → StrsAnswer result p ss out.old out.new lits.old lits.new }
{
    let mut at = root;
    let mut fuel_left = fuel;
    let mut q = p;
    while rows::kind_at(table.rows, at) != STR {
        if rows::kind_at(table.rows, at) == CHOICE {
            let leaf = rows::left_of(table.rows, at);
            q = write_leaf(table, marks, &*table, leaf, fuel_left, out, lits, q)?;
            at -= 1;
        } else {
            at = body_of(table, marks, &*table, at);
            fuel_left -= 1;
        }
    }
    put_str(table, at, out, lits, q)
}

// Writes the strings of a loop's expression that has a list, in reading order.
fn write_list(
    given: &LentTable,
    marks: &[u32],
    table: &LentTable,
    root: usize,
    fuel: usize,
    out: &mut [u32],
    lits: &mut [u8],
    p: Place,
) -> Option<Place>
    requires led { Led given.now.rules.now given.now.rows.now given.now.text.now marks.now }
    requires inside { Inside table.now.rows.now (length table.now.text.now) }
    requires spelled { Spelled given.now.rules.now given.now.rows.now given.now.text.now table.now.rows.now table.now.text.now root fuel read_in }
    requires room { Room p out.old lits.old }
    ensures { (t : Table Span) (r : Expr Span) (ss : List Bytes) → Lent given.now.rules.now given.now.rows.now t → At table.now.rows.now root r → Spells (resolve_table given.now.text.now t) fuel (λ look. read_in look (resolve table.now.text.now r)) ss → StrsAnswer result p ss out.old out.new lits.old lits.new }
{
    let mut at = root;
    let mut q = p;
    while rows::kind_at(table.rows, at) == CHOICE {
        let leaf = rows::left_of(table.rows, at);
        q = write_leaf(given, marks, table, leaf, fuel, out, lits, q)?;
        at -= 1;
    }
    write_leaf(given, marks, table, at, fuel, out, lits, q)
}

// Goes down from `root` through rows with one child, as long as none is a loop that has a list.
fn fall(given: &LentTable, marks: &[u32], table: &LentTable, root: usize) -> Fallen
    requires all_indexed { AllIndexed given.now.rules.now given.now.text.now marks.now }
    requires inside { Inside table.now.rows.now (length table.now.text.now) }
    requires stands { Stands table.now.rows.now root }
    ensures { (t : Table Span) (r : Expr Span) → given.now.rules.now ≡ rule_words t → At table.now.rows.now root r → Settles (resolve_table given.now.text.now t) marks.now (resolve table.now.text.now r) → FallAnswer result (resolve_table given.now.text.now t) marks.now table.now.rows.now table.now.text.now root r }
{
    let mut base = root;
    while base > 0 {
        let kind = rows::kind_at(table.rows, base);
        match node_of(kind) {
            Node::Leaf => {
                return Fallen::Plain;
            }
            Node::Single => {
                if let Some(e) = list_at(given, marks, table, base) {
                    return Fallen::Looped { base, e };
                }
                base -= 1;
            }
            Node::Pair => {
                return Fallen::Forked { base, kind };
            }
        }
    }
    Fallen::Plain
}

// Writes the rows after `base` up to `root` over the tree that stands from p to q, with its sizes.
fn rise(
    rows: &[u32],
    base: usize,
    root: usize,
    out: &mut [u32],
    p: Place,
    q: Place,
) -> Option<Place>
    requires { Rising rows.now base root p q out.old }
    ensures { (us : List Un) (r : Expr Span) → At rows.now root (wrap us r) → base + length us ≡ root → RisenAnswer result q p us out.old out.new }
{
    let mut s = q;
    for i in base..root {
        let row = rows::row_at(rows, i + 1)?;
        s = writing::put_over(out, p, s, row.kind, row.x, row.y)?;
    }
    Some(s)
}

// Writes a row over what stands from p to q, and over it the rows after `base` up to `root`.
fn crown(
    rows: &[u32],
    base: usize,
    root: usize,
    out: &mut [u32],
    p: Place,
    q: Place,
    kind: u32,
    x: u32,
) -> Option<Place>
    requires { Rising rows.now base root p q out.old }
    ensures { (us : List Un) (r : Expr Span) → At rows.now root (wrap us r) → base + length us ≡ root → CrownedAnswer result q p (kind, x, 0) us out.old out.new }
{
    let s = writing::put_over(out, p, q, kind, x, 0)?;
    rise(rows, base, root, out, p, s)
}

// Writes the Skip of the loop's expression e, and over it the rows after `base` up to `root`.
fn skip_loop(
    given: &LentTable,
    marks: &[u32],
    table: &LentTable,
    base: usize,
    root: usize,
    e: usize,
    out: &mut [u32],
    lits: &mut [u8],
    p: Place,
) -> Option<Place>
    requires led { Led given.now.rules.now given.now.rows.now given.now.text.now marks.now }
    requires inside { Inside table.now.rows.now (length table.now.text.now) }
    requires skipped { Skipped given.now.rules.now given.now.rows.now given.now.text.now table.now.rows.now table.now.text.now e }
    requires base_le_root { (base ≤ root) × (root < length table.now.rows.now / row_width) }
    requires room { Room p out.old lits.old }
    ensures { (t : Table Span) (us : List Un) (c r : Expr Span) (ss : List Bytes) → Lent given.now.rules.now given.now.rows.now t → At table.now.rows.now root (wrap us c) → base + length us ≡ root → At table.now.rows.now e r → skip_list (resolve_table given.now.text.now t) (resolve table.now.text.now r) ≡ strings ss → Answer result p (wrap us (skip ss)) out.old out.new lits.old lits.new }
{
    let fuel = given.rules.len() / RULE_WIDTH + 1;
    let q = write_list(given, marks, table, e, fuel, out, lits, p)?;
    let n = q.rows - p.rows;
    crown(table.rows, base, root, out, p, q, SKIP, n as u32)
}

// Step 2 at a row with two children, and over it the rows after `base` up to `root`.
#[cycle(skip_fork_skip_tree)]
fn skip_fork(
    given: &LentTable,
    marks: &[u32],
    table: &LentTable,
    base: usize,
    root: usize,
    kind: u32,
    out: &mut [u32],
    lits: &mut [u8],
    p: Place,
) -> Option<Place>
    requires given { Given given.now.rules.now given.now.rows.now given.now.text.now marks.now }
    requires inside { Inside table.now.rows.now (length table.now.text.now) }
    requires settling { Settling given.now.rules.now given.now.rows.now given.now.text.now marks.now table.now.rows.now table.now.text.now base }
    requires kind_value { (kind ≡ kind_at table.now.rows.now base) × (node_of kind ≡ Pair) }
    requires base_le_root { (base ≤ root) × (root < length table.now.rows.now / row_width) }
    requires room { Room p out.old lits.old }
    ensures { (t : Table Span) (us : List Un) (r : Expr Span) → Lent given.now.rules.now given.now.rows.now t → At table.now.rows.now base r → Settles (resolve_table given.now.text.now t) marks.now (resolve table.now.text.now r) → At table.now.rows.now root (wrap us r) → base + length us ≡ root → Answer result p (wrap us (top_down (or_same (skip? (resolve_table given.now.text.now t))) (resolve table.now.text.now r))) out.old out.new lits.old lits.new }
{
    // one call for both children: a second one makes every level of nesting take more stack
    let mut child = rows::left_of(table.rows, base);
    let mut next = base - 1;
    let mut q = p;
    while child < base {
        q = skip_tree(given, marks, table, child, out, lits, q)?;
        child = next;
        next = base;
    }
    crown(table.rows, base, root, out, p, q, kind, 0)
}

// Step 2 from the top of a subtree, as it stands after step 1, with lists looked up in the table as it was given.
// Rows with one child take a loop down and a loop up, not a call each: a run of them takes no stack.
#[cycle(skip_fork_skip_tree)]
fn skip_tree(
    given: &LentTable,
    marks: &[u32],
    table: &LentTable,
    root: usize,
    out: &mut [u32],
    lits: &mut [u8],
    p: Place,
) -> Option<Place>
    requires given { Given given.now.rules.now given.now.rows.now given.now.text.now marks.now }
    requires inside { Inside table.now.rows.now (length table.now.text.now) }
    requires settling { Settling given.now.rules.now given.now.rows.now given.now.text.now marks.now table.now.rows.now table.now.text.now root }
    requires room { Room p out.old lits.old }
    ensures { (t : Table Span) (r : Expr Span) → Lent given.now.rules.now given.now.rows.now t → At table.now.rows.now root r → Settles (resolve_table given.now.text.now t) marks.now (resolve table.now.text.now r) → Answer result p (top_down (or_same (skip? (resolve_table given.now.text.now t))) (resolve table.now.text.now r)) out.old out.new lits.old lits.new }
{
    match fall(given, marks, table, root) {
        Fallen::Plain => writing::copy(table, root, out, lits, p),
        Fallen::Looped { base, e } => skip_loop(given, marks, table, base, root, e, out, lits, p),
        Fallen::Forked { base, kind } => skip_fork(
            given, marks, table, base, root, kind, out, lits, p,
        ),
    }
}

// Whether the Rep of row i is of a Seq, as each loop is that step 2 rewrites.
pub fn fires(rows: &[u32], i: usize) -> bool
    requires stands { Stands rows.now i }
    requires i_value { kind_at rows.now i ≡ k_rep }
    ensures { result ≡ false → (t : Table Bytes) (s : Bytes) (x : Expr Span) → At rows.now i x → or_same (skip? t) (resolve s x) ≡ resolve s x }
{
    rows::kind_at(rows, i - 1) == SEQ
}

// Step 2 of a rule's expression, as it stands after step 1: "Atomic only".
pub fn skip(
    given: &LentTable,
    marks: &[u32],
    table: &LentTable,
    root: usize,
    rule_type: u32,
    out: &mut [u32],
    lits: &mut [u8],
    p: Place,
) -> Option<Place>
    requires given { Given given.now.rules.now given.now.rows.now given.now.text.now marks.now }
    requires inside { Inside table.now.rows.now (length table.now.text.now) }
    requires stands { Stands table.now.rows.now root }
    requires settling { rule_type ≡ Atomic → Settling given.now.rules.now given.now.rows.now given.now.text.now marks.now table.now.rows.now table.now.text.now root }
    requires room { Room p out.old lits.old }
    ensures { (t : Table Span) (r : Expr Span) → Lent given.now.rules.now given.now.rows.now t → At table.now.rows.now root r → (rule_type ≡ Atomic → Settles (resolve_table given.now.text.now t) marks.now (resolve table.now.text.now r)) → Answer result p (skip_to (resolve_table given.now.text.now t) rule_type (resolve table.now.text.now r)) out.old out.new lits.old lits.new }
{
    if rule_type == ATOMIC {
        skip_tree(given, marks, table, root, out, lits, p)
    } else {
        writing::copy(table, root, out, lits, p)
    }
}
