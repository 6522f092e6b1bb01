// Restore: whether the stack can change through each rule of a table, and step 7 on a subtree. A rule's memory is word 1 of its mark: 0 not seen, 2 the stack cannot change through it, 3 it can, OPEN + p it is open, at position p of the stack of open rules.
#![tactic(auto)]

ghost use Rattle.std.specs.Prelude.{◌≡◌, Some, true, false, ◌||◌, ℕ, ◌+◌, ◌-◌, ◌*◌, ◌/◌, ◌^◌, ◌≤◌, ◌<◌, length, set};
ghost use Rattle.grammar.specs.Numbers.{rule_width, row_width, mark_width, k_ident};
ghost use Rattle.grammar.specs.Tree.{Expr, size};
ghost use Rattle.grammar.specs.Rows.{Span};
ghost use Rattle.grammar.specs.Text.{resolve};
ghost use Rattle.grammar.specs.Table.{Table, row_words, resolve_table};
ghost use Rattle.grammar.specs.Tree as tree;
ghost use Rattle.grammar.specs.Basic.{Bytes, member};
ghost use Rattle.grammar.specs.Text.{bytes_at};
ghost use Rattle.grammar.specs.Stack.{stack_names, changes};
ghost use Rattle.grammar.specs.Steps as steps;
ghost use Rattle.rows.specs.Rows.{Inside, At, Stands, shape_of, kind_at, x_at, y_at, size_at};
ghost use Rattle.rows.specs.declared.Shape.TheVariants.{One, Two};
ghost use Rattle.writing.specs.Writes.{Room, Answer};
ghost use Rattle.names.specs.Names.{AllIndexed, memory_word};
ghost use Rattle.restorer.specs.Search.{OPEN, state_of, Right, Walked, Looked, RuleSettled};
ghost use Rattle.restorer.specs.Lends.{Lent, Marked, Given, Steady, TreeRows, Settles};
ghost use Rattle.restorer.specs.Stacks.{Stacked, Searching, Ran, top_of, Left, Within, Closes, Leaves};
ghost use Rattle.restorer.specs.Walks.{step_from, recalled, GoesOn, Visited, Unseen};
ghost use Rattle.restorer.specs.Restores.{is_guard, shows_through, SettledNo, guarded_if, Sure, Known, RowIs, Unset, climbed, RestoredAnswer, Over, NodeAnswer, OverAnswer, Becomes, Climbable};
ghost use Rattle.chains.specs.Runs.{ups};

use grammar::{
    CHOICE, IDENT, LentTable, MARK_WIDTH, OPT, PUSH, REP, RESTORE_ON_ERR, ROW_WIDTH, ROWS,
    RULE_WIDTH, SKIP,
};
use names::{END, MEMORY};
use rows::Shape;
use writing::Place;

const UNSEEN: u32 = 0;

const NO: u32 = 2;

const YES: u32 = 3;

// the memory of the open rule at position 0
const OPEN: u32 = 4;

// the lowest position that was named, where none was
const NOWHERE: usize = 4294967295;

// What a row says of the stack: it can change, or nothing shows and the search goes on before this row, with the position of the open rule that it names, or a rule that was not seen is to say it.
#[derive(Clone, Copy)]
enum Step {
    Changes,
    Next(usize, usize),
    Into(usize),
}

// How a search ends: a change is reached, or nothing shows, with the lowest position that was named; and where the open rules end.
#[derive(Clone, Copy)]
enum Outcome {
    Reached(usize),
    Silent(usize, usize),
}

// The step from row i, which is no Ident.
fn step_from(kind: u32, i: usize, size: usize) -> Step
    requires { (size ≤ i + 1) × (i + 1 < 2 ^ 64) }
    ensures { result ≡ step_from kind i size }
{
    match kind {
        PUSH => Step::Changes,
        // a RestoreOnErr is set already: its child is not looked at
        SKIP | RESTORE_ON_ERR => Step::Next(i + 1 - size, NOWHERE),
        _ => Step::Next(i, NOWHERE),
    }
}

// The step from row i, which names rule k, by that rule's memory.
fn recall(marks: &[u32], k: usize, i: usize) -> Step
    requires { k * mark_width + memory_word < length marks.now }
    ensures { result ≡ recalled (state_of marks.now k) k i }
{
    let state = marks[k * MARK_WIDTH + MEMORY];
    if state == YES {
        return Step::Changes;
    }
    if state == UNSEEN {
        return Step::Into(k);
    }
    if state < OPEN {
        return Step::Next(i, NOWHERE);
    }
    Step::Next(i, (state - OPEN) as usize)
}

// The step from row i, which is an Ident.
fn named(table: &LentTable, marks: &[u32], i: usize) -> Step
    requires given { Given table.now.rules.now table.now.rows.now table.now.text.now marks.now }
    requires i_in_bounds { i < length table.now.rows.now / row_width }
    requires i_value { kind_at table.now.rows.now i ≡ k_ident }
    ensures unseen { Unseen result table.now.rules.now marks.now }
    ensures goes_on { (r : Expr Span) → At table.now.rows.now i r → GoesOn result table.now.rows.now i r }
    ensures visited { (t : Table Span) (r : Expr Span) → Lent t table.now.rules.now table.now.rows.now → At table.now.rows.now i r → Right (resolve_table table.now.text.now t) marks.now → Visited result table.now.text.now (resolve_table table.now.text.now t) marks.now r }
{
    let x = rows::x_at(table.rows, i);
    let n = rows::y_at(table.rows, i);
    if names::changes_stack(table.text, x, n) {
        return Step::Changes;
    }
    let Some(k) = names::find_rule(table, marks, table.text, x, n) else {
        return Step::Next(i, NOWHERE);
    };
    recall(marks, k, i)
}

// What row i says of the stack.
fn visit(table: &LentTable, marks: &[u32], i: usize) -> Step
    requires given { Given table.now.rules.now table.now.rows.now table.now.text.now marks.now }
    requires stands { Stands table.now.rows.now i }
    ensures unseen { Unseen result table.now.rules.now marks.now }
    ensures goes_on { (r : Expr Span) → At table.now.rows.now i r → GoesOn result table.now.rows.now i r }
    ensures visited { (t : Table Span) (r : Expr Span) → Lent t table.now.rules.now table.now.rows.now → At table.now.rows.now i r → Right (resolve_table table.now.text.now t) marks.now → Visited result table.now.text.now (resolve_table table.now.text.now t) marks.now r }
{
    let kind = rows::kind_at(table.rows, i);
    if kind != IDENT {
        return step_from(kind, i, rows::size_at(table.rows, i));
    }
    named(table, marks, i)
}

// Opens rule i at position `top`.
fn enter(marks: &mut [u32], stack: &mut [u32], i: usize, top: usize)
    requires memory_word_in_bounds { (i * mark_width + memory_word < length marks.old) × (i < 2 ^ 30) }
    requires top_in_bounds { (top < length stack.old) × (top < 2 ^ 30) }
    ensures marks_after { marks.new ≡ set marks.old (i * mark_width + memory_word) (OPEN + top) }
    ensures stack_after { stack.new ≡ set stack.old top i }
{
    marks[i * MARK_WIDTH + MEMORY] = OPEN + top as u32;
    stack[top] = i as u32;
}

// Settles the open rules from position `from` to `top` as `to`.
fn close(marks: &mut [u32], stack: &[u32], from: usize, top: usize, to: u32)
    requires within { Within marks.old stack.now from top }
    requires lt_to { (1 < to) × (to < OPEN) }
    ensures steady { Steady marks.old marks.new }
    ensures by_index { (n : ℕ) → Stacked n marks.old stack.now top → Closes n marks.old marks.new stack.now from to }
{
    for p in (from..top).rev() {
        let i = stack[p] as usize;
        marks[i * MARK_WIDTH + MEMORY] = to;
    }
}

// Leaves the rule at position `top`, whose rows are walked: if no rule below it was named, the stack cannot change through it and those above it.
fn leave(marks: &mut [u32], stack: &[u32], a: Outcome, top: usize) -> Outcome
    requires { Within marks.old stack.now top (top_of a) }
    ensures steady { Steady marks.old marks.new }
    ensures leaves { Leaves a result top marks.old marks.new stack.now }
{
    match a {
        Outcome::Reached(high) => Outcome::Reached(high),
        Outcome::Silent(low, high) => {
            if low < top {
                return Outcome::Silent(low, high);
            }
            close(marks, stack, top, high, NO);
            Outcome::Silent(NOWHERE, top)
        }
    }
}

// Whether the stack can change through rule i, which was not seen and is opened at position `top`, as far as this search can tell.
#[cycle(look_walk)]
fn look(table: &LentTable, marks: &mut [u32], stack: &mut [u32], i: usize, top: usize) -> Outcome
    requires searching { Searching table.now.rules.now table.now.rows.now table.now.text.now marks.old stack.old top }
    requires i_in_bounds { i < length table.now.rules.now / rule_width }
    requires i_value { state_of marks.old i ≡ 0 }
    ensures ran { Ran (length table.now.rules.now / rule_width) marks.old marks.new stack.new top (top_of result) }
    ensures left { Left result top }
    ensures looked { (t : Table Span) → Lent t table.now.rules.now table.now.rows.now → Right (resolve_table table.now.text.now t) marks.old → Looked result (resolve_table table.now.text.now t) top marks.old marks.new i }
{
    let at = i * RULE_WIDTH;
    let end = marks[i * MARK_WIDTH + END] as usize;
    enter(marks, stack, i, top);
    let a = walk(
        table,
        marks,
        stack,
        end - table.rules[at + ROWS] as usize,
        end,
        top + 1,
    );
    leave(marks, stack, a, top)
}

// Whether the stack can change through the tree of the rows from `from` to `end`, as far as this search can tell.
#[cycle(look_walk)]
fn walk(
    table: &LentTable,
    marks: &mut [u32],
    stack: &mut [u32],
    from: usize,
    end: usize,
    top: usize,
) -> Outcome
    requires searching { Searching table.now.rules.now table.now.rows.now table.now.text.now marks.old stack.old top }
    requires tree_rows { TreeRows table.now.rows.now from end }
    ensures ran { Ran (length table.now.rules.now / rule_width) marks.old marks.new stack.new top (top_of result) }
    ensures walked { (t : Table Span) (r : Expr Span) → Lent t table.now.rules.now table.now.rows.now → At table.now.rows.now (end - 1) r → Right (resolve_table table.now.text.now t) marks.old → Walked result (resolve_table table.now.text.now t) top marks.old marks.new (resolve table.now.text.now r) }
{
    let mut i = end;
    let mut low = NOWHERE;
    let mut high = top;
    while from < i {
        // a call for a rule that was not seen, none for a row
        match visit(table, marks, i - 1) {
            Step::Changes => {
                return Outcome::Reached(high);
            }
            Step::Next(j, l) => {
                i = j;
                low = low.min(l);
            }
            Step::Into(k) => {
                match look(table, marks, stack, k, high) {
                    Outcome::Reached(h) => {
                        return Outcome::Reached(h);
                    }
                    Outcome::Silent(l, h) => {
                        i -= 1;
                        low = low.min(l);
                        high = h;
                    }
                }
            }
        }
    }
    Outcome::Silent(low, high)
}

// Settles rule i and what it leads to. Where a change is reached, every rule that is open leads to it.
fn settle_rule(table: &LentTable, marks: &mut [u32], stack: &mut [u32], i: usize)
    requires searching { Searching table.now.rules.now table.now.rows.now table.now.text.now marks.old stack.old 0 }
    requires i_in_bounds { i < length table.now.rules.now / rule_width }
    ensures steady { Steady marks.old marks.new }
    ensures stacked { Stacked (length table.now.rules.now / rule_width) marks.new stack.new 0 }
    ensures rule_settled { (t : Table Span) → Lent t table.now.rules.now table.now.rows.now → Right (resolve_table table.now.text.now t) marks.old → RuleSettled (resolve_table table.now.text.now t) marks.old marks.new i }
{
    if marks[i * MARK_WIDTH + MEMORY] != UNSEEN {
        return;
    }
    let Outcome::Reached(top) = look(table, marks, stack, i, 0) else {
        return;
    };
    close(marks, stack, 0, top, YES);
}

// Settles every rule of the table: whether the stack can change through it. Each is walked once; `stack` is room for the open ones.
pub fn settle(table: &LentTable, marks: &mut [u32], stack: &mut [u32])
    requires marked { Marked table.now.rules.now table.now.rows.now table.now.text.now marks.old }
    requires rows_len_bound { length table.now.rows.now < 2 ^ 32 }
    requires rule_width_in_bounds { length table.now.rules.now / rule_width ≤ length stack.old }
    ensures given { Given table.now.rules.now table.now.rows.now table.now.text.now marks.new }
    ensures settles { Settles table.now.rules.now table.now.rows.now table.now.text.now marks.new }
{
    names::mark_ends(table.rules, marks);
    let count = table.rules.len() / RULE_WIDTH;
    names::forget(marks, count);
    for i in 0..count {
        settle_rule(table, marks, stack, i);
    }
}

// Whether the name of row i, which is an Ident, changes the stack by itself.
fn name_stirs(table: &LentTable, i: usize) -> bool
    requires inside { Inside table.now.rows.now (length table.now.text.now) }
    requires i_in_bounds { i < length table.now.rows.now / row_width }
    requires i_value { kind_at table.now.rows.now i ≡ k_ident }
    ensures { result ≡ member (bytes_at table.now.text.now (x_at table.now.rows.now i, y_at table.now.rows.now i)) stack_names }
{
    let x = rows::x_at(table.rows, i);
    let n = rows::y_at(table.rows, i);
    names::changes_stack(table.text, x, n)
}

// Whether no row of a table changes the stack by itself: no Push, no DROP, no POP. Then step 7 changes nothing of it.
pub fn still(table: &LentTable) -> bool
    requires { Inside table.now.rows.now (length table.now.text.now) }
    ensures { result ≡ true → (t : Table Span) → row_words t ≡ table.now.rows.now → steps.each (λ _. steps.restore (resolve_table table.now.text.now t)) (resolve_table table.now.text.now t) ≡ resolve_table table.now.text.now t }
{
    let count = table.rows.len() / ROW_WIDTH;
    for i in 0..count {
        let k = rows::kind_at(table.rows, i);
        if k == PUSH || k == IDENT && name_stirs(table, i) {
            return false;
        }
    }
    true
}

// Whether what is below a row of this kind gets RestoreOnErr: Opt, Rep and Choice.
fn guards(kind: u32) -> bool
    ensures { result ≡ is_guard kind }
{
    kind == CHOICE || kind == OPT || kind == REP
}

// What shows through a row of this kind, where b shows below it.
fn shows(kind: u32, b: bool) -> bool
    ensures { result ≡ shows_through kind b }
{
    kind == PUSH || kind != RESTORE_ON_ERR && b
}

// Writes a row over what stands from p to q, of which b shows. Told are the place after it, and whether the stack can change through what then stands: so by the functions below.
fn node(
    out: &mut [u32],
    p: Place,
    q: Place,
    kind: u32,
    x: u32,
    y: u32,
    b: bool,
) -> Option<(Place, bool)>
    requires { Over p q out.old }
    ensures { NodeAnswer result p q (kind, x, y) b out.old out.new }
{
    let s = writing::put_over(out, p, q, kind, x, y)?;
    Some((s, shows(kind, b)))
}

// Whether the stack can change through the name of n bytes at x.
fn through(table: &LentTable, marks: &[u32], x: usize, n: usize) -> bool
    requires all_indexed { AllIndexed table.now.rules.now table.now.text.now marks.now }
    requires n_in_bounds { x + n ≤ length table.now.text.now }
    ensures { (t : Table Bytes) → Sure t table.now.rules.now table.now.text.now marks.now → result ≡ changes t (tree.lit tree.Ident (bytes_at table.now.text.now (x, n))) }
{
    if names::changes_stack(table.text, x, n) {
        return true;
    }
    let Some(i) = names::find_rule(table, marks, table.text, x, n) else {
        return false;
    };
    marks[i * MARK_WIDTH + MEMORY] == YES
}

// Whether the stack can change through a literal of a kind: only through a name.
fn stirs(table: &LentTable, marks: &[u32], kind: u32, x: usize, n: usize) -> bool
    requires all_indexed { AllIndexed table.now.rules.now table.now.text.now marks.now }
    requires n_in_bounds { x + n ≤ length table.now.text.now }
    ensures { (t : Table Bytes) (k : tree.Lit) → Sure t table.now.rules.now table.now.text.now marks.now → kind ≡ tree.lit_kind k → result ≡ changes t (tree.lit k (bytes_at table.now.text.now (x, n))) }
{
    kind == IDENT && through(table, marks, x, n)
}

// Writes a literal at p.
fn literal(
    table: &LentTable,
    marks: &[u32],
    kind: u32,
    x: u32,
    y: u32,
    out: &mut [u32],
    lits: &mut [u8],
    p: Place,
) -> Option<(Place, bool)>
    requires all_indexed { AllIndexed table.now.rules.now table.now.text.now marks.now }
    requires y_in_bounds { x + y ≤ length table.now.text.now }
    requires room { Room p out.old lits.old }
    ensures { (t : Table Bytes) (k : tree.Lit) → Sure t table.now.rules.now table.now.text.now marks.now → kind ≡ tree.lit_kind k → RestoredAnswer result p t (tree.lit k (bytes_at table.now.text.now (x, y))) out.old out.new lits.old lits.new }
{
    let offset = x as usize;
    let n = y as usize;
    let q = writing::put_lit(table.text, offset, n, kind, out, lits, p)?;
    Some((q, stirs(table, marks, kind, offset, n)))
}

// Writes a row of numbers, or a Skip with its strings, at p: nothing shows of it.
fn plain(
    table: &LentTable,
    root: usize,
    out: &mut [u32],
    lits: &mut [u8],
    p: Place,
) -> Option<(Place, bool)>
    requires inside { Inside table.now.rows.now (length table.now.text.now) }
    requires stands { Stands table.now.rows.now root }
    requires room { Room p out.old lits.old }
    ensures { (t : Table Bytes) (r : Expr Span) → At table.now.rows.now root r → changes t (resolve table.now.text.now r) ≡ false → RestoredAnswer result p t (resolve table.now.text.now r) out.old out.new lits.old lits.new }
{
    let q = writing::copy(table, root, out, lits, p)?;
    Some((q, false))
}

// Puts a RestoreOnErr over what stands from p to q, of which b shows, where `guard` and b say so.
fn guarded(out: &mut [u32], p: Place, q: Place, b: bool, guard: bool) -> Option<(Place, bool)>
    requires { Over p q out.old }
    ensures over_answer { OverAnswer result p out.new }
    ensures becomes { Becomes result q p b (λ t e. guarded_if t guard e) out.old out.new }
{
    if guard && b {
        return node(out, p, q, RESTORE_ON_ERR, 0, 0, b);
    }
    Some((q, b))
}

// Writes a row with one child over what stands from p to q, of which b shows: that child, guarded where the row guards.
fn over(
    out: &mut [u32],
    p: Place,
    q: Place,
    kind: u32,
    x: u32,
    y: u32,
    b: bool,
) -> Option<(Place, bool)>
    requires { Over p q out.old }
    ensures over_answer { OverAnswer result p out.new }
    ensures becomes { (u : tree.Un) → (kind, x, y) ≡ tree.un_head u → Becomes result q p b (λ t e. tree.un u (guarded_if t (is_guard (tree.un_head u).0) e)) out.old out.new }
{
    let (s, c) = guarded(out, p, q, b, guards(kind))?;
    node(out, p, s, kind, x, y, c)
}

// Writes the rows after `base` up to `root`, which have one child each, over what stands from p to q, of which b shows; guarded as `guard` says.
fn climb(
    rows: &[u32],
    base: usize,
    root: usize,
    out: &mut [u32],
    p: Place,
    q: Place,
    b: bool,
    guard: bool,
) -> Option<(Place, bool)>
    requires climbable { Climbable rows.now base root }
    requires over { Over p q out.old }
    ensures { (r : Expr Span) → At rows.now root r → Becomes result q p b (λ t e. guarded_if t guard (climbed t (ups r) e)) out.old out.new }
{
    let mut s = q;
    let mut shown = b;
    for i in base..root {
        let row = rows::row_at(rows, i + 1)?;
        (s, shown) = over(out, p, s, row.kind, row.x, row.y, shown)?;
    }
    guarded(out, p, s, shown, guard)
}

// Writes the subtree of row `root`, which has two children, at p.
#[cycle(bottom_put_two)]
fn two(
    table: &LentTable,
    marks: &[u32],
    root: usize,
    kind: u32,
    out: &mut [u32],
    lits: &mut [u8],
    p: Place,
) -> Option<(Place, bool)>
    requires known { Known table.now.rules.now marks.now table.now.rows.now table.now.text.now }
    requires stands { Stands table.now.rows.now root }
    requires room { Room p out.old lits.old }
    requires row_is { RowIs table.now.rows.now root kind 0 0 × (shape_of kind ≡ Two) }
    ensures { (t : Table Bytes) (r : Expr Span) → Sure t table.now.rules.now table.now.text.now marks.now → At table.now.rows.now root r → RestoredAnswer result p t (steps.restore t (resolve table.now.text.now r)) out.old out.new lits.old lits.new }
{
    let left = rows::left_of(table.rows, root);
    let right = root - 1;
    let guard = guards(kind);
    let (q, b) = put(table, marks, left, guard, out, lits, p)?;
    let (s, c) = put(table, marks, right, guard, out, lits, q)?;
    node(out, p, s, kind, 0, 0, b || c)
}

// Writes the subtree of row `root`, which has not one child, at p, restored, and tells what shows of it.
#[cycle(bottom_put_two)]
fn bottom(
    table: &LentTable,
    marks: &[u32],
    root: usize,
    out: &mut [u32],
    lits: &mut [u8],
    p: Place,
) -> Option<(Place, bool)>
    requires known { Known table.now.rules.now marks.now table.now.rows.now table.now.text.now }
    requires stands { Stands table.now.rows.now root }
    requires room { Room p out.old lits.old }
    requires fact { shape_of (kind_at table.now.rows.now root) ≡ One → ⊥ }
    ensures { (t : Table Bytes) (r : Expr Span) → Sure t table.now.rules.now table.now.text.now marks.now → At table.now.rows.now root r → RestoredAnswer result p t (steps.restore t (resolve table.now.text.now r)) out.old out.new lits.old lits.new }
{
    let row = rows::row_at(table.rows, root)?;
    match rows::shape_of(row.kind) {
        Shape::Two => two(table, marks, root, row.kind, out, lits, p),
        Shape::Lit => literal(table, marks, row.kind, row.x, row.y, out, lits, p),
        _ => plain(table, root, out, lits, p),
    }
}

// Writes the subtree of row `root` at p, restored, and if `guard` under a RestoreOnErr where the stack can change through it.
#[cycle(bottom_put_two)]
fn put(
    table: &LentTable,
    marks: &[u32],
    root: usize,
    guard: bool,
    out: &mut [u32],
    lits: &mut [u8],
    p: Place,
) -> Option<(Place, bool)>
    requires known { Known table.now.rules.now marks.now table.now.rows.now table.now.text.now }
    requires stands { Stands table.now.rows.now root }
    requires room { Room p out.old lits.old }
    ensures { (t : Table Bytes) (r : Expr Span) → Sure t table.now.rules.now table.now.text.now marks.now → At table.now.rows.now root r → RestoredAnswer result p t (guarded_if t guard (steps.restore t (resolve table.now.text.now r))) out.old out.new lits.old lits.new }
{
    // no call for each row of a run: a host's stack is short
    let base = chains::below(table.rows, root);
    let (q, b) = bottom(table, marks, base, out, lits, p)?;
    climb(table.rows, base, root, out, p, q, b, guard)
}

// Whether the stack can change through the name of row i, which is an Ident.
fn name_alters(table: &LentTable, marks: &[u32], i: usize) -> bool
    requires known { Known table.now.rules.now marks.now table.now.rows.now table.now.text.now }
    requires i_in_bounds { i < length table.now.rows.now / row_width }
    requires i_value { kind_at table.now.rows.now i ≡ k_ident }
    ensures { (t : Table Bytes) → Sure t table.now.rules.now table.now.text.now marks.now → result ≡ changes t (tree.lit tree.Ident (bytes_at table.now.text.now (x_at table.now.rows.now i, y_at table.now.rows.now i))) }
{
    let x = rows::x_at(table.rows, i);
    let n = rows::y_at(table.rows, i);
    through(table, marks, x, n)
}

// Whether restoring the subtree of row `root` can alter it: some row is a Push or a name through which the stack can change.
fn alters(table: &LentTable, marks: &[u32], root: usize) -> bool
    requires known { Known table.now.rules.now marks.now table.now.rows.now table.now.text.now }
    requires stands { Stands table.now.rows.now root }
    ensures { result ≡ false → (t : Table Bytes) (r : Expr Span) → Sure t table.now.rules.now table.now.text.now marks.now → At table.now.rows.now root r → steps.restore t (resolve table.now.text.now r) ≡ resolve table.now.text.now r }
{
    for i in root + 1 - rows::size_at(table.rows, root)..root + 1 {
        let kind = rows::kind_at(table.rows, i);
        if kind == PUSH || kind == IDENT && name_alters(table, marks, i) {
            return true;
        }
    }
    false
}

// Whether no row of the subtree of row `root` is a RestoreOnErr.
fn unset(rows: &[u32], root: usize) -> bool
    requires { Stands rows.now root }
    ensures { result ≡ true → (r : Expr Span) → At rows.now root r → Unset rows.now root (size r) }
{
    for i in root + 1 - rows::size_at(rows, root)..root + 1 {
        if rows::kind_at(rows, i) == RESTORE_ON_ERR {
            return false;
        }
    }
    true
}

// Whether the stack can change through rule i, where the subtree of row `root` is its tree and the marks settle it.
fn settled(rules: &[u32], marks: &[u32], i: usize, root: usize) -> Option<bool>
    requires mark_width_in_bounds { length rules.now / rule_width * mark_width ≤ length marks.now }
    requires root_bound { root + 1 < 2 ^ 64 }
    ensures { result ≡ Some false → SettledNo rules.now marks.now i root }
{
    if i >= rules.len() / RULE_WIDTH {
        return None;
    }
    let at = i * MARK_WIDTH;
    if marks[at + END] as usize != root + 1 {
        return None;
    }
    match marks[at + MEMORY] {
        YES => Some(true),
        NO => Some(false),
        _ => None,
    }
}

// Whether the marks or the rows show that restoring the subtree of row `root` leaves it as it is.
fn stays(table: &LentTable, marks: &[u32], i: usize, root: usize) -> bool
    requires marked { Marked table.now.rules.now table.now.rows.now table.now.text.now marks.now }
    requires settles { Settles table.now.rules.now table.now.rows.now table.now.text.now marks.now }
    requires stands { Stands table.now.rows.now root }
    ensures { result ≡ true → (t : Table Span) (r : Expr Span) → Lent t table.now.rules.now table.now.rows.now → At table.now.rows.now root r → steps.restore (resolve_table table.now.text.now t) (resolve table.now.text.now r) ≡ resolve table.now.text.now r }
{
    // the names of a rule that is settled need no look
    match settled(table.rules, marks, i, root) {
        Some(true) => false,
        // unless a RestoreOnErr hides a change
        Some(false) if unset(table.rows, root) => true,
        _ => !alters(table, marks, root),
    }
}

// Step 7 on the subtree of row `root`, packed at p: fastest where it is rule i's. The table is the one that is lent, and its rules are settled.
pub fn restore(
    table: &LentTable,
    marks: &[u32],
    i: usize,
    root: usize,
    out: &mut [u32],
    lits: &mut [u8],
    p: Place,
) -> Option<Place>
    requires marked { Marked table.now.rules.now table.now.rows.now table.now.text.now marks.now }
    requires settles { Settles table.now.rules.now table.now.rows.now table.now.text.now marks.now }
    requires stands { Stands table.now.rows.now root }
    requires room { Room p out.old lits.old }
    ensures { (t : Table Span) (r : Expr Span) → Lent t table.now.rules.now table.now.rows.now → At table.now.rows.now root r → Answer result p (steps.restore (resolve_table table.now.text.now t) (resolve table.now.text.now r)) out.old out.new lits.old lits.new }
{
    // nearly always: nothing can change the stack
    if stays(table, marks, i, root) {
        return writing::copy(table, root, out, lits, p);
    }
    let (q, _) = put(table, marks, root, false, out, lits, p)?;
    Some(q)
}
