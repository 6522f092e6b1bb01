// Unroll: a counted repeat becomes its items, nested to the right.
#![tactic(auto)]

ghost use Rattle.std.specs.Prelude.{◌≡◌, List, ◌∷◌, ℕ, ◌+◌, ◌-◌, ◌*◌, ◌/◌, ◌^◌, ◌≤◌, ◌<◌, length, replicate};
ghost use Rattle.grammar.specs.Numbers.{row_width};
ghost use Rattle.grammar.specs.Tree.{Un, un_head, Expr, E};
ghost use Rattle.grammar.specs.Rows.{Span};
ghost use Rattle.grammar.specs.Steps.{nest, unrolled, unroll};
ghost use Rattle.grammar.specs.Text.{bytes_at, resolve};
ghost use Rattle.writing.specs.Writes.{stored, Room, RowPut, Written, Answer};
ghost use Rattle.rows.specs.Rows.{Tells, Inside, At, shape_of, kind_at};
ghost use Rattle.rows.specs.declared.Shape.TheVariants.{One};
ghost use Rattle.chains.specs.Runs.{ups};
ghost use Rattle.unroller.specs.declared.Item.TheVariants.{Once};
ghost use Rattle.unroller.specs.Items.{Counted, item_of, items_of, count_of, items, items_for, IsRepeat, Holds};
ghost use Rattle.unroller.specs.Climbs.{RunOver, Standing, ClimbedAnswer};
ghost use Rattle.unroller.specs.Copies.{moved_row, moved, Movable, Source, Copyable, Repeatable, Finishable, Layable, Spreadable, Headed, Laid};

use grammar::{LentTable, OPT, REP, REP_EXACT, REP_MAX, REP_MIN, REP_ONCE, ROW_WIDTH, SEQ, SKIP};
use rows::Shape;
use writing::Place;

// An item of an unrolled repeat of e: e, e? or e*.
#[derive(Clone, Copy)]
pub enum Item {
    Once,
    Maybe,
    Many,
}

// How often an unrolled repeat has each item, in this order: e, e?, e*.
#[derive(Clone, Copy)]
pub struct Items {
    pub plain: usize,
    pub opts: usize,
    pub reps: usize,
}

// An item, and how often each item follows it.
#[derive(Clone, Copy)]
pub struct Split {
    pub item: Item,
    pub rest: Items,
}

// So many of each item.
fn counts(plain: usize, opts: usize, reps: usize) -> Items
    ensures { result ≡ items plain opts reps }
{
    Items { plain, opts, reps }
}

// How often a repeat has each item, by its row.
fn items_for(kind: u32, x: u32, y: u32) -> Items
    ensures { result ≡ items_for kind x y }
{
    let n = x as usize;
    let m = y as usize;
    match kind {
        REP_ONCE => counts(1, 0, 1),
        REP_EXACT => counts(n, 0, 0),
        REP_MIN => counts(n, 0, 1),
        REP_MAX => counts(0, n, 0),
        // a minimum above the maximum counts as the maximum
        _ => counts(n.min(m), m.saturating_sub(n), 0),
    }
}

// The first item, and the others.
fn first_of(n: Items) -> Split
    requires { 1 ≤ count_of n }
    ensures { (e : E) → items_of n e ≡ item_of result.item e ∷ items_of result.rest e }
{
    if 0 < n.plain {
        return Split {
            item: Item::Once,
            rest: Items {
                plain: n.plain - 1,
                ..n
            },
        };
    }
    if 0 < n.opts {
        return Split {
            item: Item::Maybe,
            rest: Items {
                opts: n.opts - 1,
                ..n
            },
        };
    }
    Split {
        item: Item::Many,
        rest: Items {
            reps: n.reps - 1,
            ..n
        },
    }
}

// Whether so many rows and bytes hold the items of a tree with s rows and b bytes, and the Seq rows between them.
fn hold(rows: usize, text: usize, s: usize, b: usize, n: Items) -> bool
    requires { (rows < 2 ^ 32) × (s < 2 ^ 31) × (b < 2 ^ 32) × (count_of n ≤ 2 ^ 32) }
    ensures { Tells result (Holds rows text s b n) }
{
    let marked = n.opts + n.reps;
    let all = n.plain + marked;
    all * b <= text && n.plain * (s + 1) + marked * (s + 2) <= rows + 1
}

// Copies n bytes of the text from x to `at`, further on in it.
fn copy_on(lits: &mut [u8], x: usize, n: usize, at: usize)
    requires { (x + n ≤ at) × (at + n ≤ length lits.old) }
    ensures { lits.new ≡ stored lits.old at (bytes_at lits.old (x, n)) }
{
    for i in 0..n {
        lits[at + i] = lits[x + i];
    }
}

// Copies row i to row j; an offset moves by d.
fn move_row(out: &mut [u32], i: usize, j: usize, d: u32)
    requires i_in_bounds { (i < length out.old / row_width) × (j < length out.old / row_width) }
    requires movable { Movable d out.old i }
    ensures { out.new ≡ stored out.old (j * row_width) (moved_row d out.old i) }
{
    let row = rows::row_at(out, i).unwrap();
    let x = match rows::shape_of(row.kind) {
        Shape::Lit => row.x + d,
        _ => row.x,
    };
    writing::set_row(out, j, row.kind, x, row.y, row.size);
}

// Copies n rows from row i to row j, further on; offsets move by d.
fn move_rows(out: &mut [u32], i: usize, n: usize, j: usize, d: u32)
    requires n_bound { (i + n ≤ j) × (j + n ≤ length out.old / row_width) }
    requires by_index { (k : ℕ) → k < n → Movable d out.old (i + k) }
    ensures { out.new ≡ stored out.old (j * row_width) (moved d out.old i n) }
{
    for k in 0..n {
        move_row(out, i + k, j + k, d);
    }
}

// Writes a copy of the tree that stands from p to q, at `at`.
fn again(out: &mut [u32], lits: &mut [u8], p: Place, q: Place, at: Place) -> Place
    requires { Copyable p q at Once out.old lits.old }
    ensures { (e : E) → Source p q e out.old lits.old → Written result at e out.old out.new lits.old lits.new }
{
    let i = p.rows;
    let n = q.rows - i;
    let x = p.text;
    let m = q.text - x;
    let j = at.rows;
    let y = at.text;
    move_rows(out, i, n, j, (y - x) as u32);
    copy_on(lits, x, m, y);
    Place {
        rows: j + n,
        text: y + m,
    }
}

// Writes the row of a kind over the tree that stands from p to q.
fn over(out: &mut [u32], p: Place, q: Place, kind: u32) -> Place
    requires { (p.rows ≤ q.rows) × (q.rows < length out.old / row_width) × (length out.old < 2 ^ 32) }
    ensures { RowPut result q (kind, 0, 0) (q.rows - p.rows + 1) out.old out.new }
{
    let at = q.rows;
    let size = at - p.rows + 1;
    writing::set_row(out, at, kind, 0, 0, size as u32);
    Place {
        rows: at + 1,
        text: q.text,
    }
}

// Makes an item of the tree that stands from p to q.
fn finish(out: &mut [u32], p: Place, q: Place, item: Item) -> Place
    requires { Finishable p q item out.old }
    ensures { (e : E) (o t u : List ℕ) → Written q p e o out.old t u → Written result p (item_of item e) o out.new t u }
{
    match item {
        Item::Once => q,
        Item::Maybe => over(out, p, q, OPT),
        Item::Many => over(out, p, q, REP),
    }
}

// Writes an item of the tree that stands from p to q, at `at`.
fn next(out: &mut [u32], lits: &mut [u8], p: Place, q: Place, at: Place, item: Item) -> Place
    requires { Copyable p q at item out.old lits.old }
    ensures { (e : E) → Source p q e out.old lits.old → Written result at (item_of item e) out.old out.new lits.old lits.new }
{
    let s = again(out, lits, p, q, at);
    finish(out, at, s, item)
}

// Writes n items of the tree that stands from p to q, from `at` on.
fn repeat(
    out: &mut [u32],
    lits: &mut [u8],
    p: Place,
    q: Place,
    at: Place,
    n: usize,
    item: Item,
) -> Place
    requires { Repeatable p q at n item out.old lits.old }
    ensures { (e : E) → Source p q e out.old lits.old → Laid result at (replicate n (item_of item e)) out.old out.new lits.old lits.new }
{
    let mut s = at;
    for i in 0..n {
        s = next(out, lits, p, q, s, item);
    }
    s
}

// Writes the items of a repeat of the tree that stands from p to q, one after another from p on.
fn lay(out: &mut [u32], lits: &mut [u8], p: Place, q: Place, n: Items) -> Place
    requires { Layable p q n out.old lits.old }
    ensures { (e : E) → Source p q e out.old lits.old → Laid result p (items_of n e) out.old out.new lits.old lits.new }
{
    let f = first_of(n);
    let item = f.item;
    let rest = f.rest;
    let a = finish(out, p, q, item);
    let b = repeat(out, lits, p, q, a, rest.plain, Item::Once);
    let c = repeat(out, lits, p, q, b, rest.opts, Item::Maybe);
    repeat(out, lits, p, q, c, rest.reps, Item::Many)
}

// Writes the nested items of a repeat of the tree that stands from p to q, from p on.
fn spread(out: &mut [u32], lits: &mut [u8], p: Place, q: Place, n: Items) -> Option<Place>
    requires { Spreadable p q n out.old lits.old }
    ensures { (e : E) → Source p q e out.old lits.old → Answer result p (nest (items_of n e)) out.old out.new lits.old lits.new }
{
    let i = p.rows;
    let x = p.text;
    // known before anything is copied
    if !hold(
        out.len() / ROW_WIDTH - i,
        lits.len() - x,
        q.rows - i,
        q.text - x,
        n,
    ) {
        return None;
    }
    let s = lay(out, lits, p, q, n);
    let others = n.plain + (n.opts + n.reps) - 1;
    chains::close(out, s, SEQ, others)
}

// Whether a kind is unrolled.
fn is_repeat(kind: u32) -> bool
    ensures { Tells result (IsRepeat kind) }
{
    REP_ONCE <= kind && kind < SKIP
}

// Writes the node of kind, x and y over the tree that stands from p to q, unrolled.
fn node(
    out: &mut [u32],
    lits: &mut [u8],
    p: Place,
    q: Place,
    kind: u32,
    x: u32,
    y: u32,
) -> Option<Place>
    requires { Headed p q (kind, x, y) out.old lits.old }
    ensures { (u : Un) (e : E) → (kind, x, y) ≡ un_head u → Source p q e out.old lits.old → Answer result p (unrolled u e) out.old out.new lits.old lits.new }
{
    if is_repeat(kind) {
        let n = items_for(kind, x, y);
        return spread(out, lits, p, q, n);
    }
    writing::put_over(out, p, q, kind, x, y)
}

// Writes the rows after `base` up to `root`, which have one child each, over the tree that stands from p to q, unrolled. Never inlined: the
// recursion's frame stays small.
#[inline(never)]
fn climb(
    rows: &[u32],
    base: usize,
    root: usize,
    out: &mut [u32],
    lits: &mut [u8],
    p: Place,
    q: Place,
) -> Option<Place>
    requires counted { Counted rows.now root }
    requires run_over { RunOver rows.now base root }
    requires standing { Standing q p out.old lits.old }
    ensures { (r : Expr Span) → At rows.now root r → ClimbedAnswer result q p (ups r) out.old out.new lits.old lits.new }
{
    let mut s = q;
    for i in base..root {
        let row = rows::row_at(rows, i + 1)?;
        s = node(out, lits, p, s, row.kind, row.x, row.y)?;
    }
    Some(s)
}

// Writes the subtree of row `root`, which has not one child, unrolled node by node, at p.
#[cycle(bottom_unroll)]
fn bottom(
    table: &LentTable,
    root: usize,
    out: &mut [u32],
    lits: &mut [u8],
    p: Place,
) -> Option<Place>
    requires inside { Inside table.now.rows.now (length table.now.text.now) }
    requires counted { Counted table.now.rows.now root }
    requires room { Room p out.old lits.old }
    requires fact { shape_of (kind_at table.now.rows.now root) ≡ One → ⊥ }
    ensures { (r : Expr Span) → At table.now.rows.now root r → Answer result p (unroll (resolve table.now.text.now r)) out.old out.new lits.old lits.new }
{
    let row = rows::row_at(table.rows, root)?;
    match rows::shape_of(row.kind) {
        Shape::Lit => {
            writing::put_lit(
                table.text,
                row.x as usize,
                row.y as usize,
                row.kind,
                out,
                lits,
                p,
            )
        }
        Shape::Num => writing::put_row(out, p, row.kind, row.x, row.y, 1),
        Shape::Skips => writing::copy(table, root, out, lits, p),
        Shape::One => None,
        Shape::Two => {
            let left = rows::left_of(table.rows, root);
            let q = unroll(table, left, out, lits, p)?;
            let s = unroll(table, root - 1, out, lits, q)?;
            writing::put_over(out, p, s, row.kind, row.x, row.y)
        }
    }
}

// Writes the subtree of row `root`, unrolled node by node, at p.
#[cycle(bottom_unroll)]
pub fn unroll(
    table: &LentTable,
    root: usize,
    out: &mut [u32],
    lits: &mut [u8],
    p: Place,
) -> Option<Place>
    requires inside { Inside table.now.rows.now (length table.now.text.now) }
    requires counted { Counted table.now.rows.now root }
    requires room { Room p out.old lits.old }
    ensures { (r : Expr Span) → At table.now.rows.now root r → Answer result p (unroll (resolve table.now.text.now r)) out.old out.new lits.old lits.new }
{
    // no call for each row of a run: a host's stack is short
    let base = chains::below(table.rows, root);
    let q = bottom(table, base, out, lits, p)?;
    climb(table.rows, base, root, out, lits, p, q)
}
