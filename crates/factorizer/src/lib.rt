// Factor, over a whole subtree: a Choice of two sides that begin alike.
#![tactic(auto)]

ghost use Rattle.std.specs.Prelude.{◌≡◌, Bool, false, ◌/◌, ◌^◌, ◌≤◌, ◌<◌, length, None};
ghost use Rattle.std.proofs.Math.Option.{none};
ghost use Rattle.grammar.specs.Numbers.{row_width, k_choice};
ghost use Rattle.grammar.specs.Basic.{Bytes};
ghost use Rattle.grammar.specs.Tree.{Expr, E, Bin, bin, bin_kind};
ghost use Rattle.grammar.specs.Rows.{Span};
ghost use Rattle.grammar.specs.Text.{resolve};
ghost use Rattle.grammar.specs.Steps.{is_tight, factor?, factor};
ghost use Rattle.rows.specs.Rows.{kind_at, Inside, At, Stands};
ghost use Rattle.writing.specs.Writes.{Areas};
ghost use Rattle.writing.specs.Keeps.{KeptAnswer, Ready};
ghost use Rattle.chains.specs.Runs.{ups, Raisable, RaisedAnswer};
ghost use Rattle.factorizer.specs.Factors.{factored, beneath};
ghost use Rattle.factorizer.specs.Cases.{SidesTold, CaseTold};
ghost use Rattle.factorizer.specs.Plans.{TreeAt, TreeStands, TreeReady, PartsTold, BaseTold, PartOf, PlanTold, OverAnswer};

use grammar::{ATOMIC, CHOICE, COMPOUND_ATOMIC, LentTable, OPT, SEQ};
use writing::Place;

// The roots of a Seq's two sides.
#[derive(Clone, Copy)]
pub struct Sides {
    pub head: usize,
    pub tail: usize,
}

// What a Choice of two subtrees is, by the roots that it goes on with:
// (a~b)|(a~c); (a~b)|a in a tight rule; a|(a~b); all else.
#[derive(Clone, Copy)]
pub enum Case {
    Heads { a: usize, b: usize, c: usize },
    Tail { a: usize, b: usize },
    First,
    Plain,
}

// Whether a rule's type is Atomic or CompoundAtomic.
pub fn tight_rule(rule: u32) -> bool
    ensures { result ≡ is_tight rule }
{
    rule == ATOMIC || rule == COMPOUND_ATOMIC
}

// Whether the row `root` is a Seq, and where its sides stand.
fn split(rows: &[u32], root: usize) -> Option<Sides>
    requires { Stands rows.now root }
    ensures { (t : Bytes) (x : Expr Span) → At rows.now root x → SidesTold result rows.now t x }
{
    if rows::kind_at(rows, root) != SEQ {
        return None;
    }
    Some(Sides {
        head: rows::left_of(rows, root),
        tail: root - 1,
    })
}

// Which case the Choice of the subtrees of rows l and r is: the first that fits.
fn case_of(table: &LentTable, l: usize, r: usize, tight: bool) -> Case
    requires inside { Inside table.now.rows.now (length table.now.text.now) }
    requires stands { Stands table.now.rows.now l }
    requires stands_2 { Stands table.now.rows.now r }
    ensures { (x y : Expr Span) → At table.now.rows.now l x → At table.now.rows.now r y → CaseTold result tight table.now.rows.now table.now.text.now x y }
{
    match (split(table.rows, l), split(table.rows, r)) {
        (Some(x), Some(y)) => {
            if rows::same_tree(table, x.head, &*table, y.head) {
                Case::Heads {
                    a: x.head,
                    b: x.tail,
                    c: y.tail,
                }
            } else {
                Case::Plain
            }
        }
        (Some(x), None) => {
            if tight && rows::same_tree(table, x.head, &*table, r) {
                Case::Tail {
                    a: x.head,
                    b: x.tail,
                }
            } else {
                Case::Plain
            }
        }
        (None, Some(y)) => {
            if rows::same_tree(table, l, &*table, y.head) {
                Case::First
            } else {
                Case::Plain
            }
        }
        (None, None) => Case::Plain,
    }
}

// Whether the Choice of row i is one of the three cases.
pub fn fires(table: &LentTable, i: usize, tight: bool) -> bool
    requires inside { Inside table.now.rows.now (length table.now.text.now) }
    requires stands { Stands table.now.rows.now i }
    requires i_value { kind_at table.now.rows.now i ≡ k_choice }
    ensures { result ≡ false → (x : Expr Span) → At table.now.rows.now i x → factor? tight (resolve table.now.text.now x) ≡ none }
{
    let left = rows::left_of(table.rows, i);
    let right = i - 1;
    // most have no Seq on either side, and need no call
    if rows::kind_at(table.rows, left) != SEQ && rows::kind_at(table.rows, right) != SEQ {
        return false;
    }
    !matches!(case_of(table, left, right, tight), Case::Plain)
}

// The rows of a node's two sides.
#[derive(Clone, Copy)]
pub struct Parts {
    pub kind: u32,
    pub l: usize,
    pub r: usize,
}

// What is written for a tree: the factored subtree of row x, then that of row y or, with z, of the Choice of rows y and z, and the rows
// over both by `kind`: 8 a Seq, 9 a Choice, 10 an Opt over the second and a Seq. With no kind the first alone is written.
#[derive(Clone, Copy)]
pub struct Plan {
    x: usize,
    y: usize,
    z: Option<usize>,
    kind: Option<u32>,
}

// The sides of the node of row i.
fn sides_of(rows: &[u32], i: usize) -> Option<Parts>
    requires { Stands rows.now i }
    ensures { (e : Expr Span) → At rows.now i e → PartsTold result rows.now e }
{
    if !chains::forks(rows, i) {
        return None;
    }
    Some(Parts {
        kind: rows::kind_at(rows, i),
        l: rows::left_of(rows, i),
        r: i - 1,
    })
}

// The sides of a tree: those of row l or, with r, the rows l and r.
fn tree_sides(rows: &[u32], l: usize, r: Option<usize>) -> Option<Parts>
    requires { TreeStands rows.now l r }
    ensures { (e : Expr Span) → TreeAt rows.now l r e → PartsTold result rows.now e }
{
    match r {
        Some(r) => Some(Parts { kind: CHOICE, l, r }),
        None => sides_of(rows, l),
    }
}

// The subtree of row l with factored children: its root is not tried.
fn untried(rows: &[u32], l: usize) -> Plan
    requires { Stands rows.now l }
    ensures { (tight : Bool) (t : Bytes) (x : Expr Span) (e : E) → At rows.now l x → PartOf (resolve t x) e → PlanTold result tight rows.now t (beneath tight (resolve t x)) e }
{
    let Some(parts) = sides_of(rows, l) else {
        // only a Choice is tried
        return Plan {
            x: l,
            y: l,
            z: None,
            kind: None,
        };
    };
    Plan {
        x: parts.l,
        y: parts.r,
        z: None,
        kind: Some(parts.kind),
    }
}

// The node of that kind over the subtrees of rows l and r, which need not stand together.
fn plan_of(table: &LentTable, kind: u32, l: usize, r: usize, tight: bool) -> Plan
    requires inside { Inside table.now.rows.now (length table.now.text.now) }
    requires stands { Stands table.now.rows.now l }
    requires stands_2 { Stands table.now.rows.now r }
    ensures { (b : Bin) (x y : Expr Span) → kind ≡ bin_kind b → At table.now.rows.now l x → At table.now.rows.now r y → PlanTold result tight table.now.rows.now table.now.text.now (factored tight (resolve table.now.text.now (bin b x y))) (resolve table.now.text.now (bin b x y)) }
{
    if kind != CHOICE {
        return Plan {
            x: l,
            y: r,
            z: None,
            kind: Some(kind),
        };
    }
    match case_of(table, l, r, tight) {
        Case::Heads { a, b, c } => Plan {
            x: a,
            y: b,
            z: Some(c),
            kind: Some(SEQ),
        },
        Case::Tail { a, b } => Plan {
            x: a,
            y: b,
            z: None,
            kind: Some(OPT),
        },
        Case::First => untried(table.rows, l),
        Case::Plain => Plan {
            x: l,
            y: r,
            z: None,
            kind: Some(CHOICE),
        },
    }
}

// Writes the rows by `kind` over what stands from p to q and from q to s.
fn over(out: &mut [u32], p: Place, q: Place, s: Place, kind: u32) -> Option<Place>
    requires rows_le_rows { (p.rows ≤ q.rows) × ((q.rows ≤ s.rows) × (s.rows ≤ length out.old / row_width)) }
    requires out_len_bound { length out.old < 2 ^ 32 }
    ensures { OverAnswer result kind p q s out.old out.new }
{
    if kind == OPT {
        let e = writing::put_over(out, q, s, OPT, 0, 0)?;
        return writing::put_over(out, p, e, SEQ, 0, 0);
    }
    if kind == CHOICE {
        return writing::put_over(out, p, s, CHOICE, 0, 0);
    }
    writing::put_over(out, p, s, SEQ, 0, 0)
}

// The row below the run at the top of a tree, that of row l or, with r, a Choice of two.
fn base_of(rows: &[u32], l: usize, r: Option<usize>) -> usize
    requires { r ≡ None → Stands rows.now l }
    ensures { BaseTold rows.now result l r }
{
    match r {
        Some(_) => l,
        None => chains::below(rows, l),
    }
}

// Writes the run at the top of a tree over what stands from p to q.
fn run_over(
    rows: &[u32],
    base: usize,
    l: usize,
    r: Option<usize>,
    out: &mut [u32],
    p: Place,
    q: Place,
) -> Option<Place>
    requires { r ≡ None → Raisable rows.now base l p q out.old }
    ensures { (e : Expr Span) → TreeAt rows.now l r e → RaisedAnswer result q p (ups e) out.old out.new }
{
    match r {
        Some(_) => Some(q),
        None => chains::raise(rows, base, l, out, p, q),
    }
}

// Writes the factored subtree of row l or, with r, the factored Choice of the subtrees of rows l and r, which need not stand
// together. Each level of a deep tree takes a frame of this function: whatever needs no recursion is decided before.
fn at(
    table: &LentTable,
    l: usize,
    r: Option<usize>,
    tight: bool,
    out: &mut [u32],
    lits: &mut [u8],
    p: Place,
) -> Option<Place>
    requires inside { Inside table.now.rows.now (length table.now.text.now) }
    requires tree_ready { TreeReady table.now.rows.now table.now.text.now l r p out.old lits.old }
    requires areas { Areas out.old lits.old }
    ensures { (e : Expr Span) → TreeAt table.now.rows.now l r e → KeptAnswer result p (factored tight (resolve table.now.text.now e)) out.old out.new lits.old lits.new }
{
    let base = base_of(table.rows, l, r);
    let Some(parts) = tree_sides(table.rows, base, r) else {
        return writing::keep(table, l, out, lits, p);
    };
    let plan = plan_of(table, parts.kind, parts.l, parts.r, tight);
    let q = at(table, plan.x, None, tight, out, lits, p)?;
    let Some(kind) = plan.kind else {
        return run_over(table.rows, base, l, r, out, p, q);
    };
    let s = at(table, plan.y, plan.z, tight, out, lits, q)?;
    let e = over(out, p, q, s, kind)?;
    run_over(table.rows, base, l, r, out, p, e)
}

// Writes the factored subtree of row `root` of a rule of that type at p, its literals packed.
pub fn factor(
    table: &LentTable,
    root: usize,
    rule: u32,
    out: &mut [u32],
    lits: &mut [u8],
    p: Place,
) -> Option<Place>
    requires inside { Inside table.now.rows.now (length table.now.text.now) }
    requires ready { Ready table.now.rows.now table.now.text.now root p out.old lits.old }
    requires areas { Areas out.old lits.old }
    ensures { (r : Expr Span) → At table.now.rows.now root r → KeptAnswer result p (factor rule (resolve table.now.text.now r)) out.old out.new lits.old lits.new }
{
    let tight = tight_rule(rule);
    at(table, root, None, tight, out, lits, p)
}
