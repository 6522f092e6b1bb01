// Right-nested chains: the rows that close one. Runs of nodes with one child each: where one ends, and its rows over another tree.
#![tactic(auto)]

ghost use Rattle.std.specs.Prelude.{◌≡◌, List, ℕ, ◌+◌, ◌/◌, length};
ghost use Rattle.grammar.specs.Numbers.{k_pair};
ghost use Rattle.grammar.specs.Tree.{Bin, bin_kind, Expr};
ghost use Rattle.grammar.specs.Rows.{Span};
ghost use Rattle.rows.specs.Rows.{kind_at, At, Stands, Tells, shape_of};
ghost use Rattle.rows.specs.declared.Shape.TheVariants.{One};
ghost use Rattle.chains.specs.Chains.{Forest, Closable, ClosedAnswer, IsBin};
ghost use Rattle.chains.specs.Runs.{ups, Raisable, RaisedAnswer};

use grammar::{PAIR, ROW_WIDTH};
use rows::Shape;
use writing::Place;

// Joins the last n + 1 trees before s into a right-nested chain, from the last one back: appends its n closing rows.
pub fn close(out: &mut [u32], s: Place, kind: u32, n: usize) -> Option<Place>
    requires bin { IsBin kind }
    requires closable { Closable out.old s.rows n }
    ensures { (b : Bin) (before : List ℕ) (xs : List (Expr Span)) (r : Expr Span) → kind ≡ bin_kind b → Forest out.old s.rows before xs r → length xs ≡ n → ClosedAnswer result s b xs r out.old out.new }
{
    let start = s.rows;
    let last = rows::row_at(out, start - 1)?;
    // where the trees that are joined begin
    let mut first = start - last.size as usize;
    let end = start + n;
    for at in start..end {
        let left = rows::row_at(out, first - 1)?;
        first -= left.size as usize;
        writing::set_row(out, at, kind, 0, 0, (at + 1 - first) as u32);
    }
    Some(Place {
        rows: end,
        text: s.text,
    })
}

// Whether a row of this kind has one child.
fn one_below(kind: u32) -> bool
    ensures { Tells result (shape_of kind ≡ One) }
{
    matches!(rows::shape_of(kind), Shape::One)
}

// The row below the run of rows with one child each that ends at `root`: `root` itself where its row has none or two.
pub fn below(rows: &[u32], root: usize) -> usize
    requires { Stands rows.now root }
    ensures { (r : Expr Span) → At rows.now root r → result + length (ups r) ≡ root }
{
    let mut base = root;
    while one_below(rows[base * ROW_WIDTH]) {
        base -= 1;
    }
    base
}

// Whether row i has two children (kind 8 or 9).
pub fn forks(rows: &[u32], i: usize) -> bool
    requires { Stands rows.now i }
    ensures { Tells result (kind_at rows.now i / 2 ≡ k_pair) }
{
    rows[i * ROW_WIDTH] / 2 == PAIR
}

// Writes the rows after `base` up to `root` over the tree that stands from p to q, with its sizes.
pub fn raise(
    rows: &[u32],
    base: usize,
    root: usize,
    out: &mut [u32],
    p: Place,
    q: Place,
) -> Option<Place>
    requires { Raisable rows.now base root p q out.old }
    ensures { (r : Expr Span) → At rows.now root r → RaisedAnswer result q p (ups r) out.old out.new }
{
    let first = p.rows;
    let mut at = q.rows;
    for i in base..root {
        let row = rows::row_at(rows, i + 1)?;
        writing::set_row(out, at, row.kind, row.x, row.y, (at + 1 - first) as u32);
        at += 1;
    }
    Some(Place {
        rows: at,
        text: q.text,
    })
}
