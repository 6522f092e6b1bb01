// Concatenate: a Seq of two Str, or of two Insens, is one; bottom-up, in Atomic rules alone.
#![tactic(auto)]

ghost use Rattle.std.specs.Prelude.{◌≡◌, false, ◌-◌, length};
ghost use Rattle.grammar.specs.Numbers.{k_seq};
ghost use Rattle.grammar.specs.Basic.{Bytes};
ghost use Rattle.grammar.specs.Tree.{Expr};
ghost use Rattle.grammar.specs.Rows.{Span};
ghost use Rattle.grammar.specs.Text.{resolve};
ghost use Rattle.grammar.specs.Table.{Atomic};
ghost use Rattle.grammar.specs.Steps.{or_same, concat?, concatenate};
ghost use Rattle.rows.specs.Rows.{kind_at, Inside, At, Stands};
ghost use Rattle.writing.specs.Writes.{Areas};
ghost use Rattle.writing.specs.Keeps.{KeptAnswer, Ready};
ghost use Rattle.concatenator.specs.Joins.{joins_of, Order, Ended};

use grammar::{ATOMIC, LentTable, RANGE, SEQ};
use writing::Place;

// Whether a node of a kind over roots of two kinds is one literal.
#[tactic(auto, unfolding(crate::specs::Joins::joins_of))]
fn joins(kind: u32, a: u32, b: u32) -> bool
    ensures { result ≡ joins_of kind a b }
{
    kind == SEQ && a < RANGE && a == b
}

// Ends a node of two children that stand from p to q and from q to s. Their literals are adjacent: one row names both.
fn finish(out: &mut [u32], p: Place, q: Place, s: Place, kind: u32) -> Place
    requires { Order p q s out.old }
    ensures { Ended (joins_of kind (kind_at out.old (q.rows - 1)) (kind_at out.old (s.rows - 1))) result p s kind (kind_at out.old (q.rows - 1)) out.old out.new }
{
    let first = rows::kind_at(out, q.rows - 1);
    let second = rows::kind_at(out, s.rows - 1);
    if joins(kind, first, second) {
        let n = s.text - p.text;
        writing::set_row(out, p.rows, first, p.text as u32, n as u32, 1);
        Place {
            rows: p.rows + 1,
            text: s.text,
        }
    } else {
        let size = s.rows - p.rows + 1;
        writing::set_row(out, s.rows, kind, 0, 0, size as u32);
        Place {
            rows: s.rows + 1,
            text: s.text,
        }
    }
}

// Whether the Seq of row i is one literal.
pub fn fires(rows: &[u32], i: usize) -> bool
    requires stands { Stands rows.now i }
    requires i_value { kind_at rows.now i ≡ k_seq }
    ensures { result ≡ false → (t : Bytes) (x : Expr Span) → At rows.now i x → or_same concat? (resolve t x) ≡ resolve t x }
{
    let left = rows::left_of(rows, i);
    joins(SEQ, rows::kind_at(rows, left), rows::kind_at(rows, i - 1))
}

// Writes the subtree of row `root`, which fits, at p: its children first, then its own row or the literal that they make.
fn bottom_up(
    table: &LentTable,
    root: usize,
    out: &mut [u32],
    lits: &mut [u8],
    p: Place,
) -> Option<Place>
    requires inside { Inside table.now.rows.now (length table.now.text.now) }
    requires ready { Ready table.now.rows.now table.now.text.now root p out.old lits.old }
    requires areas { Areas out.old lits.old }
    ensures { (r : Expr Span) → At table.now.rows.now root r → KeptAnswer result p (concatenate Atomic (resolve table.now.text.now r)) out.old out.new lits.old lits.new }
{
    let base = chains::below(table.rows, root);
    if !chains::forks(table.rows, base) {
        return writing::keep(table, root, out, lits, p);
    }
    let left = rows::left_of(table.rows, base);
    let q = bottom_up(table, left, out, lits, p).unwrap();
    let s = bottom_up(table, base - 1, out, lits, q).unwrap();
    let e = finish(out, p, q, s, rows::kind_at(table.rows, base));
    chains::raise(table.rows, base, root, out, p, e)
}

// Writes the concatenated subtree of row `root`, which fits, at p; in a rule of another type than Atomic (2), the subtree as it is.
pub fn concatenate(
    table: &LentTable,
    root: usize,
    rule: u32,
    out: &mut [u32],
    lits: &mut [u8],
    p: Place,
) -> Option<Place>
    requires inside { Inside table.now.rows.now (length table.now.text.now) }
    requires ready { Ready table.now.rows.now table.now.text.now root p out.old lits.old }
    requires areas { Areas out.old lits.old }
    ensures { (r : Expr Span) → At table.now.rows.now root r → KeptAnswer result p (concatenate rule (resolve table.now.text.now r)) out.old out.new lits.old lits.new }
{
    if rule == ATOMIC {
        bottom_up(table, root, out, lits, p)
    } else {
        writing::keep(table, root, out, lits, p)
    }
}
