// Rotate: chains of Seq, and of Choice, nest to the right.
#![tactic(auto)]

ghost use Rattle.std.specs.Prelude.{◌≡◌, false, ◌/◌, length};
ghost use Rattle.grammar.specs.Numbers.{k_pair};
ghost use Rattle.grammar.specs.Basic.{Bytes};
ghost use Rattle.grammar.specs.Tree.{Expr};
ghost use Rattle.grammar.specs.Rows.{Span};
ghost use Rattle.grammar.specs.Text.{resolve};
ghost use Rattle.grammar.specs.Steps.{rotate, rotate_at};
ghost use Rattle.rows.specs.Rows.{kind_at, Inside, At, Stands};
ghost use Rattle.writing.specs.Writes.{Areas};
ghost use Rattle.writing.specs.Keeps.{KeptAnswer, Ready};
ghost use Rattle.rotator.specs.Members.{members_of, chain_at, AllAnswer};

use grammar::LentTable;
use writing::Place;

// The kind of the chain that goes on at the row below a run: `kind`, or none where there is a run.
fn chain_at(kind: Option<u32>, base: usize, root: usize) -> Option<u32>
    ensures { result ≡ chain_at kind base root }
{
    if base == root { kind } else { None }
}

// Writes the subtree of row `root`, which fits, at p, its literals packed: the rotated tree, or, where the root is a node of the
// chain of `kind`, its members, each rotated, one after the other.
fn walk(
    table: &LentTable,
    kind: Option<u32>,
    root: usize,
    out: &mut [u32],
    lits: &mut [u8],
    p: Place,
) -> Option<Place>
    requires inside { Inside table.now.rows.now (length table.now.text.now) }
    requires ready { Ready table.now.rows.now table.now.text.now root p out.old lits.old }
    requires areas { Areas out.old lits.old }
    ensures { (r : Expr Span) → At table.now.rows.now root r → AllAnswer result p (members_of kind (resolve table.now.text.now r)) out.old out.new lits.old lits.new }
{
    let base = chains::below(table.rows, root);
    if !chains::forks(table.rows, base) {
        return writing::keep(table, root, out, lits, p);
    }
    let k = rows::kind_at(table.rows, base);
    let in_chain = chain_at(kind, base, root) == Some(k);
    let left = rows::left_of(table.rows, base);
    let q = walk(table, Some(k), left, out, lits, p).unwrap();
    let s = walk(table, Some(k), base - 1, out, lits, q).unwrap();
    if in_chain {
        return Some(s);
    }
    // there are as many rows as before: those that are missing close the chain
    let end = p.rows + rows::size_at(table.rows, base);
    let e = chains::close(out, s, k, end - s.rows).unwrap();
    chains::raise(table.rows, base, root, out, p, e)
}

// Whether the left side of row i, a Seq or a Choice, is one as well.
pub fn fires(rows: &[u32], i: usize) -> bool
    requires stands { Stands rows.now i }
    requires i_value { kind_at rows.now i / 2 ≡ k_pair }
    ensures { result ≡ false → (t : Bytes) (x : Expr Span) → At rows.now i x → rotate_at (resolve t x) ≡ resolve t x }
{
    rows::kind_at(rows, rows::left_of(rows, i)) == rows::kind_at(rows, i)
}

// Writes the rotated subtree of row `root`, which fits, at p, its literals packed: it is in no chain.
pub fn rotate(
    table: &LentTable,
    root: usize,
    out: &mut [u32],
    lits: &mut [u8],
    p: Place,
) -> Option<Place>
    requires inside { Inside table.now.rows.now (length table.now.text.now) }
    requires ready { Ready table.now.rows.now table.now.text.now root p out.old lits.old }
    requires areas { Areas out.old lits.old }
    ensures { (r : Expr Span) → At table.now.rows.now root r → KeptAnswer result p (rotate (resolve table.now.text.now r)) out.old out.new lits.old lits.new }
{
    walk(table, None, root, out, lits, p)
}
