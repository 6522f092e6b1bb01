// List, over a whole subtree: (a~b)* ~ a becomes a ~ (b~a)*.
#![tactic(auto)]

ghost use Rattle.std.specs.Prelude.{◌≡◌, false, ◌+◌, ◌^◌, ◌≤◌, ◌<◌, length, take, drop};
ghost use Rattle.std.proofs.Math.Option.{none};
ghost use Rattle.grammar.specs.Numbers.{k_seq};
ghost use Rattle.grammar.specs.Tree.{Expr, E, Bin, bin, bin_kind};
ghost use Rattle.grammar.specs.Rows.{Span};
ghost use Rattle.grammar.specs.Text.{resolve};
ghost use Rattle.grammar.specs.Steps.{or_same, list, list?};
ghost use Rattle.rows.specs.Rows.{kind_at, Tells, Inside, At, Stands, StandsIn};
ghost use Rattle.writing.specs.Writes.{stored, Areas};
ghost use Rattle.writing.specs.Keeps.{KeptAnswer, Ready};
ghost use Rattle.lister.specs.Loops.{Loops};
ghost use Rattle.lister.specs.Mends.{Pair, Pairs, Movable, MendedAnswer};

use grammar::{LentTable, REP, ROW_WIDTH, SEQ};
use writing::Place;

// Copies n words down, from `from` to `to`; the two runs may overlap. Never inlined: `list` keeps a small frame.
#[inline(never)]
fn move_down(out: &mut [u32], to: usize, from: usize, n: usize)
    requires { (to ≤ from) × (from + n ≤ length out.old) }
    ensures { out.new ≡ stored out.old to (take n (drop from out.old)) }
{
    for i in 0..n {
        out[to + i] = out[from + i];
    }
}

// Moves the rows from `from` to s up past the two rows before them, which come after them anew, and ends a Seq of m rows.
fn mend(out: &mut [u32], from: usize, s: Place, n: u32, m: u32) -> Option<Place>
    requires movable { Movable from s.rows out.old }
    requires n_bound { n + 1 < 2 ^ 32 }
    ensures { MendedAnswer result s from n m out.old out.new }
{
    let end = s.rows;
    move_down(
        out,
        (from - 2) * ROW_WIDTH,
        from * ROW_WIDTH,
        (end - from) * ROW_WIDTH,
    );
    writing::set_row(out, end - 2, SEQ, 0, 0, n);
    writing::set_row(out, end - 1, REP, 0, 0, n + 1);
    writing::put_row(out, s, SEQ, 0, 0, m)
}

// Whether the subtrees of rows i and j are (a~b)* and a.
fn loops(table: &LentTable, i: usize, j: usize) -> bool
    requires stands_in { StandsIn table.now.rows.now i (length table.now.text.now) }
    requires stands_in_2 { StandsIn table.now.rows.now j (length table.now.text.now) }
    ensures { (l r : Expr Span) → At table.now.rows.now i l → At table.now.rows.now j r → Tells result (Loops (resolve table.now.text.now l) (resolve table.now.text.now r)) }
{
    if rows::kind_at(table.rows, i) != REP {
        return false;
    }
    let body = i - 1;
    if rows::kind_at(table.rows, body) != SEQ {
        return false;
    }
    rows::same_tree(table, rows::left_of(table.rows, body), &*table, j)
}

// Ends a node of two children that stand from p to q and from q to s.
fn finish(out: &mut [u32], lits: &[u8], p: Place, q: Place, s: Place, kind: u32) -> Option<Place>
    requires { Pairs p q s out.old lits.now }
    ensures { (b : Bin) (e f : E) → kind ≡ bin_kind b → Pair p q s e f out.old lits.now → KeptAnswer result p (or_same list? (bin b e f)) out.old out.new lits.now lits.now }
{
    if kind == SEQ
        && loops(
            &LentTable {
                rules: &[],
                rows: out,
                text: lits,
            },
            q.rows - 1,
            s.rows - 1,
        )
    {
        // the loop's two rows count what they did: a is as large as the tree that follows
        let n = q.rows - p.rows - 1;
        let m = s.rows - p.rows + 1;
        return mend(out, q.rows, s, n as u32, m as u32);
    }
    writing::put_over(out, p, s, kind, 0, 0)
}

// Whether the Seq of row i begins with a loop that is listed.
pub fn fires(table: &LentTable, i: usize) -> bool
    requires inside { Inside table.now.rows.now (length table.now.text.now) }
    requires stands { Stands table.now.rows.now i }
    requires i_value { kind_at table.now.rows.now i ≡ k_seq }
    ensures { result ≡ false → (x : Expr Span) → At table.now.rows.now i x → list? (resolve table.now.text.now x) ≡ none }
{
    let left = rows::left_of(table.rows, i);
    // nearly every Seq begins with none, and needs no call
    rows::kind_at(table.rows, left) == REP && loops(table, left, i - 1)
}

// Writes the listed subtree of row `root` at p, its literals packed: its children first, then its own row or what they are listed as.
pub fn list(
    table: &LentTable,
    root: usize,
    out: &mut [u32],
    lits: &mut [u8],
    p: Place,
) -> Option<Place>
    requires inside { Inside table.now.rows.now (length table.now.text.now) }
    requires ready { Ready table.now.rows.now table.now.text.now root p out.old lits.old }
    requires areas { Areas out.old lits.old }
    ensures { (r : Expr Span) → At table.now.rows.now root r → KeptAnswer result p (list (resolve table.now.text.now r)) out.old out.new lits.old lits.new }
{
    let base = chains::below(table.rows, root);
    if !chains::forks(table.rows, base) {
        return writing::keep(table, root, out, lits, p);
    }
    let left = rows::left_of(table.rows, base);
    let q = list(table, left, out, lits, p).unwrap();
    let s = list(table, base - 1, out, lits, q).unwrap();
    let e = finish(out, lits, p, q, s, rows::kind_at(table.rows, base)).unwrap();
    chains::raise(table.rows, base, root, out, p, e)
}
