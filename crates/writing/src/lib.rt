// Writing rows and text at a place of two lent areas: a row, a literal, the packed copy of a subtree.
#![tactic(auto)]

ghost use Rattle.std.specs.Prelude.{◌≡◌, List, map, ◌++◌, ℕ, ◌+◌, ◌-◌, ◌*◌, ◌/◌, ◌^◌, ◌≤◌, ◌<◌, length, set};
ghost use Rattle.grammar.specs.Numbers.{row_width};
ghost use Rattle.grammar.specs.Tree.{Expr};
ghost use Rattle.grammar.specs.Rows.{Span, row};
ghost use Rattle.grammar.specs.Text.{bytes_at, resolve};
ghost use Rattle.rows.specs.Rows.{Inside, At, AtStrs, Stands};
ghost use Rattle.writing.specs.Writes.{stored, Areas, Room, PutAnswer, RowAnswer, LitAnswer, StandStrs, StrsAnswer, Answer};
ghost use Rattle.writing.specs.Keeps.{KeptAnswer, Ready};
ghost use Rattle.writing.specs.Copies.{run_text, run_words, Runs, Pending, RanAnswer, MovedAnswer};

use grammar::{LentTable, ROW_WIDTH, SIZE, X, Y};
use rows::Shape;

// Where the next row and the next byte of text go.
#[derive(Clone, Copy)]
pub struct Place {
    pub rows: usize,
    pub text: usize,
}

// Copies n bytes of src from x to dst at `at`.
pub fn copy_bytes(src: &[u8], x: usize, n: usize, dst: &mut [u8], at: usize)
    requires { (x + n ≤ length src.now) × (at + n ≤ length dst.old) }
    ensures { dst.new ≡ stored dst.old at (bytes_at src.now (x, n)) }
{
    // by a loop of its own: std's copy is a call, for one byte too, and a name that the archive would need from outside
    for i in 0..n {
        dst[at + i] = src[x + i];
    }
}

// Writes the four words of a row from word `at` on.
fn set_words(out: &mut [u32], at: usize, kind: u32, x: u32, y: u32, size: u32)
    requires { at + row_width ≤ length out.old }
    ensures { out.new ≡ stored out.old at (row (kind, x, y) size) }
{
    out[at] = kind;
    out[at + X] = x;
    out[at + Y] = y;
    out[at + SIZE] = size;
}

// Writes the offset of the row that begins at word `at`.
fn set_offset(out: &mut [u32], at: usize, x: u32)
    requires { at + row_width ≤ length out.old }
    ensures { out.new ≡ set out.old (at + 1) x }
{
    out[at + X] = x;
}

// Writes row i, where there is room for it.
pub fn set_row(out: &mut [u32], i: usize, kind: u32, x: u32, y: u32, size: u32)
    requires { i < length out.old / row_width }
    ensures { out.new ≡ stored out.old (i * row_width) (row (kind, x, y) size) }
{
    set_words(out, i * ROW_WIDTH, kind, x, y, size);
}

// Writes one row at p.
pub fn put_row(out: &mut [u32], p: Place, kind: u32, x: u32, y: u32, size: u32) -> Option<Place>
    ensures { RowAnswer result p (kind, x, y) size out.old out.new }
{
    let i = p.rows;
    if i < out.len() / ROW_WIDTH {
        set_row(out, i, kind, x, y, size);
        Some(Place {
            rows: i + 1,
            text: p.text,
        })
    } else {
        None
    }
}

// Writes a row over what stands from p to q.
pub fn put_over(out: &mut [u32], p: Place, q: Place, kind: u32, x: u32, y: u32) -> Option<Place>
    requires { (p.rows ≤ q.rows) × (q.rows + 1 < 2 ^ 32) }
    ensures { RowAnswer result q (kind, x, y) (q.rows - p.rows + 1) out.old out.new }
{
    let size = q.rows - p.rows + 1;
    put_row(out, q, kind, x, y, size as u32)
}

// Writes a literal's bytes and its row at p.
pub fn put_lit(
    text: &[u8],
    x: usize,
    n: usize,
    kind: u32,
    out: &mut [u32],
    lits: &mut [u8],
    p: Place,
) -> Option<Place>
    requires n_in_bounds { x + n ≤ length text.now }
    requires room { Room p out.old lits.old }
    ensures { LitAnswer result p kind (bytes_at text.now (x, n)) out.old out.new lits.old lits.new }
{
    let at = p.text;
    if lits.len() - at < n {
        return None;
    }
    copy_bytes(text, x, n, lits, at);
    let q = Place {
        rows: p.rows,
        text: at + n,
    };
    put_row(out, q, kind, at as u32, n as u32, 1)
}

// Literals that stand side by side in a text and go to `at`: `size` bytes from `from` on, not yet copied.
#[derive(Clone, Copy)]
struct Run {
    from: usize,
    size: usize,
    at: usize,
}

// One more literal: part of the run where it stands next to it, else the run is copied and it begins another.
fn next_lit(text: &[u8], x: usize, n: usize, lits: &mut [u8], g: Run) -> Option<Run>
    requires n_in_bounds { x + n ≤ length text.now }
    requires runs { Runs g text.now lits.old }
    ensures { (o : ℕ) (bs t : List ℕ) → Pending g o text.now bs t lits.old → RanAnswer result o text.now (bs ++ bytes_at text.now (x, n)) t lits.new }
{
    let end = g.at + g.size;
    if lits.len() - end < n {
        return None;
    }
    if x == g.from + g.size {
        return Some(Run {
            from: g.from,
            size: g.size + n,
            at: g.at,
        });
    }
    copy_bytes(text, g.from, g.size, lits, g.at);
    Some(Run {
        from: x,
        size: n,
        at: end,
    })
}

// Writes row i of a table as row j, its literal packed after the run.
fn copy_row(
    table: &LentTable,
    i: usize,
    out: &mut [u32],
    j: usize,
    lits: &mut [u8],
    g: Run,
) -> Option<Run>
    requires i_in_bounds { i < length table.now.rows.now / row_width }
    requires j_in_bounds { j < length out.old / row_width }
    requires inside { Inside table.now.rows.now (length table.now.text.now) }
    requires runs { Runs g table.now.text.now lits.old }
    requires lits_len_bound { length lits.old < 2 ^ 32 }
    ensures { (o : ℕ) (bs t : List ℕ) → Pending g o table.now.text.now bs t lits.old → MovedAnswer result o table.now.text.now table.now.rows.now i j bs out.old out.new t lits.new }
{
    let from = i * ROW_WIDTH;
    let to = j * ROW_WIDTH;
    let kind = table.rows[from];
    let x = table.rows[from + X];
    let y = table.rows[from + Y];
    set_words(out, to, kind, x, y, table.rows[from + SIZE]);
    if let Shape::Lit = rows::shape_of(kind) {
        let end = g.at + g.size;
        let h = next_lit(table.text, x as usize, y as usize, lits, g)?;
        // the four words go as one, and a literal's offset after them
        set_offset(out, to, end as u32);
        Some(h)
    } else {
        Some(g)
    }
}

// Writes n rows of a table from row i on at p, their literals packed.
fn copy_rows(
    table: &LentTable,
    i: usize,
    n: usize,
    out: &mut [u32],
    lits: &mut [u8],
    p: Place,
) -> Option<Place>
    requires n_in_bounds { i + n ≤ length table.now.rows.now / row_width }
    requires inside { Inside table.now.rows.now (length table.now.text.now) }
    requires room { Room p out.old lits.old }
    ensures { PutAnswer result p n (run_words p.text table.now.text.now table.now.rows.now i n) (run_text table.now.text.now table.now.rows.now i n) out.old out.new lits.old lits.new }
{
    let first = p.rows;
    if out.len() / ROW_WIDTH - first < n {
        return None;
    }
    let mut g = Run {
        from: 0,
        size: 0,
        at: p.text,
    };
    for k in 0..n {
        g = copy_row(table, i + k, out, first + k, lits, g)?;
    }
    copy_bytes(table.text, g.from, g.size, lits, g.at);
    Some(Place {
        rows: first + n,
        text: g.at + g.size,
    })
}

// Writes the k strings of a Skip that stand from row `first` on, their literals packed.
pub fn copy_strs(
    table: &LentTable,
    first: usize,
    k: usize,
    out: &mut [u32],
    lits: &mut [u8],
    p: Place,
) -> Option<Place>
    requires inside { Inside table.now.rows.now (length table.now.text.now) }
    requires stand_strs { StandStrs table.now.rows.now first k }
    requires room { Room p out.old lits.old }
    ensures { (ss : List Span) → AtStrs table.now.rows.now first ss → length ss ≡ k → StrsAnswer result p (map (bytes_at table.now.text.now) ss) out.old out.new lits.old lits.new }
{
    copy_rows(table, first, k, out, lits, p)
}

// Writes the subtree of row `root` at p, its literals packed.
pub fn copy(
    table: &LentTable,
    root: usize,
    out: &mut [u32],
    lits: &mut [u8],
    p: Place,
) -> Option<Place>
    requires inside { Inside table.now.rows.now (length table.now.text.now) }
    requires stands { Stands table.now.rows.now root }
    requires room { Room p out.old lits.old }
    ensures { (r : Expr Span) → At table.now.rows.now root r → Answer result p (resolve table.now.text.now r) out.old out.new lits.old lits.new }
{
    let row = rows::row_at(table.rows, root)?;
    let n = row.size as usize;
    copy_rows(table, root + 1 - n, n, out, lits, p)
}

// Writes the subtree of row `root`, which fits, at p, its literals packed.
pub fn keep(
    table: &LentTable,
    root: usize,
    out: &mut [u32],
    lits: &mut [u8],
    p: Place,
) -> Option<Place>
    requires inside { Inside table.now.rows.now (length table.now.text.now) }
    requires ready { Ready table.now.rows.now table.now.text.now root p out.old lits.old }
    requires areas { Areas out.old lits.old }
    ensures { (r : Expr Span) → At table.now.rows.now root r → KeptAnswer result p (resolve table.now.text.now r) out.old out.new lits.old lits.new }
{
    copy(table, root, out, lits, p)
}
