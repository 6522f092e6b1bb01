// A table's packed text, measured before the first step, and the last table, copied out.
#![tactic(auto)]

ghost use Rattle.std.specs.Prelude.{◌≡◌, ℕ, ◌*◌, ◌^◌, ◌≤◌, ◌<◌, length, take};
ghost use Rattle.grammar.specs.Refusals.{full_rules, full_rows};
ghost use Rattle.grammar.specs.Numbers.{row_width};
ghost use Rattle.grammar.specs.Basic.{Bytes};
ghost use Rattle.grammar.specs.Rows.{Span};
ghost use Rattle.grammar.specs.Table.{Table, rule_words, row_words, resolve_table, table_text};
ghost use Rattle.grammar.specs.Optimize.{over};
ghost use Rattle.rows.specs.Rows.{Inside};
ghost use Rattle.names.specs.Names.{NamesInside};
ghost use Rattle.packing.specs.Packing.{sum_four, name_length, lit_length, row_length, Covers};

use grammar::{IDENT, LentTable, RANGE, ROW_WIDTH, X, Y};
use writing::Place;

// The length of a row's literal, 0 where the kind has none.
#[tactic(auto, unfolding(crate::specs::Packing::lit_length))]
fn lit_length(kind: u32, y: u32) -> usize
    ensures { (result ≡ lit_length kind y) × (result < 2 ^ 32) }
{
    if kind <= IDENT && kind != RANGE {
        y as usize
    } else {
        0
    }
}

// The sum over rules or rows of a length that a rule or row has by its first three words.
fn sum_four<F: Fn(u32, u32, u32) -> usize>(words: &[u32], size: F) -> usize
    requires callable { F.IsAlwaysCallable size }
    requires small { (a b c r : ℕ) → F.post size a b c r → r < 2 ^ 32 }
    requires few { length words.now ≤ full_rows }
    ensures sum { (f : ℕ → ℕ → ℕ → ℕ) → ((a b c r : ℕ) → F.post size a b c r → r ≡ f a b c) → result ≡ sum_four f words.now }
    ensures most { result ≤ 2 ^ 44 }
{
    let mut sum = 0;
    for i in 0..words.len() / ROW_WIDTH {
        let at = i * ROW_WIDTH;
        sum += size(words[at], words[at + X], words[at + Y]);
    }
    sum
}

// The length of a lent table's packed text: its names' lengths and its literals'. What refusal 8 asks of the input.
pub fn text_size(table: &LentTable) -> usize
    requires { (length table.now.rules.now ≤ full_rules) × (length table.now.rows.now ≤ full_rows) }
    ensures { (t : Table Span) (text : Bytes) → rule_words t ≡ table.now.rules.now → row_words t ≡ table.now.rows.now → Inside table.now.rows.now (length text) → NamesInside table.now.rules.now (length text) → result ≡ length (table_text (resolve_table text t)) }
{
    sum_four(table.rules, |_, n, _| n as usize)
        + sum_four(table.rows, |kind, _, y| lit_length(kind, y))
}

// Copies n words of src over the front of dst.
fn copy_words(src: &[u32], n: usize, dst: &mut [u32])
    requires { (n ≤ length src.now) × (n ≤ length dst.old) }
    ensures { dst.new ≡ over (take n src.now) dst.old }
{
    for i in 0..n {
        dst[i] = src[i];
    }
}

// Copies a packed table of `count` words of rules, up to p, over the front of three outputs.
pub fn put_out(
    count: usize,
    p: Place,
    heads: &[u32],
    rows: &[u32],
    text: &[u8],
    out_rules: &mut [u32],
    out_rows: &mut [u32],
    out_text: &mut [u8],
)
    requires { Covers count p heads.now rows.now text.now out_rules.old out_rows.old out_text.old }
    ensures out_rules_after { out_rules.new ≡ over (take count heads.now) out_rules.old }
    ensures out_rows_after { out_rows.new ≡ over (take (p.rows * row_width) rows.now) out_rows.old }
    ensures out_text_after { out_text.new ≡ over (take p.text text.now) out_text.old }
{
    copy_words(heads, count, out_rules);
    copy_words(rows, p.rows * ROW_WIDTH, out_rows);
    writing::copy_bytes(text, 0, p.text, out_text, 0);
}
