// Finding rules by name, by an index in the marks.
// The index has a tree for each bucket of names. A search goes down its tree, a byte of the name at each node, and compares one name at the end:
// it costs what that name is long, whatever the other names are. Where things stand in the index: specs/Names.antt.
#![tactic(auto)]

ghost use Rattle.std.specs.Prelude.{◌≡◌, cond, ℕ, ◌+◌, ◌-◌, ◌*◌, ◌/◌, ◌%◌, ◌^◌, ◌≤◌, ◌<◌, eqb, length};
ghost use Rattle.grammar.specs.Numbers.{rule_width, mark_width};
ghost use Rattle.grammar.specs.Basic.{same_bytes, member};
ghost use Rattle.grammar.specs.Text.{bytes_at};
ghost use Rattle.grammar.specs.Lists.{ANY};
ghost use Rattle.grammar.specs.Stack.{stack_names};
ghost use Rattle.grammar.specs.Refusals as refusals;
ghost use Rattle.rows.specs.Rows.{Tells};
ghost use Rattle.names.specs.Names.{name_of, rows_before, hash_from, last_bytes, bucket_of, half_at, with_half, symbol_at, onward, marked, with_ends, NamesInside, Ends, Indexed, Walkable, AllIndexed, IndexAnswer, NamesAnswer, ApartAnswer, First, Finds, IsName, halves, if_not, if_so, half_size, few_rules, memory_word, ways_word};

use grammar::{LENGTH, LentTable, MARK_WIDTH, ROWS, RULE_WIDTH};

// A slot of the index, and what it holds.
#[derive(Clone, Copy)]
struct Spot {
    slot: usize,
    holds: usize,
}

// So many of a name's last bytes count for its bucket.
const LAST: usize = 8;

// The words of a mark: the index of names has word 0 and word 2, the phase that runs word 1, and word 3 is the row after the rule's last.
pub const MEMORY: usize = 1;

pub const WAYS: usize = 2;

pub const END: usize = 3;

// The index stands in halves of words: so many in a mark, and where a node of it has the slots to go on with.
const HALVES: usize = 8;

const IF_NOT: usize = 4;

const IF_SO: usize = 5;

// So many values a half of a word has, and a word.
const HALF: usize = 65536;

const HALF_WORD: u32 = 65536;

const WORD: usize = 4294967296;

// A prime that spreads bytes.
const SPREAD: usize = 16777619;

// A byte as a number.
fn byte(b: u8) -> usize
    ensures { (result ≡ b) × (result < 256) }
{
    b as usize
}

// A hash from `seed` on over the bytes with offset x and length n.
fn hash_bytes(text: &[u8], x: usize, n: usize, seed: usize) -> usize
    requires { x + n ≤ length text.now }
    ensures { result ≡ hash_from (seed % 2 ^ 32) (bytes_at text.now (x, n)) }
{
    let mut h = seed % WORD;
    for i in 0..n {
        h = (h * SPREAD + byte(text[x + i])) % WORD;
    }
    h
}

// Where the last bytes of a name of n bytes start.
fn last_from(n: usize) -> usize
    ensures { result ≡ n - last_bytes }
{
    n.saturating_sub(LAST)
}

// The bucket of the name of n bytes at x, of `count` buckets.
fn bucket_of(text: &[u8], x: usize, n: usize, count: usize) -> usize
    requires n_in_bounds { x + n ≤ length text.now }
    requires count_nonzero { 0 < count }
    ensures { (result ≡ bucket_of count (bytes_at text.now (x, n))) × (result < count) }
{
    let from = last_from(n);
    hash_bytes(text, x + from, n - from, n) % count
}

// The lower half of a word.
fn lower(w: u32) -> usize
    ensures { (result ≡ w % half_size) × (result < half_size) }
{
    (w % HALF_WORD) as usize
}

// The upper half of a word.
fn upper(w: u32) -> usize
    ensures { (result ≡ w / half_size) × (result < half_size) }
{
    (w / HALF_WORD) as usize
}

// The word of two halves.
fn halves(high: usize, low: usize) -> u32
    requires { (high < half_size) × (low < half_size) }
    ensures { result ≡ high * half_size + low }
{
    (high * HALF + low) as u32
}

// Half h of the marks.
fn half(marks: &[u32], h: usize) -> usize
    requires { h / 2 < length marks.now }
    ensures { (result ≡ half_at marks.now h) × (result < half_size) }
{
    let w = marks[h / 2];
    if h % 2 == 0 { lower(w) } else { upper(w) }
}

// The word w with v for the half that h is.
fn with_half(w: u32, h: usize, v: usize) -> u32
    requires { v < half_size }
    ensures { result ≡ cond (eqb (h % 2) 0) (w / half_size * half_size + v) (v * half_size + w % half_size) }
{
    if h % 2 == 0 {
        halves(upper(w), v)
    } else {
        halves(v, lower(w))
    }
}

// Writes half h of the marks.
fn set_half(marks: &mut [u32], h: usize, v: usize)
    requires { (h / 2 < length marks.old) × (v < half_size) }
    ensures { marks.new ≡ with_half marks.old h v }
{
    let at = h / 2;
    marks[at] = with_half(marks[at], h, v);
}

// Whether two names, of n bytes at x and of m bytes at y, have the same at position d.
fn same_symbol(text1: &[u8], x: usize, n: usize, text2: &[u8], y: usize, m: usize, d: usize) -> bool
    requires { (x + n ≤ length text1.now) × (y + m ≤ length text2.now) }
    ensures { Tells result (symbol_at (bytes_at text1.now (x, n)) d ≡ symbol_at (bytes_at text2.now (y, m)) d) }
{
    if d < n {
        d < m && text1[x + d] == text2[y + d]
    } else {
        m <= d
    }
}

// The slot that the name of n bytes at x of another text goes on with at node k, and what it holds.
fn go_on(table: &LentTable, marks: &[u32], k: usize, text2: &[u8], x: usize, n: usize) -> Spot
    requires names_inside { NamesInside table.now.rules.now (length table.now.text.now) }
    requires k_in_bounds { (k < length table.now.rules.now / rule_width) × (length table.now.rules.now / rule_width * mark_width ≤ length marks.now) }
    requires n_in_bounds { x + n ≤ length text2.now }
    ensures { (result.slot ≡ onward (name_of table.now.rules.now table.now.text.now) marks.now (bytes_at text2.now (x, n)) k) × (result.holds ≡ half_at marks.now result.slot) }
{
    let at = k * RULE_WIDTH;
    let d = half(marks, k * HALVES);
    if same_symbol(
        table.text,
        table.rules[at] as usize,
        table.rules[at + LENGTH] as usize,
        text2,
        x,
        n,
        d,
    ) {
        let slot = k * HALVES + IF_SO;
        return Spot {
            slot: slot,
            holds: half(marks, slot),
        };
    }
    let slot = k * HALVES + IF_NOT;
    Spot {
        slot: slot,
        holds: half(marks, slot),
    }
}

// Where the way of the name of n bytes at x of another text ends.
fn spot_of(table: &LentTable, marks: &[u32], text2: &[u8], x: usize, n: usize) -> Spot
    requires names_inside { NamesInside table.now.rules.now (length table.now.text.now) }
    requires walkable { Walkable table.now.rules.now table.now.text.now marks.now }
    requires rule_width_nonzero { 0 < length table.now.rules.now / rule_width }
    requires n_in_bounds { x + n ≤ length text2.now }
    ensures holds_value { result.holds ≡ half_at marks.now result.slot }
    ensures by_index { (k : ℕ) → Indexed k table.now.rules.now table.now.text.now marks.now → Ends (length table.now.rules.now / rule_width) k (name_of table.now.rules.now table.now.text.now) marks.now (bytes_at text2.now (x, n)) result.slot }
{
    let count = table.rules.len() / RULE_WIDTH;
    let start = bucket_of(text2, x, n, count) * HALVES + 1;
    let mut slot = start;
    let mut holds = half(marks, start);
    while count < holds {
        let s = go_on(table, marks, holds - count, text2, x, n);
        slot = s.slot;
        holds = s.holds;
    }
    Spot {
        slot: slot,
        holds: holds,
    }
}

// Where two names of n and m bytes at x and y differ. Where their lengths do, no byte is looked at.
fn tell_apart(text: &[u8], x: usize, n: usize, y: usize, m: usize) -> Option<usize>
    requires { (x + n ≤ length text.now) × (y + m ≤ length text.now) }
    ensures { ApartAnswer result (length text.now) (bytes_at text.now (x, n)) (bytes_at text.now (y, m)) }
{
    if n < m {
        return Some(n);
    }
    if m < n {
        return Some(m);
    }
    let d = rows::first_unlike(text, x, text, y, n);
    if d < n { Some(d) } else { None }
}

// Makes rule i's node, which tells its name from rule j's at position d, and puts it where rule j was found, in `slot`.
fn fork(marks: &mut [u32], count: usize, slot: usize, i: usize, j: usize, d: usize)
    requires slot_in_bounds { (slot / 2 < length marks.old) × (i * mark_width + ways_word < length marks.old) }
    requires i_bound { (count + i < half_size) × (j < half_size) × (d < half_size) }
    ensures { marks.new ≡ with_half (with_half (with_half (with_half marks.old (i * halves) d) (i * halves + if_not) j) (i * halves + if_so) i) slot (count + i) }
{
    set_half(marks, i * HALVES, d);
    set_half(marks, i * HALVES + IF_NOT, j);
    set_half(marks, i * HALVES + IF_SO, i);
    set_half(marks, slot, count + i);
}

// Puts rule i's name, of n bytes at x, beside rule j's, which was found in `slot`: false where they are the same.
fn beside(table: &LentTable, marks: &mut [u32], slot: usize, i: usize, j: usize) -> bool
    requires names_inside { NamesInside table.now.rules.now (length table.now.text.now) }
    requires i_in_bounds { (i < length table.now.rules.now / rule_width) × (length table.now.text.now ≤ half_size) }
    requires indexed { Indexed i table.now.rules.now table.now.text.now marks.old }
    requires ends { Ends (length table.now.rules.now / rule_width) i (name_of table.now.rules.now table.now.text.now) marks.old (name_of table.now.rules.now table.now.text.now i) slot }
    requires j_value { (j ≡ half_at marks.old slot) × (j < length table.now.rules.now / rule_width) }
    ensures { IndexAnswer result (i + 1) table.now.rules.now table.now.text.now marks.new }
{
    let at = i * RULE_WIDTH;
    let to = j * RULE_WIDTH;
    match tell_apart(
        table.text,
        table.rules[to] as usize,
        table.rules[to + LENGTH] as usize,
        table.rules[at] as usize,
        table.rules[at + LENGTH] as usize,
    ) {
        None => false,
        Some(d) => {
            fork(marks, table.rules.len() / RULE_WIDTH, slot, i, j, d);
            true
        }
    }
}

// Puts rule i's name into the index of those before it: false where one of them is the same.
fn index_name(table: &LentTable, marks: &mut [u32], i: usize) -> bool
    requires names_inside { NamesInside table.now.rules.now (length table.now.text.now) }
    requires i_in_bounds { (i < length table.now.rules.now / rule_width) × (length table.now.text.now ≤ half_size) }
    requires indexed { Indexed i table.now.rules.now table.now.text.now marks.old }
    ensures { IndexAnswer result (i + 1) table.now.rules.now table.now.text.now marks.new }
{
    let at = i * RULE_WIDTH;
    let s = spot_of(
        table,
        marks,
        table.text,
        table.rules[at] as usize,
        table.rules[at + LENGTH] as usize,
    );
    let slot = s.slot;
    let j = s.holds;
    if j < table.rules.len() / RULE_WIDTH {
        return beside(table, marks, slot, i, j);
    }
    set_half(marks, slot, i);
    true
}

// Writes v to word j of the first `count` marks.
fn fill(count: usize, marks: &mut [u32], j: usize, v: u32)
    requires { (count * mark_width ≤ length marks.old) × (j < mark_width) }
    ensures { marks.new ≡ marked (λ _. v) j count marks.old }
{
    for i in 0..count {
        marks[i * MARK_WIDTH + j] = v;
    }
}

// Empties the index.
fn clear(table: &LentTable, marks: &mut [u32])
    requires { (length table.now.rules.now / rule_width * mark_width ≤ length marks.old) × (length table.now.rules.now / rule_width < few_rules) }
    ensures { Indexed 0 table.now.rules.now table.now.text.now marks.new }
{
    let count = table.rules.len() / RULE_WIDTH;
    let none = halves(count, count);
    fill(count, marks, 0, none);
    fill(count, marks, WAYS, none);
}

// Clears the memories of the first `count` rules.
pub fn forget(marks: &mut [u32], count: usize)
    requires { count * mark_width ≤ length marks.old }
    ensures { marks.new ≡ marked (λ _. 0) memory_word count marks.old }
{
    fill(count, marks, MEMORY, 0);
}

// Makes the index of all names: false where two are the same.
pub fn index_names(table: &LentTable, marks: &mut [u32]) -> bool
    requires names_inside { NamesInside table.now.rules.now (length table.now.text.now) }
    requires mark_width_in_bounds { length table.now.rules.now / rule_width * mark_width ≤ length marks.old }
    requires rule_width_len_bound { (length table.now.rules.now / rule_width < few_rules) × (length table.now.text.now ≤ half_size) }
    ensures { NamesAnswer result table.now.rules.now table.now.text.now marks.new }
{
    let count = table.rules.len() / RULE_WIDTH;
    clear(table, marks);
    for i in 0..count {
        if !index_name(table, marks, i) {
            return false;
        }
    }
    true
}

// Writes the end of each rule's rows into its mark.
pub fn mark_ends(rules: &[u32], marks: &mut [u32])
    requires rule_width_bound { rows_before rules.now (length rules.now / rule_width) < 2 ^ 32 }
    requires mark_width_in_bounds { length rules.now / rule_width * mark_width ≤ length marks.old }
    ensures { marks.new ≡ with_ends rules.now marks.old }
{
    let count = rules.len() / RULE_WIDTH;
    let mut end: u32 = 0;
    for i in 0..count {
        end += rules[i * RULE_WIDTH + ROWS];
        marks[i * MARK_WIDTH + END] = end;
    }
}

// Whether rule i has the name of n bytes at x of another text: lengths before bytes.
pub fn has_name(table: &LentTable, i: usize, text2: &[u8], x: usize, n: usize) -> bool
    requires names_inside { NamesInside table.now.rules.now (length table.now.text.now) }
    requires i_in_bounds { i < length table.now.rules.now / rule_width }
    requires n_in_bounds { x + n ≤ length text2.now }
    ensures { Tells result (name_of table.now.rules.now table.now.text.now i ≡ bytes_at text2.now (x, n)) }
{
    let at = i * RULE_WIDTH;
    table.rules[at + LENGTH] as usize == n
        && rows::same_bytes(table.text, table.rules[at] as usize, text2, x, n)
}

// The rule with the name of n bytes at x of another text.
pub fn find_rule(
    table: &LentTable,
    marks: &[u32],
    text2: &[u8],
    x: usize,
    n: usize,
) -> Option<usize>
    requires all_indexed { AllIndexed table.now.rules.now table.now.text.now marks.now }
    requires n_in_bounds { x + n ≤ length text2.now }
    ensures { Finds (length table.now.rules.now / rule_width) table.now.rules.now table.now.text.now (bytes_at text2.now (x, n)) result }
{
    let count = table.rules.len() / RULE_WIDTH;
    if count == 0 {
        return None;
    }
    let i = spot_of(table, marks, text2, x, n).holds;
    if i == count {
        return None;
    }
    if has_name(table, i, text2, x, n) {
        Some(i)
    } else {
        None
    }
}

// The same where the name is known to be a rule's: no name is compared.
pub fn find_known(table: &LentTable, marks: &[u32], text2: &[u8], x: usize, n: usize) -> usize
    requires all_indexed { AllIndexed table.now.rules.now table.now.text.now marks.now }
    requires n_in_bounds { x + n ≤ length text2.now }
    requires name { IsName table.now.rules.now table.now.text.now (bytes_at text2.now (x, n)) }
    ensures { First (length table.now.rules.now / rule_width) table.now.rules.now table.now.text.now (bytes_at text2.now (x, n)) result }
{
    spot_of(table, marks, text2, x, n).holds
}

// Whether the n bytes at x are these.
fn is_name(text: &[u8], x: usize, n: usize, name: &[u8]) -> bool
    requires { x + n ≤ length text.now }
    ensures { result ≡ same_bytes (bytes_at text.now (x, n)) name.now }
{
    n == name.len() && rows::same_bytes(text, x, name, 0, n)
}

// Whether a name is ANY.
pub fn is_any(text: &[u8], x: usize, n: usize) -> bool
    requires { x + n ≤ length text.now }
    ensures { result ≡ same_bytes (bytes_at text.now (x, n)) ANY }
{
    is_name(text, x, n, b"ANY")
}

// Whether a name changes the stack: the one list of such names.
pub fn changes_stack(text: &[u8], x: usize, n: usize) -> bool
    requires { x + n ≤ length text.now }
    ensures { result ≡ member (bytes_at text.now (x, n)) stack_names }
{
    is_name(text, x, n, b"DROP") || is_name(text, x, n, b"POP")
}

// Whether a name is kept from rules: ANY, and the names that change the stack.
pub fn reserved(text: &[u8], x: usize, n: usize) -> bool
    requires { x + n ≤ length text.now }
    ensures { result ≡ member (bytes_at text.now (x, n)) refusals.reserved }
{
    is_any(text, x, n) || changes_stack(text, x, n)
}
