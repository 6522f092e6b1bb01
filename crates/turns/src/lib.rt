// The seven steps in their order, from one work table to the other.
#![tactic(auto)]

ghost use Rattle.std.specs.Prelude.{◌≡◌, Bool, ◌||◌, ℕ, ◌*◌, length};
ghost use Rattle.grammar.specs.Numbers.{rule_width};
ghost use Rattle.grammar.specs.Basic.{Bytes};
ghost use Rattle.grammar.specs.Rows.{Span};
ghost use Rattle.grammar.specs.Table.{Table, resolve_table};
ghost use Rattle.grammar.specs.Refusals.{too_large};
ghost use Rattle.passes.specs.Passes.{Lent};
ghost use Rattle.admission.specs.Ready.{Ready};
ghost use Rattle.turns.specs.Chain.{after, rows_of, seven_of, Works, Stood, Turning, Turns, Paired, Restoring, SevenAnswer, all_seven};

use grammar::{LentTable, ROW_WIDTH, RULE_WIDTH};
use passes::{
    CONCATENATE_STEP, FACTOR_STEP, LIST_STEP, RESTORE_STEP, ROTATE_STEP, SKIP_STEP, UNROLL_STEP,
};
use writing::Place;

// What each of two steps wrote.
#[derive(Clone, Copy)]
pub struct Two {
    pub first: Option<Place>,
    pub last: Option<Place>,
}

// Seven steps: the rows after each of the first six, and where the last's table ends.
#[derive(Clone, Copy)]
pub struct Seven {
    pub rotated: usize,
    pub skipped: usize,
    pub unrolled: usize,
    pub concatenated: usize,
    pub factored: usize,
    pub listed: usize,
    pub place: Place,
}

// The rows that a step wrote, 0 where it wrote none.
fn rows_of(a: Option<Place>) -> usize
    ensures { result ≡ rows_of a }
{
    match a {
        Some(p) => p.rows,
        None => 0,
    }
}

// What seven steps wrote, in one.
fn joined(
    rotate: Option<Place>,
    a: Two,
    b: Two,
    list: Option<Place>,
    restore: Option<Place>,
) -> Option<Seven>
    ensures { result ≡ seven_of (rows_of rotate) (rows_of a.first) (rows_of a.last) (rows_of b.first) (rows_of b.last) (rows_of list) restore }
{
    let place = restore?;
    Some(Seven {
        rotated: rows_of(rotate),
        skipped: rows_of(a.first),
        unrolled: rows_of(a.last),
        concatenated: rows_of(b.first),
        factored: rows_of(b.last),
        listed: rows_of(list),
        place,
    })
}

// A step from the packed table in front of one work table, up to the place that the step before it left, to the other work table: copied as it is where
// the rows show that the step leaves it so, which is cheaper than rule by rule. After a step that found no room there is nothing to do.
fn turn(
    step: u32,
    given: &LentTable,
    marks: &[u32],
    count: usize,
    last: Option<Place>,
    heads: &[u32],
    rows: &[u32],
    text: &[u8],
    heads2: &mut [u32],
    rows2: &mut [u32],
    text2: &mut [u8],
) -> Option<Place>
    requires { Turning step given.now.rules.now given.now.rows.now given.now.text.now marks.now count last heads.now rows.now text.now heads2.old rows2.old text2.old }
    ensures { ((gs : Table Span) (t : Table Bytes) (large : Bool) → Lent gs given.now.rules.now given.now.rows.now → Stood last large t heads.now rows.now text.now → count ≡ length t * rule_width → let u : Table Bytes = after step (resolve_table given.now.text.now gs) t in Stood result (large || too_large u) u heads2.new rows2.new text2.new) }
{
    let p = last?;
    let words = p.rows * ROW_WIDTH;
    let bytes = p.text;
    let h = &heads[..count];
    let r = &rows[..words];
    let t = &text[..bytes];
    let front = LentTable {
        rules: h,
        rows: r,
        text: t,
    };
    let stay = passes::first_fired(step, &front, 0, 0);
    if stay == count / RULE_WIDTH {
        packing::put_out(count, p, heads, rows, text, heads2, rows2, text2);
        return Some(p);
    }
    passes::pass(step, given, marks, &front, heads2, rows2, text2, stay)
}

// Two steps, from the table in front of one work table to the other and back.
fn two_steps(
    step: u32,
    next: u32,
    given: &LentTable,
    marks: &[u32],
    count: usize,
    last: Option<Place>,
    heads: &mut [u32],
    rows: &mut [u32],
    text: &mut [u8],
    heads2: &mut [u32],
    rows2: &mut [u32],
    text2: &mut [u8],
) -> Two
    requires { Turns step next given.now.rules.now given.now.rows.now given.now.text.now marks.now count last heads.old rows.old text.old heads2.old rows2.old text2.old }
    ensures { ((gs : Table Span) (t : Table Bytes) (large : Bool) → Lent gs given.now.rules.now given.now.rows.now → Stood last large t heads.old rows.old text.old → count ≡ length t * rule_width → let look : Table Bytes = resolve_table given.now.text.now gs in Paired result large (after step look t) (after next look (after step look t)) heads.new rows.new text.new) }
{
    let q = turn(
        step, given, marks, count, last, heads, rows, text, heads2, rows2, text2,
    );
    let r = turn(
        next, given, marks, count, q, heads2, rows2, text2, heads, rows, text,
    );
    Two { first: q, last: r }
}

// Step 7, which looks into the table that it is put on: most change no stack, and there is nothing to search for. The marks index the table's names
// already, since no step changes a name.
fn restore(
    marks: &mut [u32],
    count: usize,
    last: Option<Place>,
    heads: &[u32],
    rows: &[u32],
    text: &[u8],
    heads2: &mut [u32],
    rows2: &mut [u32],
    text2: &mut [u8],
) -> Option<Place>
    requires { Restoring marks.old count last heads.now rows.now text.now heads2.old rows2.old text2.old }
    ensures { ((t : Table Bytes) (large : Bool) → Stood last large t heads.now rows.now text.now → count ≡ length t * rule_width → let u : Table Bytes = after 7 t t in Stood result (large || too_large u) u heads2.new rows2.new text2.new) }
{
    let p = last?;
    let words = p.rows * ROW_WIDTH;
    let bytes = p.text;
    let h = &heads[..count];
    let r = &rows[..words];
    let t = &text[..bytes];
    let front = LentTable {
        rules: h,
        rows: r,
        text: t,
    };
    if restorer::still(&front) {
        packing::put_out(count, p, heads, rows, text, heads2, rows2, text2);
        return Some(p);
    }
    // what step 7 writes to is free until it begins
    restorer::settle(&front, marks, heads2);
    passes::pass(RESTORE_STEP, &front, marks, &front, heads2, rows2, text2, 0)
}

// All seven, from the lent table to the first work table.
pub fn all_steps(
    table: &LentTable,
    marks: &mut [u32],
    a_rules: &mut [u32],
    a_rows: &mut [u32],
    a_text: &mut [u8],
    b_rules: &mut [u32],
    b_rows: &mut [u32],
    b_text: &mut [u8],
) -> Option<Seven>
    requires ready { Ready table.now.rules.now table.now.rows.now table.now.text.now marks.old }
    requires works { Works a_rules.old a_rows.old a_text.old b_rules.old b_rows.old b_text.old }
    ensures { (t : Table Span) → Lent t table.now.rules.now table.now.rows.now → SevenAnswer result (all_seven (resolve_table table.now.text.now t)) a_rules.new a_rows.new a_text.new }
{
    let settled = &marks[..];
    let stay = passes::first_fired(ROTATE_STEP, table, 0, 0);
    let p = passes::pass(
        ROTATE_STEP,
        table,
        settled,
        &*table,
        a_rules,
        a_rows,
        a_text,
        stay,
    );
    let count = table.rules.len();
    let q = two_steps(
        SKIP_STEP,
        UNROLL_STEP,
        table,
        settled,
        count,
        p,
        a_rules,
        a_rows,
        a_text,
        b_rules,
        b_rows,
        b_text,
    );
    let unrolled = q.last;
    let r = two_steps(
        CONCATENATE_STEP,
        FACTOR_STEP,
        table,
        settled,
        count,
        unrolled,
        a_rules,
        a_rows,
        a_text,
        b_rules,
        b_rows,
        b_text,
    );
    let factored = r.last;
    let s = turn(
        LIST_STEP, table, settled, count, factored, a_rules, a_rows, a_text, b_rules, b_rows,
        b_text,
    );
    let t = restore(
        marks, count, s, b_rules, b_rows, b_text, a_rules, a_rows, a_text,
    );
    joined(p, q, r, s, t)
}
