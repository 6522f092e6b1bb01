// The whole call.
#![tactic(auto)]

ghost use Rattle.std.specs.Prelude.{◌≡◌, [], ◌∷◌, ◌/◌};
ghost use Rattle.grammar.specs.Numbers.{rule_width};
ghost use Rattle.grammar.specs.Rows.{Span};
ghost use Rattle.grammar.specs.Table.{Table, Words, resolve_table};
ghost use Rattle.grammar.specs.Optimize.{answer, optimize};
ghost use Rattle.grammar.specs.Optimize as whole;
ghost use Rattle.refusals.specs.Check.{lent};
ghost use Rattle.passes.specs.Passes.{Lent};
ghost use Rattle.admission.specs.Ready.{Ready};
ghost use Rattle.turns.specs.Chain.{SevenAnswer, all_seven};
ghost use Rattle.optimizer.specs.Entry.{seen, AtLeast, Small, Said};

use grammar::{LentTable, ROW_WIDTH, RULE_WIDTH, Refusal};
use refusals::{FULL_ROWS, FULL_RULES, FULL_TEXT};
use turns::Seven;

// Rows before and after each of the seven steps.
pub const REPORT: usize = 14;

// A finished table: the counts of its rules, rows and bytes, and for each step the rows before and after it.
#[derive(Clone, Copy)]
pub struct Answer {
    pub rules: u32,
    pub rows: u32,
    pub text: u32,
    pub report: [u32; REPORT],
}

// What is told of a finished table: `first` are its rows before the first step.
fn finished(count: usize, first: usize, steps: Seven) -> Answer
    requires { Small count first steps }
    ensures { Said result count first steps }
{
    let a = first as u32;
    let b = steps.rotated as u32;
    let c = steps.skipped as u32;
    let d = steps.unrolled as u32;
    let e = steps.concatenated as u32;
    let f = steps.factored as u32;
    let g = steps.listed as u32;
    let h = steps.place.rows as u32;
    let rules = count / RULE_WIDTH;
    Answer {
        rules: rules as u32,
        rows: h,
        text: steps.place.text as u32,
        report: [a, b, b, c, c, d, d, e, e, f, f, g, g, h],
    }
}

// The seven steps in the fronts of the work areas, of just full size.
fn steps(
    table: &LentTable,
    marks: &mut [u32],
    a_rules: &mut [u32],
    a_rows: &mut [u32],
    a_text: &mut [u8],
    b_rules: &mut [u32],
    b_rows: &mut [u32],
    b_text: &mut [u8],
) -> Option<Seven>
    requires ready { Ready table.now.rules.now table.now.rows.now table.now.text.now marks.old }
    requires at_least { AtLeast a_rules.old a_rows.old a_text.old }
    requires at_least_2 { AtLeast b_rules.old b_rows.old b_text.old }
    ensures { (t : Table Span) → Lent t table.now.rules.now table.now.rows.now → SevenAnswer result (all_seven (resolve_table table.now.text.now t)) a_rules.new a_rows.new a_text.new }
{
    turns::all_steps(
        table,
        marks,
        &mut a_rules[..FULL_RULES],
        &mut a_rows[..FULL_ROWS],
        &mut a_text[..FULL_TEXT],
        &mut b_rules[..FULL_RULES],
        &mut b_rows[..FULL_ROWS],
        &mut b_text[..FULL_TEXT],
    )
}

// Rewrites the rules, rows and text of a table into the three outputs, by the seven steps: any input gets a finished table or the lowest
// refusal that holds. `a`, `b` and `marks` are work areas.
pub fn optimize(
    table: &LentTable,
    out_rules: &mut [u32],
    out_rows: &mut [u32],
    out_text: &mut [u8],
    a_rules: &mut [u32],
    a_rows: &mut [u32],
    a_text: &mut [u8],
    b_rules: &mut [u32],
    b_rows: &mut [u32],
    b_text: &mut [u8],
    marks: &mut [u32],
) -> Result<Answer, Refusal>
    ensures { seen result (lent out_rules.new out_rows.new out_text.new) ≡ optimize (lent table.now.rules.now table.now.rows.now table.now.text.now) (lent out_rules.old out_rows.old out_text.old) (lent a_rules.old a_rows.old a_text.old) (lent b_rules.old b_rows.old b_text.old) marks.old }
{
    let short = admission::any_short(
        out_rules.len(),
        out_rows.len(),
        out_text.len(),
        a_rules.len(),
        a_rows.len(),
        a_text.len(),
        b_rules.len(),
        b_rows.len(),
        b_text.len(),
        marks.len(),
    );
    admission::refusal(short, table, marks)?;
    let done = steps(
        table, marks, a_rules, a_rows, a_text, b_rules, b_rows, b_text,
    )
    .ok_or(Refusal::Full)?;
    let count = table.rules.len();
    packing::put_out(
        count, done.place, a_rules, a_rows, a_text, out_rules, out_rows, out_text,
    );
    Ok(finished(count, table.rows.len() / ROW_WIDTH, done))
}
