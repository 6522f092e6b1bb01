// What a call can be refused for before the first step runs: 1 to 7, and 8 of the input.
#![tactic(auto)]

ghost use Rattle.std.specs.Prelude.{◌≡◌, false, ◌||◌, ◌≤◌, length, ltb};
ghost use Rattle.grammar.specs.Numbers.{number_in};
ghost use Rattle.grammar.specs.Refusals.{full_marks};
ghost use Rattle.refusals.specs.Check.{lent, Passed};
ghost use Rattle.admission.specs.Ready.{short_of, Tried, Admitted};

use grammar::{LentTable, Refusal};
use refusals::{FULL_MARKS, FULL_ROWS, FULL_RULES, FULL_TEXT};

// Whether an output or work table of these lengths is below full size.
fn is_short(rules: usize, rows: usize, text: usize) -> bool
    ensures { result ≡ short_of rules rows text }
{
    rules < FULL_RULES || rows < FULL_ROWS || text < FULL_TEXT
}

// Whether any of ten areas is, by their lengths.
pub fn any_short(
    out_rules: usize,
    out_rows: usize,
    out_text: usize,
    a_rules: usize,
    a_rows: usize,
    a_text: usize,
    b_rules: usize,
    b_rows: usize,
    b_text: usize,
    marks: usize,
) -> bool
    ensures { result ≡ (short_of out_rules out_rows out_text || (short_of a_rules a_rows a_text || (short_of b_rules b_rows b_text || ltb marks full_marks))) }
{
    is_short(out_rules, out_rows, out_text)
        || is_short(a_rules, a_rows, a_text)
        || is_short(b_rules, b_rows, b_text)
        || marks < FULL_MARKS
}

// Refusals 7 and 8 of the input, of a table past refusal 6.
fn lists_and_size(table: &LentTable, marks: &mut [u32]) -> Result<(), Refusal>
    requires { Passed (lent table.now.rules.now table.now.rows.now table.now.text.now) marks.old }
    ensures { Tried (number_in result) (lent table.now.rules.now table.now.rows.now table.now.text.now) marks.new }
{
    match skipper::read_lists(table, marks) {
        Err(_) => Err(Refusal::Cycle),
        Ok(()) => {
            if FULL_TEXT < packing::text_size(table) {
                Err(Refusal::Full)
            } else {
                Ok(())
            }
        }
    }
}

// The lowest refusal that a call meets before the first step; where there is none, the marks settle the skip lists.
pub fn refusal(short: bool, table: &LentTable, marks: &mut [u32]) -> Result<(), Refusal>
    requires { short ≡ false → full_marks ≤ length marks.old }
    ensures { Admitted short (number_in result) (lent table.now.rules.now table.now.rows.now table.now.text.now) marks.new }
{
    if short {
        return Err(Refusal::Area);
    }
    refusals::check(table, marks)?;
    lists_and_size(table, marks)
}
