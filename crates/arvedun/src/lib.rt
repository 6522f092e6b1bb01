// The calls for hosts in C and Rust: include/arvedun.h says what they owe, rust/arvedun.rs is a safe wrapper. The whole call stands here, each
// tool in a file of its own.
#![tactic(auto)]

mod compare;
mod explain;

ghost use Rattle.std.specs.Prelude.{◌≡◌};
ghost use Rattle.grammar.specs.Optimize.{optimize};
ghost use Rattle.refusals.specs.Check.{lent};
ghost use Rattle.arvedun.specs.Host.{seen};

use grammar::LentTable;
use optimizer::REPORT;

// What a call answers: the refusal's number or 0, the counts, and for each step the rows before and after it.
#[repr(C)]
#[derive(Clone, Copy)]
pub struct ArvedunAnswer {
    pub number: u32,
    pub rules: u32,
    pub rows: u32,
    pub text: u32,
    pub report: [u32; REPORT],
}

#[unsafe(no_mangle)]
pub extern "C" fn arvedun_optimize(
    rules: &[u32],
    rows: &[u32],
    text: &[u8],
    out_rules: &mut [u32],
    out_rows: &mut [u32],
    out_text: &mut [u8],
    a_rules: &mut [u32],
    a_rows: &mut [u32],
    a_text: &mut [u8],
    b_rules: &mut [u32],
    b_rows: &mut [u32],
    b_text: &mut [u8],
    marks: &mut [u32],
) -> ArvedunAnswer
    ensures { seen result (lent out_rules.new out_rows.new out_text.new) ≡ optimize (lent rules.now rows.now text.now) (lent out_rules.old out_rows.old out_text.old) (lent a_rules.old a_rows.old a_text.old) (lent b_rules.old b_rows.old b_text.old) marks.old }
{
    match optimizer::optimize(
        &LentTable { rules, rows, text },
        out_rules,
        out_rows,
        out_text,
        a_rules,
        a_rows,
        a_text,
        b_rules,
        b_rows,
        b_text,
        marks,
    ) {
        Ok(a) => {
            let report = a.report;
            ArvedunAnswer {
                number: 0,
                rules: a.rules,
                rows: a.rows,
                text: a.text,
                report,
            }
        }
        Err(r) => ArvedunAnswer {
            number: u32::from(r),
            rules: 0,
            rows: 0,
            text: 0,
            report: [0; REPORT],
        },
    }
}
