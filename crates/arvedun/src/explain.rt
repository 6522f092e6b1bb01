// Why a loop stays a loop, for hosts.
ghost use Rattle.std.specs.Prelude.{◌≡◌};
ghost use Rattle.refusals.specs.Check.{lent};
ghost use Rattle.explanation.specs.Explain.{explain_words};
ghost use Rattle.arvedun.specs.Explain.{seen_explained};

use grammar::LentTable;

// What explaining answers: the refusal's number or 0; the answer, the rule and the row at which the reading ended, the rule met again, and how many
// were being read then.
#[repr(C)]
#[derive(Clone, Copy)]
pub struct ArvedunExplained {
    pub number: u32,
    pub answer: u32,
    pub rule: u32,
    pub at: u32,
    pub met: u32,
    pub opened: u32,
}

#[unsafe(no_mangle)]
pub extern "C" fn arvedun_explain(
    rules: &[u32],
    rows: &[u32],
    text: &[u8],
    row: usize,
    list: &mut [u32],
    marks: &mut [u32],
) -> ArvedunExplained
    ensures { seen_explained result list.new ≡ explain_words (lent rules.now rows.now text.now) row list.old marks.old }
{
    match explainer::explain(&LentTable { rules, rows, text }, row, list, marks) {
        Ok(a) => ArvedunExplained {
            number: 0,
            answer: u32::from(a.answer),
            rule: a.rule,
            at: a.at,
            met: a.met,
            opened: a.opened,
        },
        Err(r) => ArvedunExplained {
            number: u32::from(r),
            answer: 0,
            rule: 0,
            at: 0,
            met: 0,
            opened: 0,
        },
    }
}
