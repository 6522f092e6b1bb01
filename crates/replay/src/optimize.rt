// Cases of a table.
use crate::answers::Answers;
use areas::{Areas, BYTE, Lend};
use grammar::{LentTable, ROW_WIDTH, RULE_WIDTH};
use optimizer::REPORT;
use std::io;

pub fn answer(answers: &mut Answers, lend: Lend, table: LentTable) -> io::Result<()> {
    let mut out = Areas::new();
    let (number, rules, rows, text, report) = match areas::answer(
        lend,
        table,
        &mut out.rules,
        &mut out.rows,
        &mut out.text,
    ) {
        Ok(a) => {
            let report = a.report;
            (0, a.rules, a.rows, a.text, report)
        }
        Err(r) => (u32::from(r), 0, 0, 0, [0; REPORT]),
    };
    answers.put_words(&[number, rules, rows, text])?;
    answers.put_words(&report)?;
    let same_rules = answers.put_front(&out.rules, RULE_WIDTH * rules as usize)?;
    let same_rows = answers.put_front(&out.rows, ROW_WIDTH * rows as usize)?;
    let (text, rest) = areas::cut(&out.text, text as usize);
    answers.put_bytes(text)?;
    answers.put_flag(same_rules && same_rows && areas::unchanged(rest, BYTE))
}
