// Cases of a table and a row (document 02, No. 2): the row stands behind the table.
use crate::answers::Answers;
use areas::{Lend, RULES_AREA, WORD};
use explainer::{Explained, FULL_LIST};
use grammar::{LentTable, Refusal};
use refusals::FULL_MARKS;
use std::io;

// The list's area, 16 words above full size.
const LIST_AREA: usize = 272;

pub fn answer(answers: &mut Answers, lend: Lend, table: LentTable, row: usize) -> io::Result<()> {
    let mut list = [WORD; LIST_AREA];
    let (number, answer, rule, at, met, opened) = match explained(lend, table, row, &mut list) {
        Ok(e) => (0, u32::from(e.answer), e.rule, e.at, e.met, e.opened),
        Err(r) => (u32::from(r), 0, 0, 0, 0, 0),
    };
    answers.put_words(&[number, answer, rule, at, met, opened])?;
    let same = answers.put_front(&list, opened as usize)?;
    answers.put_flag(same)
}

// The call, with marks of its own.
fn explained(lend: Lend, t: LentTable, row: usize, list: &mut [u32]) -> Result<Explained, Refusal> {
    let mut marks = [WORD; RULES_AREA];
    explainer::explain(
        &t,
        row,
        lend.part(list, FULL_LIST, 1),
        lend.part(&mut marks, FULL_MARKS, 2),
    )
}
