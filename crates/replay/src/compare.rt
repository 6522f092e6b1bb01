// Cases of two tables (document 02, No. 1): the right table stands behind the left one.
use crate::answers::Answers;
use areas::{Lend, RULES_AREA, WORD};
use comparer::{FULL_LIST, Literal, Refused};
use grammar::LentTable;
use refusals::FULL_MARKS;
use std::io;

// The list's area, 16 words above full size.
const LIST_AREA: usize = 2064;

// An entry of the list is so many words.
const ENTRY: usize = 4;

// The row of a rule whose literal is asked for.
#[derive(Clone, Copy)]
pub struct Place {
    pub side: u32,
    pub rule: usize,
    pub row: usize,
}

pub fn answer(
    answers: &mut Answers,
    lend: Lend,
    left: LentTable,
    right: LentTable,
    at: Place,
) -> io::Result<()> {
    let mut list = [WORD; LIST_AREA];
    let (number, side, count) = match compared(lend, left, right, &mut list) {
        Ok(count) => (0, 0, count),
        Err(r) => (u32::from(r.why), r.side as u32, 0),
    };
    let (found, offset, length) = match literal(left, right, at) {
        Some(l) => (1, l.offset, l.length),
        None => (0, 0, 0),
    };
    answers.put_words(&[number, side, count, found, offset, length])?;
    let same = answers.put_front(&list, ENTRY * count as usize)?;
    answers.put_flag(same)
}

// The call, with marks of its own: how many entries it lists.
fn compared(
    lend: Lend,
    left: LentTable,
    right: LentTable,
    list: &mut [u32],
) -> Result<u32, Refused> {
    let mut left_marks = [WORD; RULES_AREA];
    let mut right_marks = [WORD; RULES_AREA];
    comparer::compare(
        &left,
        &right,
        lend.part(list, FULL_LIST, 1),
        lend.part(&mut left_marks, FULL_MARKS, 2),
        lend.part(&mut right_marks, FULL_MARKS, 3),
    )
}

fn literal(left: LentTable, right: LentTable, at: Place) -> Option<Literal> {
    comparer::place(&left, &right, at.side, at.rule, at.row)
}
