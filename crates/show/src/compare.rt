// What the call changed, rule by rule: the table before and after it, side by side (document 02, No. 1).
use crate::print;
use crate::table::Rules;
use areas::RULES_AREA;
use comparer::{FULL_LIST, Refused, Side};
use grammar::LentTable;
use std::io;

// An entry is a sort, the left rule, the right rule and a row.
type Entry = [u32; 4];

const OTHER_TYPE: u32 = 1;

const OTHER_TREE: u32 = 2;

pub fn changes(rt: &impl Print, left: LentTable, right: LentTable) -> io::Result<()> {
    let mut list = [0; FULL_LIST];
    let Ok(n) = compared(left, right, &mut list) else {
        return println!(rt; "  changes: not compared, a RestoreOnErr is no kind of an input");
    };
    let (entries, _) = areas::cut(list.as_chunks().0, n as usize);
    if entries.is_empty() {
        println!(rt; "  changes: none")?;
    }
    for e in entries {
        entry(rt, *e, left, right)?;
    }
    Ok(())
}

// The call, with marks of its own: how many entries it lists.
fn compared(left: LentTable, right: LentTable, list: &mut [u32]) -> Result<u32, Refused> {
    let mut left_marks = [0; RULES_AREA];
    let mut right_marks = [0; RULES_AREA];
    comparer::compare(&left, &right, list, &mut left_marks, &mut right_marks)
}

// An entry. Every rule of these tables is found on both sides.
fn entry(rt: &impl Print, e: Entry, left: LentTable, right: LentTable) -> io::Result<()> {
    let [sort, left_rule, right_rule, row] = e;
    print!(rt; "  changes: {}", name(left, left_rule))?;
    match sort {
        OTHER_TYPE => println!(rt; " has another type"),
        OTHER_TREE => {
            print!(rt; ", row {row} was ")?;
            what(rt, left, right, Side::Left, left_rule, row)?;
            print!(rt; ", is ")?;
            what(rt, left, right, Side::Right, right_rule, row)?;
            println!(rt; "")
        }
        _ => println!(rt; " is found on one side"),
    }
}

pub fn name<'a>(t: LentTable<'a, 'a, 'a>, rule: u32) -> &'a str {
    Rules::new(t).nth(rule as usize).map_or("", |r| r.name)
}

// What stands at a row of a rule: a literal's bytes, another row's kind, or nothing, past the rule's last row.
fn what(
    rt: &impl Print,
    left: LentTable,
    right: LentTable,
    side: Side,
    rule: u32,
    row: u32,
) -> io::Result<()> {
    let t = match side {
        Side::Left => left,
        Side::Right => right,
    };
    match literal(left, right, side, rule, row) {
        Some(bytes) => {
            print!(rt; "\"")?;
            rt.write_all(bytes)?;
            print!(rt; "\"")
        }
        None => rt.print(kind(t, rule, row)),
    }
}

// The bytes of a literal, where one stands there.
fn literal<'t>(
    left: LentTable<'_, '_, 't>,
    right: LentTable<'_, '_, 't>,
    side: Side,
    rule: u32,
    row: u32,
) -> Option<&'t [u8]> {
    let (side, rule, row) = (side as u32, rule as usize, row as usize);
    comparer::place(&left, &right, side, rule, row).map(|_| {
        comparer::shown(&left, &right, side, rule, row)
    })
}

fn kind(t: LentTable, rule: u32, row: u32) -> &'static str {
    Rules::new(t)
        .nth(rule as usize)
        .and_then(|r| r.rows.get(row as usize))
        .map_or("nothing", |r| print::kind_name(r[0]))
}
