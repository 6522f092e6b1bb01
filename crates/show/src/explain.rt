// Why each loop of a table stays a loop, or that it becomes a Skip (document 02, No. 2): a sentence for each.
use crate::compare;
use crate::print::kind_name;
use crate::table::{Rules, part, rows};
use areas::RULES_AREA;
use explainer::{Explained, FULL_LIST, Reason};
use grammar::{CHOICE, INSENS, LentTable, OPT, REP, ROW_WIDTH, Refusal};
use std::io;

// What is said of a loop, by the answer's number. A loop that is to be regrouped is not said to stay one: the call regroups it before it
// reads lists.
const SENTENCES: [&str; 7] = [
    "becomes a Skip",
    "is no loop",
    "has to be regrouped before its list is read",
    "stays a loop: its rule is not Atomic",
    "stays a loop: it is not a repeated sequence",
    "stays a loop: the left of its sequence is no negative predicate",
    "stays a loop: the right of its sequence is not ANY",
];

// The loops of a table.
pub fn loops(rt: &impl Print, t: LentTable) -> io::Result<()> {
    for (rule, r) in (0..).zip(Rules::new(t)) {
        for (row, at) in r.rows.iter().zip(r.first..) {
            let [kind, ..] = *row;
            if kind == REP {
                sentence(rt, t, rule, at)?;
            }
        }
    }
    Ok(())
}

// Row `row` of the table, a loop of the rule; nothing, where the answer is a refusal.
fn sentence(rt: &impl Print, t: LentTable, rule: u32, row: usize) -> io::Result<()> {
    let mut list = [0; FULL_LIST];
    let Ok(e) = explained(t, row, &mut list) else {
        return Ok(());
    };
    print!(rt; "  ")?;
    place(rt, t, rule, row)?;
    if let Some(s) = SENTENCES.get(e.answer as usize) {
        return println!(rt; " {s}");
    }
    print!(rt; " stays a loop: reading its list stops at ")?;
    place(rt, t, e.rule, e.at as usize)?;
    let stop = rows(t).get(e.at as usize).copied();
    let [kind, x, y, _] = stop.unwrap_or([0; ROW_WIDTH]);
    match e.answer {
        Reason::Other => other(rt, kind),
        Reason::MetAgain => {
            let (opened, _) = areas::cut(&list, e.opened as usize);
            met_again(rt, t, e.met, opened)
        }
        _ => {
            let name = part(t.text, x, y);
            println!(rt; ", which names {name}, and that is no rule")
        }
    }
}

// The call, with marks of its own.
fn explained(t: LentTable, row: usize, list: &mut [u32]) -> Result<Explained, Refusal> {
    let mut marks = [0; RULES_AREA];
    explainer::explain(&t, row, list, &mut marks)
}

// A row of the table as a row of its rule.
fn place(rt: &impl Print, t: LentTable, rule: u32, row: usize) -> io::Result<()> {
    match Rules::new(t).nth(rule as usize) {
        Some(r) => print!(rt; "row {} of {}", row.saturating_sub(r.first), r.name),
        None => Ok(()),
    }
}

// A kind at which a reading stops: a Choice only where it stands on the left of another.
fn other(rt: &impl Print, kind: u32) -> io::Result<()> {
    let article = match kind {
        INSENS | OPT => "an",
        _ => "a",
    };
    let side = match kind {
        CHOICE => " on the left of a Choice",
        _ => "",
    };
    println!(rt; ", which is {article} {}{side}", kind_name(kind))
}

// A rule that is already being read, and those that are.
fn met_again(rt: &impl Print, t: LentTable, met: u32, opened: &[u32]) -> io::Result<()> {
    let name = compare::name(t, met);
    print!(rt; ", which names {name}, and that is already being read (on the way: ")?;
    for (i, rule) in opened.iter().enumerate() {
        let comma = if i == 0 { "" } else { ", " };
        print!(rt; "{comma}{}", compare::name(t, *rule))?;
    }
    println!(rt; ")")
}
