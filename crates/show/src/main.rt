// Prints document 01's worked examples W1 to W12: each table before and after the call, why its loops stay loops, the report, and
// what changed in each rule.
#![tactic(auto)]

mod compare;
mod explain;
mod print;
mod table;
mod tables;

use grammar::LentTable;
use std::io;
use tables::EXAMPLES;

const INTRODUCTION: &str = "\
Worked examples W1 to W12. A rule: its name and type, then its rows in postfix order: index, size, kind.
Below them each loop (Rep): (!e ~ ANY)* in an Atomic rule becomes a Skip if e, its list, is a string or a right-nested Choice of strings, names looked up.
A report: rows before > after rotate, skip, unroll, concatenate, factor, list and restore. Changes: the first row of a rule that is another.";

fn main(rt: HostRuntime) -> io::Result<()> {
    println!(rt; "{INTRODUCTION}")?;
    for e in EXAMPLES.iter() {
        println!(rt; "\n{}", e.title)?;
        let table = LentTable {
            rules: e.rules.as_flattened(),
            rows: e.rows.as_flattened(),
            text: e.text.as_bytes(),
        };
        print::both(&rt, table)?;
    }
    Ok(())
}
