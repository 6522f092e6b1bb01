// Tables, reports and refusals for a person to read.
use crate::table::{Row, Rules, part};
use crate::{compare, explain};
use areas::{Areas, Lend};
use grammar::{
    IDENT, INSENS, LentTable, PEEK_SLICE, PEEK_SLICE_END, RANGE, REP_EXACT, REP_MAX, REP_MIN,
    REP_MIN_MAX, Refusal, SKIP, STR,
};
use optimizer::REPORT;
use std::{fmt, io};

const TYPES: [&str; 5] = ["Normal", "Silent", "Atomic", "CompoundAtomic", "NonAtomic"];

const KINDS: [&str; 20] = [
    "Str",
    "Insens",
    "Range",
    "Ident",
    "PeekSlice",
    "PeekSlice",
    "PosPred",
    "NegPred",
    "Seq",
    "Choice",
    "Opt",
    "Rep",
    "RepOnce",
    "RepExact",
    "RepMin",
    "RepMax",
    "RepMinMax",
    "Skip",
    "Push",
    "RestoreOnErr",
];

// So many rows are printed whole, and of more the first and the last ENDS.
const WHOLE: usize = 16;

const ENDS: usize = 4;

// A table before and after the call.
pub fn both(rt: &impl Print, before: LentTable) -> io::Result<()> {
    println!(rt; "  before")?;
    table(rt, before)?;
    explain::loops(rt, before)?;
    let mut out = Areas::new();
    match areas::answer(
        Lend::Whole,
        before,
        &mut out.rules,
        &mut out.rows,
        &mut out.text,
    ) {
        Ok(a) => {
            let after = out.table(a);
            println!(rt; "  after")?;
            table(rt, after)?;
            report(rt, a.report)?;
            compare::changes(rt, before, after)
        }
        Err(r) => println!(rt; "  refused: {} ({})", u32::from(r), reason(r)),
    }
}

// Why a table is refused.
fn reason(r: Refusal) -> &'static str {
    match r {
        Refusal::Area => "an output or work area is below full size",
        Refusal::Size => "a word count is no multiple of four, or the input is above full size",
        Refusal::Shape => "rules or rows that are no table of trees",
        Refusal::Text => "a name or literal outside the text or not ASCII",
        Refusal::Names => "two rules with equal names, or a reserved name",
        Refusal::Count => "a count of zero repeats",
        Refusal::Cycle => "a skip list meets a rule that is already being read",
        Refusal::Full => "packed text or rows above full size, in the input or after some step",
    }
}

fn table(rt: &impl Print, t: LentTable) -> io::Result<()> {
    for rule in Rules::new(t) {
        let ty = TYPES.get(rule.ty as usize).copied().unwrap_or("");
        println!(rt; "    {}, {ty}", rule.name)?;
        all(rt, rule.rows, t.text)?;
    }
    Ok(())
}

// The rows of a rule: all, or of many the first and the last.
fn all(rt: &impl Print, rows: &[Row], text: &[u8]) -> io::Result<()> {
    let n = rows.len();
    for (i, r) in rows.iter().enumerate() {
        if n <= WHOLE || i < ENDS || n - ENDS <= i {
            row(rt, i, *r, text)?;
        } else if i == ENDS {
            println!(rt; "         .. ({} rows more)", n - 2 * ENDS)?;
        }
    }
    Ok(())
}

fn row(rt: &impl Print, i: usize, r: Row, text: &[u8]) -> io::Result<()> {
    let [kind, x, y, size] = r;
    print!(rt; "{i:8}{size:8}  {}", kind_name(kind))?;
    match kind {
        STR | INSENS => println!(rt; " \"{}\"", part(text, x, y)),
        IDENT => println!(rt; " {}", part(text, x, y)),
        RANGE => println!(rt; " {}..{}", Byte(x), Byte(y)),
        PEEK_SLICE_END | REP_MIN_MAX => println!(rt; " {x}, {y}"),
        PEEK_SLICE | REP_EXACT | REP_MIN | REP_MAX | SKIP => println!(rt; " {x}"),
        _ => println!(rt; ""),
    }
}

// A step's rows before and after, for each step.
fn report(rt: &impl Print, numbers: [u32; REPORT]) -> io::Result<()> {
    print!(rt; "  report:")?;
    let (steps, _) = numbers.as_chunks::<2>();
    for step in steps {
        let [before, after] = *step;
        print!(rt; " {before}>{after}")?;
    }
    println!(rt; "")
}

pub fn kind_name(kind: u32) -> &'static str {
    KINDS.get(kind as usize).copied().unwrap_or("")
}

// A byte as a letter, or as its number where it has no sign.
#[derive(Clone, Copy)]
struct Byte(u32);

impl fmt::Display for Byte {
    fn fmt<W: fmt::Write>(&self, f: &mut fmt::Formatter<W>) -> fmt::Result {
        let n = self.0;
        match u8::try_from(n) {
            Ok(b) if b.is_ascii_graphic() => write!(f, "'{}'", b as char),
            _ => write!(f, "{n}"),
        }
    }
}
