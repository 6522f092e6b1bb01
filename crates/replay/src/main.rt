// Answers the cases of standard input, one after the other, so that the entries can be compared with others from outside.
//
// A case is four words, then what they count: the number of rule words, of row words and of text bytes, and `short`; then the rule
// words, the row words and the text. `short` says what is lent besides them. 1 to 10: that one of the output and work areas, in the
// entry's order, is one element below full size. 100: every one is 16 elements above it. Anything else: all have full size.
//
// An answer is the number, the counts of rules, rows and text bytes, the report's fourteen numbers, the answer's rule words, row
// words and text, and a byte: 1 if everything of the output areas past the answer is unchanged, else 0. Words are little-endian.
//
// The fourth word of a tool's case is a thousand times the tool's number plus `short`, and what follows is its own. Comparing is tool 1: the
// table is the left one, the right one follows in the same form, its fourth word the side, then eight bytes each for the rule and the row whose
// literal is asked for. The answer is number, side and count, then found, offset and length of that literal, then the list's entries, four
// words each, and the byte, which speaks of the list. `short` counts the list and the two marks, 1 to 3.
//
// Explaining is tool 2: behind the table stand eight bytes, the row that is asked about. The answer is number, answer, rule, at, met and opened, then
// so many words of the list as are opened, and the byte, which speaks of the list. `short` counts the list and the marks, 1 and 2.
//
// A case that is cut off ends the run, and so does one with more than 1,040 rule words, 16,400 row words or 65,600 bytes of text.
#![tactic(auto)]

mod answers;
mod compare;
mod explain;
mod input;
mod optimize;

use answers::Answers;
use areas::Lend;
use input::{Case, CaseAreas, Input};
use std::io;

// A tool's number is the fourth word by this.
const TOOL: u32 = 1000;

// What a case asks for, by its fourth word, and what is lent.
#[derive(Clone, Copy, PartialEq, Eq)]
enum Call {
    Optimize(Lend),
    Compare(Lend),
    Explain(Lend),
}

impl From<u32> for Call {
    fn from(last: u32) -> Self {
        let lend = Lend::from(last % TOOL);
        match last / TOOL {
            1 => Call::Compare(lend),
            2 => Call::Explain(lend),
            _ => Call::Optimize(Lend::from(last)),
        }
    }
}

fn main(rt: HostRuntime) -> io::Result<()> {
    let mut input = Input::new(rt.stdin());
    let mut answers = Answers::new(rt.stdout());
    let written = run(&mut input, &mut answers);
    input.close()?;
    written
}

// All cases. A proved loop has to end, so it counts to a number that no run uses up.
fn run(input: &mut Input, answers: &mut Answers) -> io::Result<()> {
    let mut case = CaseAreas::new();
    let mut more = CaseAreas::new();
    for _ in 0..u64::MAX {
        let Some(put) = turn(input, &mut case, &mut more, answers) else {
            break;
        };
        put?;
    }
    answers.flush()
}

// One case, if there is one more. A second table, where it has one, is read into `more`.
fn turn(
    input: &mut Input,
    case: &mut CaseAreas,
    more: &mut CaseAreas,
    answers: &mut Answers,
) -> Option<io::Result<()>> {
    let Case { table, last } = case.next(input)?;
    match Call::from(last) {
        Call::Optimize(lend) => Some(optimize::answer(answers, lend, table)),
        Call::Compare(lend) => {
            // what is asked is read also where the right table counts too much
            let right = more.next(input);
            let asked = input.pair();
            let right = right?;
            let (rule, row) = asked?;
            let at = compare::Place {
                side: right.last,
                rule,
                row,
            };
            Some(compare::answer(answers, lend, table, right.table, at))
        }
        Call::Explain(lend) => {
            let row = input.long()?;
            Some(explain::answer(answers, lend, table, row))
        }
    }
}
