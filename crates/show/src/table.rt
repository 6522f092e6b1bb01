// A table's rules, one after the other, each with its rows.
ghost use Rattle.std.specs.Prelude.{◌≤◌, length};
ghost use Rattle.std.specs.Iterator.{at_most};

use grammar::{LentTable, ROW_WIDTH, RULE_WIDTH};

pub type Row = [u32; ROW_WIDTH];

#[derive(Clone, Copy)]
pub struct Rule<'a> {
    pub name: &'a str,
    pub ty: u32,
    // The place of its first row among the table's.
    pub first: usize,
    pub rows: &'a [Row],
}

// The rules from some place on.
#[derive(Drop)]
pub struct Rules<'a> {
    rules: &'a [[u32; RULE_WIDTH]],
    first: usize,
    rows: &'a [Row],
    text: &'a [u8],
    ghost inside: { first ≤ length rows.now },
}

impl<'a> Rules<'a> {
    pub fn new(t: LentTable<'a, 'a, 'a>) -> Self {
        Rules {
            rules: t.rules.as_chunks().0,
            first: 0,
            rows: rows(t),
            text: t.text,
        }
    }
}

pub fn rows<'w>(t: LentTable<'_, 'w, '_>) -> &'w [Row] {
    t.rows.as_chunks().0
}

impl<'a> Iterator for Rules<'a> {
    type Item = Rule<'a>;

    ghost remaining = { λ s. at_most (length s.rules.now) };

    fn next(&mut self) -> Option<Rule<'a>> {
        let (rule, rules) = self.rules.split_first()?;
        let [offset, length, ty, n] = *rule;
        let first = self.first;
        let (rows, _) = areas::cut(&self.rows[first..], n as usize);
        self.rules = rules;
        self.first += rows.len();
        Some(Rule {
            name: part(self.text, offset, length),
            ty,
            first,
            rows,
        })
    }
}

// A name or a literal; nothing, if it does not lie in the text.
pub fn part(text: &[u8], offset: u32, length: u32) -> &str {
    let from = offset as usize;
    text.get(from..from + length as usize)
        .and_then(|b| str::from_utf8(b).ok())
        .unwrap_or("")
}
