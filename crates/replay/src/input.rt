// Reading cases.
ghost use Rattle.std.specs.Prelude.{◌≤◌, length, IfSome};

use areas::{ROWS_AREA, RULES_AREA};
use grammar::LentTable;
use std::io;
use std::io::{ErrorKind, Read, Stdin};

// A case may carry 1,040 rule words, 16,400 row words and so many bytes of text.
const TEXT: usize = 65600;

// What a case that is carried has behind its first four words always fits.
const CASE_BYTES: usize = 4 * RULES_AREA + 4 * ROWS_AREA + TEXT;

// Standard input. A read that fails ends the cases as the input's end does, and nothing is read after it; `close` gives its error.
#[derive(Drop)]
pub struct Input {
    stdin: Stdin,
    read: io::Result<()>,
}

impl Input {
    pub fn new(stdin: Stdin) -> Self {
        Input {
            stdin,
            read: Ok(()),
        }
    }

    // Fills b; not where the input ends before, and not where a read fails.
    fn fill(&mut self, b: &mut [u8]) -> Option<()> {
        if self.read.is_err() {
            return None;
        }
        match self.stdin.read_exact(b) {
            Ok(()) => Some(()),
            Err(e) => {
                if e.kind() != ErrorKind::UnexpectedEof {
                    self.read = Err(e);
                }
                None
            }
        }
    }

    fn words(&mut self) -> Option<[u32; 4]> {
        let mut b = [[0; 4]; 4];
        self.fill(b.as_flattened_mut())?;
        Some(b.map(u32::from_le_bytes))
    }

    // The next eight bytes as a number.
    pub fn long(&mut self) -> Option<usize> {
        let mut b = [0; 8];
        self.fill(&mut b)?;
        Some(usize::from_le_bytes(b))
    }

    // The next two of these, by one read.
    pub fn pair(&mut self) -> Option<(usize, usize)> {
        let mut b = [[0; 8]; 2];
        self.fill(b.as_flattened_mut())?;
        let [first, second] = b.map(usize::from_le_bytes);
        Some((first, second))
    }

    pub fn close(self) -> io::Result<()> {
        self.read
    }
}

// A case: its table, and its fourth word.
#[derive(Clone, Copy)]
pub struct Case<'a> {
    pub table: LentTable<'a, 'a, 'a>,
    pub last: u32,
}

// The areas of one case: the bytes behind its first four words, and the words that they stand for.
#[derive(Drop)]
pub struct CaseAreas {
    bytes: [u8; CASE_BYTES],
    rules: [u32; RULES_AREA],
    rows: [u32; ROWS_AREA],
}

impl CaseAreas {
    pub fn new() -> Self {
        CaseAreas {
            bytes: [0; CASE_BYTES],
            rules: [0; RULES_AREA],
            rows: [0; ROWS_AREA],
        }
    }

    // The next case; none, if it is cut off or counts more than is carried.
    pub fn next(&mut self, input: &mut Input) -> Option<Case<'_>>
        ensures rules { IfSome result (λ c. length c.table.rules.now ≤ 1040) }
        ensures rows { IfSome result (λ c. length c.table.rows.now ≤ 16400) }
        ensures text { IfSome result (λ c. length c.table.text.now ≤ 65600) }
    {
        let [rules, rows, text, last] = input.words()?;
        let (rules, rows, text) = (rules as usize, rows as usize, text as usize);
        if rules > RULES_AREA || rows > ROWS_AREA || text > TEXT {
            return None;
        }
        let CaseAreas {
            bytes,
            rules: rule_area,
            rows: row_area,
        } = self;
        input.fill(&mut bytes[..4 * rules + 4 * rows + text])?;
        let (rule_bytes, rest) = bytes.split_at(4 * rules);
        let (row_bytes, rest) = rest.split_at(4 * rows);
        decode(rule_bytes, rule_area);
        decode(row_bytes, row_area);
        let table = LentTable {
            rules: &rule_area[..rules],
            rows: &row_area[..rows],
            text: &rest[..text],
        };
        Some(Case { table, last })
    }
}

// The words that the bytes stand for, to the front of an area.
fn decode(bytes: &[u8], area: &mut [u32]) {
    for (word, b) in area.iter_mut().zip(bytes.as_chunks().0) {
        *word = u32::from_le_bytes(*b);
    }
}
