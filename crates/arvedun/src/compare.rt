// Two tables side by side, for hosts.
ghost use Rattle.std.specs.Prelude.{◌≡◌};
ghost use Rattle.refusals.specs.Check.{lent};
ghost use Rattle.comparison.specs.Compare.{compare_words};
ghost use Rattle.comparison.specs.Shown.{shown};
ghost use Rattle.arvedun.specs.Compare.{seen_list, seen_literal};

use grammar::LentTable;

// What comparing answers: the refusal's number or 0, whose table it is (0 left, 1 right), and the number of entries.
#[repr(C)]
#[derive(Clone, Copy)]
pub struct ArvedunCompared {
    pub number: u32,
    pub side: u32,
    pub count: u32,
}

// A literal: 1 and a part of its side's text, or zeros.
#[repr(C)]
#[derive(Clone, Copy)]
pub struct ArvedunLiteral {
    pub found: u32,
    pub offset: u32,
    pub length: u32,
}

#[unsafe(no_mangle)]
pub extern "C" fn arvedun_compare(
    left_rules: &[u32],
    left_rows: &[u32],
    left_text: &[u8],
    right_rules: &[u32],
    right_rows: &[u32],
    right_text: &[u8],
    list: &mut [u32],
    left_marks: &mut [u32],
    right_marks: &mut [u32],
) -> ArvedunCompared
    ensures { seen_list result list.new ≡ compare_words (lent left_rules.now left_rows.now left_text.now) (lent right_rules.now right_rows.now right_text.now) list.old left_marks.old right_marks.old }
{
    let left = LentTable {
        rules: left_rules,
        rows: left_rows,
        text: left_text,
    };
    let right = LentTable {
        rules: right_rules,
        rows: right_rows,
        text: right_text,
    };
    match comparer::compare(&left, &right, list, left_marks, right_marks) {
        Ok(count) => ArvedunCompared {
            number: 0,
            side: 0,
            count,
        },
        Err(r) => ArvedunCompared {
            number: u32::from(r.why),
            side: r.side as u32,
            count: 0,
        },
    }
}

#[unsafe(no_mangle)]
pub extern "C" fn arvedun_shown(
    left_rules: &[u32],
    left_rows: &[u32],
    left_text: &[u8],
    right_rules: &[u32],
    right_rows: &[u32],
    right_text: &[u8],
    side: u32,
    rule: usize,
    row: usize,
) -> ArvedunLiteral
    ensures { seen_literal result ≡ shown (lent left_rules.now left_rows.now left_text.now) (lent right_rules.now right_rows.now right_text.now) side rule row }
{
    let left = LentTable {
        rules: left_rules,
        rows: left_rows,
        text: left_text,
    };
    let right = LentTable {
        rules: right_rules,
        rows: right_rows,
        text: right_text,
    };
    match comparer::place(&left, &right, side, rule, row) {
        Some(l) => ArvedunLiteral {
            found: 1,
            offset: l.offset,
            length: l.length,
        },
        None => ArvedunLiteral {
            found: 0,
            offset: 0,
            length: 0,
        },
    }
}
