// The text of a table, line by line.
ghost use Rattle.std.specs.Prelude.{◌≡◌, ◌^◌, ◌≤◌, true, false, take, MatchOption, MatchResult};
ghost use Rattle.integer.specs.Padded.{padded};
ghost use Rattle.refusals.specs.Refusals.{flaw_number, Says, told};
ghost use Rattle.tables.specs.TableLines.{is_table, table_head_refusal, table_head_of, is_mark, doubled_mark, mark_refusal, marks_of};
ghost use Rattle.tables.specs.TableParsing.{accepted_table, rejected_table, table_body, table_of};
ghost use Rattle.tables.specs.TableHeads.{TableHeadRight};

use crate::{Table, TableHead};
use refusals::{Flaw, Refusal};
use sections::FaultLines;
use statements::Fault;

// A text is a table where the first field of its first line is `table`.
pub fn is_table(text: &[u8]) -> bool
    ensures { result ≡ is_table text.now }
{
    let end = text::find(text, 0, b'\n');
    text::same(text::field(&text[..end], 0), b"table")
}

#[tactic(auto, unfolding(crate::specs::TableLines::table_head_refusal, crate::specs::TableLines::is_table_head, crate::specs::TableLines::table_head_fits, crate::specs::TableLines::table_head_of, fields::specs::Fields::fits, fields::specs::Fields::unless))]
fn head_line(line: &[u8]) -> Result<TableHead, Flaw>
    ensures { Says result (table_head_refusal line.now) (table_head_of line.now) }
{
    Flaw::Malformed.unless(fields::is_line(line, b"table", 1, 4))?;
    let n = fields::value_at(line, 1);
    let q = fields::value_at(line, 2);
    let k = fields::value_at(line, 3);
    let fit = fields::in_range(n, 1, 8) && fields::in_range(q, 1, 32) && fields::in_range(k, 1, 4);
    Flaw::OutOfRange.unless(fit)?;
    Ok(TableHead {
        inputs: n as usize,
        faults: q as usize,
        cap: k as usize,
    })
}

// Twice what a row counts by its mark: a free row one half.
#[tactic(auto, unfolding(crate::specs::TableLines::is_mark, crate::specs::TableLines::doubled_mark))]
fn doubled(mark: u8) -> Option<u8>
    ensures { MatchOption result (is_mark mark ≡ false) (λ v. (is_mark mark ≡ true) × (v ≡ doubled_mark mark)) }
{
    match mark {
        b'0' => Some(0),
        b'1' => Some(2),
        b'-' => Some(1),
        _ => None,
    }
}

// The doubled marks of a line of 2^N, without its end, at the front of the result, with 0 past them: there is no heap for a list of so many.
fn mark_line(line: &[u8], inputs: usize) -> Result<[u8; 256], Flaw>
    requires { inputs ≤ 8 }
    ensures { MatchResult result (λ marks. (mark_refusal inputs line.now ≡ 0) × (take (2 ^ inputs) marks ≡ marks_of line.now) × (marks ≡ padded 256 0 (take (2 ^ inputs) marks)))
        (λ flaw. flaw_number flaw ≡ mark_refusal inputs line.now) }
{
    let due: usize = 1 << inputs;
    if line.len() != due {
        return Err(Flaw::Malformed);
    }
    let mut marks = [0; 256];
    for (x, mark) in line.iter().enumerate() {
        marks[x] = doubled(*mark).ok_or(Flaw::NotAMark)?;
    }
    Ok(marks)
}

// The lines after the first.
fn body(text: &[u8], head: TableHead) -> Result<Table, Refusal>
    requires { TableHeadRight head }
    ensures { told accepted_table rejected_table result ≡ table_body head text.now }
{
    let (line, after_marks) = sections::first_line(text, 2)?;
    let marks = mark_line(line, head.inputs).map_err(|flaw| Refusal::Line { flaw, line: 2 })?;
    let lines = FaultLines {
        inputs: head.inputs,
        top: head.inputs,
    };
    let mut faults = [Fault::SOUND; 32];
    let rest = sections::read_lines(&lines, after_marks, 3, &mut faults[..head.faults])?;
    if !rest.is_empty() {
        return Err(Refusal::TextGoesOn {
            line: head.faults + 3,
        });
    }
    Ok(Table {
        head,
        marks,
        faults,
    })
}

// The table that a text states, or why it is refused. (The reason for a second parser beside `netlist::parse` is there.)
pub fn parse(text: &[u8]) -> Result<Table, Refusal>
    ensures { told accepted_table rejected_table result ≡ table_of text.now }
{
    if text::TEXT_BYTES < text.len() {
        return Err(Refusal::TextTooLong);
    }
    let (line, rest) = sections::first_line(text, 1)?;
    let head = head_line(line).map_err(|flaw| Refusal::Line { flaw, line: 1 })?;
    body(rest, head)
}
