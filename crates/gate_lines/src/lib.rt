// The line of a gate: what it says, or the flaw by which it is refused. What a gate computes is the business of other crates.
//
// Its tests are made in document 01's order, and the first that fails gives the flaw.
#![tactic(auto)]

ghost use Rattle.std.specs.Prelude.{◌&&◌, ◌≡◌, true, ltb, ◌≤◌, ◌<◌, MatchOption};
ghost use Rattle.text.specs.Text.{field_count};
ghost use Rattle.fields.specs.Fields.{in_range, is_line, value_at};
ghost use Rattle.refusals.specs.Refusals.{Says};
ghost use Rattle.gate_lines.specs.LinesThere.{line_or_none, IsLine};
ghost use Rattle.gate_lines.specs.GateLines.{gate_word, fields_fit, second_fits, gate_refusal, gate_of};

use kinds::Kind;
use refusals::Flaw;
use std::marker::Model;

// A gate and the lines that it reads: A, then B, C and D up to the first that is not there. `not` has no B. In contracts a line that is not there is 0.
#[derive(Clone, Copy)]
pub struct Gate {
    pub kind: Kind,
    pub a: u16,
    pub b: Option<u16>,
    pub c: Option<u16>,
    pub d: Option<u16>,
}

impl Model for Gate {
    ghost use Rattle.gate_lines.specs.GateItems.{Gate};

    ghost Value = { Gate };

    ghost use Rattle.gate_lines.specs.LinesThere.{line_or_none, IsLine, line_there, line_back};

    ghost view = { λ g. record { kind = g.kind; a = g.a; b = line_or_none g.b; c = line_or_none g.c; d = line_or_none g.d } };

    ghost invariant = { λ g. IsLine g.b × IsLine g.c × IsLine g.d };

    ghost inverse = { λ g. record { kind = g.kind; a = g.a; b = line_there g.b; c = line_there g.c; d = line_there g.d } };

    ghost inverse_ok = { λ g are i. record { kind = g.kind; a = g.a; b = line_back g.b are.0 i; c = line_back g.c are.1 i; d = line_back g.d are.2 i } };
}

impl Gate {
    // What stands past the last gate.
    pub const NONE: Gate = Gate {
        kind: Kind::And,
        a: 0,
        b: None,
        c: None,
        d: None,
    };

    // Whether each line that it reads is below that one.
    fn reads_below(self, own: usize) -> bool
        ensures { result ≡ (((ltb self.a own && ltb self.b own) && ltb self.c own) && ltb self.d own) }
    {
        let below = |line: u16| (line as usize) < own;
        below(self.a)
            && self.b.is_none_or(below)
            && self.c.is_none_or(below)
            && self.d.is_none_or(below)
    }
}

// Whether a gate of that kind may have so many fields, its word and its kind among them. The kinds are closed, and `not` alone has a form of its own.
#[tactic(auto, unfolding(crate::specs::GateLines::fields_fit, fields::specs::Fields::in_range))]
fn has_fields(kind: Kind, fields: usize) -> bool
    ensures { result ≡ fields_fit kind fields }
{
    match kind {
        Kind::Not => fields == 4,
        _ => matches!(fields, 4..=6),
    }
}

// Whether the line, which has so many fields, is one of a gate of that kind.
#[tactic(auto, unfolding(fields::specs::Fields::is_line))]
fn is_gate(line: &[u8], kind: Kind, fields: usize) -> bool
    requires { fields ≡ field_count line.now }
    ensures { result ≡ (fields_fit kind fields && is_line line.now gate_word 2 fields) }
{
    has_fields(kind, fields)
        && text::same(text::field(line, 0), b"gate")
        && fields::numbers(line, 2, fields)
}

// The number in field k of a line of so many fields, if it has that field.
#[tactic(auto, using(fields::proofs::PlainLines::absent))]
fn added_line(line: &[u8], k: usize, fields: usize) -> Option<u16>
    requires { fields ≡ field_count line.now }
    ensures { MatchOption result ((fields ≤ k) × (value_at line.now k ≡ 0)) (λ n. (k < fields) × (n ≡ value_at line.now k)) }
{
    if k < fields {
        Some(fields::value_at(line, k))
    } else {
        None
    }
}

// Whether B may be that number: of `not` alone it is 0. As above, the kinds are closed.
#[tactic(auto, unfolding(crate::specs::GateLines::second_fits))]
fn second_in_range(kind: Kind, b: u16) -> bool
    ensures { result ≡ second_fits kind b }
{
    match kind {
        Kind::Not => b == 0,
        _ => fields::in_range(b, 1, 56),
    }
}

// A number as a line, which is never 0.
fn line_there(number: u16) -> Option<u16>
    ensures is { IsLine result }
    ensures value { line_or_none result ≡ number }
{
    if number == 0 { None } else { Some(number) }
}

#[tactic(auto, unfolding(fields::specs::Fields::in_range))]
fn added_in_range(line: Option<u16>) -> bool
    ensures value { MatchOption line (result ≡ true) (λ n. result ≡ in_range n 1 56) }
    ensures is { result ≡ true → IsLine line }
{
    line.is_none_or(|n| fields::in_range(n, 1, 56))
}

// The line of the gate that drives line `own`.
#[tactic(auto, unfolding(crate::specs::GateLines::gate_refusal, crate::specs::GateLines::is_gate, crate::specs::GateLines::gate_fits, crate::specs::GateLines::added_fits, crate::specs::GateLines::reads_below, crate::specs::GateLines::gate_of, fields::specs::Fields::fits, fields::specs::Fields::unless))]
pub fn gate_line(own: usize, line: &[u8]) -> Result<Gate, Flaw>
    ensures { Says result (gate_refusal own line.now) (gate_of line.now) }
{
    let fields = text::fields(line);
    let word = text::field(line, 1);
    let kind = kinds::kind_of(word).ok_or(Flaw::Malformed)?;
    Flaw::Malformed.unless(is_gate(line, kind, fields))?;
    let a = fields::value_at(line, 2);
    let b = fields::value_at(line, 3);
    let c = added_line(line, 4, fields);
    let d = added_line(line, 5, fields);
    let fit = fields::in_range(a, 1, 56)
        && second_in_range(kind, b)
        && added_in_range(c)
        && added_in_range(d);
    Flaw::OutOfRange.unless(fit)?;
    let gate = Gate {
        kind,
        a,
        b: line_there(b),
        c,
        d,
    };
    Flaw::ReadsAhead.unless(gate.reads_below(own))?;
    Ok(gate)
}
