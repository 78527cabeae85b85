// What one line of the circuit text says, or the flaw by which it is refused: the head, an output, a fault. A table's fault lines are read here too, and a
// gate's line in a crate of its own.
//
// The tests of a line are made in document 01's order, and the first that fails gives the flaw.
#![tactic(auto)]

ghost use Rattle.std.specs.Prelude.{◌&&◌, ◌≡◌, suc, true, eqb, ◌≤◌, ◌<◌, MatchOption};
ghost use Rattle.text.specs.Text.{field_count};
ghost use Rattle.fields.specs.Fields.{in_range, value_at};
ghost use Rattle.refusals.specs.Refusals.{Says};
ghost use Rattle.statements.specs.Items.{Fault};
ghost use Rattle.statements.specs.FaultKinds.{is_free, free_or_named, pair_there, kind_of_fault};
ghost use Rattle.statements.specs.Lines.{head_refusal, head_of, is_output, output_refusal, output_of, is_fault, fault_refusal, fault_of, bridge_refusal, bridge_of, fault_line_refusal, fault_line_of};

use refusals::Flaw;
use std::marker::Model;

// The weight is signed: a fixture may subtract an output.
#[derive(Clone, Copy)]
pub struct Output {
    pub line: u16,
    pub weight: i16,
}

// LINE,VALUE: a stuck line and the value that it shows.
#[derive(Clone, Copy)]
pub struct Pair {
    pub line: u16,
    pub value: bool,
}

// Two inputs that are joined.
#[derive(Clone, Copy)]
pub struct Bridge {
    pub first: u16,
    pub second: u16,
}

// No fault, one to three stuck lines, which hold together, or one bridge. That a third pair stands only after a second is said of the faults of a text
// (`StuckFault`).
#[derive(Clone, Copy)]
pub enum FaultKind {
    Sound,
    Stuck(Pair, Option<Pair>, Option<Pair>),
    Bridged(Bridge),
    // What no text states, as pairs beside a bridge: three pairs and a bridge, as the definitions have them; one of line 0 is not there.
    Unstated(Pair, Pair, Pair, Bridge),
}

// Contracts see the definitions' fault, whose pairs and bridge that are not there name line 0. A struct around the enum, since no enum has a model.
#[derive(Clone, Copy)]
pub struct Fault {
    pub kind: FaultKind,
}

impl Model for Fault {
    ghost use Rattle.statements.specs.Items.{Fault};

    ghost Value = { Fault };

    ghost use mathlib.Core.Path.{ap};
    ghost use Rattle.statements.specs.FaultKinds.{fault_of_kind, FaultNamed, kind_of_fault, kind_back};

    ghost view = { λ f. fault_of_kind f.kind };

    ghost invariant = { λ f. FaultNamed f.kind };

    ghost inverse = { λ f. record { kind = kind_of_fault f } };

    ghost inverse_ok = { λ f named. ap (λ k. record { kind = k }) (kind_back f.kind named) };
}

// The numbers of the first line.
#[derive(Clone, Copy)]
pub struct Head {
    pub inputs: usize,
    pub gates: usize,
    pub outputs: usize,
    pub faults: usize,
    pub cap: usize,
}

impl Output {
    // What stands past the last output.
    pub const NONE: Output = Output { line: 0, weight: 0 };
}

impl Fault {
    // The fault of the sound circuit: it names no line and joins no inputs.
    pub const SOUND: Fault = Fault {
        kind: FaultKind::Sound,
    };

    /// The fault of these pairs and this bridge, where line 0 names none.
    #[tactic(auto, using(crate::proofs::EveryFault::kind_stands))]
    pub fn new(first: Pair, second: Pair, third: Pair, bridge: Bridge) -> Fault
        ensures { result ≡ record { first = first; second = second; third = third; bridge = bridge } }
    {
        Fault {
            kind: kind_of(first, second, third, bridge),
        }
    }
}

impl Pair {
    // Whether it is none.
    fn is_free(self) -> bool
        ensures { result ≡ is_free self }
    {
        self.line == 0 && !self.value
    }

    // Whether it is none, or names a line.
    fn is_free_or_named(self) -> bool
        ensures { result ≡ free_or_named self }
    {
        self.line != 0 || !self.value
    }

    fn there(self) -> Option<Pair>
        ensures { result ≡ pair_there self }
    {
        if self.line == 0 { None } else { Some(self) }
    }
}

// The case that stands for the fault of these pairs and this bridge.
fn kind_of(first: Pair, second: Pair, third: Pair, bridge: Bridge) -> FaultKind
    ensures { result ≡ kind_of_fault (record { first = first; second = second; third = third; bridge = bridge }) }
{
    let free = first.is_free() && second.is_free() && third.is_free();
    if bridge.first != 0 && bridge.second != 0 && free {
        return FaultKind::Bridged(bridge);
    }
    if bridge.first == 0 && bridge.second == 0 {
        if first.line != 0 && second.is_free_or_named() && third.is_free_or_named() {
            return FaultKind::Stuck(first, second.there(), third.there());
        }
        if free {
            return FaultKind::Sound;
        }
    }
    FaultKind::Unstated(first, second, third, bridge)
}

// LINE,VALUE as the fields have them.
#[derive(Clone, Copy)]
struct PairFields {
    line: u16,
    value: u16,
}

impl PairFields {
    fn read(line: &[u8], k: usize) -> PairFields
        requires { k ≤ 5 }
        ensures { (result.line ≡ value_at line.now k) × (result.value ≡ value_at line.now (suc k)) }
    {
        PairFields {
            line: fields::value_at(line, k),
            value: fields::value_at(line, k + 1),
        }
    }

    fn in_range(self) -> bool
        ensures { result ≡ (in_range self.line 1 56 && in_range self.value 0 1) }
    {
        fields::in_range(self.line, 1, 56) && fields::in_range(self.value, 0, 1)
    }

    fn stuck(self) -> Pair
        ensures { (result.line ≡ self.line) × (result.value ≡ eqb self.value 1) }
    {
        Pair {
            line: self.line,
            value: self.value == 1,
        }
    }
}

// A second or third pair, at field k of a line of so many fields, where there is one.
#[tactic(auto, using(fields::proofs::PlainLines::absent))]
fn added_pair(line: &[u8], k: usize, fields: usize) -> Option<PairFields>
    requires in_line { k ≤ 5 }
    requires counted { fields ≡ field_count line.now }
    ensures { MatchOption result ((fields ≤ k) × (value_at line.now k ≡ 0) × (value_at line.now (suc k) ≡ 0)) (λ p. (k < fields) × (p.line ≡ value_at line.now k) × (p.value ≡ value_at line.now (suc k))) }
{
    if k < fields {
        Some(PairFields::read(line, k))
    } else {
        None
    }
}

fn added_in_range(pair: Option<PairFields>) -> bool
    ensures { MatchOption pair (result ≡ true) (λ p. result ≡ (in_range p.line 1 56 && in_range p.value 0 1)) }
{
    pair.is_none_or(|p| p.in_range())
}

#[tactic(auto, unfolding(crate::specs::Lines::head_refusal, crate::specs::Lines::is_head, crate::specs::Lines::head_fits, crate::specs::Lines::head_of, fields::specs::Fields::fits, fields::specs::Fields::unless))]
pub fn head_line(line: &[u8]) -> Result<Head, Flaw>
    ensures { Says result (head_refusal line.now) (head_of line.now) }
{
    Flaw::Malformed.unless(fields::is_line(line, b"circuit", 1, 6))?;
    let n = fields::value_at(line, 1);
    let g = fields::value_at(line, 2);
    let m = fields::value_at(line, 3);
    let q = fields::value_at(line, 4);
    let k = fields::value_at(line, 5);
    let fit = fields::in_range(n, 1, 8)
        && fields::in_range(g, 0, 48)
        && fields::in_range(m, 1, 4)
        && fields::in_range(q, 1, 32)
        && fields::in_range(k, 1, 4);
    Flaw::OutOfRange.unless(fit)?;
    Ok(Head {
        inputs: n as usize,
        gates: g as usize,
        outputs: m as usize,
        faults: q as usize,
        cap: k as usize,
    })
}

// Whether the line is one of an output. Its WEIGHT is the one number of a text that may have a sign.
#[tactic(auto, unfolding(crate::specs::Lines::is_output))]
fn is_output(line: &[u8]) -> bool
    ensures { result ≡ is_output line.now }
{
    text::fields(line) == 3
        && text::same(text::field(line, 0), b"output")
        && fields::numbers(line, 1, 2)
        && text::signed_decimal(text::field(line, 2)).is_some()
}

// `top` is the circuit's last line.
#[tactic(auto, unfolding(crate::specs::Lines::output_refusal, crate::specs::Lines::output_fits, crate::specs::Lines::output_of, fields::specs::Fields::fits, fields::specs::Fields::unless))]
pub fn output_line(top: usize, line: &[u8]) -> Result<Output, Flaw>
    ensures { Says result (output_refusal top line.now) (output_of line.now) }
{
    Flaw::Malformed.unless(is_output(line))?;
    let n = fields::value_at(line, 1);
    let w = fields::signed_value_at(line, 2);
    // -15 to 15 without 0
    let fit = fields::in_range(n, 1, 56) && fields::in_range(w.unsigned_abs(), 1, 15);
    Flaw::OutOfRange.unless(fit)?;
    Flaw::NoSuchLine.unless(n as usize <= top)?;
    Ok(Output { line: n, weight: w })
}

// Whether the line, which has so many fields, is one of a fault: one to three pairs.
#[tactic(auto, unfolding(crate::specs::Lines::is_fault))]
fn is_fault(line: &[u8], fields: usize) -> bool
    requires { fields ≡ field_count line.now }
    ensures same { result ≡ is_fault line.now }
    ensures some { result ≡ true → 3 ≤ fields }
{
    matches!(fields, 3 | 5 | 7) && fields::is_line(line, b"fault", 1, fields)
}

// A fault of stuck lines.
#[tactic(auto, unfolding(crate::specs::Lines::fault_refusal, crate::specs::Lines::fault_fits, crate::specs::Lines::pair_fits, crate::specs::Lines::pair_in_range, crate::specs::Lines::lines_exist, crate::specs::Lines::lines_rise, crate::specs::Lines::rises_at, crate::specs::Lines::fault_of, crate::specs::Lines::pair_at, fields::specs::Fields::in_range, fields::specs::Fields::fits, fields::specs::Fields::unless))]
fn fault_line(top: usize, line: &[u8]) -> Result<Fault, Flaw>
    ensures { Says result (fault_refusal top line.now) (fault_of line.now) }
{
    let fields = text::fields(line);
    Flaw::Malformed.unless(is_fault(line, fields))?;
    let a = PairFields::read(line, 1);
    let b = added_pair(line, 3, fields);
    let c = added_pair(line, 5, fields);
    Flaw::OutOfRange.unless(a.in_range() && added_in_range(b) && added_in_range(c))?;
    let exist = a.line as usize <= top
        && b.is_none_or(|p| p.line as usize <= top)
        && c.is_none_or(|p| p.line as usize <= top);
    Flaw::NoSuchLine.unless(exist)?;
    let rise = match (b, c) {
        (Some(p), Some(q)) => a.line < p.line && p.line < q.line,
        (Some(p), None) => a.line < p.line,
        (None, _) => true,
    };
    Flaw::NotRising.unless(rise)?;
    Ok(Fault {
        kind: FaultKind::Stuck(a.stuck(), b.map(|p| p.stuck()), c.map(|p| p.stuck())),
    })
}

// A bridge of two inputs.
#[tactic(auto, unfolding(crate::specs::Lines::bridge_refusal, crate::specs::Lines::is_bridge, crate::specs::Lines::bridge_fits, crate::specs::Lines::inputs_rise, crate::specs::Lines::bridge_of, fields::specs::Fields::in_range, fields::specs::Fields::fits, fields::specs::Fields::unless))]
fn bridge_line(inputs: usize, line: &[u8]) -> Result<Fault, Flaw>
    ensures { Says result (bridge_refusal inputs line.now) (bridge_of line.now) }
{
    Flaw::Malformed.unless(fields::is_line(line, b"bridge", 1, 3))?;
    let i = fields::value_at(line, 1);
    let j = fields::value_at(line, 2);
    Flaw::OutOfRange.unless(fields::in_range(i, 1, 56) && fields::in_range(j, 1, 56))?;
    Flaw::NotInputs.unless(i as usize <= inputs && j as usize <= inputs && i < j)?;
    let bridge = Bridge {
        first: i,
        second: j,
    };
    Ok(Fault {
        kind: FaultKind::Bridged(bridge),
    })
}

// A fault line of either kind, of a text of so many inputs whose last line is `top`.
#[tactic(auto, unfolding(crate::specs::Lines::fault_line_refusal, crate::specs::Lines::fault_line_of, crate::specs::Lines::names_bridge))]
pub fn fault_or_bridge(inputs: usize, top: usize, line: &[u8]) -> Result<Fault, Flaw>
    ensures { Says result (fault_line_refusal inputs top line.now) (fault_line_of line.now) }
{
    if text::same(text::field(line, 0), b"bridge") {
        bridge_line(inputs, line)
    } else {
        fault_line(top, line)
    }
}
