// What a line shows under a fault, and the column of an input: its value on every row. Which lines there are, and what gates compute, is the business of other
// crates.
#![tactic(auto)]

ghost use Rattle.std.specs.Prelude.{true, false, ◌≡◌, ◌≤◌};
ghost use Rattle.statements.specs.FaultKinds.{pair_or_free};
ghost use Rattle.columns.specs.Shown.{stuck_or, shown};
ghost use Rattle.columns.specs.Steps.{seen_as, Columned, input_rule};

use statements::{Fault, FaultKind, Pair};

// What a line shows where 1 was applied or computed, and where 0 was.
#[derive(Clone, Copy)]
pub struct Seen {
    pub one: bool,
    pub zero: bool,
}

impl Seen {
    // What is shown with one more stuck line.
    #[tactic(auto, unfolding(crate::specs::Shown::stuck_or))]
    fn stuck(self, s: Pair, line: usize) -> Seen
        ensures { (result.one ≡ stuck_or s line self.one) × (result.zero ≡ stuck_or s line self.zero) }
    {
        if s.line as usize == line {
            Seen {
                one: s.value,
                zero: s.value,
            }
        } else {
            self
        }
    }

    // A pair that is not there is one of line 0 in the definitions, so there that line shows 0: `through` promises its equation of every line.
    #[tactic(auto, using(crate::proofs::FreePairs::free_keeps, crate::proofs::FreePairs::free_none))]
    fn added(self, s: Option<Pair>, line: usize) -> Seen
        ensures { (result.one ≡ stuck_or (pair_or_free s) line self.one) × (result.zero ≡ stuck_or (pair_or_free s) line self.zero) }
    {
        match s {
            Some(p) => self.stuck(p, line),
            None => Seen {
                one: line != 0 && self.one,
                zero: line != 0 && self.zero,
            },
        }
    }

    // With no stuck lines a line shows what was applied or computed, but for line 0, as above.
    #[tactic(auto, using(crate::proofs::FreePairs::free_keeps, crate::proofs::FreePairs::free_none), unfolding(crate::specs::Shown::shown))]
    pub fn through(f: Fault, line: usize) -> Seen
        ensures { (result.one ≡ shown f line true) × (result.zero ≡ shown f line false) }
    {
        let plain = Seen {
            one: true,
            zero: false,
        };
        match f.kind {
            FaultKind::Stuck(a, b, c) => plain.added(c, line).added(b, line).stuck(a, line),
            FaultKind::Unstated(a, b, c, _) => plain.stuck(c, line).stuck(b, line).stuck(a, line),
            FaultKind::Sound | FaultKind::Bridged(_) => plain.added(None, line),
        }
    }

    pub fn shows(self, v: bool) -> bool
        ensures { result ≡ seen_as self v }
    {
        if v { self.one } else { self.zero }
    }
}

// What each line shows on each row: 58 columns of 256 values, one array as the definitions count it, with line i on row x at 256 * i + x.
pub type Values = [bool; 14848];

// A column to make: of which line, how that is seen, and on how many rows.
#[derive(Clone, Copy)]
pub struct Column {
    pub line: usize,
    pub seen: Seen,
    pub rows: usize,
    ghost inside: { line ≤ 57 },
    ghost few: { rows ≤ 256 },
}

// The column of an input that gets the AND of what is applied to p and to q, from 0: itself twice, or the two inputs of a bridge.
pub fn input_column(values: &mut Values, column: Column, p: usize, q: usize)
    requires { (p ≤ 8) × (q ≤ 8) }
    ensures { Columned values.old values.new column.line column.rows (input_rule column.seen p q) }
{
    let at = column.line * 256;
    for x in 0..column.rows {
        // in 16 bits, which hold every row, the compiler works more of them at a time
        let row = x as u16;
        values[at + x] = column.seen.shows(((row >> p) & (row >> q)) % 2 == 1);
    }
}
