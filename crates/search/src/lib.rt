// The shortest set of labels whose masks together have every fault: sets of one label, then two, up to the cap. It works on places of the order, with
// one mask a place: bit f is set where the label covers fault f. What order that is and where masks come from is the business of other crates.
#![tactic(auto)]

ghost use Rattle.std.specs.Prelude.{ℕ, true, not, ◌≡◌, ◌≤◌, ◌<◌, ◌^◌, ◌-◌, eqb, length, get_or};
ghost use Rattle.integer.specs.Counting.{up_to};
ghost use Rattle.integer.specs.Mask.{without};
ghost use Rattle.search.specs.Sets.{plan_of, four_of};
ghost use Rattle.search.specs.Steps.{Unions, clears, sought, choice_of, set_at};

use std::marker::Model;

/// At most four labels, in the order. In contracts it is the list of them.
#[derive(Clone, Copy)]
pub struct LabelSet {
    // in use as far as the size says, with 0 past it: there is no heap, and C gets all four
    size: usize,
    labels: [u32; 4],
}

impl Model for LabelSet {
    ghost use Rattle.std.specs.Prelude.{List, ℕ};

    ghost Value = { List ℕ };

    ghost use Rattle.search.specs.LabelArrays.{labels_of, Padded, padded_of, padded-back};

    ghost view = { labels_of };

    ghost invariant = { Padded };

    ghost inverse = { padded_of };

    ghost inverse_ok = { padded-back };
}

impl LabelSet {
    pub fn labels(&self) -> &[u32]
        ensures value { result.now ≡ self.now }
        ensures few { length self.now ≤ 4 }
    {
        &self.labels[..self.size]
    }

    /// The labels, with 0 past the last.
    pub fn padded(&self) -> [u32; 4]
        ensures { result ≡ four_of self.now }
    {
        self.labels
    }
}

// The union of the masks from each place on.
fn unions(masks: &[u32], rest: &mut [u32])
    requires { length masks.now < length rest.old }
    ensures { Unions masks.now rest.new }
{
    let places = masks.len();
    rest[places] = 0;
    for i in (0..places).rev() {
        rest[i] = masks[i] | rest[i + 1];
    }
}

// Whether the mask lacks some of what is missing.
fn lacks(mask: u32, missing: u32) -> bool
    ensures { result ≡ not (eqb (without missing mask) 0) }
{
    missing & (missing ^ mask) != 0
}

// Whether each of four masks lacks some, in straight code.
fn four_lack(four: &[u32], missing: u32) -> bool
    requires { length four.now ≡ 4 }
    ensures { result ≡ true → (k : ℕ) → k < 4 → without missing (get_or four.now k 0) ≡ 0 → ⊥ }
{
    lacks(four[0], missing)
        & lacks(four[1], missing)
        & lacks(four[2], missing)
        & lacks(four[3], missing)
}

// How many masks at the front, at least, lack some of what is missing. Four masks at a time: this is where a search spends its time, and `position` over
// the masks took nearly twice as long. (`enumerate` would count the fours, to be multiplied again.)
fn lacking(masks: &[u32], missing: u32) -> usize
    ensures within { result ≤ length masks.now }
    ensures lack { (k : ℕ) → k < result → without missing (get_or masks.now k 0) ≡ 0 → ⊥ }
{
    let mut count = 0;
    for four in masks.chunks_exact(4) {
        if !four_lack(four, missing) {
            return count;
        }
        count += 4;
    }
    count
}

// What is searched: each place's mask and label, and the union of the masks from it on. Three slices, since the caller lends the masks among its working
// numbers and takes the labels from their order.
#[derive(Clone, Copy)]
struct Search<'a> {
    masks: &'a [u32],
    labels: &'a [u32],
    rest: &'a [u32],
    ghost labelled: { length labels.now ≡ length masks.now },
    ghost unions: { Unions masks.now rest.now },
}

impl Search<'_> {
    // The label of the first place from `start` on whose mask has all that is missing, and three 0.
    fn last(&self, start: usize, missing: u32) -> Option<[u32; 4]>
        requires { start ≤ length self.now.masks.now }
        ensures { result ≡ choice_of self.now.labels.now (sought self.now.masks.now start 1 missing) }
    {
        let place = start + lacking(&self.masks[start..], missing);
        for i in place..self.masks.len() {
            if !lacks(self.masks[i], missing) {
                return Some([self.labels[i], 0, 0, 0]);
            }
        }
        None
    }

    // The labels of the first `left` places from `start` on whose masks together have all that is missing, with 0 past them.
    fn choose(&self, start: usize, left: usize, missing: u32) -> Option<[u32; 4]>
        requires { (1 ≤ left) × (start ≤ length self.now.masks.now) }
        ensures { result ≡ choice_of self.now.labels.now (sought self.now.masks.now start left missing) }
    {
        if left == 1 {
            return self.last(start, missing);
        }
        for place in start..self.masks.len() {
            if lacks(self.rest[place], missing) {
                return None;
            }
            let then = missing & (missing ^ self.masks[place]);
            if let Some(next) = self.choose(place + 1, left - 1, then) {
                return Some([self.labels[place], next[0], next[1], next[2]]);
            }
        }
        None
    }
}

// The mask of every fault.
fn full(faults: u32) -> u32
    requires { (1 ≤ faults) × (faults ≤ 32) }
    ensures { result ≡ 2 ^ faults - 1 }
{
    u32::MAX >> (32 - faults)
}

// The first set of at most `cap` labels whose masks together have every fault.
pub fn find(masks: &[u32], labels: &[u32], faults: u32, cap: usize) -> Option<LabelSet>
    requires { (length labels.now ≡ length masks.now) × (length masks.now ≤ 256) × (1 ≤ faults) × (faults ≤ 32) × (cap ≤ 4) }
    ensures { result ≡ set_at labels.now (plan_of (clears masks.now (2 ^ faults - 1)) (up_to (length masks.now)) cap) }
{
    let mut rest = [0u32; 257];
    unions(masks, &mut rest);
    let search = Search {
        masks,
        labels,
        rest: &rest,
    };
    let missing = full(faults);
    for size in 1..cap + 1 {
        if let Some(labels) = search.choose(0, size, missing) {
            return Some(LabelSet { size, labels });
        }
    }
    None
}
