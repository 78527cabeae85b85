// Fields, words and numbers of a text, as they are read. What a line means is the business of other crates.
#![tactic(auto)]

ghost use Rattle.std.specs.Prelude.{◌≡◌, ◌+◌, length, drop};
ghost use Rattle.text.specs.Text.{index_of, field_of, field_start, further, field_count, same_bytes, number_of, signed_number_of};

// A text has at most so many bytes.
pub const TEXT_BYTES: usize = 16384;

// Where a field stands: `text[start..end]`. Not the library's `Range`, which is no Copy.
#[derive(Clone, Copy)]
pub struct Span {
    pub start: usize,
    pub end: usize,
}

// The index of the first b from `from` on, or the text's end where there is none (`from` itself past the end): each ends the part that starts at `from`, so no
// Option. `from` stays beside the text, since `locate` hands back where a field stands in the whole of it.
pub fn find(text: &[u8], from: usize, b: u8) -> usize
    ensures { result ≡ from + index_of b (drop from text.now) }
{
    if text.len() <= from {
        return from;
    }
    // by `position` on the rest of the text the lines of a circuit take a quarter longer to read
    for i in from..text.len() {
        if text[i] == b {
            return i;
        }
    }
    text.len()
}

// How many fields the text has: one more than commas.
#[tactic(auto, using(crate::proofs::Parts::fields_counted))]
pub fn fields(text: &[u8]) -> usize
    ensures { result ≡ field_count text.now }
{
    1 + text.iter().filter(|x| **x == b',').count()
}

// Where field k stands, from 0; at the text's end where there is none, which is what document 01 hands back.
pub fn locate(text: &[u8], k: usize) -> Span
    ensures { (result.start ≡ field_start text.now k) × (result.end ≡ field_start text.now k + length (field_of text.now k)) }
{
    let mut start = 0;
    for _ in 0..k {
        let comma = find(text, start, b',');
        if text.len() <= comma {
            let end = text.len();
            return Span { start: end, end };
        }
        start = comma + 1;
    }
    Span {
        start,
        end: find(text, start, b','),
    }
}

// Field k, from 0: the part of the text between two commas or ends, and the empty part at the text's end where there is none. The second promise
// says where it begins, so that no other part with the same bytes will do.
pub fn field<'a>(text: &'a [u8], k: usize) -> &'a [u8]
    ensures result_value { result.now ≡ field_of text.now k }
    ensures ref_ptr_value { result.ref_ptr ≡ further (field_start text.now k) text.entry.ref_ptr }
{
    let s = locate(text, k);
    &text[s.start..s.end]
}

// Whether two texts are the same, byte for byte: `==`, with the promise that the words of a line are compared by.
#[tactic(auto, using(crate::proofs::Words::same_pointwise))]
pub fn same(a: &[u8], b: &[u8]) -> bool
    ensures { result ≡ same_bytes a.now b.now }
{
    a == b
}

// The number that a field says: one to four digits, the first no 0 unless it stands alone. By hand: `parse` takes `+5` and `05` too.
#[tactic(auto, using(crate::proofs::Decimals::digit_steps))]
pub fn decimal(s: &[u8]) -> Option<u16>
    ensures { result ≡ number_of s.now }
{
    let n = s.len();
    if n == 0 || 4 < n || (1 < n && s[0] == b'0') {
        return None;
    }
    let mut v = 0;
    for &x in s {
        if !x.is_ascii_digit() {
            return None;
        }
        v = v * 10 + u16::from(x - b'0');
    }
    Some(v)
}

// The number that a field says where it may have a sign: as `decimal` reads it, or `-` and such a number other than 0.
#[tactic(auto, using(crate::proofs::Decimals::signed_steps), unfolding(crate::specs::Text::signed_number_of))]
pub fn signed_decimal(s: &[u8]) -> Option<i16>
    ensures { result ≡ signed_number_of s.now }
{
    match s {
        [b'-', digits @ ..] => match decimal(digits)? {
            0 => None,
            size => Some(-(size as i16)),
        },
        _ => Some(decimal(s)? as i16),
    }
}
