// A writer of bytes and decimals into a lent text. Each call writes from index `at` on and gives the index after what it wrote.
// (A struct of `out` and `at` with methods proves too, and is no plainer: each promise would still ask for the room of its own text and say what
// stands before it, in longer words. Decimals are written by hand: only to a `String`, for which there is no heap, does `write!` promise its bytes.)
#![tactic(auto)]

ghost use Rattle.std.specs.Prelude.{◌≡◌, ◌+◌, ◌≤◌, nat_abs, length};
ghost use Rattle.writing.specs.Writing.{placed, decimal_of, integer_of, numbers_of, line_of};

// The bytes as they are.
#[tactic(auto, unfolding(crate::specs::Writing::placed))]
pub fn put(out: &mut [u8], at: usize, bytes: &[u8]) -> usize
    requires { at + length bytes.now ≤ length out.old }
    ensures value { result ≡ at + length bytes.now }
    ensures out_after { out.new ≡ placed at bytes.now out.old }
{
    out[at..at + bytes.len()].copy_from_slice(bytes);
    at + bytes.len()
}

// A number in decimal.
#[tactic(auto, using(crate::proofs::Writings::decimals))]
pub fn put_decimal(out: &mut [u8], at: usize, n: usize) -> usize
    requires { at + length (decimal_of n) ≤ length out.old }
    ensures value { result ≡ at + length (decimal_of n) }
    ensures out_after { out.new ≡ placed at (decimal_of n) out.old }
{
    let last = b'0' + (n % 10) as u8;
    if n < 10 {
        out[at] = last;
        return at + 1;
    }
    let end = put_decimal(out, at, n / 10);
    out[end] = last;
    end + 1
}

// An integer in decimal, with `-` where it is below 0.
#[tactic(auto, using(crate::proofs::Writings::integers))]
pub fn put_integer(out: &mut [u8], at: usize, z: i32) -> usize
    requires { at + length (integer_of z) ≤ length out.old }
    ensures value { result ≡ at + length (integer_of z) }
    ensures out_after { out.new ≡ placed at (integer_of z) out.old }
{
    let size = z.unsigned_abs() as usize;
    if z < 0 {
        out[at] = b'-';
        return put_decimal(out, at + 1, size);
    }
    put_decimal(out, at, size)
}

// Each number with a comma before it.
fn put_numbers(out: &mut [u8], at: usize, numbers: &[i32]) -> usize
    requires { at + length (numbers_of numbers.now) ≤ length out.old }
    ensures value { result ≡ at + length (numbers_of numbers.now) }
    ensures out_after { out.new ≡ placed at (numbers_of numbers.now) out.old }
{
    let mut end = at;
    for &z in numbers {
        out[end] = b',';
        end = put_integer(out, end + 1, z);
    }
    end
}

// A line: the word, then the numbers.
#[tactic(auto, using(crate::proofs::Writings::lines))]
pub fn put_line(out: &mut [u8], at: usize, word: &[u8], numbers: &[i32]) -> usize
    requires { at + length (line_of word.now numbers.now) ≤ length out.old }
    ensures value { result ≡ at + length (line_of word.now numbers.now) }
    ensures out_after { out.new ≡ placed at (line_of word.now numbers.now) out.old }
{
    let word_end = put(out, at, word);
    let end = put_numbers(out, word_end, numbers);
    out[end] = b'\n';
    end + 1
}
