// Answers as lines, to be compared byte for byte with what is due. They are written as `writing` does, from index `at` on, but with
// room for the longest numbers: `put_line` asks for the length of its very text.
ghost use Rattle.std.specs.Prelude.{◌+◌, ◌*◌, ◌≤◌, length};

// A number of an answer, which is small; -1, which is never due, for any other, so that a case with it differs and needs no error.
pub fn narrow<N: TryInto<i32>>(n: N) -> i32
where
    N::Error: Drop,
{
    n.try_into().unwrap_or(-1)
}

// A comma and a number, which take at most 12 bytes, from `at` on; gives the index after them.
fn put_number(out: &mut [u8], at: usize, z: i32) -> usize
    requires { at + 12 ≤ length out.old }
    ensures { result ≤ at + 12 }
{
    out[at] = b',';
    writing::put_integer(out, at + 1, z)
}

fn put_numbers(out: &mut [u8], at: usize, numbers: &[i32]) -> usize
    requires { at + 12 * length numbers.now ≤ length out.old }
    ensures { result ≤ at + 12 * length numbers.now }
{
    let mut end = at;
    for &z in numbers {
        end = put_number(out, end, z);
    }
    end
}

// A line.
fn put(out: &mut [u8], at: usize, word: &[u8], numbers: &[i32]) -> usize
    requires { at + (length word.now + 12 * length numbers.now + 1) ≤ length out.old }
    ensures { result ≤ at + (length word.now + 12 * length numbers.now + 1) }
{
    let word_end = writing::put(out, at, word);
    let end = put_numbers(out, word_end, numbers);
    writing::put(out, end, b"\n")
}

// Whether the line of an answer is what is due.
pub fn are_due(numbers: &[i32], due: &[u8]) -> bool
    requires { length numbers.now ≤ 8 }
{
    let mut lines = [0u8; 128];
    let end = put(&mut lines, 0, b"answer", numbers);
    text::same(&lines[..end], due)
}

// The same of an answer with the line of a lent result after it.
pub fn are_due_with(numbers: &[i32; 2], left: &[i32], due: &[u8]) -> bool {
    if 2056 < left.len() {
        return false;
    }
    let mut lines = [0u8; 25000];
    let at = put(&mut lines, 0, b"answer", numbers);
    let end = put(&mut lines, at, b"left", left);
    text::same(&lines[..end], due)
}
