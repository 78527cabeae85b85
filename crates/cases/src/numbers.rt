// Numbers of a fixed width, as the cases give sizes, arguments and lists.
ghost use Rattle.std.specs.Prelude.{◌<◌, IfSome};

// The number of at most ten digits; none where a byte is no digit or there are more. (`text::decimal` is another rule: four digits, and no 0 before them.)
pub fn decimal(digits: &[u8]) -> Option<u64>
    ensures { IfSome result (λ n. n < 10000000000) }
{
    let mut value: u64 = 0;
    for &b in digits {
        if !b.is_ascii_digit() || 999999999 < value {
            return None;
        }
        value = value * 10 + u64::from(b - b'0');
    }
    Some(value)
}

// The number of a field: a sign, ten digits, and a comma or a line end. 0 has no sign but `+`.
fn integer(field: &[u8]) -> Option<i64> {
    match field {
        [b'+', digits @ .., b',' | b'\n'] => decimal(digits).map(|n| n as i64),
        [b'-', digits @ .., b',' | b'\n'] => match decimal(digits) {
            Some(0) | None => None,
            Some(n) => Some(-(n as i64)),
        },
        _ => None,
    }
}

// Whether the list could be filled with the numbers, which take 12 bytes each and fit it.
pub fn fill<N: Copy + TryFrom<i64>>(bytes: &[u8], list: &mut [N]) -> bool
where
    N::Error: Drop,
{
    if bytes.len() / 12 < list.len() {
        return false;
    }
    for (place, field) in list.iter_mut().zip(bytes.chunks(12)) {
        match integer(field) {
            Some(n) => match N::try_from(n) {
                Ok(x) => *place = x,
                Err(_) => return false,
            },
            None => return false,
        }
    }
    true
}

// Argument i, from 0; 0 where it is not there: the head of a case is tested for how many its call takes.
pub fn argument(arguments: &[u32], i: usize) -> u32 {
    arguments.get(i).copied().unwrap_or(0)
}
