// Holds every call to stored cases that the second implementation (reference/) made. They come on standard input, one after the
// other. A case has a head of 54 bytes, `CALL,TTTTT,LLLLL,AAAAA,BBBBB,RRRRR,WWWWW,DDDDD` and 0A: the call's word, filled up with spaces to 11 bytes;
// how many bytes its text has, how many numbers its list, its first and its second arguments; how many numbers (a report: bytes) and how many
// working numbers are lent; how many bytes are due. Then come the text, the list, the arguments (each number a sign, ten digits, and a comma or 0A)
// and what is due:
//
//     call         list          first                second  due
//     coefficient  rows          label                        `answer,NUMBER,PLACE,COEFFICIENT`
//     spectrum     rows                                       `answer,NUMBER,PLACE` and, as in the next five, `left` with the whole lent
//     rows         coefficients                               result afterwards; before, it held -99999999 throughout
//     stuck        coefficients  inputs               values
//     opened       coefficients  values
//     bridged      coefficients  two inputs
//     circuit                    fault
//     plan                                                    `answer,NUMBER,PLACE,SIZE` and four labels
//     report                                                  the report; nothing where the number is 8
//     reading      sum           mask, values         count   `answer,NUMBER,PLACE,KIND,FIXED`; the value is sum / count
//     pair         three sums    fault, mask, values  count   `answer,NUMBER,PLACE`; the readings are sums / count
//     field                      number               start   the field
//
// A case whose head is damaged or that is cut differs.
#![tactic(auto)]

ghost use Rattle.std.specs.Prelude.{◌≤◌};
ghost use Rattle.std.specs.Counts.{IsPrefixLen};

use cases::heads::{Call, CaseHead};
use cases::numbers;
use cases::numbers::argument;
use list_calls::Given;
use std::io;
use std::io::Read;

// The sums of a pair: three, since the head was tested.
fn three(list: &[i32]) -> [i32; 3] {
    match list {
        [sound, faulty, difference] => [*sound, *faulty, *difference],
        _ => [0, 0, 0],
    }
}

// The sum of a reading: one, since the head was tested.
fn one(list: &[i32]) -> i32 {
    match list {
        [sum] => *sum,
        _ => 0,
    }
}

// Whether the call's answer is what is due. A `match`: each call is given other parts of the case.
fn call_holds(
    h: CaseHead,
    text: &[u8],
    list: &[i32],
    first: &[u32],
    second: &[u32],
    due: &[u8],
) -> bool {
    let x = argument(first, 0);
    let y = argument(first, 1);
    let z = argument(first, 2);
    let last = argument(second, 0);
    match h.call {
        None => false,
        Some(Call::Coefficient) => list_calls::coefficient_holds(list, x, due),
        Some(Call::Plan) => text_calls::plan_holds(text, h.work, due),
        Some(Call::Report) => text_calls::report_holds(text, h.room, h.work, due),
        Some(Call::Reading) => text_calls::reading_holds(text, x, y, one(list), last, due),
        Some(Call::Pair) => text_calls::pair_holds(text, x, y, z, three(list), last, due),
        Some(Call::Field) => text_calls::field_holds(text, x as usize, last as usize, due),
        Some(Call::List(call)) => {
            let given = Given {
                call,
                text,
                list,
                first,
                second,
            };
            given.holds(h.room, due)
        }
    }
}

// The arguments and what is due are in `rest`.
fn rest_holds(h: CaseHead, text: &[u8], list: &[i32], rest: &[u8]) -> bool {
    let a = h.first;
    let b = h.second;
    if 4 < a || 4 < b {
        return false;
    }
    let next = 12 * a;
    let end = next + 12 * b;
    if rest.len() < end {
        return false;
    }
    let mut first = [0u32; 4];
    let mut second = [0u32; 4];
    let first = &mut first[..a];
    let second = &mut second[..b];
    numbers::fill(&rest[..next], first)
        && numbers::fill(&rest[next..end], second)
        && call_holds(h, text, list, first, second, &rest[end..])
}

// Everything after the text is in `rest`.
fn numbers_hold(h: CaseHead, text: &[u8], rest: &[u8]) -> bool {
    let l = h.list;
    if 2056 < l {
        return false;
    }
    let at = 12 * l;
    if rest.len() < at {
        return false;
    }
    let mut list = [0i32; 2056];
    let list = &mut list[..l];
    numbers::fill(&rest[..at], list) && rest_holds(h, text, list, &rest[at..])
}

fn case_holds(h: CaseHead, case: &[u8]) -> bool {
    let t = h.text;
    cases::heads::is_right(h) && t <= case.len() && numbers_hold(h, &case[..t], &case[t..])
}

// Reads until `space` is full, the input ends or a read fails, and says how many bytes it put there. No `for`: how many a read brings is not known before.
fn read_full(rt: &HostRuntime, space: &mut [u8]) -> usize
    ensures { IsPrefixLen result space.new }
{
    let mut done = 0;
    while done < space.len() {
        let more = rt.stdin().read(&mut space[done..]).unwrap_or(0);
        if more == 0 {
            break;
        }
        done += more;
    }
    done
}

// Reads the case that the head says, and tries it.
fn next_holds(rt: &HostRuntime, head: &[u8; 54], space: &mut [u8]) -> bool {
    let h = cases::heads::read(head);
    let size = h.text + 12 * (h.list + h.first + h.second) + h.due;
    size <= space.len()
        && read_full(rt, &mut space[..size]) == size
        && case_holds(h, &space[..size])
}

// How many cases came, and how many of them do not hold.
#[derive(Clone, Copy)]
struct Tally {
    cases: u64,
    wrong: u64,
}

// It stops at so many cases, so that it ends on every input.
const MOST_CASES: u64 = 1_000_000;

fn try_all(rt: &HostRuntime, space: &mut [u8]) -> Tally {
    let mut t = Tally { cases: 0, wrong: 0 };
    for _ in 0..MOST_CASES {
        let mut head = [0u8; 54];
        if read_full(rt, &mut head) == 0 {
            break;
        }
        t.cases += 1;
        if !next_holds(rt, &head, space) {
            t.wrong += 1;
        }
    }
    t
}

fn main(rt: HostRuntime) -> io::Result<()> {
    let mut space = [0u8; 67000];
    let t = try_all(&rt, &mut space);
    println!(rt; "{} cases, {} differ", t.cases, t.wrong)
}
