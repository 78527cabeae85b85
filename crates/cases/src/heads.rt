// The head of a case.
ghost use Rattle.std.specs.Prelude.{◌≤◌, length};

use crate::numbers;

// The calls that write a list into a lent result.
#[derive(Clone, Copy)]
pub enum ListCall {
    Spectrum,
    Rows,
    Stuck,
    Opened,
    Bridged,
    Circuit,
}

#[derive(Clone, Copy)]
pub enum Call {
    Coefficient,
    List(ListCall),
    Plan,
    Report,
    Reading,
    Pair,
    Field,
}

// The call, if the word is that of one, and how much there is of everything: bytes of the text, numbers of the list, first and second arguments, lent
// numbers or bytes, lent working numbers, bytes of what is due.
#[derive(Clone, Copy)]
pub struct CaseHead {
    pub call: Option<Call>,
    pub text: usize,
    pub list: usize,
    pub first: usize,
    pub second: usize,
    pub room: usize,
    pub work: usize,
    pub due: usize,
}

fn call_of(word: &[u8]) -> Option<Call> {
    match word {
        b"coefficient" => Some(Call::Coefficient),
        b"spectrum   " => Some(Call::List(ListCall::Spectrum)),
        b"rows       " => Some(Call::List(ListCall::Rows)),
        b"stuck      " => Some(Call::List(ListCall::Stuck)),
        b"opened     " => Some(Call::List(ListCall::Opened)),
        b"bridged    " => Some(Call::List(ListCall::Bridged)),
        b"circuit    " => Some(Call::List(ListCall::Circuit)),
        b"plan       " => Some(Call::Plan),
        b"report     " => Some(Call::Report),
        b"reading    " => Some(Call::Reading),
        b"pair       " => Some(Call::Pair),
        b"field      " => Some(Call::Field),
        _ => None,
    }
}

// Whether a comma stands before each number, and a line end after the last.
fn is_separated(head: &[u8]) -> bool
    requires { 54 ≤ length head.now }
{
    head[11..53].iter().step_by(6).all(|b| *b == b',') && head[53] == b'\n'
}

// A size that is no number: more than any case has. A head always says something, so that of a damaged one the rest of its case is still read where its sizes
// stand, and the next case found.
const NO_SIZE: usize = 10_000_000_000;

// The number after comma k.
fn size_at(head: &[u8], k: usize) -> usize
    requires { (54 ≤ length head.now) × (k ≤ 6) }
    ensures { result ≤ 10000000000 }
{
    numbers::decimal(&head[12 + 6 * k..17 + 6 * k]).map_or(NO_SIZE, |n| n as usize)
}

// What a head says; one that is not separated right names no call.
pub fn read(head: &[u8]) -> CaseHead
    requires { 54 ≤ length head.now }
    ensures { (result.text ≤ 10000000000) × (result.list ≤ 10000000000) × (result.first ≤ 10000000000) × (result.second ≤ 10000000000) × (result.due ≤ 10000000000) }
{
    CaseHead {
        call: if is_separated(head) {
            call_of(&head[..11])
        } else {
            None
        },
        text: size_at(head, 0),
        list: size_at(head, 1),
        first: size_at(head, 2),
        second: size_at(head, 3),
        room: size_at(head, 4),
        work: size_at(head, 5),
        due: size_at(head, 6),
    }
}

// A head of a call on a list: no text, no working numbers, so many arguments.
fn is_on_a_list(h: CaseHead, first: usize, second: usize) -> bool {
    h.text == 0 && h.work == 0 && h.first == first && h.second == second
}

// A head of a call on a text: so many numbers and arguments.
fn is_on_a_text(h: CaseHead, list: usize, first: usize, second: usize) -> bool {
    h.list == list && h.first == first && h.second == second
}

fn lends_nothing(h: CaseHead) -> bool {
    h.room == 0 && h.work == 0
}

// Whether the head has what its call takes and no more. A `match`: each call has a form of its own, and no form is taken apart or handed on.
pub fn is_right(h: CaseHead) -> bool {
    let Some(call) = h.call else {
        return false;
    };
    match call {
        Call::Coefficient => is_on_a_list(h, 1, 0) && lends_nothing(h),
        Call::List(ListCall::Spectrum | ListCall::Rows) => is_on_a_list(h, 0, 0),
        Call::List(ListCall::Stuck) => is_on_a_list(h, h.first, h.second),
        Call::List(ListCall::Opened) => is_on_a_list(h, h.first, 0),
        Call::List(ListCall::Bridged) => is_on_a_list(h, 2, 0),
        Call::List(ListCall::Circuit) => is_on_a_text(h, 0, 1, 0) && h.work == 0,
        Call::Plan => is_on_a_text(h, 0, 0, 0) && h.room == 0,
        Call::Report => is_on_a_text(h, 0, 0, 0),
        Call::Reading => is_on_a_text(h, 1, 2, 1) && lends_nothing(h),
        Call::Pair => is_on_a_text(h, 3, 3, 1) && lends_nothing(h),
        Call::Field => is_on_a_text(h, 0, 1, 1) && lends_nothing(h),
    }
}
