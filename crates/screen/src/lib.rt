// The tests that every call on a list begins with.
#![tactic(auto)]

ghost use Rattle.std.specs.Prelude.{◌≡◌, ◌<◌, ◌||◌, false, fold, length, max, nat_abs, IfOk, OnOk, MatchOption};
ghost use Rattle.std.specs.List.{position};
ghost use Rattle.screen.specs.Answers.{inputs_of, outside, answer_of, screen_of, Ready};

use refusals::Refusal;

/// The number of inputs of a list of n numbers, where n is one of 2, 4 .. 2,048.
#[tactic(auto, unfolding(crate::specs::Answers::inputs_of, crate::specs::Answers::inputs_to))]
pub fn inputs_of(n: usize) -> Option<u32>
    ensures { MatchOption result (inputs_of n ≡ 0) (λ k. (k ≡ inputs_of n) × (0 < k)) }
{
    match n {
        2 => Some(1),
        4 => Some(2),
        8 => Some(3),
        16 => Some(4),
        32 => Some(5),
        64 => Some(6),
        128 => Some(7),
        256 => Some(8),
        512 => Some(9),
        1024 => Some(10),
        2048 => Some(11),
        _ => None,
    }
}

#[tactic(auto, unfolding(crate::specs::Answers::outside))]
fn is_outside(z: i32, low: i32, high: i32) -> bool
    ensures { result ≡ outside low high z }
{
    (z < low) | (high < z)
}

// Reads the whole list: without an early end the compiler tests several numbers at once.
fn any_outside(list: &[i32], low: i32, high: i32) -> bool
    ensures { result ≡ fold (λ any z. any || outside low high z) false list.now }
{
    list.iter()
        .fold(false, |any, &z| any | is_outside(z, low, high))
}

#[tactic(auto, using(crate::proofs::Screens::none_outside))]
fn first_outside(list: &[i32], low: i32, high: i32) -> Option<usize>
    ensures { result ≡ position (outside low high) list.now }
{
    if !any_outside(list, low, high) {
        return None;
    }
    list.iter().position(|&z| is_outside(z, low, high))
}

/// The number of inputs of the list; or 9, 12 unless `right`, 10, 8 where `room` is below `due`, in this order. The range is two numbers, as the definition
/// has it: a struct would be made for each call, and taken apart by each test.
#[tactic(auto, using(crate::proofs::Screens::screen_is), unfolding(crate::specs::Answers::screen_of))]
pub fn screen(
    list: &[i32],
    low: i32,
    high: i32,
    right: bool,
    room: usize,
    due: usize,
) -> Result<u32, Refusal>
    ensures value { answer_of result ≡ screen_of low high right list.now room due }
    ensures inputs { IfOk result (λ inputs. inputs ≡ inputs_of (length list.now)) }
    ensures ready { OnOk result (Ready (max (nat_abs low) (nat_abs high)) right list.now room due) }
{
    let inputs = inputs_of(list.len()).ok_or(Refusal::WrongLength)?;
    if !right {
        return Err(Refusal::WrongArgument);
    }
    if let Some(index) = first_outside(list, low, high) {
        return Err(Refusal::OutOfRange { index });
    }
    if room < due {
        return Err(Refusal::ShortBuffer);
    }
    Ok(inputs)
}
