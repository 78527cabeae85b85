// One coefficient by a direct sum.
ghost use Rattle.std.specs.Prelude.{◌≡◌, ◌≤◌, length};
ghost use Rattle.integer.specs.Tab.{Within};
ghost use Rattle.transform.specs.Spectrum.{coefficient_of};
ghost use Rattle.walsh.specs.Coefficients.{found_by, found_of};

use refusals::Refusal;

// The signed sum of the rows: the count of ones of label AND row decides the sign of each term.
fn signed_sum(rows: &[i32], label: u32) -> i32
    requires rows_len_bound { length rows.now ≤ 2048 }
    requires within { Within 1000 rows.now }
    ensures { result ≡ coefficient_of rows.now label }
{
    let mut sum = 0;
    for (i, &row) in rows.iter().enumerate() {
        let x = i as u32;
        if u32::count_ones(label & x) % 2 == 0 {
            sum += row;
        } else {
            sum -= row;
        }
    }
    sum
}

/// The coefficient of the rows at a label; or 9, 12 unless the label is below the length, 10.
#[tactic(auto, unfolding(crate::specs::Coefficients::found_of))]
pub fn coefficient(rows: &[i32], label: u32) -> Result<i32, Refusal>
    ensures { found_by result ≡ found_of rows.now label }
{
    let right = (label as usize) < rows.len();
    screen::screen(rows, -1000, 1000, right, 0, 0)?;
    Ok(signed_sum(rows, label))
}
