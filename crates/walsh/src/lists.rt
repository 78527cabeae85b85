// Rows to their spectrum, and a spectrum to its rows.
ghost use Rattle.std.specs.Prelude.{◌≡◌, length};
ghost use Rattle.screen.specs.Answers.{answer_of};
ghost use Rattle.transform.specs.Spectrum.{Transformable, spectrum_of};
ghost use Rattle.results.specs.Results.{leaves};
ghost use Rattle.walsh.specs.Lists.{spectrum_answer, rows_answer, inverse_rows};

use refusals::Refusal;

// The list's spectrum, in the front of the buffer. The tests stay in each call, before it: a refusal then fills no buffer with zeros.
#[tactic(auto, using(crate::proofs::Sizes::small_few))]
fn transformed<'a>(list: &[i32], inputs: u32, buffer: &'a mut [i64; 2048]) -> &'a [i64]
    requires { Transformable inputs list.now }
    ensures { result.now ≡ spectrum_of list.now }
{
    let work = &mut buffer[..list.len()];
    results::widen(list, work);
    transform::transform(work, inputs);
    work
}

/// The spectrum of rows from -1,000 to 1,000, written to the front of `out`; or 9, 10, 8.
#[tactic(auto, using(crate::proofs::Sizes::spectra), unfolding(crate::specs::Lists::spectrum_answer))]
pub fn spectrum(rows: &[i32], out: &mut [i32]) -> Result<(), Refusal>
    ensures value { answer_of result ≡ spectrum_answer rows.now (length out.old) }
    ensures out_after { out.new ≡ leaves (answer_of result) (spectrum_of rows.now) out.old }
{
    let n = rows.len();
    let inputs = screen::screen(rows, -1000, 1000, true, out.len(), n)?;
    let mut buffer = [0i64; 2048];
    results::narrow(transformed(rows, inputs, &mut buffer), out);
    Ok(())
}

/// The rows from -1,000 to 1,000 that have this spectrum, written to the front of `out`; or 9, 10, 8, 11.
#[tactic(auto, using(crate::proofs::Sizes::spectra), unfolding(crate::specs::Lists::rows_answer, crate::specs::Lists::inverse_rows))]
pub fn rows(coefficients: &[i32], out: &mut [i32]) -> Result<(), Refusal>
    ensures value { answer_of result ≡ rows_answer coefficients.now (length out.old) }
    ensures out_after { out.new ≡ leaves (answer_of result) (inverse_rows coefficients.now) out.old }
{
    let n = coefficients.len();
    let inputs = screen::screen(coefficients, -2048000, 2048000, true, out.len(), n)?;
    let mut buffer = [0i64; 2048];
    let sums = transformed(coefficients, inputs, &mut buffer);
    results::divided(sums, n, -1000, 1000, out)
}
