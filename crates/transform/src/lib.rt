// The whole spectrum in place, by sums and differences of halves.
#![tactic(auto)]

ghost use Rattle.std.specs.Prelude.{ℕ, ◌≡◌, ◌+◌, ◌^◌, ◌≤◌, length};
ghost use Rattle.integer.specs.Tab.{Within};
ghost use Rattle.transform.specs.Spectrum.{Transformable, spectrum_of};
ghost use Rattle.transform.specs.Steps.{halves_mixed};

use std::marker::PhantomData;

// Sums of the two halves of `a`, and then their differences.
fn butterfly(a: &mut [i64], h: usize)
    requires a_len { length a.old ≡ h + h }
    requires within { Within 4194304000 a.old }
    ensures { a.new ≡ halves_mixed a.old h }
{
    for i in 0..h {
        let x = a[i];
        let y = a[h + i];
        a[i] = x + y;
        a[h + i] = x - y;
    }
}

// A transform of a size that its type says, as the recursion's last levels are. They are inlined, and of sizes that it knows the compiler makes straight code: that
// saves most of the calls and of the loads and stores. `transform` takes the same steps, at a size that is known only when it runs.
trait Straight {
    ghost inputs: { ℕ };

    // The spectrum of the 2^inputs numbers of `a`, in place.
    fn transform(a: &mut [i64])
        requires { Transformable inputs a.old }
        ensures { a.new ≡ spectrum_of a.old };
}

// Of one number, which is its own spectrum.
struct One;

// Of twice as many as `H` takes.
struct Twice<H>(PhantomData<H>);

impl Straight for One {
    ghost inputs = { 0 };

    fn transform(_a: &mut [i64]) {}
}

impl<H: Straight> Straight for Twice<H> {
    ghost inputs = { H.inputs + 1 };

    #[inline(always)]
    fn transform(a: &mut [i64]) {
        let h = a.len() / 2;
        let (low, high) = a.split_at_mut(h);
        H::transform(low);
        H::transform(high);
        butterfly(a, h);
    }
}

type Sixteen = Twice<Twice<Twice<Twice<One>>>>;

// Where the recursion ends: at sixteen numbers.
const STRAIGHT_INPUTS: u32 = 4;

// The spectrum of the 2^inputs numbers of `a`, in place.
pub fn transform(a: &mut [i64], inputs: u32)
    requires { Transformable inputs a.old }
    ensures { a.new ≡ spectrum_of a.old }
{
    if inputs == 0 {
        return;
    }
    if inputs == STRAIGHT_INPUTS {
        // That is all of `a`: so the compiler knows its length.
        Sixteen::transform(&mut a[..16]);
        return;
    }
    let h = a.len() / 2;
    let (low, high) = a.split_at_mut(h);
    transform(low, inputs - 1);
    transform(high, inputs - 1);
    butterfly(a, h);
}
