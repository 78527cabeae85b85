// Holds the calls that write a list into a lent result, and the call for one coefficient, to stored cases.
#![tactic(auto)]

use cases::heads::ListCall;
use cases::lines;
use cases::numbers::argument;
use refusals::Refusal;
use replies::{Reply, Sum};

pub fn coefficient_holds(list: &[i32], label: u32, due: &[u8]) -> bool {
    let sum = Sum::from(walsh::coefficient(list, label));
    lines::are_due(
        &[
            lines::narrow(sum.number),
            lines::narrow(sum.place),
            sum.value,
        ],
        due,
    )
}

// A call with what it is given.
#[derive(Clone, Copy)]
pub struct Given<'a> {
    pub call: ListCall,
    pub text: &'a [u8],
    pub list: &'a [i32],
    pub first: &'a [u32],
    pub second: &'a [u32],
}

impl Given<'_> {
    // Each call takes other arguments, so no table or closure is plainer than a match.
    fn answer(&self, out: &mut [i32]) -> Result<(), Refusal> {
        match self.call {
            ListCall::Spectrum => walsh::spectrum(self.list, out),
            ListCall::Rows => walsh::rows(self.list, out),
            ListCall::Stuck => faults::stuck(self.list, self.first, self.second, out),
            ListCall::Opened => faults::opened(self.list, self.first, out),
            ListCall::Bridged => {
                let first = argument(self.first, 0);
                let second = argument(self.first, 1);
                bridges::bridged(self.list, first, second, out)
            }
            ListCall::Circuit => circuit::circuit_spectrum(self.text, argument(self.first, 0), out),
        }
    }

    // The answer and the whole lent result.
    fn leaves(&self, out: &mut [i32], due: &[u8]) -> bool {
        let reply = Reply::from(self.answer(out));
        let numbers = [lines::narrow(reply.number), lines::narrow(reply.place)];
        lines::are_due_with(&numbers, out, due)
    }

    // The same with a lent result of its own, in which stands what no call writes.
    pub fn holds(&self, room: usize, due: &[u8]) -> bool {
        if 2056 < room {
            return false;
        }
        let mut out = [-99999999i32; 2056];
        self.leaves(&mut out[..room], due)
    }
}
