// The cases of `not`: the complement of its one bit.
ghost use Rattle.std.specs.Prelude.{◌≡◌, ◌≤◌, ◌<◌};
ghost use Rattle.kinds.specs.declared.Kind.TheVariants.{Not};
ghost use Rattle.gates.specs.Gates.{gate_value, bits_of};

#[tactic(auto, unfolding(crate::specs::Gates::gate_value, crate::specs::Gates::bits_of, crate::specs::Gates::bits_to))]
pub fn value(bits: u32) -> bool
    requires { (2 ≤ bits) × (bits < 4) }
    ensures { result ≡ gate_value Not (bits_of bits) }
{
    match bits {
        0b1_0 => true,
        0b1_1 => false,
        _ => {
            prove!(false);
            false
        }
    }
}
