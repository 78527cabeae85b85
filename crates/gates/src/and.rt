// The cases of `and`: 1 where every bit is 1.
ghost use Rattle.std.specs.Prelude.{◌≡◌};
ghost use Rattle.kinds.specs.declared.Kind.TheVariants.{And};
ghost use Rattle.gates.specs.Gates.{gate_value, bits_of, Several};

#[tactic(auto, unfolding(crate::specs::Gates::gate_value, crate::specs::Gates::all_of, crate::specs::Gates::bits_of, crate::specs::Gates::bits_to))]
pub fn value(bits: u32) -> bool
    requires { Several bits }
    ensures { result ≡ gate_value And (bits_of bits) }
{
    match bits {
        0b1_00 => false,
        0b1_01 => false,
        0b1_10 => false,
        0b1_11 => true,
        0b1_000 => false,
        0b1_001 => false,
        0b1_010 => false,
        0b1_011 => false,
        0b1_100 => false,
        0b1_101 => false,
        0b1_110 => false,
        0b1_111 => true,
        0b1_0000 => false,
        0b1_0001 => false,
        0b1_0010 => false,
        0b1_0011 => false,
        0b1_0100 => false,
        0b1_0101 => false,
        0b1_0110 => false,
        0b1_0111 => false,
        0b1_1000 => false,
        0b1_1001 => false,
        0b1_1010 => false,
        0b1_1011 => false,
        0b1_1100 => false,
        0b1_1101 => false,
        0b1_1110 => false,
        0b1_1111 => true,
        _ => {
            prove!(false);
            false
        }
    }
}
