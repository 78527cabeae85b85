// The cases of `xor`: 1 where an odd number of bits is 1.
ghost use Rattle.std.specs.Prelude.{◌≡◌};
ghost use Rattle.kinds.specs.declared.Kind.TheVariants.{Xor};
ghost use Rattle.gates.specs.Gates.{gate_value, bits_of, Several};

#[tactic(auto, using(crate::proofs::Cases::xor_true, crate::proofs::Cases::xor_false), unfolding(crate::specs::Gates::gate_value, crate::specs::Gates::odd_of, crate::specs::Gates::bits_of, crate::specs::Gates::bits_to))]
pub fn value(bits: u32) -> bool
    requires { Several bits }
    ensures { result ≡ gate_value Xor (bits_of bits) }
{
    match bits {
        0b1_00 => false,
        0b1_01 => true,
        0b1_10 => true,
        0b1_11 => false,
        0b1_000 => false,
        0b1_001 => true,
        0b1_010 => true,
        0b1_011 => false,
        0b1_100 => true,
        0b1_101 => false,
        0b1_110 => false,
        0b1_111 => true,
        0b1_0000 => false,
        0b1_0001 => true,
        0b1_0010 => true,
        0b1_0011 => false,
        0b1_0100 => true,
        0b1_0101 => false,
        0b1_0110 => false,
        0b1_0111 => true,
        0b1_1000 => true,
        0b1_1001 => false,
        0b1_1010 => false,
        0b1_1011 => true,
        0b1_1100 => false,
        0b1_1101 => true,
        0b1_1110 => true,
        0b1_1111 => false,
        _ => {
            prove!(false);
            false
        }
    }
}
