// The kinds of gates and the words that they are written as. What a gate computes is the business of other crates.
#![tactic(auto)]

ghost use Rattle.std.specs.Prelude.{◌≡◌, is_some};
ghost use Rattle.std.specs.Option.{unwrap_or};
ghost use Rattle.kinds.specs.declared.Kind.TheVariants.{Not};
ghost use Rattle.kinds.specs.Kinds.{is_kind, kind_of};

#[derive(Clone, Copy)]
pub enum Kind {
    And,
    Or,
    Nand,
    Nor,
    Xor,
    Xnor,
    Not,
}

// The kind of that word. The definition `kind_of` counts a word of none as `not`.
#[tactic(auto, using(crate::proofs::KindWords::unknown, crate::proofs::KindWords::counted_as_not), unfolding(crate::specs::Kinds::is_kind, crate::specs::Kinds::kind_of, text::specs::Text::same_bytes))]
pub fn kind_of(word: &[u8]) -> Option<Kind>
    ensures known { is_some result ≡ is_kind word.now }
    ensures value { unwrap_or result Not ≡ kind_of word.now }
{
    match word {
        b"and" => Some(Kind::And),
        b"or" => Some(Kind::Or),
        b"nand" => Some(Kind::Nand),
        b"nor" => Some(Kind::Nor),
        b"xor" => Some(Kind::Xor),
        b"xnor" => Some(Kind::Xnor),
        b"not" => Some(Kind::Not),
        _ => None,
    }
}
