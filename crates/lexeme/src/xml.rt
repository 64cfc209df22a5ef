// The characters that XML 1.0 admits, by its production Char.
ghost use Rattle.std.specs.Prelude.{◌≡◌};
ghost use Rattle.rules.specs.Lexeme.{is_xml_char};

#[tactic(auto, unfolding(rules::specs::Lexeme::is_xml_char))]
pub(crate) fn is_xml_char(x: usize) -> bool
    ensures { result ≡ is_xml_char x }
{
    matches!(x, 0x9 | 0xa | 0xd | 0x20..=0xd7ff | 0xe000..=0xfffd | 0x10000..=0x10ffff)
}
