// The second byte of a character, by its first.
ghost use Rattle.std.specs.Prelude.{◌≡◌};
ghost use Rattle.laws.specs.FirstBytes.{least_next, most_next};

// RFC 3629, section 4: some first bytes narrow the range of the second, so that no character has two spellings, none is a surrogate and none is
// past U+10FFFF.
#[tactic(auto, unfolding(laws::specs::FirstBytes::least_next))]
pub fn least_next(b: u8) -> u8
    ensures { result ≡ least_next b }
{
    match b {
        0xe0 => 0xa0,
        0xf0 => 0x90,
        _ => 0x80,
    }
}

#[tactic(auto, unfolding(laws::specs::FirstBytes::most_next))]
pub fn most_next(b: u8) -> u8
    ensures { result ≡ most_next b }
{
    match b {
        0xed => 0x9f,
        0xf4 => 0x8f,
        _ => 0xbf,
    }
}
