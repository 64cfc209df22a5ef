// Blocks, FNV-1a, packing, the fetch of a record, the reader of text: what a stream is made of, and nothing of what its records mean.
#![tactic(auto)]

ghost use Rattle.std.specs.Prelude.{◌≡◌, List, ℕ};
ghost use Rattle.std.proofs.Math.Option.{none};
ghost use Rattle.rules.specs.Blocks.{stream_length};
ghost use Rattle.stream.specs.Whole.{Whole};

pub mod answer;
pub mod block;
pub mod blocks;
pub mod copy;
pub mod fnv;
pub mod pack;
pub mod record;
pub mod text;

use std::marker::Model;

// A stream that refusal 1 lets through: its blocks are whole, so that no record is cut short. To a contract it is its bytes.
#[derive(Drop)]
pub struct Stream<'a> {
    bytes: &'a [u8],
}

impl<'a> Model for Stream<'a> {
    ghost Value = { List ℕ };

    ghost view = { λ s. s.bytes.now };

    ghost invariant = { λ s. Whole s.bytes.now };
}

impl<'a> Stream<'a> {
    // Bytes of a right length as a stream.
    pub fn of(bytes: &'a [u8]) -> Stream<'a>
        requires { stream_length bytes.now ≡ none }
        ensures { result ≡ bytes.now }
    {
        Stream { bytes }
    }

    // Its bytes.
    pub fn bytes(&self) -> &'a [u8]
        ensures bytes { result.now ≡ self.now }
        ensures whole { Whole result.now }
    {
        self.bytes
    }
}
