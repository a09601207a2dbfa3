// CBOR items (RFC 8949; section 10 of docs/RULES.md), read at a position of the input and written
// at a position of lent output.
//
// What is written reads back whatever follows it, and what is read is exactly the written form of
// its value: for each item in proofs/Written.antt and proofs/Only.antt.
//
// A float has one form for each value over all three widths (`float_once`: cbor, Only), and no
// shorter one (`shortest_least`: cbor, Shortest). Widening keeps the number (`widened_worth`: cbor,
// Floats).
#![tactic(auto)]

pub mod float;
pub mod read;
mod short;
pub mod write;

ghost use Rattle.std.specs.Prelude.{ℕ, ◌≡◌};
ghost use Rattle.wire.specs.Refusal.{number};

use wire::Refusal;

// A head's major type and number. Of major type 0 the integer is n, of 1 it is -1 - n (R10.4).
#[derive(Clone, Copy, Debug, PartialEq, Eq)]
pub struct Head {
    pub major: u8,
    pub n: u64,
}

// What a reader may be told to refuse with: a refusal, or any number of the caller's own.
//
// Each has a number, which is its own, and a refusal that `?` makes one of keeps its.
pub trait Fault: From<Refusal> + Copy {
    ghost use Rattle.wire.specs.declared.Refusal.{Refusal};

    ghost number_of_fault: { Self → ℕ };

    ghost laws: { ((r : Refusal) (e : Self) → Self.from_gives r e → number_of_fault e ≡ number r) × ((d e : Self) → number_of_fault d ≡ number_of_fault e → d ≡ e) };
}

impl Fault for Refusal {
    ghost use Rattle.std.proofs.Common.{ap};
    ghost use Rattle.wire.proofs.Answers.{number_injective};

    ghost number_of_fault = { number };

    ghost laws = { (λ r e h. ap number h, number_injective) };
}

impl Fault for u8 {
    ghost number_of_fault = { λ n. n };

    ghost laws = { (λ r e h. h, λ d e h. h) };
}

// The three widths of a float (R10.8).
#[derive(Clone, Copy, Debug, PartialEq, Eq)]
pub enum Width {
    Half,
    Single,
    Double,
}

// The kinds of items. Each is the major type of its heads, but that a negative integer has the
// major type NEGATIVE (R10.4).
//
// stays (1): `kind` and `major` may be any byte; an enum there would ask more of callers
pub const INTEGER: u8 = 0;

pub const NEGATIVE: u8 = 1;

pub const BYTES: u8 = 2;

pub const TEXT: u8 = 3;

pub const ARRAY: u8 = 4;
