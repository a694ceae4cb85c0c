// SPDX-FileCopyrightText: 2026 roolrz
// SPDX-License-Identifier: Apache-2.0
// Ported from src/capability/handle/mod.rs of HypeR-Proj/kernel, with changes.

// The codec of handle values: slot and generation under a table's mask.
#![tactic(auto)]

ghost use Rattle.std.specs.Prelude.{◌≡◌};
ghost use Rattle.codec.specs.Codec.{mask_of, encode, decode_of, next_generation};

// A handle value, a reservation id and a koid are three kinds of number.
#[derive(Clone, Copy, Default, PartialEq, Eq)]
pub struct HandleValue(pub u64);

#[derive(Clone, Copy, PartialEq, Eq)]
pub struct ReservationId(pub u64);

#[derive(Clone, Copy, Default, PartialEq, Eq)]
pub struct Koid(pub u64);

// What a handle value decodes to.
#[derive(Clone, Copy)]
pub struct Decoded {
    pub slot: u64,
    pub generation: u64,
}

// One table's codec: its mask of 56 bits.
#[derive(Clone, Copy)]
pub struct HandleCodec {
    pub mask: u64,
}

impl HandleCodec {
    // The highest slot index.
    pub const SLOT_LIMIT: u64 = 16_777_214;

    pub const GENERATION_LIMIT: u64 = 4_294_967_295;

    pub const PREFIX: u64 = 0x4800_0000_0000_0000;

    pub const PREFIX_MASK: u64 = 0xff00_0000_0000_0000;

    pub const PAYLOAD_MASK: u64 = 0x00ff_ffff_ffff_ffff;

    // The weight of a generation in the payload.
    pub const GENERATION_UNIT: u64 = 0x100_0000;

    #[tactic(auto, using(crate::proofs::Laws::mask_is))]
    pub fn new(seed: u64) -> Self
        ensures { result.mask ≡ mask_of seed }
    {
        Self {
            mask: seed & Self::PAYLOAD_MASK,
        }
    }

    #[tactic(auto, using(crate::proofs::Steps::encoded, crate::proofs::Steps::made_below))]
    pub fn encode(self, slot: u64, generation: u64) -> HandleValue
        ensures { result.0 ≡ encode self.mask slot generation }
    {
        let above = generation % (Self::GENERATION_LIMIT + 1) * Self::GENERATION_UNIT;
        let payload = above + (slot % (Self::SLOT_LIMIT + 1) + 1);
        HandleValue(Self::PREFIX + (payload ^ (self.mask & Self::PAYLOAD_MASK)))
    }

    // A value that does not decode is refused as InvalidHandle, 2.
    #[tactic(auto, using(crate::proofs::Steps::other_prefix_seen, crate::proofs::Steps::no_slot_seen, crate::proofs::Steps::no_generation_seen, crate::proofs::Steps::at_seen))]
    pub fn decode(self, value: HandleValue) -> Option<Decoded>
        ensures { result ≡ decode_of self.mask value.0 }
    {
        let raw = value.0;
        if raw & Self::PREFIX_MASK != Self::PREFIX {
            return None;
        }
        let payload = (raw & Self::PAYLOAD_MASK) ^ (self.mask & Self::PAYLOAD_MASK);
        let slot = (payload % Self::GENERATION_UNIT).checked_sub(1)?;
        let generation = payload / Self::GENERATION_UNIT;
        if generation == 0 {
            return None;
        }
        Some(Decoded { slot, generation })
    }
}

// The generation after one: it wraps from the limit to 1, and zero is never given out.
#[tactic(auto, unfolding(crate::specs::Codec::next_generation))]
pub fn next_generation(generation: u64) -> u64
    ensures { result ≡ next_generation generation }
{
    if generation < HandleCodec::GENERATION_LIMIT {
        generation + 1
    } else {
        1
    }
}
