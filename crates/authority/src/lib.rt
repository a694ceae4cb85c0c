// SPDX-FileCopyrightText: 2026 roolrz
// SPDX-License-Identifier: Apache-2.0
// Ported from src/authority.rs of HypeR-Proj/kernel, with changes.

// Rights of a handle: operation rights and propagation rights, split and rejoined.
#![tactic(auto)]

ghost use Rattle.std.specs.Prelude.{◌≡◌, ◌&&◌};
ghost use Rattle.std.specs.Int.Bits.{bit_and, bit_or};
ghost use Rattle.authority.specs.Rights.{contains, rejoin, decomposed, duplicate_right, transfer_right};

// Whether every bit asked for is held: of rights, of flags, or of the map of a record's fields.
#[tactic(auto, unfolding(crate::specs::Rights::contains))]
pub fn contains(held: u64, asked: u64) -> bool
    ensures { result ≡ contains held asked }
{
    held & asked == asked
}

// The rights that an object supports, or that a handle grants: 64 bits.
#[derive(Clone, Copy, PartialEq, Eq)]
pub struct Rights(pub u64);

// Rights to invoke operations on the object.
#[derive(Clone, Copy)]
pub struct OperationRights(pub u64);

// Rights to derive or relocate a handle.
#[derive(Clone, Copy)]
pub struct PropagationRights(pub u64);

// One handle's rights, split.
#[derive(Clone, Copy)]
pub struct HandleRights {
    pub operations: OperationRights,
    pub propagation: PropagationRights,
}

impl Rights {
    pub const NONE: Rights = Rights(0);

    pub const DUPLICATE: Rights = Rights(1);

    pub const TRANSFER: Rights = Rights(2);

    pub const PROPAGATION_MASK: u64 = 3;

    pub fn bits(self) -> u64
        ensures { result ≡ self.0 }
    {
        self.0
    }

    pub fn union(self, other: Rights) -> Rights
        ensures { result.0 ≡ bit_or self.0 other.0 }
    {
        Rights(self.0 | other.0)
    }

    pub fn intersection(self, other: Rights) -> Rights
        ensures { result.0 ≡ bit_and self.0 other.0 }
    {
        Rights(self.0 & other.0)
    }

    // Three types have this method. A trait with one default method for them was tried: it proves, but it is longer than the three, and each crate that calls one must name it.
    pub fn contains(self, required: Rights) -> bool
        ensures { result ≡ contains self.0 required.0 }
    {
        contains(self.0, required.0)
    }

    #[tactic(auto, unfolding(crate::specs::Rights::operations, crate::specs::Rights::propagation), using(crate::proofs::Laws::operations_is, crate::proofs::Laws::propagation_is))]
    pub fn decompose(self) -> HandleRights
        ensures { result ≡ decomposed self.0 }
    {
        HandleRights {
            operations: OperationRights(self.0 & !Rights::PROPAGATION_MASK),
            propagation: PropagationRights(self.0 & Rights::PROPAGATION_MASK),
        }
    }
}

impl HandleRights {
    #[tactic(auto, unfolding(crate::specs::Rights::rejoin))]
    pub fn union(self) -> Rights
        ensures { result.0 ≡ rejoin self.operations.0 self.propagation.0 }
    {
        Rights(self.operations.0 | self.propagation.0)
    }

    pub fn contains(self, required: HandleRights) -> bool
        ensures { result ≡ (contains self.operations.0 required.operations.0 && contains self.propagation.0 required.propagation.0) }
    {
        self.operations.contains(required.operations)
            && self.propagation.contains(required.propagation)
    }

    pub fn propagation(self) -> PropagationRights
        ensures { result.0 ≡ self.propagation.0 }
    {
        self.propagation
    }
}

impl OperationRights {
    pub fn contains(self, required: OperationRights) -> bool
        ensures { result ≡ contains self.0 required.0 }
    {
        contains(self.0, required.0)
    }
}

impl PropagationRights {
    pub const DUPLICATE: PropagationRights = PropagationRights(1);

    pub const TRANSFER: PropagationRights = PropagationRights(2);

    pub fn contains(self, required: PropagationRights) -> bool
        ensures { result ≡ contains self.0 required.0 }
    {
        contains(self.0, required.0)
    }

    // Whether the handle may be duplicated; a copy in a transfer needs this right too.
    pub fn may_duplicate(self) -> bool
        ensures { result ≡ contains self.0 duplicate_right }
    {
        self.contains(PropagationRights::DUPLICATE)
    }

    // Whether the handle may be moved or copied in a transfer.
    pub fn may_transfer(self) -> bool
        ensures { result ≡ contains self.0 transfer_right }
    {
        self.contains(PropagationRights::TRANSFER)
    }
}
