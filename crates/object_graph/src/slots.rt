//! Sets of slots.
ghost use Rattle.std.specs.Prelude.{◌≡◌, ℕ, ◌<◌, ◌^◌, ◌↔◌, ◌==◌, ◌||◌, ◌&&◌, false, not, IfNone, IfSome, IsTrue};
ghost use Rattle.std.specs.Int.{bit_at};
ghost use Rattle.object_graph.specs.Slots.{has_slot};

use crate::limits::MOST_SLOTS;
use std::marker::Model;

/// A set of slots that names can tell apart. Contracts see it as the number whose bits are the slots.
#[derive(Clone, Copy, Debug, PartialEq, Eq)]
pub struct SlotSet {
    bits: u64,
}

impl Model for SlotSet {
    ghost use Rattle.std.specs.Prelude.{ℕ, ◌<◌, ◌^◌};
    ghost use Rattle.object_graph.specs.declared.limits.TheConstants.{MOST_SLOTS};

    ghost Value = { ℕ };

    ghost view = { λ s. s.bits };

    ghost invariant = { λ s. s.bits < 2 ^ MOST_SLOTS };

    ghost inverse = { λ n. record { bits = n } };
}

impl SlotSet {
    /// The set without a slot.
    pub fn empty() -> SlotSet
        ensures value { result ≡ 0 }
        ensures none { (s : ℕ) → has_slot result s ≡ false }
    {
        SlotSet { bits: 0 }
    }

    /// The slots whose bits are 1 in a word.
    pub fn of_bits(bits: u64) -> SlotSet
        requires { (s : ℕ) → bit_at bits s ≡ 1 → s < MOST_SLOTS }
        ensures value { result ≡ bits }
        ensures slots { (s : ℕ) → has_slot result s ≡ (bit_at bits s == 1) }
    {
        SlotSet { bits }
    }

    /// Whether the slot is in the set.
    pub fn has(self, slot: u16) -> bool
        requires { slot < MOST_SLOTS }
        ensures { result ≡ has_slot self slot }
    {
        (self.bits >> slot) & 1 == 1
    }

    /// The set with this slot in it.
    pub fn with(self, slot: u16) -> SlotSet
        requires { slot < MOST_SLOTS }
        ensures { (s : ℕ) → has_slot result s ≡ (has_slot self s || s == slot) }
    {
        SlotSet {
            bits: self.bits | (1 << slot),
        }
    }

    /// The slots of this set that aren't in the other.
    pub fn without(self, other: SlotSet) -> SlotSet
        ensures { (s : ℕ) → has_slot result s ≡ (has_slot self s && not (has_slot other s)) }
    {
        SlotSet {
            bits: self.bits & !other.bits,
        }
    }

    /// The slots of both sets.
    pub fn union(self, other: SlotSet) -> SlotSet
        ensures { (s : ℕ) → has_slot result s ≡ (has_slot self s || has_slot other s) }
    {
        SlotSet {
            bits: self.bits | other.bits,
        }
    }

    /// Whether no slot is in the set.
    pub fn is_empty(self) -> bool
        ensures number { IsTrue result ↔ (self ≡ 0) }
        ensures slots { IsTrue result ↔ ((s : ℕ) → s < MOST_SLOTS → has_slot self s ≡ false) }
    {
        self.bits == 0
    }

    /// The least slot of the set, `None` for the empty set.
    pub fn least(self) -> Option<u16>
        ensures none { IfNone result (self ≡ 0) }
        ensures bound { IfSome result (λ slot. slot < MOST_SLOTS) }
        ensures has { IfSome result (λ slot. IsTrue (has_slot self slot)) }
        ensures least { IfSome result (λ slot. (s : ℕ) → s < slot → has_slot self s ≡ false) }
    {
        if self.bits == 0 {
            None
        } else {
            Some(self.bits.trailing_zeros() as u16)
        }
    }
}

/// Two sets with the same slots are one set.
pub fn sets_are_their_slots()
    ensures { (a b : ℕ) → a < 2 ^ MOST_SLOTS → b < 2 ^ MOST_SLOTS → ((s : ℕ) → s < MOST_SLOTS → has_slot a s ≡ has_slot b s) → a ≡ b }
{}
