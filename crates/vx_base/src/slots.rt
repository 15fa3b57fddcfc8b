//! The number of images in a delay.
ghost use Rattle.std.specs.Prelude.{◌≡◌, ◌≤◌};
ghost use Rattle.vx_base.specs.Slots.{slot_count};

use std::marker::Model;

/// The greatest number of images in a delay.
pub const GREATEST_SLOTS: u8 = 16;

/// The number of images in a delay: 1 to 16.
#[derive(Clone, Copy, PartialEq, Eq, Debug)]
pub struct SlotCount {
    count: u8,
}

impl Model for SlotCount {
    ghost use Rattle.std.specs.Prelude.{ℕ, IsTrue};
    ghost use Rattle.vx_base.specs.Slots.{is_slot_count};

    ghost Value = { ℕ };

    ghost view = { λ s. s.count };

    ghost invariant = { λ s. IsTrue (is_slot_count s.count) };

    ghost inverse = { λ n. record { count = n } };
}

impl SlotCount {
    /// Returns `count` as a number of slots, or `None` if it isn't 1 to 16.
    pub fn new(count: u8) -> Option<SlotCount>
        ensures { result ≡ slot_count count }
    {
        if (1..=GREATEST_SLOTS).contains(&count) {
            Some(SlotCount { count })
        } else {
            None
        }
    }

    /// Returns the number of slots.
    pub fn get(self) -> u8
        ensures value { result ≡ self }
        ensures limits { (1 ≤ result) × (result ≤ GREATEST_SLOTS) }
    {
        self.count
    }
}
