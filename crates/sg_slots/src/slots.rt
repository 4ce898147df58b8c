// The two slots, and the fields of one.
ghost use Rattle.std.specs.Prelude.{◌≡◌};
ghost use Rattle.sg_slots.specs.Slots.{slot_place, opposite};

use sg_disk::{SLOT_ONE, SLOT_ZERO};

/// One of the two slots of a snapshot.
#[derive(Clone, Copy, Debug, PartialEq, Eq)]
pub enum Slot {
    Zero,
    One,
}

impl Slot {
    /// Where it begins.
    pub fn place(self) -> u64
        ensures { result ≡ slot_place self }
    {
        match self {
            Slot::Zero => SLOT_ZERO,
            Slot::One => SLOT_ONE,
        }
    }

    /// The other one.
    pub fn opposite(self) -> Slot
        ensures { result ≡ opposite self }
    {
        match self {
            Slot::Zero => Slot::One,
            Slot::One => Slot::Zero,
        }
    }
}

/// The fields of a slot whose gate is open.
#[derive(Clone, Copy, Debug, PartialEq, Eq)]
pub struct Head {
    /// The switch number.
    pub number: u32,
    /// The length of the manifest's text.
    pub text: u32,
    /// How many files the table has.
    pub count: u32,
}
