//! References to objects.
ghost use Rattle.std.specs.Prelude.{◌≡◌, ◌<◌, ◌^◌};
ghost use Rattle.std.specs.Option.{ForSome};

use std::marker::Model;

/// A reference to the object with this name in the client's context, or to a slot of the delay with
/// this name. Slot 0 has the newest image, slot 1 (OpenVX's slot -1) the image before it, and so
/// on.
#[derive(Clone, Copy, PartialEq, Eq, Debug)]
pub struct ObjRef {
    name: u32,
    slot: Option<u8>,
}

impl Model for ObjRef {
    ghost use Rattle.std.specs.Prelude.{◌<◌};
    ghost use Rattle.std.specs.Option.{ForSome};
    ghost use Rattle.vx_base.specs.Reference.{Reference};

    ghost Value = { Reference };

    ghost view = { λ r. record { name = r.name; slot = r.slot } };

    ghost invariant = { λ r. ForSome r.slot (λ k. k < 255) };

    ghost inverse = { λ c. record { name = c.name; slot = c.slot } };
}

impl ObjRef {
    ghost use Rattle.vx_base.specs.Reference.{IsReference};
    ghost use Rattle.vx_base.specs.Node.{is_nothing};

    /// Returns the reference to the object of this name, or to this slot of the delay of this name.
    /// The caller must give a slot below 255, or `None`.
    pub fn new(name: u32, slot: Option<u8>) -> ObjRef
        requires { ForSome slot (λ k. k < 255) }
        ensures { result ≡ record { name = name; slot = slot } }
    {
        ObjRef { name, slot }
    }

    /// Returns the object's name.
    pub fn name(self) -> u32
        ensures value { result ≡ self.name }
        ensures limit { self.name < 2 ^ 32 }
    {
        self.name
    }

    /// Returns the slot of the delay, or `None` for a whole object.
    pub fn slot(self) -> Option<u8>
        ensures value { result ≡ self.slot }
        ensures limit { ForSome result (λ k. k < 255) }
    {
        self.slot
    }

    /// Proves that the name and the slot are in their ranges. The prover learns a number's range
    /// only where the number is read. At run time this function does nothing.
    pub fn prove_reference(self)
        ensures { IsReference self }
    {
        let _parts = (self.name, self.slot);
    }

    /// Checks whether the reference is name 0 without a slot. No operand may be this reference.
    pub fn is_nothing(self) -> bool
        ensures { result ≡ is_nothing self }
    {
        let ObjRef { name, slot } = self;
        name == 0 && slot.is_none()
    }
}
