//! Reads fields from the front of a body, in order.
ghost use Rattle.std.specs.Prelude.{◌≡◌, ℕ, List, length, Ok, Err, IfOk, IfErr, OnOk};
ghost use Rattle.client_model.specs.declared.request.Request.{Request as RequestValue};
ghost use Rattle.vx_wire.specs.Fields.{FieldResult, Takes, take_byte, take_short, take_long};
ghost use Rattle.vx_wire.specs.Fields.{take_bytes, at_end};

pub mod bins;
pub mod convolution;
pub mod described;
pub mod description;
pub mod extremes;
pub mod format;
pub mod node;
pub mod operand;
pub mod partial_desc;
pub mod rectangle;
pub mod reference;
pub mod samples;
pub mod slots;
pub mod threshold;

use crate::body_fault::BodyFault;
use std::marker::Model;

/// The bytes of a body that have not been read yet.
///
/// The methods `byte`, `short`, `long` and `bytes`, and the functions `take` and `take_..` of the
/// submodules, each read one or more fields from the front. `InvalidParameters`: a field is cut
/// short. After a fault the remaining bytes are unspecified, since the first fault ends the reading
/// of a body.
#[derive(Drop)]
pub struct Fields<'a> {
    rest: &'a [u8],
}

impl<'a> Model for Fields<'a> {
    ghost use Rattle.std.specs.Prelude.{ℕ, List};

    ghost Value = { List ℕ };

    ghost view = { λ f. f.rest.now };
}

impl<'a> Fields<'a> {
    /// Returns the fields of a body, none of them read yet.
    pub fn new(body: &'a [u8]) -> Fields<'a>
        ensures { result ≡ body.now }
    {
        Fields { rest: body }
    }

    /// Reads a number of one byte.
    pub fn byte(&mut self) -> Result<u8, BodyFault>
        ensures { Takes take_byte self.old self.new result }
    {
        match self.rest.split_first() {
            Some((byte, rest)) => {
                self.rest = rest;
                Ok(*byte)
            }
            None => Err(BodyFault::InvalidParameters),
        }
    }

    /// Reads a number of two bytes, the most significant first.
    pub fn short(&mut self) -> Result<u16, BodyFault>
        ensures { Takes take_short self.old self.new result }
    {
        let high = self.byte()?;
        let low = self.byte()?;
        Ok(u16::from_be_bytes([high, low]))
    }

    /// Reads a number of four bytes, the most significant first.
    pub fn long(&mut self) -> Result<u32, BodyFault>
        ensures { Takes take_long self.old self.new result }
    {
        let high = self.short()?;
        let low = self.short()?;
        Ok(u32::from(high) * 65536 + u32::from(low))
    }

    /// Reads `count` bytes, which are one field. `InvalidParameters`: fewer than `count` bytes are
    /// left.
    pub fn bytes(&mut self, count: usize) -> Result<&'a [u8], BodyFault>
        ensures ok { IfOk result (λ bytes. take_bytes count self.old ≡ Ok (bytes.now, self.new)) }
        ensures len { IfOk result (λ bytes. length bytes.now ≡ count) }
        ensures err { IfErr result (λ e. take_bytes count self.old ≡ Err e) }
    {
        match self.rest.split_at_checked(count) {
            Some((bytes, rest)) => {
                self.rest = rest;
                Ok(bytes)
            }
            None => Err(BodyFault::InvalidParameters),
        }
    }

    /// Returns all remaining bytes, possibly none, as one field.
    pub fn rest(&self) -> &'a [u8]
        ensures { result.now ≡ self.now }
    {
        self.rest
    }

    /// Checks that no byte follows the last field. `InvalidParameters`: bytes follow.
    pub fn end(&self) -> Result<(), BodyFault>
        ensures ok { OnOk result ((request : RequestValue) → at_end request self.now ≡ Ok request) }
        ensures err { IfErr result (λ e. (request : RequestValue) →
            at_end request self.now ≡ Err e) }
    {
        if self.rest.is_empty() {
            Ok(())
        } else {
            Err(BodyFault::InvalidParameters)
        }
    }
}

/// A value that is one field, or several fields, of a body.
pub trait Field: Drop {
    /// Reads the value from the front of a body.
    ghost grammar: { List ℕ → FieldResult Self };

    /// Reads the value.
    fn take(fields: &mut Fields) -> Result<Self, BodyFault>
        ensures { Takes grammar fields.old fields.new result };
}

/// The name of an object, or the number of a node.
impl Field for u32 {
    ghost grammar = { take_long };

    fn take(fields: &mut Fields) -> Result<u32, BodyFault> {
        fields.long()
    }
}
