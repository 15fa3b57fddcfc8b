//! Lookup tables.
ghost use Rattle.std.specs.Prelude.{◌≡◌, IsTrue, IfOk, length, Some, None, if◌then◌else◌};
ghost use Rattle.vx_base.specs.Sample.{range_size};
ghost use Rattle.vx_base.specs.Lut.{is_full};
ghost use Rattle.vx_base.specs.Picture.{values, samples_format};

use crate::format::Format;
use crate::samples::Samples;
use std::alloc::{AllocError, Global};
use std::marker::Model;

/// A lookup table of U8 or S16 samples (OpenVX 1.3, `vx_lut`): 256 or 65,536 entries, in the order
/// of the sample values.
#[derive(Debug, Drop)]
pub struct Lut {
    entries: Samples,
}

impl Model for Lut {
    ghost use Rattle.vx_base.specs.Lut.{LutValue, IsLut};
    ghost use Rattle.vx_base.specs.Picture.{values, samples_format};

    ghost Value = { LutValue };

    ghost view = { λ t. record { format = samples_format t.entries; entries = values t.entries } };

    ghost invariant = { λ t. IsLut (record {
      format = samples_format t.entries;
      entries =
          values t.entries;
    }) };
}

impl Lut {
    ghost use Rattle.vx_base.specs.Lut.{LutValue, IsLut};

    /// Returns the table with these entries if they are 256 U8 entries or 65,536 S16 entries.
    /// Otherwise returns `None`.
    pub fn new(entries: Samples) -> Option<Lut>
        ensures { result ≡ (if is_full (samples_format entries) (length (values entries)) then Some
            (record { format = samples_format entries; entries = values entries }) else None) }
    {
        if entries.format() == Format::U32 || entries.len() != Lut::entry_count(entries.format()) {
            return None;
        }
        Some(Lut::of(entries))
    }

    /// Returns the table with these entries. The caller must give 256 U8 entries or 65,536 S16
    /// entries.
    pub fn of(entries: Samples) -> Lut
        requires { IsTrue (is_full (samples_format entries) (length (values entries))) }
        ensures { result ≡ record { format = samples_format entries; entries = values entries } }
    {
        entries.prove_samples();
        Lut { entries }
    }

    /// Returns the number of entries of a table of this format: one for each sample value.
    pub fn entry_count(format: Format) -> usize
        ensures { result ≡ range_size format }
    {
        match format {
            Format::U8 => 256,
            Format::S16 => 65_536,
            Format::U32 => 4_294_967_296,
        }
    }

    /// Returns a copy of the table, or an error if there is no memory for it.
    pub fn copy(&self, alloc: Global) -> Result<Lut, AllocError>
        ensures value { IfOk result (λ made. made ≡ self.now) }
        ensures table { IfOk result IsLut }
    {
        Ok(Lut {
            entries: self.entries.copy(alloc)?,
        })
    }

    /// Returns the format of the entries, which is also the format of the samples that are looked
    /// up.
    pub fn format(&self) -> Format
        ensures value { result ≡ self.now.format }
        ensures table { IsLut self.now }
    {
        self.entries.format()
    }

    /// Returns the entries in the order of the sample values.
    pub fn entries(&self) -> &Samples
        ensures format { samples_format result.now ≡ self.now.format }
        ensures value { values result.now ≡ self.now.entries }
        ensures table { IsLut self.now }
    {
        &self.entries
    }
}
