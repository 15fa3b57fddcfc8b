//! Lent blocks.
ghost use Rattle.std.specs.Prelude.{◌≡◌, [], length};
ghost use Rattle.vx_base.specs.Picture.{values, samples_format};
ghost use Rattle.pixel_pool.specs.Block.{IsAllOrNone, HasAllSamples};

use std::marker::Model;
use vx_base::{Format, Samples};

/// A block that a pool has lent, with its samples and their number, which never changes. Only a
/// pool makes blocks, and a block can't be copied, so it has one owner. The owner gives it back to
/// the pool that lent it.
#[derive(Drop)]
pub struct Block {
    samples: Samples,
    count: usize,
}

impl Model for Block {
    ghost use Rattle.std.specs.Prelude.{length};
    ghost use Rattle.vx_base.specs.Picture.{values};
    ghost use Rattle.pixel_pool.specs.Block.{BlockValue, IsAllOrNone};

    ghost Value = { BlockValue };

    ghost view = { λ b. record { samples = b.samples; count = b.count } };

    ghost invariant = { λ b. IsAllOrNone b.count (length (values b.samples)) };
}

impl Block {
    /// Returns a lent block with these samples.
    pub(crate) fn new(samples: Samples) -> Block
        ensures samples { result.samples ≡ samples }
        ensures whole { HasAllSamples result }
    {
        let count = samples.len();
        Block { samples, count }
    }

    /// Returns the samples of a block that is given back.
    pub(crate) fn into_samples(self) -> Samples
        ensures { result ≡ self.samples }
    {
        self.samples
    }

    /// Returns the format of the block's samples, even while `lift` has taken them out.
    pub fn format(&self) -> Format
        ensures { result ≡ samples_format self.now.samples }
    {
        self.samples.format()
    }

    /// Returns the block's samples. The block has none between `lift` and `put`.
    pub fn samples(&self) -> &Samples
        ensures { result.now ≡ self.now.samples }
    {
        &self.samples
    }

    /// Takes the samples out of the block, so that they can be written while other blocks are read;
    /// `put` puts them back. Allocates nothing.
    pub fn lift(&mut self) -> Samples
        ensures format { samples_format result ≡ samples_format self.old.samples }
        ensures value { values result ≡ values self.old.samples }
        ensures size { IsAllOrNone self.old.count (length (values result)) }
        ensures left_format { samples_format self.new.samples ≡ samples_format self.old.samples }
        ensures left { values self.new.samples ≡ [] }
        ensures count { self.new.count ≡ self.old.count }
    {
        self.samples.take()
    }

    /// Puts samples into the block, after `lift`. They must have the format and the number of the
    /// samples that the pool lent. There are none if the block's samples had been lifted before.
    pub fn put(&mut self, samples: Samples)
        requires format { samples_format samples ≡ samples_format self.old.samples }
        requires size { IsAllOrNone self.old.count (length (values samples)) }
        ensures samples { self.new.samples ≡ samples }
        ensures count { self.new.count ≡ self.old.count }
    {
        self.samples = samples;
    }
}
