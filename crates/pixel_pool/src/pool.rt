//! The blocks of all formats.
ghost use Rattle.std.specs.Prelude.{◌≡◌, ◌≤◌, ◌+◌, length, pos, replicate};
ghost use Rattle.std.specs.Prelude.{IfOk, IsOk, OnErr, OnOk};
ghost use Rattle.vx_base.specs.Picture.{values, samples_format};
ghost use Rattle.pixel_pool.specs.Block.{HasAllSamples};
ghost use Rattle.pixel_pool.specs.Classes.{class_count};
ghost use Rattle.pixel_pool.specs.Free.{HasBlockFor, IsTrim, IsFewer, GetsFree};
ghost use Rattle.pixel_pool.specs.Free.{LosesLargestFirst, LosesNoMore, free_count};
ghost use Rattle.pixel_pool.specs.Pool.{lent_of, free_of, blocks_of, capacity_of, HasLent};
ghost use Rattle.pixel_pool.specs.Pool.{KeepsMemory};
ghost use Rattle.pixel_pool.specs.Pool.{LendsBlock, GetsBack, KeepsLent, KeepsBlockCounts};
ghost use Rattle.pixel_pool.specs.Pool.{KeepsOtherFree};

use crate::block::Block;
use crate::shelf::Shelf;
use std::alloc::{AllocError, Global};
use vx_base::{Format, Samples};

/// The blocks of each format, lent and free.
#[derive(Drop)]
pub struct Pool {
    u8s: Shelf<u8>,
    s16s: Shelf<i16>,
    u32s: Shelf<u32>,
}

impl Pool {
    ghost use Rattle.vx_base.specs.declared.format.Format.{Format};

    /// Returns a pool without blocks. Allocates nothing.
    pub fn new(alloc: Global) -> Pool
        ensures lent { (format : Format) → lent_of result format ≡ 0 }
        ensures free { (format : Format) → free_of result format ≡ replicate class_count 0 }
    {
        Pool {
            u8s: Shelf::new(alloc),
            s16s: Shelf::new(alloc),
            u32s: Shelf::new(alloc),
        }
    }

    /// Lends a block of `count` samples of a format; the samples may have any value. An error means
    /// that there is no memory for a new block; the pool is then unchanged.
    ///
    /// The smallest free block with at least `count` samples is used; if there is none, a block is
    /// added. A free block with a capacity above 1,024 and above `2 * count + 1` samples is shrunk
    /// before it is lent, unless the system refuses. The capacity of a new block is at most an
    /// eighth above `count`.
    pub fn take(&mut self, format: Format, count: usize) -> Result<Block, AllocError>
        ensures format { IfOk result (λ taken. samples_format taken.samples ≡ format) }
        ensures count { IfOk result (λ taken. length (values taken.samples) ≡ count) }
        ensures whole { IfOk result HasAllSamples }
        ensures memory { IfOk result KeepsMemory }
        ensures lends { OnOk result (LendsBlock format count self.old self.new) }
        ensures err { OnErr result (self.new ≡ self.old) }

        // If a free block of the format has `count` samples, `take` can't fail.
        ensures fits { HasBlockFor (free_of self.old format) count → IsOk result }
    {
        match format {
            Format::U8 => Ok(Block::new(Samples::U8(self.u8s.take(0, count)?))),
            Format::S16 => Ok(Block::new(Samples::S16(self.s16s.take(0, count)?))),
            Format::U32 => Ok(Block::new(Samples::U32(self.u32s.take(0, count)?))),
        }
    }

    /// Lends a block as `take` does, with all samples 0.
    pub fn take_zeros(&mut self, format: Format, count: usize) -> Result<Block, AllocError>
        ensures format { IfOk result (λ taken. samples_format taken.samples ≡ format) }
        ensures zero { IfOk result (λ taken. values taken.samples ≡ replicate count (pos 0)) }
        ensures whole { IfOk result HasAllSamples }
        ensures lends { OnOk result (LendsBlock format count self.old self.new) }
        ensures err { OnErr result (self.new ≡ self.old) }
        ensures fits { HasBlockFor (free_of self.old format) count → IsOk result }
    {
        let mut block = self.take(format, count)?;
        let mut samples = block.lift();
        clear(&mut samples);
        block.put(samples);
        Ok(block)
    }

    /// Takes back a block that the pool lent, and adds it to the free blocks. Its samples are
    /// unchanged. Allocates and drops nothing.
    pub fn give_back(&mut self, block: Block)
        requires { HasLent self.old (samples_format block.samples) }
        ensures gets_back { GetsBack self.old self.new (samples_format block.samples) }
        ensures blocks { KeepsBlockCounts self.old self.new }
        ensures free { GetsFree (capacity_of block.samples)
            (free_of self.old (samples_format block.samples))
            (free_of self.new (samples_format block.samples)) }
        ensures samples { KeepsMemory block → block.count ≤ 67108864 →
            HasBlockFor (free_of self.new (samples_format block.samples)) block.count }
        ensures other_free { KeepsOtherFree self.old self.new (samples_format block.samples) }
    {
        match block.into_samples() {
            Samples::U8(samples) => self.u8s.give_back(samples),
            Samples::S16(samples) => self.s16s.give_back(samples),
            Samples::U32(samples) => self.u32s.give_back(samples),
        }
    }

    /// Drops free blocks, the largest first, until each format has at most 16,384 of them, with a
    /// total capacity of at most 67,108,864 samples.
    pub fn trim(&mut self)
        ensures lent { KeepsLent self.old self.new }
        ensures trim { (format : Format) → IsTrim (free_of self.new format) }
        ensures fewer { (format : Format) →
            IsFewer (free_of self.new format) (free_of self.old format) }
        ensures kept { (format : Format) → IsTrim (free_of self.old format) →
            free_of self.new format ≡ free_of self.old format }
        ensures largest { (format : Format) →
            LosesLargestFirst (free_of self.old format) (free_of self.new format) }
        ensures no_more { (format : Format) →
            LosesNoMore (free_of self.old format) (free_of self.new format) }
    {
        self.u8s.trim();
        self.s16s.trim();
        self.u32s.trim();
    }

    /// Drops all free blocks. Their memory returns to the system, so that a failed allocation can
    /// be tried again.
    pub fn drop_free(&mut self)
        ensures lent { KeepsLent self.old self.new }
        ensures free { (format : Format) → free_of self.new format ≡ replicate class_count 0 }
    {
        self.u8s.drop_free();
        self.s16s.drop_free();
        self.u32s.drop_free();
    }

    /// Returns the number of lent blocks of a format.
    pub fn lent(&self, format: Format) -> usize
        ensures { result ≡ lent_of self.now format }
    {
        match format {
            Format::U8 => self.u8s.lent(),
            Format::S16 => self.s16s.lent(),
            Format::U32 => self.u32s.lent(),
        }
    }

    /// Returns the number of blocks of a format, lent and free.
    pub fn blocks(&self, format: Format) -> usize
        ensures { result ≡ blocks_of self.now format }
    {
        match format {
            Format::U8 => self.u8s.blocks(),
            Format::S16 => self.s16s.blocks(),
            Format::U32 => self.u32s.blocks(),
        }
    }

    /// Returns the number of free blocks of a format.
    pub fn free(&self, format: Format) -> usize
        ensures { result ≡ free_count (free_of self.now format) }
    {
        match format {
            Format::U8 => self.u8s.free(),
            Format::S16 => self.s16s.free(),
            Format::U32 => self.u32s.free(),
        }
    }
}

/// Sets each sample to 0.
fn clear(samples: &mut Samples)
    ensures format { samples_format samples.new ≡ samples_format samples.old }
    ensures zero { values samples.new ≡ replicate (length (values samples.old)) (pos 0) }
{
    match samples {
        Samples::U8(samples) => samples.fill(0),
        Samples::S16(samples) => samples.fill(0),
        Samples::U32(samples) => samples.fill(0),
    }
}
