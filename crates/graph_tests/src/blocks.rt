//! Blocks of a pool: their reuse, and their capacities.
ghost use Rattle.std.specs.Prelude.{◌≡◌};
ghost use Rattle.vx_base.specs.Picture.{samples_format};
ghost use Rattle.pixel_pool.specs.Pool.{HasLent};

use pixel_pool::laws::{taken_again, taken_and_given_back};
use pixel_pool::{Block, Pool};
use std::test::Fail;
use vx_base::{Format, Samples};

/// Gives a U8 block back and returns its capacity in samples.
fn give_back(pool: &mut Pool, block: Block) -> usize
    requires { HasLent pool.old (samples_format block.samples) }
{
    let capacity = match block.samples() {
        Samples::U8(samples) => samples.capacity(),
        _ => 0,
    };
    pool.give_back(block);
    capacity
}

#[test]
fn each_format_has_blocks(rt: HostRuntime) -> Result<(), Fail> {
    let mut pool = Pool::new(rt.alloc());
    for format in [Format::U8, Format::S16, Format::U32] {
        let samples = pool.take(format, 12)?;
        assert!(rt; (samples.format(), samples.samples().len()) == (format, 12));
        assert!(rt; (pool.lent(format), pool.blocks(format), pool.free(format)) == (1, 1, 0));
        pool.give_back(samples);
        assert!(rt; (pool.lent(format), pool.blocks(format), pool.free(format)) == (0, 1, 1));
    }
    Ok(())
}

#[test]
fn a_block_is_taken_again(rt: HostRuntime) -> Result<(), Fail> {
    let mut pool = Pool::new(rt.alloc());
    taken_and_given_back(&mut pool, Format::U8, 49)?;
    assert!(rt; pool.blocks(Format::U8) == 1);
    let again = taken_again(&mut pool, Format::U8, 49)?;
    assert!(rt; (again.samples().len(), pool.blocks(Format::U8)) == (49, 1));
    Ok(())
}

#[test]
fn what_is_taken_as_zeros_is_cleared(rt: HostRuntime) -> Result<(), Fail> {
    let mut pool = Pool::new(rt.alloc());
    let mut block = pool.take(Format::U8, 3)?;
    let mut samples = block.lift();
    if let Samples::U8(samples) = &mut samples {
        samples.fill(7);
    }
    block.put(samples);
    pool.give_back(block);
    let as_it_is = pool.take(Format::U8, 3)?;
    assert!(rt; *as_it_is.samples() == Samples::U8(vec![in rt.alloc(); 7; 3]?));
    pool.give_back(as_it_is);
    let cleared = pool.take_zeros(Format::U8, 3)?;
    assert!(rt; *cleared.samples() == Samples::U8(vec![in rt.alloc(); 0; 3]?));
    Ok(())
}

#[test]
fn the_smallest_that_fits_is_taken(rt: HostRuntime) -> Result<(), Fail> {
    let mut pool = Pool::new(rt.alloc());
    let first = pool.take(Format::U8, 100)?;
    let second = pool.take(Format::U8, 100)?;
    pool.give_back(first);
    pool.give_back(second);
    let grown = pool.take(Format::U8, 500)?;
    assert!(rt; (pool.blocks(Format::U8), pool.free(Format::U8)) == (3, 2));
    assert!(rt; give_back(&mut pool, grown) == 512);
    let small = pool.take(Format::U8, 60)?;
    assert!(rt; give_back(&mut pool, small) == 104);
    Ok(())
}

#[test]
fn few_samples_keep_little_memory(rt: HostRuntime) -> Result<(), Fail> {
    for (first, then, kept) in [
        (1_000_000, 1, 1),
        (1_000_000, 500_000, 524_288),
        (1_000_000, 524_288, 1_048_576),
        (1_025, 575, 576),
        (1_025, 576, 1_152),
        (1_024, 1, 1_024),
    ] {
        let mut pool = Pool::new(rt.alloc());
        taken_and_given_back(&mut pool, Format::U8, first)?;
        let samples = pool.take(Format::U8, then)?;
        assert!(rt; give_back(&mut pool, samples) == kept);
    }
    Ok(())
}

#[test]
fn sizes_that_rise_keep_one_block(rt: HostRuntime) -> Result<(), Fail> {
    let mut pool = Pool::new(rt.alloc());
    for count in 10_000..10_100 {
        taken_and_given_back(&mut pool, Format::U32, count)?;
    }
    assert!(rt; pool.blocks(Format::U32) == 1);
    Ok(())
}

#[test]
fn large_blocks_and_small_ones_are_used_again(rt: HostRuntime) -> Result<(), Fail> {
    let mut pool = Pool::new(rt.alloc());
    for _ in 0..3 {
        taken_and_given_back(&mut pool, Format::U8, 2_000_000)?;
        taken_and_given_back(&mut pool, Format::U8, 60_000)?;
    }
    assert!(rt; pool.blocks(Format::U8) == 2);
    Ok(())
}

#[test]
fn free_blocks_are_given_up(rt: HostRuntime) -> Result<(), Fail> {
    let mut pool = Pool::new(rt.alloc());
    let lent = pool.take(Format::S16, 12)?;
    taken_and_given_back(&mut pool, Format::S16, 50)?;
    assert!(rt; (pool.blocks(Format::S16), pool.free(Format::S16)) == (2, 1));
    pool.drop_free();
    assert!(rt; (pool.lent(Format::S16), pool.free(Format::S16)) == (1, 0));
    pool.give_back(lent);
    assert!(rt; (pool.lent(Format::S16), pool.free(Format::S16)) == (0, 1));
    Ok(())
}

#[test]
fn the_capacity_of_free_blocks_is_trimmed(rt: HostRuntime) -> Result<(), Fail> {
    for (count, kept) in [(33_554_432, 2), (33_554_433, 1)] {
        let mut pool = Pool::new(rt.alloc());
        let first = pool.take(Format::U8, count)?;
        let second = pool.take(Format::U8, count)?;
        pool.give_back(first);
        pool.give_back(second);
        assert!(rt; (pool.lent(Format::U8), pool.free(Format::U8)) == (0, 2));
        pool.trim();
        assert!(rt; (pool.lent(Format::U8), pool.free(Format::U8)) == (0, kept));
    }
    Ok(())
}
