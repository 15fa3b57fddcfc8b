//! Stores of lanes in two halves, and stores of bytes that are computed one by one. The half at the
//! lower address is stored first.
//!
//! On processors with registers of 16 bytes, the compiler would otherwise store the second half of
//! 32 bytes before the first. If a row doesn't begin at a cache line, stores in that order
//! alternate between two lines. This is slower when the row isn't in the first-level cache.
ghost use Rattle.std.specs.Prelude.{◌≡◌, pos, map, length};

use crate::items::map_items;
use crate::kernel::OfItem;
use std::simd::prelude::*;
use vx_base::prove_shorts;

/// Writes the kernel's results for 16 bytes.
fn store_sixteen<K: OfItem<u8, u8>>(kernel: &K, row: &[u8], out: &mut [u8])
    requires row_len { length row.now ≡ 16 }
    requires out_len { length out.old ≡ 16 }
    ensures { map pos out.new ≡ map (K.formula kernel.now) (map pos row.now) }
{
    let mut items = [0; 16];
    map_items(kernel, row, &mut items);
    u8x16::from_array(items).copy_to_slice(out);
}

/// Writes the kernel's results for a block of 32 bytes. This function is for kernels without vector
/// instructions. It stores 16 bytes together, which is faster than storing them one by one.
#[tactic(auto, using(crate::proofs::BlockLaws::parts))]
pub fn store_bytes<K: OfItem<u8, u8>>(kernel: &K, row: &[u8], out: &mut [u8])
    requires row_len { length row.now ≡ 32 }
    requires out_len { length out.old ≡ 32 }
    ensures { map pos out.new ≡ map (K.formula kernel.now) (map pos row.now) }
{
    let (row, row_rest) = row.split_at(16);
    let (out, out_rest) = out.split_at_mut(16);
    store_sixteen(kernel, row, out);
    store_sixteen(kernel, row_rest, out_rest);
}

/// Stores 32 bytes: the first half, then the second.
#[inline(always)]
pub fn store_32_bytes(items: [u8; 32], out: &mut [u8])
    requires { length out.old ≡ 32 }
    ensures { out.new ≡ items }
{
    let lanes = u8x32::from_array(items);
    let (out, out_rest) = out.split_at_mut(16);
    lanes.extract::<0, 16>().copy_to_slice(out);
    lanes.extract::<16, 16>().copy_to_slice(out_rest);
}

/// Stores 16 numbers of 16 bits: the first half, then the second.
#[inline(always)]
pub fn store_16_shorts(items: [i16; 16], out: &mut [i16])
    requires { length out.old ≡ 16 }
    ensures { out.new ≡ items }
{
    prove_shorts(&items);
    let lanes = i16x16::from_array(items);
    let (out, out_rest) = out.split_at_mut(8);
    lanes.extract::<0, 8>().copy_to_slice(out);
    lanes.extract::<8, 8>().copy_to_slice(out_rest);
}

/// Stores 32 numbers of 16 bits, quarter by quarter.
#[inline(always)]
pub fn store_32_shorts(items: [i16; 32], out: &mut [i16])
    requires { length out.old ≡ 32 }
    ensures { out.new ≡ items }
{
    prove_shorts(&items);
    let lanes = i16x32::from_array(items);
    let (out, out_rest) = out.split_at_mut(16);
    store_16_shorts(lanes.extract::<0, 16>().to_array(), out);
    store_16_shorts(lanes.extract::<16, 16>().to_array(), out_rest);
}
