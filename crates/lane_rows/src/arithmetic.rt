//! Kernels of two items, for the combinations of U8 and S16 that OpenVX allows.
#![tactic(auto, using(crate::proofs::ShortLaws::read_bits))]

ghost use Rattle.std.specs.Prelude.{◌≡◌, ℤ, pos, map, length, FitsSigned};
ghost use Rattle.std.specs.Int.{w16};
ghost use Rattle.std.specs.Simd.Lanes.{zip2, Each1};
ghost use Rattle.vx_base.specs.declared.format.Format.{Format};
ghost use Rattle.vx_base.specs.declared.format.Format.TheVariants.{U8, S16};

use crate::item::{Short, bytes_of};
use crate::kernel::OfPair;
use crate::stores::{store_16_shorts, store_32_bytes};
use std::simd::prelude::*;

/// A function of two U8 or S16 items.
pub trait Arithmetic {
    /// The result in a format, from the values of the two items.
    ghost formula: { Self → Format → ℤ → ℤ → ℤ };

    /// Returns the U8 result for two U8 items.
    fn of_bytes(&self, a: u8, b: u8) -> u8
        ensures { pos result ≡ formula self.now U8 (pos a) (pos b) };

    /// Returns the S16 result for two S16 items. The caller widens U8 items first.
    fn of_shorts(&self, a: i16, b: i16) -> i16
        ensures { result ≡ formula self.now S16 a b };

    /// Returns the U8 results for 32 pairs.
    fn bytes(&self, a: u8x32, b: u8x32) -> u8x32
        ensures { map pos result ≡ zip2 (formula self.now U8) (map pos a) (map pos b) };

    /// Returns the S16 results for 16 pairs.
    fn shorts(&self, a: i16x16, b: i16x16) -> i16x16
        requires a_len { length a ≡ 16 }
        requires b_len { length b ≡ 16 }
        requires a_fits { Each1 (FitsSigned w16) a }
        requires b_fits { Each1 (FitsSigned w16) b }
        ensures value { result ≡ zip2 (formula self.now S16) a b }
        ensures fits { Each1 (FitsSigned w16) result };
}

/// The kernel of an arithmetic function. It maps two U8 rows to a U8 row. It also maps two rows,
/// each U8 or S16, to an S16 row.
#[derive(Drop)]
pub struct OfSamples<'a, K>(pub &'a K);

impl<K: Arithmetic> OfPair<u8, u8, u8> for OfSamples<'_, K> {
    ghost formula = { λ s. K.formula s.0.now U8 };

    fn item(&self, a: u8, b: u8) -> u8 {
        self.0.of_bytes(a, b)
    }

    fn lanes(&self, first: &[u8], second: &[u8], out: &mut [u8]) {
        let (a, b) = (bytes_of(first), bytes_of(second));
        store_32_bytes(self.0.bytes(a, b).to_array(), out);
    }
}

/// Writes the S16 results for 16 items of each row.
fn write_sixteen<A: Short, B: Short, K: Arithmetic>(
    kernel: &K,
    first: &[A],
    second: &[B],
    out: &mut [i16],
)
    requires first_len { length first.now ≡ 16 }
    requires second_len { length second.now ≡ 16 }
    requires out_len { length out.old ≡ 16 }
    ensures { out.new ≡ zip2 (K.formula kernel.now S16) (map A.value first.now)
        (map B.value second.now) }
{
    let (a, b) = (A::shorts(first), B::shorts(second));
    store_16_shorts(kernel.shorts(a, b).to_array(), out);
}

impl<A: Short, B: Short, K: Arithmetic> OfPair<A, B, i16> for OfSamples<'_, K> {
    ghost formula = { λ s. K.formula s.0.now S16 };

    fn item(&self, a: A, b: B) -> i16 {
        self.0.of_shorts(a.short(), b.short())
    }

    #[tactic(auto, using(crate::proofs::BlockLaws::parts))]
    fn lanes(&self, first: &[A], second: &[B], out: &mut [i16]) {
        let (first, first_rest) = first.split_at(16);
        let (second, second_rest) = second.split_at(16);
        let (out, out_rest) = out.split_at_mut(16);
        write_sixteen(self.0, first, second, out);
        write_sixteen(self.0, first_rest, second_rest, out_rest);
    }
}
