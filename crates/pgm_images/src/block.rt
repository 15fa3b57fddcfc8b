//! Reads many numbers of a text at a time, with SIMD lanes.
//!
//! A number's length is known only after the number is read, and the next number begins at its end.
//! So a loop that reads number by number can't start on the next number early. But the number that
//! would begin at a given position depends only on the bytes there. `ShortNumbers` computes this
//! number for 64 positions in parallel, and a bit mask of the positions where a number does begin.
//! Going through the bits of the mask gives the numbers in order.
ghost use Rattle.std.specs.Prelude.{◌≡◌, ◌≤◌, ◌<◌, ℕ, List, Option, Bool, true, length, drop};
ghost use Rattle.std.specs.Prelude.{replicate};
ghost use Rattle.pgm_images.specs.Marks.{FindNumbers, AreBegins, IsBlock};
ghost use Rattle.pgm_images.specs.Raster.{PlainUpTo};

use crate::marks::short_number;
use crate::text_sample::TextSample;
use std::simd::prelude::*;

/// The number of positions of a block.
const PLACES: usize = 64;

/// For each position of a block, the number that begins there and its length in bytes. The length
/// counts a whitespace byte and one to three digits; it is 0 where no number begins.
#[derive(Drop)]
pub struct ShortNumbers {
    numbers: [u8; PLACES],
    bytes: [u8; PLACES],
}

impl ShortNumbers {
    /// Returns a block in which no number begins.
    pub fn new() -> ShortNumbers
        ensures { result.bytes ≡ replicate 64 0 }
    {
        ShortNumbers {
            numbers: [0; PLACES],
            bytes: [0; PLACES],
        }
    }

    /// Fills the block from the first 64 positions of a text and the four bytes after them. Returns
    /// whether these positions have only whitespace and short numbers up to the maxval. Digits at
    /// the front of the text aren't checked.
    fn look(&mut self, maxval: u8, text: &[u8]) -> bool
        requires { 68 ≤ length text.now }
        ensures { result ≡ true → FindNumbers maxval 64 self.new.numbers self.new.bytes text.now }
    {
        let mut others = false;
        for i in 0..PLACES {
            let (number, bytes, is_other) = short_number(
                maxval,
                text[i],
                text[i + 1],
                text[i + 2],
                text[i + 3],
                text[i + 4],
            );
            self.numbers[i] = number;
            self.bytes[i] = bytes;
            others = others | is_other;
        }
        !others
    }

    /// Returns a mask of 64 bits: bit k is 1 exactly if a number begins at position k.
    #[tactic(auto, using(crate::proofs::BlockLemmas::any_bit))]
    fn begins(&self) -> u64
        ensures { AreBegins result self.now.bytes }
    {
        u8x64::from_array(self.bytes)
            .simd_ne(u8x64::splat(0))
            .to_bitmask()
    }

    /// Fills the block from the front of a text, and returns the mask of the positions where
    /// numbers begin. A mask of 0 says nothing about the text: its numbers must be read one by one.
    pub fn renew(&mut self, maxval: u16, text: &[u8]) -> u64
        ensures { 0 < result → IsBlock maxval self.new.numbers self.new.bytes result text.now }
    {
        if maxval > 255 || text.len() < PLACES + 4 || text[0].is_ascii_digit() {
            return 0;
        }
        if self.look(maxval as u8, text) {
            self.begins()
        } else {
            0
        }
    }

    /// Writes the block's numbers over the samples from `index` on, until the numbers or the
    /// samples end. Returns the offset in the text at which the last written number ends, and the
    /// index of the next sample.
    pub fn fill<T: TextSample>(
        &self,
        maxval: u16,
        begins: u64,
        text: &[u8],
        samples: &mut [T],
        index: usize,
    ) -> (usize, usize)
        requires some { 0 < begins }
        requires block { IsBlock maxval self.now.numbers self.now.bytes begins text.now }
        requires limit { maxval ≤ T.limit }
        requires maxval { maxval ≤ 32767 }
        requires within { index < length samples.old }
        ensures filled { (above : Bool) (whole : Option (List ℕ)) →
            PlainUpTo T.value maxval index above samples.old text.now whole →
            PlainUpTo T.value maxval result.1 above samples.new (drop result.0 text.now) whole }
        ensures end { result.0 ≤ length text.now }
        ensures more { index < result.1 }
        ensures within { result.1 ≤ length samples.new }
        ensures same { length samples.new ≡ length samples.old }
    {
        let (mut left, mut end, mut next) = (begins, 0, index);
        while left != 0 && next < samples.len() {
            let place = left.trailing_zeros() as usize;
            samples[next] = T::of_number(u16::from(self.numbers[place]));
            end = place + usize::from(self.bytes[place]);
            left &= left - 1;
            next += 1;
        }
        (end, next)
    }
}
