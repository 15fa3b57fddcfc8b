//! Minimum, maximum and median of 3 x 3 windows.
ghost use Rattle.std.specs.Prelude.{◌≡◌, ℕ, ℤ, pos, min, max, map, length};
ghost use Rattle.std.specs.Prelude.{List, [], ◌∷◌};
ghost use Rattle.std.specs.Int.{int_min, int_max};
ghost use Rattle.std.specs.Simd.Lanes.{zip2};
ghost use Rattle.vx_base.specs.Image.{run};
ghost use Rattle.vx_base.specs.Window.{least_of, greatest_of, median};
ghost use Rattle.lane_rows.specs.Windows.{nine_at, window_count};
ghost use Rattle.lane_rows.specs.Ranks.{chosen_of_nine, middle_of_three, middle_of_nine};
ghost use Rattle.lane_rows.specs.RankLaws.{least_is_least, greatest_is_greatest};
ghost use Rattle.lane_rows.specs.RankLaws.{lesser_number, greater_number};
ghost use Rattle.lane_rows.specs.Threes.{chosen_at};

use crate::columns::OfColumn;
use crate::indexed::{Indexed, write_indexed};
use crate::nine::{OfNine, ThreeItems, ThreeLanes, three_lanes, write_nine};
use crate::nine_rows::{Nine, Three};
use crate::stores::store_32_bytes;
use std::marker::PhantomData;
use std::simd::prelude::*;

/// A choice of the smaller or of the greater of two samples. The choice from three or nine samples
/// compares two at a time.
trait Choice {
    ghost choice: { ℕ → ℕ → ℕ };

    /// The same choice between the samples' values.
    ghost of_numbers: { ℤ → ℤ → ℤ };

    /// The choice from nine values.
    ghost of_nine: { List ℤ → ℤ };

    fn of_two(a: u8, b: u8) -> u8
        ensures { result ≡ choice a b };

    fn of_two_lanes(a: u8x32, b: u8x32) -> u8x32
        ensures { result ≡ zip2 choice a b };

    ghost same: { (a b : ℕ) → pos (choice a b) ≡ of_numbers (pos a) (pos b) };

    ghost is_of_nine: { (a b c d e f g h i : ℕ) → pos (chosen_of_nine choice a b c d e f g h i)
        ≡ of_nine (pos a ∷ pos b ∷ pos c ∷ pos d ∷ pos e ∷ pos f ∷ pos g ∷ pos h ∷ pos i ∷ []) };
}

/// The least sample of a window.
#[derive(Drop)]
pub struct Least;

impl Choice for Least {
    ghost choice = { min };

    ghost of_numbers = { int_min };

    ghost of_nine = { least_of };

    fn of_two(a: u8, b: u8) -> u8 {
        a.min(b)
    }

    #[tactic(auto, using(crate::proofs::ByteLaws::rank_lanes))]
    fn of_two_lanes(a: u8x32, b: u8x32) -> u8x32 {
        a.simd_min(b)
    }

    ghost same = { lesser_number };

    ghost is_of_nine = { least_is_least };
}

/// The greatest sample of a window.
#[derive(Drop)]
pub struct Greatest;

impl Choice for Greatest {
    ghost choice = { max };

    ghost of_numbers = { int_max };

    ghost of_nine = { greatest_of };

    fn of_two(a: u8, b: u8) -> u8 {
        a.max(b)
    }

    #[tactic(auto, using(crate::proofs::ByteLaws::rank_lanes))]
    fn of_two_lanes(a: u8x32, b: u8x32) -> u8x32 {
        a.simd_max(b)
    }

    ghost same = { greater_number };

    ghost is_of_nine = { greatest_is_greatest };
}

/// Returns the sample chosen from three.
fn chosen<C: Choice>(items: ThreeItems) -> u8
    ensures { result ≡ C.choice (C.choice items.0 items.1) items.2 }
{
    C::of_two(C::of_two(items.0, items.1), items.2)
}

fn chosen_lanes<C: Choice>(items: ThreeLanes) -> u8x32
    ensures { result ≡ zip2 C.choice (zip2 C.choice items.0 items.1) items.2 }
{
    C::of_two_lanes(C::of_two_lanes(items.0, items.1), items.2)
}

impl<C: Choice> OfNine<u8> for C {
    ghost formula = { λ _. C.of_nine };

    fn item(&self, above: ThreeItems, here: ThreeItems, below: ThreeItems) -> u8 {
        chosen::<C>((chosen::<C>(above), chosen::<C>(here), chosen::<C>(below)))
    }

    fn lanes(&self, nine: &Nine<'_>, index: usize, out: &mut [u8]) {
        let above = chosen_lanes::<C>(three_lanes(&nine.above, index));
        let here = chosen_lanes::<C>(three_lanes(&nine.here, index));
        let below = chosen_lanes::<C>(three_lanes(&nine.below, index));
        store_32_bytes(chosen_lanes::<C>((above, here, below)).to_array(), out);
    }
}

/// The sample chosen from three rows, at each index.
#[derive(Drop)]
struct ChosenAt<'a, 'b, C> {
    choice: PhantomData<C>,
    rows: &'a Three<'b>,
}

impl<C: Choice> Indexed<u8> for ChosenAt<'_, '_, C> {
    ghost count = { λ s. length s.rows.now.left.now };

    ghost at = { λ s. chosen_at C.of_numbers s.rows.now };

    fn item(&self, index: usize) -> u8 {
        chosen::<C>(self.rows.items(index))
    }

    fn lanes(&self, index: usize, out: &mut [u8]) {
        store_32_bytes(
            chosen_lanes::<C>(three_lanes(self.rows, index)).to_array(),
            out,
        );
    }
}

/// A choice as a kernel of three rows.
#[derive(Drop)]
pub struct ByChoice<C>(pub C);

impl<C: Choice> OfColumn<u8, u8> for ByChoice<C> {
    ghost formula = { λ a b c. C.of_numbers (C.of_numbers a b) c };

    ghost takes = { λ _. Unit {0} };

    fn item(first: u8, second: u8, third: u8) -> u8 {
        chosen::<C>((first, second, third))
    }

    fn write(first: &[u8], second: &[u8], third: &[u8], out: &mut [u8]) {
        let rows = Three {
            left: first,
            middle: second,
            right: third,
        };
        let row = ChosenAt::<C> {
            choice: PhantomData,
            rows: &rows,
        };
        write_indexed(&row, out);
    }
}

/// Returns the median of three samples.
fn middle(items: ThreeItems) -> u8
    ensures { result ≡ middle_of_three min max items.0 items.1 items.2 }
{
    let (a, b, c) = items;
    a.min(b).max(a.max(b).min(c))
}

fn middle_lanes(items: ThreeLanes) -> u8x32
    ensures { result ≡ middle_of_three (zip2 min) (zip2 max) items.0 items.1 items.2 }
{
    let (a, b, c) = items;
    let (low, high) = (Least::of_two_lanes(a, b), Greatest::of_two_lanes(a, b));
    Greatest::of_two_lanes(low, Least::of_two_lanes(high, c))
}

/// The median of the nine samples of a window.
///
/// Each column has a least, a middle and a greatest sample. The window's median is the median of
/// three samples: the greatest of the least samples, the middle of the middle samples and the least
/// of the greatest samples.
pub struct Median;

impl OfNine<u8> for Median {
    ghost formula = { λ _. median };

    #[tactic(auto, using(crate::proofs::MedianLaws::median_of_numbers))]
    fn item(&self, above: ThreeItems, here: ThreeItems, below: ThreeItems) -> u8 {
        median_of(above, here, below)
    }

    fn lanes(&self, nine: &Nine<'_>, index: usize, out: &mut [u8]) {
        let above = three_lanes(&nine.above, index);
        let here = three_lanes(&nine.here, index);
        let below = three_lanes(&nine.below, index);
        store_32_bytes(medians(above, here, below).to_array(), out);
    }
}

/// Returns the median of a window.
fn median_of(above: ThreeItems, here: ThreeItems, below: ThreeItems) -> u8
    ensures { result ≡ middle_of_nine min max above.0 above.1 above.2 here.0 here.1 here.2 below.0
        below.1 below.2 }
{
    let left = (above.0, here.0, below.0);
    let centre = (above.1, here.1, below.1);
    let right = (above.2, here.2, below.2);
    let low = (
        chosen::<Least>(left),
        chosen::<Least>(centre),
        chosen::<Least>(right),
    );
    let between = (middle(left), middle(centre), middle(right));
    let high = (
        chosen::<Greatest>(left),
        chosen::<Greatest>(centre),
        chosen::<Greatest>(right),
    );
    let (lowest, highest) = (chosen::<Greatest>(low), chosen::<Least>(high));
    middle((lowest, highest, middle(between)))
}

/// Returns the medians of the windows in 32 lanes.
fn medians(above: ThreeLanes, here: ThreeLanes, below: ThreeLanes) -> u8x32
    ensures { result ≡ middle_of_nine (zip2 min) (zip2 max) above.0 above.1 above.2 here.0 here.1
        here.2 below.0 below.1 below.2 }
{
    let first = (above.0, here.0, below.0);
    let second = (above.1, here.1, below.1);
    let third = (above.2, here.2, below.2);
    let low = (
        chosen_lanes::<Least>(first),
        chosen_lanes::<Least>(second),
        chosen_lanes::<Least>(third),
    );
    let between = (
        middle_lanes(first),
        middle_lanes(second),
        middle_lanes(third),
    );
    let high = (
        chosen_lanes::<Greatest>(first),
        chosen_lanes::<Greatest>(second),
        chosen_lanes::<Greatest>(third),
    );
    let (lowest, highest) = (chosen_lanes::<Greatest>(low), chosen_lanes::<Least>(high));
    middle_lanes((lowest, highest, middle_lanes(between)))
}

/// Writes the least sample of each window.
pub fn min9(nine: &Nine<'_>, out: &mut [u8])
    requires { window_count nine.now ≡ length out.old }
    ensures { map pos out.new ≡ run 0 (length out.old) (λ i. least_of (nine_at nine.now i)) }
{
    write_nine(&Least, nine, out);
}

/// Writes the greatest sample of each window.
pub fn max9(nine: &Nine<'_>, out: &mut [u8])
    requires { window_count nine.now ≡ length out.old }
    ensures { map pos out.new ≡ run 0 (length out.old) (λ i. greatest_of (nine_at nine.now i)) }
{
    write_nine(&Greatest, nine, out);
}

/// Writes the median of each window: at most four samples are smaller, and at most four are
/// greater.
pub fn median9(nine: &Nine<'_>, out: &mut [u8])
    requires { window_count nine.now ≡ length out.old }
    ensures { map pos out.new ≡ run 0 (length out.old) (λ i. median (nine_at nine.now i)) }
{
    write_nine(&Median, nine, out);
}
