//! Histograms.
ghost use Rattle.std.specs.Prelude.{◌≡◌, ◌+◌, ◌<◌, ◌^◌, ℕ, length, slice_index, unsigned_abs};
ghost use Rattle.std.specs.List.{All};
ghost use Rattle.vx_base.specs.declared.format.Format.TheVariants.{U8};
ghost use Rattle.vx_base.specs.Statistics.{valid_samples, histogram};
ghost use Rattle.image_core.specs.Bands.{IsInRows};
ghost use Rattle.lane_rows.specs.Tallies.{count_at, count_in_all};
ghost use Rattle.stat_kernels.specs.Counts.{bin_sums};
ghost use Rattle.stat_kernels.specs.Part.{valid_in};

use crate::valid::valid_row;
use image_core::{Band, Image};
use lane_rows::tally_row;
use vx_base::Bins;

/// Counts how often each value occurs among the valid samples of a band of a U8 image. The count of
/// a value is the sum of its entries in the four arrays.
#[tactic(auto, using(crate::proofs::BandLaws::few_samples))]
fn count_values(
    image: &Image<'_>,
    rows: Band,
    first: &mut [u32; 256],
    second: &mut [u32; 256],
    third: &mut [u32; 256],
    fourth: &mut [u32; 256],
)
    requires format { image.now.format ≡ U8 }
    requires rows { IsInRows image.now.height rows }
    requires zeros { (v : ℕ) → count_in_all first.old second.old third.old fourth.old v ≡ 0 }
    ensures counted { (v : ℕ) → count_in_all first.new second.new third.new fourth.new v
        ≡ count_at v (valid_samples (valid_in rows image.now)) }
    ensures bytes { All (λ z. unsigned_abs z < 256) (valid_samples (valid_in rows image.now)) }
    ensures few { length (valid_samples (valid_in rows image.now)) < 2 ^ 32 }
{
    let (_valid, _limits) = (image.valid(), image.desc().height());
    for k in 0..rows.count {
        let row = valid_row::<u8>(image, rows.start + k);
        tally_row(row, first, second, third, fourth);
    }
}

/// Writes the histogram of a U8 image's valid samples (OpenVX 1.3, "Histogram"; the bins are as
/// this project defines them). `counts` must have one count for each bin. The old counts are
/// overwritten.
pub fn histogram(image: &Image<'_>, bins: Bins, counts: &mut [u32])
    requires format { image.now.format ≡ U8 }
    requires size { length counts.old ≡ bins.bins }
    ensures { counts.new ≡ histogram bins image.now }
{
    let _valid = image.valid();
    counts.fill(0);
    add_histogram(image, Band::whole(image.desc()), bins, counts);
}

/// Adds the histogram of a band's valid samples to `counts`. The image must be U8. `counts` must
/// have one count for each bin. Each count, plus the number of the band's valid samples, must be
/// below 2^32.
pub fn add_histogram(image: &Image<'_>, rows: Band, bins: Bins, counts: &mut [u32])
    requires format { image.now.format ≡ U8 }
    requires rows { IsInRows image.now.height rows }
    requires size { length counts.old ≡ bins.bins }
    requires room { (k : ℕ) →
        slice_index counts.old k + length (valid_samples (valid_in rows image.now)) < 2 ^ 32 }
    ensures { counts.new ≡ bin_sums counts.old (histogram bins (valid_in rows image.now)) }
{
    let (mut first, mut second) = ([0; 256], [0; 256]);
    let (mut third, mut fourth) = ([0; 256], [0; 256]);
    count_values(
        image,
        rows,
        &mut first,
        &mut second,
        &mut third,
        &mut fourth,
    );
    for value in 0..256 {
        if let Some(bin) = bins.bin_of(value as u8) {
            let count = first[value] + second[value] + third[value] + fourth[value];
            counts[usize::from(bin)] += count;
        }
    }
}
