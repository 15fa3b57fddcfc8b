//! Laws of the definitions.
ghost use Rattle.std.specs.Prelude.{◌≡◌, ◌≢◌, ◌+◌, ◌≤ℤ◌, [], ℕ};
ghost use Rattle.std.specs.List.{All, Contains};
ghost use Rattle.vx_base.specs.Image.{ImageValue};
ghost use Rattle.vx_base.specs.Statistics.{BinsValue, extremes, histogram, valid_samples};
ghost use Rattle.image_core.specs.declared.band.Band.{Band as Rows};
ghost use Rattle.stat_kernels.specs.Counts.{bin_sums};
ghost use Rattle.stat_kernels.specs.Extreme.{added_extremes};
ghost use Rattle.stat_kernels.specs.Part.{valid_in};
ghost use Rattle.stat_kernels.specs.Sums.{AreRowsOf};

/// No valid sample of an image is beyond its extremes. If there are valid samples, the extremes are
/// among them.
#[tactic(auto, using(crate::proofs::ExtremeLaws::bounds))]
pub fn extremes_bound()
    ensures least { (image : ImageValue) →
        All (λ z. (extremes image).min ≤ℤ z) (valid_samples image) }
    ensures greatest { (image : ImageValue) →
        All (λ z. z ≤ℤ (extremes image).max) (valid_samples image) }
    ensures least_reached { (image : ImageValue) → valid_samples image ≢ [] →
        Contains (valid_samples image) (extremes image).min }
    ensures greatest_reached { (image : ImageValue) → valid_samples image ≢ [] →
        Contains (valid_samples image) (extremes image).max }
{}

/// The histogram of two adjacent bands together is the sum of the two bands' histograms, bin by
/// bin.
pub fn histograms_of_bands()
    ensures { (bins : BinsValue) (image : ImageValue) (start first second : ℕ) →
        histogram bins (valid_in (record { start = start; count = first + second }) image)
        ≡ bin_sums (histogram bins (valid_in (record { start = start; count = first }) image))
        (histogram bins (valid_in (record { start = start + first; count = second }) image)) }
{}

/// The merged extremes of two adjacent bands are the extremes of both bands together, including the
/// counts and the first pixels.
#[tactic(auto, using(crate::proofs::AlikeLaws::bands_joined))]
pub fn extremes_of_bands()
    ensures { (image : ImageValue) (start first second : ℕ) →
        added_extremes 0
        (extremes (valid_in (record { start = start; count = first }) image))
        (extremes (valid_in (record { start = start + first; count = second }) image))
        ≡ extremes (valid_in (record { start = start; count = first + second }) image) }
{}

/// The extremes of two adjacent bands of `whole` can also be merged if the second band's extremes
/// are computed from another image, `part`, that has this band's rows. In `part` these rows form
/// the band `rows`. Each such row y of `part` is row y + `down` of `whole`.
pub fn extremes_of_parts()
    ensures { (part whole : ImageValue) (rows : Rows) (start first down : ℕ) →
        rows.start + down ≡ start + first → AreRowsOf part rows whole (start + first) →
        added_extremes down (extremes (valid_in (record { start = start; count = first }) whole))
        (extremes (valid_in rows part))
        ≡ extremes (valid_in (record { start = start; count = first + rows.count }) whole) }
{}
