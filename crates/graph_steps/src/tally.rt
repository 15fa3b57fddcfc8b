//! Histograms and extremes, band by band.
ghost use Rattle.std.specs.Prelude.{◌≡◌, ◌≤◌};
ghost use Rattle.vx_base.specs.Image.{IsImage};
ghost use Rattle.vx_base.specs.Object.{new_distribution, no_extremes};
ghost use Rattle.image_core.specs.Bands.{IsInRows};
ghost use Rattle.graph_steps.specs.declared.tally.Tally.TheVariants.{Histogram as HistogramTally};
ghost use Rattle.graph_steps.specs.declared.tally.Tally.TheVariants.{Extremes as ExtremesTally};
ghost use Rattle.graph_steps.specs.Tallies.{CanAdd, IsNew, TakesFormat, tally_of};
ghost use Rattle.graph_steps.specs.Tallies.{with_rows_added, with_rows_counted};

use image_core::{Band, Image};
use stat_kernels::{add_histogram, add_min_max};
use std::marker::Model;
use vx_base::{Bins, Extremes, GREATEST_BINS};

/// The bins of a histogram, and the number of samples in each.
#[derive(Debug, Drop)]
pub struct Histogram {
    bins: Bins,
    counts: [u32; GREATEST_BINS],
}

impl Model for Histogram {
    ghost use Rattle.std.specs.Prelude.{take};
    ghost use Rattle.vx_base.specs.Object.{DistributionValue};

    ghost Value = { DistributionValue };

    ghost view = { λ h. record { bins = h.bins; counts = take h.bins.bins h.counts } };
}

impl Histogram {
    /// Returns a histogram in which all counts are 0.
    pub fn new(bins: Bins) -> Histogram
        ensures { result ≡ new_distribution bins }
    {
        let _limits = bins.bins();
        Histogram {
            bins,
            counts: [0; GREATEST_BINS],
        }
    }

    /// Returns the number of samples in each bin.
    pub fn counts(&self) -> &[u32]
        ensures { result.now ≡ self.now.counts }
    {
        &self.counts[..usize::from(self.bins.bins())]
    }

    /// Counts the valid samples in these rows of an image.
    fn add(&mut self, image: &Image<'_>, rows: Band)
        requires rows { IsInRows image.now.height rows }
        requires can { CanAdd rows image.now (HistogramTally self.old) }
        ensures { self.new ≡ with_rows_counted rows image.now self.old }
    {
        let bins = self.bins;
        add_histogram(
            image,
            rows,
            bins,
            &mut self.counts[..usize::from(bins.bins())],
        );
    }
}

/// The result of a reduction, for the bands that have run so far.
#[derive(Debug, Drop)]
pub enum Tally {
    Histogram(Histogram),
    Extremes(Extremes),
}

impl Tally {
    /// Adds these rows of an image to the tally. They are treated as lying below all rows that were
    /// added before.
    pub fn add(&mut self, image: &Image<'_>, rows: Band)
        requires rows { IsInRows image.now.height rows }
        requires can { CanAdd rows image.now self.old }
        ensures { self.new ≡ with_rows_added rows image.now self.old }
    {
        match self {
            Tally::Histogram(histogram) => histogram.add(image, rows),
            Tally::Extremes(extremes) => {
                let _limits = image.desc().height();
                *extremes = add_min_max(image, rows, 0, *extremes);
            }
        }
    }

    /// Adds all rows of an image to the tally, which must be new.
    pub fn add_all(&mut self, image: &Image<'_>)
        requires new { IsNew self.old }
        requires image { IsImage image.now }
        requires format { TakesFormat image.now.format self.old }
        ensures { self.new ≡ tally_of image.now self.old }
    {
        self.add(image, Band::whole(image.desc()));
    }
}
