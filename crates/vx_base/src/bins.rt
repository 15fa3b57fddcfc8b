//! The bins of a histogram.
ghost use Rattle.std.specs.Prelude.{◌≡◌, ◌≤◌, ◌<◌, IfSome};
ghost use Rattle.vx_base.specs.Statistics.{bins_of, bin_of};

use std::marker::Model;

/// The greatest number of bins of a histogram.
pub const GREATEST_BINS: usize = 256;

/// The bins of a histogram of U8 samples (OpenVX 1.3, `vx_distribution`): 1 to 256 bins. The
/// offset, 0 to 255, is the least sample that is counted. The range, 1 to 256, is the number of
/// values that the bins cover; some of these values may be above 255. The bins divide the range
/// evenly, up to rounding.
#[derive(Clone, Copy, PartialEq, Eq, Debug)]
pub struct Bins {
    bins: u16,
    offset: u16,
    range: u16,
}

impl Model for Bins {
    ghost use Rattle.std.specs.Prelude.{IsTrue};
    ghost use Rattle.vx_base.specs.Statistics.{BinsValue, are_bins};

    ghost Value = { BinsValue };

    ghost view = { λ b. record { bins = b.bins; offset = b.offset; range = b.range } };

    ghost invariant = { λ b. IsTrue (are_bins b.bins b.offset b.range) };

    ghost inverse = { λ b. record { bins = b.bins; offset = b.offset; range = b.range } };
}

impl Bins {
    /// Returns the bins of a histogram, or `None` if their number, the offset or the range is
    /// beyond its limits.
    pub fn new(bins: u16, offset: u16, range: u16) -> Option<Bins>
        ensures { result ≡ bins_of bins offset range }
    {
        let sizes = 1..=256;
        if sizes.contains(&bins) && offset < 256 && sizes.contains(&range) {
            Some(Bins {
                bins,
                offset,
                range,
            })
        } else {
            None
        }
    }

    /// Returns the number of bins.
    pub fn bins(self) -> u16
        ensures value { result ≡ self.bins }
        ensures limits { (1 ≤ result) × (result ≤ 256) }
    {
        self.bins
    }

    /// Returns the least sample that is counted.
    pub fn offset(self) -> u16
        ensures value { result ≡ self.offset }
        ensures limit { result < 256 }
    {
        self.offset
    }

    /// Returns the number of values that the bins cover, from the offset on.
    pub fn range(self) -> u16
        ensures value { result ≡ self.range }
        ensures limits { (1 ≤ result) × (result ≤ 256) }
    {
        self.range
    }

    /// Returns the bin that counts a sample, or `None` if the bins don't cover the sample.
    pub fn bin_of(self, sample: u8) -> Option<u16>
        ensures value { result ≡ bin_of self sample }
        ensures below { IfSome result (λ bin. bin < self.bins) }
    {
        let sample = u16::from(sample);
        if sample < self.offset || self.offset + self.range <= sample {
            return None;
        }
        Some((sample - self.offset) * self.bins / self.range)
    }
}
