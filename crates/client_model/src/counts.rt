//! The counts of a distribution.
ghost use Rattle.std.specs.Prelude.{◌≡◌};

use std::marker::Model;

/// The number of samples in each bin of a distribution.
#[derive(Debug, Drop)]
pub struct Counts {
    counts: Vec<u32>,
}

impl Model for Counts {
    ghost use Rattle.std.specs.Prelude.{ℕ, List};

    ghost Value = { List ℕ };

    ghost view = { λ c. c.counts.items };
}

impl Counts {
    /// Returns these counts, one for each bin.
    pub fn new(counts: Vec<u32>) -> Counts
        ensures { result ≡ counts.items }
    {
        Counts { counts }
    }

    /// Returns the counts, one for each bin.
    pub fn counts(&self) -> &[u32]
        ensures { result.now ≡ self.now }
    {
        &self.counts
    }
}
