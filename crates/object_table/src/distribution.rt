//! Distributions: how many samples fell into each bin.
ghost use Rattle.std.specs.Prelude.{◌≡◌, length, IfOk};
ghost use Rattle.vx_base.specs.Object.{new_distribution, IsDistribution};

use std::alloc::{AllocError, Global};
use std::marker::Model;
use vx_base::Bins;

/// Bins, and how many samples of an image fell into each bin (OpenVX 1.3, `vx_distribution`).
#[derive(Drop)]
pub struct Distribution {
    bins: Bins,
    counts: Vec<u32>,
}

impl Model for Distribution {
    ghost use Rattle.vx_base.specs.Object.{DistributionValue, IsDistribution};

    ghost Value = { DistributionValue };

    ghost view = { λ d. record { bins = d.bins; counts = d.counts.items } };

    ghost invariant = { λ d. IsDistribution (record { bins = d.bins; counts = d.counts.items }) };
}

impl Distribution {
    /// Returns a distribution with these bins and all counts 0.
    pub fn new(alloc: Global, bins: Bins) -> Result<Distribution, AllocError>
        ensures value { IfOk result (λ distribution. distribution ≡ new_distribution bins) }
        ensures distribution { IfOk result IsDistribution }
    {
        // Reading a field tells the prover the limits of the field's value.
        let _limits = (bins.offset(), bins.range());
        let count = usize::from(bins.bins());
        let counts = vec![in alloc; 0; count]?;
        Ok(Distribution { bins, counts })
    }

    /// Returns the bins, which never change.
    pub fn bins(&self) -> Bins
        ensures { result ≡ self.now.bins }
    {
        self.bins
    }

    /// Returns how many samples fell into each bin.
    pub fn counts(&self) -> &[u32]
        ensures value { result.now ≡ self.now.counts }
        ensures distribution { IsDistribution self.now }
    {
        &self.counts
    }

    /// Replaces the counts. `counts` must have one count for each bin. Allocates nothing.
    pub fn set_counts(&mut self, counts: &[u32])
        requires { length counts.now ≡ self.old.bins.bins }
        ensures { self.new ≡ record { bins = self.old.bins; counts = counts.now } }
    {
        self.counts.copy_from_slice(counts);
    }
}
