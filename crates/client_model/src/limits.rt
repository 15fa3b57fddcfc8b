//! Limits on sample bytes.
ghost use Rattle.std.specs.Prelude.{◌≡◌, ◌≤◌};
ghost use Rattle.client_model.specs.Limits.{limits_from};

use std::marker::Model;

/// The greatest value of each limit: 2^40 bytes.
pub const GREATEST_LIMIT: u64 = 1_099_511_627_776;

/// The default of each limit: 2^28 bytes.
pub const DEFAULT_LIMIT: u64 = 268_435_456;

/// Limits on sample bytes. `quota` is the limit for a client's images, and `work` is the limit for
/// the virtual images of one graph. Each limit is 1 to 2^40.
#[derive(Clone, Copy, PartialEq, Eq, Debug)]
pub struct Limits {
    quota: u64,
    work: u64,
}

impl Model for Limits {
    ghost use Rattle.std.specs.Prelude.{IsTrue, ◌&&◌};
    ghost use Rattle.client_model.specs.Limits.{LimitsValue, is_limit};

    ghost Value = { LimitsValue };

    ghost view = { λ l. record { quota = l.quota; work = l.work } };

    ghost invariant = { λ l. IsTrue (is_limit l.quota && is_limit l.work) };

    ghost inverse = { λ l. record { quota = l.quota; work = l.work } };
}

impl Limits {
    /// Returns limits of `quota` and `work` bytes, or `None` if either isn't 1 to 2^40.
    pub fn new(quota: u64, work: u64) -> Option<Limits>
        ensures { result ≡ limits_from quota work }
    {
        let limits = 1..=GREATEST_LIMIT;
        if limits.contains(&quota) && limits.contains(&work) {
            Some(Limits { quota, work })
        } else {
            None
        }
    }

    /// Returns the greatest allowed number of sample bytes of a client's images.
    pub fn quota(self) -> u64
        ensures value { result ≡ self.quota }
        ensures limit { result ≤ 1099511627776 }
    {
        self.quota
    }

    /// Returns the greatest allowed number of sample bytes of a graph's virtual images.
    pub fn work(self) -> u64
        ensures { result ≡ self.work }
    {
        self.work
    }
}

impl Default for Limits {
    ghost use Rattle.client_model.specs.Limits.{default_limits};

    ghost is_default = { λ l. l ≡ default_limits };

    fn default() -> Self {
        Limits {
            quota: DEFAULT_LIMIT,
            work: DEFAULT_LIMIT,
        }
    }
}
