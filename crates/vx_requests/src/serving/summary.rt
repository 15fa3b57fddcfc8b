//! The summary of serving a stream.
ghost use Rattle.std.specs.Prelude.{◌≡◌, ◌+◌, ◌<◌, ◌^◌, ◌==◌, if◌then◌else◌};

/// The number of replies, and the number of replies whose code isn't 0.
#[derive(Clone, Copy, Debug, PartialEq, Eq)]
pub struct Summary {
    pub requests: u64,
    pub refused: u64,
}

impl Summary {
    /// Counts one more reply, which has this code.
    pub(crate) fn count(&mut self, code: u8)
        requires requests_fit { self.old.requests < 2 ^ 63 }
        requires refused_fit { self.old.refused < 2 ^ 63 }
        ensures requests { self.new.requests ≡ self.old.requests + 1 }
        ensures refused { self.new.refused ≡ self.old.refused + (if code == 0 then 0 else 1) }
    {
        self.requests += 1;
        if code != 0 {
            self.refused += 1;
        }
    }
}
