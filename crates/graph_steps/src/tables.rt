//! The lookup tables, thresholds and matrices that steps read.
ghost use Rattle.std.specs.Prelude.{◌≡◌, ℕ, Option};
ghost use Rattle.vx_base.specs.Object.{ObjectValue};
ghost use Rattle.image_core.specs.Second.{second_object};

use image_core::SecondInput;

/// Gives the lookup table, threshold or matrix at an index. The steps of a program refer to these
/// objects by their indices.
pub trait Tables {
    /// The lookup table, threshold or matrix at each index. `None` if there is none.
    ghost tables: { Self → ℕ → Option ObjectValue };

    /// Returns the lookup table, threshold or matrix at an index.
    fn table(&self, at: usize) -> SecondInput<'_>
        ensures { second_object result ≡ tables self.now at };
}
