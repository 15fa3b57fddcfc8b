//! Laws of lookup tables.
ghost use Rattle.std.specs.Prelude.{◌≡◌, ◌<◌, ◌+ℤ◌, ℕ, ℤ, pos, IsTrue, length, slice_index_or};
ghost use Rattle.vx_base.specs.Sample.{IsSample, min_sample};
ghost use Rattle.vx_base.specs.Lut.{LutValue, is_full, entry_for};

/// Entries are in the order of the sample values, beginning with the least. A full table has one
/// entry for each sample value.
pub fn entries_in_order()
    ensures entry { (lut : LutValue) (k : ℕ) →
        entry_for lut (min_sample lut.format +ℤ pos k) ≡ slice_index_or lut.entries k (pos 0) }
    ensures each_sample { (lut : LutValue) (a : ℤ) →
        IsTrue (is_full lut.format (length lut.entries)) → IsSample lut.format a →
        (k : ℕ) × (k < length lut.entries) × (a ≡ min_sample lut.format +ℤ pos k) }
{}
