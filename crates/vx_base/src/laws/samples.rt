//! Laws of samples and narrowing.
ghost use Rattle.std.specs.Prelude.{◌≡◌, ◌≤◌, ℤ};
ghost use Rattle.vx_base.specs.declared.format.Format.{Format};
ghost use Rattle.vx_base.specs.Sample.{IsSample, AgreesModulo, distance, range_size, wrap, clamp};

/// `wrap` gives the only sample that agrees with a number modulo the size of the format's range.
pub fn wrap_agrees()
    ensures sample { (format : Format) (v : ℤ) → IsSample format (wrap format v) }
    ensures agrees { (format : Format) (v : ℤ) →
        AgreesModulo (range_size format) v (wrap format v) }
    ensures only { (format : Format) (v z : ℤ) → IsSample format z →
        AgreesModulo (range_size format) v z → z ≡ wrap format v }
{}

/// `clamp` gives the only sample nearest to a number.
pub fn clamp_is_nearest()
    ensures sample { (format : Format) (v : ℤ) → IsSample format (clamp format v) }
    ensures nearest { (format : Format) (v z : ℤ) → IsSample format z →
        distance v (clamp format v) ≤ distance v z }
    ensures only { (format : Format) (v z : ℤ) → IsSample format z →
        distance v z ≤ distance v (clamp format v) → z ≡ clamp format v }
{}
