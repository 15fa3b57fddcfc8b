//! Worked examples: the definitions evaluated on numbers.
ghost use Rattle.std.specs.Prelude.{◌≡◌, [], ◌∷◌, Some, None, pos, negsuc};
ghost use Rattle.vx_base.specs.declared.format.Format.TheVariants.{U8, S16, U32};
ghost use Rattle.vx_base.specs.Statistics.{rectangle_pixels, bins_of, histogram, integral};
ghost use Rattle.vx_base.specs.Statistics.{extremes};

/// The pixels of a rectangle, in row-major order.
pub fn places_in_order()
    ensures { rectangle_pixels (record { x0 = 1; y0 = 0; x1 = 3; y1 = 2 })
        ≡ (1, 0) ∷ (2, 0) ∷ (1, 1) ∷ (2, 1) ∷ [] }
{}

/// Bins within the limits and beyond them.
pub fn bins()
    ensures allowed { bins_of 256 255 256
        ≡ Some (record { bins = 256; offset = 255; range = 256 }) }
    ensures no_bins { bins_of 0 0 1 ≡ None }
    ensures far_offset { bins_of 1 256 1 ≡ None }
    ensures no_range { bins_of 1 0 0 ≡ None }
{}

/// A row counted in four bins of 2.5 sample values each: 9 is below the first bin, and 20 is above
/// the last.
pub fn histogram_of_a_row()
    ensures { histogram (record { bins = 4; offset = 10; range = 10 })
        (record {
          width = 6;
          height = 1;
          format = U8;
          valid = record { x0 = 0; y0 = 0; x1 = 6; y1 = 1 };
          samples = pos 9 ∷ pos 10 ∷ pos 12 ∷ pos 13 ∷ pos 19 ∷ pos 20 ∷ [];
        }) ≡ 2 ∷ 1 ∷ 0 ∷ 1 ∷ [] }
{}

/// The integral image of an image whose left column is not valid.
pub fn integral_of_a_column()
    ensures { (integral (record {
      width = 2;
      height = 2;
      format = U8;
      valid = record { x0 = 1; y0 = 0; x1 = 2; y1 = 2 };
      samples = pos 0 ∷ pos 3 ∷ pos 0 ∷ pos 4 ∷ [];
    })).samples ≡ pos 0 ∷ pos 3 ∷ pos 0 ∷ pos 7 ∷ [] }
{}

/// The integral image of 2x2 samples.
pub fn integral_of_four()
    ensures { (integral (record {
      width = 2;
      height = 2;
      format = U8;
      valid = record { x0 = 0; y0 = 0; x1 = 2; y1 = 2 };
      samples = pos 1 ∷ pos 2 ∷ pos 3 ∷ pos 4 ∷ [];
    })).samples ≡ pos 1 ∷ pos 3 ∷ pos 4 ∷ pos 10 ∷ [] }
{}

/// Zeros outside the valid rectangle are not extremes. If two pixels have the same extreme, the
/// first in row-major order is reported. If no pixel is valid, all numbers are 0.
pub fn extremes_of_four()
    ensures column { extremes (record {
      width = 2;
      height = 2;
      format = U8;
      valid = record { x0 = 1; y0 = 0; x1 = 2; y1 = 2 };
      samples = pos 0 ∷ pos 3 ∷ pos 0 ∷ pos 4 ∷ [];
    }) ≡
        record {
          min = pos 3;
          max = pos 4;
          min_count = 1;
          max_count = 1;
          min_at = (1, 0);
          max_at = (1, 1);
        } }
    ensures twice { extremes (record {
      width = 2;
      height = 2;
      format = S16;
      valid = record { x0 = 0; y0 = 0; x1 = 2; y1 = 2 };
      samples = pos 5 ∷ negsuc 1 ∷ negsuc 1 ∷ pos 5 ∷ [];
    }) ≡
        record {
          min = negsuc 1;
          max = pos 5;
          min_count = 2;
          max_count = 2;
          min_at = (1, 0);
          max_at = (0, 0);
        } }
    ensures nowhere { extremes (record {
      width = 1;
      height = 1;
      format = U8;
      valid =
          record { x0 = 0; y0 = 0; x1 = 0; y1 = 0 };
      samples = pos 0 ∷ [];
    }) ≡
        record {
          min = pos 0;
          max = pos 0;
          min_count = 0;
          max_count = 0;
          min_at = (0, 0);
          max_at = (0, 0);
        } }
{}
