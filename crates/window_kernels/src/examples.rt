//! Worked examples: the definitions evaluated on numbers.
#![tactic(auto, using(crate::proofs::Computed::computed))]

ghost use Rattle.std.specs.Prelude.{◌≡◌, [], ◌∷◌, pos, negsuc};
ghost use Rattle.vx_base.specs.declared.format.Format.TheVariants.{U8, S16};
ghost use Rattle.vx_base.specs.declared.border.Border.TheVariants.{Undefined, Constant, Replicate};
ghost use Rattle.vx_base.specs.Rectangle.{empty_rectangle};
ghost use Rattle.vx_base.specs.Window.{sample_or_border, box_mean, gaussian_mean, median, least_of};
ghost use Rattle.vx_base.specs.Window.{greatest_of, gradient_x, gradient_y, from_nine, from_matrix};
ghost use Rattle.window_kernels.specs.Examples.{row_of_four, two_by_two, three_by_three, single};
ghost use Rattle.window_kernels.specs.Examples.{at_centre, upper_left, minus_three};

/// Samples that windows read in and around the row 0 20 30 0, which is valid except at its ends.
pub fn places()
    ensures valid { sample_or_border row_of_four Replicate (pos 1) (pos 0) ≡ pos 20 }
    ensures left { sample_or_border row_of_four Replicate (pos 0) (negsuc 0) ≡ pos 20 }
    ensures right { sample_or_border row_of_four Replicate (pos 9) (pos 1) ≡ pos 30 }
    ensures constant { sample_or_border row_of_four (Constant 7) (pos 3) (pos 0) ≡ pos 7 }
{}

/// The results of the formulas for the window 1 2 9, 3 4 8, 5 6 7. The clause `turned` mirrors the
/// window from left to right.
pub fn formulas()
    ensures mean { box_mean (pos 1 ∷ pos 2 ∷ pos 9 ∷ pos 3 ∷ pos 4 ∷ pos 8 ∷ pos 5 ∷ pos 6
        ∷ pos 7 ∷ []) ≡ pos 5 }
    ensures weighted_mean { gaussian_mean
        (pos 1 ∷ pos 2 ∷ pos 9 ∷ pos 3 ∷ pos 4 ∷ pos 8 ∷ pos 5 ∷ pos 6 ∷ pos 7 ∷ []) ≡ pos 4 }
    ensures middle { median (pos 1 ∷ pos 2 ∷ pos 9 ∷ pos 3 ∷ pos 4 ∷ pos 8 ∷ pos 5 ∷ pos 6
        ∷ pos 7 ∷ []) ≡ pos 5 }
    ensures least { least_of (pos 1 ∷ pos 2 ∷ pos 9 ∷ pos 3 ∷ pos 4 ∷ pos 8 ∷ pos 5 ∷ pos 6
        ∷ pos 7 ∷ []) ≡ pos 1 }
    ensures greatest { greatest_of (pos 1 ∷ pos 2 ∷ pos 9 ∷ pos 3 ∷ pos 4 ∷ pos 8 ∷ pos 5 ∷ pos 6
        ∷ pos 7 ∷ []) ≡ pos 9 }
    ensures right_of_left { gradient_x (pos 1 ∷ pos 2 ∷ pos 9 ∷ pos 3 ∷ pos 4 ∷ pos 8 ∷ pos 5
        ∷ pos 6 ∷ pos 7 ∷ []) ≡ pos 20 }
    ensures below_above { gradient_y (pos 1 ∷ pos 2 ∷ pos 9 ∷ pos 3 ∷ pos 4 ∷ pos 8 ∷ pos 5 ∷ pos 6
        ∷ pos 7 ∷ []) ≡ pos 10 }
    ensures turned { gradient_x (pos 9 ∷ pos 2 ∷ pos 1 ∷ pos 8 ∷ pos 4 ∷ pos 3 ∷ pos 7 ∷ pos 6
        ∷ pos 5 ∷ []) ≡ negsuc 19 }
{}

/// The box filter of the rows 10 20 and 30 40 under the three border modes.
pub fn boxes()
    ensures undefined { from_nine U8 box_mean Undefined two_by_two
        ≡ record {
          width = 2;
          height = 2;
          format = U8;
          valid = empty_rectangle;
          samples = pos 0 ∷ pos 0
              ∷ pos 0 ∷ pos 0 ∷ [];
        } }
    ensures replicate { (from_nine U8 box_mean Replicate two_by_two).samples
        ≡ pos 20 ∷ pos 23 ∷ pos 26 ∷ pos 30 ∷ [] }
    ensures zero { (from_nine U8 box_mean (Constant 0) two_by_two).samples
        ≡ pos 11 ∷ pos 11 ∷ pos 11 ∷ pos 11 ∷ [] }
    ensures white { (from_nine U8 box_mean (Constant 255) two_by_two).samples
        ≡ pos 152 ∷ pos 152 ∷ pos 152 ∷ pos 152 ∷ [] }
{}

/// Erosion and dilation of a row whose ends are not valid: the ends are not read, and are 0 in the
/// output.
pub fn valid_edges()
    ensures least { (from_nine U8 least_of Replicate row_of_four).samples
        ≡ pos 0 ∷ pos 20 ∷ pos 20 ∷ pos 0 ∷ [] }
    ensures greatest { (from_nine U8 greatest_of Replicate row_of_four).samples
        ≡ pos 0 ∷ pos 30 ∷ pos 30 ∷ pos 0 ∷ [] }
{}

/// The horizontal gradient of a 3x3 image, at the only pixel whose whole window is in the image.
pub fn gradients()
    ensures { from_nine S16 gradient_x Undefined three_by_three ≡ at_centre S16 (pos 8) }
{}

/// A matrix with 1 in its upper left corner and 0 elsewhere gives the image's centre pixel the
/// sample to its lower right.
pub fn rotated_matrix()
    ensures { from_matrix U8 upper_left Undefined three_by_three ≡ at_centre U8 (pos 9) }
{}

/// A matrix with -3 at its centre, on an image whose only sample is 1. The quotient -3 / 2 is
/// rounded toward zero and clamped to the output's format, S16 or U8. The quotient -3 / 2^31
/// becomes 0.
pub fn scaled_sums()
    ensures to_zero { (from_matrix S16 (minus_three 1) Replicate single).samples ≡ negsuc 0 ∷ [] }
    ensures clamped { (from_matrix U8 (minus_three 1) Replicate single).samples ≡ pos 0 ∷ [] }
    ensures to_nothing { (from_matrix S16 (minus_three 31) Replicate single).samples ≡ pos 0 ∷ [] }
{}
