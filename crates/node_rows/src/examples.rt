//! Worked examples: the results for a column of four pixels, and for a second column that differs
//! from the first in one row.
ghost use Rattle.std.specs.Prelude.{◌≡◌, [], ◌∷◌, Some, None, pos};
ghost use Rattle.vx_base.specs.declared.format.Format.TheVariants.{U8, S16, U32};
ghost use Rattle.vx_base.specs.declared.function.Function.TheVariants.{NotBits, Box, Convolve};
ghost use Rattle.vx_base.specs.declared.function.Function.TheVariants.{Integral, Accumulate};
ghost use Rattle.vx_base.specs.Object.{ImageObject, ConvolutionObject};
ghost use Rattle.node_rows.specs.Radius.{window_radius};
ghost use Rattle.node_rows.specs.Examples.{column, upper_row, node_samples};

/// Bitwise Not: a change in row 2 of the input changes row 2 of the output.
pub fn not_of_a_column()
    ensures window_radius { window_radius NotBits None ≡ Some 0 }
    ensures first { node_samples NotBits U8 (column 10 20 30 40) None
        ≡ pos 245 ∷ pos 235 ∷ pos 225 ∷ pos 215 ∷ [] }
    ensures other { node_samples NotBits U8 (column 10 20 90 40) None
        ≡ pos 245 ∷ pos 235 ∷ pos 165 ∷ pos 215 ∷ [] }
{}

/// Box filter: a change in row 2 of the input changes rows 1 to 3 of the output, but not row 0.
pub fn box_of_a_column()
    ensures window_radius { window_radius Box None ≡ Some 1 }
    ensures first { node_samples Box U8 (column 10 20 30 40) None
        ≡ pos 13 ∷ pos 20 ∷ pos 30 ∷ pos 36 ∷ [] }
    ensures other { node_samples Box U8 (column 10 20 90 40) None
        ≡ pos 13 ∷ pos 40 ∷ pos 50 ∷ pos 56 ∷ [] }
{}

/// Convolution with a matrix of five rows: a change in row 2 of the input changes row 0 of the
/// output.
pub fn convolved_column()
    ensures window_radius { window_radius Convolve (Some upper_row) ≡ Some 2 }
    ensures first { node_samples Convolve U8 (column 10 20 30 40)
        (Some (ConvolutionObject upper_row)) ≡ pos 30 ∷ pos 40 ∷ pos 40 ∷ pos 40 ∷ [] }
    ensures other { node_samples Convolve U8 (column 10 20 90 40)
        (Some (ConvolutionObject upper_row)) ≡ pos 90 ∷ pos 40 ∷ pos 40 ∷ pos 40 ∷ [] }
{}

/// Accumulation: a change in row 2 of the accumulator changes row 2 of the output.
pub fn accumulated_column()
    ensures window_radius { window_radius Accumulate None ≡ Some 0 }
    ensures first { node_samples Accumulate S16 (column 10 20 30 40) (Some (ImageObject
        (record (column 1 2 3 4) { format = S16 }))) ≡ pos 11 ∷ pos 22 ∷ pos 33 ∷ pos 44 ∷ [] }
    ensures other { node_samples Accumulate S16 (column 10 20 30 40) (Some (ImageObject
        (record (column 1 2 5 4) { format = S16 }))) ≡ pos 11 ∷ pos 22 ∷ pos 35 ∷ pos 44 ∷ [] }
{}

/// Integral image: changing input row 0 changes every output row.
pub fn integral_of_a_column()
    ensures window_radius { window_radius Integral None ≡ None }
    ensures first { node_samples Integral U32 (column 10 20 30 40) None
        ≡ pos 10 ∷ pos 30 ∷ pos 60 ∷ pos 100 ∷ [] }
    ensures other { node_samples Integral U32 (column 11 20 30 40) None
        ≡ pos 11 ∷ pos 31 ∷ pos 61 ∷ pos 101 ∷ [] }
{}
