//! Worked examples: texts and what they encode.
ghost use Rattle.std.specs.Prelude.{◌≡◌, [], ◌∷◌, ◌++◌, Ok, Err, pos, codes};
ghost use Rattle.vx_base.specs.declared.format.Format.TheVariants.{U8, S16};
ghost use Rattle.pgm_images.specs.declared.fault.PgmFault.TheVariants.{InvalidFormat};
ghost use Rattle.pgm_images.specs.declared.fault.PgmFault.TheVariants.{InvalidDimension};
ghost use Rattle.pgm_images.specs.declared.fault.PgmFault.TheVariants.{InvalidValue};
ghost use Rattle.pgm_images.specs.Reading.{read_result};
ghost use Rattle.pgm_images.specs.Writing.{pgm_text};

/// Texts of two samples of one byte each, 10 and 20, with and without comments in the header. Then
/// a text of one sample of two bytes.
pub fn raw()
    ensures bytes { read_result (codes "P5\n2 1\n255\n" ++ 10 ∷ 20 ∷ [])
        ≡ Ok (record {
          description = record { width = 2; height = 1; format = U8 };
          samples = pos 10
              ∷ pos 20 ∷ [];
        }) }
    ensures comment { read_result (codes "P5\n# a\n2 1\n255\n" ++ 10 ∷ 20 ∷ [])
        ≡ Ok (record {
          description = record { width = 2; height = 1; format = U8 };
          samples = pos 10
              ∷ pos 20 ∷ [];
        }) }
    ensures comment_at_once { read_result (codes "P5#\r\n2#a\r1\n255\t" ++ 10 ∷ 20 ∷ [])
        ≡ Ok (record {
          description = record { width = 2; height = 1; format = U8 };
          samples = pos 10
              ∷ pos 20 ∷ [];
        }) }
    ensures pair { read_result (codes "P5 1 1 300\n" ++ 1 ∷ 44 ∷ [])
        ≡ Ok (record {
          description = record { width = 1; height = 1; format = S16 };
          samples =
              pos 300 ∷ [];
        }) }
{}

/// An S16 sample, and a U8 sample that has leading zeros and is followed by a comment.
pub fn plain()
    ensures short { read_result (codes "P2 1 1 300 5")
        ≡ Ok (record {
          description = record { width = 1; height = 1; format = S16 };
          samples
              = pos 5 ∷ [];
        }) }
    ensures zeros { read_result (codes "P2 1 1 255 005 # x\n")
        ≡ Ok (record {
          description = record { width = 1; height = 1; format = U8 };
          samples
              = pos 5 ∷ [];
        }) }
{}

/// Texts without a header. The reasons, in the order of the texts:
///
/// - the text is empty
/// - nothing comes after the magic number (`P5`)
/// - no gap comes after the magic number
/// - a comment doesn't end
/// - no whitespace byte comes after the maxval of P5 (three texts)
/// - a vertical tab, which isn't whitespace in PGM, comes before the maxval
pub fn headers()
    ensures empty { read_result [] ≡ Err InvalidFormat }
    ensures magic { read_result (codes "P5") ≡ Err InvalidFormat }
    ensures no_gap { read_result (codes "P52 1 255\n" ++ 10 ∷ 20 ∷ []) ≡ Err InvalidFormat }
    ensures comment { read_result (codes "P5 # 1 1 255 ") ≡ Err InvalidFormat }
    ensures no_end { read_result (codes "P5 0 1 255") ≡ Err InvalidFormat }
    ensures other_end { read_result (codes "P5 0 1 255x") ≡ Err InvalidFormat }
    ensures comment_at_end { read_result (codes "P5 1 1 255#x\n" ++ 10 ∷ []) ≡ Err InvalidFormat }
    ensures vertical_tab { read_result (codes "P5 1 1" ++ 11 ∷ codes "255 " ++ 10 ∷ [])
        ≡ Err InvalidFormat }
{}

/// Widths and maxvals out of range. In the first text (P2) the header ends with the last digit of
/// the maxval, so the `x` isn't a fault of the header.
pub fn limits()
    ensures no_width { read_result (codes "P2 0 1 255x") ≡ Err InvalidDimension }
    ensures no_maxval_either { read_result (codes "P5 0 1 0\n") ≡ Err InvalidDimension }
    ensures too_wide { read_result (codes "P5 8193 1 255\n") ≡ Err InvalidDimension }
    ensures far_too_wide { read_result (codes "P5 99999999999999999999 1 255\n")
        ≡ Err InvalidDimension }
    ensures no_maxval { read_result (codes "P5 1 1 0\n" ++ 0 ∷ []) ≡ Err InvalidFormat }
    ensures too_great { read_result (codes "P5 1 1 32768\n" ++ 0 ∷ 0 ∷ []) ≡ Err InvalidFormat }
{}

/// Too few samples, too many samples, a comment that doesn't end, and samples above the maxval. A
/// sample above the maxval is reported only if the text has no other fault.
pub fn samples()
    ensures too_few { read_result (codes "P5 1 1 255\n") ≡ Err InvalidFormat }
    ensures too_many { read_result (codes "P5 1 1 255\n" ++ 10 ∷ 20 ∷ []) ≡ Err InvalidFormat }
    ensures half { read_result (codes "P5 1 1 300\n" ++ 1 ∷ []) ≡ Err InvalidFormat }
    ensures plain_too_few { read_result (codes "P2 2 1 255 1") ≡ Err InvalidFormat }
    ensures stray_comment { read_result (codes "P2 1 1 255 5#") ≡ Err InvalidFormat }
    ensures above { read_result (codes "P5 1 1 100\n" ++ 101 ∷ []) ≡ Err InvalidValue }
    ensures plain_above { read_result (codes "P2 1 1 300 301") ≡ Err InvalidValue }
    ensures far_above { read_result (codes "P2 1 1 255 99999999999999999999") ≡ Err InvalidValue }
    ensures above_and_stray { read_result (codes "P2 1 1 255 256 x") ≡ Err InvalidFormat }
{}

/// The text that is written for two samples, 10 and 20.
#[tactic(auto, using(std::proofs::lemmas::Fmt::decimal_digit))]
pub fn written_text()
    ensures { pgm_text (record {
      description = record { width = 2; height = 1; format = U8 };
      samples = pos 10 ∷ pos 20 ∷ [];
    })
        ≡ codes "P5\n2 1\n255\n" ++ 10 ∷ 20 ∷ [] }
{}
