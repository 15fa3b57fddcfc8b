//! Worked examples: bodies, in bytes, and the requests and replies that they encode.
ghost use Rattle.std.specs.Prelude.{◌≡◌, [], ◌∷◌, Some, None, Ok, Err, pos, negsuc};
ghost use Rattle.vx_base.specs.declared.format.Format.TheVariants.{U8, S16, U32};
ghost use Rattle.vx_base.specs.declared.policy.Policy.TheVariants.{Wrap, Saturate};
ghost use Rattle.vx_base.specs.declared.border.Border.TheVariants.{Undefined, Constant};
ghost use Rattle.vx_base.specs.declared.function.Function.TheVariants.{NotBits, Multiply};
ghost use Rattle.vx_base.specs.declared.threshold.ThresholdKind.TheVariants.{Binary, Range};
ghost use Rattle.client_model.specs.declared.request.Request.TheVariants.{OpenContext};
ghost use Rattle.client_model.specs.declared.request.Request.TheVariants.{ReleaseContext};
ghost use Rattle.client_model.specs.declared.request.Request.TheVariants.{CreateImage, QueryImage};
ghost use Rattle.client_model.specs.declared.request.Request.TheVariants.{WriteImage};
ghost use Rattle.client_model.specs.declared.request.Request.TheVariants.{WriteImagePgm, ReadImage};
ghost use Rattle.client_model.specs.declared.request.Request.TheVariants.{ReadImagePgm, SetValid};
ghost use Rattle.client_model.specs.declared.request.Request.TheVariants.{Release, CreateThreshold};
ghost use Rattle.client_model.specs.declared.request.Request.TheVariants.{CreateConvolution};
ghost use Rattle.client_model.specs.declared.request.Request.TheVariants.{CreateDistribution};
ghost use Rattle.client_model.specs.declared.request.Request.TheVariants.{ReadDistribution};
ghost use Rattle.client_model.specs.declared.request.Request.TheVariants.{CreateMinMax, ReadMinMax};
ghost use Rattle.client_model.specs.declared.request.Request.TheVariants.{CreateGraph};
ghost use Rattle.client_model.specs.declared.request.Request.TheVariants.{CreateVirtualImage};
ghost use Rattle.client_model.specs.declared.request.Request.TheVariants.{AddNode, RemoveNode};
ghost use Rattle.client_model.specs.declared.request.Request.TheVariants.{VerifyGraph};
ghost use Rattle.client_model.specs.declared.request.Request.TheVariants.{ProcessGraph, Immediate};
ghost use Rattle.client_model.specs.declared.request.Request.TheVariants.{CreateDelay, AgeDelay};
ghost use Rattle.client_model.specs.declared.request.Request.TheVariants.{RegisterAutoAging};
ghost use Rattle.vx_wire.specs.declared.body_fault.BodyFault.TheVariants.{InvalidParameters};
ghost use Rattle.vx_wire.specs.declared.body_fault.BodyFault.TheVariants.{InvalidFormat};
ghost use Rattle.vx_wire.specs.declared.body_fault.BodyFault.TheVariants.{InvalidDimension};
ghost use Rattle.vx_wire.specs.declared.body_fault.BodyFault.TheVariants.{InvalidValue};
ghost use Rattle.vx_wire.specs.Requests.{request_of, body_of};
ghost use Rattle.vx_wire.specs.Described.{described_bytes};
ghost use Rattle.vx_wire.specs.Counts.{counts_bytes};
ghost use Rattle.vx_wire.specs.Extremes.{extremes_bytes};

/// OpenContext and ReleaseContext have an empty body. An unknown op number encodes no request.
pub fn ops()
    ensures open { request_of 1 [] ≡ Ok OpenContext }
    ensures open_with_more { request_of 1 (0 ∷ []) ≡ Err InvalidParameters }
    ensures release { request_of 2 [] ≡ Ok ReleaseContext }
    ensures release_with_more { request_of 2 (0 ∷ []) ≡ Err InvalidParameters }
    ensures none { request_of 0 [] ≡ Err InvalidParameters }
    ensures not_known { request_of 200 [] ≡ Err InvalidParameters }
{}

/// Creating images of 1 by 1 and of 8192 by 2 pixels. Then invalid descriptions, and bodies that
/// are too short or too long.
pub fn images_made()
    ensures smallest { request_of 3 (1 ∷ 0 ∷ 1 ∷ 0 ∷ 1 ∷ [])
        ≡ Ok (CreateImage (record { width = 1; height = 1; format = U8 })) }
    ensures wide { request_of 3 (3 ∷ 32 ∷ 0 ∷ 0 ∷ 2 ∷ [])
        ≡ Ok (CreateImage (record { width = 8192; height = 2; format = U32 })) }
    ensures no_format { request_of 3 (4 ∷ 0 ∷ 1 ∷ 0 ∷ 1 ∷ []) ≡ Err InvalidFormat }
    ensures no_width { request_of 3 (1 ∷ 0 ∷ 0 ∷ 0 ∷ 1 ∷ []) ≡ Err InvalidDimension }
    ensures too_high { request_of 3 (1 ∷ 0 ∷ 1 ∷ 32 ∷ 1 ∷ []) ≡ Err InvalidDimension }
    ensures cut { request_of 3 (1 ∷ 0 ∷ 1 ∷ 0 ∷ []) ≡ Err InvalidParameters }
    ensures more { request_of 3 (1 ∷ 0 ∷ 1 ∷ 0 ∷ 1 ∷ 0 ∷ []) ≡ Err InvalidParameters }
    ensures first_fault { request_of 3 (4 ∷ 0 ∷ []) ≡ Err InvalidFormat }
{}

/// Writing the samples -2 and 1 to image 7, and reading slot 3 of delay 258.
pub fn images_written_and_read()
    ensures written { request_of 5 (0 ∷ 0 ∷ 0 ∷ 7 ∷ 255 ∷ 2 ∷ 0 ∷ 2 ∷ 0 ∷ 1 ∷ 255
        ∷ 254 ∷ 0 ∷ 1 ∷ [])
        ≡ Ok (WriteImage (record { name = 7; slot = None })
        (record {
          description = record { width = 2; height = 1; format = S16 };
          samples = negsuc 1
              ∷ pos 1 ∷ [];
        })) }
    ensures a_byte_short { request_of 5 (0 ∷ 0 ∷ 0 ∷ 7 ∷ 255 ∷ 2 ∷ 0 ∷ 2 ∷ 0 ∷ 1 ∷ 255 ∷ 254
        ∷ 0 ∷ []) ≡ Err InvalidParameters }
    ensures a_byte_more { request_of 5 (0 ∷ 0 ∷ 0 ∷ 7 ∷ 255 ∷ 1 ∷ 0 ∷ 1 ∷ 0 ∷ 1 ∷ 9 ∷ 9 ∷ [])
        ≡ Err InvalidParameters }
    ensures read { request_of 7 (0 ∷ 0 ∷ 1 ∷ 2 ∷ 3 ∷ [])
        ≡ Ok (ReadImage (record { name = 258; slot = Some 3 })) }
{}

/// Writing texts to image 7 and to slot 3 of delay 258. Parsing the body doesn't parse the text,
/// which may be empty. A reference that is cut short is a fault.
pub fn texts_written()
    ensures written { request_of 6 (0 ∷ 0 ∷ 0 ∷ 7 ∷ 255 ∷ 80 ∷ 53 ∷ 10 ∷ [])
        ≡ Ok (WriteImagePgm (record { name = 7; slot = None }) (80 ∷ 53 ∷ 10 ∷ [])) }
    ensures to_a_slot { request_of 6 (0 ∷ 0 ∷ 1 ∷ 2 ∷ 3 ∷ 255 ∷ [])
        ≡ Ok (WriteImagePgm (record { name = 258; slot = Some 3 }) (255 ∷ [])) }
    ensures empty { request_of 6 (0 ∷ 0 ∷ 0 ∷ 7 ∷ 255 ∷ [])
        ≡ Ok (WriteImagePgm (record { name = 7; slot = None }) []) }
    ensures cut { request_of 6 (0 ∷ 0 ∷ 0 ∷ 7 ∷ []) ≡ Err InvalidParameters }
{}

/// Reading image 7 as a text; references that are cut short or followed by more bytes.
pub fn texts_read()
    ensures read { request_of 8 (0 ∷ 0 ∷ 0 ∷ 7 ∷ 255 ∷ [])
        ≡ Ok (ReadImagePgm (record { name = 7; slot = None })) }
    ensures of_a_slot { request_of 8 (0 ∷ 0 ∷ 1 ∷ 2 ∷ 3 ∷ [])
        ≡ Ok (ReadImagePgm (record { name = 258; slot = Some 3 })) }
    ensures cut { request_of 8 (0 ∷ 0 ∷ 0 ∷ 7 ∷ []) ≡ Err InvalidParameters }
    ensures more { request_of 8 (0 ∷ 0 ∷ 0 ∷ 7 ∷ 255 ∷ 0 ∷ []) ≡ Err InvalidParameters }
{}

/// Querying image 1; references that are cut short or followed by more bytes.
pub fn images_queried()
    ensures queried { request_of 4 (0 ∷ 0 ∷ 0 ∷ 1 ∷ 255 ∷ [])
        ≡ Ok (QueryImage (record { name = 1; slot = None })) }
    ensures of_a_slot { request_of 4 (0 ∷ 0 ∷ 1 ∷ 2 ∷ 3 ∷ [])
        ≡ Ok (QueryImage (record { name = 258; slot = Some 3 })) }
    ensures cut { request_of 4 (0 ∷ 0 ∷ 0 ∷ 1 ∷ []) ≡ Err InvalidParameters }
    ensures more { request_of 4 (0 ∷ 0 ∷ 0 ∷ 1 ∷ 255 ∷ 0 ∷ []) ≡ Err InvalidParameters }
{}

/// The replies to QueryImage for two images. One has the format U8 and 4 by 1 pixels, of which the
/// middle two are valid. The other has an open format and 258 by 1 pixels, none of them valid.
pub fn images_described()
    ensures known { described_bytes (record {
      format = Some U8;
      width = 4;
      height = 1;
      valid =
          record { x0 = 1; y0 = 0; x1 = 3; y1 = 1 };
    })
        ≡ 1 ∷ 0 ∷ 4 ∷ 0 ∷ 1 ∷ 0 ∷ 1 ∷ 0 ∷ 0 ∷ 0 ∷ 3 ∷ 0 ∷ 1 ∷ [] }
    ensures open { described_bytes (record {
      format = None;
      width = 258;
      height = 1;
      valid =
          record { x0 = 0; y0 = 0; x1 = 0; y1 = 0 };
    })
        ≡ 0 ∷ 1 ∷ 2 ∷ 0 ∷ 1 ∷ 0 ∷ 0 ∷ 0 ∷ 0 ∷ 0 ∷ 0 ∷ 0 ∷ 0 ∷ [] }
{}

/// Setting the valid rectangle of image 1 to columns 1 and 2 of row 0, or to no pixels; and invalid
/// bounds. The bounds are checked only after all four have been read.
pub fn valid_rectangles_set()
    ensures set { request_of 9 (0 ∷ 0 ∷ 0 ∷ 1 ∷ 255 ∷ 0 ∷ 1 ∷ 0 ∷ 0 ∷ 0 ∷ 3 ∷ 0 ∷ 1 ∷ [])
        ≡ Ok (SetValid (record { name = 1; slot = None })
        (record { x0 = 1; y0 = 0; x1 = 3; y1 = 1 })) }
    ensures of_a_slot { request_of 9 (0 ∷ 0 ∷ 1 ∷ 2 ∷ 5 ∷ 0 ∷ 0 ∷ 0 ∷ 0 ∷ 1 ∷ 2 ∷ 16 ∷ 0 ∷ [])
        ≡ Ok (SetValid (record { name = 258; slot = Some 5 })
        (record { x0 = 0; y0 = 0; x1 = 258; y1 = 4096 })) }
    ensures none { request_of 9 (0 ∷ 0 ∷ 0 ∷ 1 ∷ 255 ∷ 0 ∷ 0 ∷ 0 ∷ 0 ∷ 0 ∷ 0 ∷ 0 ∷ 0 ∷ [])
        ≡ Ok (SetValid (record { name = 1; slot = None })
        (record { x0 = 0; y0 = 0; x1 = 0; y1 = 0 })) }
    ensures turned { request_of 9 (0 ∷ 0 ∷ 0 ∷ 1 ∷ 255 ∷ 0 ∷ 3 ∷ 0 ∷ 0 ∷ 0 ∷ 1 ∷ 0 ∷ 1 ∷ [])
        ≡ Err InvalidValue }
    ensures turned_rows { request_of 9 (0 ∷ 0 ∷ 0 ∷ 1 ∷ 255 ∷ 0 ∷ 1 ∷ 0 ∷ 1 ∷ 0 ∷ 3 ∷ 0 ∷ 0 ∷ [])
        ≡ Err InvalidValue }
    ensures no_columns { request_of 9 (0 ∷ 0 ∷ 0 ∷ 1 ∷ 255 ∷ 0 ∷ 1 ∷ 0 ∷ 0 ∷ 0 ∷ 1 ∷ 0 ∷ 1 ∷ [])
        ≡ Err InvalidValue }
    ensures turned_and_more { request_of 9
        (0 ∷ 0 ∷ 0 ∷ 1 ∷ 255 ∷ 0 ∷ 3 ∷ 0 ∷ 0 ∷ 0 ∷ 1 ∷ 0 ∷ 1 ∷ 0 ∷ []) ≡ Err InvalidValue }
    ensures turned_and_cut { request_of 9 (0 ∷ 0 ∷ 0 ∷ 1 ∷ 255 ∷ 0 ∷ 3 ∷ 0 ∷ 0 ∷ 0 ∷ 1 ∷ 0 ∷ [])
        ≡ Err InvalidParameters }
    ensures cut { request_of 9 (0 ∷ 0 ∷ 0 ∷ 1 ∷ 255 ∷ []) ≡ Err InvalidParameters }
    ensures more { request_of 9 (0 ∷ 0 ∷ 0 ∷ 1 ∷ 255 ∷ 0 ∷ 1 ∷ 0 ∷ 0 ∷ 0 ∷ 3 ∷ 0 ∷ 1 ∷ 0 ∷ [])
        ≡ Err InvalidParameters }
{}

/// Releasing object 258; a name that is cut short or is followed by a slot.
pub fn objects_released()
    ensures released { request_of 10 (0 ∷ 0 ∷ 1 ∷ 2 ∷ []) ≡ Ok (Release 258) }
    ensures cut { request_of 10 (0 ∷ 0 ∷ 1 ∷ []) ≡ Err InvalidParameters }
    ensures with_a_slot { request_of 10 (0 ∷ 0 ∷ 1 ∷ 2 ∷ 255 ∷ []) ≡ Err InvalidParameters }
{}

/// Lookup tables of an invalid format, and lookup tables that are cut short.
pub fn tables()
    ensures no_format { request_of 11 (3 ∷ []) ≡ Err InvalidFormat }
    ensures one_entry { request_of 11 (1 ∷ 5 ∷ []) ≡ Err InvalidParameters }
    ensures no_entries { request_of 11 (2 ∷ []) ≡ Err InvalidParameters }
    ensures empty { request_of 11 [] ≡ Err InvalidParameters }
{}

/// Thresholds for U8 samples above 10 and for S16 samples from -1 to 2; and invalid fields.
pub fn thresholds()
    ensures binary { request_of 12 (0 ∷ 1 ∷ 0 ∷ 10 ∷ 255 ∷ 0 ∷ [])
        ≡ Ok (CreateThreshold (record {
          format = U8;
          kind = Binary
              (pos 10);
          true_value = 255;
          false_value = 0;
        })) }
    ensures range { request_of 12 (1 ∷ 2 ∷ 255 ∷ 255 ∷ 0 ∷ 2 ∷ 255 ∷ 0 ∷ [])
        ≡ Ok (CreateThreshold (record {
          format = S16;
          kind = Range (negsuc 0)
              (pos 2);
          true_value = 255;
          false_value = 0;
        })) }
    ensures no_kind { request_of 12 (2 ∷ 1 ∷ 0 ∷ 10 ∷ 255 ∷ 0 ∷ []) ≡ Err InvalidParameters }
    ensures no_format { request_of 12 (0 ∷ 3 ∷ 0 ∷ 10 ∷ 255 ∷ 0 ∷ []) ≡ Err InvalidFormat }
    ensures below { request_of 12 (0 ∷ 1 ∷ 255 ∷ 255 ∷ 255 ∷ 0 ∷ []) ≡ Err InvalidValue }
    ensures above { request_of 12 (0 ∷ 1 ∷ 1 ∷ 0 ∷ 255 ∷ 0 ∷ []) ≡ Err InvalidValue }
    ensures turned { request_of 12 (1 ∷ 2 ∷ 0 ∷ 2 ∷ 255 ∷ 255 ∷ 255 ∷ 0 ∷ []) ≡ Err InvalidValue }
    ensures cut { request_of 12 (0 ∷ 1 ∷ []) ≡ Err InvalidParameters }
    ensures more { request_of 12 (0 ∷ 1 ∷ 0 ∷ 10 ∷ 255 ∷ 0 ∷ 0 ∷ []) ≡ Err InvalidParameters }
{}

/// A convolution of 3 columns and 5 rows, with the exponent 31; and invalid sizes and exponents.
/// The first invalid field decides the fault, even if the coefficients are cut short.
pub fn convolutions()
    ensures made { request_of 13 (3 ∷ 5 ∷ 31 ∷ 0 ∷ 1 ∷ 255 ∷ 254 ∷ 0 ∷ 3 ∷ 0 ∷ 4 ∷ 0 ∷ 5 ∷ 0 ∷ 6 ∷ 0
        ∷ 7 ∷ 0 ∷ 8 ∷ 0 ∷ 9 ∷ 0 ∷ 10 ∷ 0 ∷ 11 ∷ 0 ∷ 12 ∷ 0 ∷ 13 ∷ 127 ∷ 255 ∷ 128 ∷ 0 ∷ [])
        ≡ Ok (CreateConvolution (record {
          columns = 3;
          rows = 5;
          exponent = 31;
          coefficients = pos 1
              ∷ negsuc 1 ∷ pos 3 ∷ pos 4 ∷ pos 5 ∷ pos 6 ∷ pos 7 ∷ pos 8 ∷ pos 9 ∷ pos 10 ∷ pos 11
              ∷ pos 12 ∷ pos 13 ∷ pos 32767 ∷ negsuc 32767 ∷ [];
        })) }
    ensures even_columns { request_of 13 (4 ∷ 5 ∷ 0 ∷ []) ≡ Err InvalidDimension }
    ensures one_column { request_of 13 (1 ∷ []) ≡ Err InvalidDimension }
    ensures too_many_rows { request_of 13 (3 ∷ 11 ∷ 32 ∷ []) ≡ Err InvalidDimension }
    ensures too_high { request_of 13 (9 ∷ 9 ∷ 32 ∷ []) ≡ Err InvalidValue }
    ensures cut { request_of 13 (3 ∷ 3 ∷ 0 ∷ 0 ∷ 1 ∷ 255 ∷ 254 ∷ 0 ∷ 3 ∷ 0 ∷ 4 ∷ 0 ∷ 5 ∷ 0 ∷ 6 ∷ 0
        ∷ 7 ∷ 0 ∷ 8 ∷ 0 ∷ []) ≡ Err InvalidParameters }
    ensures more { request_of 13 (3 ∷ 3 ∷ 0 ∷ 0 ∷ 1 ∷ 255 ∷ 254 ∷ 0 ∷ 3 ∷ 0 ∷ 4 ∷ 0 ∷ 5 ∷ 0 ∷ 6 ∷ 0
        ∷ 7 ∷ 0 ∷ 8 ∷ 0 ∷ 9 ∷ 0 ∷ []) ≡ Err InvalidParameters }
    ensures no_coefficients { request_of 13 (7 ∷ 7 ∷ 0 ∷ []) ≡ Err InvalidParameters }
    ensures no_exponent { request_of 13 (5 ∷ 9 ∷ []) ≡ Err InvalidParameters }
    ensures empty { request_of 13 [] ≡ Err InvalidParameters }
{}

/// Distributions of 3 bins over the values 0 to 255, of 256 bins over the values 255 to 510, and of
/// 2 bins over the single value 7. Then invalid bins. The first invalid number decides the fault,
/// even if the body ends too early.
pub fn distributions_made()
    ensures made { request_of 14 (0 ∷ 3 ∷ 0 ∷ 0 ∷ 1 ∷ 0 ∷ [])
        ≡ Ok (CreateDistribution (record { bins = 3; offset = 0; range = 256 })) }
    ensures past_the_end { request_of 14 (1 ∷ 0 ∷ 0 ∷ 255 ∷ 1 ∷ 0 ∷ [])
        ≡ Ok (CreateDistribution (record { bins = 256; offset = 255; range = 256 })) }
    ensures more_than_samples { request_of 14 (0 ∷ 2 ∷ 0 ∷ 7 ∷ 0 ∷ 1 ∷ [])
        ≡ Ok (CreateDistribution (record { bins = 2; offset = 7; range = 1 })) }
    ensures no_bins { request_of 14 (0 ∷ 0 ∷ 0 ∷ 0 ∷ 1 ∷ 0 ∷ []) ≡ Err InvalidValue }
    ensures too_many { request_of 14 (1 ∷ 1 ∷ 0 ∷ 0 ∷ 1 ∷ 0 ∷ []) ≡ Err InvalidValue }
    ensures too_late { request_of 14 (0 ∷ 3 ∷ 1 ∷ 0 ∷ 1 ∷ 0 ∷ []) ≡ Err InvalidValue }
    ensures no_range { request_of 14 (0 ∷ 3 ∷ 0 ∷ 0 ∷ 0 ∷ 0 ∷ []) ≡ Err InvalidValue }
    ensures too_long { request_of 14 (0 ∷ 3 ∷ 0 ∷ 0 ∷ 1 ∷ 1 ∷ []) ≡ Err InvalidValue }
    ensures no_bins_and_cut { request_of 14 (0 ∷ 0 ∷ 0 ∷ []) ≡ Err InvalidValue }
    ensures too_long_and_more { request_of 14 (0 ∷ 3 ∷ 0 ∷ 0 ∷ 1 ∷ 1 ∷ 0 ∷ []) ≡ Err InvalidValue }
    ensures cut { request_of 14 (0 ∷ 3 ∷ 0 ∷ 0 ∷ 1 ∷ []) ≡ Err InvalidParameters }
    ensures more { request_of 14 (0 ∷ 3 ∷ 0 ∷ 0 ∷ 1 ∷ 0 ∷ 0 ∷ []) ≡ Err InvalidParameters }
{}

/// Reading distribution 258; a name that is cut short or is followed by a slot.
pub fn distributions_read()
    ensures read { request_of 15 (0 ∷ 0 ∷ 1 ∷ 2 ∷ []) ≡ Ok (ReadDistribution 258) }
    ensures cut { request_of 15 (0 ∷ 0 ∷ 1 ∷ []) ≡ Err InvalidParameters }
    ensures with_a_slot { request_of 15 (0 ∷ 0 ∷ 1 ∷ 2 ∷ 255 ∷ []) ≡ Err InvalidParameters }
{}

/// CreateMinMax, which has an empty body, and ReadMinMax of object 258.
pub fn extremes_made_and_read()
    ensures made { request_of 16 [] ≡ Ok CreateMinMax }
    ensures made_with_more { request_of 16 (0 ∷ []) ≡ Err InvalidParameters }
    ensures read { request_of 17 (0 ∷ 0 ∷ 1 ∷ 2 ∷ []) ≡ Ok (ReadMinMax 258) }
    ensures cut { request_of 17 (0 ∷ 0 ∷ 1 ∷ []) ≡ Err InvalidParameters }
    ensures with_a_slot { request_of 17 (0 ∷ 0 ∷ 1 ∷ 2 ∷ 255 ∷ []) ≡ Err InvalidParameters }
{}

/// The replies for a distribution of 3 bins, and for extremes: the least sample -2 and the greatest
/// sample 258. Sample -2 occurs once, in column 3 and row 4. Sample 258 occurs 65,536 times, first
/// in column 5 and row 515.
pub fn statistics_replies()
    ensures counts { counts_bytes (1 ∷ 0 ∷ 16777216 ∷ [])
        ≡ 0 ∷ 3 ∷ 0 ∷ 0 ∷ 0 ∷ 1 ∷ 0 ∷ 0 ∷ 0 ∷ 0 ∷ 1 ∷ 0 ∷ 0 ∷ 0 ∷ [] }
    ensures extremes { extremes_bytes (record {
      min = negsuc 1;
      max = pos 258;
      min_count = 1;
      max_count = 65536;
      min_at = (3, 4);
      max_at = (5, 515);
    })
        ≡ 255 ∷ 254 ∷ 1 ∷ 2 ∷ 0 ∷ 0 ∷ 0 ∷ 1 ∷ 0 ∷ 1 ∷ 0 ∷ 0 ∷ 0 ∷ 3 ∷ 0 ∷ 4 ∷ 0 ∷ 5 ∷ 2 ∷ 3 ∷ [] }
{}

/// CreateGraph, which has an empty body.
pub fn graphs_made()
    ensures made { request_of 18 [] ≡ Ok CreateGraph }
    ensures more { request_of 18 (0 ∷ []) ≡ Err InvalidParameters }
{}

/// Creating virtual images of graph 3 with all, no or some fields known; and fields that are out of
/// range. The first invalid field decides the fault, even if the next field is cut short.
pub fn virtual_images_made()
    ensures known { request_of 19 (0 ∷ 0 ∷ 0 ∷ 3 ∷ 1 ∷ 1 ∷ 2 ∷ 32 ∷ 0 ∷ [])
        ≡ Ok (CreateVirtualImage 3 (record {
          width = Some 258;
          height = Some 8192;
          format = Some U8;
        })) }
    ensures open { request_of 19 (0 ∷ 0 ∷ 0 ∷ 3 ∷ 0 ∷ 0 ∷ 0 ∷ 0 ∷ 0 ∷ [])
        ≡ Ok (CreateVirtualImage 3 (record { width = None; height = None; format = None })) }
    ensures open_width { request_of 19 (0 ∷ 0 ∷ 0 ∷ 3 ∷ 2 ∷ 0 ∷ 0 ∷ 0 ∷ 1 ∷ [])
        ≡ Ok (CreateVirtualImage 3 (record { width = None; height = Some 1; format = Some S16 })) }
    ensures open_height { request_of 19 (0 ∷ 0 ∷ 0 ∷ 3 ∷ 3 ∷ 0 ∷ 1 ∷ 0 ∷ 0 ∷ [])
        ≡ Ok (CreateVirtualImage 3 (record { width = Some 1; height = None; format = Some U32 })) }
    ensures open_format { request_of 19 (0 ∷ 0 ∷ 0 ∷ 3 ∷ 0 ∷ 0 ∷ 1 ∷ 0 ∷ 2 ∷ [])
        ≡ Ok (CreateVirtualImage 3 (record { width = Some 1; height = Some 2; format = None })) }
    ensures no_format { request_of 19 (0 ∷ 0 ∷ 0 ∷ 3 ∷ 4 ∷ 0 ∷ 1 ∷ 0 ∷ 1 ∷ []) ≡ Err InvalidFormat }
    ensures too_wide { request_of 19 (0 ∷ 0 ∷ 0 ∷ 3 ∷ 1 ∷ 32 ∷ 1 ∷ 0 ∷ 1 ∷ [])
        ≡ Err InvalidDimension }
    ensures too_high { request_of 19 (0 ∷ 0 ∷ 0 ∷ 3 ∷ 0 ∷ 0 ∷ 0 ∷ 32 ∷ 1 ∷ [])
        ≡ Err InvalidDimension }
    ensures no_format_and_cut { request_of 19 (0 ∷ 0 ∷ 0 ∷ 3 ∷ 4 ∷ []) ≡ Err InvalidFormat }
    ensures too_wide_and_cut { request_of 19 (0 ∷ 0 ∷ 0 ∷ 3 ∷ 1 ∷ 32 ∷ 1 ∷ 0 ∷ [])
        ≡ Err InvalidDimension }
    ensures too_high_and_more { request_of 19 (0 ∷ 0 ∷ 0 ∷ 3 ∷ 1 ∷ 0 ∷ 1 ∷ 32 ∷ 1 ∷ 0 ∷ [])
        ≡ Err InvalidDimension }
    ensures cut { request_of 19 (0 ∷ 0 ∷ 0 ∷ 3 ∷ 0 ∷ 0 ∷ 0 ∷ 0 ∷ []) ≡ Err InvalidParameters }
    ensures more { request_of 19 (0 ∷ 0 ∷ 0 ∷ 3 ∷ 0 ∷ 0 ∷ 0 ∷ 0 ∷ 0 ∷ 0 ∷ [])
        ≡ Err InvalidParameters }
    ensures no_description { request_of 19 (0 ∷ 0 ∷ 0 ∷ 3 ∷ []) ≡ Err InvalidParameters }
    ensures no_name { request_of 19 (0 ∷ 0 ∷ 0 ∷ []) ≡ Err InvalidParameters }
{}

/// Adding a Not node to graph 258. The node reads image 1 and writes image 2. Then invalid nodes.
/// The graph's name is read before the node.
pub fn nodes_added()
    ensures added { request_of 20 (0 ∷ 0 ∷ 1 ∷ 2 ∷ 4 ∷ 0 ∷ 0 ∷ 0 ∷ 0 ∷ 0 ∷ 0 ∷ 0 ∷ 1 ∷ 255 ∷ 0 ∷ 0
        ∷ 0 ∷ 0 ∷ 255 ∷ 0 ∷ 0 ∷ 0 ∷ 2 ∷ 255 ∷ 0 ∷ 0 ∷ 0 ∷ 0 ∷ 255 ∷ [])
        ≡ Ok (AddNode 258 (record {
          function = NotBits;
          border = Undefined;
          policy = Wrap;
          amount =
              0;
          in1 = record { name = 1; slot = None };
          in2 = None;
          out1 = Some
              (record { name = 2; slot = None });
          out2 = None;
        })) }
    ensures no_function { request_of 20 (0 ∷ 0 ∷ 1 ∷ 2 ∷ 0 ∷ []) ≡ Err InvalidParameters }
    ensures too_much { request_of 20 (0 ∷ 0 ∷ 1 ∷ 2 ∷ 7 ∷ 0 ∷ 0 ∷ 1 ∷ 16 ∷ 0 ∷ 0 ∷ 0 ∷ 1 ∷ 255 ∷ 0
        ∷ 0 ∷ 0 ∷ 2 ∷ 255 ∷ 0 ∷ 0 ∷ 0 ∷ 4 ∷ 255 ∷ 0 ∷ 0 ∷ 0 ∷ 0 ∷ 255 ∷ []) ≡ Err InvalidValue }
    ensures too_much_and_cut { request_of 20 (0 ∷ 0 ∷ 1 ∷ 2 ∷ 7 ∷ 0 ∷ 0 ∷ 1 ∷ 16 ∷ [])
        ≡ Err InvalidValue }
    ensures cut { request_of 20 (0 ∷ 0 ∷ 1 ∷ 2 ∷ 4 ∷ 0 ∷ 0 ∷ 0 ∷ 0 ∷ 0 ∷ 0 ∷ 0 ∷ 1 ∷ 255 ∷ 0 ∷ 0 ∷ 0
        ∷ 0 ∷ 255 ∷ 0 ∷ 0 ∷ 0 ∷ 2 ∷ 255 ∷ 0 ∷ 0 ∷ 0 ∷ 0 ∷ []) ≡ Err InvalidParameters }
    ensures more { request_of 20 (0 ∷ 0 ∷ 1 ∷ 2 ∷ 4 ∷ 0 ∷ 0 ∷ 0 ∷ 0 ∷ 0 ∷ 0 ∷ 0 ∷ 1 ∷ 255 ∷ 0 ∷ 0
        ∷ 0 ∷ 0 ∷ 255 ∷ 0 ∷ 0 ∷ 0 ∷ 2 ∷ 255 ∷ 0 ∷ 0 ∷ 0 ∷ 0 ∷ 255 ∷ 0 ∷ [])
        ≡ Err InvalidParameters }
    ensures no_node { request_of 20 (0 ∷ 0 ∷ 1 ∷ 2 ∷ []) ≡ Err InvalidParameters }
    ensures no_name { request_of 20 (4 ∷ 0 ∷ 0 ∷ []) ≡ Err InvalidParameters }
{}

/// Removing node 258 from graph 3.
pub fn nodes_removed()
    ensures removed { request_of 21 (0 ∷ 0 ∷ 0 ∷ 3 ∷ 0 ∷ 0 ∷ 1 ∷ 2 ∷ []) ≡ Ok (RemoveNode 3 258) }
    ensures cut { request_of 21 (0 ∷ 0 ∷ 0 ∷ 3 ∷ 0 ∷ 0 ∷ 1 ∷ []) ≡ Err InvalidParameters }
    ensures more { request_of 21 (0 ∷ 0 ∷ 0 ∷ 3 ∷ 0 ∷ 0 ∷ 1 ∷ 2 ∷ 255 ∷ [])
        ≡ Err InvalidParameters }
{}

/// Verifying and running graph 258; a name that is cut short or is followed by a slot.
pub fn graphs_verified_and_run()
    ensures verified { request_of 22 (0 ∷ 0 ∷ 1 ∷ 2 ∷ []) ≡ Ok (VerifyGraph 258) }
    ensures verified_cut { request_of 22 (0 ∷ 0 ∷ 1 ∷ []) ≡ Err InvalidParameters }
    ensures verified_with_a_slot { request_of 22 (0 ∷ 0 ∷ 1 ∷ 2 ∷ 255 ∷ [])
        ≡ Err InvalidParameters }
    ensures run { request_of 23 (0 ∷ 0 ∷ 1 ∷ 2 ∷ []) ≡ Ok (ProcessGraph 258) }
    ensures run_cut { request_of 23 (0 ∷ 0 ∷ 1 ∷ []) ≡ Err InvalidParameters }
    ensures run_with_a_slot { request_of 23 (0 ∷ 0 ∷ 1 ∷ 2 ∷ 255 ∷ []) ≡ Err InvalidParameters }
{}

/// Running a Not node from image 1 to image 2, with an UNDEFINED or a CONSTANT border. Then invalid
/// Not nodes: cut short, with policy 1, with UNDEFINED and constant 5, without an input, or with
/// two inputs.
pub fn nodes()
    ensures whole { request_of 24 (4 ∷ 0 ∷ 0 ∷ 0 ∷ 0 ∷ 0 ∷ 0 ∷ 0 ∷ 1 ∷ 255 ∷ 0 ∷ 0 ∷ 0 ∷ 0 ∷ 255 ∷ 0
        ∷ 0 ∷ 0 ∷ 2 ∷ 255 ∷ 0 ∷ 0 ∷ 0 ∷ 0 ∷ 255 ∷ [])
        ≡ Ok (Immediate (record {
          function = NotBits;
          border = Undefined;
          policy = Wrap;
          amount = 0;
          in1 = record { name = 1; slot = None };
          in2 = None;
          out1 = Some
              (record { name = 2; slot = None });
          out2 = None;
        })) }
    ensures constant { request_of 24 (4 ∷ 1 ∷ 5 ∷ 0 ∷ 0 ∷ 0 ∷ 0 ∷ 0 ∷ 1 ∷ 255 ∷ 0 ∷ 0 ∷ 0 ∷ 0 ∷ 255
        ∷ 0 ∷ 0 ∷ 0 ∷ 2 ∷ 255 ∷ 0 ∷ 0 ∷ 0 ∷ 0 ∷ 255 ∷ [])
        ≡ Ok (Immediate (record {
          function = NotBits;
          border = Constant 5;
          policy = Wrap;
          amount =
              0;
          in1 = record { name = 1; slot = None };
          in2 = None;
          out1 = Some
              (record { name = 2; slot = None });
          out2 = None;
        })) }
    ensures cut { request_of 24 (4 ∷ []) ≡ Err InvalidParameters }
    ensures other_policy { request_of 24
        (4 ∷ 0 ∷ 0 ∷ 1 ∷ 0 ∷ 0 ∷ 0 ∷ 0 ∷ 1 ∷ 255 ∷ 0 ∷ 0 ∷ 0 ∷ 0 ∷ 255 ∷ 0 ∷ 0 ∷ 0 ∷ 2 ∷ 255 ∷ 0 ∷ 0
        ∷ 0 ∷ 0 ∷ 255 ∷ []) ≡ Err InvalidParameters }
    ensures other_constant { request_of 24
        (4 ∷ 0 ∷ 5 ∷ 0 ∷ 0 ∷ 0 ∷ 0 ∷ 0 ∷ 1 ∷ 255 ∷ 0 ∷ 0 ∷ 0 ∷ 0 ∷ 255 ∷ 0 ∷ 0 ∷ 0 ∷ 2 ∷ 255 ∷ 0 ∷ 0
        ∷ 0 ∷ 0 ∷ 255 ∷ []) ≡ Err InvalidParameters }
    ensures no_input { request_of 24 (4 ∷ 0 ∷ 0 ∷ 0 ∷ 0 ∷ 0 ∷ 0 ∷ 0 ∷ 0 ∷ 255 ∷ 0 ∷ 0 ∷ 0 ∷ 0 ∷ 255
        ∷ 0 ∷ 0 ∷ 0 ∷ 2 ∷ 255 ∷ 0 ∷ 0 ∷ 0 ∷ 0 ∷ 255 ∷ []) ≡ Err InvalidParameters }
    ensures second_input { request_of 24
        (4 ∷ 0 ∷ 0 ∷ 0 ∷ 0 ∷ 0 ∷ 0 ∷ 0 ∷ 1 ∷ 255 ∷ 0 ∷ 0 ∷ 0 ∷ 3 ∷ 255 ∷ 0 ∷ 0 ∷ 0 ∷ 2 ∷ 255 ∷ 0 ∷ 0
        ∷ 0 ∷ 0 ∷ 255 ∷ []) ≡ Err InvalidParameters }
{}

/// A saturating Multiply node from images 1 and 2 to image 3, with the amount 15 (the scale is
/// 1 / 2^15); and amounts above 15.
pub fn multiply_nodes()
    ensures whole { request_of 24 (7 ∷ 0 ∷ 0 ∷ 1 ∷ 15 ∷ 0 ∷ 0 ∷ 0 ∷ 1 ∷ 255 ∷ 0 ∷ 0 ∷ 0 ∷ 2 ∷ 255
        ∷ 0 ∷ 0 ∷ 0 ∷ 3 ∷ 255 ∷ 0 ∷ 0 ∷ 0 ∷ 0 ∷ 255 ∷ [])
        ≡ Ok (Immediate (record {
          function = Multiply;
          border = Undefined;
          policy = Saturate;
          amount
              = 15;
          in1 = record { name = 1; slot = None };
          in2 = Some
              (record { name = 2; slot = None });
          out1 = Some
              (record { name = 3; slot = None });
          out2 = None;
        })) }
    ensures too_much { request_of 24 (7 ∷ 0 ∷ 0 ∷ 1 ∷ 16 ∷ 0 ∷ 0 ∷ 0 ∷ 1 ∷ 255 ∷ 0 ∷ 0 ∷ 0 ∷ 2 ∷ 255
        ∷ 0 ∷ 0 ∷ 0 ∷ 3 ∷ 255 ∷ 0 ∷ 0 ∷ 0 ∷ 0 ∷ 255 ∷ []) ≡ Err InvalidValue }
    ensures too_much_and_cut { request_of 24 (7 ∷ 0 ∷ 0 ∷ 0 ∷ 16 ∷ []) ≡ Err InvalidValue }
{}

/// Creating delays of 3, 1 and 16 slots from image 1, and of 3 slots from slot 5 of delay 258. Then
/// invalid slot counts, and bodies that are too short or too long.
pub fn delays_made()
    ensures made { request_of 25 (0 ∷ 0 ∷ 0 ∷ 1 ∷ 255 ∷ 3 ∷ [])
        ≡ Ok (CreateDelay (record { name = 1; slot = None }) 3) }
    ensures fewest { request_of 25 (0 ∷ 0 ∷ 0 ∷ 1 ∷ 255 ∷ 1 ∷ [])
        ≡ Ok (CreateDelay (record { name = 1; slot = None }) 1) }
    ensures most { request_of 25 (0 ∷ 0 ∷ 0 ∷ 1 ∷ 255 ∷ 16 ∷ [])
        ≡ Ok (CreateDelay (record { name = 1; slot = None }) 16) }
    ensures of_a_slot { request_of 25 (0 ∷ 0 ∷ 1 ∷ 2 ∷ 5 ∷ 3 ∷ [])
        ≡ Ok (CreateDelay (record { name = 258; slot = Some 5 }) 3) }
    ensures no_slots { request_of 25 (0 ∷ 0 ∷ 0 ∷ 1 ∷ 255 ∷ 0 ∷ []) ≡ Err InvalidValue }
    ensures too_many { request_of 25 (0 ∷ 0 ∷ 0 ∷ 1 ∷ 255 ∷ 17 ∷ []) ≡ Err InvalidValue }
    ensures too_many_and_more { request_of 25 (0 ∷ 0 ∷ 0 ∷ 1 ∷ 255 ∷ 17 ∷ 0 ∷ [])
        ≡ Err InvalidValue }
    ensures cut { request_of 25 (0 ∷ 0 ∷ 0 ∷ 1 ∷ 255 ∷ []) ≡ Err InvalidParameters }
    ensures more { request_of 25 (0 ∷ 0 ∷ 0 ∷ 1 ∷ 255 ∷ 3 ∷ 0 ∷ []) ≡ Err InvalidParameters }
{}

/// Ageing delay 2; a name that is cut short or is followed by a slot.
pub fn delays_aged()
    ensures aged { request_of 26 (0 ∷ 0 ∷ 0 ∷ 2 ∷ []) ≡ Ok (AgeDelay 2) }
    ensures cut { request_of 26 (0 ∷ 0 ∷ 0 ∷ []) ≡ Err InvalidParameters }
    ensures with_a_slot { request_of 26 (0 ∷ 0 ∷ 0 ∷ 2 ∷ 255 ∷ []) ≡ Err InvalidParameters }
{}

/// Registering delay 2 with graph 3; a name that is cut short.
pub fn delays_registered()
    ensures registered { request_of 27 (0 ∷ 0 ∷ 0 ∷ 3 ∷ 0 ∷ 0 ∷ 0 ∷ 2 ∷ [])
        ≡ Ok (RegisterAutoAging 3 2) }
    ensures cut { request_of 27 (0 ∷ 0 ∷ 0 ∷ 3 ∷ 0 ∷ 0 ∷ 0 ∷ []) ≡ Err InvalidParameters }
{}

/// The bodies of requests that hold a picture, a text, a rectangle, a threshold, a convolution, a
/// distribution's bins, a partial description, a graph's node, or a delay's number of slots.
pub fn spelled()
    ensures picture { body_of (WriteImage (record { name = 7; slot = None })
        (record {
          description = record { width = 2; height = 1; format = S16 };
          samples = negsuc 1
              ∷ pos 1 ∷ [];
        }))
        ≡ 0 ∷ 0 ∷ 0 ∷ 7 ∷ 255 ∷ 2 ∷ 0 ∷ 2 ∷ 0 ∷ 1 ∷ 255 ∷ 254 ∷ 0 ∷ 1 ∷ [] }
    ensures text { body_of (WriteImagePgm (record { name = 7; slot = None }) (80 ∷ 53 ∷ 10 ∷ []))
        ≡ 0 ∷ 0 ∷ 0 ∷ 7 ∷ 255 ∷ 80 ∷ 53 ∷ 10 ∷ [] }
    ensures rectangle { body_of (SetValid (record { name = 1; slot = None })
        (record { x0 = 1; y0 = 0; x1 = 3; y1 = 1 }))
        ≡ 0 ∷ 0 ∷ 0 ∷ 1 ∷ 255 ∷ 0 ∷ 1 ∷ 0 ∷ 0 ∷ 0 ∷ 3 ∷ 0 ∷ 1 ∷ [] }
    ensures threshold { body_of (CreateThreshold
        (record {
          format = S16;
          kind = Range (negsuc 0)
              (pos 2);
          true_value = 255;
          false_value = 0;
        }))
        ≡ 1 ∷ 2 ∷ 255 ∷ 255 ∷ 0 ∷ 2 ∷ 255 ∷ 0 ∷ [] }
    ensures convolution { body_of (CreateConvolution
        (record {
          columns = 3;
          rows = 5;
          exponent = 31;
          coefficients = pos 1 ∷ negsuc 1 ∷ pos 3
              ∷ pos 4 ∷ pos 5 ∷ pos 6 ∷ pos 7 ∷ pos 8 ∷ pos 9 ∷ pos 10 ∷ pos 11 ∷ pos 12 ∷ pos 13
              ∷ pos 32767 ∷ negsuc 32767 ∷ [];
        }))
        ≡ 3 ∷ 5 ∷ 31 ∷ 0 ∷ 1 ∷ 255 ∷ 254 ∷ 0 ∷ 3 ∷ 0 ∷ 4 ∷ 0 ∷ 5 ∷ 0 ∷ 6 ∷ 0 ∷ 7 ∷ 0 ∷ 8 ∷ 0 ∷ 9 ∷ 0
        ∷ 10 ∷ 0 ∷ 11 ∷ 0 ∷ 12 ∷ 0 ∷ 13 ∷ 127 ∷ 255 ∷ 128 ∷ 0 ∷ [] }
    ensures bins { body_of (CreateDistribution (record { bins = 3; offset = 0; range = 256 }))
        ≡ 0 ∷ 3 ∷ 0 ∷ 0 ∷ 1 ∷ 0 ∷ [] }
    ensures partial_desc { body_of (CreateVirtualImage 3
        (record { width = Some 258; height = Some 8192; format = Some U8 }))
        ≡ 0 ∷ 0 ∷ 0 ∷ 3 ∷ 1 ∷ 1 ∷ 2 ∷ 32 ∷ 0 ∷ [] }
    ensures open_description { body_of (CreateVirtualImage 3
        (record { width = None; height = Some 1; format = None }))
        ≡ 0 ∷ 0 ∷ 0 ∷ 3 ∷ 0 ∷ 0 ∷ 0 ∷ 0 ∷ 1 ∷ [] }
    ensures node_of_a_graph { body_of (AddNode 258
        (record {
          function = NotBits;
          border = Undefined;
          policy = Wrap;
          amount = 0;
          in1 =
              record { name = 1; slot = None };
          in2 = None;
          out1 = Some
              (record { name = 2; slot = None });
          out2 = None;
        }))
        ≡ 0 ∷ 0 ∷ 1 ∷ 2 ∷ 4 ∷ 0 ∷ 0 ∷ 0 ∷ 0 ∷ 0 ∷ 0 ∷ 0 ∷ 1 ∷ 255 ∷ 0 ∷ 0 ∷ 0 ∷ 0 ∷ 255 ∷ 0 ∷ 0 ∷ 0
        ∷ 2 ∷ 255 ∷ 0 ∷ 0 ∷ 0 ∷ 0 ∷ 255 ∷ [] }
    ensures delay { body_of (CreateDelay (record { name = 1; slot = None }) 3)
        ≡ 0 ∷ 0 ∷ 0 ∷ 1 ∷ 255 ∷ 3 ∷ [] }
{}
