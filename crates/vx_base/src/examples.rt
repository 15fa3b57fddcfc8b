//! Worked examples: the definitions evaluated on numbers.
ghost use Rattle.std.specs.Prelude.{◌≡◌, ◌-ℤ◌, List, [], ◌∷◌, Some, None, pos, negsuc, true, false};
ghost use Rattle.std.specs.Prelude.{codes};
ghost use Rattle.vx_base.specs.declared.format.Format.TheVariants.{U8, S16, U32};
ghost use Rattle.vx_base.specs.declared.policy.Policy.TheVariants.{Wrap, Saturate};
ghost use Rattle.vx_base.specs.declared.border.Border.TheVariants.{Undefined};
ghost use Rattle.vx_base.specs.declared.function.Function.TheVariants.{AndBits, NotBits, Add};
ghost use Rattle.vx_base.specs.declared.function.Function.TheVariants.{Threshold, TableLookup};
ghost use Rattle.vx_base.specs.declared.function.Function.TheVariants.{ConvertDepth};
ghost use Rattle.vx_base.specs.declared.threshold.ThresholdKind.TheVariants.{Binary, Range};
ghost use Rattle.vx_base.specs.declared.code.Code.TheVariants.{InvalidFormat};
ghost use Rattle.vx_base.specs.Sample.{narrow};
ghost use Rattle.vx_base.specs.Rectangle.{Rectangle, rectangle, empty_rectangle, meet_of};
ghost use Rattle.vx_base.specs.Rectangle.{shrink_of, has_pixel};
ghost use Rattle.vx_base.specs.Description.{description, byte_count};
ghost use Rattle.vx_base.specs.PartialDescription.{partial_description, partial_desc_of};
ghost use Rattle.vx_base.specs.PartialDescription.{with_defaults, full_description};
ghost use Rattle.vx_base.specs.declared.node.Node.{Node};
ghost use Rattle.vx_base.specs.Graph.{new_graph, nodes_of, with_node, without_node, can_add};
ghost use Rattle.vx_base.specs.Image.{ImageValue, image_from, pixel_at, new_image};
ghost use Rattle.vx_base.specs.Lut.{entry_for};
ghost use Rattle.vx_base.specs.Object.{ImageObject, LutObject, object_kind};
ghost use Rattle.vx_base.specs.Formats.{takes_formats, open_format};
ghost use Rattle.vx_base.specs.Function.{parameters};
ghost use Rattle.vx_base.specs.declared.kind.Kind.TheVariants.{Image};
ghost use Rattle.vx_base.specs.Pixelwise.{and_bits, or_bits, xor_bits, not_bits, sum, difference};
ghost use Rattle.vx_base.specs.Pixelwise.{product, absolute_difference, threshold_result};
ghost use Rattle.vx_base.specs.Pixelwise.{depth_conversion};
ghost use Rattle.vx_base.specs.Pixelwise.{accumulated_sum, accumulated_square, from_one, from_two};
ghost use Rattle.vx_base.specs.declared.output.Output.TheVariants.{First};
ghost use Rattle.vx_base.specs.Outputs.{node_image};
ghost use Rattle.vx_base.specs.Code.{code_number, code_name};
ghost use Rattle.vx_base.specs.Node.{is_node};

/// Numbers narrowed to samples.
pub fn narrowed()
    ensures wrapped_up { narrow U8 Wrap (pos 300) ≡ pos 44 }
    ensures wrapped_down { narrow U8 Wrap (negsuc 99) ≡ pos 156 }
    ensures wrapped_signed { narrow S16 Wrap (pos 32768) ≡ negsuc 32767 }
    ensures wrapped_long { narrow U32 Wrap (negsuc 0) ≡ pos 4294967295 }
    ensures nearest_above { narrow U8 Saturate (pos 300) ≡ pos 255 }
    ensures nearest_below { narrow U8 Saturate (negsuc 99) ≡ pos 0 }
    ensures nearest_signed { narrow S16 Saturate (pos 32768) ≡ pos 32767 }
    ensures kept { narrow S16 Saturate (negsuc 99) ≡ negsuc 99 }
{}

/// Bounds that make a rectangle, and bounds that don't. Intersections of rectangles, and rectangles
/// shrunk by radii.
pub fn rectangles()
    ensures proper { rectangle 1 0 3 1 ≡ Some (record { x0 = 1; y0 = 0; x1 = 3; y1 = 1 }) }
    ensures zeros { rectangle 0 0 0 0 ≡ Some empty_rectangle }
    ensures no_places { rectangle 3 0 3 1 ≡ None }
    ensures turned { rectangle 3 0 1 1 ≡ None }
    ensures met { meet_of (record { x0 = 0; y0 = 0; x1 = 3; y1 = 2 })
        (record { x0 = 1; y0 = 1; x1 = 4; y1 = 4 }) ≡ record { x0 = 1; y0 = 1; x1 = 3; y1 = 2 } }
    ensures apart { meet_of (record { x0 = 0; y0 = 0; x1 = 2; y1 = 1 })
        (record { x0 = 2; y0 = 0; x1 = 4; y1 = 1 }) ≡ empty_rectangle }
    ensures inner { shrink_of (record { x0 = 0; y0 = 0; x1 = 8; y1 = 7 }) 3 3
        ≡ record { x0 = 3; y0 = 3; x1 = 5; y1 = 4 } }
    ensures too_small { shrink_of (record { x0 = 0; y0 = 0; x1 = 2; y1 = 2 }) 1 1
        ≡ empty_rectangle }
{}

/// Descriptions within the limits and beyond them, and an image's size in bytes.
pub fn descriptions()
    ensures least { description 1 1 U8 ≡ Some (record { width = 1; height = 1; format = U8 }) }
    ensures greatest { description 8192 8192 U32
        ≡ Some (record { width = 8192; height = 8192; format = U32 }) }
    ensures none_wide { description 0 1 U8 ≡ None }
    ensures too_high { description 1 8193 U8 ≡ None }
    ensures bytes { byte_count (record { width = 8; height = 7; format = S16 }) ≡ 112 }
{}

/// A 2x2 image that is valid only in its left column, and a new image.
pub fn images()
    ensures samples { (image_from 2 2 U8 (record { x0 = 0; y0 = 0; x1 = 1; y1 = 2 })
        (λ x y. pos 10)).samples ≡ pos 10 ∷ pos 0 ∷ pos 10 ∷ pos 0 ∷ [] }
    ensures place { pixel_at (image_from 2 2 U8 (record { x0 = 0; y0 = 0; x1 = 1; y1 = 2 })
        (λ x y. pos 10)) 0 1 ≡ pos 10 }
    ensures new { (new_image 2 1 S16).samples ≡ pos 0 ∷ pos 0 ∷ [] }
{}

/// Bitwise Not of the row 0 20 30 0, which is valid except at its ends.
pub fn not_of_a_row()
    ensures { (from_one U8 not_bits (record {
      width = 4;
      height = 1;
      format = U8;
      valid =
          record { x0 = 1; y0 = 0; x1 = 3; y1 = 1 };
      samples = pos 0 ∷ pos 20 ∷ pos 30
          ∷ pos 0 ∷ [];
    })).samples
        ≡ pos 0 ∷ pos 235 ∷ pos 225 ∷ pos 0 ∷ [] }
{}

/// Bitwise operations on 12 and 10.
pub fn bits()
    ensures and { and_bits (pos 12) (pos 10) ≡ pos 8 }
    ensures or { or_bits (pos 12) (pos 10) ≡ pos 14 }
    ensures xor { xor_bits (pos 12) (pos 10) ≡ pos 6 }
{}

/// Sums within the range of the output's format, and sums above that range.
pub fn sums()
    ensures nearest { sum U8 Saturate (pos 200) (pos 100) ≡ pos 255 }
    ensures wrapped { sum U8 Wrap (pos 200) (pos 100) ≡ pos 44 }
    ensures widened { sum S16 Saturate (pos 200) (pos 100) ≡ pos 300 }
    ensures widened_wrap { sum S16 Wrap (pos 200) (pos 100) ≡ pos 300 }
    ensures nearest_short { sum S16 Saturate (pos 32767) (pos 1) ≡ pos 32767 }
    ensures wrapped_short { sum S16 Wrap (pos 32767) (pos 1) ≡ negsuc 32767 }
{}

/// Differences of 100 and 200, and the absolute difference of the least and the greatest S16
/// sample.
pub fn differences()
    ensures nearest { difference U8 Saturate (pos 100) (pos 200) ≡ pos 0 }
    ensures wrapped { difference U8 Wrap (pos 100) (pos 200) ≡ pos 156 }
    ensures widened { difference S16 Saturate (pos 100) (pos 200) ≡ negsuc 99 }
    ensures absolute { absolute_difference U8 (pos 100) (pos 200) ≡ pos 100 }
    ensures absolute_of_ends { absolute_difference S16 (negsuc 32767) (pos 32767) ≡ pos 32767 }
{}

/// The square of -32768: undivided, and divided by 32768. Also -3 divided by 2.
pub fn products()
    ensures nearest { product S16 Saturate 0 (negsuc 32767) (negsuc 32767) ≡ pos 32767 }
    ensures wrapped { product S16 Wrap 0 (negsuc 32767) (negsuc 32767) ≡ pos 0 }
    ensures scaled_nearest { product S16 Saturate 15 (negsuc 32767) (negsuc 32767) ≡ pos 32767 }
    ensures scaled_wrapped { product S16 Wrap 15 (negsuc 32767) (negsuc 32767) ≡ negsuc 32767 }
    ensures to_zero { product S16 Saturate 1 (negsuc 2) (pos 1) ≡ negsuc 0 }
{}

/// 200 added to 400, and 100 added to 32700. The square of 255, added in three ways: undivided,
/// divided by 2, or divided by 32768.
pub fn accumulations()
    ensures added { accumulated_sum S16 (pos 200) (pos 400) ≡ pos 600 }
    ensures nearest { accumulated_sum S16 (pos 100) (pos 32700) ≡ pos 32767 }
    ensures nearest_square { accumulated_square S16 0 (pos 255) (pos 0) ≡ pos 32767 }
    ensures half { accumulated_square S16 1 (pos 255) (pos 0) ≡ pos 32512 }
    ensures rounded_down { accumulated_square S16 15 (pos 255) (negsuc 32767) ≡ negsuc 32766 }
{}

/// A row that is valid only in its left half, added to a wholly valid accumulator.
pub fn accumulated_row()
    ensures { (from_two S16 (accumulated_sum S16) (record {
      width = 4;
      height = 1;
      format = U8;
      valid = record { x0 = 0; y0 = 0; x1 = 2; y1 = 1 };
      samples = pos 10 ∷ pos 20 ∷ pos 0 ∷ pos 0 ∷ [];
    }) (record {
      width = 4;
      height = 1;
      format = S16;
      valid = record { x0 = 0; y0 = 0; x1 = 4; y1 = 1 };
      samples = pos 1 ∷ pos 2 ∷ pos 3 ∷ pos 4 ∷ [];
    })).samples ≡ pos 11 ∷ pos 22 ∷ pos 0 ∷ pos 0 ∷ [] }
{}

/// -1 converted to U8 with shift 1, and 255 converted to S16 with shift 7.
pub fn conversions()
    ensures wrapped { depth_conversion U8 Wrap 1 (negsuc 0) ≡ pos 255 }
    ensures nearest { depth_conversion U8 Saturate 1 (negsuc 0) ≡ pos 0 }
    ensures widened { depth_conversion S16 Wrap 7 (pos 255) ≡ pos 32640 }
{}

/// The results of a range threshold and a binary threshold at their limits and just past them.
pub fn thresholds()
    ensures below { threshold_result (record {
      format = U8;
      kind = Range (pos 10)
          (pos 20);
      true_value = 255;
      false_value = 0;
    }) (pos 9) ≡ pos 0 }
    ensures lower { threshold_result (record {
      format = U8;
      kind = Range (pos 10)
          (pos 20);
      true_value = 255;
      false_value = 0;
    }) (pos 10) ≡ pos 255 }
    ensures upper { threshold_result (record {
      format = U8;
      kind = Range (pos 10)
          (pos 20);
      true_value = 255;
      false_value = 0;
    }) (pos 20) ≡ pos 255 }
    ensures above { threshold_result (record {
      format = U8;
      kind = Range (pos 10)
          (pos 20);
      true_value = 255;
      false_value = 0;
    }) (pos 21) ≡ pos 0 }
    ensures limit { threshold_result (record {
      format = U8;
      kind = Binary
          (pos 10);
      true_value = 255;
      false_value = 0;
    }) (pos 10) ≡ pos 0 }
    ensures above_limit { threshold_result (record {
      format = U8;
      kind = Binary
          (pos 10);
      true_value = 255;
      false_value = 0;
    }) (pos 11) ≡ pos 255 }
{}

/// Entries of lookup tables that begin with 5, 6, 7. The other clauses show the kind of second
/// input that each of two functions takes.
pub fn tables()
    ensures third { entry_for (record { format = U8; entries = pos 5 ∷ pos 6 ∷ pos 7 ∷ [] })
        (pos 2) ≡ pos 7 }
    ensures least { entry_for (record { format = S16; entries = pos 5 ∷ pos 6 ∷ pos 7 ∷ [] })
        (negsuc 32767) ≡ pos 5 }
    ensures second { (parameters TableLookup).second_input
        ≡ Some (object_kind (LutObject (record { format = U8; entries = [] }))) }
    ensures not_second { (parameters AndBits).second_input ≡ Some Image }
{}

/// Formats that functions take, and formats that they don't.
pub fn formats()
    ensures widened { takes_formats Add U8 (Some U8) (Some S16) ≡ true }
    ensures narrowed { takes_formats Add U8 (Some S16) (Some U8) ≡ false }
    ensures tested { takes_formats Threshold S16 (Some S16) (Some U8) ≡ true }
    ensures same { takes_formats ConvertDepth U8 None (Some U8) ≡ false }
{}

/// Bitwise And of two rows: one is valid in its left half, the other in its right half.
pub fn and_of_halves()
    ensures { node_image (record {
      function = AndBits;
      border = Undefined;
      policy = Wrap;
      amount =
          0;
      in1 = record { name = 1; slot = None };
      in2 = Some
          (record { name = 2; slot = None });
      out1 = Some
          (record { name = 3; slot = None });
      out2 = None;
    }) First U8
        (record {
          width = 4;
          height = 1;
          format = U8;
          valid =
              record { x0 = 0; y0 = 0; x1 = 2; y1 = 1 };
          samples = pos 10 ∷ pos 20 ∷ pos 0 ∷ pos 0 ∷ [];
        })
        (Some (ImageObject (record {
          width = 4;
          height = 1;
          format = U8;
          valid =
              record { x0 = 2; y0 = 0; x1 = 4; y1 = 1 };
          samples = pos 0 ∷ pos 0 ∷ pos 30
              ∷ pos 40 ∷ [];
        })))
        ≡ record {
          width = 4;
          height = 1;
          format = U8;
          valid = empty_rectangle;
          samples = pos 0 ∷ pos 0
              ∷ pos 0 ∷ pos 0 ∷ [];
        } }
{}

/// The number and the name of a status code. Of three nodes of Bitwise Not, the first is permitted,
/// the second has no output, and the third has a policy that the function doesn't take.
pub fn nodes()
    ensures number { code_number InvalidFormat ≡ 5 }
    ensures name { code_name InvalidFormat ≡ codes "INVALID_FORMAT" }
    ensures whole { is_node (record {
      function = NotBits;
      border = Undefined;
      policy = Wrap;
      amount
          = 0;
      in1 = record { name = 1; slot = None };
      in2 = None;
      out1 = Some
          (record { name = 2; slot = None });
      out2 = None;
    }) ≡ true }
    ensures no_output { is_node (record {
      function = NotBits;
      border = Undefined;
      policy = Wrap;
      amount = 0;
      in1 = record { name = 1; slot = None };
      in2 = None;
      out1 = None;
      out2 =
          None;
    }) ≡ false }
    ensures other_policy { is_node (record {
      function = NotBits;
      border = Undefined;
      policy =
          Saturate;
      amount = 0;
      in1 = record { name = 1; slot = None };
      in2 = None;
      out1 = Some
          (record { name = 2; slot = None });
      out2 = None;
    }) ≡ false }
{}

/// Five partial descriptions: the first gets its open parts from the second, the third has an open
/// part, the fourth has no open part, and the fifth is too wide. The other clauses show which
/// format a function gives to an output of open format.
pub fn partial_descs()
    ensures filled { with_defaults (record { width = Some 4; height = None; format = None })
        (record { width = Some 8; height = Some 2; format = Some U8 })
        ≡ record { width = Some 4; height = Some 2; format = Some U8 } }
    ensures open { full_description (record { width = Some 4; height = None; format = Some U8 })
        ≡ None }
    ensures closed { full_description
        (partial_desc_of (record { width = 4; height = 2; format = S16 }))
        ≡ Some (record { width = 4; height = 2; format = S16 }) }
    ensures side { partial_description (Some 8193) None None ≡ None }
    ensures sums { open_format Add U8 ≡ S16 }
    ensures kept { open_format TableLookup S16 ≡ S16 }
    ensures converted { open_format ConvertDepth S16 ≡ U8 }
    ensures converted_back { open_format ConvertDepth U8 ≡ S16 }
{}

/// A graph whose only node is removed: the node that is added next gets a new number. A graph that
/// has used all node numbers takes no more nodes.
pub fn numbers_of_nodes()
    ensures first { (n : Node) → nodes_of (with_node new_graph n) ≡ n ∷ [] }
    ensures removed { (n : Node) → without_node (with_node new_graph n) 1
        ≡ record { next = 2; nodes = []; delays = [] } }
    ensures second { (m n : Node) → (with_node (without_node (with_node new_graph m) 1) n).nodes
        ≡ record { number = 2; node = n } ∷ [] }
    ensures full { can_add (record { next = 4294967296; nodes = []; delays = [] }) ≡ false }
{}
