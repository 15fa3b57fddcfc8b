//! Laws of the pixel formulas.
ghost use Rattle.std.specs.Prelude.{◌≡◌, ◌<◌, Option, IfSome, ◌≤◌, ◌+◌, ◌*◌, ◌^◌, ◌<ℤ◌, ◌≤ℤ◌, ◌+ℤ◌};
ghost use Rattle.std.specs.Prelude.{◌*ℤ◌, ◌&&◌, ℕ, ℤ, pos, true, IsTrue, All, Some, None, min};
ghost use Rattle.std.specs.Prelude.{bit_xor, int_div, unsigned_abs};
ghost use Rattle.std.specs.Int.{int_div_euclid};
ghost use Rattle.std.specs.Option.{option_and_then};
ghost use Rattle.vx_base.specs.declared.format.Format.{Format};
ghost use Rattle.vx_base.specs.declared.format.Format.TheVariants.{U8, S16};
ghost use Rattle.vx_base.specs.declared.policy.Policy.{Policy};
ghost use Rattle.vx_base.specs.declared.function.Function.{Function};
ghost use Rattle.vx_base.specs.Sample.{IsSample, distance};
ghost use Rattle.vx_base.specs.Rectangle.{has_pixel};
ghost use Rattle.vx_base.specs.Function.{parameters, accumulates};
ghost use Rattle.vx_base.specs.Formats.{takes_formats};
ghost use Rattle.vx_base.specs.Node.{has_amount, IsNode};
ghost use Rattle.vx_base.specs.Image.{ImageValue, IsImage, pixel_at};
ghost use Rattle.vx_base.specs.Lut.{LutValue};
ghost use Rattle.vx_base.specs.Threshold.{ThresholdValue};
ghost use Rattle.vx_base.specs.declared.node.Node.{Node};
ghost use Rattle.vx_base.specs.declared.output.Output.{Output};
ghost use Rattle.vx_base.specs.Outputs.{node_image};
ghost use Rattle.vx_base.specs.Object.{ObjectValue, ImageObject, IsObject, object_kind};
ghost use Rattle.vx_base.specs.Object.{object_format};
ghost use Rattle.vx_base.specs.Pixelwise.{and_bits, or_bits, xor_bits, not_bits};
ghost use Rattle.vx_base.specs.Pixelwise.{absolute_difference, threshold_result, lookup_result};
ghost use Rattle.vx_base.specs.Pixelwise.{formula_of_one, formula_of_two, from_one, from_two};

/// Bitwise Not inverts each of the eight bits of a U8 sample.
pub fn not_turns_bits()
    ensures bits { (a : ℕ) → a < 256 → not_bits (pos a) ≡ pos (bit_xor a 255) }
    ensures sample { (a : ℤ) → IsSample U8 a → IsSample U8 (not_bits a) }
    ensures twice { (a : ℤ) → not_bits (not_bits a) ≡ a }
{}

/// Bitwise And, Or and Xor of two U8 samples are U8 samples.
pub fn bits_are_samples()
    ensures and { (a b : ℤ) → IsSample U8 a → IsSample U8 b → IsSample U8 (and_bits a b) }
    ensures or { (a b : ℤ) → IsSample U8 a → IsSample U8 b → IsSample U8 (or_bits a b) }
    ensures xor { (a b : ℤ) → IsSample U8 a → IsSample U8 b → IsSample U8 (xor_bits a b) }
{}

/// Pixel-wise Multiplication divides a product by 2^n and rounds the quotient toward zero.
pub fn products_round_to_zero()
    ensures not_beyond { (z : ℤ) (n : ℕ) →
        unsigned_abs (int_div z (pos (2 ^ n))) * 2 ^ n ≤ unsigned_abs z }
    ensures nearest { (z : ℤ) (n : ℕ) → unsigned_abs z
        < (unsigned_abs (int_div z (pos (2 ^ n))) + 1) * 2 ^ n }
    ensures not_negative { (z : ℤ) (n : ℕ) → pos 0 ≤ℤ z → pos 0 ≤ℤ int_div z (pos (2 ^ n)) }
    ensures not_positive { (z : ℤ) (n : ℕ) → z ≤ℤ pos 0 → int_div z (pos (2 ^ n)) ≤ℤ pos 0 }
{}

/// A conversion to U8 (Convert Bit Depth) divides a sample by 2^n and rounds the quotient down.
pub fn conversions_round_down()
    ensures not_above { (a : ℤ) (n : ℕ) → (int_div_euclid a (pos (2 ^ n)) *ℤ pos (2 ^ n)) ≤ℤ a }
    ensures nearest { (a : ℤ) (n : ℕ) → a <ℤ
        ((int_div_euclid a (pos (2 ^ n)) +ℤ pos 1) *ℤ pos (2 ^ n)) }
{}

/// The absolute difference of two U8 samples is their distance. For S16 it is limited to 32,767.
pub fn absolute_differences()
    ensures bytes { (a b : ℤ) → IsSample U8 a → IsSample U8 b →
        absolute_difference U8 a b ≡ pos (distance a b) }
    ensures shorts { (a b : ℤ) → absolute_difference S16 a b ≡ pos (min (distance a b) 32767) }
{}

/// If a function takes the given formats, policy and amount, its results are samples of the
/// output's format.
pub fn results_are_samples()
    ensures one { (function : Function) (first output : Format) (policy : Policy) (n : ℕ) (a : ℤ) →
        IsTrue (takes_formats function first None (Some output)) →
        IsTrue (has_amount (parameters function) policy n) →
        IsSample first a → IsSample output (formula_of_one function output policy n a) }
    ensures two { (function : Function) (first second output : Format) (policy : Policy)
        (n : ℕ) (a b : ℤ) →
        IsTrue (takes_formats function first (Some second) (Some output)) →
        IsSample first a → IsSample second b →
        IsSample output (formula_of_two function output policy n a b) }
    ensures accumulated { (function : Function) (output : Format) (policy : Policy) (n : ℕ)
        (a c : ℤ) → accumulates function ≡ true →
        IsSample output (formula_of_two function output policy n a c) }
    ensures looked_up { (lut : LutValue) (a : ℤ) → All (IsSample lut.format) lut.entries →
        IsSample lut.format (lookup_result lut a) }
    ensures thresholded { (threshold : ThresholdValue) (a : ℤ) → threshold.true_value < 256 →
        threshold.false_value < 256 →
        IsSample U8 (threshold_result threshold a) }
{}

/// An image computed from a well-formed image by a formula has the formula's value at each valid
/// pixel. The computed image is well-formed if the values are samples of its format.
pub fn from_one_samples()
    ensures image { (format : Format) (f : ℤ → ℤ) (a : ImageValue) → IsImage a →
        ((z : ℤ) → IsSample a.format z → IsSample format (f z)) → IsImage (from_one format f a) }
    ensures valid { (format : Format) (f : ℤ → ℤ) (a : ImageValue) (x y : ℕ) → IsImage a →
        has_pixel a.valid x y ≡ true →
        pixel_at (from_one format f a) x y ≡ f (pixel_at a x y) }
{}

/// An image computed from two well-formed images by a formula is valid where both inputs are valid,
/// and has the formula's value there. It is well-formed if the values are samples of its format.
pub fn from_two_samples()
    ensures image { (format : Format) (f : ℤ → ℤ → ℤ) (a b : ImageValue) → IsImage a → IsImage b →
        ((y z : ℤ) → IsSample a.format y → IsSample b.format z → IsSample format (f y z)) →
        IsImage (from_two format f a b) }
    ensures rectangle { (format : Format) (f : ℤ → ℤ → ℤ) (a b : ImageValue) (x y : ℕ) →
        has_pixel (from_two format f a b).valid x y
        ≡ (has_pixel a.valid x y && has_pixel b.valid x y) }
    ensures valid { (format : Format) (f : ℤ → ℤ → ℤ) (a b : ImageValue) (x y : ℕ) →
        IsImage a → IsImage b →
        has_pixel a.valid x y ≡ true → has_pixel b.valid x y ≡ true →
        pixel_at (from_two format f a b) x y ≡ f (pixel_at a x y) (pixel_at b x y) }
{}

/// An accumulating node makes a well-formed image of the accumulator's format if its input and its
/// accumulator are well-formed images.
pub fn accumulated_images()
    ensures { (n : Node) (output : Output) (a old : ImageValue) → IsNode n →
        IsImage a → IsImage old → accumulates n.function ≡ true →
        IsImage (node_image n output old.format a (Some (ImageObject old))) }
{}

/// If a node's operands are well-formed and have permitted kinds and formats, then the node's
/// output image is well-formed.
pub fn results_are_images()
    ensures { (n : Node) (output : Output) (format : Format) (a : ImageValue)
        (second : Option ObjectValue) → IsNode n →
        IsImage a → IfSome second IsObject →
        IfSome second (λ object. (parameters n.function).second_input ≡ Some (object_kind object)) →
        IsTrue (takes_formats n.function a.format (option_and_then object_format second)
        (Some format)) →
        IsImage (node_image n output format a second) }
{}
