//! Facts about the definitions. Each `fn` has an empty body, and its contract states the fact.
ghost use Rattle.std.specs.Prelude.{◌≡◌, ◌<◌, ◌≤◌, ℕ, ℤ, pos, true, [], ◌∷◌, Contains, int_lt};
ghost use Rattle.std.specs.List.{count_by};
ghost use Rattle.vx_base.specs.declared.format.Format.{Format};
ghost use Rattle.vx_base.specs.declared.format.Format.TheVariants.{U8, S16};
ghost use Rattle.vx_base.specs.declared.border.Border.{Border};
ghost use Rattle.vx_base.specs.Sample.{distance};
ghost use Rattle.vx_base.specs.Rectangle.{has_pixel};
ghost use Rattle.vx_base.specs.Convolution.{ConvolutionValue};
ghost use Rattle.vx_base.specs.Image.{ImageValue, IsImage, pixel_at};
ghost use Rattle.vx_base.specs.Node.{IsBorder};
ghost use Rattle.vx_base.specs.Window.{clamp_coordinate, sample_or_border, box_mean, gaussian_mean};
ghost use Rattle.vx_base.specs.Window.{median, least_of};
ghost use Rattle.vx_base.specs.Window.{greatest_of, gradient_x, gradient_y, from_nine, from_matrix};

/// At a valid pixel a window reads the image's sample, under every border mode.
pub fn valid_pixels()
    ensures { (image : ImageValue) (border : Border) (x y : ℕ) → has_pixel image.valid x y ≡ true →
        sample_or_border image border (pos x) (pos y) ≡ pixel_at image x y }
{}

/// If `low < high`, `clamp_coordinate` gives the number from `low` to `high - 1` that is nearest to
/// `v`.
pub fn nearest_number()
    ensures within { (low high : ℕ) (v : ℤ) → low < high → (low ≤ clamp_coordinate low high v) ×
        (clamp_coordinate low high v < high) }
    ensures nearest { (low high n : ℕ) (v : ℤ) → low ≤ n → n < high →
        distance v (pos (clamp_coordinate low high v)) ≤ distance v (pos n) }
{}

/// The median of nine numbers is one of the nine. It is the only number with at most four of the
/// nine below it and at most four above it.
pub fn median_of_nine()
    ensures among { (a b c d e f g h i : ℤ) →
        let zs = a ∷ b ∷ c ∷ d ∷ e ∷ f ∷ g ∷ h ∷ i ∷ [] in Contains zs (median zs) }
    ensures fewer { (a b c d e f g h i : ℤ) →
        let zs = a ∷ b ∷ c ∷ d ∷ e ∷ f ∷ g ∷ h
        ∷ i ∷ [] in count_by (λ z. int_lt z (median zs)) zs ≤ 4 }
    ensures more { (a b c d e f g h i : ℤ) →
        let zs = a ∷ b ∷ c ∷ d ∷ e ∷ f ∷ g ∷ h
        ∷ i ∷ [] in count_by (λ z. int_lt (median zs) z) zs ≤ 4 }
    ensures one { (a b c d e f g h i v : ℤ) → let zs = a ∷ b ∷ c ∷ d ∷ e ∷ f ∷ g ∷ h ∷ i ∷ [] in
        count_by (λ z. int_lt z v) zs ≤ 4 → count_by (λ z. int_lt v z) zs ≤ 4 → v ≡ median zs }
{}

/// The result of a 3x3 window function on a U8 image is a well-formed image, and so is the result
/// of a convolution.
pub fn window_results_are_images()
    ensures box_means { (border : Border) (a : ImageValue) → IsBorder border → IsImage a →
        a.format ≡ U8 → IsImage (from_nine U8 box_mean border a) }
    ensures gaussian_means { (border : Border) (a : ImageValue) → IsBorder border → IsImage a →
        a.format ≡ U8 → IsImage (from_nine U8 gaussian_mean border a) }
    ensures medians { (border : Border) (a : ImageValue) → IsBorder border → IsImage a →
        a.format ≡ U8 → IsImage (from_nine U8 median border a) }
    ensures least { (border : Border) (a : ImageValue) → IsBorder border → IsImage a →
        a.format ≡ U8 → IsImage (from_nine U8 least_of border a) }
    ensures greatest { (border : Border) (a : ImageValue) → IsBorder border → IsImage a →
        a.format ≡ U8 → IsImage (from_nine U8 greatest_of border a) }
    ensures gradients_x { (border : Border) (a : ImageValue) → IsBorder border → IsImage a →
        a.format ≡ U8 → IsImage (from_nine S16 gradient_x border a) }
    ensures gradients_y { (border : Border) (a : ImageValue) → IsBorder border → IsImage a →
        a.format ≡ U8 → IsImage (from_nine S16 gradient_y border a) }
    ensures convolutions { (format : Format) (c : ConvolutionValue) (border : Border)
        (a : ImageValue) → IsImage a → IsImage (from_matrix format c border a) }
{}
