//! Laws of the input rows that decide an output row. Each `fn` has an empty body, and its contract
//! states the fact.
ghost use Rattle.std.specs.Prelude.{◌≡◌, ◌<◌, ◌≤◌, ◌+◌, ◌-◌, ℕ, Option, Some, IfSome};
ghost use Rattle.vx_base.specs.declared.format.Format.{Format};
ghost use Rattle.vx_base.specs.declared.node.Node.{Node};
ghost use Rattle.vx_base.specs.declared.output.Output.{Output};
ghost use Rattle.vx_base.specs.Image.{ImageValue, IsImage, pixel_at, description_of};
ghost use Rattle.vx_base.specs.Object.{ObjectValue, IsObject};
ghost use Rattle.vx_base.specs.Outputs.{node_image};
ghost use Rattle.node_rows.specs.Radius.{matrix_in, window_radius};
ghost use Rattle.node_rows.specs.Rows.{AreAlike, AgreeInRows, SecondsAgree};

/// Images that agree in some rows agree in any subset of these rows. Two images that agree in all
/// rows are equal.
pub fn rows_of_images()
    ensures fewer { (above first last below : ℕ) (a b : ImageValue) → above ≤ first → last ≤ below →
        AgreeInRows above below a b → AgreeInRows first last a b }
    ensures all { (a b : ImageValue) → IsImage a → IsImage b → AgreeInRows 0 a.height a b →
        a ≡ b }
{}

/// A node's output image has the size of its first input. The output's valid rectangle doesn't
/// depend on the samples of the input images.
pub fn results_are_alike()
    ensures size { (n : Node) (output : Output) (format : Format) (a : ImageValue)
        (second : Option ObjectValue) → description_of (node_image n output format a second)
        ≡ record { width = a.width; height = a.height; format = format } }
    ensures alike { (n : Node) (output : Output) (format : Format) (a b : ImageValue)
        (second other : Option ObjectValue) (first last : ℕ) → AreAlike a b →
        SecondsAgree first last second other →
        AreAlike (node_image n output format a second) (node_image n output format b other) }
{}

/// For every border and valid rectangle, an output row is decided by the rows of the first input
/// within the vertical radius. A second image, or the accumulator, is read in the same row only.
pub fn rows_in_radius_decide()
    ensures { (n : Node) (output : Output) (format : Format) (a b : ImageValue)
        (second other : Option ObjectValue) (rows x y : ℕ) → IsImage a → IfSome second IsObject →
        window_radius n.function (matrix_in second) ≡ Some rows →
        AgreeInRows (y - rows) (y + rows) a b → SecondsAgree y y second other →
        x < a.width → y < a.height →
        pixel_at (node_image n output format a second) x y
        ≡ pixel_at (node_image n output format b other) x y }
{}

/// A band of the output is decided by the rows of the first input in the same band and its halo. A
/// second image, or the accumulator, is read in the same band only. The halo rows are those within
/// the vertical radius above and below the band.
pub fn bands_in_radius_decide()
    ensures { (n : Node) (output : Output) (format : Format) (a b : ImageValue)
        (second other : Option ObjectValue) (rows first last : ℕ) → IsImage a →
        IfSome second IsObject →
        window_radius n.function (matrix_in second) ≡ Some rows →
        AgreeInRows (first - rows) (last + rows) a b → SecondsAgree first last second other →
        AgreeInRows first last (node_image n output format a second)
        (node_image n output format b other) }
{}
