//! Laws of rectangles as sets of pixels.
ghost use Rattle.std.specs.Prelude.{◌≡◌, ◌≤◌, ◌+◌, ◌↔◌, ℕ, IsTrue, ◌&&◌, nat_le, nat_lt};
ghost use Rattle.vx_base.specs.Rectangle.{Rectangle, has_pixel, is_rectangle, rectangle_or_empty};
ghost use Rattle.vx_base.specs.Rectangle.{whole_rectangle, meet_of};
ghost use Rattle.vx_base.specs.Rectangle.{shrink_of};

/// Two rectangles in canonical form are equal if they have the same pixels.
pub fn pixels_decide_rectangle()
    ensures { (r s : Rectangle) → IsTrue (is_rectangle r.x0 r.y0 r.x1 r.y1) →
        IsTrue (is_rectangle s.x0 s.y0 s.x1 s.y1) →
        ((x y : ℕ) → has_pixel r x y ≡ has_pixel s x y) → r ≡ s }
{}

/// A rectangle made from bounds is in canonical form, and has exactly the pixels within the bounds.
pub fn pixels_within_bounds()
    ensures rectangle { (x0 y0 x1 y1 : ℕ) →
        let r = rectangle_or_empty x0 y0 x1 y1 in IsTrue (is_rectangle r.x0 r.y0 r.x1 r.y1) }
    ensures places { (x0 y0 x1 y1 x y : ℕ) →
        has_pixel (rectangle_or_empty x0 y0 x1 y1) x y
        ≡ ((nat_le x0 x && nat_lt x x1) && (nat_le y0 y && nat_lt y y1)) }
{}

/// The whole rectangle has all pixels of the image, and no others.
pub fn pixels_of_whole()
    ensures { (width height x y : ℕ) → has_pixel (whole_rectangle width height) x y
        ≡ (nat_lt x width && nat_lt y height) }
{}

/// The intersection of two rectangles has the pixels that are in both rectangles.
pub fn pixels_of_meet()
    ensures { (r s : Rectangle) (x y : ℕ) →
        has_pixel (meet_of r s) x y ≡ (has_pixel r x y && has_pixel s x y) }
{}

/// A rectangle shrunk by radii has the pixels whose whole window is in the original rectangle.
pub fn pixels_of_shrunk()
    ensures { (r : Rectangle) (rx ry x y : ℕ) → IsTrue (has_pixel (shrink_of r rx ry) x y) ↔
        ((rx ≤ x) × (ry ≤ y) × ((i j : ℕ) → x ≤ i + rx → i ≤ x + rx → y ≤ j + ry → j ≤ y + ry →
        IsTrue (has_pixel r i j))) }
{}
