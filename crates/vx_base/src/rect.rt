//! Rectangles of pixels.
ghost use Rattle.std.specs.Prelude.{◌≡◌};
ghost use Rattle.vx_base.specs.Rectangle.{rectangle, rectangle_or_empty, empty_rectangle, meet_of};
ghost use Rattle.vx_base.specs.Rectangle.{shrink_of};
ghost use Rattle.vx_base.specs.Rectangle.{IsRectangle, IsOrdered};

use std::marker::Model;

/// A rectangle of pixels (OpenVX 1.3, `vx_rectangle_t`): the start is included, the end is not. The
/// bounds are in canonical form: each start is less than its end, or all four bounds are 0 and the
/// rectangle is empty.
#[derive(Clone, Copy, PartialEq, Eq, Debug)]
pub struct Rect {
    x0: u16,
    y0: u16,
    x1: u16,
    y1: u16,
}

impl Model for Rect {
    ghost use Rattle.std.specs.Prelude.{IsTrue};
    ghost use Rattle.vx_base.specs.Rectangle.{Rectangle, is_rectangle};

    ghost Value = { Rectangle };

    ghost view = { λ r. record { x0 = r.x0; y0 = r.y0; x1 = r.x1; y1 = r.y1 } };

    ghost invariant = { λ r. IsTrue (is_rectangle r.x0 r.y0 r.x1 r.y1) };

    ghost inverse = { λ r. record { x0 = r.x0; y0 = r.y0; x1 = r.x1; y1 = r.y1 } };
}

impl Rect {
    /// Returns the rectangle with these bounds if all four are 0 or each start is below its end.
    /// Otherwise returns `None`.
    pub fn new(x0: u16, y0: u16, x1: u16, y1: u16) -> Option<Rect>
        ensures { result ≡ rectangle x0 y0 x1 y1 }
    {
        let zeros = x0 == 0 && y0 == 0 && x1 == 0 && y1 == 0;
        if zeros || x0 < x1 && y0 < y1 {
            Some(Rect { x0, y0, x1, y1 })
        } else {
            None
        }
    }

    /// Returns the rectangle with these bounds, or the empty one if they include no pixel.
    fn new_or_empty(x0: u16, y0: u16, x1: u16, y1: u16) -> Rect
        ensures { result ≡ rectangle_or_empty x0 y0 x1 y1 }
    {
        if x0 < x1 && y0 < y1 {
            Rect { x0, y0, x1, y1 }
        } else {
            Rect::empty()
        }
    }

    /// Returns the empty rectangle.
    pub fn empty() -> Rect
        ensures { result ≡ empty_rectangle }
    {
        Rect {
            x0: 0,
            y0: 0,
            x1: 0,
            y1: 0,
        }
    }

    /// Proves that the bounds are in canonical form and have 16 bits. The prover learns a number's
    /// range only where the number is read. At run time this function does nothing.
    pub fn prove_bounds(self)
        ensures { IsRectangle self }
    {
        let _bounds = (self.x0, self.y0, self.x1, self.y1);
    }

    /// Returns the intersection with another rectangle.
    pub fn meet(self, other: Rect) -> Rect
        ensures { result ≡ meet_of self other }
    {
        let (x0, x1) = (self.x0.max(other.x0), self.x1.min(other.x1));
        let (y0, y1) = (self.y0.max(other.y0), self.y1.min(other.y1));
        Rect::new_or_empty(x0, y0, x1, y1)
    }

    /// Returns the pixels whose window, of horizontal radius `rx` and vertical radius `ry`, lies
    /// wholly in this rectangle. Under an undefined border, the valid rectangle of a window
    /// function's output is the input's valid rectangle shrunk by the window's radii.
    pub fn shrink(self, rx: u16, ry: u16) -> Rect
        ensures { result ≡ shrink_of self rx ry }
    {
        let (x0, x1) = (self.x0.saturating_add(rx), self.x1.saturating_sub(rx));
        let (y0, y1) = (self.y0.saturating_add(ry), self.y1.saturating_sub(ry));
        Rect::new_or_empty(x0, y0, x1, y1)
    }

    /// Returns the first column.
    pub fn x0(self) -> u16
        ensures value { result ≡ self.x0 }
        ensures ordered { IsOrdered self }
    {
        self.x0
    }

    /// Returns the first row.
    pub fn y0(self) -> u16
        ensures value { result ≡ self.y0 }
        ensures ordered { IsOrdered self }
    {
        self.y0
    }

    /// Returns the column after the last.
    pub fn x1(self) -> u16
        ensures value { result ≡ self.x1 }
        ensures ordered { IsOrdered self }
    {
        self.x1
    }

    /// Returns the row after the last.
    pub fn y1(self) -> u16
        ensures value { result ≡ self.y1 }
        ensures ordered { IsOrdered self }
    {
        self.y1
    }
}
