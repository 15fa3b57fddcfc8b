//! 3 x 3 windows as nine rows of bytes, with the samples of one window at each index.
ghost use Rattle.std.specs.Prelude.{◌≡◌, length};

/// Three rows of equal length. The three items at an index are neighbours in an image, from left to
/// right or from top to bottom.
#[derive(Clone, Copy)]
pub struct Three<'a> {
    pub left: &'a [u8],
    pub middle: &'a [u8],
    pub right: &'a [u8],
    ghost middle_len: { length middle.now ≡ length left.now },
    ghost right_len: { length right.now ≡ length left.now },
}

/// Nine rows of equal length. The nine items at an index are the samples of one window, in
/// row-major order. The nine rows may be slices of three longer rows: three slices of each, one
/// column apart.
#[derive(Clone, Copy)]
pub struct Nine<'a> {
    pub above: Three<'a>,
    pub here: Three<'a>,
    pub below: Three<'a>,
    ghost here_len: { length here.left.now ≡ length above.left.now },
    ghost below_len: { length below.left.now ≡ length above.left.now },
}
