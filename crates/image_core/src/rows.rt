//! Changes and clears samples row by row.
ghost use Rattle.std.specs.Prelude.{◌≡◌, ◌*◌, ◌+◌, ◌^◌, ◌<◌, ◌≤◌, ℕ, ℤ, length, map, replicate};
ghost use Rattle.vx_base.specs.Image.{run, band, zero_outside};
ghost use Rattle.image_core.specs.Rows.{sample_from};

use crate::band::Band;
use crate::number::Number;
use crate::row_update::{RowChange, Unchanged, Updated};
use vx_base::Rect;

/// Sets all samples to one value.
pub fn set_all<T: Number>(out: &mut [T], sample: T)
    ensures { map T.value out.new ≡ replicate (length out.old) (T.value sample) }
{
    for item in out.iter_mut() {
        *item = sample;
    }
}

/// Changes row `y` within the change's area, and sets the row's other samples to 0.
fn change_row<T: Number, S, C: RowChange<T, S>>(
    change: &C,
    y: u16,
    scratch: &mut [S],
    row: &mut [T],
)
    requires scratch { C.scratch_len change.now ≤ length scratch.old }
    requires room { (C.area change.now).x1 ≤ length row.old }
    ensures { (before : ℕ → ℤ) → map T.value row.old ≡ run 0 (length row.old) before →
        map T.value row.new ≡ run 0 (length row.old)
        (λ k. zero_outside (C.area change.now) (λ x y. C.next change.now x y (before x)) k y) }
{
    let area = change.area();
    if y < area.y0() || area.y1() <= y {
        set_all(row, T::zero());
    } else {
        let (x0, x1) = (usize::from(area.x0()), usize::from(area.x1()));
        let (head, others) = row.split_at_mut(x0);
        let (middle, tail) = others.split_at_mut(x1 - x0);
        set_all(head, T::zero());
        change.change(area.x0(), y, scratch, middle);
        set_all(tail, T::zero());
    }
}

/// Changes a band's samples within the change's area, and sets the band's other samples to 0.
/// `samples` must have exactly the band's rows, in row-major order.
pub fn change_rows<T: Number, S, C: RowChange<T, S>>(
    change: &C,
    width: u16,
    rows: Band,
    scratch: &mut [S],
    samples: &mut [T],
)
    requires scratch { C.scratch_len change.now ≤ length scratch.old }
    requires rows { rows.start + rows.count < 2 ^ 16 }
    requires size { length samples.old ≡ rows.count * width }
    requires room { (C.area change.now).x1 ≤ width }
    ensures { map T.value samples.new ≡ band width rows.start rows.count
        (zero_outside (C.area change.now) (λ x y. C.next change.now x y
        (sample_from width rows.start (map T.value samples.old) x y))) }
{
    let step = usize::from(width);
    for k in 0..rows.count {
        let first = usize::from(k) * step;
        change_row(
            change,
            rows.start + k,
            scratch,
            &mut samples[first..first + step],
        );
    }
}

/// Sets a band's samples outside the valid rectangle to 0. `samples` must have exactly the band's
/// rows, in row-major order.
pub fn clear_rows<T: Number>(valid: Rect, width: u16, rows: Band, samples: &mut [T])
    requires rows { rows.start + rows.count < 2 ^ 16 }
    requires size { length samples.old ≡ rows.count * width }
    requires room { valid.x1 ≤ width }
    ensures { map T.value samples.new ≡ band width rows.start rows.count
        (zero_outside valid (sample_from width rows.start (map T.value samples.old))) }
{
    let kept = Unchanged { area: valid };
    change_rows(&Updated { update: &kept }, width, rows, &mut [], samples);
}
