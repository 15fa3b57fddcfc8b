//! Rows with the samples that a border mode adds at both ends.
use crate::images::lend;
use border_rows::RowWindow;
use std::alloc::Global;
use std::test::Fail;
use vx_base::{Border, Desc, Format, Rect};

/// Returns the samples of a `RowWindow` of radius 2, before and after row `y` of a 3 by 3 image is
/// loaded into it.
fn seen(alloc: Global, y: i32, border: Border) -> Result<[Vec<u8>; 2], Fail> {
    let desc = Desc::new(3, 3, Format::U8).ok_or("a description")?;
    let whole = Rect::new(0, 0, 3, 3).ok_or("a rectangle")?;
    let mut samples = [1, 2, 9, 3, 4, 8, 5, 6, 7];
    let image = lend(desc, whole, &mut samples);
    let mut window = RowWindow::new(alloc, 3, 2)?;
    let empty = Vec::from_slice(alloc, window.row())?;
    let valid = image.valid();
    if valid.x0() < valid.x1() && valid.y0() < valid.y1() {
        window.load(&image, y, border);
    }
    Ok([empty, Vec::from_slice(alloc, window.row())?])
}

#[test]
fn rows_with_a_border(rt: HostRuntime) -> Result<(), Fail> {
    for (y, border, row) in [
        (-1, Border::Undefined, [0, 0, 0, 0, 0, 0, 0]),
        (1, Border::Constant(7), [7, 7, 3, 4, 8, 7, 7]),
        (-1, Border::Replicate, [1, 1, 1, 2, 9, 9, 9]),
    ] {
        let [empty, loaded] = seen(rt.alloc(), y, border)?;
        assert!(rt; empty.as_slice() == [0; 7].as_slice());
        assert!(rt; loaded.as_slice() == row.as_slice());
    }
    Ok(())
}
