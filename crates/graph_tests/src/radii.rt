//! The vertical radii of some functions.
use node_rows::window_radius;
use std::test::Fail;
use vx_base::{Convolution, Function};

#[test]
fn pixels_and_windows(rt: HostRuntime) {
    for (function, rows) in [
        (Function::Add, Some(0)),
        (Function::Threshold, Some(0)),
        (Function::AccumulateSquare, Some(0)),
        (Function::Median, Some(1)),
        (Function::Sobel, Some(1)),
        (Function::Integral, None),
        (Function::Histogram, None),
    ] {
        assert!(rt; window_radius(function, None) == rows, "{function:?}");
    }
}

#[test]
fn matrices(rt: HostRuntime) -> Result<(), Fail> {
    let wide = Convolution::new(9, 3, 0, &[1; 27]).ok_or("a matrix")?;
    let high = Convolution::new(3, 9, 0, &[1; 27]).ok_or("a matrix")?;
    assert!(rt; window_radius(Function::Convolve, Some(&wide)) == Some(1));
    assert!(rt; window_radius(Function::Convolve, Some(&high)) == Some(4));
    Ok(())
}
