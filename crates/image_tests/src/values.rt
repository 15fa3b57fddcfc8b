//! Rectangles and their intersections, the numbers and names of codes, and lookup tables.
use std::test::Fail;
use vx_base::{Code, Format, Lut, Rect, Samples};

#[test]
fn rectangles(rt: HostRuntime) -> Result<(), Fail> {
    for (x0, y0, x1, y1, is_one) in [
        (0, 0, 0, 0, true),
        (0, 0, 1, 1, true),
        (65534, 65534, 65535, 65535, true),
        (1, 1, 1, 1, false),
        (0, 0, 0, 1, false),
        (0, 0, 1, 0, false),
        (3, 0, 1, 1, false),
        (0, 3, 1, 1, false),
    ] {
        assert!(rt; Rect::new(x0, y0, x1, y1).is_some() == is_one);
    }
    let rect = Rect::new(2, 1, 6, 4).ok_or("a rectangle")?;
    for (x0, y0, x1, y1, met) in [
        (0, 0, 9, 9, Rect::new(2, 1, 6, 4)),
        (3, 2, 4, 3, Rect::new(3, 2, 4, 3)),
        (0, 2, 3, 9, Rect::new(2, 2, 3, 4)),
        (5, 0, 9, 2, Rect::new(5, 1, 6, 2)),
        (6, 1, 7, 4, Some(Rect::empty())),
        (2, 4, 6, 5, Some(Rect::empty())),
        (0, 0, 0, 0, Some(Rect::empty())),
    ] {
        let other = Rect::new(x0, y0, x1, y1).ok_or("a rectangle")?;
        assert!(rt; Some(rect.meet(other)) == met, "{other:?}");
        assert!(rt; Some(other.meet(rect)) == met, "{other:?}");
    }
    Ok(())
}

#[test]
fn codes(rt: HostRuntime) {
    for (code, number, name) in [
        (Code::Success, 0, "SUCCESS"),
        (Code::NoMemory, 1, "NO_MEMORY"),
        (Code::InvalidParameters, 2, "INVALID_PARAMETERS"),
        (Code::InvalidReference, 3, "INVALID_REFERENCE"),
        (Code::InvalidScope, 4, "INVALID_SCOPE"),
        (Code::InvalidFormat, 5, "INVALID_FORMAT"),
        (Code::InvalidDimension, 6, "INVALID_DIMENSION"),
        (Code::InvalidValue, 7, "INVALID_VALUE"),
        (Code::InvalidType, 8, "INVALID_TYPE"),
        (Code::InvalidGraph, 9, "INVALID_GRAPH"),
        (Code::InvalidLink, 10, "INVALID_LINK"),
        (Code::MultipleWriters, 11, "MULTIPLE_WRITERS"),
        (Code::OptimizedAway, 12, "OPTIMIZED_AWAY"),
        (Code::NoResources, 13, "NO_RESOURCES"),
    ] {
        assert!(rt; (code.number(), code.name()) == (number, name));
    }
}

#[test]
fn tables(rt: HostRuntime) -> Result<(), Fail> {
    for (format, count, is_one) in [
        (Format::U8, 256, true),
        (Format::S16, 65_536, true),
        (Format::U8, 255, false),
        (Format::U8, 257, false),
        (Format::U8, 65_536, false),
        (Format::S16, 256, false),
        (Format::U32, 256, false),
        (Format::U32, 65_536, false),
    ] {
        let table = Lut::new(Samples::zeros(rt.alloc(), format, count)?);
        assert!(rt; table.is_some() == is_one, "{count} of {format:?}");
    }
    Ok(())
}
