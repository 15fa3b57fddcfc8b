//! Statistics of rows and of small images: extremes with their first pixels, counts, and running
//! sums. Most rows have lengths around that of a block.
use crate::images::lend;
use image_core::ImageMut;
use lane_rows::{extremes_s16, extremes_u8, running_sums};
use stat_kernels::{histogram, integral, min_max};
use vx_base::{Bins, Desc, Extremes, Format, Rect};

const LENGTHS: [usize; 9] = [1, 15, 16, 17, 31, 32, 33, 64, 65];

/// Returns 65 items: `one` at the index `index`, and `others` everywhere else.
fn all_but_one<T: Copy>(others: T, one: T, index: usize) -> [T; 65] {
    let mut items = [others; 65];
    for (i, item) in items.iter_mut().enumerate() {
        if i == index {
            *item = one;
        }
    }
    items
}

/// Returns the least and the greatest byte of a row, and how many bytes are equal to each. `None`
/// if the row is empty or has more than 65 bytes.
fn extremes_of_bytes(row: &[u8]) -> Option<(u8, u32, u8, u32)> {
    if row.is_empty() || row.len() > 65 {
        return None;
    }
    let found = extremes_u8(row);
    Some((
        found.least,
        found.least_count,
        found.greatest,
        found.greatest_count,
    ))
}

/// Returns the least and the greatest S16 item of a row, and how many items are equal to each.
/// `None` if the row is empty or has more than 65 items.
fn extremes_of_shorts(row: &[i16]) -> Option<(i16, u32, i16, u32)> {
    if row.is_empty() || row.len() > 65 {
        return None;
    }
    let found = extremes_s16(row);
    Some((
        found.least,
        found.least_count,
        found.greatest,
        found.greatest_count,
    ))
}

#[test]
fn extremes_at_each_index(rt: HostRuntime) {
    for length in LENGTHS {
        let count = length.min(65);
        for index in 0..count {
            let alone = count == 1;
            let others = count as u32 - 1;
            let (low, high) = (all_but_one(100, 0, index), all_but_one(100, 255, index));
            let least = if alone {
                (0, 1, 0, 1)
            } else {
                (0, 1, 100, others)
            };
            let greatest = if alone {
                (255, 1, 255, 1)
            } else {
                (100, others, 255, 1)
            };
            assert!(rt; extremes_of_bytes(&low[..count]) == Some(least));
            assert!(rt; extremes_of_bytes(&high[..count]) == Some(greatest));
            let (low, high) = (
                all_but_one(-100, -32_768, index),
                all_but_one(-100, 32_767, index),
            );
            let least = if alone {
                (-32_768, 1, -32_768, 1)
            } else {
                (-32_768, 1, -100, others)
            };
            let greatest = if alone {
                (32_767, 1, 32_767, 1)
            } else {
                (-100, others, 32_767, 1)
            };
            assert!(rt; extremes_of_shorts(&low[..count]) == Some(least));
            assert!(rt; extremes_of_shorts(&high[..count]) == Some(greatest));
        }
    }
}

#[test]
fn extremes_of_equal_items(rt: HostRuntime) {
    for length in LENGTHS {
        let count = length.min(65);
        let all = count as u32;
        for item in [0, 127, 128, 255] {
            let row = [item; 65];
            assert!(rt; extremes_of_bytes(&row[..count]) == Some((item, all, item, all)));
        }
        for item in [-32_768, -1, 0, 32_767] {
            let row = [item; 65];
            assert!(rt; extremes_of_shorts(&row[..count]) == Some((item, all, item, all)));
        }
    }
}

#[test]
fn extremes_on_both_sides_of_zero(rt: HostRuntime) {
    assert!(rt; extremes_of_bytes(&[128, 127, 128, 127, 127]) == Some((127, 3, 128, 2)));
    assert!(rt; extremes_of_shorts(&[1, -1, 0, -1, 1, 1]) == Some((-1, 2, 1, 3)));
}

/// Returns the extremes of a row of 65 samples: `sample` in column `index`, and 9 everywhere else.
fn found_at(index: usize, sample: u8) -> Option<Extremes> {
    let desc = Desc::new(65, 1, Format::U8)?;
    let mut samples = all_but_one(9, sample, index);
    let image = lend(desc, Rect::new(0, 0, 65, 1)?, &mut samples);
    Some(min_max(&image))
}

#[test]
fn first_pixels(rt: HostRuntime) {
    for index in 0..65 {
        let other = if index == 0 { (1, 0) } else { (0, 0) };
        let at = (index as u16, 0);
        let low = Extremes {
            min: 8,
            max: 9,
            min_count: 1,
            max_count: 64,
            min_at: at,
            max_at: other,
        };
        let high = Extremes {
            min: 9,
            max: 10,
            min_count: 64,
            max_count: 1,
            min_at: other,
            max_at: at,
        };
        assert!(rt; found_at(index, 8) == Some(low));
        assert!(rt; found_at(index, 10) == Some(high));
    }
}

#[test]
fn running_sums_at_each_length(rt: HostRuntime) {
    for length in LENGTHS {
        let count = length.min(65);
        let (row, above) = ([255; 65], [u32::MAX - 1000; 65]);
        let mut out = [77; 65];
        running_sums(&row[..count], &above[..count], &mut out[..count]);
        for k in 0..65 {
            let sum = above[k].wrapping_add(255 * (k as u32 + 1));
            assert!(rt; out[k] == if k < count { sum } else { 77 });
        }
    }
}

/// Returns the histogram of a row, in three bins that cover all sample values.
fn counted(row: &[u8; 3]) -> Option<[u32; 3]> {
    let mut samples = *row;
    let image = lend(
        Desc::new(3, 1, Format::U8)?,
        Rect::new(0, 0, 3, 1)?,
        &mut samples,
    );
    let mut counts = [77; 3];
    histogram(&image, Bins::new(3, 0, 256)?, &mut counts);
    Some(counts)
}

/// Returns the integral image of a 2 by 2 image.
fn summed(image: &[u8; 4]) -> Option<[u32; 4]> {
    let mut samples = *image;
    let whole = Rect::new(0, 0, 2, 2)?;
    let image = lend(Desc::new(2, 2, Format::U8)?, whole, &mut samples);
    let mut sums = [77; 4];
    let mut target = ImageMut::new(Desc::new(2, 2, Format::U32)?, &mut sums);
    integral(&image, &mut target);
    Some(sums)
}

#[test]
fn worked_rows(rt: HostRuntime) {
    assert!(rt; counted(&[85, 86, 255]) == Some([1, 1, 1]));
    assert!(rt; summed(&[1, 2, 3, 4]) == Some([1, 3, 4, 10]));
}
