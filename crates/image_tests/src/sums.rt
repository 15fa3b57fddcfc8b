//! Sums of rows by kernels that no vision function calls. Each row has a block of items and a rest.
ghost use Rattle.std.specs.Prelude.{◌≡◌, length};

use lane_rows::{axpy_i32, sum3, weighted3};

/// Returns a row of the bytes from 0 to 32.
fn counting() -> [u8; 33] {
    let mut row = [0; 33];
    for (i, item) in row.iter_mut().enumerate() {
        *item = (i % 33) as u8;
    }
    row
}

/// Writes the sums of three rows, and their sums with weights 1, 2, 1.
fn sum_rows(
    first: &[u8],
    second: &[u8],
    third: &[u8],
    sums: &mut [i16; 33],
    weighted: &mut [i16; 33],
)
    requires first { length first.now ≡ 33 }
    requires second { length second.now ≡ 33 }
    requires third { length third.now ≡ 33 }
{
    sum3(first, second, third, sums);
    weighted3(first, second, third, weighted);
}

#[test]
fn three_rows_are_summed(rt: HostRuntime) {
    let (mut sums, mut weighted) = ([0; 33], [0; 33]);
    sum_rows(
        &counting(),
        &[100; 33],
        &[255; 33],
        &mut sums,
        &mut weighted,
    );
    for i in 0..33 {
        assert!(rt; sums[i] == i as i16 + 355);
        assert!(rt; weighted[i] == i as i16 + 455);
    }
}

#[test]
fn a_multiple_of_a_row_is_added(rt: HostRuntime) {
    let mut sums = [1_000_000; 33];
    axpy_i32(&counting(), -32_768, &mut sums);
    for i in 0..33 {
        assert!(rt; sums[i] == 1_000_000 - 32_768 * i as i32);
    }
}
