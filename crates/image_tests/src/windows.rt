//! Kernels of nine rows, at lengths around that of a block of SIMD lanes.
ghost use Rattle.std.specs.Prelude.{◌≡◌, ◌<◌, ◌≤◌, length};
ghost use Rattle.lane_rows.specs.Windows.{window_count};

use lane_rows::{Nine, Three, max9, median9, min9, sobel_x, sobel_y};

const LENGTHS: [usize; 9] = [0, 1, 15, 16, 17, 31, 33, 64, 65];

/// The greatest of `LENGTHS`.
const LONGEST: usize = 65;

/// The functions of nine samples.
#[derive(Clone, Copy)]
enum Function {
    Median,
    Erode,
    Dilate,
    SobelX,
    SobelY,
}

/// Returns a pseudorandom byte.
fn noise(i: usize) -> u8 {
    let [_, _, _, high] = ((i % 65_536) as u32)
        .wrapping_mul(2_654_435_761)
        .to_le_bytes();
    high
}

/// Returns the weighted sum of nine samples.
fn weighted(nine: &[u8; 9], weights: [i32; 9]) -> i32 {
    let mut sum = 0i32;
    for i in 0..9 {
        sum = sum.wrapping_add(i32::from(nine[i]).wrapping_mul(weights[i]));
    }
    sum
}

/// Returns the median: a sample with at most four of the nine below it, and at most four above.
fn median_of(nine: &[u8; 9]) -> u8 {
    for i in 0..9 {
        let middle = nine[i];
        let below = nine.iter().filter(|sample| **sample < middle).count();
        let above = nine.iter().filter(|sample| **sample > middle).count();
        if below <= 4 && above <= 4 {
            return middle;
        }
    }
    0
}

/// Returns the function's result for nine samples, which are given row by row from the top.
fn formula(function: Function, nine: &[u8; 9]) -> i32 {
    match function {
        Function::Median => i32::from(median_of(nine)),
        Function::Erode => i32::from(nine.iter().fold(255, |least, sample| least.min(*sample))),
        Function::Dilate => i32::from(nine.iter().fold(0, |most, sample| most.max(*sample))),
        Function::SobelX => weighted(nine, [-1, 0, 1, -2, 0, 2, -1, 0, 1]),
        Function::SobelY => weighted(nine, [-1, -2, -1, 0, 0, 0, 1, 2, 1]),
    }
}

/// Returns nine rows of bytes.
fn nine_rows() -> [[u8; LONGEST]; 9] {
    let mut rows = [[0; LONGEST]; 9];
    for l in 0..9 {
        for i in 0..LONGEST {
            rows[l][i] = noise(l * LONGEST + i);
        }
    }
    rows
}

/// Returns the bytes of nine rows at one index.
fn nine_at(rows: &[[u8; LONGEST]; 9], i: usize) -> [u8; 9]
    requires { i < 65 }
{
    let mut nine = [0; 9];
    for l in 0..9 {
        nine[l] = rows[l][i];
    }
    nine
}

/// Returns the first `count` bytes of three rows.
fn three_of<'a>(
    left: &'a [u8; LONGEST],
    middle: &'a [u8; LONGEST],
    right: &'a [u8; LONGEST],
    count: usize,
) -> Three<'a>
    requires { count ≤ 65 }
    ensures { length result.left.now ≡ count }
{
    Three {
        left: &left[..count],
        middle: &middle[..count],
        right: &right[..count],
    }
}

/// Returns the windows at the first `count` indices of nine rows.
fn windows(rows: &[[u8; LONGEST]; 9], count: usize) -> Nine<'_>
    requires { count ≤ 65 }
    ensures { window_count result ≡ count }
{
    Nine {
        above: three_of(&rows[0], &rows[1], &rows[2], count),
        here: three_of(&rows[3], &rows[4], &rows[5], count),
        below: three_of(&rows[6], &rows[7], &rows[8], count),
    }
}

/// Returns whether the first `count` numbers are the function's results for nine rows, and all
/// other numbers are still 77.
fn are_of_nine<T: Copy + Into<i32>>(
    function: Function,
    rows: &[[u8; LONGEST]; 9],
    count: usize,
    written: &[T; LONGEST],
) -> bool {
    for i in 0..LONGEST {
        let expected = if i < count {
            formula(function, &nine_at(rows, i))
        } else {
            77
        };
        let number: i32 = written[i].into();
        if number != expected {
            return false;
        }
    }
    true
}

/// Returns whether a function's kernel of nine rows writes the first `count` results of `formula`,
/// and nothing more.
fn bytes_of_nine(function: Function, count: usize) -> bool
    requires { count ≤ 65 }
{
    let (rows, mut written) = (nine_rows(), [77; LONGEST]);
    let (nine, out) = (windows(&rows, count), &mut written[..count]);
    match function {
        Function::Erode => min9(&nine, out),
        Function::Dilate => max9(&nine, out),
        _ => median9(&nine, out),
    }
    are_of_nine(function, &rows, count, &written)
}

fn shorts_of_nine(function: Function, count: usize) -> bool
    requires { count ≤ 65 }
{
    let (rows, mut written) = (nine_rows(), [77i16; LONGEST]);
    let (nine, out) = (windows(&rows, count), &mut written[..count]);
    match function {
        Function::SobelX => sobel_x(&nine, out),
        _ => sobel_y(&nine, out),
    }
    are_of_nine(function, &rows, count, &written)
}

#[test]
fn nine_rows_at_each_length(rt: HostRuntime) {
    for length in LENGTHS {
        let count = length.min(LONGEST);
        assert!(rt; bytes_of_nine(Function::Erode, count));
        assert!(rt; bytes_of_nine(Function::Dilate, count));
        assert!(rt; bytes_of_nine(Function::Median, count));
        assert!(rt; shorts_of_nine(Function::SobelX, count));
        assert!(rt; shorts_of_nine(Function::SobelY, count));
    }
}
