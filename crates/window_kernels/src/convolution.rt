//! Convolution of images with a matrix.
ghost use Rattle.std.specs.Prelude.{◌≡◌, ◌+◌, ◌*◌, ◌/◌, ◌<◌, ◌≤◌, ◌+ℤ◌, ◌-ℤ◌};
ghost use Rattle.std.specs.Prelude.{pos, min, length, FitsSigned, All, IsTrue, refl};
ghost use Rattle.std.specs.Int.{w16};
ghost use Rattle.std.specs.Simd.Lanes.{Each1};
ghost use Rattle.vx_base.specs.declared.format.Format.TheVariants.{U8};
ghost use Rattle.vx_base.specs.Convolution.{is_odd_side};
ghost use Rattle.vx_base.specs.Image.{run, table};
ghost use Rattle.vx_base.specs.Node.{IsBorder};
ghost use Rattle.vx_base.specs.Window.{sample_or_border, convolution_result, from_matrix};
ghost use Rattle.image_core.specs.Fits.{HaveSameSize};
ghost use Rattle.image_core.specs.Target.{target_image, IsTarget, Writes};
ghost use Rattle.window_kernels.specs.declared.convolution.TheConstants.{PIECE_WIDTH};
ghost use Rattle.window_kernels.specs.Fits.{ConvolutionFits};
ghost use Rattle.lane_rows.specs.Pairs.{IsNear, alternation};
ghost use Rattle.window_kernels.specs.Rotated.{rotated_coefficient, rotated_tables};

use crate::windows::{SampleItem, with_scratch};
use border_rows::{load_row, window_valid};
use image_core::{Image, ImageMut, RowFormula, Sample};
use lane_rows::{Clamped, MatrixRows};
use vx_base::{Border, Convolution, Format, Rect};

/// Output samples of convolution: U8 and S16.
trait Convolved: SampleItem + Clamped {
    ghost same_format: { Self.Clamped.format ≡ Self.Sample.format };
}

impl Convolved for u8 {
    ghost same_format = { refl };
}

impl Convolved for i16 {
    ghost same_format = { refl };
}

/// Returns a coefficient of a row with the columns reversed, or 0 after the last column.
fn rotated_coefficient(convolution: &Convolution, row: usize, column: usize) -> i16
    requires { row < convolution.now.rows }
    ensures { result ≡ rotated_coefficient convolution.now row column }
{
    let columns = usize::from(convolution.columns());
    if column < columns {
        convolution.coefficients()[row * columns + (columns - 1 - column)]
    } else {
        0
    }
}

/// Writes two coefficients alternately, each eight times.
fn write_pair(first: i16, second: i16, out: &mut [i16])
    requires { length out.old ≡ 16 }
    ensures { out.new ≡ alternation 8 first second }
{
    let (a, b) = (first, second);
    out.copy_from_slice(&[a, b, a, b, a, b, a, b, a, b, a, b, a, b, a, b]);
}

/// Writes the tables of all rows of a matrix: five coefficient pairs for each row, each pair eight
/// times.
fn write_tables(convolution: &Convolution, tables: &mut [i16])
    requires { length tables.old ≡ convolution.now.rows * 80 }
    ensures value { tables.new ≡ rotated_tables convolution.now }
    ensures fits { All (FitsSigned w16) tables.new }
{
    for k in 0..5 * usize::from(convolution.rows()) {
        let (row, column) = (k / 5, k % 5 * 2);
        let first = rotated_coefficient(convolution, row, column);
        let second = rotated_coefficient(convolution, row, column + 1);
        write_pair(first, second, &mut tables[16 * k..16 * k + 16]);
    }
}

/// Proves that the border's constant is a U8 sample. At run time this function does nothing.
fn prove_constant(border: Border)
    ensures { IsBorder border }
{
    if let Border::Constant(_value) = border {}
}

/// The greatest number of columns in a piece of a row. It limits the scratch memory, however wide
/// the image is.
const PIECE_WIDTH: usize = 1024;

/// The number of items loaded in each row beyond the columns of a piece, as `MatrixRows::write`
/// requires. A block of lanes that begins at the last column reads beyond the piece.
const AROUND: usize = 48;

/// A U8 image convolved with a matrix under a border.
#[derive(Drop)]
struct FromMatrix<'a, 'b> {
    image: &'a Image<'b>,
    convolution: &'a Convolution,
    tables: &'a [i16],
    border: Border,
    area: Rect,
    ghost format: { image.now.format ≡ U8 },
    ghost columns: { (area.x1 ≤ image.now.valid.x1) ×
        (area.x0 < area.x1 → image.now.valid.x0 < image.now.valid.x1) },
    ghost rows: { (area.y1 ≤ image.now.valid.y1) ×
        (area.y0 < area.y1 → image.now.valid.y0 < image.now.valid.y1) },
    ghost rotated_coefficient: { tables.now ≡ rotated_tables convolution.now },
    ghost fits: { All (FitsSigned w16) tables.now },
    ghost side: { IsTrue (is_odd_side convolution.now.columns) },
}

impl FromMatrix<'_, '_> {
    /// Loads the samples of one row for the windows from column `x` on.
    fn load_line(&self, x: u16, row: i32, line: &mut [i16])
        requires columns { self.now.image.now.valid.x0 < self.now.image.now.valid.x1 }
        requires rows { self.now.image.now.valid.y0 < self.now.image.now.valid.y1 }
        ensures value { line.new ≡ run x (length line.old)
            (λ c. sample_or_border self.now.image.now self.now.border
            (pos c -ℤ pos (self.now.convolution.now.columns / 2)) row) }
        ensures limit { Each1 (IsNear 255) line.new }
    {
        let _limits = self.image.valid();
        prove_constant(self.border);
        let radius = u16::from(self.convolution.columns() / 2);
        load_row(self.image, x, radius, row, self.border, line);
    }

    /// Loads the rows of samples for the windows of row `y` from column `x` on. `line` is the
    /// number of items loaded for each row. The bottom row comes first, which has the effect of
    /// reversing the rows of the matrix.
    fn load_rows(&self, x: u16, y: u16, line: u16, rows: &mut [i16])
        requires columns { self.now.image.now.valid.x0 < self.now.image.now.valid.x1 }
        requires rows { self.now.image.now.valid.y0 < self.now.image.now.valid.y1 }
        requires line { line ≤ PIECE_WIDTH + 48 }
        requires len { length rows.old ≡ self.now.convolution.now.rows * line }
        ensures value { rows.new ≡ table line self.now.convolution.now.rows
            (λ c l. sample_or_border self.now.image.now self.now.border
            (pos (x + c) -ℤ pos (self.now.convolution.now.columns / 2))
            (pos y +ℤ pos (self.now.convolution.now.rows / 2) -ℤ pos l)) }
        ensures limit { Each1 (IsNear 255) rows.new }
    {
        let step = usize::from(line);
        let count = self.convolution.rows();
        for l in 0..count {
            let row = i32::from(y) + i32::from(count / 2) - i32::from(l);
            let start = usize::from(l) * step;
            self.load_line(x, row, &mut rows[start..start + step]);
        }
    }
}

impl<T: Convolved> RowFormula<T, i16> for FromMatrix<'_, '_> {
    ghost at = { λ s x y. convolution_result s.convolution.now T.Sample.format
        (sample_or_border s.image.now s.border) (pos x) (pos y) };

    ghost area = { λ s. s.area };

    ghost most = { λ _. PIECE_WIDTH };

    ghost scratch_len = { λ s. 9 * (min s.image.now.width PIECE_WIDTH + 48) };

    fn area(&self) -> Rect {
        self.area
    }

    fn most(&self) -> u16 {
        PIECE_WIDTH as u16
    }

    fn fill(&self, x: u16, y: u16, scratch: &mut [i16], out: &mut [T]) {
        let _limits = self.image.valid();
        let line = (out.len() + AROUND) as u16;
        let count = self.convolution.rows();
        let rows = &mut scratch[..usize::from(count) * usize::from(line)];
        self.load_rows(x, y, line, rows);
        let matrix = MatrixRows {
            rows,
            line,
            tables: self.tables,
            count,
            pairs: usize::from(self.convolution.columns()) / 2 + 1,
            exponent: self.convolution.exponent(),
        };
        matrix.write(out);
    }
}

/// Writes the convolution of a U8 image to a U8 or S16 output of the image's size. `scratch` holds
/// the rows that the windows of a piece read.
fn write_convolved<T: Convolved>(
    image: &Image<'_>,
    convolution: &Convolution,
    output: &mut ImageMut<'_>,
    border: Border,
    scratch: &mut [i16],
)
    requires target { IsTarget output.old }
    requires size { HaveSameSize (target_image output.old) image.now }
    requires input_format { image.now.format ≡ U8 }
    requires format { (target_image output.old).format ≡ T.Sample.format }
    requires scratch { 9 * (min image.now.width PIECE_WIDTH + 48) ≤ length scratch.old }
    ensures { Writes (from_matrix T.Sample.format convolution.now border image.now)
        output.old output.new }
{
    let (columns, rows) = (convolution.columns() / 2, convolution.rows() / 2);
    let area = window_valid(border, u16::from(columns), u16::from(rows), image.valid());
    let mut longest = [0; 9 * 80];
    let tables = &mut longest[..usize::from(convolution.rows()) * 80];
    write_tables(convolution, tables);
    let formula = FromMatrix {
        image,
        convolution,
        tables,
        border,
        area,
    };
    output.write_by_rows::<T, i16, _>(&formula, scratch);
}

/// Calls `write_convolved` for the output's format, which is U8 or S16. `rows` is the scratch
/// memory.
fn convolve_with(
    image: &Image<'_>,
    convolution: &Convolution,
    output: &mut ImageMut<'_>,
    border: Border,
    rows: &mut [i16],
)
    requires fits { ConvolutionFits image.now output.old }
    requires scratch { 9 * (min image.now.width PIECE_WIDTH + 48) ≤ length rows.old }
    ensures { Writes (from_matrix (target_image output.old).format convolution.now border image.now)
        output.old output.new }
{
    match output.desc().format() {
        Format::U8 => write_convolved::<u8>(image, convolution, output, border, rows),
        Format::S16 => write_convolved::<i16>(image, convolution, output, border, rows),
        Format::U32 => unreachable!(),
    }
}

/// Convolves a U8 image with a matrix, and writes the result to a U8 or S16 output of the image's
/// size (OpenVX 1.3, "Custom Convolution"). The matrix is turned by 180 degrees. Each sum of
/// products is divided by the matrix's power of two, rounded toward zero and clamped.
pub fn convolve(
    image: &Image<'_>,
    convolution: &Convolution,
    output: &mut ImageMut<'_>,
    border: Border,
)
    requires { ConvolutionFits image.now output.old }
    ensures { Writes (from_matrix (target_image output.old).format convolution.now border image.now)
        output.old output.new }
{
    let _limits = image.valid();
    with_scratch!(
        image.desc().width(),
        [0; 9 * (64 + AROUND), 9 * (512 + AROUND), 9 * (PIECE_WIDTH + AROUND)],
        rows => { convolve_with(image, convolution, output, border, rows) }
    )
}
