//! Convolution matrices.
ghost use Rattle.std.specs.Prelude.{◌≡◌, ◌≤◌, ◌<◌, ◌*◌, ◌+◌, IsTrue, length, if◌then◌else◌, Some};
ghost use Rattle.std.specs.Prelude.{None};
ghost use Rattle.vx_base.specs.Convolution.{is_odd_side, is_convolution, IsConvolution};

use crate::samples::prove_shorts;
use std::marker::Model;

/// The number of coefficients of the largest matrix, 9x9.
pub const GREATEST_COEFFICIENTS: usize = 81;

/// A convolution matrix for U8 images (OpenVX 1.3, `vx_convolution`). The number of columns and the
/// number of rows are each 3, 5, 7 or 9. The coefficients are S16. Each sum of products is divided
/// by 2^n, where n is the exponent, 0 to 31.
#[derive(Debug, Drop)]
pub struct Convolution {
    columns: u8,
    rows: u8,
    exponent: u8,
    coefficients: [i16; GREATEST_COEFFICIENTS],
}

impl Model for Convolution {
    ghost use Rattle.std.specs.Prelude.{IsTrue, ◌*◌, length, take};
    ghost use Rattle.vx_base.specs.Convolution.{ConvolutionValue, is_convolution};

    ghost Value = { ConvolutionValue };

    ghost view = { λ c. record {
      columns = c.columns;
      rows = c.rows;
      exponent = c.exponent;
      coefficients = take (c.rows * c.columns) c.coefficients;
    } };

    ghost invariant = { λ c. IsTrue (is_convolution c.columns c.rows c.exponent
        (c.rows * c.columns)) };
}

/// Checks whether a matrix can have this number of columns or rows.
fn is_odd_side(side: u8) -> bool
    ensures { result ≡ is_odd_side side }
{
    side == 3 || side == 5 || side == 7 || side == 9
}

impl Convolution {
    /// Returns the matrix with these coefficients, in row-major order. Returns `None` if `columns`
    /// or `rows` isn't one of 3, 5, 7 and 9, or if `exponent` is above 31. Also returns `None` if
    /// the number of coefficients isn't `rows * columns`.
    pub fn new(columns: u8, rows: u8, exponent: u8, coefficients: &[i16]) -> Option<Convolution>
        ensures { result ≡ (if is_convolution columns rows exponent (length coefficients.now)
            then Some (record {
              columns = columns;
              rows = rows;
              exponent = exponent;
              coefficients =
                  coefficients.now;
            }) else None) }
    {
        if !is_odd_side(columns) || !is_odd_side(rows) || exponent > 31 {
            return None;
        }
        let count = usize::from(rows) * usize::from(columns);
        if coefficients.len() != count {
            return None;
        }
        let mut all = [0; GREATEST_COEFFICIENTS];
        all[..count].copy_from_slice(coefficients);
        Some(Convolution {
            columns,
            rows,
            exponent,
            coefficients: all,
        })
    }

    /// Returns the number of columns: 3, 5, 7 or 9.
    pub fn columns(&self) -> u8
        ensures value { result ≡ self.now.columns }
        ensures side { IsTrue (is_odd_side result) }
    {
        self.columns
    }

    /// Returns the number of rows: 3, 5, 7 or 9.
    pub fn rows(&self) -> u8
        ensures value { result ≡ self.now.rows }
        ensures side { IsTrue (is_odd_side result) }
    {
        self.rows
    }

    /// Returns the exponent n, 0 to 31. Each sum of products is divided by 2^n.
    pub fn exponent(&self) -> u8
        ensures value { result ≡ self.now.exponent }
        ensures limit { result ≤ 31 }
    {
        self.exponent
    }

    /// Returns the coefficients in row-major order.
    pub fn coefficients(&self) -> &[i16]
        ensures value { result.now ≡ self.now.coefficients }
        ensures size { length result.now ≡ self.now.rows * self.now.columns }
    {
        let count = usize::from(self.rows) * usize::from(self.columns);
        &self.coefficients[..count]
    }

    /// Returns a copy of the matrix.
    pub fn copy(&self) -> Convolution
        ensures { result ≡ self.now }
    {
        Convolution {
            columns: self.columns,
            rows: self.rows,
            exponent: self.exponent,
            coefficients: self.coefficients,
        }
    }

    /// Proves that the matrix is well-formed. The prover learns a number's range only where the
    /// number is read. At run time this function does nothing.
    pub fn prove_convolution(&self)
        ensures { IsConvolution self.now }
    {
        let _columns = self.columns;
        prove_shorts(self.coefficients());
    }
}
