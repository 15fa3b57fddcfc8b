//! Why a body encodes no request.

/// Why a body encodes no request.
#[derive(Clone, Copy, Debug, PartialEq, Eq)]
pub enum BodyFault {
    /// The op is unknown, a field is cut short, or bytes follow the last field. Or a field's value
    /// isn't allowed, and none of the faults below applies.
    InvalidParameters,
    /// A number isn't a format, or the format of a lookup table or a threshold is U32.
    InvalidFormat,
    /// A dimension is out of range:
    ///
    /// - a width or a height is above 8192, or is 0 where it can't be open
    /// - the number of columns or rows of a convolution isn't 3, 5, 7 or 9
    InvalidDimension,
    /// A number is out of range:
    ///
    /// - an amount is above the function's greatest amount
    /// - a limit of a threshold isn't a sample of the threshold's format, or the upper limit is
    ///   below the lower one
    /// - a rectangle with a bound other than 0 has x0 >= x1 or y0 >= y1
    /// - the number of slots of a delay isn't 1 to 16
    /// - the exponent of a convolution is above 31
    /// - the number of bins or their `range` isn't 1 to 256, or their `offset` is above 255
    InvalidValue,
}
