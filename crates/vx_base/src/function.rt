//! The vision functions.
ghost use Rattle.std.specs.Prelude.{◌≡◌, ◌↔◌, Some};
ghost use Rattle.vx_base.specs.Function.{function_number, function_numbered, parameters};
ghost use Rattle.vx_base.specs.Function.{accumulates};
ghost use Rattle.vx_base.specs.Formats.{are_bytes, are_equal, are_arithmetic, takes_formats};
ghost use Rattle.vx_base.specs.declared.function.Function.{Function as VisionFunction};

use crate::format::Format;
use crate::kind::Kind;

/// A vision function (OpenVX 1.3, "Vision Functions"). Each variant quotes the name of its section.
#[derive(Clone, Copy, PartialEq, Eq, Debug)]
pub enum Function {
    /// "Bitwise AND".
    AndBits,
    /// "Bitwise INCLUSIVE OR".
    OrBits,
    /// "Bitwise EXCLUSIVE OR".
    XorBits,
    /// "Bitwise NOT".
    NotBits,
    /// "Arithmetic Addition".
    Add,
    /// "Arithmetic Subtraction".
    Subtract,
    /// "Pixel-wise Multiplication"; the product is divided by 2^n, where n is the node's amount.
    Multiply,
    /// "Absolute Difference".
    AbsoluteDifference,
    /// "Min".
    MinPixel,
    /// "Max".
    MaxPixel,
    /// "Thresholding".
    Threshold,
    /// "TableLookup".
    TableLookup,
    /// "Convert Bit Depth"; the node's amount is the shift.
    ConvertDepth,
    /// "Box Filter", 3x3.
    Box,
    /// "Gaussian Filter", 3x3.
    Gaussian,
    /// "Median Filter", 3x3.
    Median,
    /// "Erode Image", 3x3.
    Erode,
    /// "Dilate Image", 3x3.
    Dilate,
    /// "Sobel 3x3"; the outputs are the horizontal and the vertical gradient.
    Sobel,
    /// "Custom Convolution".
    Convolve,
    /// "Histogram".
    Histogram,
    /// "Integral Image".
    Integral,
    /// "Min, Max Location".
    MinMaxLoc,
    /// "Accumulate".
    Accumulate,
    /// "Accumulate Squared"; the square is divided by 2^n, where n is the node's amount.
    AccumulateSquare,
}

/// A function's parameters, other than the border and the first input, which is always an image.
#[derive(Clone, Copy, PartialEq, Eq, Debug)]
pub struct Parameters {
    /// The kind of the second input, if the function has one.
    pub second_input: Option<Kind>,
    /// Whether the function takes an overflow policy.
    pub policy: bool,
    /// The greatest amount, if the function takes an amount; the least is 0.
    pub greatest_amount: Option<u8>,
    /// The kind of the outputs.
    pub output: Kind,
    /// Whether the function has two outputs. A node of such a function has one or both.
    pub output_pair: bool,
}

impl Function {
    /// Returns the function's number, a byte in a request.
    pub fn number(self) -> u8
        ensures { result ≡ function_number self }
    {
        match self {
            Function::AndBits => 1,
            Function::OrBits => 2,
            Function::XorBits => 3,
            Function::NotBits => 4,
            Function::Add => 5,
            Function::Subtract => 6,
            Function::Multiply => 7,
            Function::AbsoluteDifference => 8,
            Function::MinPixel => 9,
            Function::MaxPixel => 10,
            Function::Threshold => 11,
            Function::TableLookup => 12,
            Function::ConvertDepth => 13,
            Function::Box => 14,
            Function::Gaussian => 15,
            Function::Median => 16,
            Function::Erode => 17,
            Function::Dilate => 18,
            Function::Sobel => 19,
            Function::Convolve => 20,
            Function::Histogram => 21,
            Function::Integral => 22,
            Function::MinMaxLoc => 23,
            Function::Accumulate => 24,
            Function::AccumulateSquare => 25,
        }
    }

    /// Returns the function with this number, or `None` if there is none.
    pub fn from_number(number: u8) -> Option<Function>
        ensures value { result ≡ function_numbered number }
        ensures inverse { (function : VisionFunction) →
            (result ≡ Some function) ↔ (function_number function ≡ number) }
    {
        match number {
            1 => Some(Function::AndBits),
            2 => Some(Function::OrBits),
            3 => Some(Function::XorBits),
            4 => Some(Function::NotBits),
            5 => Some(Function::Add),
            6 => Some(Function::Subtract),
            7 => Some(Function::Multiply),
            8 => Some(Function::AbsoluteDifference),
            9 => Some(Function::MinPixel),
            10 => Some(Function::MaxPixel),
            11 => Some(Function::Threshold),
            12 => Some(Function::TableLookup),
            13 => Some(Function::ConvertDepth),
            14 => Some(Function::Box),
            15 => Some(Function::Gaussian),
            16 => Some(Function::Median),
            17 => Some(Function::Erode),
            18 => Some(Function::Dilate),
            19 => Some(Function::Sobel),
            20 => Some(Function::Convolve),
            21 => Some(Function::Histogram),
            22 => Some(Function::Integral),
            23 => Some(Function::MinMaxLoc),
            24 => Some(Function::Accumulate),
            25 => Some(Function::AccumulateSquare),
            _ => None,
        }
    }

    /// Returns the function's parameters.
    pub fn parameters(self) -> Parameters
        ensures { result ≡ parameters self }
    {
        let (policy, greatest_amount) = match self {
            Function::Add | Function::Subtract => (true, None),
            Function::Multiply => (true, Some(15)),
            Function::ConvertDepth => (true, Some(7)),
            Function::AccumulateSquare => (false, Some(15)),
            _ => (false, None),
        };
        Parameters {
            second_input: self.second_input(),
            policy,
            greatest_amount,
            output: self.output(),
            output_pair: self == Function::Sobel,
        }
    }

    /// Returns the kind of the function's second input, if it has one.
    fn second_input(self) -> Option<Kind>
        ensures { result ≡ (parameters self).second_input }
    {
        match self {
            Function::Threshold => Some(Kind::Threshold),
            Function::TableLookup => Some(Kind::Lut),
            Function::Convolve => Some(Kind::Convolution),
            Function::AndBits
            | Function::OrBits
            | Function::XorBits
            | Function::Add
            | Function::Subtract
            | Function::Multiply
            | Function::AbsoluteDifference
            | Function::MinPixel
            | Function::MaxPixel => Some(Kind::Image),
            _ => None,
        }
    }

    /// Returns the kind of object that the function writes.
    fn output(self) -> Kind
        ensures { result ≡ (parameters self).output }
    {
        match self {
            Function::Histogram => Kind::Distribution,
            Function::MinMaxLoc => Kind::Extremes,
            _ => Kind::Image,
        }
    }

    /// Checks whether the function adds to its output image. The image's samples from before the
    /// run are then an operand too.
    pub fn accumulates(self) -> bool
        ensures { result ≡ accumulates self }
    {
        matches!(self, Function::Accumulate | Function::AccumulateSquare)
    }

    /// Checks whether the function takes these formats for its first input, its second input and
    /// its output. The second input may be a lookup table, a threshold or a convolution. Its format
    /// is then the format of the entries, of the tested samples, or of the coefficients. `None`
    /// means that the operand is absent or has no format.
    pub fn takes_formats(
        self,
        first: Format,
        second: Option<Format>,
        output: Option<Format>,
    ) -> bool
        ensures { result ≡ takes_formats self first second output }
    {
        match (second, output) {
            (None, None) => self.measures(first),
            (None, Some(output)) => self.makes(first, output),
            (Some(second), Some(output)) => self.joins(first, second, output),
            (Some(_), None) => false,
        }
    }

    /// Checks whether the function writes no image and takes a first input of this format.
    fn measures(self, first: Format) -> bool
        ensures { result ≡ takes_formats self first None None }
    {
        match self {
            Function::Histogram => first == Format::U8,
            Function::MinMaxLoc => first != Format::U32,
            _ => false,
        }
    }

    /// Checks whether the function makes an image of format `output` from an image of format
    /// `first`, without a second input.
    fn makes(self, first: Format, output: Format) -> bool
        ensures { result ≡ takes_formats self first None (Some output) }
    {
        match self {
            Function::ConvertDepth => {
                (first, output) == (Format::U8, Format::S16)
                    || (first, output) == (Format::S16, Format::U8)
            }
            Function::NotBits
            | Function::Box
            | Function::Gaussian
            | Function::Median
            | Function::Erode
            | Function::Dilate => (first, output) == (Format::U8, Format::U8),
            Function::Sobel | Function::Accumulate | Function::AccumulateSquare => {
                (first, output) == (Format::U8, Format::S16)
            }
            Function::Integral => (first, output) == (Format::U8, Format::U32),
            _ => false,
        }
    }

    /// Checks whether the function makes an image of format `output` from an image of format
    /// `first` and a second input of format `second`.
    fn joins(self, first: Format, second: Format, output: Format) -> bool
        ensures { result ≡ takes_formats self first (Some second) (Some output) }
    {
        match self {
            Function::AndBits | Function::OrBits | Function::XorBits => {
                are_bytes(first, second, output)
            }
            Function::Add | Function::Subtract | Function::Multiply => {
                are_arithmetic(first, second, output)
            }
            Function::Threshold => {
                first == second && first != Format::U32 && output == Format::U8
            }
            Function::AbsoluteDifference
            | Function::MinPixel
            | Function::MaxPixel
            | Function::TableLookup => are_equal(first, second, output),
            Function::Convolve => {
                (first, second) == (Format::U8, Format::S16) && output != Format::U32
            }
            _ => false,
        }
    }
}

impl Function {
    ghost use Rattle.vx_base.specs.Formats.{open_format};

    /// Returns the format that an output image gets if its own format is open, given the format of
    /// the node's first input. The result has no meaning for a function that writes no image.
    pub fn open_format(self, first: Format) -> Format
        ensures { result ≡ open_format self first }
    {
        match self {
            Function::AbsoluteDifference
            | Function::MinPixel
            | Function::MaxPixel
            | Function::TableLookup => first,
            Function::ConvertDepth if first == Format::S16 => Format::U8,
            Function::Add
            | Function::Subtract
            | Function::Multiply
            | Function::ConvertDepth
            | Function::Sobel
            | Function::Convolve
            | Function::Accumulate
            | Function::AccumulateSquare => Format::S16,
            Function::Integral => Format::U32,
            _ => Format::U8,
        }
    }
}

/// Checks whether all three formats are U8.
fn are_bytes(first: Format, second: Format, output: Format) -> bool
    ensures { result ≡ are_bytes first second output }
{
    first == Format::U8 && second == Format::U8 && output == Format::U8
}

/// Checks whether all three formats are U8, or all are S16.
fn are_equal(first: Format, second: Format, output: Format) -> bool
    ensures { result ≡ are_equal first second output }
{
    first == second && second == output && output != Format::U32
}

/// Checks whether all three formats are U8, or the output is S16 and each input is U8 or S16.
fn are_arithmetic(first: Format, second: Format, output: Format) -> bool
    ensures { result ≡ are_arithmetic first second output }
{
    match output {
        Format::U8 => first == Format::U8 && second == Format::U8,
        Format::S16 => first != Format::U32 && second != Format::U32,
        Format::U32 => false,
    }
}
