//! The jobs of `apply`.
ghost use Rattle.std.specs.Prelude.{◌≡◌};
ghost use Rattle.vx_programs.specs.Job.{function_of, node_of, parse_operation, parse_border};

use vx_base::{Border, Function, Node, NodeSpec, ObjRef, Policy};

/// The name of the input image, the first name in its context.
pub const SOURCE: u32 = 1;

/// The name of the output image, the second name in its context.
pub const RESULT: u32 = 2;

/// A function from one U8 image to another.
#[derive(Clone, Copy, PartialEq, Eq, Debug)]
pub enum Operation {
    Not,
    Box,
    Gaussian,
    Median,
    Erode,
    Dilate,
}

/// An operation, and the border mode for pixels beyond the input image's edges. `Not` ignores the
/// border mode.
#[derive(Clone, Copy, PartialEq, Eq, Debug)]
pub struct Job {
    pub operation: Operation,
    pub border: Border,
}

impl Operation {
    /// Returns the vision function of this operation.
    pub fn function(self) -> Function
        ensures { result ≡ function_of self }
    {
        match self {
            Operation::Not => Function::NotBits,
            Operation::Box => Function::Box,
            Operation::Gaussian => Function::Gaussian,
            Operation::Median => Function::Median,
            Operation::Erode => Function::Erode,
            Operation::Dilate => Function::Dilate,
        }
    }
}

impl Job {
    /// Returns the node of the job, from the image `SOURCE` to the image `RESULT`.
    pub fn node(self) -> NodeSpec
        ensures { result ≡ node_of self }
    {
        NodeSpec::of(Node {
            function: self.operation.function(),
            border: self.border,
            policy: Policy::Wrap,
            amount: 0,
            in1: ObjRef::new(SOURCE, None),
            in2: None,
            out1: Some(ObjRef::new(RESULT, None)),
            out2: None,
        })
    }
}

/// Returns the operation that this word names, if there is one.
pub fn parse_operation(word: &str) -> Option<Operation>
    ensures { result ≡ parse_operation word.now }
{
    if word == "not" {
        Some(Operation::Not)
    } else if word == "box" {
        Some(Operation::Box)
    } else if word == "gaussian" {
        Some(Operation::Gaussian)
    } else if word == "median" {
        Some(Operation::Median)
    } else if word == "erode" {
        Some(Operation::Erode)
    } else if word == "dilate" {
        Some(Operation::Dilate)
    } else {
        None
    }
}

/// Returns the border that this word names, if there is one.
pub fn parse_border(word: &str) -> Option<Border>
    ensures { result ≡ parse_border word.now }
{
    if word == "undefined" {
        Some(Border::Undefined)
    } else if word == "replicate" {
        Some(Border::Replicate)
    } else {
        None
    }
}
