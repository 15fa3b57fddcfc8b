//! Verdicts: why a graph can't run.
ghost use Rattle.std.specs.Prelude.{◌≡◌, option_to_list};
ghost use Rattle.std.specs.List.{list_any, list_all};
ghost use Rattle.std.specs.Option.{option_and_then};
ghost use Rattle.vx_base.specs.Reference.{same_reference};
ghost use Rattle.vx_base.specs.Node.{outputs};
ghost use Rattle.vx_base.specs.Formats.{takes_formats};
ghost use Rattle.graph_verify.specs.declared.operand.Operand.TheVariants.{Image};
ghost use Rattle.graph_verify.specs.Operand.{operand_format, are_of_one_size, other_operands};
ghost use Rattle.graph_verify.specs.Verdict.{takes_operands, node_fault, verdict_on};
ghost use Rattle.graph_verify.specs.Verdict.{reads_own_output};

use crate::linked::{writes, writes_given, writes_twice};
use crate::operand::{Operand, Operands};
use vx_base::{Code, Desc, Format, Function, Node};

/// Why a graph can't run (OpenVX 1.3, `vxVerifyGraph`).
#[derive(Clone, Copy, PartialEq, Eq, Debug)]
pub enum Verdict {
    /// Two outputs, of two nodes or of one node, are the same object.
    MultipleWriters,
    /// There is a cycle: each of its nodes writes an object that the next one reads, and the last
    /// one writes an object that the first one reads.
    InvalidGraph,
    /// A node accumulates into a virtual image, or reads a virtual image that no node writes.
    InvalidLink,
    /// A node's function doesn't take the formats of its operands.
    InvalidFormat,
    /// An image of a node doesn't have the size of the node's first input.
    InvalidDimension,
    /// The virtual images that the nodes write take more bytes than the limit.
    NoResources,
}

impl Verdict {
    ghost use Rattle.graph_verify.specs.Verdict.{verdict_code};

    /// Returns the status code of the verdict.
    pub fn code(self) -> Code
        ensures { result ≡ verdict_code self }
    {
        match self {
            Verdict::MultipleWriters => Code::MultipleWriters,
            Verdict::InvalidGraph => Code::InvalidGraph,
            Verdict::InvalidFormat => Code::InvalidFormat,
            Verdict::InvalidDimension => Code::InvalidDimension,
            Verdict::InvalidLink => Code::InvalidLink,
            Verdict::NoResources => Code::NoResources,
        }
    }
}

/// Returns the verdict on a node alone, with these operands, or `None` if the node can run.
pub fn verdict_on(node: &Node, operands: &Operands) -> Option<Verdict>
    ensures { result ≡ verdict_on node.now operands.now }
{
    if writes_twice(node) {
        Some(Verdict::MultipleWriters)
    } else if reads_own_output(node) {
        Some(Verdict::InvalidGraph)
    } else {
        node_fault(node.function, operands)
    }
}

/// Returns whether a node reads an object that it writes: a cycle of one node.
fn reads_own_output(node: &Node) -> bool
    ensures { result ≡ reads_own_output node.now }
{
    writes(node, node.in1) || writes_given(node, node.in2)
}

/// Returns whether the function takes these input formats together with an output's format. An
/// absent output is accepted.
fn takes_output(
    function: Function,
    first: Format,
    second: Option<Format>,
    output: Option<Operand>,
) -> bool
    ensures { result ≡ list_all (λ out. takes_formats function first second (operand_format out))
        (option_to_list output) }
{
    match output {
        None => true,
        Some(output) => function.takes_formats(first, second, output.format()),
    }
}

/// Returns the format of an operand, if the operand is given and has a format.
fn format_if_there(operand: Option<Operand>) -> Option<Format>
    ensures { result ≡ option_and_then operand_format operand }
{
    operand?.format()
}

/// Returns whether the function takes the input formats together with each output's format; false
/// if the first input has no format.
fn takes_operands(function: Function, operands: &Operands) -> bool
    ensures { result ≡ takes_operands function operands.now }
{
    let second = format_if_there(operands.in2);
    match operands.in1.format() {
        None => false,
        Some(first) => {
            takes_output(function, first, second, operands.out1)
                && takes_output(function, first, second, operands.out2)
        }
    }
}

/// Returns whether two operands have the same size; true if one of them is virtual or isn't an
/// image.
fn are_of_one_size(operand: Operand, other: Operand) -> bool
    ensures { result ≡ are_of_one_size operand other }
{
    match operand {
        Operand::Image(desc) => has_size_of(other, desc),
        _ => true,
    }
}

/// Returns whether an operand has this size; true if the operand is virtual or isn't an image.
fn has_size_of(operand: Operand, size: Desc) -> bool
    ensures { result ≡ are_of_one_size (Image size) operand }
{
    match operand {
        Operand::Image(desc) => size.has_size_of(desc),
        _ => true,
    }
}

/// Returns whether an operand has the size of the first input, in the sense of `are_of_one_size`.
/// An absent operand is accepted.
fn fits(first: Operand, other: Option<Operand>) -> bool
    ensures { result ≡ list_all (are_of_one_size first) (option_to_list other) }
{
    other.is_none_or(|other| are_of_one_size(first, other))
}

/// Returns a node's fault, or `None` if it has none. The fault is `InvalidFormat` if the function
/// doesn't take the formats of the operands. Otherwise it is `InvalidDimension` if an image doesn't
/// have the size of the first input.
pub fn node_fault(function: Function, operands: &Operands) -> Option<Verdict>
    ensures { result ≡ node_fault function operands.now }
{
    if !takes_operands(function, operands) {
        Some(Verdict::InvalidFormat)
    } else if is_of_one_size(operands) {
        None
    } else {
        Some(Verdict::InvalidDimension)
    }
}

/// Returns whether all operands have the size of the first input, in the sense of
/// `are_of_one_size`.
fn is_of_one_size(operands: &Operands) -> bool
    ensures { result ≡ list_all (are_of_one_size operands.now.in1) (other_operands operands.now) }
{
    fits(operands.in1, operands.in2)
        && fits(operands.in1, operands.out1)
        && fits(operands.in1, operands.out2)
}
