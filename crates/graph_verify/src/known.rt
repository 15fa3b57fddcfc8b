//! The virtual images that nodes write, resolved node by node along an order.
ghost use Rattle.std.specs.Prelude.{◌≡◌, ◌++◌, ◌+◌, ◌*◌, ◌≤◌, false, IsTrue, length, map, All};
ghost use Rattle.std.specs.Prelude.{sum_by, Some, OnOk, IfOk};
ghost use Rattle.std.specs.List.{filter_map, flat_map};
ghost use Rattle.vx_base.specs.Node.{outputs};
ghost use Rattle.vx_base.specs.Reference.{Reference};
ghost use Rattle.vx_base.specs.Description.{byte_count};
ghost use Rattle.vx_base.specs.PartialDescription.{full_description};
ghost use Rattle.graph_verify.specs.declared.operand.Operand.{Operand};
ghost use Rattle.graph_verify.specs.Operand.{is_image};
ghost use Rattle.graph_verify.specs.Linked.{linked_nodes, AreOperands};
ghost use Rattle.graph_verify.specs.Links.{feeds};
ghost use Rattle.graph_verify.specs.Members.{IsSublist};
ghost use Rattle.graph_verify.specs.Order.{InTurn};
ghost use Rattle.graph_verify.specs.Verdict.{two_writers};
ghost use Rattle.graph_verify.specs.PartialDescriptions.{all_unknown, given_partial_desc};
ghost use Rattle.graph_verify.specs.PartialDescriptions.{virtual_or_image};
ghost use Rattle.graph_verify.specs.ResolvedOutputs.{known_of, known_partial_desc, resolved_output};
ghost use Rattle.graph_verify.specs.ResolvedOutputs.{resolved_by};
ghost use Rattle.graph_verify.specs.ResolvedOutputs.{known_operand, known_given, known_operands};
ghost use Rattle.graph_verify.specs.ResolvedOutputs.{described_output, AreResolved};

use crate::linked::Linked;
use crate::operand::{Operand, Operands};
use std::alloc::{AllocError, Global};
use vx_base::{Desc, Function, ObjRef, PartialDesc};

/// A virtual image that a node writes, with its description after resolving. A part is still open
/// if it is open both in the declaration and in the node's first input.
#[derive(Clone, Copy)]
pub struct ResolvedOutput {
    pub cell: ObjRef,
    pub partial_desc: PartialDesc,
}

/// A virtual image that a node writes, with its full description.
#[derive(Clone, Copy, PartialEq, Eq, Debug)]
pub struct VirtualOutput {
    pub cell: ObjRef,
    pub desc: Desc,
}

impl ResolvedOutput {
    /// Returns the virtual image with its full description, or `None` if a part of the description
    /// is open.
    pub fn described(self) -> Option<VirtualOutput>
        ensures { result ≡ described_output self }
    {
        let desc = self.partial_desc.full_desc()?;
        Some(VirtualOutput {
            cell: self.cell,
            desc,
        })
    }
}

/// Returns the description of a virtual image in `known`, or `None` if the image isn't in `known`.
/// Parts of the description may still be open.
fn known_of(known: &[ResolvedOutput], cell: ObjRef) -> Option<PartialDesc>
    ensures { result ≡ known_of known.now cell }
{
    known
        .iter()
        .find(|known| known.cell == cell)
        .map(|known| known.partial_desc)
}

/// Returns an operand's partial description. For a virtual image this is the description in
/// `known`, or the declared one if the image isn't in `known`.
fn known_partial_desc(known: &[ResolvedOutput], cell: ObjRef, operand: Operand) -> PartialDesc
    ensures { result ≡ known_partial_desc known.now cell operand }
{
    match operand {
        Operand::Image(desc) => PartialDesc::of(desc),
        Operand::Virtual(declared) => known_of(known, cell).unwrap_or(declared),
        _ => all_unknown(),
    }
}

/// Returns a partial description with all parts open.
fn all_unknown() -> PartialDesc
    ensures { result ≡ all_unknown }
{
    PartialDesc::new(None, None, None).unwrap()
}

/// Returns the description that a function gives its output image: the size of the first input, and
/// the function's default format for that input.
fn given_partial_desc(function: Function, first: PartialDesc) -> PartialDesc
    ensures { result ≡ given_partial_desc function first }
{
    first.prove_sides();
    let format = first.format().map(|format| function.open_format(format));
    PartialDesc::new(first.width(), first.height(), format).unwrap()
}

/// Adds an output to `known`, if the output is a virtual image. Open parts of its description are
/// filled in from `given`.
fn learn_cell(
    known: &mut Vec<ResolvedOutput>,
    cell: ObjRef,
    operand: Operand,
    given: PartialDesc,
) -> Result<(), AllocError>
    ensures resolved { OnOk result (known.new.items
        ≡ known.old.items ++ resolved_output (Some cell) (Some operand) given) }
    ensures limit { OnOk result (length known.new.items ≤ length known.old.items + 1) }
{
    match operand {
        Operand::Virtual(declared) => {
            let partial_desc = declared.with_defaults(given);
            known.push(ResolvedOutput { cell, partial_desc })?;
            Ok(())
        }
        _ => Ok(()),
    }
}

/// Adds an output as `learn_cell` does, if the node has this output.
fn learn_output(
    known: &mut Vec<ResolvedOutput>,
    cell: Option<ObjRef>,
    operand: Option<Operand>,
    given: PartialDesc,
) -> Result<(), AllocError>
    ensures resolved { OnOk result (known.new.items ≡ known.old.items
        ++ resolved_output cell operand given) }
    ensures limit { OnOk result (length known.new.items ≤ length known.old.items + 1) }
{
    match (cell, operand) {
        (Some(cell), Some(operand)) => learn_cell(known, cell, operand, given),
        _ => Ok(()),
    }
}

/// Adds each output of a node to `known`, if the output is a virtual image.
fn learn(known: &mut Vec<ResolvedOutput>, linked: &Linked) -> Result<(), AllocError>
    ensures resolved { OnOk result (known.new.items
        ≡ known.old.items ++ resolved_by known.old.items linked.now) }
    ensures limit { OnOk result (length known.new.items ≤ length known.old.items + 2) }
{
    let Linked { node, operands, .. } = linked;
    let first = known_partial_desc(known, node.in1, operands.in1);
    let given = given_partial_desc(node.function, first);
    learn_output(known, node.out1, operands.out1, given)?;
    learn_output(known, node.out2, operands.out2, given)
}

/// Returns a resolved operand: a virtual image gets its resolved description, and becomes an image
/// if no part of the description is open; other operands don't change.
fn known_operand(known: &[ResolvedOutput], cell: ObjRef, operand: Operand) -> Operand
    ensures { result ≡ known_operand known.now cell operand }
{
    match operand {
        Operand::Virtual(_) => as_described(known_partial_desc(known, cell, operand)),
        operand => operand,
    }
}

/// Returns an image of this description, or a virtual image if a part of the description is open.
fn as_described(known: PartialDesc) -> Operand
    ensures { result ≡ virtual_or_image known (full_description known) }
{
    match known.full_desc() {
        None => Operand::Virtual(known),
        Some(desc) => Operand::Image(desc),
    }
}

/// Returns an operand as `known_operand` does, or `None` if the node has no such operand.
fn known_given(
    known: &[ResolvedOutput],
    cell: Option<ObjRef>,
    operand: Option<Operand>,
) -> Option<Operand>
    ensures { result ≡ known_given known.now cell operand }
{
    match (cell, operand) {
        (Some(cell), Some(operand)) => Some(known_operand(known, cell, operand)),
        _ => None,
    }
}

/// Returns the operands of a node, with virtual images resolved.
pub fn known_operands(known: &[ResolvedOutput], linked: &Linked) -> Operands
    ensures { result ≡ known_operands known.now linked.now }
{
    let Linked { node, operands, .. } = linked;
    Operands {
        in1: known_operand(known, node.in1, operands.in1),
        in2: known_given(known, node.in2, operands.in2),
        out1: known_given(known, node.out1, operands.out1),
        out2: known_given(known, node.out2, operands.out2),
    }
}

/// Returns the virtual images that the nodes write, resolved node by node along `steps`. Each node
/// must come after all nodes that feed it, and its first input must be an image, virtual or not. No
/// object may have two writers. An error means that there is no memory for the result.
pub fn known_after(alloc: Global, steps: &[Linked]) -> Result<Vec<ResolvedOutput>, AllocError>
    requires one_writer { two_writers (linked_nodes steps.now) ≡ false }
    requires in_turn { InTurn feeds (linked_nodes steps.now) }
    requires images { All (λ l. IsTrue (is_image l.operands.in1)) steps.now }
    ensures known { IfOk result (λ known. (is : Reference → Operand) → AreOperands is steps.now →
        AreResolved is (linked_nodes steps.now) known.items) }
    ensures cells { IfOk result (λ known. IsSublist (map (λ k. k.cell) known.items)
        (flat_map outputs (linked_nodes steps.now))) }
    ensures limit { IfOk result (λ known. length known.items ≤ 2 * length steps.now) }
{
    let mut known = Vec::new(alloc);
    for linked in steps {
        learn(&mut known, linked)?;
    }
    Ok(known)
}

/// Returns the virtual images that have a full description, or an error if there is no memory for
/// the result.
pub fn all_described(
    alloc: Global,
    known: &[ResolvedOutput],
) -> Result<Vec<VirtualOutput>, AllocError>
    ensures { IfOk result (λ outputs. outputs.items ≡ filter_map described_output known.now) }
{
    known
        .iter()
        .filter_map(|known| known.described())
        .collect(alloc)
}

/// Returns the total size in bytes of the samples of at most 512 images.
pub fn sample_bytes(outputs: &[VirtualOutput]) -> u64
    requires { length outputs.now ≤ 512 }
    ensures { result ≡ sum_by (λ o. byte_count o.desc) outputs.now }
{
    let mut bytes = 0;
    for output in outputs {
        bytes += output.desc.byte_count() as u64;
    }
    bytes
}
