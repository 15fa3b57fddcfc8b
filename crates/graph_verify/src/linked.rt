//! Nodes with their operands, and the links between nodes.
ghost use Rattle.std.specs.Prelude.{◌≡◌, ◌||◌};
ghost use Rattle.std.specs.List.{list_any};
ghost use Rattle.vx_base.specs.Reference.{Reference};
ghost use Rattle.vx_base.specs.Node.{optional_cells, outputs};
ghost use Rattle.graph_verify.specs.Links.{writes, is_written};
ghost use Rattle.graph_verify.specs.declared.operand.Operand.{Operand};
ghost use Rattle.graph_verify.specs.Linked.{linked_nodes, AreOperands, lacks_writer};
ghost use Rattle.graph_verify.specs.Linked.{given_unwritten, reads_unwritten_virtual};
ghost use Rattle.graph_verify.specs.Linked.{is_given_virtual, has_virtual_sum};
ghost use Rattle.graph_verify.specs.Verdict.{two_writers, writes_twice, has_unwritten_input};

use crate::operand::{Operand, Operands};
use vx_base::{Node, ObjRef};

/// A node, its number in the graph, and its operands.
#[derive(Clone, Copy, PartialEq, Eq, Debug)]
pub struct Linked {
    pub number: u32,
    pub node: Node,
    pub operands: Operands,
}

/// Checks whether a node writes an object.
pub fn writes(node: &Node, cell: ObjRef) -> bool
    ensures { result ≡ writes node.now cell }
{
    node.out1 == Some(cell) || node.out2 == Some(cell)
}

/// Checks whether a node writes an object; false if no object is given.
pub fn writes_given(node: &Node, cell: Option<ObjRef>) -> bool
    ensures { result ≡ list_any (writes node.now) (optional_cells cell) }
{
    cell.is_some_and(|cell| writes(node, cell))
}

/// Checks whether both outputs of a node are the same object.
pub fn writes_twice(node: &Node) -> bool
    ensures { result ≡ writes_twice node.now }
{
    match (node.out1, node.out2) {
        (Some(first), Some(second)) => first == second,
        _ => false,
    }
}

/// Checks whether one of the nodes writes an object.
pub fn is_written(nodes: &[Linked], cell: ObjRef) -> bool
    ensures { result ≡ is_written (linked_nodes nodes.now) cell }
{
    nodes.iter().any(|linked| writes(&linked.node, cell))
}

/// Checks whether one of the nodes writes an object; false if no object is given.
pub fn is_given_written(nodes: &[Linked], cell: Option<ObjRef>) -> bool
    ensures { result ≡ list_any (is_written (linked_nodes nodes.now)) (optional_cells cell) }
{
    cell.is_some_and(|cell| is_written(nodes, cell))
}

/// Returns whether both outputs of a node are the same object, or another node also writes one of
/// the outputs.
fn shares_output(others: &[Linked], node: &Node) -> bool
    ensures { result ≡ (writes_twice node.now || list_any (is_written (linked_nodes others.now))
        (outputs node.now)) }
{
    writes_twice(node) || is_given_written(others, node.out1) || is_given_written(others, node.out2)
}

/// Checks whether any object is written by two nodes, or as both outputs of one node.
pub fn has_two_writers(nodes: &[Linked]) -> bool
    ensures { result ≡ two_writers (linked_nodes nodes.now) }
{
    let mut rest = nodes;
    while let Some((linked, others)) = rest.split_first() {
        if shares_output(others, &linked.node) {
            return true;
        }
        rest = others;
    }
    false
}

/// Returns whether an operand is a virtual image that none of the nodes writes.
fn lacks_writer(nodes: &[Linked], cell: ObjRef, operand: Operand) -> bool
    ensures { result ≡ lacks_writer (linked_nodes nodes.now) cell operand }
{
    operand.is_virtual() && !is_written(nodes, cell)
}

/// Returns whether an operand is a virtual image that none of the nodes writes; false if no operand
/// is given.
fn given_unwritten(nodes: &[Linked], cell: Option<ObjRef>, operand: Option<Operand>) -> bool
    ensures { result ≡ given_unwritten (linked_nodes nodes.now) cell operand }
{
    match (cell, operand) {
        (Some(cell), Some(operand)) => lacks_writer(nodes, cell, operand),
        _ => false,
    }
}

/// Returns whether a node reads a virtual image that none of the nodes writes.
fn reads_unwritten_virtual(nodes: &[Linked], linked: &Linked) -> bool
    ensures { result ≡ reads_unwritten_virtual (linked_nodes nodes.now) linked.now }
{
    let Linked { node, operands, .. } = linked;
    lacks_writer(nodes, node.in1, operands.in1) || given_unwritten(nodes, node.in2, operands.in2)
}

/// Returns whether an operand is a virtual image; false if no operand is given.
fn is_given_virtual(operand: Option<Operand>) -> bool
    ensures { result ≡ is_given_virtual operand }
{
    operand.is_some_and(Operand::is_virtual)
}

/// Returns whether this node accumulates into a virtual image, which has no content when a run
/// begins.
fn has_virtual_sum(linked: &Linked) -> bool
    ensures { result ≡ has_virtual_sum linked.now }
{
    let Linked { node, operands, .. } = linked;
    node.function.accumulates()
        && (is_given_virtual(operands.out1) || is_given_virtual(operands.out2))
}

/// Checks whether any node accumulates into a virtual image, or reads a virtual image that no node
/// writes.
pub fn has_unwritten_input(nodes: &[Linked]) -> bool
    ensures { (is : Reference → Operand) → AreOperands is nodes.now →
        result ≡ has_unwritten_input is (linked_nodes nodes.now) }
{
    nodes.iter().any(|linked| reads_unwritten_virtual(nodes, linked) || has_virtual_sum(linked))
}
