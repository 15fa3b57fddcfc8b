//! Verdicts on graphs whose nodes name objects of a table.
ghost use Rattle.std.specs.Prelude.{◌≡◌, ℕ, IsTrue, None, Some, All, map, IfOk, IfErr, OnOk};
ghost use Rattle.std.specs.List.{zip};
ghost use Rattle.std.specs.List.Sorted.{IsPermutation};
ghost use Rattle.std.specs.Option.{option_map};
ghost use Rattle.vx_base.specs.declared.node.Node.{Node as NodeFields};
ghost use Rattle.vx_base.specs.Graph.{nodes_of};
ghost use Rattle.graph_verify.specs.Linked.{linked_nodes, AreOperands};
ghost use Rattle.graph_verify.specs.Operand.{is_image, operands_of};
ghost use Rattle.graph_verify.specs.Verdict.{verdict};
ghost use Rattle.graph_verify.specs.Verified.{IfRefused, IsVerified};
ghost use Rattle.graph_run.specs.Operands.{operand_held};

use crate::operand::operand_in;
use graph_verify::{Graph, Linked, Operand, Operands, Verified, VerifyFault, verify};
use object_table::Table;
use std::alloc::{AllocError, Global};
use vx_base::{Node, Numbered, ObjRef};

/// Verifies a graph whose nodes name objects of a table. Returns the nodes in an order in which
/// they can run, and the virtual images that they write. The first input of each node must be an
/// image, virtual or not.
///
/// `work` is the limit in bytes for the virtual images that the graph writes. An error means that
/// there is no memory, or that the graph can't run. If the graph can't run, the error holds the
/// verdict.
pub fn verify_in(
    alloc: Global,
    table: &Table,
    graph: &Graph,
    work: u64,
) -> Result<Verified, VerifyFault>
    requires { All (λ n. IsTrue (is_image (operand_held table.now.objects n.in1)))
        (nodes_of graph.now) }
    ensures verified { IfOk result (IsVerified (operand_held table.now.objects)
        (nodes_of graph.now)) }
    ensures numbers { IfOk result (λ v. IsPermutation
        (map (λ n. (n.number, n.node)) graph.now.nodes) (zip v.order v.steps)) }
    ensures ok { OnOk result (verdict work (operand_held table.now.objects)
        (nodes_of graph.now) ≡ None) }
    ensures refused { IfErr result (λ fault. IfRefused fault (λ v.
        verdict work (operand_held table.now.objects) (nodes_of graph.now) ≡ Some v)) }
{
    let nodes = linked(alloc, table, graph.nodes())?;
    verify(alloc, &nodes, work)
}

/// Returns nodes together with their numbers and operands.
fn linked(alloc: Global, table: &Table, nodes: &[Numbered]) -> Result<Vec<Linked>, AllocError>
    ensures nodes { IfOk result (λ linked. linked_nodes linked.items
        ≡ map (λ n. n.node) nodes.now) }
    ensures numbers { IfOk result (λ linked.
        map {B = ℕ × NodeFields} (λ l. (l.number, l.node)) linked.items
        ≡ map (λ n. (n.number, n.node)) nodes.now) }
    ensures operands { IfOk result (λ linked.
        AreOperands (operand_held table.now.objects) linked.items) }
{
    let mut linked = Vec::new(alloc);
    for numbered in nodes {
        let node = numbered.node.node();
        let operands = operands_held(table, &node);
        linked.push(Linked {
            number: numbered.number,
            node,
            operands,
        })?;
    }
    Ok(linked)
}

/// Returns a node's operands.
fn operands_held(table: &Table, node: &Node) -> Operands
    ensures { result ≡ operands_of (operand_held table.now.objects) node.now }
{
    Operands {
        in1: operand_held(table, node.in1),
        in2: operand_held_if(table, node.in2),
        out1: operand_held_if(table, node.out1),
        out2: operand_held_if(table, node.out2),
    }
}

/// Returns the operand that a reference names, if the reference is given.
fn operand_held_if(table: &Table, cell: Option<ObjRef>) -> Option<Operand>
    ensures { result ≡ option_map (operand_held table.now.objects) cell }
{
    match cell {
        None => None,
        Some(cell) => Some(operand_held(table, cell)),
    }
}

/// Returns the operand that a node's reference names, whether the reference's name is live or not.
/// Returns `Missing` if the table holds no object for the reference.
#[tactic(auto, using(crate::proofs::FoundLemmas::operand_steps))]
pub fn operand_held(table: &Table, cell: ObjRef) -> Operand
    ensures { result ≡ operand_held table.now.objects cell }
{
    match table.get_held(cell.name()) {
        None => Operand::Missing,
        Some(object) => operand_in(object, cell.slot()).unwrap_or(Operand::Missing),
    }
}
