//! Nodes that run by themselves: the immediate mode of OpenVX.
#![tactic(auto, using(crate::proofs::ImmediateLemmas::immediate_steps))]

ghost use Rattle.std.specs.Prelude.{◌≡◌, OnOk};
ghost use Rattle.vx_base.specs.Node.{IsNode};
ghost use Rattle.graph_run.specs.Turns.{CanRunNow};
ghost use Rattle.client_model.specs.Immediate.{immediate, node_refusal};
ghost use Rattle.object_table.specs.Blocks.{KeepsBlocks};
ghost use Rattle.client_contexts.specs.Steps.{ComesTo, IsContext, Keeps, refusal_in};

use crate::lookup::{find_operands, has_virtual};
use client_model::{Refusal, Reply};
use graph_run::run_once;
use graph_verify::verdict_on;
use object_table::Table;
use vx_base::{Node, NodeSpec};

/// Runs a node immediately: writes the results of the node's function to the node's outputs.
pub fn run_at_once(table: &mut Table, node: NodeSpec) -> Result<Reply, Refusal>
    requires { IsContext table.old }
    ensures comes { ComesTo (immediate table.old node) table.old table.new result }
    ensures within_limits { Keeps table.old table.new }
    ensures blocks { KeepsBlocks table.old.objects table.new.objects }
{
    let node = node.node();
    check_node(table, &node)?;
    run_once(table, &node);
    Ok(Reply::Empty)
}

/// Checks that a node can run immediately: its operands are found, none of them is a virtual image,
/// and no verdict refuses the node.
fn check_node(table: &Table, node: &Node) -> Result<(), Refusal>
    requires { IsNode node.now }
    ensures ok { OnOk result (CanRunNow table.now.objects node.now) }
    ensures refusal { refusal_in result ≡ node_refusal table.now.objects node.now }
{
    let operands = match find_operands(table, node, None) {
        Ok(operands) => operands,
        Err(refusal) => return Err(refusal),
    };
    if has_virtual(&operands) {
        return Err(Refusal::OptimizedAway);
    }
    match verdict_on(node, &operands) {
        None => Ok(()),
        Some(verdict) => Err(Refusal::Rejected(verdict)),
    }
}
