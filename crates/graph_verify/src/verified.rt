//! Verified graphs: the verdict on a graph, and an order in which its nodes can run.
ghost use Rattle.std.specs.Prelude.{◌≡◌, ◌≤◌, false, IsTrue, length, map, find, List, All, Some};
ghost use Rattle.std.specs.Prelude.{None, IfOk, IfErr, OnOk};
ghost use Rattle.std.specs.List.{zip};
ghost use Rattle.std.specs.List.Sorted.{IsPermutation};
ghost use Rattle.vx_base.specs.Reference.{Reference, same_reference};
ghost use Rattle.vx_base.specs.declared.node.Node.{Node as NodeFields};
ghost use Rattle.graph_verify.specs.declared.operand.Operand.{Operand};
ghost use Rattle.graph_verify.specs.ResolvedOutputs.{known_operands};
ghost use Rattle.graph_verify.specs.Linked.{linked_nodes, AreOperands};
ghost use Rattle.graph_verify.specs.Links.{feeds};
ghost use Rattle.graph_verify.specs.Order.{IsOrder};
ghost use Rattle.graph_verify.specs.Operand.{is_image, operands_of};
ghost use Rattle.graph_verify.specs.Verdict.{two_writers, verdict, first_fault};
ghost use Rattle.graph_verify.specs.Verified.{CanRunWithin, IsVerified, IsVerifiedGraph};
ghost use Rattle.graph_verify.specs.Verified.{RefusesNodes, ReordersNodes, VerifiesNodes};
ghost use Rattle.graph_verify.specs.Verified.{written_description};
ghost use Rattle.vx_base.specs.declared.node.TheConstants.{GREATEST_NODES};

use crate::known::{
    ResolvedOutput, VirtualOutput, all_described, known_after, known_operands, sample_bytes,
};
use crate::linked::{Linked, has_two_writers, has_unwritten_input};
use crate::order::put_in_order;
use crate::verdict::{Verdict, node_fault};
use std::alloc::{AllocError, Global};
use std::marker::Model;
use vx_base::{Desc, Node, ObjRef};

/// A verified graph.
#[derive(Debug, Drop)]
pub struct Verified {
    steps: Vec<Node>,
    virtual_outputs: Vec<VirtualOutput>,
    order: Vec<u32>,
}

impl Model for Verified {
    ghost use Rattle.graph_verify.specs.Verified.{VerifiedValue, IsVerifiedGraph};

    ghost Value = { VerifiedValue };

    ghost view = { λ v. record {
      steps = v.steps.items;
      virtual_outputs = v.virtual_outputs.items;
      order = v.order.items;
    } };

    ghost invariant = { λ v. IsVerifiedGraph (record {
      steps = v.steps.items;
      virtual_outputs = v.virtual_outputs.items;
      order = v.order.items;
    }) };
}

/// Why a graph isn't verified.
#[derive(Clone, Copy, PartialEq, Eq, Debug)]
pub enum VerifyFault {
    /// There is no memory for the verification.
    NoMemory,
    /// The graph can't run.
    Refused(Verdict),
}

impl From<AllocError> for VerifyFault {
    ghost use Rattle.graph_verify.specs.declared.verified.VerifyFault.TheVariants.{NoMemory};

    ghost from_gives = { λ _ fault. fault ≡ NoMemory };

    fn from(_: AllocError) -> VerifyFault {
        VerifyFault::NoMemory
    }
}

impl Verified {
    /// Returns the nodes, each after all nodes that feed it.
    pub fn steps(&self) -> &[Node]
        ensures steps { result.now ≡ self.now.steps }
        ensures verified { IsVerifiedGraph self.now }
    {
        &self.steps
    }

    /// Returns the virtual images that the nodes write, in the order of writing.
    pub fn virtual_outputs(&self) -> &[VirtualOutput]
        ensures { result.now ≡ self.now.virtual_outputs }
    {
        &self.virtual_outputs
    }

    /// Returns each node's number in the graph, in the order of the steps.
    pub fn order(&self) -> &[u32]
        ensures order { result.now ≡ self.now.order }
        ensures count { length result.now ≡ length self.now.steps }
    {
        &self.order
    }

    /// Returns the description of a virtual image that the nodes write, or `None` for any other
    /// object.
    pub fn desc_of(&self, cell: ObjRef) -> Option<Desc>
        ensures { (is : Reference → Operand) (nodes : List NodeFields) →
            IsVerified is nodes self.now →
            result ≡ written_description is nodes cell }
    {
        let output = self.find(cell)?;
        Some(output.desc)
    }

    /// Returns the virtual image with this reference, if the nodes write it.
    fn find(&self, cell: ObjRef) -> Option<VirtualOutput>
        ensures { result ≡ find (λ o. same_reference o.cell cell) self.now.virtual_outputs }
    {
        self.virtual_outputs
            .iter()
            .copied()
            .find(|output| output.cell == cell)
    }
}

/// Returns the fault of the first node that has a fault, given the resolved virtual images. The
/// nodes are in the order in which they were added.
fn first_fault(nodes: &[Linked], known: &[ResolvedOutput]) -> Option<Verdict>
    ensures { (is : Reference → Operand) →
        All (λ l. known_operands known.now l ≡ operands_of is l.node)
        nodes.now → result ≡ first_fault is (linked_nodes nodes.now) }
{
    for linked in nodes {
        let fault = node_fault(linked.node.function, &known_operands(known, linked));
        if fault.is_some() {
            return fault;
        }
    }
    None
}

/// Returns the nodes without their operands.
fn nodes_of(alloc: Global, linked: &[Linked]) -> Result<Vec<Node>, AllocError>
    ensures { IfOk result (λ nodes. nodes.items ≡ linked_nodes linked.now) }
{
    let mut nodes = Vec::new(alloc);
    for linked in linked {
        nodes.push(linked.node)?;
    }
    Ok(nodes)
}

/// Returns each node's number in the graph.
fn numbers_of(alloc: Global, linked: &[Linked]) -> Result<Vec<u32>, AllocError>
    ensures { IfOk result (λ numbers. numbers.items ≡ map (λ l. l.number) linked.now) }
{
    let mut numbers = Vec::new(alloc);
    for linked in linked {
        numbers.push(linked.number)?;
    }
    Ok(numbers)
}

/// Verifies a graph as `verify` does. No object may have two writers. `steps` must be `nodes` in an
/// order in which each node comes after all nodes that feed it.
fn verify_ordered(
    alloc: Global,
    nodes: &[Linked],
    steps: &[Linked],
    work: u64,
) -> Result<Verified, VerifyFault>
    requires count { length nodes.now ≤ GREATEST_NODES }
    requires images { All (λ l. IsTrue (is_image l.operands.in1)) nodes.now }
    requires one_writer { two_writers (linked_nodes nodes.now) ≡ false }
    requires order { IsOrder (λ a b. feeds a.node b.node) nodes.now steps.now }
    ensures verified { IfOk result (VerifiesNodes nodes.now) }
    ensures numbers { IfOk result (ReordersNodes nodes.now) }
    ensures ok { OnOk result (CanRunWithin work nodes.now) }
    ensures refused { IfErr result (RefusesNodes work nodes.now) }
{
    if has_unwritten_input(nodes) {
        return Err(VerifyFault::Refused(Verdict::InvalidLink));
    }
    let known = known_after(alloc, steps)?;
    if let Some(fault) = first_fault(nodes, &known) {
        return Err(VerifyFault::Refused(fault));
    }
    let virtual_outputs = all_described(alloc, &known)?;
    if sample_bytes(&virtual_outputs) > work {
        return Err(VerifyFault::Refused(Verdict::NoResources));
    }
    let order = numbers_of(alloc, steps)?;
    let steps = nodes_of(alloc, steps)?;
    Ok(Verified {
        steps,
        virtual_outputs,
        order,
    })
}

/// Verifies a graph of at most 256 nodes. `nodes` has the nodes in the order in which they were
/// added, each with its operands. The first input of each node must be an image, virtual or not.
/// `work` is the greatest number of bytes that the virtual images may take. `Refused` if the graph
/// can't run, `NoMemory` if there is no memory for the verification.
pub fn verify(alloc: Global, nodes: &[Linked], work: u64) -> Result<Verified, VerifyFault>
    requires count { length nodes.now ≤ GREATEST_NODES }
    requires images { All (λ l. IsTrue (is_image l.operands.in1)) nodes.now }
    ensures verified { IfOk result (VerifiesNodes nodes.now) }
    ensures numbers { IfOk result (ReordersNodes nodes.now) }
    ensures ok { OnOk result (CanRunWithin work nodes.now) }
    ensures refused { IfErr result (RefusesNodes work nodes.now) }
{
    if has_two_writers(nodes) {
        return Err(VerifyFault::Refused(Verdict::MultipleWriters));
    }
    match put_in_order(alloc, nodes)? {
        None => Err(VerifyFault::Refused(Verdict::InvalidGraph)),
        Some(steps) => verify_ordered(alloc, nodes, &steps, work),
    }
}
