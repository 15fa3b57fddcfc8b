//! Orders in which the nodes of a graph can run.
ghost use Rattle.std.specs.Prelude.{◌≡◌, ◌+◌, ◌<◌, false, not, ◌||◌, length, map, slice_index_or};
ghost use Rattle.std.specs.Prelude.{position, is_none, IfOk, IfSome};
ghost use Rattle.std.specs.List.{remove};
ghost use Rattle.graph_verify.specs.Cycle.{has_cycle};
ghost use Rattle.graph_verify.specs.Links.{feeds};
ghost use Rattle.graph_verify.specs.Linked.{linked_nodes};
ghost use Rattle.graph_verify.specs.Order.{IsOrder};
ghost use Rattle.graph_verify.specs.Verdict.{two_writers};
ghost use Rattle.graph_verify.specs.Waiting.{WaitingNode, waiting_among, once_ordered};

use crate::linked::{Linked, is_given_written, is_written, writes, writes_given};
use std::alloc::{AllocError, Global};
use std::marker::Model;
use vx_base::Node;

/// A node that isn't ordered yet. The node waits for each of its inputs that an unordered node
/// writes. `for_in1` and `for_in2` tell whether it waits for its first and for its second input.
#[derive(Drop)]
struct Waiting<'a> {
    linked: &'a Linked,
    for_in1: bool,
    for_in2: bool,
}

impl<'a> Model for Waiting<'a> {
    ghost use Rattle.graph_verify.specs.Waiting.{WaitingNode};

    ghost Value = { WaitingNode };

    ghost view = { λ w. record {
      linked = w.linked.now;
      for_in1 = w.for_in1;
      for_in2 = w.for_in2;
    } };
}

impl<'a> Waiting<'a> {
    /// Returns `linked`, an unordered node, with the inputs for which it waits. `nodes` has all
    /// unordered nodes, including `linked`.
    fn among(nodes: &[Linked], linked: &'a Linked) -> Waiting<'a>
        ensures { result ≡ waiting_among (linked_nodes nodes.now) linked.now }
    {
        Waiting {
            linked,
            for_in1: is_written(nodes, linked.node.in1),
            for_in2: is_given_written(nodes, linked.node.in2),
        }
    }

    /// Updates this node after another node is ordered. This node no longer waits for inputs that
    /// the ordered node writes, since these have no other writer.
    fn once_ordered(&mut self, ordered: &Node)
        ensures { self.new ≡ once_ordered ordered.now self.old }
    {
        let node = &self.linked.node;
        self.for_in1 = self.for_in1 && !writes(ordered, node.in1);
        self.for_in2 = self.for_in2 && !writes_given(ordered, node.in2);
    }
}

/// Returns all nodes as unordered nodes.
fn all_waiting<'a>(alloc: Global, nodes: &'a [Linked]) -> Result<Vec<Waiting<'a>>, AllocError>
    ensures { IfOk result (λ rest. rest.items
        ≡ map (waiting_among (linked_nodes nodes.now)) nodes.now) }
{
    nodes
        .iter()
        .map(|linked| Waiting::among(nodes, linked))
        .collect(alloc)
}

/// Returns the index of the first node that waits for no input, if there is one.
fn first_ready(rest: &[Waiting<'_>]) -> Option<usize>
    ensures { result ≡ position (λ w. not (w.for_in1 || w.for_in2)) rest.now }
{
    rest.iter()
        .position(|waiting| !(waiting.for_in1 || waiting.for_in2))
}

/// Updates the remaining nodes after a node is ordered.
fn update_waiting(rest: &mut [Waiting<'_>], ordered: &Node)
    ensures { rest.new ≡ map (once_ordered ordered.now) rest.old }
{
    for waiting in rest.iter_mut() {
        waiting.once_ordered(ordered);
    }
}

/// Removes the node at an index, updates the remaining nodes, and returns the removed node, which
/// comes next in the order.
fn take_ready(rest: &mut Vec<Waiting<'_>>, index: usize) -> Linked
    requires { index < length rest.old.items }
    ensures ordered { (d : WaitingNode) → result ≡ (slice_index_or rest.old.items index d).linked }
    ensures fewer { length rest.new.items + 1 ≡ length rest.old.items }
    ensures rest { rest.new.items ≡ map (once_ordered result.node) (remove rest.old.items index) }
{
    let waiting = rest.remove(index);
    let ordered = *waiting.linked;
    update_waiting(rest.as_mut_slice(), &ordered.node);
    ordered
}

/// Returns the nodes, each after all nodes that feed it, or `None` if there is a cycle. No object
/// may have two writers. An error means that memory ran out.
pub fn put_in_order(alloc: Global, nodes: &[Linked]) -> Result<Option<Vec<Linked>>, AllocError>
    requires { two_writers (linked_nodes nodes.now) ≡ false }
    ensures order { IfOk result (λ found.
        IfSome found (λ steps. IsOrder (λ a b. feeds a.node b.node) nodes.now steps.items)) }
    ensures cycle { IfOk result (λ found. is_none found
        ≡ has_cycle feeds (linked_nodes nodes.now)) }
{
    let mut rest = all_waiting(alloc, nodes)?;
    let mut steps = Vec::new(alloc);
    'ordering: while !rest.is_empty() {
        let Some(index) = first_ready(&rest) else {
            return Ok(None);
        };
        let ordered = take_ready(&mut rest, index);
        steps.push(ordered)?;
    }
    Ok(Some(steps))
}
