//! Graphs: numbered nodes.
ghost use Rattle.std.specs.Prelude.{◌≡◌, ◌==◌, ◌≤◌, not, if◌then◌else◌, IsTrue, length, find};
ghost use Rattle.std.specs.Prelude.{filter, IfOk, IfErr, OnOk, OnErr, Some};
ghost use Rattle.std.specs.Prelude.{◌≢◌};
ghost use Rattle.std.specs.List.{AllPairs};
ghost use Rattle.std.specs.Result.{is_err};
ghost use Rattle.vx_base.specs.Graph.{new_graph, can_add, with_node, has_node, without_node};
ghost use Rattle.vx_base.specs.Graph.{IsGraph, is_registered, with_delays};
ghost use Rattle.graph_verify.specs.declared.fault.GraphFault.TheVariants.{NoMemory, NoResources};
ghost use Rattle.graph_verify.specs.declared.fault.GraphFault.TheVariants.{InvalidReference};
ghost use Rattle.vx_base.specs.declared.node.TheConstants.{GREATEST_NODES};

use crate::fault::GraphFault;
use std::alloc::Global;
use std::marker::Model;
use vx_base::{GREATEST_NODES, NodeSpec, Numbered};

/// The limit of node numbers, 2^32: each number is below it.
const END_OF_NUMBERS: u64 = 4_294_967_296;

/// A graph (OpenVX 1.3, "Object: Graph"): its nodes in the order in which they were added, the
/// number of the next node, and the names of the delays that are registered for auto-aging. Node
/// numbers count up from 1 and are never reused.
#[derive(Drop)]
pub struct Graph {
    next: u64,
    nodes: Vec<Numbered>,
    delays: Vec<u32>,
}

impl Model for Graph {
    ghost use Rattle.vx_base.specs.Graph.{GraphValue, IsGraph};

    ghost Value = { GraphValue };

    ghost view = { λ g. record {
      next = g.next;
      nodes = g.nodes.items;
      delays = g.delays.items;
    } };

    ghost invariant = { λ g. IsGraph (record {
      next = g.next;
      nodes = g.nodes.items;
      delays = g.delays.items;
    }) };
}

impl Graph {
    /// Returns a graph without nodes or registered delays. Its first node will get number 1.
    pub fn new(alloc: Global) -> Graph
        ensures value { result ≡ new_graph }
        ensures graph { IsGraph result }
    {
        Graph {
            next: 1,
            nodes: Vec::new(alloc),
            delays: Vec::new(alloc),
        }
    }

    /// Returns the nodes in the order in which they were added, at most 256.
    pub fn nodes(&self) -> &[Numbered]
        ensures nodes { result.now ≡ self.now.nodes }
        ensures limit { length result.now ≤ GREATEST_NODES }
    {
        &self.nodes
    }

    /// Checks whether one more node can be added: an unused number remains, and there are fewer
    /// than 256 nodes.
    pub fn can_add(&self) -> bool
        ensures { result ≡ can_add self.now }
    {
        self.next < END_OF_NUMBERS && self.nodes.len() < GREATEST_NODES
    }

    /// Adds a node and returns its number. `NoResources` if `can_add` is false, `NoMemory` if there
    /// is no memory. After a fault the graph is unchanged.
    pub fn add_node(&mut self, node: NodeSpec) -> Result<u32, GraphFault>
        ensures number { IfOk result (λ number. number ≡ self.old.next) }
        ensures ok { OnOk result (self.new ≡ with_node self.old node) }
        ensures capacity { OnOk result (IsTrue (can_add self.old)) }
        ensures fault { IfErr result (λ fault. fault
            ≡ (if can_add self.old then NoMemory else NoResources)) }
        ensures err { OnErr result (self.new ≡ self.old) }
    {
        if !self.can_add() {
            return Err(GraphFault::NoResources);
        }
        // The prover learns that the node is well-formed only where the node's fields are read.
        let _fields = node.node();
        let number = self.next as u32;
        if self.nodes.push(Numbered { number, node }).is_err() {
            return Err(GraphFault::NoMemory);
        }
        self.next += 1;
        Ok(number)
    }

    /// Removes the node of this number and returns it. `InvalidReference` if there is no such node;
    /// the graph is then unchanged.
    pub fn remove_node(&mut self, number: u32) -> Result<NodeSpec, GraphFault>
        ensures graph { IsGraph self.old }
        ensures removed { IfOk result (λ node. find (λ n. n.number == number) self.old.nodes
            ≡ Some (record { number = number; node = node })) }
        ensures ok { OnOk result (self.new ≡ without_node self.old number) }
        ensures missing { is_err result ≡ not (has_node self.old number) }
        ensures fault { IfErr result (λ fault. fault ≡ InvalidReference) }
        ensures err { OnErr result (self.new ≡ self.old) }
    {
        match self.find(number) {
            None => Err(GraphFault::InvalidReference),
            Some(found) => {
                keep_others(&mut self.nodes, number);
                Ok(found.node)
            }
        }
    }

    /// Returns the names of the delays that are registered for auto-aging, each once.
    pub fn delays(&self) -> &[u32]
        ensures delays { result.now ≡ self.now.delays }
        ensures distinct { AllPairs (λ a b. a ≢ b) result.now }
    {
        &self.delays
    }

    /// Checks whether the delay of this name is registered for auto-aging.
    pub fn is_registered(&self, name: u32) -> bool
        ensures { result ≡ is_registered self.now name }
    {
        self.delays.iter().any(|delay| *delay == name)
    }

    /// Replaces the list of delays registered for auto-aging. No name may occur twice in `delays`.
    pub fn set_delays(&mut self, delays: Vec<u32>)
        requires { AllPairs (λ a b. a ≢ b) delays.items }
        ensures { self.new ≡ with_delays self.old delays.items }
    {
        self.delays = delays;
    }

    /// Returns the node of this number, if there is one.
    fn find(&self, number: u32) -> Option<Numbered>
        ensures { result ≡ find (λ n. n.number == number) self.now.nodes }
    {
        self.nodes
            .iter()
            .copied()
            .find(|node| node.number == number)
    }
}

/// Removes the node of this number.
fn keep_others(nodes: &mut Vec<Numbered>, number: u32)
    ensures { nodes.new.items ≡ filter (λ n. not (n.number == number)) nodes.old.items }
{
    nodes.retain(|node| node.number != number);
}
