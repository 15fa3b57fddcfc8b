//! Nodes of a graph.
ghost use Rattle.std.specs.Prelude.{◌≡◌, IsTrue};

use crate::border::Border;
use crate::function::Function;
use crate::policy::Policy;
use crate::reference::ObjRef;
use crate::shape::{is_node, prove_numbers};
use std::marker::Model;

/// The greatest number of nodes in a graph.
pub const GREATEST_NODES: usize = 256;

/// A node's fields: the vision function, its parameters, and the references to its inputs and
/// outputs.
#[derive(Clone, Copy, PartialEq, Eq, Debug)]
pub struct Node {
    pub function: Function,
    pub border: Border,
    pub policy: Policy,
    /// The shift, or the exponent n of a division by 2^n. The amount must be 0 if the function
    /// takes none.
    pub amount: u8,
    pub in1: ObjRef,
    pub in2: Option<ObjRef>,
    pub out1: Option<ObjRef>,
    pub out2: Option<ObjRef>,
}

/// A node whose fields suit its function.
#[derive(Clone, Copy, PartialEq, Eq, Debug)]
pub struct NodeSpec {
    node: Node,
}

impl Model for NodeSpec {
    ghost use Rattle.vx_base.specs.declared.node.Node.{Node as Fields};
    ghost use Rattle.vx_base.specs.Node.{IsNode};

    ghost Value = { Fields };

    ghost view = { λ n. n.node };

    ghost invariant = { λ n. IsNode n.node };

    ghost inverse = { λ n. record { node = n } };
}

impl NodeSpec {
    ghost use Rattle.vx_base.specs.Node.{is_node, node_spec, IsNode};

    /// Returns the node with these fields, or `None` if they don't suit its function. The
    /// function's inputs and at least one of its outputs must be given. An operand that the
    /// function doesn't take must be `None`. If the function takes no policy, the policy must be
    /// `Policy::Wrap`. The amount must be at most the function's greatest amount, or 0 if the
    /// function takes no amount. An operand that is name 0 without a slot suits no function. Every
    /// border suits every function.
    pub fn new(node: Node) -> Option<NodeSpec>
        ensures { result ≡ node_spec node }
    {
        if is_node(&node) {
            Some(NodeSpec::of(node))
        } else {
            None
        }
    }

    /// Returns the node with these fields. The caller must ensure that they suit the node's
    /// function.
    pub fn of(node: Node) -> NodeSpec
        requires { IsTrue (is_node node) }
        ensures { result ≡ node }
    {
        prove_numbers(&node);
        NodeSpec { node }
    }

    /// Returns the node's fields.
    pub fn node(self) -> Node
        ensures value { result ≡ self }
        ensures node { IsNode self }
    {
        self.node
    }
}
