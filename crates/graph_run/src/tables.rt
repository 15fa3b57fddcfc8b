//! The lookup tables, thresholds and matrices that a graph's nodes read, from a table of objects.
ghost use Rattle.std.specs.Prelude.{◌≡◌, IfSome, Some};
ghost use Rattle.std.proofs.Props.{props};
ghost use Rattle.vx_base.specs.Object.{object_kind};
ghost use Rattle.image_core.specs.Second.{second_object};
ghost use Rattle.graph_run.specs.Bound.{IsLent, LendTables};
ghost use Rattle.graph_run.specs.Program.{node_table, tables_of};

use graph_steps::Tables;
use image_core::SecondInput;
use object_table::{Content, Object, Table};
use vx_base::{Kind, Node};

/// The lookup tables, thresholds and matrices that a graph's nodes read, each at the index of its
/// node.
#[derive(Drop)]
pub struct NodeTables<'a> {
    pub table: &'a Table,
    pub steps: &'a [Node],
    ghost lent: { LendTables table.now.objects steps.now } by { Prim.hlevel props },
}

impl<'a> Tables for NodeTables<'a> {
    ghost tables = { λ t. tables_of t.table.now.objects t.steps.now };

    fn table(&self, at: usize) -> SecondInput<'_> {
        match self.steps.get(at) {
            Some(node) => table_of(self.table, node),
            None => SecondInput::Nothing,
        }
    }
}

/// Returns the lookup table, threshold or matrix that a node reads, if it reads one.
pub fn table_of<'a>(table: &'a Table, node: &Node) -> SecondInput<'a>
    requires { IfSome (node_table table.now.objects node.now)
        (λ object. IsLent (object_kind object)) }
    ensures { second_object result ≡ node_table table.now.objects node.now }
{
    let kind = node.function.parameters().second_input;
    match (node.in2, kind.unwrap_or(Kind::Image)) {
        (None, _) | (Some(_), Kind::Image) => SecondInput::Nothing,
        (Some(cell), _) => match (cell.slot(), table.get_held(cell.name())) {
            (None, Some(object)) => lent(object),
            _ => SecondInput::Nothing,
        },
    }
}

/// Returns an object as a second input.
fn lent(object: &Object) -> SecondInput<'_>
    requires { IsLent (object_kind object.now) }
    ensures { second_object result ≡ Some object.now }
{
    match object.content() {
        Content::Lut(lut) => SecondInput::Lut(lut),
        Content::Threshold(threshold) => SecondInput::Threshold(*threshold),
        Content::Convolution(convolution) => SecondInput::Convolution(convolution),
        _ => unreachable!(),
    }
}
