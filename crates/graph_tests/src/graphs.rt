//! Graphs, the numbers of their nodes, and partial descriptions.
ghost use Rattle.std.specs.Prelude.{◌≡◌, IfOk, IsTrue, is_some, true};
ghost use Rattle.vx_base.specs.declared.kind.Kind.TheVariants as kind;
ghost use Rattle.graph_verify.specs.Examples.{not_to};
ghost use Rattle.object_table.specs.Context.{object_named};
ghost use Rattle.object_table.specs.Table.{IsUnder};

use crate::holdings::Holdings;
use graph_verify::{Graph, GraphFault, Linked, Operand, Operands, Verdict, VerifyFault, verify};
use object_table::{Content, Object, Table, TableFault};
use std::alloc::Global;
use std::test::Fail;
use vx_base::{
    Border, Desc, Format, Function, Kind, Node, NodeSpec, ObjRef, PartialDesc, Policy, VirtualImage,
};

/// Returns a Not node that reads the image named `input` and writes the image named `output`.
pub fn not(input: u32, output: u32) -> Result<NodeSpec, Fail>
    ensures { IfOk result (λ n. n ≡ not_to input output) }
{
    let node = Node {
        function: Function::NotBits,
        border: Border::Undefined,
        policy: Policy::Wrap,
        amount: 0,
        in1: ObjRef::new(input, None),
        in2: None,
        out1: Some(ObjRef::new(output, None)),
        out2: None,
    };
    Ok(NodeSpec::new(node).ok_or("it has what its function has")?)
}

#[test]
fn numbers_are_not_used_again(rt: HostRuntime) -> Result<(), Fail> {
    let mut graph = Graph::new(rt.alloc());
    let (first, second) = (not(1, 2)?, not(2, 3)?);
    assert!(rt; graph.add_node(first) == Ok(1));
    assert!(rt; graph.add_node(second) == Ok(2));
    assert!(rt; graph.remove_node(3) == Err(GraphFault::InvalidReference));
    assert!(rt; graph.remove_node(1) == Ok(first));
    assert!(rt; graph.remove_node(1) == Err(GraphFault::InvalidReference));
    assert!(rt; graph.add_node(first) == Ok(3));
    let nodes = graph.nodes();
    assert!(rt; nodes.len() == 2);
    assert!(rt; (nodes[0].number, nodes[0].node) == (2, second));
    assert!(rt; (nodes[1].number, nodes[1].node) == (3, first));
    Ok(())
}

#[test]
fn a_graph_has_at_most_256_nodes(rt: HostRuntime) -> Result<(), Fail> {
    let mut graph = Graph::new(rt.alloc());
    let node = not(1, 2)?;
    for number in 1..257 {
        assert!(rt; graph.can_add());
        assert!(rt; graph.add_node(node) == Ok(number));
    }
    assert!(rt; !graph.can_add());
    assert!(rt; graph.add_node(node) == Err(GraphFault::NoResources));
    assert!(rt; graph.remove_node(7) == Ok(node));
    assert!(rt; graph.add_node(node) == Ok(257));
    Ok(())
}

#[test]
fn open_parts_are_filled(rt: HostRuntime) -> Result<(), Fail> {
    let desc = Desc::new(3, 2, Format::S16).ok_or("within the limits")?;
    let open = PartialDesc::new(Some(5), None, None).ok_or("within the limits")?;
    assert!(rt; PartialDesc::new(Some(0), None, None).is_none());
    assert!(rt; PartialDesc::new(None, Some(8193), None).is_none());
    assert!(rt; open.full_desc() == None);
    let with_defaults = open.with_defaults(PartialDesc::of(desc));
    assert!(rt; (with_defaults.width(), with_defaults.height()) == (Some(5), Some(2)));
    assert!(rt; with_defaults.format() == Some(Format::S16));
    assert!(rt; with_defaults.full_desc() == Desc::new(5, 2, Format::S16));
    assert!(rt; PartialDesc::of(desc).full_desc() == Some(desc));
    assert!(rt; Function::ConvertDepth.open_format(Format::S16) == Format::U8);
    assert!(rt; Function::Sobel.open_format(Format::U8) == Format::S16);
    Ok(())
}

/// Returns this node with this number and these operands. The node has one input and one output.
fn linked(number: u32, node: NodeSpec, in1: Operand, out1: Operand) -> Linked
    ensures { result.operands.in1 ≡ in1 }
{
    let operands = Operands {
        in1,
        in2: None,
        out1: Some(out1),
        out2: None,
    };
    Linked {
        number,
        node: node.node(),
        operands,
    }
}

#[test]
fn a_verified_graph_has_an_order_and_descriptions(rt: HostRuntime) -> Result<(), Fail> {
    let desc = Desc::new(3, 2, Format::U8).ok_or("within the limits")?;
    let open = PartialDesc::new(None, None, None).ok_or("within the limits")?;
    let (image, between) = (Operand::Image(desc), Operand::Virtual(open));
    let (last, first) = (not(2, 3)?, not(1, 2)?);
    let nodes = [
        linked(3, last, between, image),
        linked(7, first, image, between),
    ];
    let verified = verify(rt.alloc(), &nodes, 6).or(Err("it can run"))?;
    assert!(rt; verified.steps().len() == 2);
    assert!(rt; (verified.steps()[0], verified.steps()[1]) == (first.node(), last.node()));
    assert!(rt; verified.order() == [7, 3].as_slice());
    assert!(rt; verified.desc_of(ObjRef::new(2, None)) == Some(desc));
    assert!(rt; verified.desc_of(ObjRef::new(3, None)) == None);
    let refused = verify(rt.alloc(), &nodes, 5).err();
    assert!(rt; refused == Some(VerifyFault::Refused(Verdict::NoResources)));
    Ok(())
}

/// Returns a table and its pool. The table has images 1 and 2, of four samples each, and graph 3.
fn images_and_a_graph(alloc: Global) -> Result<Holdings, Fail> {
    let desc = Desc::new(2, 2, Format::U8).ok_or("within the limits")?;
    let mut holdings = Holdings::new(alloc);
    holdings.insert(desc)?;
    holdings.insert(desc)?;
    let graph = Object::new(Content::Graph(Graph::new(alloc)));
    holdings.table.insert(graph).ok().ok_or("no memory")?;
    Ok(holdings)
}

/// Returns whether the object of this name is a graph.
pub fn is_graph(table: &Table, name: u32) -> bool
    ensures kind { result ≡ true → IsUnder table.now.objects kind.Graph name }
    ensures live { result ≡ true → IsTrue (is_some (object_named table.now.objects name)) }
{
    match table.get(name) {
        Ok(object) => object.kind() == Kind::Graph,
        Err(_) => false,
    }
}

/// Adds a Not node to the graph named `graph`, and returns the node's number. The node reads the
/// image named `input` and writes the image named `output`.
fn add_not(holdings: &mut Holdings, graph: u32, input: u32, output: u32) -> Result<u32, Fail> {
    let node = not(input, output)?;
    let table = &mut holdings.table;
    if !is_graph(table, graph)
        || table.get_held(input).is_none()
        || table.get_held(output).is_none()
    {
        return Err("not there".into());
    }
    Ok(table.add_node(graph, node).ok().ok_or("no room")?)
}

/// Removes the node with this number from the graph named `graph`.
fn remove_node(holdings: &mut Holdings, graph: u32, number: u32) -> Result<(), Fail> {
    if !is_graph(&holdings.table, graph) {
        return Err("not there".into());
    }
    let removed = holdings
        .table
        .remove_node(graph, number, &mut holdings.pool);
    Ok(removed.or(Err("no such node"))?)
}

/// Returns the number of nodes of the graph of this name, or 0 if no graph has this name.
fn count_of_nodes(table: &Table, name: u32) -> usize {
    if is_graph(table, name) {
        table.graph(name).nodes().len()
    } else {
        0
    }
}

/// Returns the number of objects held, the bytes charged for them, and the number of U8 blocks
/// lent.
fn figures(holdings: &Holdings) -> (usize, u64, usize) {
    let table = &holdings.table;
    (
        table.held(),
        table.charged_bytes(),
        holdings.pool.lent(Format::U8),
    )
}

#[test]
fn what_a_node_uses_is_held(rt: HostRuntime) -> Result<(), Fail> {
    let mut holdings = images_and_a_graph(rt.alloc())?;
    assert!(rt; add_not(&mut holdings, 3, 1, 2)? == 1);
    assert!(rt; add_not(&mut holdings, 3, 1, 1)? == 2);
    assert!(rt; count_of_nodes(&holdings.table, 3) == 2);
    assert!(rt; holdings.release(1) == Ok(()));
    assert!(rt; holdings.release(1) == Err(TableFault::InvalidReference));
    assert!(rt; holdings.table.get(1).is_err() && holdings.table.get_held(1).is_some());
    assert!(rt; figures(&holdings) == (3, 8, 2));
    remove_node(&mut holdings, 3, 1)?;
    assert!(rt; figures(&holdings) == (3, 8, 2));
    remove_node(&mut holdings, 3, 2)?;
    assert!(rt; holdings.table.get_held(1).is_none());
    assert!(rt; figures(&holdings) == (2, 4, 1));
    assert!(rt; count_of_nodes(&holdings.table, 3) == 0);
    Ok(())
}

#[test]
fn a_released_graph_uses_nothing(rt: HostRuntime) -> Result<(), Fail> {
    let mut holdings = images_and_a_graph(rt.alloc())?;
    assert!(rt; add_not(&mut holdings, 3, 1, 2)? == 1);
    assert!(rt; holdings.release(2) == Ok(()));
    assert!(rt; figures(&holdings) == (3, 8, 2));
    assert!(rt; holdings.release(3) == Ok(()));
    let table = &holdings.table;
    assert!(rt; table.get_held(2).is_none() && table.get(1).is_ok());
    assert!(rt; figures(&holdings) == (1, 4, 1));
    Ok(())
}

#[test]
fn virtual_images_are_charged_nothing(rt: HostRuntime) -> Result<(), Fail> {
    let declared = PartialDesc::new(Some(8192), None, None).ok_or("within the limits")?;
    let image = VirtualImage { graph: 1, declared };
    let mut table = Table::new(rt.alloc());
    let object = Object::new(Content::Virtual(image));
    assert!(rt; object.kind() == Kind::VirtualImage);
    assert!(rt; table.insert(object).ok() == Some(1));
    assert!(rt; (table.held(), table.charged_bytes()) == (1, 0));
    Ok(())
}
