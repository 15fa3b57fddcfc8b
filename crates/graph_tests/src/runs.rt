//! Nodes and graphs that run in a table.
ghost use Rattle.std.specs.Prelude.{◌≡◌, IfOk, OnOk};
ghost use Rattle.vx_base.specs.declared.format.Format.TheVariants.{U8};
ghost use Rattle.vx_base.specs.Graph.{with_node};
ghost use Rattle.vx_base.specs.Image.{IsImage, description_of};
ghost use Rattle.object_table.specs.Context.{new_context, with_graph, with_new, with_objects};
ghost use Rattle.object_table.specs.Table.{graph_under};
ghost use Rattle.graph_tests.specs.Chain.{IsChain, box_to, chain_image};

use crate::cells::holds;
use crate::graphs::{is_graph, not};
use crate::tables::hold;
use buffer_plan::Plan;
use graph_run::{operand_in, operand_of, run, run_once, verify_in};
use graph_steps::{Kernel, Step};
use graph_verify::{Graph, Operand};
use image_core::{ImageMut, SecondInput};
use object_table::{Content, Delay, Object, Stored, Table};
use pixel_pool::Pool;
use std::alloc::Global;
use std::test::Fail;
use vx_base::{
    Border, Desc, Format, Function, Node, NodeSpec, ObjRef, Output, PartialDesc, Picture, Policy,
    Samples, SlotCount, VirtualImage,
};

/// Returns an image of two U8 samples.
fn image(alloc: Global, pool: &mut Pool, samples: [u8; 2]) -> Result<Stored, Fail>
    ensures image { IfOk result IsImage }
    ensures desc { IfOk result (λ i.
        description_of i ≡ record { width = 2; height = 1; format = U8 }) }
{
    let desc = Desc::new(2, 1, Format::U8).ok_or("within the limits")?;
    let mut image = Stored::new(pool, desc)?;
    let samples = Vec::from_slice(alloc, &samples)?;
    image.write(&Picture::new(desc, Samples::U8(samples)));
    Ok(image)
}

#[test]
fn objects_are_operands(rt: HostRuntime) -> Result<(), Fail> {
    let desc = Desc::new(3, 2, Format::S16).ok_or("within the limits")?;
    let slots = SlotCount::new(2).ok_or("within the limits")?;
    let mut pool = Pool::new(rt.alloc());
    let delay = Delay::new(rt.alloc(), &mut pool, desc, slots)?;
    let delay = Object::new(Content::Delay(delay));
    assert!(rt; operand_of(&delay) == Operand::Delay);
    assert!(rt; operand_in(&delay, None) == Some(Operand::Delay));
    assert!(rt; operand_in(&delay, Some(1)) == Some(Operand::Image(desc)));
    assert!(rt; operand_in(&delay, Some(2)) == None);
    let image = Object::new(Content::Image(Stored::new(&mut pool, desc)?));
    assert!(rt; operand_in(&image, None) == Some(Operand::Image(desc)));
    assert!(rt; operand_in(&image, Some(0)) == None);
    Ok(())
}

/// Returns the result of a Not node for two samples.
fn not_of(alloc: Global, samples: [u8; 2]) -> Result<[u8; 2], Fail> {
    let node = not(1, 2)?.node();
    let desc = Desc::new(2, 1, Format::U8).ok_or("within the limits")?;
    let input = image(alloc, &mut Pool::new(alloc), samples)?;
    let (step, first) = (Step::of_lent(node, Output::First), input.image());
    let kernel = Kernel {
        step: &step,
        first: &first,
        second: &SecondInput::Nothing,
    };
    let mut written = [77; 2];
    let mut output = ImageMut::new(desc, &mut written);
    kernel.run(&mut output);
    Ok(written)
}

#[test]
fn a_node_writes_its_output(rt: HostRuntime) -> Result<(), Fail> {
    assert!(rt; not_of(rt.alloc(), [10, 255])? == [245, 0]);
    Ok(())
}

/// Inserts two images into a new table, and runs Not from image 1 to image 2.
fn run_not(table: &mut Table, input: Stored, output: Stored) -> Result<(), Fail>
    requires table { table.old ≡ new_context }
    requires input { IsImage input }
    requires input_desc { description_of input ≡ record { width = 2; height = 1; format = U8 } }
    requires output { IsImage output }
    requires output_desc { description_of output ≡ record { width = 2; height = 1; format = U8 } }
{
    hold(table, Content::Image(input))?;
    hold(table, Content::Image(output))?;
    let node = not(1, 2)?.node();
    run_once(table, &node);
    Ok(())
}

#[test]
fn a_node_runs_by_itself(rt: HostRuntime) -> Result<(), Fail> {
    let alloc = rt.alloc();
    let (mut table, mut pool) = (Table::new(alloc), Pool::new(alloc));
    let input = image(alloc, &mut pool, [10, 255])?;
    let output = image(alloc, &mut pool, [1, 2])?;
    run_not(&mut table, input, output)?;
    assert!(rt; holds(&mut table, 1, [10, 255]));
    assert!(rt; holds(&mut table, 2, [245, 0]));
    Ok(())
}

/// Inserts two images, graph 3 and a virtual image into a new table. Runs the graph: two Not nodes
/// from image 1 through the virtual image to image 2. The node that runs second is added first.
fn run_two(
    alloc: Global,
    table: &mut Table,
    pool: &mut Pool,
    input: Stored,
    output: Stored,
    declared: PartialDesc,
) -> Result<(), Fail>
    requires table { table.old ≡ new_context }
    requires input { IsImage input }
    requires output { IsImage output }
{
    hold(table, Content::Image(input))?;
    hold(table, Content::Image(output))?;
    hold(table, Content::Graph(Graph::new(alloc)))?;
    declared.prove_sides();
    let through = VirtualImage { graph: 3, declared };
    hold(table, Content::Virtual(through))?;
    table.add_node(3, not(4, 2)?)?;
    table.add_node(3, not(1, 4)?)?;
    let verified = verify_in(alloc, table, table.graph(3), 2)?;
    let plan = Plan::new(alloc, &verified)?;
    run(alloc, &verified, &plan, table, pool)?;
    Ok(())
}

#[test]
fn a_graph_runs_through_a_virtual_image(rt: HostRuntime) -> Result<(), Fail> {
    let alloc = rt.alloc();
    let open = PartialDesc::new(None, None, None).ok_or("nothing is declared")?;
    let (mut table, mut pool) = (Table::new(alloc), Pool::new(alloc));
    let input = image(alloc, &mut pool, [10, 255])?;
    let output = image(alloc, &mut pool, [1, 2])?;
    run_two(alloc, &mut table, &mut pool, input, output, open)?;
    assert!(rt; holds(&mut table, 1, [10, 255]));
    assert!(rt; holds(&mut table, 2, [10, 255]));
    assert!(rt; (table.held(), table.charged_bytes()) == (4, 4));

    // The block of the virtual image is free again.
    assert!(rt; (pool.blocks(Format::U8), pool.free(Format::U8)) == (3, 1));
    Ok(())
}

/// Creates a virtual image of graph 3.
fn hold_through(table: &mut Table, declared: PartialDesc) -> Result<(), Fail>
    ensures { OnOk result (table.new ≡ with_new table.old (chain_image declared)) }
{
    hold(table, Content::Virtual(VirtualImage { graph: 3, declared }))?;
    Ok(())
}

/// Returns a Box node that reads the image named `input` and writes the image named `output`.
fn mean(input: u32, output: u32) -> Result<NodeSpec, Fail>
    ensures { IfOk result (λ n. n ≡ box_to input output) }
{
    let node = Node {
        function: Function::Box,
        border: Border::Undefined,
        policy: Policy::Wrap,
        amount: 0,
        in1: ObjRef::new(input, None),
        in2: None,
        out1: Some(ObjRef::new(output, None)),
        out2: None,
    };
    Ok(NodeSpec::new(node).ok_or("it has what its function has")?)
}

/// Adds a Box node to graph 3. The node reads the image named `input` and writes the image named
/// `output`.
fn add_box(table: &mut Table, input: u32, output: u32) -> Result<(), Fail>
    ensures { OnOk result (table.new ≡ with_objects table.old (with_graph table.old.objects 3
        (with_node (graph_under table.old.objects 3) (box_to input output)))) }
{
    let node = mean(input, output)?;
    if !is_graph(table, 3) || table.get_held(input).is_none() || table.get_held(output).is_none() {
        return Err("not there".into());
    }
    table.add_node(3, node)?;
    Ok(())
}

/// Returns a table with two images, a graph and five virtual images. The graph is a chain of six
/// Box nodes from the first image through the virtual images to the second image.
fn chain(alloc: Global, input: Stored, output: Stored, declared: PartialDesc) -> Result<Table, Fail>
    requires input { IsImage input }
    requires output { IsImage output }
    ensures { IfOk result (λ table. IsChain table.objects) }
{
    let mut table = Table::new(alloc);
    hold(&mut table, Content::Image(input))?;
    hold(&mut table, Content::Image(output))?;
    hold(&mut table, Content::Graph(Graph::new(alloc)))?;
    declared.prove_sides();
    hold_through(&mut table, declared)?;
    hold_through(&mut table, declared)?;
    hold_through(&mut table, declared)?;
    hold_through(&mut table, declared)?;
    hold_through(&mut table, declared)?;
    add_box(&mut table, 1, 4)?;
    add_box(&mut table, 4, 5)?;
    add_box(&mut table, 5, 6)?;
    add_box(&mut table, 6, 7)?;
    add_box(&mut table, 7, 8)?;
    add_box(&mut table, 8, 2)?;
    Ok(table)
}

/// Runs graph 3, a chain of six Box nodes, and returns the number of U8 blocks that the pool then
/// has.
fn run_chain(alloc: Global, table: &mut Table, pool: &mut Pool) -> Result<usize, Fail>
    requires { IsChain table.old.objects }
    ensures { OnOk result (IsChain table.new.objects) }
{
    let verified = verify_in(alloc, table, table.graph(3), 10)?;
    let plan = Plan::new(alloc, &verified)?;
    run(alloc, &verified, &plan, table, pool)?;
    Ok(pool.blocks(Format::U8))
}

#[test]
fn six_nodes_in_a_row_run_in_two_blocks(rt: HostRuntime) -> Result<(), Fail> {
    let alloc = rt.alloc();
    let open = PartialDesc::new(None, None, None).ok_or("nothing is declared")?;

    // The blocks of the two images are from another pool.
    let (mut pool, mut others) = (Pool::new(alloc), Pool::new(alloc));
    let input = image(alloc, &mut others, [10, 255])?;
    let output = image(alloc, &mut others, [1, 2])?;
    let mut table = chain(alloc, input, output, open)?;
    assert!(rt; pool.blocks(Format::U8) == 0);
    assert!(rt; run_chain(alloc, &mut table, &mut pool)? == 2);
    assert!(rt; run_chain(alloc, &mut table, &mut pool)? == 2);

    // After Box, an image of 2 by 1 samples has no valid pixels.
    assert!(rt; holds(&mut table, 2, [0, 0]));
    Ok(())
}
