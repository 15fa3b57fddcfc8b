//! Plans of slots for the virtual images of graphs. A name below 10 stands for a U8 image of 2 by 2
//! samples. A name from 10 to 19 stands for a U8 image of 3 by 3 samples. A greater name stands for
//! a virtual image whose width, height and format are open.
ghost use Rattle.std.specs.Prelude.{IsTrue};
ghost use Rattle.graph_verify.specs.Operand.{is_image};

use buffer_plan::Plan;
use graph_verify::{Linked, Operand, Operands, verify};
use std::test::Fail;
use vx_base::{Border, Desc, Format, Function, Node, ObjRef, PartialDesc, Policy};

/// Returns the reference to the object of this name.
fn cell(name: u32) -> ObjRef {
    ObjRef::new(name, None)
}

/// Returns the object of this name, as an operand.
fn operand(name: u32) -> Operand
    ensures { IsTrue (is_image result) }
{
    if name < 10 {
        Operand::Image(Desc::with_sides(2, 2, Format::U8))
    } else if name < 20 {
        Operand::Image(Desc::with_sides(3, 3, Format::U8))
    } else {
        Operand::Virtual(open())
    }
}

/// Returns a partial description whose width, height and format are open.
fn open() -> PartialDesc {
    PartialDesc::new(None, None, None).unwrap()
}

/// Returns a node of a function that takes no policy and no amount. The node's number is the name
/// of its first output.
fn node(function: Function, in1: u32, in2: Option<u32>, out1: u32, out2: Option<u32>) -> Linked
    ensures { IsTrue (is_image result.operands.in1) }
{
    Linked {
        number: out1,
        node: Node {
            function,
            border: Border::Undefined,
            policy: Policy::Wrap,
            amount: 0,
            in1: cell(in1),
            in2: in2.map(|name| cell(name)),
            out1: Some(cell(out1)),
            out2: out2.map(|name| cell(name)),
        },
        operands: Operands {
            in1: operand(in1),
            in2: in2.map(|name| operand(name)),
            out1: Some(operand(out1)),
            out2: out2.map(|name| operand(name)),
        },
    }
}

/// Returns a Not node that reads the image named `in1` and writes the image named `out1`.
fn not(in1: u32, out1: u32) -> Linked
    ensures { IsTrue (is_image result.operands.in1) }
{
    node(Function::NotBits, in1, None, out1, None)
}

/// Returns a Box node that reads the image named `in1` and writes the image named `out1`.
fn mean(in1: u32, out1: u32) -> Linked
    ensures { IsTrue (is_image result.operands.in1) }
{
    node(Function::Box, in1, None, out1, None)
}

/// Returns the number of slots of a format, and the first step that needs all of them.
fn slots(plan: &Plan, format: Format) -> (usize, Option<usize>) {
    (plan.slot_count(format), plan.peak_step(format))
}

#[test]
fn five_images_of_a_chain_have_two_slots(rt: HostRuntime) -> Result<(), Fail> {
    let chain = [
        mean(1, 20),
        mean(20, 21),
        mean(21, 22),
        mean(22, 23),
        mean(23, 24),
        mean(24, 2),
    ];
    let verified = verify(rt.alloc(), &chain, 100).or(Err("it can run"))?;
    let plan = Plan::new(rt.alloc(), &verified)?;
    assert!(rt; slots(&plan, Format::U8) == (2, Some(2)));
    assert!(rt; slots(&plan, Format::S16) == (0, None));
    assert!(rt; slots(&plan, Format::U32) == (0, None));
    assert!(rt; plan.slot_of(cell(1)) == None);
    assert!(rt; plan.slot_of(cell(20)).is_some());
    assert!(rt; plan.slot_of(cell(20)) != plan.slot_of(cell(21)));
    assert!(rt; plan.slot_of(cell(20)) == plan.slot_of(cell(22)));
    Ok(())
}

#[test]
fn an_image_lives_to_the_last_step_that_reads_it(rt: HostRuntime) -> Result<(), Fail> {
    let nodes = [
        not(1, 20),
        not(20, 21),
        not(20, 22),
        node(Function::AndBits, 21, Some(22), 2, None),
    ];
    let verified = verify(rt.alloc(), &nodes, 100).or(Err("it can run"))?;
    let plan = Plan::new(rt.alloc(), &verified)?;
    assert!(rt; slots(&plan, Format::U8) == (3, Some(3)));
    Ok(())
}

#[test]
fn images_that_nobody_reads_live_at_their_own_step(rt: HostRuntime) -> Result<(), Fail> {
    let nodes = [node(Function::Sobel, 1, None, 20, Some(21))];
    let verified = verify(rt.alloc(), &nodes, 100).or(Err("it can run"))?;
    let plan = Plan::new(rt.alloc(), &verified)?;
    assert!(rt; slots(&plan, Format::S16) == (2, Some(1)));
    assert!(rt; slots(&plan, Format::U8) == (0, None));
    Ok(())
}

#[test]
fn a_slot_has_room_for_the_greatest_of_its_images(rt: HostRuntime) -> Result<(), Fail> {
    let nodes = [not(10, 20), not(20, 11), not(1, 21), not(21, 2)];
    let verified = verify(rt.alloc(), &nodes, 100).or(Err("it can run"))?;
    let plan = Plan::new(rt.alloc(), &verified)?;
    assert!(rt; slots(&plan, Format::U8) == (1, Some(1)));
    assert!(rt; plan.slot_of(cell(20)) == plan.slot_of(cell(21)));
    assert!(rt; plan.slot_samples(Format::U8, 0) == 9);
    assert!(rt; plan.slot_samples(Format::U8, 1) == 0);
    Ok(())
}

#[test]
fn a_graph_without_virtual_images_has_no_slots(rt: HostRuntime) -> Result<(), Fail> {
    let nodes = [not(1, 2)];
    let verified = verify(rt.alloc(), &nodes, 100).or(Err("it can run"))?;
    let plan = Plan::new(rt.alloc(), &verified)?;
    assert!(rt; slots(&plan, Format::U8) == (0, None));
    assert!(rt; plan.slot_of(cell(2)) == None);
    Ok(())
}
