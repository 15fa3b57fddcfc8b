//! Delays that age with a graph of a table.
ghost use Rattle.std.specs.Prelude.{◌≡◌};
ghost use Rattle.vx_base.specs.Object.{IsDelay};
ghost use Rattle.object_table.specs.Context.{new_context};
ghost use Rattle.object_table.specs.Delay.{new_delay};

use crate::cells::{are, picture, small};
use crate::graphs::is_graph;
use crate::tables::hold;
use graph_verify::Graph;
use object_table::{Content, Delay, Table};
use pixel_pool::Pool;
use std::test::Fail;
use vx_base::{ObjRef, Picture, SlotCount};

#[test]
fn a_graph_has_delays(rt: HostRuntime) -> Result<(), Fail> {
    let mut graph = Graph::new(rt.alloc());
    assert!(rt; graph.delays().is_empty() && !graph.is_registered(7));
    graph.set_delays(vec![in rt.alloc(); 7]?);
    assert!(rt; graph.is_registered(7) && !graph.is_registered(8));
    Ok(())
}

/// Registers the delay named `delay` with the graph named `graph`.
fn register(table: &mut Table, graph: u32, delay: u32) -> Result<(), Fail> {
    if !is_graph(table, graph) {
        return Err("no graph".into());
    }
    Ok(table.register(graph, delay).or(Err("no memory"))?)
}

/// Ages the delays that are registered with the graph named `graph`.
fn age(table: &mut Table, graph: u32) -> Result<(), Fail> {
    if !is_graph(table, graph) {
        return Err("no graph".into());
    }
    table.age_registered(graph);
    Ok(())
}

/// Returns whether the given slot of the delay of this name has the samples `wanted`.
fn slot_holds(table: &Table, name: u32, slot: u8, wanted: [u8; 2]) -> bool {
    match table.get_held(name) {
        Some(object) => match object.content() {
            Content::Delay(delay) => match delay.slot(slot) {
                Ok(image) => are(image.samples(), wanted),
                Err(_) => false,
            },
            _ => false,
        },
        None => false,
    }
}

/// Inserts a delay of three images into a new table, under name 1. Writes a picture to the delay's
/// newest image.
fn hold_written(table: &mut Table, delay: Delay, picture: &Picture) -> Result<(), Fail>
    requires table { table.old ≡ new_context }
    requires delay { IsDelay delay }
    requires images { delay ≡ new_delay picture.now.description 3 }
{
    hold(table, Content::Delay(delay))?;
    table.write(ObjRef::new(1, Some(0)), picture);
    Ok(())
}

#[test]
fn a_delay_ages_once_with_a_graph(rt: HostRuntime) -> Result<(), Fail> {
    let alloc = rt.alloc();
    let mut table = Table::new(alloc);
    let slots = SlotCount::new(3).ok_or("within the limits")?;
    let delay = Delay::new(alloc, &mut Pool::new(alloc), small()?, slots)?;
    let written = picture(alloc, [10, 20])?;
    hold_written(&mut table, delay, &written)?;
    hold(&mut table, Content::Graph(Graph::new(alloc)))?;
    age(&mut table, 2)?;
    assert!(rt; slot_holds(&table, 1, 0, [10, 20]));
    assert!(rt; table.is_held(1) && !table.is_held(3));
    register(&mut table, 2, 1)?;
    register(&mut table, 2, 1)?;
    age(&mut table, 2)?;
    assert!(rt; slot_holds(&table, 1, 1, [10, 20]));
    Ok(())
}
