//! References to the images of a graph: first the virtual images that its nodes write, then the
//! client's images that the nodes read or write.
ghost use Rattle.std.specs.Prelude.{◌≡◌, position, IfOk, OnOk};
ghost use Rattle.std.specs.List.{list_any};
ghost use Rattle.vx_base.specs.Reference.{same_reference};
ghost use Rattle.graph_run.specs.Cells.{cells_of, image_given, index_of, node_images};
ghost use Rattle.graph_run.specs.Cells.{virtual_cells, with_cell, with_cells};

use graph_verify::Verified;
use std::alloc::{AllocError, Global};
use vx_base::{Kind, Node, ObjRef};

/// Returns one reference to each image that a graph reads or writes.
pub fn cells_of(alloc: Global, verified: &Verified) -> Result<Vec<ObjRef>, AllocError>
    ensures { IfOk result (λ cells. cells.items ≡ cells_of verified.now) }
{
    let mut cells = virtual_cells(alloc, verified)?;
    let mut rest = verified.steps();
    while let Some((node, others)) = rest.split_first() {
        add_images(&mut cells, node)?;
        rest = others;
    }
    Ok(cells)
}

/// Returns references to the virtual images that the nodes of a graph write.
fn virtual_cells(alloc: Global, verified: &Verified) -> Result<Vec<ObjRef>, AllocError>
    ensures { IfOk result (λ cells. cells.items ≡ virtual_cells verified.now) }
{
    let mut cells = Vec::new(alloc);
    for output in verified.virtual_outputs() {
        cells.push(output.cell)?;
    }
    Ok(cells)
}

/// Adds a reference to each image that a node reads or writes, unless the list has it already.
fn add_images(cells: &mut Vec<ObjRef>, node: &Node) -> Result<(), AllocError>
    ensures { OnOk result (cells.new.items ≡ with_cells cells.old.items (node_images node.now)) }
{
    let parameters = node.function.parameters();
    let second = parameters.second_input.unwrap_or(Kind::Image);
    add_cell(cells, node.in1)?;
    add_given(cells, second, node.in2)?;
    add_given(cells, parameters.output, node.out1)?;
    add_given(cells, parameters.output, node.out2)
}

/// Adds the reference of an operand, if the operand is given and its kind is `Image`. A reference
/// that is in the list isn't added again.
fn add_given(cells: &mut Vec<ObjRef>, kind: Kind, cell: Option<ObjRef>) -> Result<(), AllocError>
    ensures { OnOk result (cells.new.items ≡ with_cells cells.old.items (image_given kind cell)) }
{
    match (kind, cell) {
        (Kind::Image, Some(cell)) => add_cell(cells, cell),
        _ => Ok(()),
    }
}

/// Adds a reference, unless it is in the list.
fn add_cell(cells: &mut Vec<ObjRef>, cell: ObjRef) -> Result<(), AllocError>
    ensures { OnOk result (cells.new.items ≡ with_cell cells.old.items cell) }
{
    if !is_there(cells, cell) {
        cells.push(cell)?;
    }
    Ok(())
}

/// Returns whether a reference is in the list.
fn is_there(cells: &[ObjRef], cell: ObjRef) -> bool
    ensures { result ≡ list_any (λ other. same_reference other cell) cells.now }
{
    cells.iter().any(|other| *other == cell)
}

/// Returns the first index of a reference, or `None` if the reference isn't in the list.
fn position_of(cells: &[ObjRef], cell: ObjRef) -> Option<usize>
    ensures { result ≡ position (λ other. same_reference other cell) cells.now }
{
    cells.iter().position(|other| *other == cell)
}

/// Returns the first index of a reference, or the length of the list if the reference isn't in it.
#[tactic(auto, using(crate::proofs::IndexLemmas::index_steps))]
pub fn index_of(cells: &[ObjRef], cell: ObjRef) -> usize
    ensures { result ≡ index_of cells.now cell }
{
    match position_of(cells, cell) {
        Some(at) => at,
        None => cells.len(),
    }
}
