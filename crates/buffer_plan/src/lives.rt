//! The lives of virtual images: the steps at which each image is live. Steps are counted from 1.
ghost use Rattle.std.specs.Prelude.{◌≡◌, ℕ, ◌+◌, ◌||◌, drop, nat_lt, position, IfOk};
ghost use Rattle.std.specs.List.{position_or_len};
ghost use Rattle.vx_base.specs.Sample.{same_format};
ghost use Rattle.graph_verify.specs.Links.{reads, writes};
ghost use Rattle.buffer_plan.specs.Lives.{is_node_operand, IsLife, AreLives};
ghost use Rattle.buffer_plan.specs.Slots.{of_format};

use graph_verify::VirtualOutput;
use std::alloc::{AllocError, Global};
use vx_base::{Format, Node, ObjRef};

/// A virtual image, with the first and the last step at which it is live.
#[derive(Clone, Copy)]
pub struct Life {
    pub image: VirtualOutput,
    pub first: usize,
    pub last: usize,
}

/// Returns whether a node writes an operand.
fn writes(node: &Node, cell: ObjRef) -> bool
    ensures { result ≡ writes node.now cell }
{
    node.out1 == Some(cell) || node.out2 == Some(cell)
}

/// Returns whether a node reads or writes an operand.
fn uses(node: &Node, cell: ObjRef) -> bool
    ensures { result ≡ (reads node.now cell || writes node.now cell) }
{
    node.in1 == cell || node.in2 == Some(cell) || writes(node, cell)
}

/// Returns the number of steps before the first step that writes an operand, or `None` if no step
/// writes it.
fn steps_before(steps: &[Node], cell: ObjRef) -> Option<usize>
    ensures { result ≡ position (λ n. writes n cell) steps.now }
{
    steps.iter().position(|node| writes(node, cell))
}

/// Returns the first step that writes an operand, or the number of steps plus 1 if no step writes
/// it.
fn first_writing(steps: &[Node], cell: ObjRef) -> usize
    ensures { result ≡ position_or_len (λ n. writes n cell) steps.now + 1 }
{
    match steps_before(steps, cell) {
        Some(before) => before + 1,
        None => steps.len() + 1,
    }
}

/// Returns the last step that reads or writes an operand, or 0 if no step does.
fn last_use(steps: &[Node], cell: ObjRef) -> usize
    ensures { (j : ℕ) → is_node_operand (drop j steps.now) cell ≡ nat_lt j result }
{
    let mut rest = steps;
    while let Some((node, before)) = rest.split_last() {
        if uses(node, cell) {
            return rest.len();
        }
        rest = before;
    }
    0
}

/// Returns the life of an image.
fn life_of(steps: &[Node], image: VirtualOutput) -> Life
    ensures image { result.image ≡ image }
    ensures life { IsLife steps.now result }
{
    Life {
        image,
        first: first_writing(steps, image.cell),
        last: last_use(steps, image.cell),
    }
}

/// Returns whether an image has this format.
fn is_of(image: &VirtualOutput, format: Format) -> bool
    ensures { result ≡ same_format image.now.desc.format format }
{
    image.desc.format() == format
}

/// Returns the lives of the images of a format, or an error if there is no memory for the result.
pub fn lives_of(
    alloc: Global,
    steps: &[Node],
    images: &[VirtualOutput],
    format: Format,
) -> Result<Vec<Life>, AllocError>
    ensures { IfOk result (λ lives. AreLives steps.now (of_format format images.now) lives.items) }
{
    let mut lives = Vec::new(alloc);
    for image in images {
        if is_of(image, format) {
            lives.push(life_of(steps, *image))?;
        }
    }
    Ok(lives)
}
