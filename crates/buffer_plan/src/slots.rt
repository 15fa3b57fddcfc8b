//! The assignment of the images of one format to slots.
ghost use Rattle.std.specs.Prelude.{◌≡◌, ℕ, ◌<◌, List, length, map, position, nat_lt, IfOk, Some};
ghost use Rattle.std.specs.Prelude.{if◌then◌else◌, slice_index};
ghost use Rattle.std.specs.List.{filter};
ghost use Rattle.vx_base.specs.Reference.{Reference};
ghost use Rattle.graph_verify.specs.Members.{In};
ghost use Rattle.buffer_plan.specs.declared.slots.Placed.{Placed as PlacedLife};
ghost use Rattle.buffer_plan.specs.Placed.{TakesSlot, ArePlaced, slot_among, slot_capacity};

use crate::lives::Life;
use std::alloc::{AllocError, Global};
use vx_base::ObjRef;

/// An image's life and slot.
#[derive(Clone, Copy)]
pub struct Placed {
    pub life: Life,
    pub slot: usize,
}

/// The images of one format with their slots.
#[derive(Drop)]
pub struct Places {
    /// The images in the order of their first steps.
    pub placed: Vec<Placed>,
    /// For each slot, the greatest sample count of its images.
    pub samples: Vec<usize>,
    /// The first step at which as many images are live as there are slots; `None` if there is no
    /// slot.
    pub peak_step: Option<usize>,
}

impl Places {
    /// Returns the slot of an image, if it has one.
    pub fn slot_of(&self, cell: ObjRef) -> Option<usize>
        ensures { result ≡ slot_among self.now.placed.items cell }
    {
        self.placed
            .iter()
            .find(|placed| placed.life.image.cell == cell)
            .map(|placed| placed.slot)
    }
}

/// Returns the first slot that is free at step `first`, or `None` if no slot is free. For each
/// slot, `ends` has the last step at which the slot is in use.
fn free_slot(ends: &[usize], first: usize) -> Option<usize>
    ensures { result ≡ position (λ end. nat_lt end first) ends.now }
{
    ends.iter().position(|end| *end < first)
}

/// Takes the first free slot for an image, or a new slot if none is free. Returns the slot.
fn take_slot(ends: &mut Vec<usize>, life: &Life) -> Result<usize, AllocError>
    ensures { IfOk result (λ slot. TakesSlot life.now ends.old.items ends.new.items slot) }
{
    if let Some(slot) = free_slot(ends, life.first) {
        ends[slot] = life.last;
        return Ok(slot);
    }
    ends.push(life.last)?;
    Ok(ends.len() - 1)
}

/// Returns the greatest sample count of each slot's images, for the slots below `count`. Each
/// image's slot must be below `count`.
fn greatest_samples(
    alloc: Global,
    placed: &[Placed],
    count: usize,
) -> Result<Vec<usize>, AllocError>
    requires { (p : PlacedLife) → In p placed.now → p.slot < count }
    ensures count { IfOk result (λ samples. length samples.items ≡ count) }
    ensures greatest { IfOk result (λ samples. (k : ℕ) →
        slice_index samples.items k ≡ slot_capacity placed.now k) }
{
    let mut samples = vec![in alloc; 0; count]?;
    for placed in placed {
        let more = placed.life.image.desc.sample_count();
        let slot = placed.slot;
        if samples[slot] < more {
            samples[slot] = more;
        }
    }
    Ok(samples)
}

/// Returns the peak step after one more image: the image's first step if the image's slot is new,
/// else the old peak step.
fn peak_after(before: Option<usize>, life: &Life, is_new: bool) -> Option<usize>
    ensures { result ≡ (if is_new then Some life.now.first else before) }
{
    if is_new { Some(life.first) } else { before }
}

/// Gives each image the first free slot, or a new slot if none is free. If the lives are in the
/// order of their first steps, and each ends no earlier than it begins, then images that are live
/// at the same step get different slots, and the number of slots is the least possible. An error
/// means that there is no memory for the result.
pub fn place(alloc: Global, lives: &[Life]) -> Result<Places, AllocError>
    ensures { IfOk result (λ places. ArePlaced lives.now places) }
{
    let mut ends = Vec::new(alloc);
    let mut placed = Vec::new(alloc);
    let mut peak_step = None;
    for life in lives {
        let count = ends.len();
        let slot = take_slot(&mut ends, life)?;
        peak_step = peak_after(peak_step, life, slot == count);
        placed.push(Placed { life: *life, slot })?;
    }
    let samples = greatest_samples(alloc, &placed, ends.len())?;
    Ok(Places {
        placed,
        samples,
        peak_step,
    })
}
