//! The plan of a verified graph.
ghost use Rattle.std.specs.Prelude.{◌≡◌, ℕ, ◌≤◌, ◌&&◌, List, length, is_some, IfOk, None};
ghost use Rattle.vx_base.specs.declared.node.Node.{Node as NodeFields};
ghost use Rattle.vx_base.specs.Reference.{Reference};
ghost use Rattle.graph_verify.specs.declared.known.VirtualOutput.{VirtualOutput as Image};
ghost use Rattle.graph_verify.specs.declared.operand.Operand.{Operand};
ghost use Rattle.graph_verify.specs.Links.{is_written};
ghost use Rattle.graph_verify.specs.Operand.{is_virtual};
ghost use Rattle.graph_verify.specs.Verified.{IsVerified, IsVerifiedGraph};
ghost use Rattle.buffer_plan.specs.Places.{IsPlacedFor, places_in, plan_view};
ghost use Rattle.buffer_plan.specs.Slots.{IsValid, AreSlotsOf};
ghost use Rattle.buffer_plan.specs.Plan.{IsPlan};

use crate::lives::lives_of;
use crate::slots::{Places, place};
use graph_verify::Verified;
use std::alloc::{AllocError, Global};
use vx_base::{Format, ObjRef};

/// A slot for each virtual image that a verified graph's nodes write. The slots of each format are
/// counted from 0.
#[derive(Drop)]
pub struct Plan {
    u8s: Places,
    s16s: Places,
    u32s: Places,
}

impl Plan {
    /// Plans the slots of the virtual images that a verified graph writes, for the graph's order of
    /// nodes. An error means that there is no memory for the plan.
    pub fn new(alloc: Global, verified: &Verified) -> Result<Plan, AllocError>
        ensures plan { IfOk result (λ p.
            IsPlan verified.now.steps verified.now.virtual_outputs (plan_view p)) }
        ensures images { IfOk result (λ p. (is : Reference → Operand) (nodes : List NodeFields) →
            IsVerified is nodes verified.now →
            (cell : Reference) → is_some ((plan_view p).slot_of cell) ≡
            (is_virtual (is cell) && is_written nodes cell)) }
    {
        Ok(Plan {
            u8s: places_of(alloc, verified, Format::U8)?,
            s16s: places_of(alloc, verified, Format::S16)?,
            u32s: places_of(alloc, verified, Format::U32)?,
        })
    }

    /// Returns the images of a format with their slots.
    fn places(&self, format: Format) -> &Places
        ensures { result.now ≡ places_in self.now format }
    {
        match format {
            Format::U8 => &self.u8s,
            Format::S16 => &self.s16s,
            Format::U32 => &self.u32s,
        }
    }

    /// Returns the slot of a virtual image; the slots of each format are counted from 0. Returns
    /// `None` if `cell` isn't a virtual image, or no node of the graph writes it.
    pub fn slot_of(&self, cell: ObjRef) -> Option<usize>
        ensures { result ≡ (plan_view self.now).slot_of cell }
    {
        let (u8s, s16s) = (self.u8s.slot_of(cell), self.s16s.slot_of(cell));
        u8s.or(s16s).or(self.u32s.slot_of(cell))
    }

    /// Returns the number of slots of a format. No plan for the verified graph's order of nodes has
    /// fewer slots of the format.
    pub fn slot_count(&self, format: Format) -> usize
        ensures value { result ≡ (plan_view self.now).slot_count format }
        ensures least { (steps : List NodeFields) (images : List Image) →
            IsPlan steps images (plan_view self.now) → (slot : Reference → ℕ) →
            IsValid steps images slot →
            (slots : List ℕ) → AreSlotsOf slot format images slots → result ≤ length slots }
    {
        self.places(format).samples.len()
    }

    /// Returns the size of a slot in samples: the greatest sample count of the images that share
    /// the slot. Returns 0 if the slot doesn't exist.
    pub fn slot_samples(&self, format: Format, slot: usize) -> usize
        ensures { result ≡ (plan_view self.now).slot_samples format slot }
    {
        let samples = &self.places(format).samples;
        samples.get(slot).copied().unwrap_or(0)
    }

    /// Returns the first step, counted from 1, at which each slot of the format has a live image.
    /// Returns `None` if the format has no slot.
    pub fn peak_step(&self, format: Format) -> Option<usize>
        ensures { result ≡ (plan_view self.now).peak_step format }
    {
        self.places(format).peak_step
    }
}

/// Assigns slots to a verified graph's virtual outputs of one format.
fn places_of(alloc: Global, verified: &Verified, format: Format) -> Result<Places, AllocError>
    ensures places { IfOk result (λ places.
        IsPlacedFor verified.now.steps verified.now.virtual_outputs format places) }
    ensures verified { IsVerifiedGraph verified.now }
{
    let lives = lives_of(alloc, verified.steps(), verified.virtual_outputs(), format)?;
    place(alloc, &lives)
}
