//! A client's context: its objects, and its cache of verified graphs.
ghost use Rattle.std.specs.Prelude.{◌≡◌, ◌≢◌, false, [], Some, Ok, Err, IfSome, IfOk, IfErr, OnOk};
ghost use Rattle.std.specs.Prelude.{OnErr};
ghost use Rattle.std.specs.BTreeMap.{is_at};
ghost use Rattle.std.specs.Map.{lookup};
ghost use Rattle.std.specs.Option.{option_map};
ghost use Rattle.std.specs.Ordering.{nat_cmp};
ghost use Rattle.vx_base.specs.declared.format.Format.TheVariants.{U8 as FormatU8};
ghost use Rattle.vx_base.specs.Image.{IsImage};
ghost use Rattle.vx_base.specs.Picture.{PictureValue, picture_of};
ghost use Rattle.pgm_images.specs.Writing.{pgm_text};
ghost use Rattle.client_model.specs.declared.request.Request.TheVariants.{ReleaseContext};
ghost use Rattle.client_model.specs.declared.reply.Reply.TheVariants as replies;
ghost use Rattle.client_model.specs.declared.reply.Reply.TheVariants.{Empty};
ghost use Rattle.client_model.specs.Request.{TakesMemory};
ghost use Rattle.client_model.specs.Images.{write_image, write_text, read_image, read_text};
ghost use Rattle.client_model.specs.Answer.{outcome_of};
ghost use Rattle.client_model.specs.States.{KeepsLimits};
ghost use Rattle.object_table.specs.Blocks.{blocks_in, LendsAtLeast, LendsLess, Balances};
ghost use Rattle.object_table.specs.Context.{new_context};
ghost use Rattle.client_contexts.specs.Kept.{IsKept, KeepsVerified, runs_graph};
ghost use Rattle.client_contexts.specs.Incoming.{IsRead, SaysWhyUnwritten, IsRefusedFor};
ghost use Rattle.client_contexts.specs.Steps.{MayComeTo, WantsMemory, IsContext, Keeps};
ghost use Rattle.client_contexts.specs.Steps.{client_result};

use crate::delays::{age_delay, create_delay, register_auto_aging};
use crate::fault::RequestFault;
use crate::graphs::{
    add_node, create_graph, create_virtual_image, process_graph, remove_node, verify_graph,
};
use crate::images::{
    create_image, find_text_image, query_image, read_image, read_text, set_valid, write_image,
};
use crate::immediate::run_at_once;
use crate::incoming::{write_from, write_text};
use crate::kept::{KeptGraph, forget};
use crate::lookup::find_image;
use crate::objects::release;
use crate::source::{FillsSamples, WriteFault};
use crate::statistics::{create_distribution, create_min_max, read_distribution, read_min_max};
use crate::tables::{create_convolution, create_lut, create_threshold};
use client_model::{Limits, Refusal, Reply, Request};
use graph_run::Workspace;
use object_table::{Stored, Table};
use pixel_pool::Pool;
use std::alloc::Global;
use std::collections::BTreeMap;
use std::marker::Model;
use vx_base::{Desc, ObjRef};

/// The objects of a client, and the client's cache of verified graphs. A graph stays in the cache
/// until its nodes change or its name is released.
#[derive(Drop)]
pub struct Client {
    table: Table,
    kept: BTreeMap<u32, KeptGraph>,
}

impl Model for Client {
    ghost use Rattle.client_contexts.specs.Kept.{AreKept, verified_in};
    ghost use Rattle.client_contexts.specs.World.{ClientContext};

    ghost Value = { ClientContext };

    ghost view = { λ c. record { context = c.table; verified = verified_in c.kept.entries } };

    ghost invariant = { λ c. AreKept c.table c.kept.entries };
}

impl Client {
    /// Returns a client without objects.
    pub fn new(alloc: Global) -> Client
        ensures { result ≡ record { context = new_context; verified = [] } }
    {
        Client {
            table: Table::new(alloc),
            kept: BTreeMap::new(alloc),
        }
    }

    /// Returns the cache entry of a graph, or `None`. The entry has the verification, the slots of
    /// the virtual images and the schedule of a run, all for the graph's current nodes.
    #[tactic(auto, using(crate::proofs::KeptLemmas::lent_shows))]
    pub fn kept(&self, graph: u32) -> Option<&KeptGraph>
        ensures holds { IfSome result (λ kept. IsKept self.now.context graph kept.now) }
        ensures work { option_map (λ kept. kept.now.work) result
            ≡ lookup (is_at (nat_cmp graph)) self.now.verified }
    {
        self.kept.get(&graph)
    }

    /// Gives the blocks of all images back to the pool, and drops the objects. Allocates nothing.
    pub fn end(self, pool: &mut Pool)
        requires { LendsAtLeast pool.old (blocks_in self.context.objects) }
        ensures { LendsLess pool.old pool.new (blocks_in self.context.objects) }
    {
        self.table.end(pool);
    }

    /// Answers a request other than ReleaseContext. A graph leaves the cache when its nodes change
    /// or its name is released. A run of a graph reuses the memory of `lists`.
    pub fn answer(
        &mut self,
        lists: &mut Workspace,
        pool: &mut Pool,
        limits: Limits,
        alloc: Global,
        request: &Request,
    ) -> Result<Reply, RequestFault>
        requires other { request.now ≢ ReleaseContext }
        requires within_limits { KeepsLimits limits self.old.context }
        requires owns { LendsAtLeast pool.old (blocks_in self.old.context.objects) }
        ensures comes { MayComeTo (outcome_of limits self.old.context request.now)
            self.old.context self.new.context result }
        ensures within_limits { KeepsLimits limits self.new.context }
        ensures balances { Balances pool.old pool.new
            self.old.context.objects self.new.context.objects }
        ensures takes { IfErr result (λ fault. WantsMemory fault (TakesMemory request.now)) }
        ensures verified { KeepsVerified limits.work request.now
            self.old.verified self.new.verified (client_result result) }
    {
        match request {
            Request::VerifyGraph(graph) => {
                verify_graph(&self.table, &mut self.kept, limits, alloc, *graph)
            }
            Request::ProcessGraph(graph) => process_graph(
                &mut self.table,
                &mut self.kept,
                lists,
                pool,
                limits,
                alloc,
                *graph,
            ),
            _ => {
                // The prover learns from this call that the request's fields are in range.
                request.prove_request();
                let reply = answer(&mut self.table, pool, limits, alloc, request)?;
                forget(&mut self.kept, request);
                Ok(reply)
            }
        }
    }

    /// Writes a picture of this description to an image, with samples from a source. If the picture
    /// is refused or there is no memory for it, nothing is read.
    pub fn write_from<F: FillsSamples>(
        &mut self,
        pool: &mut Pool,
        reference: ObjRef,
        desc: Desc,
        source: &mut F,
    ) -> Result<(), WriteFault<F::Fault>>
        requires context { IsContext self.old.context }
        requires can_fill { F.can_fill source.old }
        ensures done { OnOk result ((p : PictureValue) ×
            IsRead F.fills desc source.old source.new p (Ok tt) ×
            (write_image self.old.context reference p ≡ Ok (Empty, Some self.new.context))) }
        ensures err { IfErr result (SaysWhyUnwritten F.fills desc source.old source.new
            (IsRefusedFor self.old.context reference desc)) }
        ensures same { OnErr result (self.new ≡ self.old) }
        ensures within_limits { Keeps self.old.context self.new.context }
        ensures balances { Balances pool.old pool.new
            self.old.context.objects self.new.context.objects }
        ensures verified { self.new.verified ≡ self.old.verified }
    {
        // The prover learns from this call that the reference's name and slot are in range.
        reference.prove_reference();
        write_from(&mut self.table, pool, reference, desc, source)
    }

    /// Writes the picture of a PGM text to an image.
    pub fn write_text(
        &mut self,
        pool: &mut Pool,
        reference: ObjRef,
        text: &[u8],
    ) -> Result<Reply, RequestFault>
        requires { IsContext self.old.context }
        ensures comes { MayComeTo (write_text self.old.context reference text.now)
            self.old.context self.new.context result }
        ensures within_limits { Keeps self.old.context self.new.context }
        ensures balances { Balances pool.old pool.new
            self.old.context.objects self.new.context.objects }
        ensures verified { self.new.verified ≡ self.old.verified }
    {
        // The prover learns from this call that the reference's name and slot are in range.
        reference.prove_reference();
        write_text(&mut self.table, pool, reference, text)
    }

    /// Returns the image that a reference names. Refused if the reference names no image with
    /// samples.
    #[tactic(auto, using(crate::proofs::OutcomeLemmas::image_steps))]
    pub fn image(&self, reference: ObjRef) -> Result<&Stored, Refusal>
        requires { IsContext self.now.context }
        ensures ok { IfOk result (λ image. read_image self.now.context reference
            ≡ Ok (replies.Picture (picture_of image.now), Some self.now.context)) }
        ensures err { IfErr result (λ refusal.
            read_image self.now.context reference ≡ Err refusal) }
        ensures image { IfOk result (λ image. IsImage image.now) }
    {
        find_image(&self.table, reference)
    }

    /// Returns the U8 image that a reference names. Refused if the reference names no U8 image with
    /// samples.
    pub fn text_image(&self, reference: ObjRef) -> Result<&Stored, Refusal>
        requires { IsContext self.now.context }
        ensures ok { IfOk result (λ image. read_text self.now.context reference
            ≡ Ok (replies.Text (pgm_text (picture_of image.now)), Some self.now.context)) }
        ensures err { IfErr result (λ refusal.
            read_text self.now.context reference ≡ Err refusal) }
        ensures image { IfOk result (λ image. IsImage image.now) }
        ensures format { IfOk result (λ image. image.now.format ≡ FormatU8) }
    {
        find_text_image(&self.table, reference)
    }
}

/// Answers a request other than ReleaseContext, VerifyGraph and ProcessGraph.
fn answer(
    table: &mut Table,
    pool: &mut Pool,
    limits: Limits,
    alloc: Global,
    request: &Request,
) -> Result<Reply, RequestFault>
    requires other { request.now ≢ ReleaseContext }
    requires no_graph { runs_graph request.now ≡ false }
    requires within_limits { KeepsLimits limits table.old }
    requires owns { LendsAtLeast pool.old (blocks_in table.old.objects) }
    ensures comes { MayComeTo (outcome_of limits table.old request.now) table.old table.new result }
    ensures within_limits { KeepsLimits limits table.new }
    ensures balances { Balances pool.old pool.new table.old.objects table.new.objects }
    ensures takes { IfErr result (λ fault. WantsMemory fault (TakesMemory request.now)) }
{
    match request {
        Request::OpenContext => Err(RequestFault::Refused(Refusal::InvalidValue)),
        Request::ReleaseContext => unreachable!(),
        Request::CreateImage(desc) => create_image(table, pool, limits, *desc),
        Request::QueryImage(reference) => Ok(query_image(table, *reference)?),
        Request::WriteImage(reference, picture) => Ok(write_image(table, *reference, picture)?),
        Request::WriteImagePgm(reference, text) => {
            write_text(table, pool, *reference, text.bytes())
        }
        Request::ReadImage(reference) => read_image(table, alloc, *reference),
        Request::ReadImagePgm(reference) => read_text(table, alloc, *reference),
        Request::SetValid(reference, valid) => Ok(set_valid(table, *reference, *valid)?),
        Request::Release(name) => Ok(release(table, pool, *name)?),
        Request::CreateLut(lut) => create_lut(table, limits, lut),
        Request::CreateThreshold(threshold) => create_threshold(table, limits, *threshold),
        Request::CreateConvolution(convolution) => create_convolution(table, limits, convolution),
        Request::CreateDistribution(bins) => create_distribution(table, limits, *bins),
        Request::ReadDistribution(name) => read_distribution(table, alloc, *name),
        Request::CreateMinMax => create_min_max(table, limits),
        Request::ReadMinMax(name) => Ok(read_min_max(table, *name)?),
        Request::CreateGraph => create_graph(table, limits),
        Request::CreateVirtualImage(graph, declared) => {
            create_virtual_image(table, limits, *graph, *declared)
        }
        Request::AddNode(graph, node) => add_node(table, *graph, *node),
        Request::RemoveNode(graph, number) => Ok(remove_node(table, pool, *graph, *number)?),
        Request::VerifyGraph(_) | Request::ProcessGraph(_) => unreachable!(),
        Request::Immediate(node) => Ok(run_at_once(table, *node)?),
        Request::CreateDelay(exemplar, slots) => {
            create_delay(table, pool, limits, *exemplar, *slots)
        }
        Request::AgeDelay(name) => Ok(age_delay(table, *name)?),
        Request::RegisterAutoAging(graph, delay) => register_auto_aging(table, *graph, *delay),
    }
}
