//! Writes pictures to images. The samples are read into a block of the pool. If all samples are
//! read, the image swaps its memory with this block. The block is always given back to the pool.
ghost use Rattle.std.specs.Prelude.{◌≡◌, length, Some, Ok, OnOk, IfOk, IfErr, OnErr};
ghost use Rattle.vx_base.specs.Image.{ImageValue};
ghost use Rattle.vx_base.specs.Picture.{PictureValue, IsPicture, Describes, values, samples_format};
ghost use Rattle.pgm_images.specs.Reading.{SamplesFitHeader, description_in, read_result};
ghost use Rattle.pixel_pool.specs.Block.{HasAllSamples};
ghost use Rattle.pixel_pool.specs.Pool.{Lends, KeepsLent};
ghost use Rattle.client_model.specs.declared.reply.Reply.TheVariants.{Empty};
ghost use Rattle.client_model.specs.Images.{write_image, write_text};
ghost use Rattle.client_model.specs.Operands.{image_of};
ghost use Rattle.object_table.specs.Blocks.{Balances, KeepsBlocks};
ghost use Rattle.client_contexts.specs.Incoming.{IsRead, SaysWhyUnwritten, IsRefusedFor};
ghost use Rattle.client_contexts.specs.Lookup.{IsImageFor};
ghost use Rattle.client_contexts.specs.Steps.{MayComeTo, IsContext, Keeps};

use crate::fault::RequestFault;
use crate::images::find_image_for;
use crate::lookup::find_image;
use crate::source::{FillsSamples, WriteFault};
use client_model::Reply;
use object_table::Table;
use pgm_images::PgmFault;
use pixel_pool::{Block, Pool};
use std::alloc::AllocError;
use vx_base::{Desc, ObjRef};

/// Writes a picture of this description to an image, with samples from a source. If the picture is
/// refused or there is no memory for it, nothing is read.
pub fn write_from<F: FillsSamples>(
    table: &mut Table,
    pool: &mut Pool,
    reference: ObjRef,
    desc: Desc,
    source: &mut F,
) -> Result<(), WriteFault<F::Fault>>
    requires context { IsContext table.old }
    requires can_fill { F.can_fill source.old }
    ensures done { OnOk result ((p : PictureValue) × IsPicture p ×
        IsRead F.fills desc source.old source.new p (Ok tt) ×
        (write_image table.old reference p ≡ Ok (Empty, Some table.new))) }
    ensures err { IfErr result (SaysWhyUnwritten F.fills desc source.old source.new
        (IsRefusedFor table.old reference desc)) }
    ensures same { OnErr result (table.new ≡ table.old) }
    ensures within_limits { Keeps table.old table.new }
    ensures balances { Balances pool.old pool.new table.old.objects table.new.objects }
{
    find_image_for(table, reference, desc)?;
    let mut block = take_block(pool, desc)?;
    match fill_block(&mut block, source) {
        Ok(()) => {
            exchange(table, reference, desc, &mut block);
            pool.give_back(block);
            Ok(())
        }
        Err(fault) => {
            pool.give_back(block);
            Err(WriteFault::Source(fault))
        }
    }
}

/// Writes the picture of a PGM text to an image.
pub fn write_text(
    table: &mut Table,
    pool: &mut Pool,
    reference: ObjRef,
    text: &[u8],
) -> Result<Reply, RequestFault>
    requires { IsContext table.old }
    ensures comes { MayComeTo (write_text table.old reference text.now) table.old table.new result }
    ensures within_limits { Keeps table.old table.new }
    ensures balances { Balances pool.old pool.new table.old.objects table.new.objects }
{
    find_image(table, reference)?;
    let desc = pgm_images::read_description(text)?;
    let mut block = take_block(pool, desc)?;
    let written = give_text(table, reference, desc, text, &mut block);
    pool.give_back(block);
    written
}

/// Takes a block for the samples of a picture. The block may have any contents. If there is no
/// memory for the block, drops the free blocks and tries once more.
fn take_block(pool: &mut Pool, desc: Desc) -> Result<Block, AllocError>
    ensures described { IfOk result (λ taken. Describes desc taken.samples) }
    ensures whole { IfOk result HasAllSamples }
    ensures lends { OnOk result (Lends pool.old pool.new desc.format) }
    ensures err { OnErr result (KeepsLent pool.old pool.new) }
{
    let (format, count) = (desc.format(), desc.sample_count());
    match pool.take(format, count) {
        Ok(block) => Ok(block),
        Err(AllocError) => {
            pool.drop_free();
            pool.take(format, count)
        }
    }
}

/// Fills a block with samples from a source.
fn fill_block<F: FillsSamples>(block: &mut Block, source: &mut F) -> Result<(), F::Fault>
    requires { F.can_fill source.old }
    ensures fills { F.fills source.old source.new
        (samples_format block.old.samples) (values block.new.samples) result }
    ensures format { samples_format block.new.samples ≡ samples_format block.old.samples }
    ensures size { length (values block.new.samples) ≡ length (values block.old.samples) }
    ensures count { block.new.count ≡ block.old.count }
{
    let mut samples = block.lift();
    let filled = source.fill(&mut samples);
    block.put(samples);
    filled
}

/// Fills a block with the samples of a text.
fn fill_from_text(block: &mut Block, text: &[u8]) -> Result<(), PgmFault>
    requires { SamplesFitHeader text.now block.old.samples }
    ensures ok { OnOk result ((d : _) → description_in text.now ≡ Ok d →
        read_result text.now
        ≡ Ok (record { description = d; samples = values block.new.samples })) }
    ensures err { IfErr result (λ fault. read_result text.now ≡ Err fault) }
    ensures format { samples_format block.new.samples ≡ samples_format block.old.samples }
    ensures size { length (values block.new.samples) ≡ length (values block.old.samples) }
    ensures count { block.new.count ≡ block.old.count }
{
    let mut samples = block.lift();
    let read = pgm_images::read_into(text, &mut samples);
    block.put(samples);
    read
}

/// Reads a text into a block, and swaps the block's memory with that of an image.
fn give_text(
    table: &mut Table,
    reference: ObjRef,
    desc: Desc,
    text: &[u8],
    block: &mut Block,
) -> Result<Reply, RequestFault>
    requires context { IsContext table.old }
    requires image { (image : ImageValue) × (image_of table.old.objects reference ≡ Ok image) }
    requires description { description_in text.now ≡ Ok desc }
    requires described { Describes desc block.old.samples }
    requires whole { HasAllSamples block.old }
    ensures comes { MayComeTo (write_text table.old reference text.now) table.old table.new result }
    ensures within_limits { Keeps table.old table.new }
    ensures blocks { KeepsBlocks table.old.objects table.new.objects }
    ensures format { samples_format block.new.samples ≡ samples_format block.old.samples }
{
    fill_from_text(block, text)?;
    find_image_for(table, reference, desc)?;
    exchange(table, reference, desc, block);
    Ok(Reply::Empty)
}

/// Swaps the memory of a block with that of an image. The image then has the block's samples, and
/// the whole image is valid.
fn exchange(table: &mut Table, reference: ObjRef, desc: Desc, block: &mut Block)
    requires context { IsContext table.old }
    requires image { IsImageFor table.old.objects reference desc }
    requires described { Describes desc block.old.samples }
    requires whole { HasAllSamples block.old }
    ensures written { write_image table.old reference
        (record { description = desc; samples = values block.old.samples })
        ≡ Ok (Empty, Some table.new) }
    ensures picture { IsPicture
        (record { description = desc; samples = values block.old.samples }) }
    ensures within_limits { Keeps table.old table.new }
    ensures blocks { KeepsBlocks table.old.objects table.new.objects }
    ensures format { samples_format block.new.samples ≡ samples_format block.old.samples }
{
    let samples = block.lift();
    // The prover learns from these calls that sides and samples are in range.
    desc.prove_sides();
    samples.prove_samples();
    let (_, left) = table.take(reference);
    table.put(reference, samples, desc.whole());
    block.put(left);
}
