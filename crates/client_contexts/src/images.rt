//! Requests that create, query, write and read images, and set valid rectangles. OpenVX 1.3,
//! "Object: Image". Samples are read as a picture or as a PGM text. Writes from a source or a PGM
//! text are in `incoming`.
#![tactic(auto, using(crate::proofs::OutcomeLemmas::image_steps))]

ghost use Rattle.std.specs.Prelude.{◌≡◌, Some, Ok, Err, IfOk, IfErr, OnOk};
ghost use Rattle.vx_base.specs.declared.format.Format.TheVariants.{U8 as FormatU8};
ghost use Rattle.vx_base.specs.Image.{IsImage};
ghost use Rattle.vx_base.specs.Picture.{picture_of};
ghost use Rattle.pgm_images.specs.Writing.{pgm_text};
ghost use Rattle.client_model.specs.declared.reply.Reply.TheVariants as replies;
ghost use Rattle.client_model.specs.Images.{create_image, described_image, described_virtual};
ghost use Rattle.client_model.specs.Images.{query_image, write_image, read_image};
ghost use Rattle.client_model.specs.Images.{read_text, set_valid, picture_refusal, valid_refusal};
ghost use Rattle.client_model.specs.Operands.{image_of};
ghost use Rattle.client_model.specs.States.{KeepsLimits};
ghost use Rattle.object_table.specs.Blocks.{Balances, KeepsBlocks};
ghost use Rattle.client_contexts.specs.Lookup.{IsImageFor, refusal_for};
ghost use Rattle.client_contexts.specs.Steps.{ComesTo, MayComeTo, IsContext, Keeps};

use crate::fault::RequestFault;
use crate::lookup::{find, find_image};
use crate::new_objects::{hold_images, require_capacity};
use client_model::{Described, Limits, Refusal, Reply, Text};
use object_table::{Content, Object, Stored, Table};
use pixel_pool::Pool;
use std::alloc::Global;
use vx_base::{Desc, Format, Kind, ObjRef, PartialDesc, Picture, Rect};

/// Creates an image that is 0 everywhere and wholly valid.
pub fn create_image(
    table: &mut Table,
    pool: &mut Pool,
    limits: Limits,
    desc: Desc,
) -> Result<Reply, RequestFault>
    ensures comes { MayComeTo (create_image limits table.old desc) table.old table.new result }
    ensures within_limits { KeepsLimits limits table.old → KeepsLimits limits table.new }
    ensures balances { Balances pool.old pool.new table.old.objects table.new.objects }
{
    require_capacity(table, limits, desc.byte_count())?;
    let image = Stored::new(pool, desc)?;
    hold_images(table, pool, limits, Object::new(Content::Image(image)))
}

/// Returns the reply to a query of an image with samples.
fn described(image: &Stored) -> Described
    ensures { result ≡ described_image image.now }
{
    let desc = image.desc();
    Described {
        format: Some(desc.format()),
        width: desc.width(),
        height: desc.height(),
        valid: image.valid(),
    }
}

/// Returns the reply to a query of a virtual image: the declared format, the declared sides (0 if
/// open), and an empty valid rectangle.
fn described_virtual(declared: PartialDesc) -> Described
    ensures { result ≡ described_virtual declared }
{
    Described {
        format: declared.format(),
        width: declared.width().unwrap_or(0),
        height: declared.height().unwrap_or(0),
        valid: Rect::empty(),
    }
}

/// Returns the format, the size and the valid rectangle of an image.
pub fn query_image(table: &Table, reference: ObjRef) -> Result<Reply, Refusal>
    requires { IsContext table.now }
    ensures { ComesTo (query_image table.now reference) table.now table.now result }
{
    let object = find(table, reference, Kind::Image, None)?;
    Ok(Reply::Described(match object.content() {
        Content::Virtual(image) => described_virtual(image.declared),
        _ => described(object.image(reference.slot())),
    }))
}

/// Returns the reason, if any, why a picture can't be written to an image, given the descriptions
/// of both.
fn picture_refusal(image: Desc, picture: Desc) -> Option<Refusal>
    ensures { result ≡ picture_refusal image picture }
{
    if image.format() != picture.format() {
        Some(Refusal::InvalidFormat)
    } else if image.has_size_of(picture) {
        None
    } else {
        Some(Refusal::InvalidDimension)
    }
}

/// Checks that a picture of this description can be written to an image: the image has the same
/// description.
pub fn find_image_for(table: &Table, reference: ObjRef, picture: Desc) -> Result<(), Refusal>
    ensures ok { OnOk result (IsImageFor table.now.objects reference picture) }
    ensures err { IfErr result (λ refusal.
        refusal_for (image_of table.now.objects reference) picture ≡ Some refusal) }
{
    let image = find_image(table, reference)?;
    match picture_refusal(image.desc(), picture) {
        None => Ok(()),
        Some(refusal) => Err(refusal),
    }
}

/// Writes a picture to an image.
pub fn write_image(
    table: &mut Table,
    reference: ObjRef,
    picture: &Picture,
) -> Result<Reply, Refusal>
    requires { IsContext table.old }
    ensures comes { ComesTo (write_image table.old reference picture.now)
        table.old table.new result }
    ensures within_limits { Keeps table.old table.new }
    ensures blocks { KeepsBlocks table.old.objects table.new.objects }
{
    find_image_for(table, reference, picture.desc())?;
    // The prover learns from this call that the picture's samples are in range.
    let _samples = picture.samples();
    table.write(reference, picture);
    Ok(Reply::Empty)
}

/// Returns a copy of an image's samples, allocated with `alloc`.
pub fn read_image(table: &Table, alloc: Global, reference: ObjRef) -> Result<Reply, RequestFault>
    requires { IsContext table.now }
    ensures { MayComeTo (read_image table.now reference) table.now table.now result }
{
    let image = find_image(table, reference)?;
    Ok(Reply::Picture(image.picture(alloc)?))
}

/// Returns the U8 image that a reference names, for ReadImagePgm. Refused if the reference names no
/// image with samples, or if the image has another format.
pub fn find_text_image(table: &Table, reference: ObjRef) -> Result<&Stored, Refusal>
    requires { IsContext table.now }
    ensures ok { IfOk result (λ image. read_text table.now reference
        ≡ Ok (replies.Text (pgm_text (picture_of image.now)), Some table.now)) }
    ensures err { IfErr result (λ refusal. read_text table.now reference ≡ Err refusal) }
    ensures image { IfOk result (λ image. IsImage image.now) }
    ensures format { IfOk result (λ image. image.now.format ≡ FormatU8) }
{
    let image = find_image(table, reference)?;
    if image.desc().format() == Format::U8 {
        Ok(image)
    } else {
        Err(Refusal::InvalidFormat)
    }
}

/// Returns the samples of a U8 image as a PGM text, allocated with `alloc`.
pub fn read_text(table: &Table, alloc: Global, reference: ObjRef) -> Result<Reply, RequestFault>
    requires { IsContext table.now }
    ensures { MayComeTo (read_text table.now reference) table.now table.now result }
{
    let image = find_text_image(table, reference)?;
    Ok(Reply::Text(Text::new(pgm_images::write(alloc, &image.image())?)))
}

/// Returns the reason, if any, why a rectangle can't be the valid rectangle of an image of this
/// description.
fn valid_refusal(image: Desc, valid: Rect) -> Option<Refusal>
    ensures { result ≡ valid_refusal image valid }
{
    if valid.x1() <= image.width() && valid.y1() <= image.height() {
        None
    } else {
        Some(Refusal::InvalidValue)
    }
}

/// Sets the valid rectangle of an image. Each sample outside the rectangle becomes 0.
pub fn set_valid(table: &mut Table, reference: ObjRef, valid: Rect) -> Result<Reply, Refusal>
    requires { IsContext table.old }
    ensures comes { ComesTo (set_valid table.old reference valid) table.old table.new result }
    ensures within_limits { Keeps table.old table.new }
    ensures blocks { KeepsBlocks table.old.objects table.new.objects }
{
    let desc = find_image(table, reference)?.desc();
    if let Some(refusal) = valid_refusal(desc, valid) {
        return Err(refusal);
    }
    valid.prove_bounds();
    table.set_valid(reference, valid);
    Ok(Reply::Empty)
}
