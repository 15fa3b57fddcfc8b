//! Cells of a table: images, and slots of delays.
ghost use Rattle.std.specs.Prelude.{◌≡◌, true, IfOk};
ghost use Rattle.vx_base.specs.declared.format.Format.TheVariants.{U8};
ghost use Rattle.vx_base.specs.Reference.{reference_to};
ghost use Rattle.vx_base.specs.Image.{IsImage, description_of};
ghost use Rattle.vx_base.specs.Object.{IsDelay};
ghost use Rattle.vx_base.specs.Rectangle.{IsWithin};
ghost use Rattle.object_table.specs.Context.{new_context};
ghost use Rattle.object_table.specs.Delay.{new_delay};
ghost use Rattle.object_table.specs.Table.{HoldsImage};

use crate::tables::hold;
use object_table::{Content, Delay, Stored, Table};
use pixel_pool::Pool;
use std::alloc::Global;
use std::test::Fail;
use vx_base::{Desc, Format, Kind, ObjRef, Picture, Rect, Samples, SlotCount};

/// Returns the description of two columns and one row of U8 samples.
pub fn small() -> Result<Desc, Fail>
    ensures { IfOk result (λ d. d ≡ record { width = 2; height = 1; format = U8 }) }
{
    Ok(Desc::new(2, 1, Format::U8).ok_or("within the limits")?)
}

/// Returns a picture of these samples.
pub fn picture(alloc: Global, samples: [u8; 2]) -> Result<Picture, Fail>
    ensures { IfOk result (λ p.
        p.description ≡ record { width = 2; height = 1; format = U8 }) }
{
    let samples = Vec::from_slice(alloc, &samples)?;
    Ok(Picture::new(small()?, Samples::U8(samples)))
}

/// Returns whether the samples equal `wanted`.
pub fn are(samples: &Samples, wanted: [u8; 2]) -> bool {
    match samples {
        Samples::U8(samples) => samples.as_slice() == wanted.as_slice(),
        _ => false,
    }
}

#[test]
fn a_new_image_is_0_everywhere(rt: HostRuntime) -> Result<(), Fail> {
    let image = Stored::new(&mut Pool::new(rt.alloc()), small()?)?;
    assert!(rt; are(image.samples(), [0, 0]));
    Ok(())
}

/// Returns whether an image is held under a name.
fn is_image(table: &Table, name: u32) -> bool
    ensures { result ≡ true → HoldsImage table.now.objects (reference_to name) }
{
    match table.get_held(name) {
        Some(object) => object.kind() == Kind::Image,
        None => false,
    }
}

/// Returns whether the image under a name has the samples `wanted`. Takes the image's samples out
/// of the table, and puts them back.
pub fn holds(table: &mut Table, name: u32, wanted: [u8; 2]) -> bool {
    if !is_image(table, name) {
        return false;
    }
    let cell = ObjRef::new(name, None);
    let valid = table.image(cell).valid();
    let (_, samples) = table.take(cell);
    let holds = are(&samples, wanted);
    table.put(cell, samples, valid);
    holds
}

/// Inserts an image into a new table, under name 1. Writes a picture to the image, and then sets
/// the image's valid rectangle.
fn write(table: &mut Table, image: Stored, picture: &Picture, part: Rect) -> Result<(), Fail>
    requires table { table.old ≡ new_context }
    requires image { IsImage image }
    requires same { description_of image ≡ picture.now.description }
    requires part { IsWithin part image.width image.height }
{
    hold(table, Content::Image(image))?;
    let cell = ObjRef::new(1, None);
    table.write(cell, picture);
    table.set_valid(cell, part);
    Ok(())
}

#[test]
fn an_image_is_written_and_valid_in_a_part(rt: HostRuntime) -> Result<(), Fail> {
    let alloc = rt.alloc();
    let mut table = Table::new(alloc);
    let image = Stored::new(&mut Pool::new(alloc), small()?)?;
    let part = Rect::new(1, 0, 2, 1).ok_or("a rectangle")?;
    let written = picture(alloc, [10, 20])?;
    write(&mut table, image, &written, part)?;
    for _ in 0..2 {
        assert!(rt; holds(&mut table, 1, [0, 20]));
    }
    assert!(rt; !holds(&mut table, 2, [0, 20]));
    Ok(())
}

/// Inserts a delay of three images into a new table, writes the newest image and ages the delay.
/// Takes the samples out of the three slots, and returns them in order from slot 0.
fn aged(
    table: &mut Table,
    delay: Delay,
    picture: &Picture,
) -> Result<(Samples, Samples, Samples), Fail>
    requires table { table.old ≡ new_context }
    requires delay { IsDelay delay }
    requires images { delay ≡ new_delay picture.now.description 3 }
{
    hold(table, Content::Delay(delay))?;
    let newest = ObjRef::new(1, Some(0));
    table.write(newest, picture);
    table.age(1);
    let (_, next) = table.take(ObjRef::new(1, Some(1)));
    let (_, last) = table.take(ObjRef::new(1, Some(2)));
    let (_, newest) = table.take(newest);
    Ok((newest, next, last))
}

#[test]
fn a_delay_ages_in_a_table(rt: HostRuntime) -> Result<(), Fail> {
    let alloc = rt.alloc();
    let mut table = Table::new(alloc);
    let slots = SlotCount::new(3).ok_or("within the limits")?;
    let delay = Delay::new(alloc, &mut Pool::new(alloc), small()?, slots)?;
    let written = picture(alloc, [10, 20])?;
    let (newest, next, last) = aged(&mut table, delay, &written)?;
    assert!(rt; are(&newest, [0, 0]));
    assert!(rt; are(&next, [10, 20]));
    assert!(rt; are(&last, [0, 0]));
    Ok(())
}
