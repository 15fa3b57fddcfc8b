//! Moves images from a table of objects to planes before a run, and back after the run.
ghost use Rattle.std.specs.Prelude.{◌≡◌, ◌+◌, ◌≤◌, ◌++◌, length, vec_capacity};
ghost use Rattle.vx_base.specs.Description.{sample_count};
ghost use Rattle.vx_base.specs.Image.{description_of};
ghost use Rattle.vx_base.specs.Object.{ImageObject};
ghost use Rattle.pixel_pool.specs.Block.{IsAllOrNone};
ghost use Rattle.object_table.specs.Context.{with_objects};
ghost use Rattle.object_table.specs.NamedObject.{with_object, with_written};
ghost use Rattle.object_table.specs.Table.{HoldsImage, image_held};
ghost use Rattle.graph_steps.specs.Planes.{block_image};
ghost use Rattle.graph_run.specs.Bind.{AreAllApart, HoldImages, bare_images, image_plane};
ghost use Rattle.graph_run.specs.Bind.{AreFor, image_planes, plane_objects, without_samples};

use graph_steps::Plane;
use object_table::Table;
use vx_base::ObjRef;

/// Moves the samples of images from the table to new planes, in the order of `cells`.
pub fn take_out(table: &mut Table, cells: &[ObjRef], planes: &mut Vec<Plane>)
    requires images { HoldImages table.old.objects cells.now }
    requires apart { AreAllApart cells.now }
    requires room { length planes.old.items + length cells.now ≤ vec_capacity planes.old }
    ensures planes { planes.new.items
        ≡ planes.old.items ++ image_planes table.old.objects cells.now }
    ensures capacity { vec_capacity planes.new ≡ vec_capacity planes.old }
    ensures left { table.new ≡ with_objects table.old
        (with_written table.old.objects (bare_images table.old.objects cells.now)) }
{
    let mut rest = cells;
    while let Some((cell, others)) = rest.split_first() {
        let plane = take_image(table, *cell);
        planes.push_reserved(plane);
        rest = others;
    }
}

/// Moves the samples of an image from the table to a new plane.
pub fn take_image(table: &mut Table, cell: ObjRef) -> Plane
    requires { HoldsImage table.old.objects cell }
    ensures plane { result ≡ image_plane (image_held table.old.objects cell) }
    ensures left { table.new ≡ with_objects table.old (with_object table.old.objects cell
        (ImageObject (without_samples (image_held table.old.objects cell)))) }
{
    let (desc, valid, samples) = table.take_with_valid(cell);
    Plane::of_image(desc, valid, samples)
}

/// Moves images back to the table: for each reference of `cells`, the image of the plane at the
/// same index.
pub fn put_back(table: &mut Table, cells: &[ObjRef], planes: &mut [Plane])
    requires images { HoldImages table.old.objects cells.now }
    requires apart { AreAllApart cells.now }
    requires planes { AreFor table.old.objects cells.now planes.old }
    ensures value { table.new ≡ with_objects table.old
        (with_written table.old.objects (plane_objects cells.now planes.old)) }
    ensures count { length planes.new ≡ length planes.old }
{
    for at in 0..cells.len() {
        put_image(table, cells[at], &mut planes[at]);
    }
}

/// Moves the image of a plane back to the table.
pub fn put_image(table: &mut Table, cell: ObjRef, plane: &mut Plane)
    requires there { HoldsImage table.old.objects cell }
    requires desc { plane.old.desc ≡ description_of (image_held table.old.objects cell) }
    requires format { plane.old.format ≡ plane.old.desc.format }
    requires size { IsAllOrNone (sample_count plane.old.desc) (length plane.old.samples) }
    ensures { table.new ≡ with_objects table.old
        (with_object table.old.objects cell (ImageObject (block_image plane.old))) }
{
    let valid = plane.valid();
    table.put(cell, plane.give(), valid);
}
