//! Objects by name, with their charge.
#![tactic(auto, using(crate::proofs::EntryLemmas::entry_steps))]

ghost use Rattle.std.specs.Prelude.{◌≡◌, ◌*◌, ◌≤◌, IsTrue, IsSome, is_none, Some, None, []};
ghost use Rattle.std.specs.Prelude.{if◌then◌else◌, length, map, IfOk, IfErr, OnOk, OnErr};
ghost use Rattle.std.specs.Option.{option_map};
ghost use Rattle.vx_base.specs.declared.kind.Kind.TheVariants as kind;
ghost use Rattle.vx_base.specs.Description.{sample_count};
ghost use Rattle.vx_base.specs.Rectangle.{IsWithin};
ghost use Rattle.vx_base.specs.Image.{IsImage, description_of, with_valid};
ghost use Rattle.vx_base.specs.Object.{ImageObject, ExtremesObject, IsObject};
ghost use Rattle.vx_base.specs.Picture.{values, samples_format, picture_image};
ghost use Rattle.object_table.specs.declared.fault.TableFault.TheVariants.{InvalidReference};
ghost use Rattle.object_table.specs.declared.fault.TableFault.TheVariants.{NoMemory, NoResources};
ghost use Rattle.vx_base.specs.Reference.{reference_to};
ghost use Rattle.pixel_pool.specs.Block.{IsAllOrNone};
ghost use Rattle.object_table.specs.Blocks.{blocks_in, LendsAtLeast, LendsLess};
ghost use Rattle.object_table.specs.Context.{new_context, object_named, charge_of, can_insert};
ghost use Rattle.object_table.specs.Context.{with_new, with_objects};
ghost use Rattle.object_table.specs.NamedObject.{object_held, with_object};
ghost use Rattle.object_table.specs.Object.{distribution_value, aged_object, with_samples};
ghost use Rattle.object_table.specs.Object.{with_counts};
ghost use Rattle.object_table.specs.Table.{object_under, IsUnder, cell_object, image_held};
ghost use Rattle.object_table.specs.Table.{HoldsImage};
ghost use Rattle.object_table.specs.Uses.{nodes_in};
ghost use Rattle.vx_base.specs.declared.desc.TheConstants.{GREATEST_BYTES};
ghost use Rattle.vx_base.specs.declared.slots.TheConstants.{GREATEST_SLOTS};

mod ageing;
mod graphs;

use crate::fault::{InsertFault, TableFault};
use crate::object::Object;
use crate::stored::Stored;
use pixel_pool::Pool;
use std::alloc::Global;
use std::collections::BTreeMap;
use std::marker::Model;
use vx_base::{Desc, Extremes, ObjRef, Picture, Rect, Samples};

/// The bound of names, 2^32: each name is below it.
const END_OF_NAMES: u64 = 4_294_967_296;

/// The most objects that a table holds.
pub const GREATEST_OBJECTS: usize = 1024;

/// An object that is held under a name: the name is live, or nodes use the object.
#[derive(Drop)]
pub struct Entry {
    pub live: bool,
    pub uses: u32,
    pub object: Object,
}

/// The objects of a client by name, and the next name.
#[derive(Drop)]
pub struct Table {
    alloc: Global,
    next: u64,
    charge: u64,
    entries: BTreeMap<u32, Entry>,
}

impl Model for Table {
    ghost use Rattle.std.specs.Prelude.{map};
    ghost use Rattle.object_table.specs.Context.{Context};
    ghost use Rattle.object_table.specs.Table.{entry_object, IsTable};

    ghost Value = { Context };

    ghost view = { λ t. record { next = t.next; objects = map entry_object t.entries.entries } };

    ghost invariant = { λ t. IsTable t.next t.charge t.entries.entries };
}

impl Table {
    /// Returns a table without objects. The next name is 1.
    pub fn new(alloc: Global) -> Table
        ensures { result ≡ new_context }
    {
        Table {
            alloc,
            next: 1,
            charge: 0,
            entries: BTreeMap::new(alloc),
        }
    }

    /// Gives the blocks of all images back to the pool, and drops the objects. Allocates nothing.
    pub fn end(self, pool: &mut Pool)
        requires { LendsAtLeast pool.old (blocks_in self.objects) }
        ensures { LendsLess pool.old pool.new (blocks_in self.objects) }
    {
        for (_, entry) in self.entries {
            entry.object.end(pool);
        }
    }

    /// Returns the allocator of the table.
    pub fn allocator(&self) -> Global {
        self.alloc
    }

    /// Returns how many objects are held.
    pub fn held(&self) -> usize
        ensures { result ≡ length self.now.objects }
    {
        self.entries.len()
    }

    /// Returns the number of bytes that the client is charged for its objects.
    pub fn charged_bytes(&self) -> u64
        ensures value { result ≡ charge_of self.now.objects }
        ensures limit { result ≤ GREATEST_OBJECTS * (GREATEST_SLOTS * GREATEST_BYTES) }
    {
        self.charge
    }

    /// Returns whether one more object can be held: a name is left, and fewer than 1,024 objects
    /// are held.
    pub fn can_insert(&self) -> bool
        ensures { result ≡ can_insert self.now }
    {
        self.next < END_OF_NAMES && self.entries.len() < GREATEST_OBJECTS
    }

    /// Inserts an object under the next name, and returns the name, which is live. If the object is
    /// a graph, the graph must have no nodes yet. After a fault the table is unchanged, and the
    /// `InsertFault` has the object. `NoResources`: no name is left, or 1,024 objects are held.
    /// `NoMemory`: the allocation failed.
    pub fn insert(&mut self, object: Object) -> Result<u32, InsertFault>
        requires { nodes_in object ≡ [] }
        ensures name { IfOk result (λ name. name ≡ self.old.next) }
        ensures ok { OnOk result (self.new ≡ with_new self.old object) }
        ensures capacity { OnOk result (IsTrue (can_insert self.old)) }
        ensures fault { IfErr result (λ e. e.fault
            ≡ (if can_insert self.old then NoMemory else NoResources)) }
        ensures err { OnErr result (self.new ≡ self.old) }
        ensures handed_back { IfErr result (λ e. e.object ≡ object) }
    {
        if !self.can_insert() {
            return Err(InsertFault {
                fault: TableFault::NoResources,
                object,
            });
        }
        let name = self.next as u32;
        let bytes = object.bytes() as u64;
        let entry = Entry {
            live: true,
            uses: 0,
            object,
        };
        match self.entries.insert(name, entry) {
            Ok(_) => {
                self.next += 1;
                self.charge += bytes;
                Ok(name)
            }
            Err(failed) => Err(InsertFault {
                fault: TableFault::NoMemory,
                object: failed.value.1.object,
            }),
        }
    }

    /// Returns the object of a live name. `InvalidReference`: the name isn't live.
    pub fn get(&self, name: u32) -> Result<&Object, TableFault>
        ensures ok { IfOk result (λ object. object_named self.now.objects name ≡ Some object.now) }
        ensures held { IfOk result (λ object. object_held self.now.objects name ≡ Some object.now) }
        ensures err { IfErr result (λ fault. (fault ≡ InvalidReference) ×
            (object_named self.now.objects name ≡ None)) }
    {
        match self.entries.get(&name) {
            Some(entry) if entry.live => Ok(&entry.object),
            _ => Err(TableFault::InvalidReference),
        }
    }

    /// Returns the object that is held under a name, whether the name is live or not.
    pub fn get_held(&self, name: u32) -> Option<&Object>
        ensures { option_map (λ object. object.now) result ≡ object_held self.now.objects name }
    {
        match self.entries.get(&name) {
            Some(entry) => Some(&entry.object),
            None => None,
        }
    }

    /// Returns the image that a reference names.
    pub fn image(&self, cell: ObjRef) -> &Stored
        requires { HoldsImage self.now.objects cell }
        ensures { result.now ≡ image_held self.now.objects cell }
    {
        match self.entries.get(&cell.name()) {
            Some(entry) => entry.object.image(cell.slot()),
            None => unreachable!(),
        }
    }

    /// Writes a picture to the image that a reference names. The picture and the image must have
    /// the same description.
    pub fn write(&mut self, cell: ObjRef, picture: &Picture)
        requires there { HoldsImage self.old.objects cell }
        requires object { IsObject (object_under self.old.objects cell.name) }
        requires same { description_of (image_held self.old.objects cell)
            ≡ picture.now.description }
        ensures value { self.new ≡ with_objects self.old
            (with_object self.old.objects cell (ImageObject (picture_image picture.now))) }
        ensures image { IsImage (picture_image picture.now) }
    {
        let Some(entry) = self.entries.get_mut(&cell.name()) else {
            unreachable!()
        };
        entry.object.write(cell.slot(), picture);
    }

    /// Sets the valid rectangle of the image that a reference names. Each sample outside the
    /// rectangle becomes 0.
    pub fn set_valid(&mut self, cell: ObjRef, valid: Rect)
        requires there { HoldsImage self.old.objects cell }
        requires object { IsObject (object_under self.old.objects cell.name) }
        requires inside { IsWithin valid (image_held self.old.objects cell).width
            (image_held self.old.objects cell).height }
        ensures { self.new ≡ with_objects self.old
            (with_object self.old.objects cell
            (ImageObject (with_valid valid (image_held self.old.objects cell)))) }
    {
        let Some(entry) = self.entries.get_mut(&cell.name()) else {
            unreachable!()
        };
        entry.object.set_valid(cell.slot(), valid);
    }

    /// Takes the samples out of the image that a reference names, and returns them with the image's
    /// size and format. `put` brings the samples back.
    pub fn take(&mut self, cell: ObjRef) -> (Desc, Samples)
        requires { HoldsImage self.old.objects cell }
        ensures desc { result.0 ≡ description_of (image_held self.old.objects cell) }
        ensures value { values result.1 ≡ (image_held self.old.objects cell).samples }
        ensures format { samples_format result.1 ≡ (image_held self.old.objects cell).format }
        ensures size { IsAllOrNone
            (sample_count (description_of (image_held self.old.objects cell)))
            (length (values result.1)) }
        ensures left { self.new ≡ with_objects self.old
            (with_object self.old.objects cell
            (with_samples (cell_object self.old.objects cell)
            (image_held self.old.objects cell).valid [])) }
    {
        let (desc, _, samples) = self.take_with_valid(cell);
        (desc, samples)
    }

    /// Takes the samples out as `take` does, and returns the valid rectangle too.
    pub fn take_with_valid(&mut self, cell: ObjRef) -> (Desc, Rect, Samples)
        requires { HoldsImage self.old.objects cell }
        ensures desc { result.0 ≡ description_of (image_held self.old.objects cell) }
        ensures valid { result.1 ≡ (image_held self.old.objects cell).valid }
        ensures value { values result.2 ≡ (image_held self.old.objects cell).samples }
        ensures format { samples_format result.2 ≡ (image_held self.old.objects cell).format }
        ensures size { IsAllOrNone
            (sample_count (description_of (image_held self.old.objects cell)))
            (length (values result.2)) }
        ensures left { self.new ≡ with_objects self.old
            (with_object self.old.objects cell
            (with_samples (cell_object self.old.objects cell)
            (image_held self.old.objects cell).valid [])) }
    {
        let Some(entry) = self.entries.get_mut(&cell.name()) else {
            unreachable!()
        };
        let valid = entry.object.image(cell.slot()).valid();
        let (desc, samples) = entry.object.take(cell.slot());
        (desc, valid, samples)
    }

    /// Puts a sample for each pixel into the image that a reference names, or none, and sets the
    /// image's valid rectangle.
    pub fn put(&mut self, cell: ObjRef, samples: Samples, valid: Rect)
        requires there { HoldsImage self.old.objects cell }
        requires format { samples_format samples ≡ (image_held self.old.objects cell).format }
        requires size { IsAllOrNone
            (sample_count (description_of (image_held self.old.objects cell)))
            (length (values samples)) }
        ensures { self.new ≡ with_objects self.old
            (with_object self.old.objects cell
            (with_samples (cell_object self.old.objects cell) valid (values samples))) }
    {
        let Some(entry) = self.entries.get_mut(&cell.name()) else {
            unreachable!()
        };
        entry.object.put(cell.slot(), samples, valid);
    }

    /// Ages the delay under a name. Allocates nothing.
    pub fn age(&mut self, name: u32)
        requires { IsUnder self.old.objects kind.Delay name }
        ensures { self.new ≡ with_objects self.old
            (with_object self.old.objects (reference_to name)
            (aged_object (object_under self.old.objects name))) }
    {
        let Some(entry) = self.entries.get_mut(&name) else {
            unreachable!()
        };
        entry.object.age();
    }

    /// Replaces the counts of the distribution under a name. `counts` must have one count for each
    /// bin.
    pub fn set_counts(&mut self, name: u32, counts: &[u32])
        requires kind { IsUnder self.old.objects kind.Distribution name }
        requires size { length counts.now
            ≡ (distribution_value (object_under self.old.objects name)).bins.bins }
        ensures { self.new ≡ with_objects self.old
            (with_object self.old.objects (reference_to name)
            (with_counts (object_under self.old.objects name) counts.now)) }
    {
        let Some(entry) = self.entries.get_mut(&name) else {
            unreachable!()
        };
        entry.object.set_counts(counts);
    }

    /// Replaces the extremes under a name.
    pub fn set_extremes(&mut self, name: u32, extremes: Extremes)
        requires { IsUnder self.old.objects kind.Extremes name }
        ensures { self.new ≡ with_objects self.old
            (with_object self.old.objects (reference_to name) (ExtremesObject extremes)) }
    {
        let Some(entry) = self.entries.get_mut(&name) else {
            unreachable!()
        };
        entry.object.set_extremes(extremes);
    }
}
