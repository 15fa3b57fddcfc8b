//! A table, and the pool that lends the blocks of its images.
ghost use Rattle.object_table.specs.Blocks.{blocks_in, LendsAtLeast};

use object_table::{Content, InsertFault, Object, Stored, Table, TableFault};
use pixel_pool::Pool;
use std::alloc::Global;
use std::test::Fail;
use vx_base::Desc;

/// A table, and a pool that lends a block for each image of the table.
#[derive(Drop)]
pub struct Holdings {
    pub table: Table,
    pub pool: Pool,
    ghost owns: { LendsAtLeast pool (blocks_in table.objects) },
}

impl Holdings {
    /// Returns an empty table and its pool.
    pub fn new(alloc: Global) -> Holdings {
        Holdings {
            table: Table::new(alloc),
            pool: Pool::new(alloc),
        }
    }

    /// Inserts a new image with this description, and returns the image's name. If the table
    /// refuses the image, returns the fault and the image.
    pub fn offer(&mut self, desc: Desc) -> Result<Result<u32, InsertFault>, Fail> {
        let image = Stored::new(&mut self.pool, desc)?;
        Ok(self.table.insert(Object::new(Content::Image(image))))
    }

    /// Inserts a new image with this description, and returns the image's name.
    pub fn insert(&mut self, desc: Desc) -> Result<u32, Fail> {
        Ok(self.offer(desc)?.ok().ok_or("not held")?)
    }

    /// Releases a name.
    pub fn release(&mut self, name: u32) -> Result<(), TableFault> {
        self.table.release(name, &mut self.pool)
    }
}
