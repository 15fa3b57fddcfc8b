//! Writes rows in blocks of 32 items. The last block may overlap the block before. A row shorter
//! than a block is written item by item.
ghost use Rattle.std.specs.Prelude.{◌≡◌, ◌+◌, ◌-◌, ◌<◌, ◌≤◌, ℕ, ℤ, map, take, length};
ghost use Rattle.vx_base.specs.Image.{run};

use crate::item::Item;

/// The items of a row to be written, each computed from its index.
pub trait Indexed<T: Item> {
    /// The number of items.
    ghost count: { Self → ℕ };

    /// The value at an index.
    ghost at: { Self → ℕ → ℤ };

    /// Returns the item at an index.
    fn item(&self, index: usize) -> T
        requires inside { index < count self.now }
        ensures { T.value result ≡ at self.now index };

    /// Writes the 32 items from `index` on.
    fn lanes(&self, index: usize, out: &mut [T])
        requires room { index + 32 ≤ count self.now }
        requires out_len { length out.old ≡ 32 }
        ensures { map T.value out.new ≡ run index 32 (at self.now) };
}

/// Writes the last 32 items. If the items before these were already written, the whole row is now
/// written. Some or all of the 32 items may be written a second time.
fn write_last<T: Item, R: Indexed<T>>(row: &R, out: &mut [T])
    requires count { R.count row.now ≡ length out.old }
    requires room { 32 ≤ length out.old }
    ensures { map T.value (take (length out.old - 32) out.old) ≡ run 0 (length out.old - 32)
        (R.at row.now) → map T.value out.new ≡ run 0 (length out.old) (R.at row.now) }
{
    let index = out.len() - 32;
    row.lanes(index, &mut out[index..index + 32]);
}

/// Writes all items one by one.
#[tactic(auto, using(crate::proofs::BlockLaws::runs))]
fn write_items<T: Item, R: Indexed<T>>(row: &R, out: &mut [T])
    requires count { R.count row.now ≡ length out.old }
    ensures { map T.value out.new ≡ run 0 (length out.old) (R.at row.now) }
{
    for i in 0..out.len() {
        out[i] = row.item(i);
    }
}

/// Writes all items: in blocks, or one by one if the row has fewer than 32 items.
pub fn write_indexed<T: Item, R: Indexed<T>>(row: &R, out: &mut [T])
    requires count { R.count row.now ≡ length out.old }
    ensures { map T.value out.new ≡ run 0 (length out.old) (R.at row.now) }
{
    let count = out.len();
    if count < 32 {
        write_items(row, out);
        return;
    }
    for k in 0..count / 32 {
        let start = 32 * k;
        row.lanes(start, &mut out[start..start + 32]);
    }
    write_last(row, out);
}
