//! Histograms of rows of bytes. The loops are plain, since `std::simd` can't add to counts at 32
//! different indices.
ghost use Rattle.std.specs.Prelude.{◌≡◌, ◌==◌, ◌+◌, ◌<◌, ◌^◌, ℕ, pos, if◌then◌else◌, map, length};
ghost use Rattle.std.specs.Prelude.{slice_index, unsigned_abs};
ghost use Rattle.std.specs.List.{All};
ghost use Rattle.lane_rows.specs.Tallies.{count_at, count_in_all};

/// Adds one to the count of a value.
fn count_one(counts: &mut [u32; 256], value: u8)
    requires { slice_index counts.old value + 1 < 2 ^ 32 }
    ensures { (v : ℕ) → slice_index counts.new v
        ≡ slice_index counts.old v + (if value == v then 1 else 0) }
{
    counts[usize::from(value)] += 1;
}

/// Adds the histogram of a row to the counts. The count of a value is the sum of its entries in the
/// four arrays. Except at the row's end, successive items are counted in different arrays, so that
/// equal neighbours don't wait for each other.
#[tactic(auto, using(crate::proofs::TallyLaws::tallies))]
pub fn tally_row(
    row: &[u8],
    first: &mut [u32; 256],
    second: &mut [u32; 256],
    third: &mut [u32; 256],
    fourth: &mut [u32; 256],
)
    requires room { (v : ℕ) → count_in_all first.old second.old third.old fourth.old v
        + length row.now < 2 ^ 32 }
    ensures counted { (v : ℕ) → count_in_all first.new second.new third.new fourth.new v
        ≡ count_in_all first.old second.old third.old fourth.old v + count_at v (map pos row.now) }
    ensures bytes { All (λ z. unsigned_abs z < 256) (map pos row.now) }
{
    let fours = row.len() / 4;
    for k in 0..fours {
        count_one(first, row[4 * k]);
        count_one(second, row[4 * k + 1]);
        count_one(third, row[4 * k + 2]);
        count_one(fourth, row[4 * k + 3]);
    }
    for i in 4 * fours..row.len() {
        count_one(first, row[i]);
    }
}
