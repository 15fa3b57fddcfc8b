//! Window functions in two passes: down each column of three rows, and then across the results of
//! three neighbouring columns.
ghost use Rattle.std.specs.Prelude.{◌≡◌, ℤ, List, [], ◌∷◌};
ghost use Rattle.window_kernels.specs.ByColumns.{AreBytesTaken};

use crate::windows::{OfWindow, SampleItem};
use lane_rows::{Item, OfColumn, ThreeItems};

/// A function across the results of `D` for three neighbouring columns.
pub trait Across<S: Item, T: Item, D: OfColumn<u8, S>>: OfColumn<S, T> {
    /// The combined function of the nine samples, in row-major order.
    ghost of_nine: { List ℤ → ℤ };

    ghost is_of_nine: { (a b c d e f g h i : ℤ) →
        Self.formula (D.formula a d g) (D.formula b e h) (D.formula c f i)
        ≡ of_nine (a ∷ b ∷ c ∷ d ∷ e ∷ f ∷ g ∷ h ∷ i ∷ []) };

    ghost takes_bytes: { AreBytesTaken D.takes Self.takes D.formula };
}

/// A window function made of a function down the columns and a function across their results.
#[derive(Drop)]
pub struct ByColumns<D, A>(pub D, pub A);

impl<S: Item, T: SampleItem, D: OfColumn<u8, S>, A: Across<S, T, D>> OfWindow<T, S>
    for ByColumns<D, A> {
    ghost formula = { λ _. A.of_nine };

    ghost scratch_rows = { 1 };

    fn item(&self, above: ThreeItems, here: ThreeItems, below: ThreeItems) -> T {
        A::item(
            D::item(above.0, here.0, below.0),
            D::item(above.1, here.1, below.1),
            D::item(above.2, here.2, below.2),
        )
    }

    fn write_row(&self, above: &[u8], here: &[u8], below: &[u8], scratch: &mut [S], out: &mut [T]) {
        let (count, columns) = (out.len(), &mut scratch[..above.len()]);
        D::write(above, here, below, columns);
        A::write(
            &columns[0..count],
            &columns[1..count + 1],
            &columns[2..count + 2],
            out,
        );
    }
}
