//! Worked examples: runs of small graphs.
ghost use Rattle.std.specs.Prelude.{◌≡◌, [], ◌∷◌};
ghost use Rattle.vx_base.specs.declared.format.Format.TheVariants.{U8};
ghost use Rattle.graph_verify.specs.declared.operand.Operand.TheVariants.{Image};
ghost use Rattle.graph_verify.specs.Examples.{accumulate_to, convert_to, not_to};
ghost use Rattle.graph_run.specs.Graph.{run_of_graph};
ghost use Rattle.graph_run.specs.Examples.{pixel, short_pixel, open_image};

/// A run of two nodes: Bitwise Not from image 1 to virtual image 2, and from image 2 to image 3.
/// After the run image 3 equals image 1, in whichever order the nodes were added. Virtual image 2
/// is as it was before the run.
pub fn two_nodes()
    ensures in_order { run_of_graph (λ _. Image (record { width = 1; height = 1; format = U8 }))
        (not_to 1 2 ∷ not_to 2 3 ∷ []) (pixel 1 10 ∷ open_image 2 ∷ pixel 3 0 ∷ [])
        ≡ (pixel 1 10 ∷ open_image 2 ∷ pixel 3 10 ∷ []) }
    ensures turned { run_of_graph (λ _. Image (record { width = 1; height = 1; format = U8 }))
        (not_to 2 3 ∷ not_to 1 2 ∷ []) (pixel 1 10 ∷ open_image 2 ∷ pixel 3 0 ∷ [])
        ≡ (pixel 1 10 ∷ open_image 2 ∷ pixel 3 10 ∷ []) }
{}

/// One node accumulates 10 into an image that holds 5, and another node converts the sum: both
/// outputs hold 15. After a second run, with the nodes added in the opposite order, both outputs
/// hold 25.
pub fn sums()
    ensures in_order { run_of_graph (λ _. Image (record { width = 1; height = 1; format = U8 }))
        (accumulate_to 1 2 ∷ convert_to 2 3 ∷ [])
        (pixel 1 10 ∷ short_pixel 2 5 ∷ pixel 3 0 ∷ [])
        ≡ (pixel 1 10 ∷ short_pixel 2 15 ∷ pixel 3 15 ∷ []) }
    ensures turned { run_of_graph (λ _. Image (record { width = 1; height = 1; format = U8 }))
        (convert_to 2 3 ∷ accumulate_to 1 2 ∷ [])
        (pixel 1 10 ∷ short_pixel 2 15 ∷ pixel 3 15 ∷ [])
        ≡ (pixel 1 10 ∷ short_pixel 2 25 ∷ pixel 3 25 ∷ []) }
{}
