//! Worked examples: programs in bands.
ghost use Rattle.graph_steps.specs.Examples.{boxes, box_planes, box_tallies};
ghost use Rattle.graph_steps.specs.Examples.{no_tables, sums, sums_planes};
ghost use Rattle.graph_steps.specs.Planes.{block_images};
ghost use Rattle.graph_steps.specs.Program.{IsProgram};
ghost use Rattle.graph_steps.specs.Runs.{CanReduceBand};

/// Two box filters in sequence over images of four rows can run in bands of two rows. The virtual
/// image between the filters is also reduced to its extremes.
pub fn two_boxes()
    ensures program { IsProgram no_tables 4 2 1 boxes box_planes }
    ensures reduces { CanReduceBand no_tables 0 boxes (block_images box_planes) box_tallies }
{}

/// An integral image of four rows can be computed in bands of two rows. The second band continues
/// from the last row of the first.
pub fn integral_image()
    ensures { IsProgram no_tables 4 2 0 sums sums_planes }
{}
