//! The tallies of a graph. They are created for objects of a table, and written to these objects.
ghost use Rattle.std.specs.Prelude.{◌≡◌, ◌≢◌, ◌∷◌, ◌++◌, [], unwrap_or, IfOk, OnOk};
ghost use Rattle.vx_base.specs.declared.kind.Kind.TheVariants as kind;
ghost use Rattle.vx_base.specs.Function.{parameters};
ghost use Rattle.vx_base.specs.Object.{no_extremes, object_kind};
ghost use Rattle.object_table.specs.Context.{with_objects};
ghost use Rattle.object_table.specs.NamedObject.{with_object, with_written};
ghost use Rattle.object_table.specs.Object.{distribution_value};
ghost use Rattle.object_table.specs.Table.{cell_object};
ghost use Rattle.graph_run.specs.Bound.{AreTalliesFor, IsTallyFor, KeepTallies, KeepsTally};
ghost use Rattle.graph_run.specs.Program.{node_tallies, tallies_of, tally_by};
ghost use Rattle.graph_run.specs.Results.{tally_cell, tally_cells, tally_object, tally_objects};
ghost use Rattle.graph_run.specs.Turns.{HoldsKind};

use graph_steps::{Histogram, Tally};
use object_table::{Content, Distribution, Object, Table};
use std::alloc::{AllocError, Global};
use vx_base::{Bins, Extremes, Kind, Node, ObjRef};

/// Returns references to the distributions and extremes that nodes write, in the order of the
/// nodes.
pub fn tally_cells(alloc: Global, steps: &[Node]) -> Result<Vec<ObjRef>, AllocError>
    ensures { IfOk result (λ cells. cells.items ≡ tally_cells steps.now) }
{
    let mut cells = Vec::new(alloc);
    for at in 0..steps.len() {
        add_tally_cell(&mut cells, &steps[at])?;
    }
    Ok(cells)
}

/// Adds to `cells` the reference to the distribution or extremes that a node writes, if it writes
/// either.
fn add_tally_cell(cells: &mut Vec<ObjRef>, node: &Node) -> Result<(), AllocError>
    ensures { OnOk result (cells.new.items
        ≡ cells.old.items ++ tally_cell (parameters node.now.function).output node.now) }
{
    match node.function.parameters().output {
        Kind::Image => Ok(()),
        _ => {
            cells.push(node.out1.unwrap_or(node.in1))?;
            Ok(())
        }
    }
}

/// Clears the list and adds an empty tally for each node that writes a distribution or extremes.
pub fn begin_tallies(
    tallies: &mut Vec<Tally>,
    table: &Table,
    steps: &[Node],
) -> Result<(), AllocError>
    requires { KeepTallies table.now.objects steps.now }
    ensures { OnOk result (tallies.new.items ≡ tallies_of table.now.objects steps.now) }
{
    tallies.clear();
    for at in 0..steps.len() {
        add_tally(tallies, table, &steps[at])?;
    }
    Ok(())
}

/// Adds an empty tally for a node, if the node writes a distribution or extremes.
fn add_tally(tallies: &mut Vec<Tally>, table: &Table, node: &Node) -> Result<(), AllocError>
    requires { KeepsTally table.now.objects (parameters node.now.function).output
        (unwrap_or node.now.out1 node.now.in1) }
    ensures { OnOk result (tallies.new.items
        ≡ tallies.old.items ++ node_tallies table.now.objects node.now) }
{
    let cell = node.out1.unwrap_or(node.in1);
    match node.function.parameters().output {
        Kind::Image => Ok(()),
        wanted => {
            tallies.push(tally_for(table, wanted, cell))?;
            Ok(())
        }
    }
}

/// Returns an empty tally for the object that a reference names: a histogram with the object's bins
/// if the object is a distribution, else extremes.
pub fn tally_for(table: &Table, wanted: Kind, cell: ObjRef) -> Tally
    requires keeps { KeepsTally table.now.objects wanted cell }
    requires other { wanted ≢ kind.Image }
    ensures { tally_by wanted (cell_object table.now.objects cell) ≡ result ∷ [] }
{
    match wanted {
        Kind::Distribution => Tally::Histogram(Histogram::new(bins_of(table, cell))),
        _ => Tally::Extremes(no_extremes()),
    }
}

/// Returns the bins of a distribution.
fn bins_of(table: &Table, cell: ObjRef) -> Bins
    requires { HoldsKind table.now.objects (cell, kind.Distribution) }
    ensures { result ≡ (distribution_value (cell_object table.now.objects cell)).bins }
{
    match table.get_held(cell.name()) {
        Some(object) => distribution_of(object).bins(),
        None => unreachable!(),
    }
}

/// Returns an object as a distribution.
fn distribution_of(object: &Object) -> &Distribution
    requires { object_kind object.now ≡ kind.Distribution }
    ensures { result.now ≡ distribution_value object.now }
{
    match object.content() {
        Content::Distribution(distribution) => distribution,
        _ => unreachable!(),
    }
}

/// Returns empty extremes, to which no sample was added.
fn no_extremes() -> Extremes
    ensures { result ≡ no_extremes }
{
    Extremes {
        min: 0,
        max: 0,
        min_count: 0,
        max_count: 0,
        min_at: (0, 0),
        max_at: (0, 0),
    }
}

/// Writes tallies to objects of the table: for each reference of `cells`, the tally at the same
/// index.
pub fn set_tallies(table: &mut Table, cells: &[ObjRef], tallies: &[Tally])
    requires { AreTalliesFor table.old.objects cells.now tallies.now }
    ensures { table.new ≡ with_objects table.old
        (with_written table.old.objects (tally_objects cells.now tallies.now)) }
{
    for at in 0..cells.len() {
        set_tally(table, cells[at], &tallies[at]);
    }
}

/// Writes a tally to an object of the table.
pub fn set_tally(table: &mut Table, cell: ObjRef, tally: &Tally)
    requires { IsTallyFor table.old.objects cell tally.now }
    ensures { table.new ≡ with_objects table.old
        (with_object table.old.objects cell (tally_object tally.now)) }
{
    match tally {
        Tally::Histogram(histogram) => table.set_counts(cell.name(), histogram.counts()),
        Tally::Extremes(extremes) => table.set_extremes(cell.name(), *extremes),
    }
}
