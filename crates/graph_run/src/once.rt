//! Runs a single node on the objects of a table.
ghost use Rattle.std.specs.Prelude.{◌≡◌, ◌≢◌, map, All, IfSome, Some};
ghost use Rattle.std.specs.List.Sorted.{IsStrictlyIncreasing};
ghost use Rattle.std.specs.Option.{option_map};
ghost use Rattle.vx_base.specs.declared.kind.Kind.TheVariants as kind;
ghost use Rattle.vx_base.specs.declared.output.Output.{Output as OutputValue};
ghost use Rattle.vx_base.specs.Function.{parameters};
ghost use Rattle.vx_base.specs.Object.{IsObject};
ghost use Rattle.vx_base.specs.Outputs.{written_by};
ghost use Rattle.image_core.specs.Second.{second_object};
ghost use Rattle.object_table.specs.Context.{with_objects};
ghost use Rattle.object_table.specs.NamedObject.{object_at, with_written};
ghost use Rattle.object_table.specs.Table.{cell_object};
ghost use Rattle.graph_run.specs.Lasting.{Lasts};
ghost use Rattle.graph_run.specs.Steps.{HasInputs, RunsTo, with_output_object};
ghost use Rattle.graph_run.specs.Turns.{CanRunNow};

use crate::bind::{put_image, take_image};
use crate::tables::table_of;
use crate::tallies::{set_tally, tally_for};
use graph_steps::{Kernel, Step};
use image_core::{Band, SecondInput};
use object_table::Table;
use vx_base::{Kind, Node, ObjRef, Output};

/// Runs a node on the objects that it names. The node's verdict must be `None`. Allocates nothing.
#[tactic(auto, using(crate::proofs::OnceLemmas::both_outputs))]
pub fn run_once(table: &mut Table, node: &Node)
    requires objects { All (λ o. IsObject o.object) table.old.objects }
    requires names { IsStrictlyIncreasing (map (λ o. o.name) table.old.objects) }
    requires runs { CanRunNow table.old.objects node.now }
    ensures value { table.new ≡ with_objects table.old (with_written table.old.objects
        (written_by node.now (object_at table.old.objects))) }
    ensures lasts { Lasts table.old.objects table.new.objects }
{
    run_to(table, node, Output::First, node.out1);
    run_to(table, node, Output::Second, node.out2);
}

/// Writes one of a node's outputs, if the output is given.
fn run_to(table: &mut Table, node: &Node, which: Output, output: Option<ObjRef>)
    requires { IfSome output (RunsTo table.old.objects node.now) }
    ensures { table.new ≡ with_objects table.old
        (with_output_object table.old.objects node.now which output) }
{
    if let Some(output) = output {
        match node.function.parameters().output {
            Kind::Image => write_to(table, node, which, output),
            wanted => reduce_to(table, node, wanted, output),
        }
    }
}

/// Writes an output image. Meanwhile the image's samples are in a plane, and the node's inputs stay
/// in the table.
#[tactic(auto, using(crate::proofs::OnceLemmas::image_output))]
fn write_to(table: &mut Table, node: &Node, which: Output, output: ObjRef)
    requires runs { RunsTo table.old.objects node.now output }
    requires kind { (parameters node.now.function).output ≡ kind.Image }
    ensures { table.new ≡ with_objects table.old
        (with_output_object table.old.objects node.now which (Some output)) }
{
    let mut plane = take_image(table, output);
    let step = Step::of_lent(*node, which);
    let first = table.image(node.in1).image();
    let second = second_of(table, node);
    let kernel = Kernel {
        step: &step,
        first: &first,
        second: &second,
    };
    let rows = Band::whole(plane.desc());
    plane.write(&kernel, rows);
    put_image(table, output, &mut plane);
}

/// Returns a node's second input, in the form that the node's kernel reads.
fn second_of<'a>(table: &'a Table, node: &Node) -> SecondInput<'a>
    requires { HasInputs table.now.objects node.now }
    ensures { second_object result ≡ option_map (cell_object table.now.objects) node.now.in2 }
{
    let kind = node.function.parameters().second_input;
    match (node.in2, kind.unwrap_or(Kind::Image)) {
        (Some(cell), Kind::Image) => SecondInput::Image(table.image(cell).image()),
        _ => table_of(table, node),
    }
}

/// Writes an output that is a distribution or extremes: a tally of the first input.
#[tactic(auto, using(crate::proofs::OnceLemmas::reads, crate::proofs::OnceLemmas::is_for))]
fn reduce_to(table: &mut Table, node: &Node, wanted: Kind, output: ObjRef)
    requires runs { RunsTo table.old.objects node.now output }
    requires wanted { (parameters node.now.function).output ≡ wanted }
    requires other { wanted ≢ kind.Image }
    ensures { (which : OutputValue) → table.new ≡ with_objects table.old
        (with_output_object table.old.objects node.now which (Some output)) }
{
    let mut tally = tally_for(table, wanted, output);
    tally.add_all(&table.image(node.in1).image());
    set_tally(table, output, &tally);
}
