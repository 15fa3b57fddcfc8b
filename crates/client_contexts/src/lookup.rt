//! Finds objects by reference or by name, and the operands of nodes.
#![tactic(auto, using(crate::proofs::LookupLemmas::refusal_steps))]

ghost use Rattle.std.specs.Prelude.{◌≡◌, ◌∷◌, [], is_some, Some, Ok, Err, IsTrue, All, IfOk, IfErr};
ghost use Rattle.std.specs.Prelude.{OnOk};
ghost use Rattle.std.specs.List.{list_any};
ghost use Rattle.std.specs.Option.{option_map};
ghost use Rattle.vx_base.specs.declared.kind.Kind.TheVariants as kind;
ghost use Rattle.vx_base.specs.Node.{operands, with_kind};
ghost use Rattle.vx_base.specs.Object.{same_kind};
ghost use Rattle.vx_base.specs.Reference.{reference_to};
ghost use Rattle.object_table.specs.Context.{object_named};
ghost use Rattle.object_table.specs.Delay.{in_slot};
ghost use Rattle.object_table.specs.Table.{IsUnder};
ghost use Rattle.graph_verify.specs.Operand.{operands_of, is_virtual};
ghost use Rattle.graph_run.specs.Operands.{operand_held};
ghost use Rattle.client_model.specs.Operands.{is_kind, operands_refusal, image_of};
ghost use Rattle.client_model.specs.States.{holds_operand};
ghost use Rattle.client_contexts.specs.Lookup.{Found, IsNamed, IsImageOf, IsFound};
ghost use Rattle.client_contexts.specs.Steps.{refusal_in, name_refusal, is_outside, slot_refusal};
ghost use Rattle.client_contexts.specs.Steps.{first_class, all_operands};

use client_model::Refusal;
use graph_run::operand_in;
use graph_verify::{Operand, Operands};
use object_table::{Content, Object, Stored, Table};
use vx_base::{Kind, Node, ObjRef};

/// Returns whether a kind is the wanted one.
fn same_kind(wanted: Kind, kind: Kind) -> bool
    ensures { result ≡ same_kind wanted kind }
{
    kind == wanted
}

/// Returns whether a kind is given, and is accepted where the wanted kind is expected. A virtual
/// image is accepted as an image.
fn is_kind(wanted: Kind, kind: Option<Kind>) -> bool
    ensures { result ≡ is_kind wanted kind }
{
    match kind {
        None => false,
        Some(Kind::VirtualImage) if wanted == Kind::Image => true,
        Some(kind) => same_kind(wanted, kind),
    }
}

/// Returns whether an object is outside the scope of a graph: the object is a virtual image of
/// another graph. `scope` is the graph's name. Without a scope, no object is outside.
fn is_outside(object: &Object, slot: Option<u8>, scope: Option<u32>) -> bool
    ensures { result ≡ is_outside scope (in_slot slot object.now) }
{
    match (slot, scope, object.content()) {
        (None, Some(graph), Content::Virtual(image)) => image.graph != graph,
        _ => false,
    }
}

/// Returns the reason, if any, why an object, or the image in one of its slots, can't be used.
fn slot_refusal(
    object: &Object,
    slot: Option<u8>,
    kind: Kind,
    scope: Option<u32>,
) -> Option<Refusal>
    ensures { result ≡ slot_refusal kind scope slot object.now }
{
    if !is_kind(kind, object.slot_kind(slot)) {
        Some(Refusal::InvalidType)
    } else if is_outside(object, slot, scope) {
        Some(Refusal::InvalidScope)
    } else if object.has_slot(slot) {
        None
    } else {
        Some(Refusal::InvalidValue)
    }
}

/// Returns the object with a reference's name (the delay, if the reference has a slot). Refused if
/// the name isn't live, if the slot doesn't exist, or if the cell isn't of the wanted kind. If
/// `scope` is a graph's name, a virtual image of another graph is also refused.
pub fn find(
    table: &Table,
    reference: ObjRef,
    kind: Kind,
    scope: Option<u32>,
) -> Result<&Object, Refusal>
    ensures ok { IfOk result (λ object. Found table.now.objects reference kind object.now) }
    ensures err { refusal_in result ≡ operands_refusal scope table.now.objects
        ((reference, kind) ∷ []) }
{
    let Ok(object) = table.get(reference.name()) else {
        return Err(Refusal::InvalidReference);
    };
    match slot_refusal(object, reference.slot(), kind, scope) {
        None => Ok(object),
        Some(refusal) => Err(refusal),
    }
}

/// Returns the object with this name. Refused if the name isn't live, or if its object isn't of the
/// wanted kind.
pub fn find_named(table: &Table, name: u32, kind: Kind) -> Result<&Object, Refusal>
    ensures ok { IfOk result (λ object. IsNamed table.now.objects name kind object.now) }
    ensures err { refusal_in result ≡ name_refusal kind (object_named table.now.objects name) }
{
    let Ok(object) = table.get(name) else {
        return Err(Refusal::InvalidReference);
    };
    if same_kind(kind, object.kind()) {
        Ok(object)
    } else {
        Err(Refusal::InvalidType)
    }
}

/// Returns the image that a reference names. A virtual image is refused, since it has no samples.
pub fn find_image(table: &Table, reference: ObjRef) -> Result<&Stored, Refusal>
    ensures ok { IfOk result (λ image. IsImageOf table.now.objects reference image.now) }
    ensures err { IfErr result (λ refusal. image_of table.now.objects reference ≡ Err refusal) }
{
    let object = find(table, reference, Kind::Image, None)?;
    match object.content() {
        Content::Virtual(_) => Err(Refusal::OptimizedAway),
        _ => Ok(object.image(reference.slot())),
    }
}

/// Returns the operand that a reference names. Refused as in `find`.
fn find_operand(
    table: &Table,
    cell: ObjRef,
    kind: Kind,
    scope: Option<u32>,
) -> Result<Operand, Refusal>
    ensures ok { IfOk result (λ operand. operand ≡ operand_held table.now.objects cell) }
    ensures found { OnOk result (IsFound table.now.objects (cell, kind)) }
    ensures err { refusal_in result ≡ operands_refusal scope table.now.objects ((cell, kind) ∷ []) }
{
    let object = find(table, cell, kind, scope)?;
    match operand_in(object, cell.slot()) {
        Some(operand) => Ok(operand),
        None => unreachable!(),
    }
}

/// Returns the operand that a reference of a node names, or `None` without a reference. Refused as
/// in `find`.
fn find_if_given(
    table: &Table,
    cell: Option<ObjRef>,
    kind: Kind,
    scope: Option<u32>,
) -> Result<Option<Operand>, Refusal>
    ensures ok { IfOk result (λ operand. operand
        ≡ option_map (operand_held table.now.objects) cell) }
    ensures found { OnOk result (All (IsFound table.now.objects) (with_kind kind cell)) }
    ensures err { refusal_in result ≡ operands_refusal scope table.now.objects
        (with_kind kind cell) }
{
    match cell {
        Some(cell) => Ok(Some(find_operand(table, cell, kind, scope)?)),
        None => Ok(None),
    }
}

/// Returns whichever of two refusals comes first in this order: InvalidReference, InvalidType,
/// InvalidScope, InvalidValue.
fn first_class(one: Refusal, other: Refusal) -> Refusal
    ensures { Some result ≡ first_class (Some one) (Some other) }
{
    match (one, other) {
        (Refusal::InvalidReference, _) | (_, Refusal::InvalidReference) => {
            Refusal::InvalidReference
        }
        (Refusal::InvalidType, _) | (_, Refusal::InvalidType) => Refusal::InvalidType,
        (Refusal::InvalidScope, _) => Refusal::InvalidScope,
        (_, other) => other,
    }
}

/// Returns both values, or a refusal. Of two refusals, returns the one that comes first in the
/// order of `first_class`.
fn both<A: Drop, B: Drop>(
    one: Result<A, Refusal>,
    other: Result<B, Refusal>,
) -> Result<(A, B), Refusal>
    ensures ok { IfOk result (λ pair. (one ≡ Ok pair.0) × (other ≡ Ok pair.1)) }
    ensures err { refusal_in result ≡ first_class (refusal_in one) (refusal_in other) }
{
    match (one, other) {
        (Ok(one), Ok(other)) => Ok((one, other)),
        (Ok(_), Err(refusal)) | (Err(refusal), Ok(_)) => Err(refusal),
        (Err(one), Err(other)) => Err(first_class(one, other)),
    }
}

/// Returns a node's operands, each of the kind that the node's function expects. `scope` is the
/// node's graph, or `None` for an immediate node.
pub fn find_operands(table: &Table, node: &Node, scope: Option<u32>) -> Result<Operands, Refusal>
    ensures ok { IfOk result (λ found. found
        ≡ operands_of (operand_held table.now.objects) node.now) }
    ensures found { OnOk result (All (IsFound table.now.objects) (operands node.now)) }
    ensures err { refusal_in result ≡ operands_refusal scope table.now.objects (operands node.now) }
{
    let parameters = node.function.parameters();
    let second = parameters.second_input.unwrap_or(Kind::Image);
    let in1 = find_operand(table, node.in1, Kind::Image, scope);
    let in2 = find_if_given(table, node.in2, second, scope);
    let out1 = find_if_given(table, node.out1, parameters.output, scope);
    let out2 = find_if_given(table, node.out2, parameters.output, scope);
    let ((in1, in2), (out1, out2)) = both(both(in1, in2), both(out1, out2))?;
    Ok(Operands {
        in1,
        in2,
        out1,
        out2,
    })
}

/// Checks that a graph exists, and that each operand of a node is found in the graph's scope. Of
/// several refusals, returns the one that comes first in the order of `first_class`.
pub fn find_graph_for(table: &Table, graph: u32, node: &Node) -> Result<(), Refusal>
    ensures ok { OnOk result (IsTrue (is_some (object_named table.now.objects graph)) ×
        IsUnder table.now.objects kind.Graph graph) }
    ensures operands { OnOk result
        (All (λ operand. IsTrue (holds_operand table.now.objects graph operand))
        (operands node.now)) }
    ensures err { refusal_in result ≡ operands_refusal (Some graph) table.now.objects
        ((reference_to graph, kind.Graph) ∷ operands node.now) }
{
    let found = find_operand(table, ObjRef::new(graph, None), Kind::Graph, Some(graph));
    let operands = find_operands(table, node, Some(graph));
    both(found, operands)?;
    Ok(())
}

/// Returns whether one of a node's operands is a virtual image.
pub fn has_virtual(operands: &Operands) -> bool
    ensures { result ≡ list_any is_virtual (all_operands operands.now) }
{
    operands.in1.is_virtual()
        || operands.in2.is_some_and(|operand| operand.is_virtual())
        || operands.out1.is_some_and(|operand| operand.is_virtual())
        || operands.out2.is_some_and(|operand| operand.is_virtual())
}
