//! The graphs of a table, whose nodes use the table's objects.
ghost use Rattle.std.specs.Prelude.{◌≡◌, ◌*◌, ◌<◌, ◌≤◌, true, map, not, if◌then◌else◌, IsTrue};
ghost use Rattle.std.specs.Prelude.{is_some, is_none, All, Some, Ok, Err, IfOk, IfErr, OnOk, OnErr};
ghost use Rattle.std.specs.Result.{is_err};
ghost use Rattle.std.specs.List.{flat_map};
ghost use Rattle.std.specs.Option.{option_map};
ghost use Rattle.std.specs.Ordering.{nat_cmp};
ghost use Rattle.std.specs.Map.{lookup, remove_entry};
ghost use Rattle.std.specs.BTreeMap.{is_at};
ghost use Rattle.vx_base.specs.declared.kind.Kind.TheVariants as kind;
ghost use Rattle.vx_base.specs.Graph.{can_add, with_node, has_node, without_node};
ghost use Rattle.vx_base.specs.Node.{optional_cells};
ghost use Rattle.vx_base.specs.Object.{object_kind};
ghost use Rattle.graph_verify.specs.declared.fault.GraphFault.TheVariants as graph_fault;
ghost use Rattle.object_table.specs.declared.fault.TableFault.TheVariants.{InvalidReference};
ghost use Rattle.object_table.specs.Blocks.{blocks_in, LendsAtLeast, Balances};
ghost use Rattle.object_table.specs.Context.{object_named, charge_of, with_objects, with_graph};
ghost use Rattle.object_table.specs.Holds.{still_held, without_name};
ghost use Rattle.object_table.specs.NamedObject.{object_held};
ghost use Rattle.object_table.specs.Table.{IsUnder, graph_under, entry_object, nodes_at, used_more};
ghost use Rattle.object_table.specs.Table.{used_less, entries_without_name, is_kept, kept_entries};
ghost use Rattle.object_table.specs.Uses.{used_names};
ghost use Rattle.vx_base.specs.declared.desc.TheConstants.{GREATEST_BYTES};
ghost use Rattle.vx_base.specs.declared.slots.TheConstants.{GREATEST_SLOTS};
ghost use Rattle.object_table.specs.declared.table.TheConstants.{GREATEST_OBJECTS};

use crate::fault::TableFault;
use crate::table::{Entry, Table};
use graph_verify::{Graph, GraphFault};
use pixel_pool::Pool;
use std::collections::BTreeMap;
use vx_base::{Kind, Node, NodeSpec, Numbered, ObjRef};

impl Table {
    /// Returns the graph under a name.
    pub fn graph(&self, name: u32) -> &Graph
        requires { IsUnder self.now.objects kind.Graph name }
        ensures { result.now ≡ graph_under self.now.objects name }
    {
        match self.entries.get(&name) {
            Some(entry) => entry.object.graph(),
            None => unreachable!(),
        }
    }

    /// Adds a node to the unreleased graph of this name, and returns the node's number. The node's
    /// operands must be held; they then stay held as long as the node exists. A fault changes
    /// nothing. `NoResources`: the graph can't take another node. `NoMemory`: the allocation
    /// failed.
    pub fn add_node(&mut self, graph: u32, node: NodeSpec) -> Result<u32, GraphFault>
        requires graph { IsUnder self.old.objects kind.Graph graph }
        requires live { IsTrue (is_some (object_named self.old.objects graph)) }
        requires held { All (λ name. IsTrue (is_some (object_held self.old.objects name)))
            (used_names node) }
        ensures number { IfOk result (λ number. number
            ≡ (graph_under self.old.objects graph).next) }
        ensures ok { OnOk result (self.new
            ≡ with_objects self.old (with_graph self.old.objects graph
            (with_node (graph_under self.old.objects graph) node))) }
        ensures capacity { OnOk result (IsTrue (can_add (graph_under self.old.objects graph))) }
        ensures fault { IfErr result (λ fault. fault
            ≡ (if can_add (graph_under self.old.objects graph)
            then graph_fault.NoMemory else graph_fault.NoResources)) }
        ensures err { OnErr result (self.new ≡ self.old) }
    {
        let Some(entry) = self.entries.get_mut(&graph) else {
            unreachable!()
        };
        let number = entry.object.add_node(node)?;
        begin_uses(&mut self.entries, &node.node());
        Ok(number)
    }

    /// Removes the node of this number from the unreleased graph of this name. Objects that then
    /// have neither a live name nor a use are dropped, and their blocks go back to the pool.
    /// Allocates nothing. `InvalidReference`: the graph has no such node.
    pub fn remove_node(
        &mut self,
        graph: u32,
        number: u32,
        pool: &mut Pool,
    ) -> Result<(), GraphFault>
        requires owns { LendsAtLeast pool.old (blocks_in self.old.objects) }
        requires graph { IsUnder self.old.objects kind.Graph graph }
        requires live { IsTrue (is_some (object_named self.old.objects graph)) }
        ensures ok { OnOk result (self.new
            ≡ with_objects self.old (still_held
            (with_graph self.old.objects graph
            (without_node (graph_under self.old.objects graph) number)))) }
        ensures missing { is_err result ≡ not
            (has_node (graph_under self.old.objects graph) number) }
        ensures fault { IfErr result (λ fault. fault ≡ graph_fault.InvalidReference) }
        ensures err { OnErr result (self.new ≡ self.old) }
        ensures balances { Balances pool.old pool.new self.old.objects self.new.objects }
    {
        let Some(entry) = self.entries.get_mut(&graph) else {
            unreachable!()
        };
        let node = entry.object.remove_node(number)?;
        self.charge = end_uses(&mut self.entries, self.charge, &node.node(), pool);
        Ok(())
    }

    /// Releases a name. If the name is a graph's, the graph's nodes no longer use their operands.
    /// Objects that then have neither a live name nor a use are dropped, and their blocks go back
    /// to the pool. Allocates nothing. `InvalidReference`: the name isn't live.
    pub fn release(&mut self, name: u32, pool: &mut Pool) -> Result<(), TableFault>
        requires { LendsAtLeast pool.old (blocks_in self.old.objects) }
        ensures result { result ≡ (if is_none (object_named self.old.objects name)
            then Err InvalidReference else Ok tt) }
        ensures ok { OnOk result (self.new
            ≡ with_objects self.old (still_held (without_name self.old.objects name))) }
        ensures err { OnErr result (self.new ≡ self.old) }
        ensures balances { Balances pool.old pool.new self.old.objects self.new.objects }
    {
        let Some(entry) = self.entries.get(&name) else {
            return Err(TableFault::InvalidReference);
        };
        if !entry.live {
            return Err(TableFault::InvalidReference);
        }
        if let Kind::Graph = entry.object.kind() {
            self.charge = end_all_uses(&mut self.entries, self.charge, name, pool);
        }
        self.charge = end_name(&mut self.entries, self.charge, name, pool);
        Ok(())
    }
}

/// Adds one use for each operand of a node.
fn begin_uses(entries: &mut BTreeMap<u32, Entry>, node: &Node)
    requires { All (λ e. e.1.uses ≤ GREATEST_OBJECTS * GREATEST_OBJECTS) entries.old.entries }
    ensures { entries.new.entries ≡ used_more (used_names node.now) entries.old.entries }
{
    begin_use(entries, Some(node.in1));
    begin_use(entries, node.in2);
    begin_use(entries, node.out1);
    begin_use(entries, node.out2);
}

/// Adds one use for an operand of a node. `None` stands for an operand that the node lacks.
fn begin_use(entries: &mut BTreeMap<u32, Entry>, operand: Option<ObjRef>)
    requires { All (λ e. e.1.uses < 4294967295) entries.old.entries }
    ensures { entries.new.entries ≡ used_more (map (λ cell. cell.name) (optional_cells operand))
        entries.old.entries }
{
    if let Some(cell) = operand {
        if let Some(entry) = entries.get_mut(&cell.name()) {
            entry.uses += 1;
        }
    }
}

/// Removes one use for each operand of a node. Objects that then have neither a live name nor a use
/// are dropped. Returns the charge of the remaining objects.
#[tactic(auto, using(crate::proofs::KeptLemmas::end_steps))]
fn end_uses(entries: &mut BTreeMap<u32, Entry>, charge: u64, node: &Node, pool: &mut Pool) -> u64
    requires held { All (λ e. IsTrue (is_kept e)) entries.old.entries }
    requires charge { charge ≡ charge_of (map entry_object entries.old.entries) }
    requires owns { LendsAtLeast pool.old (blocks_in (map entry_object entries.old.entries)) }
    ensures entries { entries.new.entries
        ≡ kept_entries (used_less (used_names node.now) entries.old.entries) }
    ensures charge { result ≡ charge_of (map entry_object entries.new.entries) }
    ensures balances { Balances pool.old pool.new
        (map entry_object entries.old.entries) (map entry_object entries.new.entries) }
{
    let charge = end_use(entries, charge, Some(node.in1), pool);
    let charge = end_use(entries, charge, node.in2, pool);
    let charge = end_use(entries, charge, node.out1, pool);
    end_use(entries, charge, node.out2, pool)
}

/// Removes one use for an operand of a node. `None` stands for an operand that the node lacks.
/// Drops objects and returns the charge as `end_uses` does.
#[tactic(auto, using(crate::proofs::KeptLemmas::end_steps))]
fn end_use(
    entries: &mut BTreeMap<u32, Entry>,
    charge: u64,
    operand: Option<ObjRef>,
    pool: &mut Pool,
) -> u64
    requires held { All (λ e. IsTrue (is_kept e)) entries.old.entries }
    requires charge { charge ≡ charge_of (map entry_object entries.old.entries) }
    requires owns { LendsAtLeast pool.old (blocks_in (map entry_object entries.old.entries)) }
    ensures entries { entries.new.entries
        ≡ kept_entries (used_less (map (λ cell. cell.name) (optional_cells operand))
        entries.old.entries) }
    ensures charge { result ≡ charge_of (map entry_object entries.new.entries) }
    ensures balances { Balances pool.old pool.new
        (map entry_object entries.old.entries) (map entry_object entries.new.entries) }
{
    let Some(cell) = operand else {
        return charge;
    };
    let name = cell.name();
    let Some(entry) = entries.get_mut(&name) else {
        return charge;
    };
    entry.uses = entry.uses.saturating_sub(1);
    if entry.live || entry.uses > 0 {
        return charge;
    }
    end_entry(entries, charge, name, pool)
}

/// Removes the uses by all nodes of the graph under a live name, as `end_uses` does for one node.
fn end_all_uses(entries: &mut BTreeMap<u32, Entry>, charge: u64, graph: u32, pool: &mut Pool) -> u64
    requires graph { option_map (λ e. object_kind e.object)
        (lookup (is_at (nat_cmp graph)) entries.old.entries) ≡ Some kind.Graph }
    requires live { option_map (λ e. e.live)
        (lookup (is_at (nat_cmp graph)) entries.old.entries) ≡ Some true }
    requires held { All (λ e. IsTrue (is_kept e)) entries.old.entries }
    requires charge { charge ≡ charge_of (map entry_object entries.old.entries) }
    requires owns { LendsAtLeast pool.old (blocks_in (map entry_object entries.old.entries)) }
    ensures entries { entries.new.entries
        ≡ kept_entries (used_less (flat_map used_names (nodes_at graph entries.old.entries))
        entries.old.entries) }
    ensures charge { result ≡ charge_of (map entry_object entries.new.entries) }
    ensures balances { Balances pool.old pool.new
        (map entry_object entries.old.entries) (map entry_object entries.new.entries) }
{
    let mut left = charge;
    let count = nodes_under(entries, graph).len();
    for k in 0..count {
        let node = nodes_under(entries, graph)[k].node;
        left = end_uses(entries, left, &node.node(), pool);
    }
    left
}

/// Marks a name as no longer live, and drops the object of the name if no node uses the object.
/// Returns the charge of the remaining objects.
#[tactic(auto, using(crate::proofs::KeptLemmas::end_steps))]
fn end_name(entries: &mut BTreeMap<u32, Entry>, charge: u64, name: u32, pool: &mut Pool) -> u64
    requires held { All (λ e. IsTrue (is_kept e)) entries.old.entries }
    requires charge { charge ≡ charge_of (map entry_object entries.old.entries) }
    requires owns { LendsAtLeast pool.old (blocks_in (map entry_object entries.old.entries)) }
    ensures entries { entries.new.entries ≡ kept_entries
        (entries_without_name name entries.old.entries) }
    ensures charge { result ≡ charge_of (map entry_object entries.new.entries) }
    ensures balances { Balances pool.old pool.new
        (map entry_object entries.old.entries) (map entry_object entries.new.entries) }
{
    let Some(entry) = entries.get_mut(&name) else {
        return charge;
    };
    entry.live = false;
    if entry.uses > 0 {
        return charge;
    }
    end_entry(entries, charge, name, pool)
}

/// Drops the object under a name. Returns the charge of the remaining objects.
#[tactic(auto, using(crate::proofs::KeptLemmas::end_steps))]
fn end_entry(entries: &mut BTreeMap<u32, Entry>, charge: u64, name: u32, pool: &mut Pool) -> u64
    requires charge { charge ≡ charge_of (map entry_object entries.old.entries) }
    requires owns { LendsAtLeast pool.old (blocks_in (map entry_object entries.old.entries)) }
    ensures entries { entries.new.entries
        ≡ remove_entry (is_at (nat_cmp name)) entries.old.entries }
    ensures charge { result ≡ charge_of (map entry_object entries.new.entries) }
    ensures balances { Balances pool.old pool.new
        (map entry_object entries.old.entries) (map entry_object entries.new.entries) }
{
    match entries.remove(&name) {
        Some(entry) => {
            let bytes = entry.object.bytes() as u64;
            entry.object.end(pool);
            charge - bytes
        }
        None => charge,
    }
}

/// Returns the nodes of the graph under a name.
fn nodes_under(entries: &BTreeMap<u32, Entry>, graph: u32) -> &[Numbered]
    requires { option_map (λ e. object_kind e.object)
        (lookup (is_at (nat_cmp graph)) entries.now.entries) ≡ Some kind.Graph }
    ensures { map (λ n. n.node) result.now ≡ nodes_at graph entries.now.entries }
{
    match entries.get(&graph) {
        Some(entry) => entry.object.graph().nodes(),
        None => unreachable!(),
    }
}
