//! The delays of a table that age with the table's graphs.
ghost use Rattle.std.specs.Prelude.{◌≡◌, [], ◌∷◌, ◌++◌, filter, IfOk, IfErr, OnOk, OnErr};
ghost use Rattle.vx_base.specs.declared.kind.Kind.TheVariants as kind;
ghost use Rattle.object_table.specs.declared.fault.TableFault.TheVariants.{NoMemory};
ghost use Rattle.object_table.specs.Ageing.{is_there, with_registration, aged_under};
ghost use Rattle.object_table.specs.Context.{with_objects};
ghost use Rattle.object_table.specs.Table.{IsUnder, graph_under};

use crate::fault::TableFault;
use crate::table::Table;

impl Table {
    /// Returns whether an object is held under this name: the name is live, or a node uses the
    /// object.
    pub fn is_held(&self, name: u32) -> bool
        ensures { result ≡ is_there self.now.objects name }
    {
        self.entries.contains_key(&name)
    }

    /// Registers a delay with the graph of this name: from now on the delay ages after each run of
    /// the graph. If the delay is registered already, nothing changes. Otherwise the call also ends
    /// the graph's registrations of delays that are no longer held. `NoMemory`: the allocation
    /// failed, and nothing has changed.
    pub fn register(&mut self, graph: u32, delay: u32) -> Result<(), TableFault>
        requires { IsUnder self.old.objects kind.Graph graph }
        ensures ok { OnOk result (self.new
            ≡ with_objects self.old (with_registration self.old.objects graph
            (graph_under self.old.objects graph) delay)) }
        ensures fault { IfErr result (λ fault. fault ≡ NoMemory) }
        ensures err { OnErr result (self.new ≡ self.old) }
    {
        let found = self.graph(graph);
        if found.is_registered(delay) {
            return Ok(());
        }
        let delays = self.held_and(found.delays(), delay)?;
        let Some(entry) = self.entries.get_mut(&graph) else {
            unreachable!()
        };
        entry.object.set_delays(delays);
        Ok(())
    }

    /// Returns those of `names` under which an object is held, followed by `name`. `NoMemory`: the
    /// allocation failed.
    fn held_and(&self, names: &[u32], name: u32) -> Result<Vec<u32>, TableFault>
        ensures value { IfOk result (λ held. held.items
            ≡ filter (is_there self.now.objects) names.now ++ name ∷ []) }
        ensures fault { IfErr result (λ fault. fault ≡ NoMemory) }
    {
        let Ok(mut held) = names.to_vec(self.alloc) else {
            return Err(TableFault::NoMemory);
        };
        held.retain(|name| self.is_held(*name));
        match held.push(name) {
            Ok(()) => Ok(held),
            Err(_) => Err(TableFault::NoMemory),
        }
    }

    /// Ages each delay that is registered with the graph of this name and is still held. Allocates
    /// nothing.
    pub fn age_registered(&mut self, graph: u32)
        requires { IsUnder self.old.objects kind.Graph graph }
        ensures { self.new ≡ with_objects self.old
            (aged_under (graph_under self.old.objects graph).delays self.old.objects) }
    {
        let count = self.graph(graph).delays().len();
        for k in 0..count {
            let name = self.graph(graph).delays()[k];
            self.age_if_held(name);
        }
    }

    /// Ages the delay that is held under this name, if there is one.
    fn age_if_held(&mut self, name: u32)
        ensures { self.new ≡ with_objects self.old (aged_under (name ∷ []) self.old.objects) }
    {
        let Some(entry) = self.entries.get_mut(&name) else {
            return;
        };
        entry.object.age();
    }
}
