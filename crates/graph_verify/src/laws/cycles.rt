//! Laws of cycles.
ghost use Rattle.std.specs.Prelude.{◌≡◌, ◌↔◌, Bool, true, false, List};
ghost use Rattle.graph_verify.specs.Cycle.{HasCycle, has_cycle};
ghost use Rattle.graph_verify.specs.Order.{IsOrder};

/// `has_cycle` is true if and only if there is a cycle, for nodes of any type.
pub fn found_cycles<N>()
    ensures { (feeds : N → N → Bool) (nodes : List N) →
        (has_cycle feeds nodes ≡ true) ↔ HasCycle feeds nodes }
{}

/// If nodes can be put in an order in which each comes after all nodes that feed it, they have no
/// cycle.
pub fn orders<N>()
    ensures { (feeds : N → N → Bool) (nodes steps : List N) → IsOrder feeds nodes steps →
        has_cycle feeds nodes ≡ false }
{}
