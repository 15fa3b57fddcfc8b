//! Laws of the runtime.
ghost use Rattle.std.specs.Prelude.{◌≡◌, ℕ, false, List, All, Ok, Result, OnErr};
ghost use Rattle.client_model.specs.declared.reply.Reply.{Reply};
ghost use Rattle.client_model.specs.declared.reply.Reply.TheVariants.{Empty};
ghost use Rattle.client_model.specs.declared.request.Request.TheVariants.{VerifyGraph};
ghost use Rattle.client_contexts.specs.declared.memory.NoMemory.{NoMemory};
ghost use Rattle.client_contexts.specs.Calls.{Call, Does, Lead};
ghost use Rattle.client_contexts.specs.Kept.{ends_verification};
ghost use Rattle.client_contexts.specs.World.{World};

/// After VerifyGraph of a graph has succeeded, VerifyGraph of the same graph never fails for lack
/// of memory. Whatever other clients request, this holds until the client changes the graph's
/// nodes, or releases the graph or the context.
#[tactic(auto, using(crate::proofs::CallLemmas::finds_memory))]
pub fn verified_once()
    ensures { (client graph : ℕ) (first verified later last : World) (calls : List Call)
        (result : Result Reply NoMemory) →
        Does (record { client = client; request = VerifyGraph graph; result = Ok Empty })
        first verified →
        Lead calls verified later →
        All (λ call. call.client ≡ client →
        ends_verification call.request graph ≡ false) calls →
        Does (record { client = client; request = VerifyGraph graph; result = result })
        later last →
        OnErr result ⊥ }
{}
