//! The cache of verified graphs. A graph stays in the cache until its nodes change or its name is
//! released.
ghost use Rattle.std.specs.Prelude.{◌≡◌, ◌≢◌, ℕ, false, All};
ghost use Rattle.client_model.specs.declared.request.Request.TheVariants.{ReleaseContext};
ghost use Rattle.client_contexts.specs.Kept.{ends_verification, forgotten_by, kept_within};

use buffer_plan::Plan;
use client_model::Request;
use graph_run::Schedule;
use graph_verify::Verified;
use std::collections::BTreeMap;

/// A verified graph: its nodes in order, the slots of its virtual images, and the schedule of a
/// run. `work` is the limit on work bytes with which the graph was verified. All fields are valid
/// until the graph's nodes change.
#[derive(Drop)]
pub struct KeptGraph {
    pub work: u64,
    pub verified: Verified,
    pub plan: Plan,
    pub schedule: Schedule,
}

/// Drops the cache entry of the graph, if any, whose nodes the request has changed or whose name
/// the request has released.
pub fn forget(kept: &mut BTreeMap<u32, KeptGraph>, request: &Request)
    requires { request.now ≢ ReleaseContext }
    ensures forgotten { kept.new.entries ≡ forgotten_by request.now kept.old.entries }
    ensures stay { (name : ℕ) → ends_verification request.now name ≡ false →
        kept_within name kept.new.entries ≡ kept_within name kept.old.entries }
    ensures left { All (λ k. ends_verification request.now k.0 ≡ false) kept.new.entries }
{
    match request {
        Request::AddNode(graph, _) | Request::RemoveNode(graph, _) | Request::Release(graph) => {
            let _forgotten = kept.remove(graph);
        }
        _ => {}
    }
}
