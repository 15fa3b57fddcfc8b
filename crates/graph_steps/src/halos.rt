//! Halos: the rows of each step's output that later tasks need above and below a band.
ghost use Rattle.std.specs.Prelude.{◌≡◌, ◌≢◌, ◌<◌, ◌≤◌, ◌⊎◌, ◌+◌, ◌==◌, ◌∷◌, if◌then◌else◌};
ghost use Rattle.std.specs.Prelude.{ℕ, List, min, max, length, map, slice_set, All};
ghost use Rattle.graph_steps.specs.declared.step.Task.{Task as TaskValue};
ghost use Rattle.graph_steps.specs.Halos.{AreNeeded, Cover, HasOnly, NamesBelow, need};
ghost use Rattle.graph_steps.specs.Halos.{without_halo};
ghost use Rattle.graph_steps.specs.Steps.{ReadsPlane};
ghost use Rattle.graph_steps.specs.Program.{AreEnough};

use crate::step::{SecondSource, Step, Task};

/// Raises the number of rows that are needed of a plane to at least `rows`.
fn raise(needs: &mut [u16], at: usize, rows: u16)
    requires { at < length needs.old }
    ensures { needs.new ≡ slice_set needs.old at (max (need needs.old at) rows) }
{
    needs[at] = needs[at].max(rows);
}

/// Raises the number of rows that are needed of each of a step's inputs to at least the step's halo
/// plus its radius. The sum is limited to `high`.
fn raise_inputs(step: &Step, high: u16, needs: &mut [u16])
    requires { (c : ℕ) → ReadsPlane step.now c → c < length needs.old }
    ensures grows { (c : ℕ) → need needs.old c ≤ need needs.new c }
    ensures enough { (c : ℕ) → ReadsPlane step.now c →
        min high (step.now.halo + step.now.radius) ≤ need needs.new c }
    ensures only { (c : ℕ) → (need needs.new c ≡ need needs.old c) ⊎ (ReadsPlane step.now c
        × (need needs.new c ≡ min high (step.now.halo + step.now.radius))) }
{
    let rows = step.halo.saturating_add(step.radius).min(high);
    raise(needs, step.first, rows);
    if let SecondSource::Plane(second) = step.second {
        raise(needs, second, rows);
    }
}

/// Returns the step with the halo that later tasks need. Afterwards `needs` has the rows that this
/// step and the later tasks need: none of the output, which isn't written yet.
fn find_halo(mut step: Step, high: u16, needs: &mut [u16]) -> Step
    requires reads { (c : ℕ) → ReadsPlane step c → c < length needs.old }
    requires output { step.output < length needs.old }
    ensures step { result ≡ record step { halo = need needs.old step.output } }
    ensures grows { (c : ℕ) → c ≢ step.output → need needs.old c ≤ need needs.new c }
    ensures enough { (c : ℕ) → ReadsPlane result c →
        min high (result.halo + result.radius) ≤ need needs.new c }
    ensures only { (c : ℕ) → (need needs.new c ≡ (if c == step.output then 0 else need needs.old c))
        ⊎ (ReadsPlane result c × (need needs.new c ≡ min high (result.halo + result.radius))) }
{
    step.halo = needs[step.output];
    needs[step.output] = 0;
    raise_inputs(&step, high, needs);
    step
}

/// Finds the halo of a task. `needs` has the rows that the later tasks need of each plane, and
/// afterwards also those that this task needs.
fn find_task_halo(task: Task, high: u16, needs: &mut [u16]) -> Task
    requires { NamesBelow (length needs.old) task }
    ensures same { without_halo result ≡ without_halo task }
    ensures more { (later : List TaskValue) → AreEnough high later → Cover high later needs.old →
        AreEnough high (result ∷ later) × Cover high (result ∷ later) needs.new }
    ensures only { (later : List TaskValue) → AreNeeded high later → HasOnly high later needs.old →
        AreNeeded high (result ∷ later) × HasOnly high (result ∷ later) needs.new }
{
    match task {
        Task::Write(step) => Task::Write(find_halo(step, high, needs)),
        Task::Reduce(reduction) => Task::Reduce(reduction),
    }
}

/// Finds the halo of each step, from the last task back to the first: the greatest number of rows
/// that a later task needs of the step's output, and 0 if none reads it. No task needs more than
/// `high` rows, the height of the tallest image. `needs` has room for a number for each plane;
/// afterwards it has the rows that the tasks need of each.
pub fn find_halos(high: u16, tasks: &mut [Task], needs: &mut [u16])
    requires { All (NamesBelow (length needs.old)) tasks.old }
    ensures enough { AreEnough high tasks.new }
    ensures only { AreNeeded high tasks.new }
    ensures needs { Cover high tasks.new needs.new × HasOnly high tasks.new needs.new }
    ensures same { map without_halo tasks.new ≡ map without_halo tasks.old }
{
    needs.fill(0);
    for k in 0..tasks.len() {
        let at = tasks.len() - 1 - k;
        tasks[at] = find_task_halo(tasks[at], high, needs);
    }
}
