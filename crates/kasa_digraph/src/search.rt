//! A search depth first, with a list of tasks in place of recursion.

ghost use Rattle.std.specs.Prelude.{◌≡◌, ◌++◌, ◌∷◌, [], ◌<◌, ◌≤◌, ◌+◌, ◌^◌, List, ℕ, length, true, false, OnOk, IfOk, IfSome, IfNone};
ghost use Rattle.kasa_digraph.specs.Graph.{has, successors, IsGraph, IsCyclic, IsOrder};
ghost use Rattle.kasa_digraph.specs.inner.Search.{is_seen, leaves, visits, with_visits, IsSearch, IsFinishOrder, work};

use std::alloc::{AllocError, Global};
use std::collections::VecDeque;

/// What is still to be done: go to a point, or leave it, all that it leads to being done.
#[derive(Clone, Copy, Debug)]
pub enum Task {
    Visit(u32),
    Leave(u32),
}

// Leaves the point after each of its successors.
fn plan(p: u32, next: &[u32], tasks: &mut VecDeque<Task>) -> Result<(), AllocError>
    ensures { OnOk result (tasks.new.items ≡ with_visits next.now (Task.Leave p ∷ tasks.old.items)) }
{
    tasks.push_front(Task::Leave(p))?;
    for q in next {
        tasks.push_front(Task::Visit(*q))?;
    }
    Ok(())
}

// Does one task.
fn step(
    graph: &[Vec<u32>],
    task: Task,
    seen: &mut [bool],
    tasks: &mut VecDeque<Task>,
    order: &mut Vec<u32>,
) -> Result<(), AllocError>
    requires graph { IsGraph (successors graph.now) (length graph.now) }
    requires search { IsSearch (successors graph.now) (length graph.now) seen.old (task ∷ tasks.old.items) order.old.items }
    ensures search { OnOk result (IsSearch (successors graph.now) (length graph.now) seen.new tasks.new.items order.new.items) }
    ensures smaller { OnOk result (work seen.new tasks.new.items < work seen.old (task ∷ tasks.old.items)) }
{
    match task {
        Task::Visit(p) => {
            let at = p as usize;
            if !seen[at] {
                seen[at] = true;
                plan(p, graph[at].as_slice(), tasks)?;
            }
        }
        Task::Leave(p) => order.push(p)?,
    }
    Ok(())
}

// A visit to each point.
fn all_visits(alloc: Global, n: u32) -> Result<VecDeque<Task>, AllocError>
    ensures leaves { IfOk result (λ tasks. leaves tasks.items ≡ []) }
    ensures all { IfOk result (λ tasks. (p : ℕ) → p < n → has (visits tasks.items) p ≡ true) }
    ensures within { IfOk result (λ tasks. (p : ℕ) → has (visits tasks.items) p ≡ true → p < n) }
{
    let mut tasks = VecDeque::new(alloc);
    for p in 0..n {
        tasks.push_front(Task::Visit(p))?;
    }
    Ok(tasks)
}

// The points in the order in which the search leaves them.
pub fn finish_order(alloc: Global, graph: &[Vec<u32>]) -> Result<Vec<u32>, AllocError>
    requires few { length graph.now < 2 ^ 32 }
    requires graph { IsGraph (successors graph.now) (length graph.now) }
    ensures { IfOk result (λ order. IsFinishOrder (successors graph.now) (length graph.now) order.items) }
{
    let mut seen = vec![in alloc; false; graph.len()]?;
    let mut tasks = all_visits(alloc, graph.len() as u32)?;
    let mut order = Vec::new(alloc);
    while let Some(task) = tasks.pop_front() {
        step(graph, task, seen.as_mut_slice(), &mut tasks, &mut order)?;
    }
    Ok(order)
}

fn are_done(next: &[u32], done: &[bool]) -> bool
    requires { (q : ℕ) → has next.now q ≡ true → q < length done.now }
    ensures yes { result ≡ true → ((q : ℕ) → has next.now q ≡ true → is_seen done.now q ≡ true) }
    ensures no { result ≡ false → (q : ℕ) × (has next.now q ≡ true) × (is_seen done.now q ≡ false) }
{
    for q in next {
        if !done[*q as usize] {
            return false;
        }
    }
    true
}

// Whether each point stands after its successors. If not, there is a cycle.
fn is_order(alloc: Global, graph: &[Vec<u32>], order: &[u32]) -> Result<bool, AllocError>
    requires graph { IsGraph (successors graph.now) (length graph.now) }
    requires order { IsFinishOrder (successors graph.now) (length graph.now) order.now }
    ensures yes { IfOk result (λ yes. yes ≡ true → IsOrder (successors graph.now) (length graph.now) order.now) }
    ensures no { IfOk result (λ yes. yes ≡ false → IsCyclic (successors graph.now)) }
{
    let mut done = vec![in alloc; false; graph.len()]?;
    for p in order {
        let at = *p as usize;
        if !are_done(graph[at].as_slice(), done.as_slice()) {
            return Ok(false);
        }
        done[at] = true;
    }
    Ok(true)
}

/// The points, each after its successors; `None` exactly where there is a cycle.
pub fn order(alloc: Global, graph: &[Vec<u32>]) -> Result<Option<Vec<u32>>, AllocError>
    requires few { length graph.now < 2 ^ 32 }
    requires graph { IsGraph (successors graph.now) (length graph.now) }
    ensures some { IfOk result (λ found. IfSome found (λ order. IsOrder (successors graph.now) (length graph.now) order.items)) }
    ensures no_cycle { IfOk result (λ found. IfSome found (λ _. ¬ (IsCyclic (successors graph.now)))) }
    ensures none { IfOk result (λ found. IfNone found (IsCyclic (successors graph.now))) }
{
    let order = finish_order(alloc, graph)?;
    if is_order(alloc, graph, order.as_slice())? {
        Ok(Some(order))
    } else {
        Ok(None)
    }
}
