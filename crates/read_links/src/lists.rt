// Lists of scopes.
ghost use Rattle.std.specs.Prelude.{◌≡◌, ◌≤◌, ◌<◌, ◌+◌, ◌-◌, ℕ, [], true, length, vec_len, vec_capacity, IfOk, OnOk, OnErr};
ghost use Rattle.read_links.specs.LinkLists.{ends_with, with_scope, scopes_without};
ghost use Rattle.read_links.specs.Storage.{AllHaveSpare};

use crate::Scope;
use rt_values::NoMemory;
use std::alloc::Global;

// Returns whether `scope` is the last of the scopes.
fn is_last(scopes: &[Scope], scope: Scope) -> bool
    ensures { result ≡ ends_with scope scopes.now }
{
    match scopes.last() {
        Some(last) => *last == scope,
        None => false,
    }
}

// Appends `scope` unless it is the last of the scopes. Takes no memory if the list has spare capacity. After `NoMemory`
// the scopes are unchanged.
pub fn append_scope(scopes: &mut Vec<Scope>, scope: Scope) -> Result<(), NoMemory>
    ensures items { OnOk result (scopes.new.items ≡ with_scope scope scopes.old.items) }
    ensures same { OnErr result (scopes.new.items ≡ scopes.old.items) }
    ensures free { vec_len scopes.old < vec_capacity scopes.old → OnErr result ⊥ }
    ensures ended { ends_with scope scopes.old.items ≡ true → OnErr result ⊥ }
    ensures capacity { vec_capacity scopes.old ≤ vec_capacity scopes.new }
    ensures len { vec_len scopes.new ≤ vec_len scopes.old + 1 }
{
    if !is_last(scopes, scope) {
        scopes.push(scope)?;
    }
    Ok(())
}

// Removes all occurrences of `scope`.
pub fn remove_scope(scopes: &mut Vec<Scope>, scope: Scope)
    ensures items { scopes.new.items ≡ scopes_without scope scopes.old.items }
    ensures capacity { vec_capacity scopes.new ≡ vec_capacity scopes.old }
    ensures len { vec_len scopes.new ≤ vec_len scopes.old }
{
    let mut at = 0;
    while at < scopes.len() {
        if scopes[at] == scope {
            let _ = scopes.remove(at);
        } else {
            at += 1;
        }
    }
}

// Returns an empty list, one of `pool` if it has any.
pub fn take_list(alloc: Global, pool: &mut Vec<Vec<Scope>>) -> Vec<Scope>
    ensures empty { result.items ≡ [] }
    ensures room { (n : ℕ) → AllHaveSpare (λ v. vec_capacity v - vec_len v) n pool.old.items
        → 0 < length pool.old.items → n ≤ vec_capacity result - vec_len result }
    ensures rest { (n : ℕ) → AllHaveSpare (λ v. vec_capacity v - vec_len v) n pool.old.items →
        AllHaveSpare (λ v. vec_capacity v - vec_len v) n pool.new.items }
    ensures len { length pool.old.items ≤ length pool.new.items + 1 }
{
    match pool.pop() {
        Some(mut list) => {
            list.clear();
            list
        }
        None => Vec::new(alloc),
    }
}

// Returns `n` empty lists with spare capacity for `n` scopes each.
pub fn new_pool(alloc: Global, n: usize) -> Result<Vec<Vec<Scope>>, NoMemory>
    ensures len { IfOk result (λ p. length p.items ≡ n) }
    ensures room { IfOk result (λ p. AllHaveSpare (λ v. vec_capacity v - vec_len v) n p.items) }
{
    let mut pool = Vec::with_capacity(alloc, n)?;
    let mut at = 0;
    while at < n {
        pool.push(Vec::with_capacity(alloc, n)?)?;
        at += 1;
    }
    Ok(pool)
}

// Makes the number of lists in `pool` at least `n`. Each new list is empty and has spare capacity for a scope.
pub fn fill_pool(alloc: Global, pool: &mut Vec<Vec<Scope>>, n: usize) -> Result<(), NoMemory>
    ensures count { OnOk result (n ≤ length pool.new.items) }
    ensures room { AllHaveSpare (λ v. vec_capacity v - vec_len v) 1 pool.old.items →
        AllHaveSpare (λ v. vec_capacity v - vec_len v) 1 pool.new.items }
    ensures enough { n ≤ length pool.old.items → pool.new ≡ pool.old }
    ensures free { n ≤ length pool.old.items → OnErr result ⊥ }
{
    while pool.len() < n {
        let mut list = Vec::new(alloc);
        list.reserve(1)?;
        pool.push(list)?;
    }
    Ok(())
}
