// The scopes that depend on each object.
ghost use Rattle.std.specs.Prelude.{ℕ, ◌≡◌, ◌≤◌, ◌<◌, ◌+◌, ◌-◌, List, [], ◌∷◌, nat_eq, None, is_some, length, vec_len, vec_capacity, IfOk, OnOk, OnErr};
ghost use Rattle.std.specs.Map.{lookup};
ghost use Rattle.indexmap.specs.IndexMap.{get, spare};
ghost use Rattle.read_links.specs.LinkLists.{links_with, links_with_all, links_without, scopes_in};
ghost use Rattle.read_links.specs.Storage.{entry_links, links_spare, AllHaveSpare, IsReady, AreReady, HasRoomFor, count_new};

use crate::lists::{append_scope, fill_pool, new_pool, remove_scope, take_list};
use indexmap::IndexMap;
use rt_groups::Dep;
use rt_values::NoMemory;
use std::alloc::Global;
use std::marker::Model;

/// The number of a recompose scope, that is of a call of the composition (`RecomposeScope`).
pub type Scope = usize;

/// For each object the scopes that depend on it.
#[derive(Drop)]
pub struct Links {
    objects: IndexMap<Dep, Vec<Scope>>,
    // Empty lists for objects that have no list yet.
    pool: Vec<Vec<Scope>>,
}

impl Model for Links {
    ghost use Rattle.std.specs.Prelude.{◌-◌, vec_len, vec_capacity};
    ghost use Rattle.indexmap.specs.IndexMap.{spare as map_spare};
    ghost use Rattle.read_links.specs.LinkLists.{LinkLists};
    ghost use Rattle.read_links.specs.Storage.{entry_links as links_of, links_spare as spare_of, AllHaveSpare as AllHave};

    ghost Value = { LinkLists };

    ghost view = { λ l. record {
      links = links_of (λ v. v.items) l.objects.entries;
      spare = spare_of (λ v. vec_capacity v - vec_len v) (map_spare l.objects) l.objects.entries l.pool.items;
    } };

    // Each list of the pool has spare capacity for a scope.
    ghost invariant = { λ l. AllHave (λ v. vec_capacity v - vec_len v) 1 l.pool.items };
}

// Makes the spare capacity of each list at least `n`.
fn reserve_lists(objects: &mut IndexMap<Dep, Vec<Scope>>, n: usize) -> Result<(), NoMemory>
    ensures links { entry_links (λ v. v.items) objects.new.entries ≡ entry_links (λ v. v.items) objects.old.entries }
    ensures spare { spare objects.new ≡ spare objects.old }
    ensures room { OnOk result (AllHaveSpare (λ e. vec_capacity e.1 - vec_len e.1) n objects.new.entries) }
{
    let mut at = 0;
    while at < objects.len() {
        objects[at].reserve(n)?;
        at += 1;
    }
    Ok(())
}

// Removes `scope` from each list.
fn remove_from_lists(objects: &mut IndexMap<Dep, Vec<Scope>>, scope: Scope)
    ensures links { entry_links (λ v. v.items) objects.new.entries
        ≡ links_without scope (entry_links (λ v. v.items) objects.old.entries) }
    ensures spare { spare objects.new ≡ spare objects.old }
    ensures room { (n : ℕ) → AllHaveSpare (λ e. vec_capacity e.1 - vec_len e.1) n objects.old.entries →
        AllHaveSpare (λ e. vec_capacity e.1 - vec_len e.1) n objects.new.entries }
{
    let mut at = 0;
    while at < objects.len() {
        remove_scope(&mut objects[at], scope);
        at += 1;
    }
}

// Adds a list with `scope` for an object that has no list yet. After `NoMemory` the lists are unchanged.
fn put_first(
    alloc: Global,
    objects: &mut IndexMap<Dep, Vec<Scope>>,
    pool: &mut Vec<Vec<Scope>>,
    scope: Scope,
    object: Dep,
) -> Result<(), NoMemory>
    requires { get nat_eq objects.old object ≡ None }
    ensures links { OnOk result (entry_links (λ v. v.items) objects.new.entries
        ≡ links_with scope object (entry_links (λ v. v.items) objects.old.entries)) }
    ensures same { OnErr result (entry_links (λ v. v.items) objects.new.entries
        ≡ entry_links (λ v. v.items) objects.old.entries) }
    ensures free { AllHaveSpare (λ v. vec_capacity v - vec_len v) 1 pool.old.items → 0 < length pool.old.items →
        0 < spare objects.old → OnErr result ⊥ }
    ensures rest { AllHaveSpare (λ v. vec_capacity v - vec_len v) 1 pool.old.items →
        AllHaveSpare (λ v. vec_capacity v - vec_len v) 1 pool.new.items }
    ensures room { (xs : List ℕ) → HasRoomFor (λ v. v.items) (λ v. vec_capacity v - vec_len v) scope (object ∷ xs)
        (spare objects.old) objects.old.entries pool.old.items → OnOk result (HasRoomFor (λ v. v.items)
        (λ v. vec_capacity v - vec_len v) scope xs (spare objects.new) objects.new.entries pool.new.items) }
    ensures spare { OnOk result (links_spare (λ v. vec_capacity v - vec_len v) (spare objects.old) objects.old.entries
        pool.old.items
        ≤ links_spare (λ v. vec_capacity v - vec_len v) (spare objects.new) objects.new.entries pool.new.items + 1) }
{
    let mut scopes = take_list(alloc, pool);
    scopes.push(scope)?;
    objects.insert(object, scopes)?;
    Ok(())
}

// Links `scope` to one object. After `NoMemory` the links are unchanged.
fn put_one(
    alloc: Global,
    objects: &mut IndexMap<Dep, Vec<Scope>>,
    pool: &mut Vec<Vec<Scope>>,
    scope: Scope,
    object: Dep,
) -> Result<(), NoMemory>
    ensures links { OnOk result (entry_links (λ v. v.items) objects.new.entries
        ≡ links_with scope object (entry_links (λ v. v.items) objects.old.entries)) }
    ensures same { OnErr result (entry_links (λ v. v.items) objects.new.entries
        ≡ entry_links (λ v. v.items) objects.old.entries) }
    ensures free { 0 < links_spare (λ v. vec_capacity v - vec_len v) (spare objects.old) objects.old.entries
        pool.old.items → OnErr result ⊥ }
    ensures spare { OnOk result (links_spare (λ v. vec_capacity v - vec_len v) (spare objects.old) objects.old.entries
        pool.old.items
        ≤ links_spare (λ v. vec_capacity v - vec_len v) (spare objects.new) objects.new.entries pool.new.items + 1) }
    ensures rest { AllHaveSpare (λ v. vec_capacity v - vec_len v) 1 pool.old.items →
        AllHaveSpare (λ v. vec_capacity v - vec_len v) 1 pool.new.items }
    ensures room { (xs : List ℕ) → HasRoomFor (λ v. v.items) (λ v. vec_capacity v - vec_len v) scope (object ∷ xs)
        (spare objects.old) objects.old.entries pool.old.items → OnOk result (HasRoomFor (λ v. v.items)
        (λ v. vec_capacity v - vec_len v) scope xs (spare objects.new) objects.new.entries pool.new.items) }
    ensures sure { (xs : List ℕ) → HasRoomFor (λ v. v.items) (λ v. vec_capacity v - vec_len v) scope (object ∷ xs)
        (spare objects.old) objects.old.entries pool.old.items → OnErr result ⊥ }
{
    match objects.get_mut(&object) {
        Some(scopes) => append_scope(scopes, scope),
        None => put_first(alloc, objects, pool, scope, object),
    }
}

// Links `scope` to each of `deps`. If there are several, there is room for all.
fn put_each(
    alloc: Global,
    objects: &mut IndexMap<Dep, Vec<Scope>>,
    pool: &mut Vec<Vec<Scope>>,
    scope: Scope,
    deps: &[Dep],
) -> Result<(), NoMemory>
    requires { 1 < length deps.now → HasRoomFor (λ v. v.items) (λ v. vec_capacity v - vec_len v) scope deps.now
        (spare objects.old) objects.old.entries pool.old.items }
    ensures links { OnOk result (entry_links (λ v. v.items) objects.new.entries
        ≡ links_with_all scope deps.now (entry_links (λ v. v.items) objects.old.entries)) }
    ensures same { OnErr result (entry_links (λ v. v.items) objects.new.entries
        ≡ entry_links (λ v. v.items) objects.old.entries) }
    ensures free { length deps.now ≤ links_spare (λ v. vec_capacity v - vec_len v) (spare objects.old)
        objects.old.entries pool.old.items → OnErr result ⊥ }
    ensures spare { OnOk result (links_spare (λ v. vec_capacity v - vec_len v) (spare objects.old) objects.old.entries
        pool.old.items ≤ links_spare (λ v. vec_capacity v - vec_len v) (spare objects.new) objects.new.entries
        pool.new.items + length deps.now) }
    ensures rest { AllHaveSpare (λ v. vec_capacity v - vec_len v) 1 pool.old.items →
        AllHaveSpare (λ v. vec_capacity v - vec_len v) 1 pool.new.items }
{
    for object in deps {
        put_one(alloc, objects, pool, scope, *object)?;
    }
    Ok(())
}

// Makes room for a scope in the list of `object`. Returns whether it has a list.
fn reserve_list(objects: &mut IndexMap<Dep, Vec<Scope>>, object: Dep) -> Result<bool, NoMemory>
    ensures links { entry_links (λ v. v.items) objects.new.entries ≡ entry_links (λ v. v.items) objects.old.entries }
    ensures spare { spare objects.new ≡ spare objects.old }
    ensures known { IfOk result (λ known. known ≡ is_some (lookup (nat_eq object) objects.old.entries)) }
    ensures count { (xs : List ℕ) → count_new xs objects.new.entries ≡ count_new xs objects.old.entries }
    ensures ready { (s : ℕ) → OnOk result
        (IsReady (λ v. v.items) (λ v. vec_capacity v - vec_len v) s objects.new.entries object) }
    ensures kept { (s x : ℕ) → IsReady (λ v. v.items) (λ v. vec_capacity v - vec_len v) s objects.old.entries x →
        OnOk result (IsReady (λ v. v.items) (λ v. vec_capacity v - vec_len v) s objects.new.entries x) }
    ensures room { (n : ℕ) → AllHaveSpare (λ e. vec_capacity e.1 - vec_len e.1) n objects.old.entries →
        AllHaveSpare (λ e. vec_capacity e.1 - vec_len e.1) n objects.new.entries }
    ensures free { AllHaveSpare (λ e. vec_capacity e.1 - vec_len e.1) 1 objects.old.entries → OnErr result ⊥ }
{
    match objects.get_mut(&object) {
        Some(scopes) => {
            scopes.reserve(1)?;
            Ok(true)
        }
        None => Ok(false),
    }
}

// Makes room for a scope in the list of each of `deps` that has one. Returns the number of the others.
fn reserve_each(objects: &mut IndexMap<Dep, Vec<Scope>>, deps: &[Dep]) -> Result<usize, NoMemory>
    ensures links { entry_links (λ v. v.items) objects.new.entries ≡ entry_links (λ v. v.items) objects.old.entries }
    ensures spare { spare objects.new ≡ spare objects.old }
    ensures count { IfOk result (λ fresh. fresh ≡ count_new deps.now objects.new.entries) }
    ensures few { IfOk result (λ fresh. fresh ≤ length deps.now) }
    ensures ready { (s : ℕ) → OnOk result
        (AreReady (λ v. v.items) (λ v. vec_capacity v - vec_len v) s objects.new.entries deps.now) }
    ensures room { (n : ℕ) → AllHaveSpare (λ e. vec_capacity e.1 - vec_len e.1) n objects.old.entries →
        AllHaveSpare (λ e. vec_capacity e.1 - vec_len e.1) n objects.new.entries }
    ensures free { AllHaveSpare (λ e. vec_capacity e.1 - vec_len e.1) 1 objects.old.entries → OnErr result ⊥ }
{
    let mut fresh: usize = 0;
    for object in deps {
        if !reserve_list(objects, *object)? {
            fresh += 1;
        }
    }
    Ok(fresh)
}

// Takes all memory to link a scope to each of `deps`, if there are several. The links stay.
fn make_room(
    alloc: Global,
    objects: &mut IndexMap<Dep, Vec<Scope>>,
    pool: &mut Vec<Vec<Scope>>,
    deps: &[Dep],
) -> Result<(), NoMemory>
    requires { AllHaveSpare (λ v. vec_capacity v - vec_len v) 1 pool.old.items }
    ensures links { entry_links (λ v. v.items) objects.new.entries ≡ entry_links (λ v. v.items) objects.old.entries }
    ensures room { (s : ℕ) → 1 < length deps.now → OnOk result (HasRoomFor (λ v. v.items)
        (λ v. vec_capacity v - vec_len v) s deps.now (spare objects.new) objects.new.entries pool.new.items) }
    ensures spare { length deps.now ≤ links_spare (λ v. vec_capacity v - vec_len v) (spare objects.old)
        objects.old.entries pool.old.items → OnOk result (links_spare (λ v. vec_capacity v - vec_len v)
        (spare objects.old) objects.old.entries pool.old.items
        ≤ links_spare (λ v. vec_capacity v - vec_len v) (spare objects.new) objects.new.entries pool.new.items) }
    ensures free { length deps.now ≤ links_spare (λ v. vec_capacity v - vec_len v)
        (spare objects.old) objects.old.entries pool.old.items → OnErr result ⊥ }
    ensures rest { AllHaveSpare (λ v. vec_capacity v - vec_len v) 1 pool.new.items }
{
    if deps.len() <= 1 {
        return Ok(());
    }
    let fresh = reserve_each(objects, deps)?;
    objects.reserve(fresh)?;
    fill_pool(alloc, pool, fresh)
}

impl Links {
    /// Returns no links.
    pub fn new(alloc: Global) -> Self
        ensures { result.links ≡ [] }
    {
        Links {
            objects: IndexMap::new(alloc),
            pool: Vec::new(alloc),
        }
    }

    /// Makes the spare capacity at least `n` pairs of a scope and an object, whichever objects they have. Takes
    /// memory for `n` scopes for each object and each possible new one. The links stay.
    pub fn reserve(&mut self, alloc: Global, n: usize) -> Result<(), NoMemory>
        ensures links { self.new.links ≡ self.old.links }
        ensures room { OnOk result (n ≤ self.new.spare) }
    {
        let pool = new_pool(alloc, n)?;
        self.objects.reserve(n)?;
        reserve_lists(&mut self.objects, n)?;
        self.pool = pool;
        Ok(())
    }

    /// Links `scope` to each of `objects`, which may repeat. Takes no memory if the spare capacity is at least their
    /// number. After `NoMemory` the links are as before: all memory for several objects is taken before the first.
    pub fn put(&mut self, alloc: Global, scope: Scope, objects: &[Dep]) -> Result<(), NoMemory>
        ensures links { OnOk result (self.new.links ≡ links_with_all scope objects.now self.old.links) }
        ensures same { OnErr result (self.new.links ≡ self.old.links) }
        ensures free { length objects.now ≤ self.old.spare → OnErr result ⊥ }
        ensures spare { OnOk result (self.old.spare ≤ self.new.spare + length objects.now) }
    {
        make_room(alloc, &mut self.objects, &mut self.pool, objects)?;
        put_each(alloc, &mut self.objects, &mut self.pool, scope, objects)
    }

    /// Removes `scope` from all objects, in time linear in the links. The spare capacity stays.
    pub fn drop_scope(&mut self, scope: Scope)
        ensures links { self.new.links ≡ links_without scope self.old.links }
        ensures spare { self.old.spare ≤ self.new.spare }
    {
        remove_from_lists(&mut self.objects, scope);
    }

    /// Returns the scopes that depend on `object`, in the order in which they were put.
    pub fn scopes_of(&self, object: Dep) -> &[Scope]
        ensures { result.now ≡ scopes_in object self.now.links }
    {
        match self.objects.get(&object) {
            Some(scopes) => scopes,
            None => &[],
        }
    }
}
