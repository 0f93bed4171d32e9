//! Matching of new groups with old siblings, by site and key.
//!
//! A group is the one of the last frame that has its site, its key and its occurrence among its siblings (`KeyInfo` and
//! `Pending` of Compose). Composing takes old siblings from `SiblingQueues` one by one; `matches` does it for two whole
//! lists. The queues are in an `IndexMap`, or in a list by number if `KeySurvey` finds siblings of one site with
//! integer keys that lie close together. Reordered siblings take no longer than others.
//! Promises: `matches` finds exactly the old sibling with equal site, key and occurrence.
#![tactic(auto)]

ghost use Rattle.std.specs.Prelude.{◌≡◌, fold};
ghost use Rattle.std.specs.Option.{option_map, option_eq};
ghost use Rattle.std.specs.Cmp.{partial_equiv_from_equiv};
ghost use Rattle.rt_values.specs.Values.{same_value};
ghost use Rattle.rt_groups.specs.Paths.{same_sibling};
ghost use Rattle.path_laws.specs.SiblingEquality.{siblings_equiv};
ghost use Rattle.group_keys.specs.Keys.{hashed_value, hashed_key, hashed_sibling, equal_hashes};

mod matching;
mod numbered;
mod queues;
mod survey;

pub use matching::matches;
pub use queues::SiblingQueues;
use rt_values::Value;
use std::hash::{Hash, Hasher};
use std::marker::Model;
pub use survey::KeySurvey;

/// The identity of a group among its siblings, except for repeats: its site, and the value of a key group (`KeyInfo`).
#[derive(Drop)]
pub struct SiblingKey<'a> {
    site: u32,
    key: Option<&'a Value>,
}

impl<'a> Model for SiblingKey<'a> {
    ghost use Rattle.std.specs.Option.{option_map as mapped};
    ghost use Rattle.rt_groups.specs.Paths.{GroupKey};

    ghost Value = { GroupKey };

    ghost view = { λ t. record { site = t.site; key = mapped (λ k. k.now) t.key } };
}

impl<'a> SiblingKey<'a> {
    /// Returns the key of a group with this site, and with this value if it is a key group.
    pub fn new(site: u32, key: Option<&'a Value>) -> SiblingKey<'a>
        ensures { result ≡ record { site = site; key = option_map (λ k. k.now) key.entry } }
    {
        SiblingKey { site, key }
    }

    /// Returns a copy, which borrows the same value.
    pub fn copy(&self) -> SiblingKey<'a>
        ensures { result ≡ self.now }
    {
        SiblingKey {
            site: self.site,
            key: self.key,
        }
    }
}

// Returns whether both are equal values or both are missing.
#[inline(always)]
fn same_keys(key: &Option<&Value>, other: &Option<&Value>) -> bool
    ensures { result
        ≡ option_eq same_value (option_map (λ k. k.now) key.now) (option_map (λ k. k.now) other.now) }
{
    match (key, other) {
        (Some(value), Some(other_value)) => value.same(other_value),
        (None, None) => true,
        _ => false,
    }
}

impl<'a> PartialEq for SiblingKey<'a> {
    ghost eq = { same_sibling };

    ghost laws = { partial_equiv_from_equiv siblings_equiv };

    fn eq(&self, other: &Self) -> bool {
        if self.site != other.site {
            return false;
        }
        same_keys(&self.key, &other.key)
    }
}

impl<'a> Eq for SiblingKey<'a> {
    ghost laws = { siblings_equiv };
}

// Writes `value` to the hasher.
fn hash_value<H: Hasher>(value: &Value, state: &mut H)
    ensures { state.new ≡ fold H.write state.old (hashed_value value.now) }
{
    match value {
        Value::Int(number) => number.hash(state),
        Value::Bool(truth) => truth.hash(state),
        Value::Text(text) => text.as_str().hash(state),
        Value::Ints(list) => list.items().hash(state),
    }
}

// Writes `key` to the hasher if it has a value.
fn hash_key<H: Hasher>(key: &Option<&Value>, state: &mut H)
    ensures { state.new ≡ fold H.write state.old (hashed_key (option_map (λ k. k.now) key.now)) }
{
    match key {
        Some(value) => hash_value(value, state),
        None => {}
    }
}

impl<'a> Hash for SiblingKey<'a> {
    ghost hash_input = { hashed_sibling };

    ghost respects_eq = { equal_hashes };

    fn hash<H: Hasher>(&self, state: &mut H) {
        self.site.hash(state);
        hash_key(&self.key, state);
    }
}
