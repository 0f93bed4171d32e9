// The keywords of versions, types, policies, kinds of snapshots and operators.
ghost use Rattle.std.specs.Prelude.{◌≡◌, ◌≤◌, ℕ, List, Bool, Option};
ghost use Rattle.std.specs.Option.{option_map, IfSome};
ghost use Rattle.lang_forms.specs.Words.{takes, version_for_word, type_for_word, policy_for_word, kind_for_word, number_operator, truth_operator, list_operator, operator_for_word};
ghost use Rattle.lang_forms.specs.Readings.{keyword_of};
ghost use Rattle.lang_forms.specs.Views.{widest, seen_all};

use crate::cursor::{same_bytes, split_first_atom};
use lang_ast::{Operator, Version};
use rt_values::{Kind, Ty};
use sexp_text::Tree;
use snap_policy::BuiltIn;

/// A value that the source text has as a keyword.
pub trait Keyword {
    // The value of each keyword.
    ghost table: { List ℕ → Option Self };

    /// Returns the value of the keyword `word`, or `None` if `word` is no keyword of such a value.
    fn from_word(word: &[u8]) -> Option<Self>
        ensures { result ≡ table word.now };
}

/// Parses the first tree as a keyword. Returns its value, and the trees after it.
#[tactic(auto, unfolding(crate::specs::Readings::keyword_of))]
pub fn parse_keyword<K: Keyword>(trees: &[Tree]) -> Option<(K, &[Tree])>
    ensures seen { option_map (λ p. (p.0, seen_all p.1.now)) result
        ≡ keyword_of K.table (seen_all trees.now) }
    ensures within { IfSome result (λ p. widest p.1.now ≤ widest trees.now) }
{
    let (_, word, rest) = split_first_atom(trees)?;
    let value = K::from_word(word)?;
    Some((value, rest))
}

#[tactic(auto, unfolding(crate::specs::Words::version_for_word))]
impl Keyword for Version {
    ghost table = { version_for_word };

    fn from_word(word: &[u8]) -> Option<Version> {
        if same_bytes(word, b"1") {
            Some(Version::One)
        } else {
            None
        }
    }
}

#[tactic(auto, unfolding(crate::specs::Words::type_for_word))]
impl Keyword for Ty {
    ghost table = { type_for_word };

    fn from_word(word: &[u8]) -> Option<Ty> {
        if same_bytes(word, b"Int") {
            Some(Ty::Int)
        } else if same_bytes(word, b"Bool") {
            Some(Ty::Bool)
        } else if same_bytes(word, b"Text") {
            Some(Ty::Text)
        } else if same_bytes(word, b"Ints") {
            Some(Ty::Ints)
        } else {
            None
        }
    }
}

#[tactic(auto, unfolding(crate::specs::Words::policy_for_word))]
impl Keyword for BuiltIn {
    ghost table = { policy_for_word };

    fn from_word(word: &[u8]) -> Option<BuiltIn> {
        if same_bytes(word, b"Structural") {
            Some(BuiltIn::Structural)
        } else if same_bytes(word, b"Never") {
            Some(BuiltIn::Never)
        } else if same_bytes(word, b"Counter") {
            Some(BuiltIn::Counter)
        } else if same_bytes(word, b"Largest") {
            Some(BuiltIn::Largest)
        } else if same_bytes(word, b"Append") {
            Some(BuiltIn::Append)
        } else {
            None
        }
    }
}

#[tactic(auto, unfolding(crate::specs::Words::kind_for_word))]
impl Keyword for Kind {
    ghost table = { kind_for_word };

    fn from_word(word: &[u8]) -> Option<Kind> {
        if same_bytes(word, b"mutable") {
            Some(Kind::Mutable)
        } else if same_bytes(word, b"readonly") {
            Some(Kind::Readonly)
        } else {
            None
        }
    }
}

// Returns the operator on numbers of a keyword.
#[tactic(auto, unfolding(crate::specs::Words::number_operator))]
fn find_number_operator(word: &[u8]) -> Option<Operator>
    ensures { result ≡ number_operator word.now }
{
    if same_bytes(word, b"+") {
        Some(Operator::Add)
    } else if same_bytes(word, b"-") {
        Some(Operator::Subtract)
    } else if same_bytes(word, b"*") {
        Some(Operator::Multiply)
    } else if same_bytes(word, b"/") {
        Some(Operator::Divide)
    } else if same_bytes(word, b"%") {
        Some(Operator::Remainder)
    } else {
        None
    }
}

// Returns the operator of a keyword that compares or chooses.
#[tactic(auto, unfolding(crate::specs::Words::truth_operator))]
fn find_truth_operator(word: &[u8]) -> Option<Operator>
    ensures { result ≡ truth_operator word.now }
{
    if same_bytes(word, b"=") {
        Some(Operator::Equal)
    } else if same_bytes(word, b"<") {
        Some(Operator::Less)
    } else if same_bytes(word, b"not") {
        Some(Operator::Not)
    } else if same_bytes(word, b"and") {
        Some(Operator::And)
    } else if same_bytes(word, b"or") {
        Some(Operator::Or)
    } else if same_bytes(word, b"pick") {
        Some(Operator::Pick)
    } else {
        None
    }
}

// Returns the operator on texts or lists of a keyword.
#[tactic(auto, unfolding(crate::specs::Words::list_operator))]
fn find_list_operator(word: &[u8]) -> Option<Operator>
    ensures { result ≡ list_operator word.now }
{
    if same_bytes(word, b"join") {
        Some(Operator::Join)
    } else if same_bytes(word, b"text") {
        Some(Operator::Text)
    } else if same_bytes(word, b"ints") {
        Some(Operator::Ints)
    } else if same_bytes(word, b"range") {
        Some(Operator::Range)
    } else if same_bytes(word, b"push") {
        Some(Operator::Push)
    } else if same_bytes(word, b"concat") {
        Some(Operator::Concat)
    } else if same_bytes(word, b"len") {
        Some(Operator::Length)
    } else if same_bytes(word, b"at") {
        Some(Operator::At)
    } else {
        None
    }
}

#[tactic(auto, unfolding(crate::specs::Words::operator_for_word))]
impl Keyword for Operator {
    ghost table = { operator_for_word };

    fn from_word(word: &[u8]) -> Option<Operator> {
        if let Some(operator) = find_number_operator(word) {
            return Some(operator);
        }
        if let Some(operator) = find_truth_operator(word) {
            return Some(operator);
        }
        find_list_operator(word)
    }
}

// Returns whether an operator has `count` operands.
pub fn has_operands(operator: Operator, count: usize) -> bool
    ensures { result ≡ takes operator count }
{
    match operator {
        Operator::Add => count == 2,
        Operator::Subtract => count == 2,
        Operator::Multiply => count == 2,
        Operator::Divide => count == 2,
        Operator::Remainder => count == 2,
        Operator::Equal => count == 2,
        Operator::Less => count == 2,
        Operator::Not => count == 1,
        Operator::And => count == 2,
        Operator::Or => count == 2,
        Operator::Pick => count == 3,
        Operator::Join => count == 2,
        Operator::Text => count == 1,
        Operator::Ints => true,
        Operator::Range => count == 2,
        Operator::Push => count == 2,
        Operator::Concat => count == 2,
        Operator::Length => count == 1,
        Operator::At => count == 2,
    }
}
