// The first tree of several: an atom, a keyword or a name.
ghost use Rattle.std.specs.Prelude.{◌≡◌, ◌≤◌, Bool, IfOk, slice_index};
ghost use Rattle.std.specs.Option.{option_map, IfSome};
ghost use Rattle.std.specs.List.{list_all};
ghost use Rattle.std.specs.Str.{bytes_eq};
ghost use Rattle.lang_forms.specs.Names.{is_letter, is_name_byte, is_kept_word, is_name};
ghost use Rattle.lang_forms.specs.Readings.{atom_of, is_end, word_of, name_of};
ghost use Rattle.lang_forms.specs.Views.{widest, seen_all, Reads};

use crate::stop::ParseStop;
use lang_ast::Ident;
use rt_values::Word;
use sexp_text::Tree;
use std::alloc::Global;

// Returns the first tree if it is an atom, with its offset, and the trees after it.
#[tactic(auto, using(crate::proofs::Trees::trees))]
pub fn split_first_atom(trees: &[Tree]) -> Option<(usize, &[u8], &[Tree])>
    ensures seen { option_map (λ p. (p.0, p.1.now, seen_all p.2.now)) result
        ≡ atom_of (seen_all trees.now) }
    ensures within { IfSome result (λ p. widest p.2.now ≤ widest trees.now) }
{
    match trees.split_first() {
        Some((Tree::Atom(at, name), rest)) => Some((*at, name.bytes(), rest)),
        _ => None,
    }
}

// Returns whether there are no trees. Each kind has its own arm, so that the proof knows the tree.
#[tactic(auto, using(crate::proofs::Trees::trees))]
pub fn is_at_end(trees: &[Tree]) -> bool
    ensures { result ≡ is_end (seen_all trees.now) }
{
    match trees.split_first() {
        None => true,
        Some((Tree::Atom(..), _)) => false,
        Some((Tree::Text(..), _)) => false,
        Some((Tree::List(..), _)) => false,
    }
}

// Returns whether two slices have equal bytes.
pub fn same_bytes(a: &[u8], b: &[u8]) -> bool
    ensures { result ≡ bytes_eq a.now b.now }
{
    a == b
}

// Returns the trees after the first if that is the atom `word`.
#[tactic(auto, unfolding(crate::specs::Readings::word_of))]
pub fn skip_keyword<'a>(word: &[u8], trees: &'a [Tree]) -> Option<&'a [Tree]>
    ensures seen { option_map (λ p. seen_all p.now) result ≡ word_of word.now (seen_all trees.now) }
    ensures within { IfSome result (λ p. widest p.now ≤ widest trees.now) }
{
    let (_, atom, rest) = split_first_atom(trees)?;
    if same_bytes(atom, word) {
        Some(rest)
    } else {
        None
    }
}

// Returns whether a byte is a letter.
fn is_letter_byte(b: u8) -> bool
    ensures { result ≡ is_letter b }
{
    (b'a' <= b && b <= b'z') || (b'A' <= b && b <= b'Z')
}

// Returns whether a name may have the byte.
fn is_byte_of_name(b: u8) -> bool
    ensures { result ≡ is_name_byte b }
{
    is_letter_byte(b) || (b'0' <= b && b <= b'9') || b == b'_'
}

// Returns whether the first byte is a letter.
fn begins_with_letter(name: &[u8]) -> bool
    ensures { result ≡ is_letter (slice_index name.now 0) }
{
    match name.first() {
        Some(b) => is_letter_byte(*b),
        None => false,
    }
}

// Returns whether a name may have each of the bytes.
fn has_bytes_of_name(name: &[u8]) -> bool
    ensures { result ≡ list_all is_name_byte name.now }
{
    name.iter().all(|b| is_byte_of_name(*b))
}

// Returns whether a word may not be a name.
fn is_kept_name(name: &[u8]) -> bool
    ensures { result ≡ is_kept_word name.now }
{
    same_bytes(name, b"global") || same_bytes(name, b"true") || same_bytes(name, b"false")
}

// Returns whether an atom is a name.
pub fn is_good_name(name: &[u8]) -> bool
    ensures { result ≡ is_name name.now }
{
    begins_with_letter(name) && has_bytes_of_name(name) && !is_kept_name(name)
}

// Parses the first tree as a name, and returns the trees after it.
#[tactic(auto, unfolding(crate::specs::Readings::name_of))]
pub fn parse_name(alloc: Global, trees: &[Tree]) -> Result<(Ident, &[Tree]), ParseStop>
    ensures seen { Reads (λ p. (p.0, seen_all p.1.now)) result (name_of (seen_all trees.now)) }
    ensures within { IfOk result (λ p. widest p.1.now ≤ widest trees.now) }
{
    let Some((at, atom, rest)) = split_first_atom(trees) else {
        return Err(ParseStop::NoForm);
    };
    if is_good_name(atom) {
        let name = Ident {
            at,
            text: Word::of(alloc, atom)?,
        };
        Ok((name, rest))
    } else {
        Err(ParseStop::NoForm)
    }
}
