//! Marks of names, by the places where these are likely to stand.
ghost use Rattle.std.specs.Prelude.{◌≡◌, ℕ, List, Some, IfSome, IsTrue, OnOk, OnErr};
ghost use Rattle.indexmap.specs.IndexMap.{get_by_text};
ghost use Rattle.text_core.specs.Lines.{IsPrinting};
ghost use Rattle.net_flat.specs.private.Marking.{StandsAt, with_mark};

use crate::equal_names::is_same;
use crate::mark::Mark;
use crate::order::Order;
use indexmap::IndexMap;
use net_blif::text_of;
use net_core::KeyedHash;
use std::alloc::{AllocError, Global};

// The mark of a name, if it stands at this place.
fn mark_at(marks: &IndexMap<String, Mark, KeyedHash>, place: usize, name: &[u8]) -> Option<Mark>
    ensures mark { IfSome result (λ mark. get_by_text marks.now name.now ≡ Some mark) }
    ensures place { IfSome result (λ _. StandsAt marks.now place name.now) }
{
    match marks.get_index(place) {
        Some((key, mark)) => {
            if is_same(key.as_bytes(), name) {
                Some(*mark)
            } else {
                None
            }
        }
        None => None,
    }
}

// Where a name stands, or behind all, and its mark.
fn search(marks: &IndexMap<String, Mark, KeyedHash>, name: &str) -> (usize, Option<Mark>)
    ensures { result.1 ≡ get_by_text marks.now name.now }
{
    match marks.get_full(name) {
        Some((place, _, mark)) => (place, Some(*mark)),
        None => (marks.len(), None),
    }
}

// Whether a name stands at this place.
fn stands_at(marks: &IndexMap<String, Mark, KeyedHash>, place: usize, name: &[u8]) -> bool
    ensures { IsTrue result → StandsAt marks.now place name.now }
{
    match marks.get_index(place) {
        Some((key, _)) => is_same(key.as_bytes(), name),
        None => false,
    }
}

// Where a name stands that does not stand where the order says, and its mark. Never inlined: on later walks over a model few names come here.
#[inline(never)]
fn look_up(
    marks: &IndexMap<String, Mark, KeyedHash>,
    order: &mut Order,
    name: &[u8],
) -> (Option<usize>, Option<Mark>)
    requires { IsPrinting name.now }
    ensures place { IfSome result.0 (λ p. StandsAt marks.now p name.now) }
    ensures mark { result.1 ≡ get_by_text marks.now name.now }
{
    let (place, mark) = search(marks, text_of(name));
    order.put(place);
    if stands_at(marks, place, name) {
        (Some(place), mark)
    } else {
        (None, mark)
    }
}

/// Where a name stands, and its mark. It is looked for where the order says first. Always inlined, since a call would hand
/// the place and the mark back through memory.
#[inline(always)]
pub fn seek(
    marks: &IndexMap<String, Mark, KeyedHash>,
    order: &mut Order,
    name: &[u8],
) -> (Option<usize>, Option<Mark>)
    requires { IsPrinting name.now }
    ensures place { IfSome result.0 (λ p. StandsAt marks.now p name.now) }
    ensures mark { result.1 ≡ get_by_text marks.now name.now }
{
    let hint = order.hint();
    if let Some(mark) = mark_at(marks, hint, name) {
        order.pass();
        return (Some(hint), Some(mark));
    }
    look_up(marks, order, name)
}

// Gives a name a mark, wherever it stands. Never inlined: a name comes here once.
#[inline(never)]
fn write(
    alloc: Global,
    marks: &mut IndexMap<String, Mark, KeyedHash>,
    name: &str,
    mark: Mark,
) -> Result<(), AllocError>
    ensures made { OnOk result ((q : List ℕ) → get_by_text marks.new q ≡ with_mark (get_by_text marks.old) name.now mark q) }
    ensures unchanged { OnErr result ((q : List ℕ) → get_by_text marks.new q ≡ get_by_text marks.old q) }
{
    let key = String::from_str(alloc, name)?;
    marks.insert(key, mark)?;
    Ok(())
}

/// Gives a name a mark. It stands at this place, if there is one. Always inlined, since a call costs more than the mark.
#[inline(always)]
pub fn put(
    alloc: Global,
    marks: &mut IndexMap<String, Mark, KeyedHash>,
    place: Option<usize>,
    name: &[u8],
    mark: Mark,
) -> Result<(), AllocError>
    requires name { IsPrinting name.now }
    requires place { IfSome place (λ p. StandsAt marks.old p name.now) }
    ensures made { OnOk result ((q : List ℕ) → get_by_text marks.new q ≡ with_mark (get_by_text marks.old) name.now mark q) }
    ensures unchanged { OnErr result ((q : List ℕ) → get_by_text marks.new q ≡ get_by_text marks.old q) }
{
    match place {
        Some(place) => {
            let (_, old) = marks.pair_mut(place);
            *old = mark;
            Ok(())
        }
        None => write(alloc, marks, text_of(name), mark),
    }
}
