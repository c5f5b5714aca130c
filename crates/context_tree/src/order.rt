//! The contexts right under each context, in order of their first begin.
ghost use Rattle.std.specs.Prelude.{◌≡◌, ◌<◌, ◌≤◌, ◌++◌, ◌∷◌, [], ℕ, List, length, vec_len};
ghost use Rattle.std.specs.Vec.{vec_capacity};
ghost use Rattle.guest_words.specs.declared.limits.TheConstants.{CONTEXTS};
ghost use Rattle.context_tree.specs.Links.{IsLinked};
ghost use Rattle.context_tree.specs.Private.Adding.{AreLinked};
ghost use Rattle.context_tree.specs.Numbers.{NumbersStandFor, numbered};
ghost use Rattle.context_tree.specs.Private.Leaving.{IsLeftBy};

use crate::ContextNumbers;

/// The places of a context in the order of the text: the first and the last of those right under it, the next one after it
/// right under the same context, and how many entries it has.
#[derive(Clone, Copy)]
pub(crate) struct Links {
    pub first_child: Option<u32>,
    pub last_child: Option<u32>,
    pub next_sibling: Option<u32>,
    pub depth: u32,
}

impl Links {
    /// Of a context with `depth` entries, and none under it.
    pub(crate) fn new(depth: u32) -> Links
        ensures { result ≡ record { first_child = None; last_child = None; next_sibling = None; depth = depth } }
    {
        Links {
            first_child: None,
            last_child: None,
            next_sibling: None,
            depth,
        }
    }
}

/// One more context comes last, right under the context `above`. There is room, so it does not allocate.
pub(crate) fn add_link(links: &mut Vec<Links>, above: u32)
    requires spare { vec_len links.old < vec_capacity links.old }
    requires few { length links.old.items ≤ CONTEXTS }
    requires linked { AreLinked links.old.items above }
    ensures { (places : List (ℕ × ℕ)) (entry : ℕ) → IsLinked places links.old.items
        → above ≤ length places
        → IsLinked (places ++ (above, entry) ∷ []) links.new.items }
{
    let number = links.len() as u32;
    let place = links[above as usize];
    match place.last_child {
        Some(last) => links[last as usize].next_sibling = Some(number),
        None => links[above as usize].first_child = Some(number),
    }
    links[above as usize].last_child = Some(number);
    links.push(Links::new(place.depth + 1)).unwrap();
}

/// The first context in the order of the text that comes after the one of the number `from` and all that are under it.
pub(crate) fn after_under(links: &[Links], numbers: &ContextNumbers, from: u32) -> Option<u32>
    requires linked { IsLinked numbers.now links.now }
    requires within { from ≤ length numbers.now }
    ensures { (contexts : List (List ℕ)) → NumbersStandFor numbers.now contexts
        → IsLeftBy contexts (numbered contexts from) result }
{
    let mut n = from;
    while n != 0 {
        if let Some(next) = links[n as usize].next_sibling {
            return Some(next);
        }
        n = numbers.place(n).0;
    }
    None
}
