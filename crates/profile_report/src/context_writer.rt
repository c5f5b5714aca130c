//! The text of calling contexts: a version, each context in the order of the text with its points, and how many they are.
ghost use Rattle.std.specs.Prelude.{◌≡◌, ◌≤◌, ◌++◌, ℕ, List, length, OnErr, OnOk};
ghost use Rattle.std.specs.List.{flat_map};
ghost use Rattle.trace_model.specs.declared.event_kinds.Event.{Event};
ghost use Rattle.profile_report.specs.LineForms.{ended};
ghost use Rattle.context_tree.specs.Contexts.{contexts};
ghost use Rattle.context_tree.specs.Numbers.{numbered};
ghost use Rattle.context_tree.specs.Order.{IsInOrder};
ghost use Rattle.guest_words.specs.declared.limits.TheConstants.{CONTEXTS};
ghost use Rattle.context_tree.specs.Trees.{TreeStandsFor};
ghost use Rattle.guest_words.specs.Texts.{KeepsOn};
ghost use Rattle.profile_report.specs.ContextText.{context_line, context_text, contexts_text};

use crate::line_text::{hex_address, or_cut_back, push_number_line};
use crate::writer::push_points;
use context_tree::Tree;
use guest_words::{Addr, push_decimal};
use std::alloc::AllocError;

// Appends the line of a context.
#[tactic(auto, using(guest_words::proofs::Texts::keeps, guest_words::proofs::Texts::keeps_same, guest_words::proofs::Texts::keeps_further))]
fn push_context_line(text: &mut Vec<u8>, depth: u32, entry: Addr) -> Result<(), AllocError>
    ensures ok { OnOk result (text.new.items ≡ text.old.items ++ ended (context_line depth entry)) }
    ensures kept { KeepsOn text.old.items text.new.items }
{
    text.extend_from_slice(b"context ")?;
    push_decimal(text, u128::from(depth))?;
    text.extend_from_slice(b" ")?;
    text.extend_from_slice(&hex_address(entry))?;
    text.extend_from_slice(b"\n")
}

// Appends the lines of the context of a number.
#[tactic(auto, using(guest_words::proofs::Texts::keeps, guest_words::proofs::Texts::keeps_same, guest_words::proofs::Texts::keeps_further))]
fn push_context(text: &mut Vec<u8>, tree: &Tree, n: u32) -> Result<(), AllocError>
    requires some { 1 ≤ n }
    requires within { n ≤ length tree.now.branches.places }
    ensures ok { (past : List Event) → TreeStandsFor tree.now past
        → OnOk result (text.new.items ≡ text.old.items ++ context_text past (numbered (contexts past) n)) }
    ensures kept { KeepsOn text.old.items text.new.items }
{
    let (depth, entry, points) = tree.at(n)?;
    push_context_line(text, depth, entry)?;
    push_points(text, &points)
}

// Appends the lines of all contexts.
#[tactic(auto, using(guest_words::proofs::Texts::keeps, guest_words::proofs::Texts::keeps_same, guest_words::proofs::Texts::keeps_further))]
fn push_each(text: &mut Vec<u8>, tree: &Tree) -> Result<(), AllocError>
    ensures ok { (past : List Event) (ordered : List (List ℕ)) → TreeStandsFor tree.now past
        → IsInOrder (contexts past) ordered
        → OnOk result (text.new.items ≡ text.old.items ++ flat_map (context_text past) ordered) }
    ensures kept { KeepsOn text.old.items text.new.items }
{
    let mut next = tree.next_in_order(0);
    for _ in 0..tree.contexts() {
        if let Some(n) = next {
            push_context(text, tree, n)?;
            next = tree.next_in_order(n);
        }
    }
    Ok(())
}

/// Appends the text of all contexts, in the order of the text. If it runs out of memory, the text stays as it was.
#[tactic(auto, using(guest_words::proofs::Texts::keeps, guest_words::proofs::Texts::cut_back))]
pub fn push_contexts(text: &mut Vec<u8>, tree: &Tree) -> Result<(), AllocError>
    ensures few { (past : List Event) → TreeStandsFor tree.now past
        → OnOk result (length (contexts past) ≤ CONTEXTS) }
    ensures text { (past : List Event) (ordered : List (List ℕ)) → TreeStandsFor tree.now past
        → IsInOrder (contexts past) ordered
        → OnOk result (text.new.items ≡ text.old.items ++ contexts_text past ordered) }
    ensures err { OnErr result (text.new.items ≡ text.old.items) }
{
    let length = text.len();
    text.extend_from_slice(b"contexts 1\n")?;
    or_cut_back(push_each(text, tree), text, length)?;
    or_cut_back(
        push_number_line(text, b"done ", tree.contexts() as u64),
        text,
        length,
    )
}
