//! The entries of activations.
ghost use Rattle.std.specs.Prelude.{◌≡◌};
ghost use Rattle.stored_traces.specs.Entries.{entry_begun};

use guest_words::Addr;
use trace_model::Event;

/// The entry of the activation that the event begins.
pub(crate) fn entry_begun(e: &Event) -> Option<Addr>
    ensures { result ≡ entry_begun e.now }
{
    match *e {
        Event::Call { entry, .. } | Event::Start { entry, .. } => Some(entry),
        _ => None,
    }
}
