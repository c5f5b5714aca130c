//! The names of the demo's routines, as symbols.
ghost use Rattle.std.specs.Prelude.{◌≡◌, ◌≤◌, ◌<◌, ◌+◌, ◌∷◌, ◌++◌, true, IfOk, OnOk, decimal, map};
ghost use Rattle.std.specs.List.{range_with_len};
ghost use Rattle.guest_words.specs.Names.{is_name};
ghost use Rattle.demo_guest.specs.Image.{address, routine_symbol, symbols};
ghost use Rattle.rv_asm.specs.declared.limits.TheConstants.{PROGRAM_LINES};

use guest_words::limits::DEMO_ROUTINES;
use guest_words::{Name, NameError, push_decimal};
use rv_asm::{ENTRY, Symbol};
use std::alloc::{AllocError, Global};

// The symbol of a word, whose name these bytes are.
fn named(alloc: Global, name: &[u8], word: u32) -> Result<Symbol, AllocError>
    requires name { is_name name.now ≡ true }
    requires word { word ≤ PROGRAM_LINES }
    ensures symbol { IfOk result (λ symbol. symbol
        ≡ record { name = name.now; at = address word }) }
{
    let at = ENTRY + 4 * word;
    match Name::new(alloc, name) {
        Ok(name) => Ok(Symbol { name, at }),
        Err(NameError::Memory) => Err(AllocError),
        Err(NameError::Bad) => unreachable!(), // it is a name
    }
}

fn routine_name(alloc: Global, routine: u32) -> Result<Vec<u8>, AllocError>
    requires { routine < DEMO_ROUTINES }
    ensures { IfOk result (λ name. name.items ≡ 114 ∷ decimal (routine + 1)) }
{
    let mut name = Vec::from_slice(alloc, b"r")?;
    push_decimal(&mut name, u128::from(routine + 1))?;
    Ok(name)
}

// The symbol of a routine that begins at this word.
fn routine_symbol(alloc: Global, routine: u32, word: u32) -> Result<Symbol, AllocError>
    requires routine { routine < DEMO_ROUTINES }
    requires word { word ≤ PROGRAM_LINES }
    ensures { IfOk result (λ symbol. symbol
        ≡ record { name = 114 ∷ decimal (routine + 1); at = address word }) }
{
    let name = routine_name(alloc, routine)?;
    named(alloc, &name, word)
}

// Appends the symbols of the routines.
fn push_routines(alloc: Global, symbols: &mut Vec<Symbol>, routines: u32) -> Result<(), AllocError>
    requires { routines ≤ DEMO_ROUTINES }
    ensures { OnOk result (symbols.new.items
        ≡ symbols.old.items ++ map (routine_symbol routines) (range_with_len 0 routines)) }
{
    // Behind the first ten words, two words for each call, and the last three.
    let mut word = 13 + 2 * routines;
    for routine in 0..routines {
        symbols.push(routine_symbol(alloc, routine, word)?)?;
        word += routine % 4 + 2;
    }
    Ok(())
}

/// The symbols of the demo with that many routines.
#[tactic(auto, unfolding(crate::specs::Image::symbols))]
pub(crate) fn symbols(alloc: Global, routines: u32) -> Result<Vec<Symbol>, AllocError>
    requires { routines ≤ DEMO_ROUTINES }
    ensures { IfOk result (λ list. list.items ≡ symbols routines) }
{
    let mut symbols = Vec::new(alloc);
    symbols.push(named(alloc, b"_start", 0)?)?;
    symbols.push(named(alloc, b"thread", 5)?)?;
    push_routines(alloc, &mut symbols, routines)?;
    Ok(symbols)
}
