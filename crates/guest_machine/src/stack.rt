//! The guest's stack at its start.
ghost use Rattle.std.specs.Prelude.{◌≡◌, ◌≤◌, ◌<◌, ◌+◌, ◌^◌, ◌++◌, length, map, flat_map, string_bytes, IfOk, OnOk};
ghost use Rattle.std.specs.Int.{w32, to_le_bytes};
ghost use Rattle.guest_machine.specs.Private.Setup.{limited_length};
ghost use Rattle.guest_machine.specs.Start.{string_addresses, strings, stack_words, strings_address, random_bytes};

use elf_image::{Image, PROGRAM_HEADER_SIZE};
use guest_words::{Addr, PAGE_SIZE};
use std::alloc::{AllocError, Global};

/// The most bytes of the argument strings, each with its zero byte.
pub const STRINGS_LIMIT: usize = 65536;

/// Where the sixteen bytes stand that stand for random ones.
pub(crate) const RANDOM_ADDRESS: u32 = 0x7FFF_FFF0;

// The keys of the auxiliary vector, getauxval(3).
const AT_NULL: u32 = 0;

const AT_PHDR: u32 = 3;

const AT_PHENT: u32 = 4;

const AT_PHNUM: u32 = 5;

const AT_PAGESZ: u32 = 6;

const AT_ENTRY: u32 = 9;

const AT_RANDOM: u32 = 25;

/// How many bytes the argument strings have with their zero bytes; None where they are more than the limit.
pub(crate) fn strings_length(arguments: &[String]) -> Option<u32>
    ensures { result ≡ limited_length (map string_bytes arguments.now) }
{
    let mut total = 0;
    for argument in arguments {
        let more = argument.as_str().len();
        if more >= STRINGS_LIMIT - total {
            return None;
        }
        total += more + 1;
    }
    Some(total as u32)
}

/// The argument strings, each with its zero byte, and the bytes that stand for random ones.
pub(crate) fn argument_bytes(alloc: Global, arguments: &[String]) -> Result<Vec<u8>, AllocError>
    ensures { IfOk result (λ bytes. bytes.items
        ≡ strings (map string_bytes arguments.now) ++ random_bytes) }
{
    let mut bytes = Vec::new(alloc);
    for argument in arguments {
        bytes.extend_from_slice(argument.as_str().as_bytes())?;
        bytes.push(0)?;
    }
    bytes.extend_from_slice(&[0, 1, 2, 3, 4, 5, 6, 7, 8, 9, 10, 11, 12, 13, 14, 15])?;
    Ok(bytes)
}

// Adds a word, its lowest byte first.
fn push_word(words: &mut Vec<u8>, word: u32) -> Result<(), AllocError>
    ensures { OnOk result (words.new.items ≡ words.old.items ++ to_le_bytes w32 word) }
{
    words.extend_from_slice(&word.to_le_bytes())
}

// Adds words.
fn push_words(words: &mut Vec<u8>, more: &[u32]) -> Result<(), AllocError>
    ensures { OnOk result (words.new.items
        ≡ words.old.items ++ flat_map (λ n. to_le_bytes w32 n) more.now) }
{
    for word in more {
        push_word(words, *word)?;
    }
    Ok(())
}

// Adds the addresses of the argument strings, of which the first stands here.
fn push_addresses(words: &mut Vec<u8>, first: Addr, arguments: &[String]) -> Result<(), AllocError>
    requires { first + length (strings (map string_bytes arguments.now)) < 2 ^ 32 }
    ensures { OnOk result (words.new.items
        ≡ words.old.items ++ flat_map
        (λ n. to_le_bytes w32 n) (string_addresses first (map string_bytes arguments.now))) }
{
    let mut at = first;
    let mut rest = arguments;
    while let [argument, further @ ..] = rest {
        push_word(words, at)?;
        at += argument.as_str().len() as u32 + 1;
        rest = further;
    }
    Ok(())
}

/// The words at the stack pointer: the number of arguments, their addresses and a zero, the end of the empty environment,
/// and the auxiliary vector of the image.
pub(crate) fn word_bytes(
    alloc: Global,
    image: &Image,
    arguments: &[String],
    first: Addr,
) -> Result<Vec<u8>, AllocError>
    requires address { first ≡ strings_address (map string_bytes arguments.now) }
    requires limit { length (strings (map string_bytes arguments.now)) ≤ STRINGS_LIMIT }
    requires count { length arguments.now ≤ STRINGS_LIMIT }
    ensures { IfOk result (λ bytes. bytes.items
        ≡ flat_map (λ n. to_le_bytes w32 n)
        (stack_words image.now (map string_bytes arguments.now))) }
{
    let mut words = Vec::new(alloc);
    push_word(&mut words, arguments.len() as u32)?;
    push_addresses(&mut words, first, arguments)?;
    let rest = [
        0,
        0,
        AT_PHDR,
        image.header_place(),
        AT_PHENT,
        PROGRAM_HEADER_SIZE as u32,
        AT_PHNUM,
        image.header_count(),
        AT_PAGESZ,
        PAGE_SIZE,
        AT_ENTRY,
        image.entry(),
        AT_RANDOM,
        RANDOM_ADDRESS,
        AT_NULL,
        0,
    ];
    push_words(&mut words, &rest)?;
    Ok(words)
}
