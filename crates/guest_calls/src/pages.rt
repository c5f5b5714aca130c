//! The system calls on pages: brk(2), munmap(2), mmap2(2) and mprotect(2).
ghost use Rattle.std.specs.Prelude.{◌≡◌, ℕ, ◌≤◌, ◌<◌, ◌+◌, ◌%◌, ◌^◌, ◌==◌, true, IfOk, IfSome, OnOk, OnErr, Some};
ghost use Rattle.guest_memory.specs.declared.reservations.Reservations.{Reservations};
ghost use Rattle.guest_memory.specs.Guest.{memory_of};
ghost use Rattle.guest_memory.specs.Memory.{AreFree, ArePagesMapped, mapped_pages, with_pages};
ghost use Rattle.trace_model.specs.EventList.{EventList};
ghost use Rattle.guest_calls.specs.Outcome.{asked, Does, DoesToMemory};
ghost use Rattle.guest_calls.specs.Pages.{pages, rights_of, first_fit, are_mapped, IsBreakFree};
ghost use Rattle.guest_calls.specs.Pages as specs;

use crate::caller::Caller;
use guest_kernel::{Answer, EINVAL, ENOMEM, ENOSYS, State};
use guest_memory::GuestMemory;
use guest_words::limits::PAGES;
use guest_words::{MMAP_BASE, PAGE_SIZE, Rights};
use std::alloc::AllocError;

// The bits of the flags that hold the type of a mapping.
const MAP_TYPE: u32 = 0xF;

const MAP_PRIVATE: u32 = 2;

const MAP_FIXED: u32 = 0x10;

const MAP_ANONYMOUS: u32 = 0x20;

const MAP_FIXED_NOREPLACE: u32 = 0x10_0000;

const PROT_READ: u32 = 1;

const PROT_WRITE: u32 = 2;

const PROT_EXEC: u32 = 4;

// How many pages the bytes fill, the last one perhaps in part.
fn pages(bytes: u32) -> u32
    ensures value { result ≡ pages bytes }
    ensures most { result ≤ 2 ^ 20 }
{
    bytes.div_ceil(PAGE_SIZE)
}

// What can be done with pages of this protection.
fn rights_of(prot: u32) -> Rights
    ensures { result ≡ rights_of prot }
{
    Rights {
        read: prot & PROT_READ != 0 || prot & PROT_WRITE != 0,
        write: prot & PROT_WRITE != 0,
        exec: prot & PROT_EXEC != 0,
    }
}

// Maps free pages, where the limit allows it.
fn map(memory: &mut GuestMemory, page: u32, count: u32, rights: Rights) -> Result<(), AllocError>
    requires range { page + count ≤ 1048576 }
    requires free { AreFree (memory_of memory.old) page count }
    requires room { mapped_pages (memory_of memory.old) + count ≤ PAGES }
    ensures ok { OnOk result (memory_of memory.new
        ≡ with_pages (memory_of memory.old) page count (Some rights)) }
    ensures err { OnErr result (memory_of memory.new ≡ memory_of memory.old) }
{
    match memory.map(page, count, rights) {
        Ok(()) => Ok(()),
        Err(_) => Err(AllocError),
    }
}

/// munmap(2)
pub(crate) fn munmap(memory: &mut GuestMemory, caller: &Caller) -> Answer
    ensures { DoesToMemory specs.munmap caller.now memory.old result memory.new }
{
    let (at, count) = (caller.argument(0), pages(caller.argument(1)));
    if at % PAGE_SIZE != 0 {
        return Answer::Back { value: EINVAL };
    }
    if caller.argument(1) == 0 {
        return Answer::Back { value: EINVAL };
    }
    if at / PAGE_SIZE + count > 1 << 20 {
        return Answer::Back { value: EINVAL };
    }
    memory.unmap(at / PAGE_SIZE, count);
    Answer::Back { value: 0 }
}

// Whether each page of the range is mapped.
fn are_mapped(memory: &GuestMemory, page: u32, count: u32) -> bool
    requires { page + count ≤ 1048576 }
    ensures value { result ≡ are_mapped (memory_of memory.now) page count }
    ensures each { result ≡ true → ArePagesMapped (memory_of memory.now) page count }
{
    memory.is_mapped(page, count)
}

/// mprotect(2)
pub(crate) fn mprotect(memory: &mut GuestMemory, caller: &Caller) -> Answer
    ensures { DoesToMemory specs.mprotect caller.now memory.old result memory.new }
{
    let (at, bytes) = (caller.argument(0), caller.argument(1));
    if at % PAGE_SIZE != 0 {
        return Answer::Back { value: EINVAL };
    }
    if bytes == 0 {
        return Answer::Back { value: 0 };
    }
    if u64::from(at) + u64::from(bytes) > 1 << 32 {
        return Answer::Back { value: ENOMEM };
    }
    let (page, count) = (at / PAGE_SIZE, pages(bytes));
    if !are_mapped(memory, page, count) {
        return Answer::Back { value: ENOMEM };
    }
    memory.protect(page, count, rights_of(caller.argument(2)));
    Answer::Back { value: 0 }
}

// The lowest page from 0x40000000 on at which `count` free pages stand.
fn first_fit(memory: &GuestMemory, count: u32) -> Option<u32>
    requires { 1 ≤ count }
    ensures value { result ≡ first_fit (memory_of memory.now) count }
    ensures free { IfSome result (λ page. AreFree (memory_of memory.now) page count) }
    ensures end { IfSome result (λ page. page + count ≤ 0x7F000) }
    ensures start { IfSome result (λ page. 0x40000 ≤ page) }
{
    memory.find_free(count)
}

// Whether the flags ask for a private mapping.
#[tactic(auto, using(std::proofs::lemmas::Nat::and_mask))]
fn is_private(flags: u32) -> bool
    ensures { result ≡ (flags % 2 ^ 4 == 2) }
{
    flags & MAP_TYPE == MAP_PRIVATE
}

/// mmap2(2)
pub(crate) fn mmap2(memory: &mut GuestMemory, caller: &Caller) -> Result<Answer, AllocError>
    ensures does { IfOk result (λ answer. DoesToMemory specs.mmap2 caller.now
        memory.old answer memory.new) }
    ensures refused { OnErr result (memory_of memory.new ≡ memory_of memory.old) }
    ensures high { (page : ℕ) → page < 0x40000
        → (memory_of memory.new).rights page ≡ (memory_of memory.old).rights page }
{
    let (bytes, flags) = (caller.argument(1), caller.argument(3));
    if !is_private(flags) {
        return Ok(Answer::Back { value: ENOSYS });
    }
    if flags & MAP_ANONYMOUS == 0 {
        return Ok(Answer::Back { value: ENOSYS });
    }
    if flags & (MAP_FIXED | MAP_FIXED_NOREPLACE) != 0 {
        return Ok(Answer::Back { value: ENOSYS });
    }
    if bytes == 0 {
        return Ok(Answer::Back { value: EINVAL });
    }
    let count = pages(bytes);
    // before the search, which goes over that many pages
    if memory.mapped() + count > PAGES {
        return Ok(Answer::Back { value: ENOMEM });
    }
    let Some(page) = first_fit(memory, count) else {
        return Ok(Answer::Back { value: ENOMEM });
    };
    map(memory, page, count, rights_of(caller.argument(2)))?;
    Ok(Answer::Back {
        value: page * PAGE_SIZE,
    })
}

/// brk(2)
pub(crate) fn brk(
    state: &mut State,
    memory: &mut GuestMemory,
    caller: &Caller,
) -> Result<Answer, AllocError>
    requires break_free { IsBreakFree (memory_of memory.old) state.old.program_break }
    ensures does { (held : Reservations) (events : EventList)
        → IfOk result (λ answer. Does
        (specs.brk (asked caller.now state.old memory.old held)) answer
        state.new memory.new held events events) }
    ensures memory_refused { OnErr result (memory_of memory.new ≡ memory_of memory.old) }
    ensures state_refused { OnErr result (state.new ≡ state.old) }
    ensures break_free { IsBreakFree (memory_of memory.new) state.new.program_break }
{
    let (at, old) = (caller.argument(0), state.program_break());
    if at < state.first_break() {
        return Ok(Answer::Back { value: old });
    }
    if at > MMAP_BASE {
        return Ok(Answer::Back { value: old });
    }
    let (old_end, end) = (pages(old), pages(at));
    let growth = end.saturating_sub(old_end);
    if memory.mapped() + growth > PAGES {
        return Ok(Answer::Back { value: old });
    }
    map(memory, old_end, growth, rights_of(PROT_READ | PROT_WRITE))?;
    memory.unmap(end, old_end.saturating_sub(end));
    state.set_program_break(at);
    Ok(Answer::Back { value: at })
}
