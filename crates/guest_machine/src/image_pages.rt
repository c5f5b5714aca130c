//! The pages of an image.
ghost use Rattle.std.specs.Prelude.{◌≡◌, ◌≤◌, ◌<◌, ℕ, None, length, IfOk, OnOk, slice_index_or};
ghost use Rattle.std.specs.List.{All};
ghost use Rattle.guest_memory.specs.Guest.{memory_of};
ghost use Rattle.guest_memory.specs.Memory.{no_memory};
ghost use Rattle.elf_image.specs.Image.{IsPlaced, page_count};
ghost use Rattle.guest_machine.specs.Start.{greatest_end, joined, rights_or_none, image_memory, with_segment};
ghost use Rattle.guest_machine.specs.Private.Setup.{AreRights, mapped_below, pages_of};

use elf_image::Segment;
use guest_memory::{GuestMemory, MemError};
use guest_words::limits::PAGES;
use guest_words::{MMAP_BASE, PAGE_SIZE, Rights};
use std::alloc::{AllocError, Global};

/// Segments lie below this page.
pub const IMAGE_PAGES: usize = (MMAP_BASE / PAGE_SIZE) as usize;

// What a page allows, with one segment more; what can be written can be read.
fn joined(page: Option<Rights>, segment: Rights) -> Rights
    ensures { result ≡ joined (rights_or_none page) segment }
{
    let page = page.unwrap_or(Rights {
        read: false,
        write: false,
        exec: false,
    });
    Rights {
        read: page.read || segment.read || segment.write,
        write: page.write || segment.write,
        exec: page.exec || segment.exec,
    }
}

// Adds the rights of a segment to those of the pages that it touches.
fn add_segment(table: &mut Vec<Option<Rights>>, segment: &Segment)
    requires placed { IsPlaced segment.now }
    requires whole { length table.old.items ≡ IMAGE_PAGES }
    ensures whole { length table.new.items ≡ IMAGE_PAGES }
    ensures rights { (page : ℕ) → page < IMAGE_PAGES
        → slice_index_or table.new.items page None
        ≡ with_segment page (slice_index_or table.old.items page None) segment.now }
{
    let first = segment.place / PAGE_SIZE;
    let end = (segment.place + (segment.size - 1)) / PAGE_SIZE + 1;
    for page in first..end {
        table[page as usize] = Some(joined(table[page as usize], segment.rights));
    }
}

// `count` pages without rights.
fn without_rights(alloc: Global, count: usize) -> Result<Vec<Option<Rights>>, AllocError>
    ensures whole { IfOk result (λ table. length table.items ≡ count) }
    ensures each { IfOk result (λ table. (page : ℕ) → page < count
        → slice_index_or table.items page None ≡ None) }
{
    vec![in alloc; None; count]
}

// The rights of each page, by the segments that touch it.
fn page_rights(alloc: Global, segments: &[Segment]) -> Result<Vec<Option<Rights>>, AllocError>
    requires { All IsPlaced segments.now }
    ensures { IfOk result (λ table. AreRights segments.now table.items) }
{
    let mut table = without_rights(alloc, IMAGE_PAGES)?;
    for segment in segments {
        add_segment(&mut table, segment);
    }
    Ok(table)
}

// Maps the pages that have rights.
fn map_pages(
    memory: &mut GuestMemory,
    segments: &[Segment],
    table: &[Option<Rights>],
) -> Result<(), AllocError>
    requires empty { memory_of memory.old ≡ no_memory }
    requires rights { AreRights segments.now table.now }
    requires few { page_count segments.now ≤ PAGES }
    ensures { OnOk result (memory_of memory.new ≡ mapped_below table.now IMAGE_PAGES) }
{
    for page in 0..table.len() {
        if let Some(rights) = table[page] {
            match memory.map(page as u32, 1, rights) {
                Ok(()) => {}
                Err(MemError::NoRoom) => unreachable!(),
                Err(_) => return Err(AllocError),
            }
        }
    }
    Ok(())
}

// Writes the bytes of each segment.
fn write_segments(memory: &mut GuestMemory, segments: &[Segment])
    requires placed { All IsPlaced segments.now }
    requires mapped { memory_of memory.old ≡ pages_of segments.now }
    ensures { memory_of memory.new ≡ image_memory segments.now }
{
    for segment in segments {
        memory.first_contents(segment.place, segment.bytes.as_slice());
    }
}

/// The memory of an image: the pages that its segments touch, with their bytes.
pub(crate) fn image_memory(alloc: Global, segments: &[Segment]) -> Result<GuestMemory, AllocError>
    requires placed { All IsPlaced segments.now }
    requires few { page_count segments.now ≤ PAGES }
    ensures { IfOk result (λ memory. memory_of memory ≡ image_memory segments.now) }
{
    let table = page_rights(alloc, segments)?;
    let mut memory = GuestMemory::new(alloc)?;
    map_pages(&mut memory, segments, table.as_slice())?;
    write_segments(&mut memory, segments);
    Ok(memory)
}

/// The greatest end of a segment.
pub(crate) fn greatest_end(segments: &[Segment]) -> u32
    requires { All IsPlaced segments.now }
    ensures value { result ≡ greatest_end segments.now }
    ensures bound { result ≤ 0x40000000 }
{
    let mut end = 0;
    for segment in segments {
        end = end.max(segment.place + segment.size);
    }
    end
}
