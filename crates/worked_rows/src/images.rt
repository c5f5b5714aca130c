//! Executables, changed byte by byte.
use anyhow::{Context, Result};
use demo_guest::demo_image;
use elf_image::{Image, read_image};
use guest_kernel::Inputs;
use guest_machine::Machine;
use guest_words::limits::DEMO_ROUTINES;
use std::alloc::Global;

/// The file that is read, and what was read last.
#[derive(Drop)]
pub struct Images {
    file: Vec<u8>,
    image: Option<Image>,
}

impl Images {
    pub fn new(alloc: Global) -> Images {
        Images {
            file: Vec::new(alloc),
            image: None,
        }
    }

    /// Takes the file of these bytes, and says how long it is.
    pub fn take_bytes(&mut self, alloc: Global, row: &str) -> Result<String> {
        let mut file = Vec::new(alloc);
        for byte in row.split(' ') {
            file.push(u8::from_str_radix(byte, 16)?)?;
        }
        self.file = file;
        Ok(format!(in alloc; "{} bytes", self.file.len())?)
    }

    /// Takes the file of the demo with that many routines, and shows its words from the entry on, those of one routine.
    pub fn take_demo(&mut self, alloc: Global, row: &str) -> Result<String> {
        let routines: u32 = row.parse()?;
        if routines < 1 || routines > DEMO_ROUTINES {
            return Ok(String::from_str(alloc, "no demo")?);
        }
        self.file = demo_image(alloc, routines)?;
        let mut text = String::new(alloc);
        for word in self.file.chunks(4).skip(21).take(17) {
            for byte in word.iter().rev() {
                text.push_str(format!(in alloc; "{byte:02x}")?.as_str())?;
            }
            text.push(' ')?;
        }
        Ok(text)
    }

    // The file with other bytes at these places.
    fn changed(&self, row: &str) -> Result<Vec<u8>> {
        let mut file = self.file.clone()?;
        for change in row.split(' ').skip(1) {
            let (at, byte) = change.split_once('=').context("no byte")?;
            let at: usize = at.parse()?;
            if let Some(place) = file.get_mut(at) {
                *place = u8::from_str_radix(byte, 16)?;
            }
        }
        Ok(file)
    }

    /// Reads the first bytes of the file with these changes: what the image is, or the number of the refusal.
    pub fn read(&mut self, alloc: Global, row: &str) -> Result<String> {
        let length = match row.split(' ').next() {
            Some(length) => length.parse()?,
            None => 0,
        };
        let mut file = self.changed(row)?;
        file.truncate(length);
        match read_image(alloc, &file) {
            Err(refusal) => Ok(format!(in alloc; "refused {}", refusal.number())?),
            Ok(image) => {
                let text = text_of(alloc, &image)?;
                self.image = Some(image);
                Ok(text)
            }
        }
    }

    /// Whether a guest of the image can begin whose one argument has that many bytes with its zero byte, or why not.
    pub fn begin(&self, alloc: Global, row: &str) -> Result<String> {
        let bytes: u32 = row.parse()?;
        let mut argument = String::new(alloc);
        for _ in 1..bytes {
            argument.push('x')?;
        }
        let mut arguments = Vec::new(alloc);
        arguments.push(argument)?;
        let image = self.image.as_ref().context("no image")?;
        let (inputs, stdin) = (Inputs::new(alloc)?, Vec::new(alloc));
        match Machine::new(alloc, image, arguments.as_slice(), inputs, stdin) {
            Ok(_) => Ok(String::from_str(alloc, "it begins")?),
            Err(refusal) => Ok(format!(in alloc; "{refusal:?}")?),
        }
    }

    /// The name of the routine at an address of the image.
    pub fn name(&self, alloc: Global, row: &str) -> Result<String> {
        let at = u32::from_str_radix(row, 16)?;
        let name = match &self.image {
            None => None,
            Some(image) => image.name_of(alloc, at)?,
        };
        match name {
            None => Ok(String::from_str(alloc, "none")?),
            Some(name) => Ok(String::from_str(alloc, std::str::from_utf8(name.bytes())?)?),
        }
    }
}

// Its entry, place and number of program headers and pages, and of each segment the place, the size and the rights.
fn text_of(alloc: Global, image: &Image) -> Result<String> {
    let (entry, place, count) = (image.entry(), image.header_place(), image.header_count());
    let pages = image.page_count();
    let mut text = format!(in alloc; "{entry:x}, {count} headers at {place:x}, {pages} pages")?;
    for segment in image.segments() {
        let (place, size, bytes) = (segment.place, segment.size, segment.bytes.len());
        let rights = segment.rights;
        text.push_str(format!(in alloc;
            ", {place:x} {size} {bytes} {} {} {}",
            rights.read, rights.write, rights.exec
        )?
        .as_str())?;
    }
    Ok(text)
}
