//! The pages, and the words by them.
ghost use Rattle.std.specs.Prelude.{◌≡◌, ◌≢◌, ◌<◌, ◌≤◌, ◌+◌, ◌*◌, ◌/◌, ◌%◌, ◌^◌, ◌↔◌, ◌&&◌, ◌==◌, if◌then◌else◌, [], ℕ, Some, All, IfOk, IfSome, IsOk, IsTrue, OnErr, OnOk, is_some, length, map, nat_le, nat_lt, slice_index, slice_set, true, vec_len};
ghost use Rattle.std.specs.Borrow.{sem};
ghost use Rattle.shadow_pages.specs.Directory.{HasTable};
ghost use Rattle.shadow_pages.specs.Pages.{AreCovered, AreDistinct, AreFresh, HasPlace, HasWord, HaveAll, IsFull, IsIndexed, IsLow, IsReserved, changed, covers, in_range, page_at, page_of, stamp_at, zeros};

use crate::directory::Directory;
use guest_words::{PAGE_WORDS, Word};
use stamps::Stamp;
use std::alloc::{AllocError, Global};
use std::marker::Model;

// A page.
#[derive(Drop)]
struct Page<S: Stamp> {
    number: u32,
    stamps: Vec<S>,
}

/// Stamps of words. Only `reserve` allocates and makes pages.
#[derive(Drop)]
pub struct Shadow<S: Stamp> {
    alloc: Global,
    directory: Directory,
    pages: Vec<Page<S>>,
}

impl<S: Stamp> Model for Shadow<S> {
    ghost use Rattle.std.specs.Prelude.{map};
    ghost use Rattle.shadow_pages.specs.Pages.{AreKept, Pages};

    ghost Value = { Pages };

    ghost view = { λ s. record { pages = map (λ p. record { number = p.number; stamps = map S.number_of p.stamps.items }) s.pages.items } };

    ghost invariant = { λ s. AreKept s.directory (map (λ p. record { number = p.number; stamps = map S.number_of p.stamps.items }) s.pages.items) };
}

impl<S: Stamp> Shadow<S> {
    ghost use Rattle.shadow_pages.specs.Lending.{LendsPage, LendsPageOf};

    /// No page. It does not allocate.
    pub fn new(alloc: Global) -> Result<Shadow<S>, AllocError>
        ensures { IfOk result (λ s. s.pages ≡ []) }
    {
        Ok(Shadow {
            alloc,
            directory: Directory::new(alloc),
            pages: Vec::new(alloc),
        })
    }

    /// How many pages there are.
    pub fn pages(&self) -> usize
        ensures value { result ≡ length self.now.pages }
        ensures distinct { AreDistinct self.now.pages }
        ensures low { All IsLow self.now.pages }
        ensures full { All IsFull self.now.pages }
    {
        self.pages.len()
    }

    /// The page at the place: its first word, and the stamps of its words.
    pub fn page(&self, i: usize) -> (Word, &[S])
        requires { i < length self.now.pages }
        ensures first { result.0 ≡ 1024 * (page_at self.now.pages i).number }
        ensures stamps { map S.number_of result.1.now ≡ (page_at self.now.pages i).stamps }
        ensures count { length result.1.now ≡ 1024 }
    {
        let page = &self.pages[i];
        (Word::of(page.number << 12), page.stamps.as_slice())
    }

    /// The stamps of the page at the place, for writing.
    #[inline(always)]
    pub fn page_mut(&mut self, i: usize) -> &mut [S]
        requires { i < length self.old.pages }
        ensures* writes_back { sem 𝓛 (LendsPage S.row S.Stamp self.entry i result) }
        ensures value { map S.number_of result.now ≡ (page_at self.old.pages i).stamps }
        ensures count { length result.now ≡ 1024 }
    {
        let page = &mut self.pages[i];
        let stamps = &mut page.stamps;
        stamps.as_mut_slice()
    }

    /// Whether a page has the word. No two pages have one word.
    #[inline(always)]
    pub fn covers(&self, w: Word) -> bool
        ensures value { result ≡ covers self.now.pages w }
        ensures page { IsTrue result ↔ ((i : ℕ) × (i < length self.now.pages)
            × ((page_at self.now.pages i).number ≡ w / 1024)) }
        ensures one { AreDistinct self.now.pages }
    {
        self.directory.place(w.number() >> 10).is_some()
    }

    /// The stamp of the word: that of the number 0 where no page has the word.
    #[inline(always)]
    pub fn get(&self, w: Word) -> S
        ensures { S.number_of result ≡ stamp_at self.now.pages w }
    {
        match self.directory.place(w.number() >> 10) {
            Some(place) => self.pages[place].stamps[w.number() as usize % PAGE_WORDS],
            None => S::from_number(0),
        }
    }

    /// The place of the page that has the word, if one has it.
    #[inline(always)]
    pub fn find(&self, w: Word) -> Option<usize>
        ensures place { IfSome result (HasPlace self.now.pages w) }
        ensures some { is_some result ≡ covers self.now.pages w }
    {
        self.directory.place(w.number() >> 10)
    }

    /// Whether the page at the place, if there is one, has the word.
    #[inline(always)]
    pub fn has_at(&self, place: usize, w: Word) -> bool
        ensures { result ≡ true → HasPlace self.now.pages w place }
    {
        match self.pages.get(place) {
            Some(page) => page.number == w.number() >> 10,
            None => false,
        }
    }

    /// The place of the page that has the covered word.
    #[inline(always)]
    pub fn place(&self, w: Word) -> usize
        requires { covers self.now.pages w ≡ true }
        ensures { HasPlace self.now.pages w result }
    {
        self.find(w).unwrap()
    }

    /// The stamp of the word, by the place of its page.
    #[inline(always)]
    pub fn get_at(&self, place: usize, w: Word) -> S
        requires { HasPlace self.now.pages w place }
        ensures { S.number_of result ≡ stamp_at self.now.pages w }
    {
        self.pages[place].stamps[w.number() as usize % PAGE_WORDS]
    }

    /// Sets the stamp of the word, by the place of its page.
    #[inline(always)]
    pub fn set_at(&mut self, place: usize, w: Word, s: S)
        requires { HasPlace self.old.pages w place }
        ensures pages { self.new.pages ≡ changed self.old.pages (w / 1024)
            (λ old. slice_set old (w % 1024) (S.number_of s)) }
        ensures this { stamp_at self.new.pages w ≡ S.number_of s }
        ensures others { (v : ℕ) → v ≢ w → stamp_at self.new.pages v ≡ stamp_at self.old.pages v }
        ensures covered { (v : ℕ) → covers self.new.pages v ≡ covers self.old.pages v }
    {
        let stamps = self.page_mut(place);
        stamps[w.number() as usize % PAGE_WORDS] = s;
    }

    /// The stamps of the page that has the covered word, for writing: the word's own stands at its number modulo 1024. For a
    /// row of words take a part of it.
    pub fn page_of_mut(&mut self, w: Word) -> &mut [S]
        requires { covers self.old.pages w ≡ true }
        ensures* writes_back { sem 𝓛 (LendsPageOf S.row S.Stamp self.entry (w / 1024) result) }
        ensures value { page_of self.old.pages (w / 1024)
            ≡ Some (record { number = w / 1024; stamps = map S.number_of result.now }) }
        ensures count { length result.now ≡ 1024 }
    {
        let place = self.place(w);
        self.page_mut(place)
    }

    /// Sets the stamp of a covered word.
    pub fn set(&mut self, w: Word, s: S)
        requires { covers self.old.pages w ≡ true }
        ensures pages { self.new.pages ≡ changed self.old.pages (w / 1024)
            (λ old. slice_set old (w % 1024) (S.number_of s)) }
        ensures this { stamp_at self.new.pages w ≡ S.number_of s }
        ensures others { (v : ℕ) → v ≢ w → stamp_at self.new.pages v ≡ stamp_at self.old.pages v }
        ensures covered { (v : ℕ) → covers self.new.pages v ≡ covers self.old.pages v }
    {
        let place = self.place(w);
        self.set_at(place, w, s);
    }

    // Sets the stamps of the words of a range that lie in one page.
    fn fill_page(&mut self, number: u32, first: Word, count: u32, s: S)
        requires end { first + count ≤ 2 ^ 30 }
        requires meets { HasWord first count number }
        requires covered { AreCovered self.old.pages first count }
        ensures stamps { (w : ℕ) → stamp_at self.new.pages w
            ≡ (if (w / 1024 == number)
            && in_range first count w then S.number_of s else stamp_at self.old.pages w) }
        ensures covered { (w : ℕ) → covers self.new.pages w ≡ covers self.old.pages w }
        ensures pages { length self.new.pages ≡ length self.old.pages }
    {
        let start = number << 10;
        let from = first.number().max(start) - start;
        let to = (first.number() + count).min(start + PAGE_WORDS as u32) - start;
        let row = self.page_of_mut(Word::of(number << 12));
        fill_row(row, from as usize, to as usize, s);
    }

    /// Sets the stamps of all words of a range, page by page.
    pub fn fill(&mut self, first: Word, count: u32, s: S)
        requires end { first + count ≤ 2 ^ 30 }
        requires covered { AreCovered self.old.pages first count }
        ensures stamps { (w : ℕ) → stamp_at self.new.pages w
            ≡ (if in_range first count w then S.number_of s else stamp_at self.old.pages w) }
        ensures covered { (w : ℕ) → covers self.new.pages w ≡ covers self.old.pages w }
        ensures pages { length self.new.pages ≡ length self.old.pages }
    {
        let (low, end) = page_range(first, count);
        for number in low..end {
            self.fill_page(number, first, count, s);
        }
    }

    /// The stamps of words that lie in one page.
    pub fn row(&self, first: Word, count: u32) -> &[S]
        requires covered { covers self.now.pages first ≡ true }
        requires within { first % 1024 + count ≤ 1024 }
        ensures count { length result.now ≡ count }
        ensures stamps { (k : ℕ) → k < count → slice_index (map S.number_of result.now) k
            ≡ stamp_at self.now.pages (first + k) }
    {
        let start = first.number() as usize % PAGE_WORDS;
        &self.pages[self.place(first)].stamps[start..start + count as usize]
    }

    // The pages of zeros that come to those that are there, so that each number from the first one on, up to the end, has one.
    fn fresh_pages(&self, low: u32, end: u32) -> Result<Vec<Page<S>>, AllocError>
        requires order { low ≤ end }
        requires end { end ≤ 2 ^ 20 }
        ensures ok { IfOk result (λ v. AreFresh self.now.pages
            (map (λ p. record { number = p.number; stamps = map S.number_of p.stamps.items }) v.items) low end) }
        ensures covered { HaveAll self.now.pages low end → IsOk result }
        ensures few { IfOk result (λ v. vec_len v + low ≤ end) }
    {
        let mut fresh = Vec::new(self.alloc);
        for number in low..end {
            if self.directory.place(number).is_none() {
                let stamps = zero_stamps(self.alloc)?;
                fresh.push(Page { number, stamps })?;
            }
        }
        Ok(fresh)
    }

    /// Makes the pages of a range of words that are not there, of zeros. All memory is allocated first.
    pub fn reserve(&mut self, first: Word, count: u32) -> Result<(), AllocError>
        requires { first + count ≤ 2 ^ 30 }
        ensures ok { OnOk result (IsReserved self.old.pages self.new.pages first count) }
        ensures err { OnErr result (self.new.pages ≡ self.old.pages) }
        ensures covered { AreCovered self.old.pages first count
            → IsOk result × (self.new.pages ≡ self.old.pages) }
        ensures stamps { (w : ℕ) → stamp_at self.new.pages w ≡ stamp_at self.old.pages w }
        ensures kept { (w : ℕ) → covers self.old.pages w ≡ true → covers self.new.pages w ≡ true }
        ensures few { length self.new.pages ≤ length self.old.pages + count }
    {
        let (low, end) = page_range(first, count);
        let mut fresh = self.fresh_pages(low, end)?;
        if fresh.is_empty() {
            return Ok(());
        }
        self.directory.reserve_all(self.alloc, low, end)?;
        let from = self.pages.len();
        self.pages.append(&mut fresh)?;
        enter(&mut self.directory, &self.pages, from);
        Ok(())
    }
}

// The numbers of the pages of a range of words: the first, and the end.
fn page_range(first: Word, count: u32) -> (u32, u32)
    requires { first + count ≤ 2 ^ 30 }
    ensures order { result.0 ≤ result.1 }
    ensures end { result.1 ≤ 2 ^ 20 }
    ensures holds { (w : ℕ) → first ≤ w → w < first + count
        → (result.0 ≤ w / 1024) × (w / 1024 < result.1) }
    ensures meets { (n : ℕ) → result.0 ≤ n → n < result.1 → HasWord first count n }
    ensures few { result.1 ≤ result.0 + count }
{
    let low = first.number() >> 10;
    if count == 0 {
        (low, low)
    } else {
        (low, ((first.number() + (count - 1)) >> 10) + 1)
    }
}

// Sets a part of a row.
fn fill_row<S: Stamp>(row: &mut [S], from: usize, to: usize, s: S)
    requires order { from ≤ to }
    requires within { to ≤ length row.old }
    ensures stamps { (k : ℕ) → slice_index (map S.number_of row.new) k
        ≡ (if nat_le from k && nat_lt k to then S.number_of s
        else slice_index (map S.number_of row.old) k) }
    ensures count { length row.new ≡ length row.old }
{
    for at in from..to {
        row[at] = s;
    }
}

// The stamps of a new page.
fn zero_stamps<S: Stamp>(alloc: Global) -> Result<Vec<S>, AllocError>
    ensures { IfOk result (λ v. map S.number_of v.items ≡ zeros) }
{
    let mut stamps = Vec::with_capacity(alloc, PAGE_WORDS)?;
    'fill: while stamps.len() < PAGE_WORDS {
        stamps.push(S::from_number(0))?;
    }
    Ok(stamps)
}

// Says in the directory the places of the pages from a place on.
fn enter<S: Stamp>(directory: &mut Directory, pages: &[Page<S>], from: usize)
    requires within { from ≤ length pages.now }
    requires indexed { IsIndexed directory.old (map
        (λ p. record { number = p.number; stamps = map S.number_of p.stamps.items }) pages.now) from }
    requires distinct { AreDistinct (map
        (λ p. record { number = p.number; stamps = map S.number_of p.stamps.items }) pages.now) }
    requires tables { All (λ p. HasTable directory.old p.number) pages.now }
    ensures { IsIndexed directory.new (map
        (λ p. record { number = p.number; stamps = map S.number_of p.stamps.items }) pages.now)
        (length pages.now) }
{
    for place in from..pages.len() {
        directory.put(pages[place].number, place);
    }
}
