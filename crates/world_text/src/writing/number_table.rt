//! A table in which the number of a key is found. It has an entry for each key: one more than its number, or 0 if it has none. The
//! entries are in pages of 512 keys. A page is filled when one of its keys gets a number; until then it is empty.
ghost use Rattle.std.specs.Prelude.{◌≡◌, ℕ, ◌<◌, ◌≤◌, ◌==◌, if◌then◌else◌, length, OnOk};
ghost use Rattle.world_text.specs.writing.NumberTable.{HasRoom, entry_at, entry_in};

use lisp_graph::Sequence;
use std::alloc::Global;
use store_word::NoMemory;

/// The entry at a place of a page.
fn entry_in(page: &Sequence<u32>, place: usize) -> u32
    ensures { result ≡ entry_in page.now place }
{
    let entries = page.as_slice();
    if place >= entries.len() {
        return 0;
    }
    entries[place]
}

/// The entry of a key.
pub(crate) fn entry_at(pages: &[Sequence<u32>], key: u64) -> u32
    ensures { result ≡ entry_at pages.now key }
{
    let page = (key / 512) as usize;
    if page >= pages.len() {
        return 0;
    }
    entry_in(&pages[page], (key % 512) as usize)
}

/// Adds empty pages until there is a page with this number.
fn add_pages(alloc: Global, pages: &mut Vec<Sequence<u32>>, number: usize) -> Result<(), NoMemory>
    ensures page { OnOk result (number < length pages.new.items) }
    ensures unchanged { (key : ℕ) → entry_at pages.new.items key ≡ entry_at pages.old.items key }
{
    let mut count = pages.len();
    while count <= number {
        pages.push(Sequence::new(alloc))?;
        count += 1;
    }
    Ok(())
}

/// Fills a page, if it is empty. The new entries are 0.
fn fill_page(page: &mut Sequence<u32>) -> Result<(), NoMemory>
    ensures filled { OnOk result (512 ≤ length page.new) }
    ensures unchanged { (place : ℕ) → entry_in page.new place ≡ entry_in page.old place }
{
    if page.len() >= 512 {
        return Ok(());
    }
    page.pad(512, 0)
}

/// Makes room for the entry of a key. The entries are unchanged.
pub(crate) fn make_room(
    alloc: Global,
    pages: &mut Vec<Sequence<u32>>,
    key: u64,
) -> Result<(), NoMemory>
    ensures room { OnOk result (HasRoom pages.new.items key) }
    ensures unchanged { (other : ℕ) → entry_at pages.new.items other ≡ entry_at pages.old.items other }
{
    let number = (key / 512) as usize;
    add_pages(alloc, pages, number)?;
    fill_page(&mut pages[number])
}

/// Sets the entry of a key. The others are unchanged.
pub(crate) fn set_entry(pages: &mut Vec<Sequence<u32>>, key: u64, entry: u32)
    requires { HasRoom pages.old.items key }
    ensures { (other : ℕ) → entry_at pages.new.items other ≡ (if other == key then entry else entry_at pages.old.items other) }
{
    pages[(key / 512) as usize].set((key % 512) as usize, entry);
}
