//! Moves of a page: out to the device, back from it, and to the end of the order of use. A swap error changes no word.
ghost use Rattle.std.specs.Prelude.{◌≡◌, ◌≢◌, ◌<◌, ◌≤◌, ◌↔◌, ℕ, List, length, true, false, Some, Contains, OnOk, OnErr, IfOk, IsOk, slice_index};
ghost use Rattle.store_word.specs.Faults.{TellsFaults};
ghost use Rattle.outer_ports.specs.Pages.{with_read, with_write};
ghost use Rattle.store_word.specs.Words.{Parts};
ghost use Rattle.store_word.specs.Sets.{HasLevel};
ghost use Rattle.mem_port.specs.Tags.{HasAddress};
ghost use Rattle.frame_pool.specs.index_lists.Chains.{first_of};
ghost use Rattle.page_map.specs.Map.{place_at};
ghost use Rattle.frame_pool.specs.Pool.{page_at};

use crate::pager::Pager;
use mem_port::levels_on;
use outer_ports::Swap;
use page_map::PagePlace;
use store_word::{Flags, Levels, PAGE_WORDS, SwapFault, Word};

/// Exactly the levels, 1 or more, of the addresses in these words. If they have no tag there are none, and no word is read.
fn levels_of(tag: bool, words: &[Word], levels: &[u8]) -> Levels
    requires levels { (region : ℕ) → slice_index levels.now region ≤ 6 }
    requires marks { (l : ℕ) → 1 ≤ l → HasAddress words.now levels.now l → tag ≡ true }
    ensures { (l : ℕ) → 1 ≤ l → HasLevel result.0 l ↔ HasAddress words.now levels.now l }
{
    if tag {
        levels_on(words, levels)
    } else {
        Levels::empty()
    }
}

impl Pager {
    ghost use Rattle.paged_memory.specs.Paging.{resident_of, IsPaged};
    ghost use Rattle.paged_memory.specs.Order.{Uses, Stops, StopsCalls, calls_for_room, calls_to_use};
    ghost use Rattle.paged_memory.specs.Moves.{paging_of, Keeps, GoesOut, HasRoom, ComesIn};

    /// Evicts the least recently used page: writes its words to the device, and exactly its levels to the table. Its frame is free.
    pub(crate) fn evict<D: Swap>(&mut self, swap: &mut D, frame: u32) -> Result<(), SwapFault>
        requires paged { IsPaged (paging_of self.old) (D.stored swap.old) }
        requires agrees { first_of self.old.pool.used ≡ Some frame }
        ensures preserves { Keeps (paging_of self.old) (D.stored swap.old) (paging_of self.new) (D.stored swap.new) }
        ensures resident { OnOk result (GoesOut (paging_of self.old) (paging_of self.new) (page_at self.old.pool frame)) }
        ensures free { OnOk result (Contains self.new.pool.free frame) }
        ensures unchanged { OnErr result (paging_of self.new ≡ paging_of self.old) }
        ensures cause { TellsFaults (D.faults swap.old) (D.faults swap.new) result }
        ensures calls { D.calls swap.new ≡ with_write (D.calls swap.old) }
    {
        let page = self.pool.page_of(frame).unwrap();
        let words = self.pool.words(frame);
        swap.write_page(page, words)?;
        let set = levels_of(self.pool.tagged(frame), words, self.levels.all());
        self.rows.note(page, set);
        self.pool.give_back(frame);
        self.places.set(page, PagePlace::Swapped);
        Ok(())
    }

    /// Reads a swapped page into a free frame. The tag is set if and only if its row wasn't empty, and the row is removed.
    pub(crate) fn bring_back<D: Swap>(
        &mut self,
        buffer: &mut [Word],
        swap: &mut D,
        frame: u32,
        page: u32,
    ) -> Result<(), SwapFault>
        requires paged { IsPaged (paging_of self.old) (D.stored swap.old) }
        requires free { Contains self.old.pool.free frame }
        requires page { place_at self.old.places page ≡ PagePlace.Swapped }
        requires size { length buffer.old ≡ PAGE_WORDS }
        ensures preserves { Keeps (paging_of self.old) (D.stored swap.old) (paging_of self.new) (D.stored swap.new) }
        ensures placed { OnOk result (ComesIn (paging_of self.old) (paging_of self.new) page frame) }
        ensures unchanged { OnErr result (paging_of self.new ≡ paging_of self.old) }
        ensures cause { TellsFaults (D.faults swap.old) (D.faults swap.new) result }
        ensures calls { D.calls swap.new ≡ with_read (D.calls swap.old) }
    {
        swap.read_page(page, buffer)?;
        self.pool.take_filled(frame, page, buffer);
        let tag = !self.rows.levels(page).is_empty();
        self.pool.set_tag(frame, tag);
        self.rows.forget(page);
        self.places.set(page, PagePlace::InFrame(frame));
        Ok(())
    }

    /// Puts an empty page into a free frame, with no call of the device.
    pub(crate) fn bring_new(&mut self, frame: u32, page: u32)
        requires free { Contains self.old.pool.free frame }
        requires in_range { page < length self.old.places.places }
        requires page { place_at self.old.places page ≡ PagePlace.Empty }
        ensures stays_held { (stored : List Parts) → IsPaged (paging_of self.old) stored
            → Keeps (paging_of self.old) stored (paging_of self.new) stored }
        ensures placed { (stored : List Parts) → IsPaged (paging_of self.old) stored
            → ComesIn (paging_of self.old) (paging_of self.new) page frame }
    {
        self.pool.take(frame, page);
        self.places.set(page, PagePlace::InFrame(frame));
    }

    /// A free frame. If there is none, the least recently used page is evicted first.
    pub(crate) fn make_room<D: Swap>(&mut self, swap: &mut D) -> Result<u32, SwapFault>
        requires paged { IsPaged (paging_of self.old) (D.stored swap.old) }
        ensures preserves { Keeps (paging_of self.old) (D.stored swap.old) (paging_of self.new) (D.stored swap.new) }
        ensures free { IfOk result (λ frame. Contains self.new.pool.free frame) }
        ensures room { OnOk result (HasRoom (paging_of self.old) (paging_of self.new)) }
        ensures unchanged { OnErr result (paging_of self.new ≡ paging_of self.old) }
        ensures cause { TellsFaults (D.faults swap.old) (D.faults swap.new) result }
        ensures calls { D.calls swap.new ≡ calls_for_room (paging_of self.old) (D.calls swap.old) }
    {
        if let Some(frame) = self.pool.free_frame() {
            return Ok(frame);
        }
        let frame = self.pool.oldest().unwrap();
        self.evict(swap, frame)?;
        Ok(frame)
    }

    /// Uses a page: it is in the returned frame, and the most recently used. If it was that
    /// already, nothing changes.
    #[inline]
    pub(crate) fn use_page<D: Swap>(
        &mut self,
        buffer: &mut [Word],
        swap: &mut D,
        page: u32,
    ) -> Result<u32, SwapFault>
        requires paged { IsPaged (paging_of self.old) (D.stored swap.old) }
        requires in_range { page < length self.old.places.places }
        requires size { length buffer.old ≡ PAGE_WORDS }

        // The page is in a frame, and the words are unchanged.
        ensures stays_held { Keeps (paging_of self.old) (D.stored swap.old) (paging_of self.new) (D.stored swap.new) }
        ensures placed { IfOk result (λ frame. place_at self.new.places page ≡ PagePlace.InFrame frame) }

        // What becomes of the pages in frames.
        ensures uses { OnOk result (Uses (paging_of self.old) (paging_of self.new) page false) }
        ensures stops { OnErr result (Stops (paging_of self.old) (paging_of self.new)) }
        ensures succeeds { Contains (resident_of (paging_of self.old)) page → IsOk result }

        // Swap errors, and the calls of the device.
        ensures cause { TellsFaults (D.faults swap.old) (D.faults swap.new) result }
        ensures calls { OnOk result (D.calls swap.new ≡ calls_to_use (paging_of self.old) page (D.calls swap.old)) }
        ensures stopped { OnErr result (StopsCalls (paging_of self.old) page (D.calls swap.old) (D.calls swap.new)) }
    {
        if let Some(frame) = self.pool.latest_of(page) {
            return Ok(frame);
        }
        self.use_other(buffer, swap, page)
    }

    /// Uses a page that may not be the most recently used.
    #[inline(never)]
    fn use_other<D: Swap>(
        &mut self,
        buffer: &mut [Word],
        swap: &mut D,
        page: u32,
    ) -> Result<u32, SwapFault>
        requires paged { IsPaged (paging_of self.old) (D.stored swap.old) }
        requires in_range { page < length self.old.places.places }
        requires size { length buffer.old ≡ PAGE_WORDS }

        // The page is in a frame, and the words are unchanged.
        ensures stays_held { Keeps (paging_of self.old) (D.stored swap.old) (paging_of self.new) (D.stored swap.new) }
        ensures placed { IfOk result (λ frame. place_at self.new.places page ≡ PagePlace.InFrame frame) }

        // What becomes of the pages in frames.
        ensures uses { OnOk result (Uses (paging_of self.old) (paging_of self.new) page false) }
        ensures stops { OnErr result (Stops (paging_of self.old) (paging_of self.new)) }
        ensures succeeds { Contains (resident_of (paging_of self.old)) page → IsOk result }

        // Swap errors, and the calls of the device.
        ensures cause { TellsFaults (D.faults swap.old) (D.faults swap.new) result }
        ensures calls { OnOk result (D.calls swap.new ≡ calls_to_use (paging_of self.old) page (D.calls swap.old)) }
        ensures stopped { OnErr result (StopsCalls (paging_of self.old) page (D.calls swap.old) (D.calls swap.new)) }
    {
        match self.places.place_of(page) {
            PagePlace::InFrame(frame) => {
                self.pool.touch_page(frame, page);
                Ok(frame)
            }
            _ => self.use_absent(buffer, swap, page),
        }
    }

    /// Uses a page that is in no frame.
    #[inline(never)]
    fn use_absent<D: Swap>(
        &mut self,
        buffer: &mut [Word],
        swap: &mut D,
        page: u32,
    ) -> Result<u32, SwapFault>
        requires paged { IsPaged (paging_of self.old) (D.stored swap.old) }
        requires in_range { page < length self.old.places.places }
        requires absent { (frame : ℕ) → place_at self.old.places page ≢ PagePlace.InFrame frame }
        requires size { length buffer.old ≡ PAGE_WORDS }

        // The page is in a frame, and the words are unchanged.
        ensures stays_held { Keeps (paging_of self.old) (D.stored swap.old) (paging_of self.new) (D.stored swap.new) }
        ensures placed { IfOk result (λ frame. place_at self.new.places page ≡ PagePlace.InFrame frame) }

        // What becomes of the pages in frames.
        ensures uses { OnOk result (Uses (paging_of self.old) (paging_of self.new) page false) }
        ensures stops { OnErr result (Stops (paging_of self.old) (paging_of self.new)) }
        ensures succeeds { Contains (resident_of (paging_of self.old)) page → IsOk result }

        // Swap errors, and the calls of the device.
        ensures cause { TellsFaults (D.faults swap.old) (D.faults swap.new) result }
        ensures calls { OnOk result (D.calls swap.new ≡ calls_to_use (paging_of self.old) page (D.calls swap.old)) }
        ensures stopped { OnErr result (StopsCalls (paging_of self.old) page (D.calls swap.old) (D.calls swap.new)) }
    {
        match self.places.place_of(page) {
            // The page is absent, as the contract requires.
            PagePlace::InFrame(_) => unreachable!(),
            PagePlace::Empty => {
                let free = self.make_room(swap)?;
                self.bring_new(free, page);
                Ok(free)
            }
            PagePlace::Swapped => {
                let room = self.make_room(swap)?;
                self.bring_back(buffer, swap, room, page)?;
                Ok(room)
            }
        }
    }
}
