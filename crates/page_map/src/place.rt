//! The place of a page.
ghost use Rattle.std.specs.Prelude.{◌≡◌};
ghost use Rattle.page_map.specs.Map.{is_empty as is_empty_place};

/// The place of a page of 256 words.
#[derive(Clone, Copy, PartialEq, Eq, Debug)]
pub enum PagePlace {
    /// Nowhere: all its words are NULL.
    Empty,

    /// In this frame.
    InFrame(u32),

    /// On the swap device.
    Swapped,
}

impl PagePlace {
    /// Whether the page is empty.
    pub(crate) fn is_empty(self) -> bool
        ensures { result ≡ is_empty_place self }
    {
        matches!(self, PagePlace::Empty)
    }
}
