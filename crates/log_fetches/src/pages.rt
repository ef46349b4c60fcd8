//! Sets of pages of a process, by their numbers.
ghost use Rattle.std.specs.Prelude.{◌≡◌, ◌≤◌, ◌||◌, ◌&&◌, ◌==◌, ℕ};
ghost use Rattle.std.specs.List.{list_all, range_with_len};
ghost use Rattle.log_fetches.specs.Pages.{has_page, is_page_no};

/// Numbers below 256, a bit for each: a process has no page with a higher one.
pub type Pages = [u64; 4];

/// No pages.
pub const NO_PAGES: Pages = [0; 4];

/// Whether the page is in the set. Takes no memory.
pub fn has_page(pages: &Pages, index: u64) -> bool
    ensures { result ≡ has_page pages.now index }
{
    if index >= 256 {
        return false;
    }
    let word = pages[(index / 64) as usize];
    (word >> (index % 64)) & 1 == 1
}

/// Puts the page into the set, if its number is below 256. Takes no memory.
pub fn put_page(pages: &mut Pages, index: u16)
    ensures { (i : ℕ) → has_page pages.new i ≡ ((index == i && is_page_no i) || has_page pages.old i) }
{
    if index < 256 {
        pages[usize::from(index / 64)] |= 1 << (index % 64);
    }
}

/// Whether the first pages, so many, are in the set. Takes no memory.
pub fn has_first(pages: &Pages, count: u16) -> bool
    ensures { result ≡ list_all (has_page pages.now) (range_with_len 0 count) }
{
    (0..count).all(|index| has_page(pages, u64::from(index)))
}
