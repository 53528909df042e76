ghost use Rattle.std.specs.Prelude.{◌≡◌, ℕ, ◌+◌, ◌<◌, ◌≤◌, ◌≢◌, ◌⊎◌, [], List, length, get_or, slice_index};
ghost use Rattle.flash_device.specs.declared.shape.Shape.{Shape};
ghost use Rattle.flash_device.specs.Pages.{HasShape, Within, range_of, pages_with};

/// Bytes that were put in a range are there, and the pages keep their number and size.
pub fn stands_there()
    ensures shape { (shape : Shape) (pages : List (List ℕ)) (page offset : ℕ) (bytes : List ℕ) → HasShape shape pages
        → Within page offset (length bytes) shape → HasShape shape (pages_with page offset bytes pages) }
    ensures range { (shape : Shape) (pages : List (List ℕ)) (page offset : ℕ) (bytes : List ℕ) → HasShape shape pages
        → Within page offset (length bytes) shape
        → range_of page offset (length bytes) (pages_with page offset bytes pages) ≡ bytes }
{}

/// Every byte of another page or outside of the range is as it was.
pub fn rest_stays()
    ensures { (shape : Shape) (pages : List (List ℕ)) (page offset : ℕ) (bytes : List ℕ) → HasShape shape pages
        → Within page offset (length bytes) shape
        → (other other_offset : ℕ) → (other ≢ page) ⊎ ((other_offset < offset) ⊎ (offset + length bytes ≤ other_offset))
        → slice_index (get_or (pages_with page offset bytes pages) other []) other_offset
        ≡ slice_index (get_or pages other []) other_offset }
{}
