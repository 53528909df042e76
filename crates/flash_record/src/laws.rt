ghost use Rattle.std.specs.Prelude.{◌≡◌, List, ℕ, ◌++◌, length};
ghost use Rattle.flash_record.specs.Record.{Parts, Fits, record_bytes, record_length};

/// No record begins another, so the records that are one after the other can be taken apart in one way.
pub fn no_prefix()
    ensures { (p q : Parts) (x y : List ℕ) → Fits p → Fits q → record_bytes p ++ x ≡ record_bytes q ++ y
        → (p ≡ q) × (x ≡ y) }
{}

/// How many bytes a record has.
pub fn exact_length()
    ensures { (p : Parts) → length (record_bytes p) ≡ record_length p }
{}
