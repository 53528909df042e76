ghost use Rattle.std.specs.Prelude.{◌≡◌, ◌+◌, ◌<◌, OnOk, OnErr, if◌then◌else◌};
ghost use Rattle.flash_machine.specs.PageLabels.{is_label};
ghost use Rattle.flash_machine.specs.Followed.{label_count};

use flash_names::Label;
use std::alloc::{AllocError, Global};
use std::collections::HashMap;

// How many items have each label.
#[derive(Drop)]
pub struct LabelCounts {
    counts: HashMap<(u32, u64), u64>,
}

impl LabelCounts {
    pub fn new(alloc: Global) -> LabelCounts
        ensures { (label : Label) → label_count result label ≡ 0 }
    {
        LabelCounts {
            counts: HashMap::new(alloc),
        }
    }

    pub fn count(&self, label: Label) -> u64
        ensures { result ≡ label_count self.now label }
    {
        match self.counts.get(&(label.page, label.version)) {
            None => 0,
            Some(count) => *count,
        }
    }

    // One item more with this label, if there is one.
    pub fn raise(&mut self, label: Option<Label>) -> Result<(), AllocError>
        ensures raised { OnOk result ((other : Label)
            → label_count self.new other ≡ label_count self.old other + (if is_label other label then 1 else 0)) }
        ensures refused { OnErr result ((other : Label) → label_count self.new other ≡ label_count self.old other) }
    {
        let Some(label) = label else {
            return Ok(());
        };
        let count = self.count(label).checked_add(1).ok_or(AllocError)?;
        self.counts.insert((label.page, label.version), count)?;
        Ok(())
    }

    // One item fewer with this label, if there is one.
    pub fn lower(&mut self, label: Option<Label>)
        ensures { ((own : Label) → label ≡ Some own → 0 < label_count self.old own) → (other : Label)
            → label_count self.new other + (if is_label other label then 1 else 0) ≡ label_count self.old other }
    {
        let Some(label) = label else {
            return;
        };
        if let Some(count) = self.counts.get_mut(&(label.page, label.version)) {
            *count = count.saturating_sub(1);
        }
    }
}
