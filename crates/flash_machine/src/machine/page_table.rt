ghost use Rattle.std.specs.Prelude.{◌≡◌, ◌<◌, [], ◌∷◌, ◌++◌, Some, IsTrue, OnOk, OnErr, List};
ghost use Rattle.flash_entry.specs.declared.entry.Entry.{Entry};
ghost use Rattle.flash_machine.specs.Live.{label_has_ended};
ghost use Rattle.flash_machine.specs.PageLabels.{page_label, is_label, free_pages, is_in_use, is_over};
ghost use Rattle.flash_machine.specs.Rules.{may_be_opened};
ghost use Rattle.flash_machine.specs.Followed.{FollowsPages};

use flash_entry::EndCause;
use flash_names::{Geometry, Label};
use std::alloc::{AllocError, Global};
use std::collections::{HashMap, HashSet};

// The last version that is given.
const LAST_VERSION: u64 = 1 << 63;

// The label of each page, which labels have ended, and how many pages are free.
#[derive(Drop)]
pub struct PageTable {
    labels: HashMap<u32, Label>,
    ended: HashSet<(u32, u64)>,
    last_version: u64,
    free: u32,
}

impl PageTable {
    // That of a flash file of so many pages, none of which was opened.
    pub fn new(alloc: Global, pages: u32) -> PageTable
        ensures { (g : Geometry) → g.pages ≡ pages → FollowsPages result g [] }
    {
        PageTable {
            labels: HashMap::new(alloc),
            ended: HashSet::new(alloc),
            last_version: 0,
            free: pages,
        }
    }

    pub fn free(&self) -> u32
        ensures { (g : Geometry) (h : List Entry) → FollowsPages self.now g h → result ≡ free_pages g h }
    {
        self.free
    }

    pub fn has_ended(&self, label: Label) -> bool
        ensures { (g : Geometry) (h : List Entry) → FollowsPages self.now g h
            → result ≡ label_has_ended h (Some label) }
    {
        self.ended.contains(&(label.page, label.version))
    }

    fn has_label(&self, label: Label) -> bool
        ensures { (g : Geometry) (h : List Entry) → FollowsPages self.now g h
            → result ≡ is_label label (page_label label.page h) }
    {
        match self.labels.get(&label.page) {
            None => false,
            Some(other) => other.is_same(label),
        }
    }

    pub fn is_in_use(&self, label: Label) -> bool
        ensures { (g : Geometry) (h : List Entry) → FollowsPages self.now g h → result ≡ is_in_use h label }
    {
        self.has_label(label) && !self.has_ended(label)
    }

    // Rule 26.
    pub fn is_over(&self, label: Label) -> bool
        ensures { (g : Geometry) (h : List Entry) → FollowsPages self.now g h → result ≡ is_over h label }
    {
        self.has_label(label) && self.has_ended(label)
    }

    // Rule 21.
    pub fn may_be_opened(&self, geometry: &Geometry, label: Label) -> bool
        ensures { (h : List Entry) → FollowsPages self.now geometry.now h
            → result ≡ may_be_opened geometry.now h label }
    {
        label.version <= LAST_VERSION
            && label.version.checked_sub(1) == Some(self.last_version)
            && label.page < geometry.pages
            && !self.labels.contains_key(&label.page)
    }

    pub fn open(&mut self, label: Label) -> Result<(), AllocError>
        ensures opened { OnOk result ((g : Geometry) (h : List Entry) → FollowsPages self.old g h
            → IsTrue (may_be_opened g h label)
            → FollowsPages self.new g (h ++ Entry.Opened label ∷ [])) }
        ensures refused { OnErr result ((g : Geometry) (h : List Entry) → FollowsPages self.old g h
            → FollowsPages self.new g h) }
    {
        self.labels.insert(label.page, label)?;
        self.last_version = label.version;
        self.free = self.free.saturating_sub(1);
        Ok(())
    }

    pub fn end(&mut self, label: Label) -> Result<(), AllocError>
        ensures ended { OnOk result ((g : Geometry) (h : List Entry) (cause : EndCause) → FollowsPages self.old g h
            → FollowsPages self.new g (h ++ Entry.Ended label cause ∷ [])) }
        ensures refused { OnErr result ((g : Geometry) (h : List Entry) → FollowsPages self.old g h
            → FollowsPages self.new g h) }
    {
        self.ended.insert((label.page, label.version))?;
        Ok(())
    }

    pub fn free_page(&mut self, label: Label)
        ensures { (g : Geometry) (h : List Entry) → FollowsPages self.old g h → IsTrue (is_over h label)
            → FollowsPages self.new g (h ++ Entry.Freed label ∷ []) }
    {
        let _ = self.labels.remove(&label.page);
        self.free = self.free.saturating_add(1);
    }
}
