// Laws of the labels of pages. Each function has no body: its contract is the law.
ghost use Rattle.flash_machine.specs.LabelLaws.{VersionsRise, NoVersionIsAboveTheLast, ALabelIsOpenedOnce};
ghost use Rattle.flash_machine.specs.LabelLaws.{ALabelEndsAfterItsOpening, AFreedPageGetsALaterVersion};
ghost use Rattle.flash_machine.specs.LabelLaws.{APageHasOneLabel, ALabelStaysUntilFreed, ALabelIsOfItsPage};
ghost use Rattle.flash_machine.specs.LabelLaws.{FreePagesAreCounted, AllPagesAreFreeAtFirst};

/// Each label that is opened has a greater version than all labels that were opened before it, and no label that a
/// page has, that was opened, or that has ended has a version above the last one.
pub fn versions_rise()
    ensures above_earlier { VersionsRise }
    ensures up_to_the_last { NoVersionIsAboveTheLast }
{}

/// No label is opened twice, and none has ended before it is opened.
pub fn a_label_is_opened_once()
    ensures not_again { ALabelIsOpenedOnce }
    ensures before_its_end { ALabelEndsAfterItsOpening }
{}

/// A label that is opened after a page was freed has a greater version than that page's label had.
pub fn a_freed_page_gets_a_later_version()
    ensures { AFreedPageGetsALaterVersion }
{}

/// From its opening to its freeing a page has one label: where it is opened again, the label was freed in between,
/// and until it is freed it stays. It is a label of that page, which is one of the geometry's.
pub fn a_page_has_one_label()
    ensures freed_between { APageHasOneLabel }
    ensures stays { ALabelStaysUntilFreed }
    ensures own { ALabelIsOfItsPage }
{}

/// At first all pages are free; an opening takes one, a freeing gives one back, and no other entry changes their
/// number.
pub fn free_pages_are_counted()
    ensures first { AllPagesAreFreeAtFirst }
    ensures step { FreePagesAreCounted }
{}
