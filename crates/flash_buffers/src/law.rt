ghost use Rattle.std.specs.Prelude.{◌≡◌, ℕ, ◌^◌, ◌<◌, ◌++◌, ◌∷◌, List, Some};
ghost use Rattle.std.specs.Option.{ForSome};
ghost use Rattle.flash_names.specs.declared.place.Place.{Place};
ghost use Rattle.flash_buffers.specs.declared.buffers.WriteJob.{WriteJob};
ghost use Rattle.flash_record.specs.Record.{Parts, record_bytes};
ghost use Rattle.flash_buffers.specs.Block.{place_in};
ghost use Rattle.flash_buffers.specs.BufferTable.{BufferTable, first_table, block_of, read_of};
ghost use Rattle.flash_buffers.specs.Calls.{Call, appends, table_after, IsInFlight};
ghost use Rattle.flash_buffers.specs.Law.{AllAllowed, after_all, AllLeave, NoneGivesBack, AllDropNone, all_seals, all_writes, IsPartOf, AllHaveWidths};
ghost use Rattle.flash_buffers.specs.Records.{AreRecords};

/// What holds over any list of calls that each may be made: a record that was appended is read until its
/// block was written or its page dropped, a job that is out stays that of its buffer until it is given
/// back, sealed buffers are written in their order, those that are dropped left out, and a block's bytes are
/// whole records. It does nothing.
pub fn keeps_the_law()
    ensures kept { (buffers size : ℕ) (first second : List Call) (number : ℕ) (key : List ℕ) (flags cas : ℕ)
        (value : List ℕ) (place : Place) →
        let call : Call = appends number key flags cas value in
        let before : BufferTable = after_all first (first_table buffers size) in
        let p : Parts = record { key = key; flags = flags; cas = cas; version = place.label.version; value = value } in
        AllAllowed (first_table buffers size) (first ++ call ∷ second)
        → place_in size key flags cas value (block_of before number) ≡ Some place
        → AllLeave (table_after call before) place second
        → read_of (after_all second (table_after call before)) place ≡ Some (record_bytes p) }

    // Whatever happens while a job is out, it may be given back.
    ensures out { (t : BufferTable) (job : WriteJob) (calls : List Call) →
        AllAllowed t calls → NoneGivesBack calls → IsInFlight t job → IsInFlight (after_all calls t) job }

    // Where no label is dropped, the buffers in the queue and those that are sealed are written in their order.
    ensures in_order { (t : BufferTable) (calls : List Call) →
        AllDropNone calls → t.queue ++ all_seals calls ≡ all_writes t calls ++ (after_all calls t).queue }

    // Where labels are dropped, some of these are left out, and the others are written in their order.
    ensures part { (t : BufferTable) (calls : List Call) →
        IsPartOf (all_writes t calls ++ (after_all calls t).queue) (t.queue ++ all_seals calls) }

    // The bytes of a block are whole records of its version, one after the other.
    ensures records { (buffers size : ℕ) (calls : List Call) (number : ℕ) →
        size < 2 ^ 32 → AllHaveWidths calls → ForSome (block_of (after_all calls (first_table buffers size)) number) AreRecords }
{}
