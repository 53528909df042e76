ghost use Rattle.flash_io.specs.Sound.{KeepsOpen};

use flash_entry::{Cause, Closed, Head};
use flash_io::{Collected, Ticket, Tickets};
use flash_names::{Id, Key, Label, Place};
use std::test::Fail;

const FIRST: Id = Id { pass: 3, seq: 8 };

const SECOND: Id = Id { pass: 3, seq: 9 };

const PLACE: Place = Place {
    label: Label {
        page: 2,
        version: 5,
    },
    offset: 128,
    length: 40,
};

const HEAD: Head = Head {
    flags: 1,
    cas: 9,
    size: 5,
    left: -1,
    before: false,
    idle: 0,
};

// What was told, in a word. A ticket that comes with it is let go.
fn word_of(collected: Collected) -> &'static str {
    match collected {
        Collected::Queued(Ticket { slot: _, id: _ }) => "queued",
        Collected::Flying(Ticket { slot: _, id: _ }) => "flying",
        Collected::Done(Closed::Hit(_)) => "hit",
        Collected::Done(Closed::Lost(Cause::Ended)) => "ended",
        Collected::Done(Closed::Lost(Cause::Fault)) => "fault",
        Collected::Done(Closed::Lost(Cause::Damaged)) => "damaged",
        Collected::NoMemory => "no memory",
    }
}

#[test]
fn a_read_to_its_end(rt: HostRuntime) -> Result<(), Fail> {
    let mut tickets = Tickets::new(rt.alloc());
    let key = Key::from_bytes(b"key").ok_or("no key")?;
    let ticket = tickets.submit(rt.alloc(), FIRST, &key, PLACE, HEAD, true)?;
    assert_eq!(rt; tickets.next(), Some(FIRST));
    assert_eq!(rt;
        tickets.asked(FIRST, None).map(|asked| asked.recache),
        Some(true)
    );
    let job = tickets.fly(7);
    assert_eq!(rt; job.place, PLACE);
    assert_eq!(rt; job.bytes.bytes().len(), 40);
    assert_eq!(rt; tickets.next(), None);
    assert!(rt; tickets.asked(FIRST, None).is_none());
    assert_eq!(rt;
        tickets
            .asked(FIRST, Some(job.slot))
            .map(|asked| asked.place),
        Some(PLACE)
    );
    assert_eq!(rt;
        tickets
            .take_spare(job.slot)
            .map(|bytes| bytes.bytes().len()),
        Some(5)
    );
    assert!(rt; tickets.take_spare(job.slot).is_none());
    tickets.finish(job, Closed::Lost(Cause::Fault));
    assert_eq!(rt; word_of(tickets.collect(ticket)), "fault");
    assert!(rt; tickets.is_empty());
    Ok(())
}

#[test]
fn a_read_that_is_forgotten(rt: HostRuntime) -> Result<(), Fail> {
    let key = Key::from_bytes(b"key").ok_or("no key")?;
    let mut tickets = Tickets::new(rt.alloc());
    let ticket = tickets.submit(rt.alloc(), FIRST, &key, PLACE, HEAD, false)?;
    if let Some(job) = tickets.fly_of(FIRST, 7) {
        tickets.forget(ticket);
        assert!(rt; !tickets.is_empty());
        tickets.give_up(job);
    } else {
        tickets.forget(ticket);
    }
    assert!(rt; tickets.is_empty());
    Ok(())
}

#[test]
fn a_page_that_ends(rt: HostRuntime) -> Result<(), Fail> {
    let key = Key::from_bytes(b"key").ok_or("no key")?;
    let mut tickets = Tickets::new(rt.alloc());
    let ticket = tickets.submit(rt.alloc(), FIRST, &key, PLACE, HEAD, false)?;
    lose_queued(&mut tickets, FIRST);
    assert_eq!(rt; word_of(tickets.collect(ticket)), "ended");
    Ok(())
}

// The second ticket of the queue is taken by its id, and the first one stays its first.
#[test]
fn two_reads(rt: HostRuntime) -> Result<(), Fail> {
    let key = Key::from_bytes(b"key").ok_or("no key")?;
    let mut tickets = Tickets::new(rt.alloc());
    let first = tickets.submit(rt.alloc(), FIRST, &key, PLACE, HEAD, false)?;
    let Ok(second) = tickets.submit(rt.alloc(), SECOND, &key, PLACE, HEAD, false) else {
        tickets.forget(first);
        return Err(Fail::from("no memory"));
    };
    assert_eq!(rt; tickets.next(), Some(FIRST));
    end_read(&mut tickets, SECOND);
    assert_eq!(rt; tickets.next(), Some(FIRST));
    end_read(&mut tickets, FIRST);
    assert_eq!(rt; tickets.next(), None);
    assert_eq!(rt; word_of(tickets.collect(second)), "fault");
    assert_eq!(rt; word_of(tickets.collect(first)), "fault");
    assert!(rt; tickets.is_empty());
    Ok(())
}

// Takes the queued ticket of the id, where there is one, and ends its read with a fault.
fn end_read(tickets: &mut Tickets, id: Id)
    ensures { KeepsOpen tickets.old tickets.new }
{
    if let Some(job) = tickets.fly_of(id, 7) {
        tickets.finish(job, Closed::Lost(Cause::Fault));
    }
}

// Closes the queued ticket of the id, where there is one.
fn lose_queued(tickets: &mut Tickets, id: Id)
    ensures { KeepsOpen tickets.old tickets.new }
{
    if tickets.asked(id, None).is_some() {
        tickets.lose(id);
    }
}
