// Event files: reading and writing a file of events, and why one is refused.
// Document 01, 'Event files and the player', and document 02, Slip 7.
#![tactic(auto)]

ghost use Rattle.std.specs.Prelude.{◌≡◌, map, ◌+◌, ◌≤◌, min, length, get_or, take, drop, replicate};
ghost use Rattle.std.proofs.lemmas.List.Edits.{sets};
ghost use Rattle.laws.specs.Limits.{EVENTS};
ghost use Rattle.laws.specs.Lists.{All, each};
ghost use Rattle.laws.specs.Parts.{padded};
ghost use Rattle.laws.specs.Refusals;
ghost use Rattle.laws.specs.Answers.{answer, number_in, quantity_of};
ghost use Rattle.events.specs.declared.Event.TheVariants as event;
ghost use Rattle.events.specs.Layout.{BODY};
ghost use Rattle.events.specs.Body.{Fits, body_of, kind_of};
ghost use Rattle.files.specs.Layout.{HEADER};
ghost use Rattle.files.specs.File.{ReadsBack, bodies_in, checks, copying_refusal, count, events_of, file_of, kinds_in, page_after, reasons, refusal, size, writing_refusal};

use events::{BODY, Event, KINDS};
use laws::{EVENTS, Refusal};

// The layout of a file, as `specs/Layout.antt` has it: where the two words of the header stand, how long it is, and the bytes
// of an event, its kind byte and its body.
const COUNT_AT: usize = 0;

const WIDTH_AT: usize = 2;

const HEADER: usize = 4;

const EVENT_BYTES: usize = 1 + BODY;

// The body's width as the header has it.
const WIDTH: u16 = BODY as u16;

// How many events a file says it has.
pub fn event_count(file: &[u8]) -> u16
    ensures { result ≡ count file.now }
{
    events::word16_at(file, COUNT_AT)
}

// How many events a file has: as many as its count says, and no more than it has kind bytes for.
pub fn events_in(file: &[u8]) -> u16
    ensures { result ≡ length (events_of file.now) }
{
    let kinds = file.len().saturating_sub(HEADER);
    kinds.min(event_count(file) as usize) as u16
}

// The event at an index, counted from 0; past the last event, a close. Of a file that is refused it reads what is
// there, a missing byte as 0. A body that is there is lent as a part of sixteen bytes, so that the compiler sees that none is missing.
pub fn event_at(file: &[u8], i: usize) -> Event
    ensures { result ≡ get_or (events_of file.now) i event.Close }
{
    let count = event_count(file) as usize;
    if count <= i {
        return Event::Close;
    }
    let kind = events::byte_at(file, HEADER + i);
    let at = HEADER + count + BODY * i;
    if file.len() < at + BODY {
        return events::event_from(kind, events::fields_at(file, at));
    }
    let body = &file[at..at + BODY];
    events::event_from(kind, events::fields_at(body, 0))
}

// Refusal 6 or 7 of the event whose kind byte and body stand at two places.
fn event_refusal(file: &[u8], place: usize, at: usize) -> Result<(), Refusal>
    requires { at + BODY ≤ length file.now }
    ensures { number_in result ≡ Refusals.first (reasons (get_or file.now place 0) (take BODY (drop at file.now))) }
{
    let kind = events::byte_at(file, place);
    if !(1..=KINDS).contains(&kind) {
        return Err(Refusal::UnknownKind);
    }
    if events::body_spare_set(kind, file, at) {
        return Err(Refusal::SpareByte);
    }
    Ok(())
}

// Refusal 6 or 7 of the first event that has one.
fn events_refusal(file: &[u8], count: usize) -> Result<(), Refusal>
    requires { (count ≤ EVENTS) × (length file.now ≡ size count) }
    ensures { number_in result ≡ Refusals.first (checks (kinds_in file.now count) (bodies_in file.now count)) }
{
    for i in 0..count {
        event_refusal(file, HEADER + i, HEADER + count + BODY * i)?;
    }
    Ok(())
}

// The refusal of a file, 5, 6 or 7.
pub fn file_refusal(file: &[u8]) -> Result<(), Refusal>
    ensures { number_in result ≡ refusal file.now }
{
    let count = event_count(file) as usize;
    if EVENTS < count {
        return Err(Refusal::FileShape);
    }
    let width = events::word16_at(file, WIDTH_AT);
    if width != WIDTH {
        return Err(Refusal::FileShape);
    }
    if file.len() != HEADER + EVENT_BYTES * count {
        return Err(Refusal::FileShape);
    }
    events_refusal(file, count)
}

// The array that a file's events are read into, before they are.
fn closes() -> [Event; EVENTS]
    ensures { result ≡ replicate EVENTS event.Close }
{
    [Event::Close; EVENTS]
}

// The events of a file; the places past the last one hold a close. `events_in` says how many there are.
pub fn read_events(file: &[u8]) -> [Event; EVENTS]
    ensures { result ≡ padded event.Close EVENTS (events_of file.now) }
{
    let mut events = closes();
    let stop = EVENTS.min(event_count(file) as usize);
    for i in 0..stop {
        let event = event_at(file, i);
        events[i] = event;
    }
    events
}

// The kind bytes of the events, after the count and the width.
fn put_kinds(page: &mut [u8], events: &[Event])
    requires { HEADER + length events.now ≤ length page.old }
    ensures { page.new ≡ sets page.old HEADER (map kind_of events.now) }
{
    for (i, event) in events.iter().enumerate() {
        page[HEADER + i] = events::kind_of(*event);
    }
}

// The bodies of the events, after the kind bytes.
fn put_bodies(page: &mut [u8], events: &[Event])
    requires { (length events.now ≤ EVENTS) × (size (length events.now) ≤ length page.old) }
    ensures page_after { page.new ≡ sets page.old (HEADER + length events.now) (each body_of events.now) }
    ensures all { All Fits events.now }
{
    let bodies = HEADER + events.len();
    for (i, event) in events.iter().enumerate() {
        events::put_body(page, bodies + BODY * i, events::fields_of(*event));
    }
}

// The file of the first `count` events, written at the page's start. (The array and its count stay two: clause `value` refuses a count that the array has no
// places for, and a slice could not be made of it.) The bytes after the last body are kept, and a
// call that is refused changes none. The bytes that it reports as written pass, and are read as these events.
pub fn write_file(events: [Event; EVENTS], count: usize, page: &mut [u8]) -> Result<u32, Refusal>
    ensures value { result ≡ answer (writing_refusal count (length page.old)) (size count) }
    ensures page_after { page.new ≡ page_after (writing_refusal count (length page.old)) (file_of (take count events)) page.old }
    ensures reads_back { number_in result ≡ 0 → ReadsBack (take count events) (take (quantity_of result) page.new) }
{
    if EVENTS < count {
        return Err(Refusal::FileShape);
    }
    let bytes = HEADER + EVENT_BYTES * count;
    if page.len() < bytes {
        return Err(Refusal::FileShape);
    }
    events::put16(page, COUNT_AT, count as u16);
    events::put16(page, WIDTH_AT, WIDTH);
    put_kinds(page, &events[..count]);
    put_bodies(page, &events[..count]);
    Ok(bytes as u32)
}

// A file that passes, read and written again: the page then begins with the same bytes.
pub fn copy_file(file: &[u8], page: &mut [u8]) -> Result<u32, Refusal>
    ensures value { result ≡ answer (copying_refusal file.now (length page.old)) (length file.now) }
    ensures page_after { page.new ≡ page_after (copying_refusal file.now (length page.old)) file.now page.old }
{
    file_refusal(file)?;
    let count = event_count(file) as usize;
    write_file(read_events(file), count, page)
}
