// Events: the ten kinds of event, and the body of sixteen bytes that each is read from and written to.
// Document 01, 'Event files and the player', and document 02, Slip 7.
#![tactic(auto)]

ghost use Rattle.std.specs.Prelude.{◌≡◌, ◌+◌, ◌≤◌, ◌<◌, length, get_or, take, drop};
ghost use Rattle.std.proofs.lemmas.List.Edits.{sets};
ghost use Rattle.laws.specs.Words.{word16_at, word32_at, word64_at, bytes16};
ghost use Rattle.events.specs.Layout.{BODY};
ghost use Rattle.events.specs.Body.{Fits, InWidth, body, event_from, fields, fields_at, fields_of, kind_of, spare_set};
ghost use Rattle.events.specs.Masks.{body_bytes, masks_of};

// A member sells to another a quantity of a security. The kind of each side is kept as it stands in the file: 0 own, 1
// client, and any other byte, which the book refuses.
#[derive(Clone, Copy)]
pub struct Trade {
    pub seller: u8,
    pub buyer: u8,
    pub security: u16,
    pub quantity: u32,
    pub price: u32,
    pub sellerkind: u8,
    pub buyerkind: u8,
}

// The latest price of a security.
#[derive(Clone, Copy)]
pub struct Price {
    pub security: u16,
    pub price: u32,
}

// A quantity delivered of a short.
#[derive(Clone, Copy)]
pub struct Delivery {
    pub position: u16,
    pub quantity: u32,
}

// A buy-in attempt, which opens the auction on a short.
#[derive(Clone, Copy)]
pub struct Attempt {
    pub position: u16,
}

// An offer in the auction on a short.
#[derive(Clone, Copy)]
pub struct Offer {
    pub position: u16,
    pub offerer: u8,
    pub quantity: u32,
    pub price: u32,
}

// The award that ends the auction on a short.
#[derive(Clone, Copy)]
pub struct Award {
    pub position: u16,
}

// An award of today, by its number, is confirmed.
#[derive(Clone, Copy)]
pub struct Confirm {
    pub award: u16,
}

// A short is settled in cash.
#[derive(Clone, Copy)]
pub struct Cash {
    pub position: u16,
}

// A quantity of a short is set off against a long of the same member. The long is as wide as the price field that it stands in,
// wider than the number of a position.
#[derive(Clone, Copy)]
pub struct PairOff {
    pub short: u16,
    pub long: u32,
    pub quantity: u32,
}

// "An event is one of nine kinds, each with its own fields", and a tenth of document 02.
#[derive(Clone, Copy)]
pub enum Event {
    Trade(Trade),
    Price(Price),
    Delivery(Delivery),
    Attempt(Attempt),
    Offer(Offer),
    Award(Award),
    Confirm(Confirm),
    Cash(Cash),
    Close,
    PairOff(PairOff),
}

// The fields that a body has room for: the subject (a position, an award or a security), the seller or offerer, the
// buyer, a quantity, a price, and the kinds of a trade's seller and buyer.
#[derive(Clone, Copy)]
pub struct Fields {
    pub subject: u16,
    pub first: u8,
    pub second: u8,
    pub quantity: u32,
    pub price: u32,
    pub firstkind: u8,
    pub secondkind: u8,
}

// A body all of whose fields are 0.
const NO_FIELD: Fields = Fields {
    subject: 0,
    first: 0,
    second: 0,
    quantity: 0,
    price: 0,
    firstkind: 0,
    secondkind: 0,
};

// Two masks: which bytes of a body are to be zero, of the first eight and of the last eight.
#[derive(Clone, Copy)]
struct Masks(u64, u64);

pub const KINDS: u8 = 10;

// The layout of a body, as `specs/Layout.antt` has it: its bytes, and where its fields stand.
pub const BODY: usize = 16;

const SUBJECT_AT: usize = 0;

const FIRST_AT: usize = 2;

const SECOND_AT: usize = 3;

const QUANTITY_AT: usize = 4;

const PRICE_AT: usize = 8;

const FIRST_KIND_AT: usize = 12;

const SECOND_KIND_AT: usize = 13;

// Where the two words of eight bytes begin that a body is tested by.
const LOW_AT: usize = 0;

const HIGH_AT: usize = 8;

// The byte at a place; a byte past the end counts 0.
pub fn byte_at(bytes: &[u8], at: usize) -> u8
    ensures { result ≡ get_or bytes.now at 0 }
{
    bytes.get(at).copied().unwrap_or(0)
}

pub fn word16_at(bytes: &[u8], at: usize) -> u16
    requires { at < 4294967296 }
    ensures { result ≡ word16_at bytes.now at }
{
    u16::from_le_bytes([byte_at(bytes, at), byte_at(bytes, at + 1)])
}

fn word32_at(bytes: &[u8], at: usize) -> u32
    requires { at < 4294967296 }
    ensures { result ≡ word32_at bytes.now at }
{
    u32::from_le_bytes([
        byte_at(bytes, at),
        byte_at(bytes, at + 1),
        byte_at(bytes, at + 2),
        byte_at(bytes, at + 3),
    ])
}

fn word64_at(bytes: &[u8], at: usize) -> u64
    requires { at < 2147483648 }
    ensures { result ≡ word64_at bytes.now at }
{
    u64::from(word32_at(bytes, at)) + (u64::from(word32_at(bytes, at + 4)) << 32)
}

// The fields of the body that begins at a place.
#[tactic(auto, unfolding(crate::specs::Body::fields_at))]
pub fn fields_at(bytes: &[u8], at: usize) -> Fields
    requires { at < 2147483648 }
    ensures { result ≡ fields_at bytes.now at }
{
    Fields {
        subject: word16_at(bytes, at + SUBJECT_AT),
        first: byte_at(bytes, at + FIRST_AT),
        second: byte_at(bytes, at + SECOND_AT),
        quantity: word32_at(bytes, at + QUANTITY_AT),
        price: word32_at(bytes, at + PRICE_AT),
        firstkind: byte_at(bytes, at + FIRST_KIND_AT),
        secondkind: byte_at(bytes, at + SECOND_KIND_AT),
    }
}

// The event of a kind with these fields. The kind is the file's byte, whatever it is: one that is no kind gives a close; no file that passes has one.
#[tactic(auto, unfolding(crate::specs::Body::event_from))]
pub fn event_from(kind: u8, f: Fields) -> Event
    ensures { result ≡ event_from kind f }
{
    let subject = f.subject;
    match kind {
        1 => Event::Trade(Trade {
            seller: f.first,
            buyer: f.second,
            security: subject,
            quantity: f.quantity,
            price: f.price,
            sellerkind: f.firstkind,
            buyerkind: f.secondkind,
        }),
        2 => Event::Price(Price {
            security: subject,
            price: f.price,
        }),
        3 => Event::Delivery(Delivery {
            position: subject,
            quantity: f.quantity,
        }),
        4 => Event::Attempt(Attempt { position: subject }),
        5 => Event::Offer(Offer {
            position: subject,
            offerer: f.first,
            quantity: f.quantity,
            price: f.price,
        }),
        6 => Event::Award(Award { position: subject }),
        7 => Event::Confirm(Confirm { award: subject }),
        8 => Event::Cash(Cash { position: subject }),
        9 => Event::Close,
        10 => Event::PairOff(PairOff {
            short: subject,
            long: f.price,
            quantity: f.quantity,
        }),
        _ => Event::Close,
    }
}

// The masks of a kind, of the first eight bytes of a body and of the last eight: ff at each byte that is spare in the kind, 00 at
// those that it uses, the lowest byte on the right. The compiler keeps the arms as a table; an array it would build at each call.
fn masks_of(kind: u8) -> Masks
    ensures { result ≡ masks_of kind }
{
    match kind {
        // 1 trade, 2 price, 3 delivery
        1 => Masks(0x0000_0000_0000_0000, 0xffff_0000_0000_0000),
        2 => Masks(0xffff_ffff_ffff_0000, 0xffff_ffff_0000_0000),
        3 => Masks(0x0000_0000_ffff_0000, 0xffff_ffff_ffff_ffff),
        // 4 attempt, 5 offer, 6 award
        4 => Masks(0xffff_ffff_ffff_0000, 0xffff_ffff_ffff_ffff),
        5 => Masks(0x0000_0000_ff00_0000, 0xffff_ffff_0000_0000),
        6 => Masks(0xffff_ffff_ffff_0000, 0xffff_ffff_ffff_ffff),
        // 7 confirm, 8 cash, 9 close, 10 pair-off
        7 => Masks(0xffff_ffff_ffff_0000, 0xffff_ffff_ffff_ffff),
        8 => Masks(0xffff_ffff_ffff_0000, 0xffff_ffff_ffff_ffff),
        9 => Masks(0xffff_ffff_ffff_ffff, 0xffff_ffff_ffff_ffff),
        10 => Masks(0x0000_0000_ffff_0000, 0xffff_ffff_0000_0000),
        // A byte that is no kind uses none.
        _ => Masks(0xffff_ffff_ffff_ffff, 0xffff_ffff_ffff_ffff),
    }
}

// Whether a byte that is spare in a kind is not zero, in the body that two words make.
fn spare_set(kind: u8, low: u64, high: u64) -> bool
    ensures { result ≡ spare_set kind (body_bytes low high) }
{
    let masks = masks_of(kind);
    low & masks.0 != 0 || high & masks.1 != 0
}

// The same of the body that begins at a place. It is lent as a part of sixteen bytes, so that the compiler sees that no byte is
// missing and reads each word at once.
#[tactic(auto, using(crate::proofs::TwoWords::two_words))]
pub fn body_spare_set(kind: u8, file: &[u8], at: usize) -> bool
    requires { at + BODY ≤ length file.now }
    ensures { result ≡ spare_set kind (take BODY (drop at file.now)) }
{
    let body = &file[at..at + BODY];
    spare_set(kind, word64_at(body, LOW_AT), word64_at(body, HIGH_AT))
}

#[tactic(auto, unfolding(crate::specs::Body::kind_of))]
pub fn kind_of(event: Event) -> u8
    ensures { result ≡ kind_of event }
{
    match event {
        Event::Trade(_) => 1,
        Event::Price(_) => 2,
        Event::Delivery(_) => 3,
        Event::Attempt(_) => 4,
        Event::Offer(_) => 5,
        Event::Award(_) => 6,
        Event::Confirm(_) => 7,
        Event::Cash(_) => 8,
        Event::Close => 9,
        Event::PairOff(_) => 10,
    }
}

// What an event writes into each field; a field that its kind has no use for is 0.
#[tactic(auto, unfolding(crate::specs::Body::fields_of))]
pub fn fields_of(event: Event) -> Fields
    ensures value { result ≡ fields_of event }
    ensures fits { Fits event }
{
    match event {
        Event::Trade(t) => Fields {
            subject: t.security,
            first: t.seller,
            second: t.buyer,
            quantity: t.quantity,
            price: t.price,
            firstkind: t.sellerkind,
            secondkind: t.buyerkind,
        },
        Event::Price(p) => Fields {
            subject: p.security,
            price: p.price,
            ..NO_FIELD
        },
        Event::Delivery(d) => Fields {
            subject: d.position,
            quantity: d.quantity,
            ..NO_FIELD
        },
        Event::Attempt(a) => Fields {
            subject: a.position,
            ..NO_FIELD
        },
        Event::Offer(o) => Fields {
            subject: o.position,
            first: o.offerer,
            quantity: o.quantity,
            price: o.price,
            ..NO_FIELD
        },
        Event::Award(a) => Fields {
            subject: a.position,
            ..NO_FIELD
        },
        Event::Confirm(c) => Fields {
            subject: c.award,
            ..NO_FIELD
        },
        Event::Cash(c) => Fields {
            subject: c.position,
            ..NO_FIELD
        },
        Event::Close => NO_FIELD,
        Event::PairOff(p) => Fields {
            subject: p.short,
            quantity: p.quantity,
            price: p.long,
            ..NO_FIELD
        },
    }
}

pub fn put16(page: &mut [u8], at: usize, word: u16)
    requires { at + 2 ≤ length page.old }
    ensures { page.new ≡ sets page.old at (bytes16 word) }
{
    page[at..at + 2].copy_from_slice(&word.to_le_bytes());
}

// The bytes of a body; the two last hold no field.
#[tactic(auto, unfolding(crate::specs::Body::body))]
fn body(f: Fields) -> [u8; BODY]
    ensures { result ≡ body f }
{
    let [s0, s1] = f.subject.to_le_bytes();
    let [q0, q1, q2, q3] = f.quantity.to_le_bytes();
    let [p0, p1, p2, p3] = f.price.to_le_bytes();
    [
        s0,
        s1,
        f.first,
        f.second,
        q0,
        q1,
        q2,
        q3,
        p0,
        p1,
        p2,
        p3,
        f.firstkind,
        f.secondkind,
        0,
        0,
    ]
}

// A body, from a place on.
#[tactic(auto, using(crate::proofs::Writing::part_put))]
pub fn put_body(page: &mut [u8], at: usize, f: Fields)
    requires { at + BODY ≤ length page.old }
    ensures { page.new ≡ sets page.old at (body f) }
{
    page[at..at + BODY].copy_from_slice(&body(f));
}
