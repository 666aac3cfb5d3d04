// The check of an ISIN, and the reading of a register's bytes to a register by value.
#![tactic(auto)]

ghost use Rattle.std.specs.Prelude.{◌≡◌, reverse, ◌++◌, ◌≤◌, ◌<◌, length, drop};
ghost use Rattle.laws.specs.Limits.{SECURITIES};
ghost use Rattle.laws.specs.Lists.{every};
ghost use Rattle.laws.specs.Parts;
ghost use Rattle.laws.specs.Places;
ghost use Rattle.laws.specs.Refusals.{first};
ghost use Rattle.laws.specs.Answers.{answer_with, number_in};
ghost use Rattle.register.specs.Isin;
ghost use Rattle.register.specs.Register as spec;

use laws::{Refusal, SECURITIES, TurnedDown};

// Securities are numbered from 1. The first `count` classes and the first 12 times `count` bytes of `isins` are the
// register's; the others are 0.
#[derive(Clone, Copy)]
pub struct Register {
    pub count: u16,
    pub classes: [u8; SECURITIES],
    pub isins: [u8; 384],
}

fn is_capital(c: u8) -> bool
    ensures { result ≡ Isin.is_capital c }
{
    c.is_ascii_uppercase()
}

fn is_digit(c: u8) -> bool
    ensures { result ≡ Isin.is_digit c }
{
    c.is_ascii_digit()
}

fn is_character(c: u8) -> bool
    ensures { result ≡ Isin.is_character c }
{
    is_digit(c) || is_capital(c)
}

// A letter is 10 to 35, a digit its own value.
fn value(c: u8) -> u8
    ensures { result ≡ Isin.value c }
{
    match c {
        b'A'..=b'Z' => c - b'A' + 10,
        b'0'..=b'9' => c - b'0',
        _ => 0,
    }
}

// The digit sum of a digit or of its double.
fn digit_sum(digit: u8, doubled: bool) -> u32
    ensures { result ≡ Isin.digit_sum (Isin.twice doubled digit) }
{
    let d = digit as u32;
    if doubled {
        return 2 * d / 10 + 2 * d % 10;
    }
    d / 10 + d % 10
}

// What the digits of one character add, from the right.
fn character_sum(c: u8, doubled: bool) -> u32
    ensures { (result ≡ Isin.digit_sums doubled (reverse (Isin.digits c))) × (result ≤ 24) }
{
    let v = value(c);
    if is_capital(c) {
        digit_sum(v % 10, doubled) + digit_sum(v / 10, !doubled)
    } else {
        digit_sum(v, doubled)
    }
}

// A letter has two digits, so the digit to its left is doubled as its right one is; a digit has one.
fn doubled_before(c: u8, doubled: bool) -> bool
    ensures { result ≡ Isin.doubled_before c doubled }
{
    if is_capital(c) { doubled } else { !doubled }
}

fn check_sum(text: &[u8]) -> u32
    requires { length text.now ≤ 12 }
    ensures { result ≡ Isin.check_sum text.now }
{
    let mut sum: u32 = 0;
    let mut doubled = false;
    for i in (0..text.len()).rev() {
        let c = text[i];
        sum += character_sum(c, doubled);
        doubled = doubled_before(c, doubled);
    }
    sum
}

fn are_capitals(text: &[u8]) -> bool
    ensures { result ≡ every Isin.is_capital text.now }
{
    text.iter().all(|&c| is_capital(c))
}

fn are_characters(text: &[u8]) -> bool
    ensures { result ≡ every Isin.is_character text.now }
{
    text.iter().all(|&c| is_character(c))
}

pub fn is_isin(text: &[u8]) -> bool
    ensures { result ≡ Isin.isin text.now }
{
    text.len() == 12
        && are_capitals(&text[..2])
        && are_characters(&text[2..11])
        && is_digit(text[11])
        && check_sum(text) % 10 == 0
}

// Of two slices in a closure, `==` alone leaves the goal of `stands_earlier` open: the closure calls what ensures `Places.same`.
fn same(a: &[u8], b: &[u8]) -> bool
    ensures { result ≡ Places.same a.now b.now }
{
    a == b
}

// The bytes' count, of at least two bytes.
fn count(bytes: &[u8]) -> u16
    requires { 2 ≤ length bytes.now }
    ensures { result ≡ spec.count bytes.now }
{
    words::word16(bytes[0], bytes[1])
}

fn has_right_size(bytes: &[u8]) -> bool
    ensures { result ≡ spec.right_size bytes.now }
{
    if bytes.len() < 2 {
        return false;
    }
    let n = count(bytes) as usize;
    (1..=SECURITIES).contains(&n) && bytes.len() == 2 + 13 * n
}

// The ISIN of entry `i`, counted from 0.
fn isin_at(bytes: &[u8], n: usize, i: usize) -> &[u8]
    requires { (spec.Sized bytes.now n) × (i < n) }
    ensures { result.now ≡ spec.isin_at bytes.now i }
{
    let start = 2 + n + 12 * i;
    let end = start + 12;
    &bytes[start..end]
}

fn stands_earlier(bytes: &[u8], n: usize, i: usize) -> bool
    requires { (spec.Sized bytes.now n) × (i < n) }
    ensures { result ≡ spec.stands_earlier bytes.now i }
{
    (0..i).any(|j| same(isin_at(bytes, n, j), isin_at(bytes, n, i)))
}

fn is_class(class: u8) -> bool
    ensures { result ≡ spec.is_class class }
{
    (1..=3).contains(&class)
}

fn entry_refusal(bytes: &[u8], n: usize, i: usize) -> Result<(), Refusal>
    requires { (spec.Sized bytes.now n) × (i < n) }
    ensures { number_in result ≡ first (spec.entry_reasons bytes.now i) }
{
    let class = is_class(bytes[2 + i]);
    let checked = is_isin(isin_at(bytes, n, i));
    if !class {
        return Err(Refusal::WrongClass);
    }
    if !checked {
        return Err(Refusal::WrongIsin);
    }
    if stands_earlier(bytes, n, i) {
        return Err(Refusal::RepeatedIsin);
    }
    Ok(())
}

fn entries_refusal(bytes: &[u8], n: usize) -> Result<(), Refusal>
    requires { spec.Sized bytes.now n }
    ensures { number_in result ≡ spec.entries_refusal bytes.now }
{
    for i in 0..n {
        entry_refusal(bytes, n, i)?;
    }
    Ok(())
}

fn register_refusal(bytes: &[u8]) -> Result<(), Refusal>
    ensures { number_in result ≡ spec.refusal bytes.now }
{
    if !has_right_size(bytes) {
        return Err(Refusal::WrongSize);
    }
    entries_refusal(bytes, count(bytes) as usize)
}

// The bytes, and a zero at each place after them.
fn padded<const N: usize>(bytes: &[u8]) -> [u8; N]
    requires { length bytes.now ≤ N }
    ensures { result ≡ Parts.padded 0 N bytes.now }
{
    let mut all = [0; N];
    all[..bytes.len()].copy_from_slice(bytes);
    all
}

fn register_of(bytes: &[u8]) -> Register
    requires { spec.Sized bytes.now (spec.count bytes.now) }
    ensures { result ≡ spec.register_of bytes.now }
{
    let n = count(bytes);
    let start = 2 + n as usize;
    let end = start + 12 * (n as usize);
    Register {
        count: n,
        classes: padded(&bytes[2..start]),
        isins: padded(&bytes[start..end]),
    }
}

#[tactic(auto, unfolding(crate::specs::Register::zeros, crate::specs::Register::empty_register))]
fn empty_register() -> Register
    ensures { result ≡ spec.empty_register }
{
    Register {
        count: 0,
        classes: [0; SECURITIES],
        isins: [0; 384],
    }
}

// The register of the bytes; where they are refused, the empty one beside the reason.
pub fn read_register(bytes: &[u8]) -> Result<Register, TurnedDown<Register>>
    ensures { result ≡ answer_with (spec.register_read bytes.now).number (spec.register_read bytes.now).register }
{
    match register_refusal(bytes) {
        Ok(()) => Ok(register_of(bytes)),
        Err(refusal) => Err(TurnedDown {
            refusal,
            value: empty_register(),
        }),
    }
}
