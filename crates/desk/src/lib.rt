// The static library for C and Rust: what a desk calls, on numbers and byte slices. None has a `requires`. A refusal number and a quantity are
// answered as one number (`answers`).
#![tactic(auto)]

ghost use Rattle.std.specs.Prelude.{◌≡◌, [], ◌∷◌, length};
ghost use Rattle.laws.specs.Refusals.{accepted};
ghost use Rattle.rules.specs.Windows.{step_on, step_kind};
ghost use Rattle.rules.specs.Prices.{ceiling, cash_price};
ghost use Rattle.rules.specs.Charges.{rounded_half_up, cash_fee, award_fine, late_fine};
ghost use Rattle.register.specs.Register.{register_read};
ghost use Rattle.calendar.specs.Answers.{day_to_date, date_refusal, date_value, date_to_day, day_refusal, day_value};
ghost use Rattle.files.specs.File as file;
ghost use Rattle.answers.specs.Packed as definition;
ghost use Rattle.page.specs.Answer.{page_answer, page_after};

// Refusals 1 to 4 of a register's bytes, or 0 with the number of its securities.
#[unsafe(no_mangle)]
pub extern "C" fn desk_register(bytes: &[u8]) -> u64
    ensures { result ≡ definition.packed (register_read bytes.now).number (register_read bytes.now).register.count }
{
    match register::read_register(bytes) {
        Ok(register) => answers::answered(Ok(u32::from(register.count))),
        Err(turned_down) => answers::answered(Err(turned_down.refusal)),
    }
}

// Refusals 27 to 30, or 0 with the date of a business day. Dates are numbers yyyymmdd, holidays four bytes each, little-endian.
#[unsafe(no_mangle)]
pub extern "C" fn desk_day_to_date(opening: u32, holidays: &[u8], day: u32) -> u64
    ensures { result ≡ definition.packed (date_refusal (day_to_date opening holidays.now day)) (date_value (day_to_date opening holidays.now day)) }
{
    answers::answered(calendar::day_to_date(opening, holidays, day))
}

// Refusals 27 to 29, or 0 with the number of the business day that a date is.
#[unsafe(no_mangle)]
pub extern "C" fn desk_date_to_day(opening: u32, holidays: &[u8], date: u32) -> u64
    ensures { result ≡ definition.packed (day_refusal (date_to_day opening holidays.now date)) (day_value (date_to_day opening holidays.now date)) }
{
    answers::answered(calendar::date_to_day(opening, holidays, date).map(|day| u32::from(day.0)))
}

// The step that a day allows besides delivery, by the kind of its event: 4 attempt, 8 cash, 0 none.
#[unsafe(no_mangle)]
pub extern "C" fn desk_step(class: u8, r: u16) -> u8
    ensures { result ≡ step_kind (step_on class r) }
{
    rules::step_kind(rules::step_on(class, r))
}

#[unsafe(no_mangle)]
pub extern "C" fn desk_ceiling(class: u8, latest: u32) -> u64
    ensures { result ≡ ceiling class latest }
{
    rules::ceiling_of(class, latest)
}

// The price of a unit in a cash settlement, by the reference price of its short and the highest one among the longs in its pieces (`by-highest-long`).
#[unsafe(no_mangle)]
pub extern "C" fn desk_cash_price(class: u8, short: u32, long: u32, latest: u32) -> u64
    ensures { result ≡ cash_price class short (long ∷ []) latest }
{
    rules::cash_price(class, short, long, latest)
}

#[unsafe(no_mangle)]
pub extern "C" fn desk_rounded(value: u64, divisor: u32) -> u64
    ensures { result ≡ rounded_half_up value divisor }
{
    rules::rounded(value, divisor)
}

#[unsafe(no_mangle)]
pub extern "C" fn desk_cash_fee(value: u64) -> u64
    ensures { result ≡ cash_fee value }
{
    rules::cash_fee(value)
}

#[unsafe(no_mangle)]
pub extern "C" fn desk_award_fine(class: u8, value: u64) -> u64
    ensures { result ≡ award_fine class value }
{
    rules::award_fine(class, value)
}

#[unsafe(no_mangle)]
pub extern "C" fn desk_late_fine(value: u64) -> u64
    ensures { result ≡ late_fine value }
{
    rules::late_fine(value)
}

// Refusals 5 to 7 of an event file, or 0 with the number of its events.
#[unsafe(no_mangle)]
pub extern "C" fn desk_file(bytes: &[u8]) -> u64
    ensures { result ≡ definition.packed (file.refusal bytes.now) (accepted (file.refusal bytes.now) (file.count bytes.now) 0) }
{
    answers::answered(files::file_refusal(bytes).map(|()| u32::from(files::event_count(bytes))))
}

// A file read and its events written into the page: refusals 5 to 7, or 0 with the bytes written.
#[unsafe(no_mangle)]
pub extern "C" fn desk_copy_file(bytes: &[u8], page: &mut [u8]) -> u64
    ensures { (result ≡ definition.packed (file.copying_refusal bytes.now (length page.old)) (accepted (file.copying_refusal bytes.now (length page.old)) (length bytes.now) 0)) × (page.new ≡ file.page_after (file.copying_refusal bytes.now (length page.old)) bytes.now page.old) }
{
    answers::answered(files::copy_file(bytes, page))
}

// The positions at the end of a file that is played on a new book, a line of 80 columns and a line feed each: the bytes written, or refusals 1
// to 7 and 31. This number is the whole answer, and no quantity is packed with it: a refusal is never 0 or 81 and more.
#[unsafe(no_mangle)]
pub extern "C" fn desk_page(register: &[u8], file: &[u8], page: &mut [u8]) -> u64
    ensures { (result ≡ page_answer register.now file.now page.old) × (page.new ≡ page_after register.now file.now page.old) }
{
    match page::show(register, file, page) {
        Ok(written) => written as u64,
        Err(refusal) => u64::from(u8::from(refusal)),
    }
}
