// Dates and business days (document 01, 'Calendar'). A date is one number, yyyymmdd; holidays are bytes, four a date, little-endian.
#![tactic(auto)]

ghost use Rattle.std.specs.Prelude.{ℕ, ◌≡◌, true, not, ◌&&◌, ◌+◌, ◌-◌, ◌*◌, ◌≤◌, ◌<◌, ltb, eqb, length};
ghost use Rattle.laws.specs.Lists.{every, range, filter};
ghost use Rattle.laws.specs.Refusals.{first};
ghost use Rattle.laws.specs.Answers.{number_in};
ghost use Rattle.calendar.specs.Dates.{leap, month_length, year_length, valid, before_year, before_month, day_number, placed, year_place, month_place, date_of};
ghost use Rattle.calendar.specs.BusinessDays;
ghost use Rattle.calendar.specs.BusinessDays.{date_at, holiday_day, Ordered, Ahead, business, business_day, weekday, ascending};
ghost use Rattle.calendar.specs.Answers.{holiday_reasons, day_to_date, date_to_day};

use laws::{BusinessDay, CalendarDay, Refusal};

// The month lengths outside leap years, for both directions.
const MONTHS: [u32; 12] = [31, 28, 31, 30, 31, 30, 31, 31, 30, 31, 30, 31];

const FIRST_YEAR: u32 = 2000;

const LAST_YEAR: u32 = 2099;

// The calendar days of 2000 to 2099.
const ALL_DAYS: u16 = 36525;

const MOST_HOLIDAYS: usize = 64;

const LAST_BUSINESS_DAY: u32 = laws::LAST_DAY as u32;

// A year or a month, with the days left of it.
#[derive(Clone, Copy)]
struct Place {
    period: u32,
    left: u32,
}

// The next holiday of a walk from day to day: its place in the list and its calendar day.
#[derive(Clone, Copy)]
struct Upcoming {
    index: usize,
    day: CalendarDay,
}

fn leap(year: u32) -> bool
    ensures { result ≡ leap year }
{
    year % 4 == 0 && (year % 100 != 0 || year % 400 == 0)
}

fn month_length(year: u32, month: u32) -> u32
    requires { (1 ≤ month) × (month ≤ 12) }
    ensures { result ≡ month_length year month }
{
    let days = MONTHS[(month - 1) as usize];
    if month == 2 && leap(year) {
        days + 1
    } else {
        days
    }
}

fn year_length(year: u32) -> u32
    ensures { result ≡ year_length year }
{
    if leap(year) { 366 } else { 365 }
}

fn valid(date: u32) -> bool
    ensures { result ≡ valid date }
{
    let year = date / 10000;
    let month = date / 100 % 100;
    let day = date % 100;
    (FIRST_YEAR..=LAST_YEAR).contains(&year)
        && (1..=12).contains(&month)
        && (1..=month_length(year, month)).contains(&day)
}

fn before_year(year: u32) -> u32
    requires { (2000 ≤ year) × (year ≤ 2099) }
    ensures { result ≡ before_year year }
{
    (FIRST_YEAR..year).map(|y| year_length(y)).sum()
}

fn before_month(year: u32, month: u32) -> u32
    requires { (1 ≤ month) × (month ≤ 12) }
    ensures { result ≡ before_month year month }
{
    (1..month).map(|m| month_length(year, m)).sum()
}

fn calendar_day(date: u32) -> CalendarDay
    requires { valid date ≡ true }
    ensures { result.0 ≡ day_number date }
{
    let year = date / 10000;
    let month = date / 100 % 100;
    let day = date % 100;
    let years = before_year(year);
    let months = before_month(year, month);
    CalendarDay((years + months + (day - 1)) as u16)
}

// Periods follow one another, the first to the last, and `length` is how many days each has: where a day falls, counted from the first day of the first.
fn place_of<F: Fn(u32) -> u32>(first: u32, last: u32, day: u32, length: F) -> Place
    requires order { first ≤ last }
    requires callable { (period : ℕ) → first ≤ period → period < last → F.pre length period }
    ensures { (long : ℕ → ℕ) → ((period days : ℕ) → first ≤ period → period < last → F.post length period days → days ≡ long period) → result ≡ placed long (last - first) first day }
{
    let mut left = day;
    for period in first..last {
        let days = length(period);
        if left < days {
            return Place { period, left };
        }
        left -= days;
    }
    Place { period: last, left }
}

fn year_of(day: CalendarDay) -> Place
    ensures { result ≡ year_place day.0 }
{
    place_of(
        FIRST_YEAR,
        LAST_YEAR,
        day.0 as u32,
        |year| year_length(year),
    )
}

fn month_of(year: u32, day: u32) -> Place
    ensures { result ≡ month_place year day }
{
    place_of(1, 12, day, |month| month_length(year, month))
}

fn date_of(day: CalendarDay) -> u32
    ensures { result ≡ date_of day.0 }
{
    let year = year_of(day);
    let month = month_of(year.period, year.left);
    10000 * year.period + 100 * month.period + (month.left + 1)
}

// The date of the holiday at an index.
fn holiday(holidays: &[u8], index: usize) -> u32
    requires { 4 * index + 3 < length holidays.now }
    ensures { result ≡ date_at holidays.now index }
{
    let at = 4 * index;
    words::word32(
        holidays[at],
        holidays[at + 1],
        holidays[at + 2],
        holidays[at + 3],
    )
}

fn all_valid(holidays: &[u8]) -> bool
    ensures { result ≡ every valid (BusinessDays.holidays holidays.now) }
{
    (0..holidays.len() / 4).all(|i| valid(holiday(holidays, i)))
}

fn ascending(holidays: &[u8]) -> bool
    ensures { result ≡ ascending (BusinessDays.holidays holidays.now) }
{
    (1..holidays.len() / 4).all(|i| holiday(holidays, i - 1) < holiday(holidays, i))
}

// The refusal that the holidays meet.
fn holidays_refusal(holidays: &[u8]) -> Result<(), Refusal>
    ensures { number_in result ≡ first (holiday_reasons holidays.now) }
{
    if holidays.len() % 4 != 0 || !all_valid(holidays) {
        return Err(Refusal::InvalidDate);
    }
    if MOST_HOLIDAYS < holidays.len() / 4 || !ascending(holidays) {
        return Err(Refusal::WrongHolidays);
    }
    Ok(())
}

// The calendar day of the holiday at an index; past the last the day after 2099.
fn holiday_day(holidays: &[u8], index: usize) -> CalendarDay
    requires { Ordered holidays.now }
    ensures { result.0 ≡ holiday_day holidays.now index }
{
    if index < holidays.len() / 4 {
        calendar_day(holiday(holidays, index))
    } else {
        CalendarDay(ALL_DAYS)
    }
}

// The first holiday at or after a day.
fn next_holiday(holidays: &[u8], day: CalendarDay) -> Upcoming
    requires { Ordered holidays.now × (day.0 < 36525) }
    ensures { Ahead holidays.now day.0 result }
{
    let count = holidays.len() / 4;
    for i in 0..count {
        let next = holiday_day(holidays, i);
        if day.0 <= next.0 {
            return Upcoming {
                index: i,
                day: next,
            };
        }
    }
    Upcoming {
        index: count,
        day: CalendarDay(ALL_DAYS),
    }
}

// The next holiday once a day has passed.
fn next_holiday_after(holidays: &[u8], day: CalendarDay, next: Upcoming) -> Upcoming
    requires { Ordered holidays.now × (day.0 < 36525) × Ahead holidays.now day.0 next }
    ensures { Ahead holidays.now (day.0 + 1) result }
{
    if next.day.0 == day.0 {
        let index = next.index + 1;
        Upcoming {
            index,
            day: holiday_day(holidays, index),
        }
    } else {
        next
    }
}

fn is_business(day: CalendarDay, next: Upcoming) -> bool
    ensures { result ≡ (ltb (weekday day.0) 5 && not (eqb next.day.0 day.0)) }
{
    let weekday = (day.0 as u32 + 5) % 7;
    weekday < 5 && next.day.0 != day.0
}

// The calendar day of a business day; where there is none the day after 2099.
fn nth_business_day(holidays: &[u8], opening: CalendarDay, number: BusinessDay) -> CalendarDay
    requires { Ordered holidays.now × (opening.0 < 36525) × (1 ≤ number.0) }
    ensures { result.0 ≡ business_day (BusinessDays.holidays holidays.now) opening.0 number.0 }
{
    let mut left = number.0 - 1;
    let mut next = next_holiday(holidays, opening);
    for day in opening.0..ALL_DAYS {
        if is_business(CalendarDay(day), next) {
            if left == 0 {
                return CalendarDay(day);
            }
            left -= 1;
        }
        next = next_holiday_after(holidays, CalendarDay(day), next);
    }
    CalendarDay(ALL_DAYS)
}

// The business days from the opening day on before a day.
fn business_days_before(holidays: &[u8], opening: CalendarDay, end: CalendarDay) -> u16
    requires { Ordered holidays.now × (opening.0 ≤ end.0) × (end.0 < 36525) }
    ensures { result ≡ length (filter (business (BusinessDays.holidays holidays.now)) (range opening.0 (end.0 - opening.0))) }
{
    let mut count: u16 = 0;
    let mut next = next_holiday(holidays, opening);
    for day in opening.0..end.0 {
        if is_business(CalendarDay(day), next) {
            count += 1;
        }
        next = next_holiday_after(holidays, CalendarDay(day), next);
    }
    count
}

// Refused with 27 and 28 for dates and holidays, 29 for a number outside 1 to 9,999, 30 where the day falls after 2099.
pub fn day_to_date(opening: u32, holidays: &[u8], number: u32) -> Result<u32, Refusal>
    ensures { result ≡ day_to_date opening holidays.now number }
{
    if !valid(opening) {
        return Err(Refusal::InvalidDate);
    }
    holidays_refusal(holidays)?;
    if number < 1 {
        return Err(Refusal::NoBusinessDay);
    }
    if LAST_BUSINESS_DAY < number {
        return Err(Refusal::NoBusinessDay);
    }
    let day = nth_business_day(holidays, calendar_day(opening), BusinessDay(number as u16));
    if day.0 == ALL_DAYS {
        return Err(Refusal::After2099);
    }
    Ok(date_of(day))
}

// Refused with 27 and 28 for dates and holidays, 29 where the date is no business day from day 1 to 9,999.
pub fn date_to_day(opening: u32, holidays: &[u8], date: u32) -> Result<BusinessDay, Refusal>
    ensures { result ≡ date_to_day opening holidays.now date }
{
    if !valid(opening) {
        return Err(Refusal::InvalidDate);
    }
    if !valid(date) {
        return Err(Refusal::InvalidDate);
    }
    holidays_refusal(holidays)?;
    let start = calendar_day(opening);
    let day = calendar_day(date);
    if day.0 < start.0 {
        return Err(Refusal::NoBusinessDay);
    }
    if !is_business(day, next_holiday(holidays, day)) {
        return Err(Refusal::NoBusinessDay);
    }
    let number = business_days_before(holidays, start, day) + 1;
    if LAST_BUSINESS_DAY < number as u32 {
        return Err(Refusal::NoBusinessDay);
    }
    Ok(BusinessDay(number))
}
