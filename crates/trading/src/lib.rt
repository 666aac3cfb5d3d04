// Trades and prices.
#![tactic(auto)]

ghost use Rattle.std.specs.Prelude.{◌≡◌, length};
ghost use Rattle.laws.specs.Limits.{TRADE_CELLS};
ghost use Rattle.events.specs.declared.Event.TheVariants as event;
ghost use Rattle.plain.specs.Calls.{call};
ghost use Rattle.machine.specs.declared.Numbers.{Numbers};
ghost use Rattle.machine.specs.View.{on_trades, Held, CalledBare};
ghost use Rattle.laws.specs.Answers.{number_in};
ghost use Rattle.laws.specs.Refusals.{first};
ghost use Rattle.plain.specs.Refusals.{is_one_party, has_kinds, trade_reasons, price_reasons};

use events::{Price, Trade};
use laws::{Refusal, TRADE_CELLS, TRADES};
use machine::{Answered, Core, done, refused};
use plain::Kind;
use refusals::{is_member, is_price, is_quantity, is_security};

// The greater of the two kind bytes: 0 own, 1 client.
const CLIENT: u8 = Kind::Client as u8;

// Seller and buyer are the same member in business of the same kind, by the bytes as they are.
fn is_one_party(t: Trade) -> bool
    ensures { result ≡ is_one_party t }
{
    t.seller == t.buyer && t.sellerkind == t.buyerkind
}

// The kind bytes of both sides are own or client.
fn has_kinds(t: Trade) -> bool
    ensures { result ≡ has_kinds t }
{
    t.sellerkind <= CLIENT && t.buyerkind <= CLIENT
}

#[tactic(auto, unfolding(plain::specs::Refusals::trade_reasons))]
fn trade_refusal(securities: u16, held: usize, t: Trade) -> Result<(), Refusal>
    ensures { number_in result ≡ first (trade_reasons securities held t) }
{
    if !is_member(t.seller) {
        return Err(Refusal::NoMember);
    }
    if !is_member(t.buyer) {
        return Err(Refusal::NoMember);
    }
    if !is_security(securities, t.security) {
        return Err(Refusal::NotRegistered);
    }
    if !is_quantity(t.quantity) {
        return Err(Refusal::WrongQuantity);
    }
    if !is_price(t.price) {
        return Err(Refusal::WrongPrice);
    }
    if is_one_party(t) {
        return Err(Refusal::SellerIsBuyer);
    }
    if !has_kinds(t) {
        return Err(Refusal::WrongKind);
    }
    if TRADES <= held {
        return Err(Refusal::TradesFull);
    }
    Ok(())
}

#[tactic(auto, unfolding(plain::specs::Refusals::price_reasons))]
fn price_refusal(securities: u16, p: Price) -> Result<(), Refusal>
    ensures { number_in result ≡ first (price_reasons securities p) }
{
    if !is_security(securities, p.security) {
        return Err(Refusal::NotRegistered);
    }
    if !is_price(p.price) {
        return Err(Refusal::WrongPrice);
    }
    Ok(())
}

pub fn trade(core: Core, trades: &mut [u32; TRADE_CELLS], t: Trade) -> Answered
    requires { length trades.old ≡ TRADE_CELLS }
    ensures { (a : Numbers) → Held core (on_trades a trades.old) → CalledBare core (on_trades a trades.old) (call (event.Trade t) 0) result.core (on_trades a trades.new) result.outcome result.pieces }
{
    if let Err(refusal) = trade_refusal(core.opening.register.count, core.trades, t) {
        return refused(core, refusal);
    }
    let n = core.trades;
    rows::put_trade(trades, n, t);
    let mut after = core;
    after.trades = n + 1;
    done(after, t.quantity, 0)
}

pub fn price(core: Core, p: Price) -> Answered
    requires { (a : Numbers) × Held core a }
    ensures { (a : Numbers) → Held core a → CalledBare core a (call (event.Price p) 0) result.core a result.outcome result.pieces }
{
    if let Err(refusal) = price_refusal(core.opening.register.count, p) {
        return refused(core, refusal);
    }
    let k = (p.security - 1) as usize;
    let day = core.day;
    let mut prices = core.prices;
    prices.latest[k] = p.price;
    prices.days[k] = day;
    let mut after = core;
    after.prices = prices;
    done(after, 0, 0)
}
