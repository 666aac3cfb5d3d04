// A discharge dealt out over the table of positions, in place, and a short set off against a long.
// Document 01, 'Discharge and pieces', and document 02, Slip 7.
#![tactic(auto)]

ghost use Rattle.std.specs.Prelude.{◌≡◌};
ghost use Rattle.positions.specs.Dealing as spec;
ghost use Rattle.positions.specs.Pairing.{SettingOff, SetOff};

use laws::{BusinessDay, POSITION_CELLS, SHEET_CELLS};
use plain::{Manner, Position};

// How many pieces a discharge has, and the place where its walk was left: no long of the security before it is open.
#[derive(Drop)]
pub struct Left {
    pub pieces: usize,
    pub end: usize,
}

// What a position takes of what is left, 0 where it is no long of the security.
fn share_of(p: Position, security: u16, left: u32) -> u32
    ensures { result ≡ spec.share_of security left p }
{
    if !p.short && p.security == security {
        p.unsettled.min(left)
    } else {
        0
    }
}

// The table is in order of rising delivery days, so the walk steps along it from day to day, and within a day from
// position to position; it is left as soon as the quantity is dealt out. It starts where the first open long may be. The table is lent, and changed where it stands.
pub fn deal(
    rows: &mut [u32; POSITION_CELLS],
    sheet: &mut [u64; SHEET_CELLS],
    count: usize,
    day: BusinessDay,
    short: u16,
    quantity: u32,
    manner: Manner,
    start: usize,
) -> Left
    requires { spec.Walkable rows.old sheet.old count day.0 short quantity start }
    ensures { spec.Walked rows.old sheet.old count day.0 short quantity manner rows.new sheet.new result.pieces result.end }
{
    let place = (short - 1) as usize;
    let own = rows::row_at(rows, place);
    rows::lower(rows, place, manner, quantity);
    let mut dealt: usize = 0;
    let mut left = quantity;
    let mut i = start;
    // a nested walk left by a label, whose loops move one place: document 01, 'The forms we expect', names this form
    'deal: while i < count {
        let settlement = rows::settlement_at(rows, i);
        if day.0 < settlement {
            break 'deal;
        }
        while i < count && rows::settlement_at(rows, i) == settlement {
            let long = rows::row_at(rows, i);
            let units = share_of(long, own.security, left);
            if 0 < units {
                pieces::put_piece(sheet, dealt, short, (i + 1) as u16, units, manner);
                dealt += 1;
                rows::lower(rows, i, manner, units);
                left -= units;
                if left == 0 {
                    break 'deal;
                }
            }
            i += 1;
        }
    }
    Left {
        pieces: dealt,
        end: i,
    }
}

// Units of a short are set off against a long: both fall by them, and the sheet's first piece says so. Which long takes them is given, so that nothing is
// walked over.
pub fn set_off(
    rows: &mut [u32; POSITION_CELLS],
    sheet: &mut [u64; SHEET_CELLS],
    short: u16,
    long: u16,
    quantity: u32,
)
    requires { SettingOff rows.old sheet.old short long quantity }
    ensures { SetOff rows.old sheet.old short long quantity rows.new sheet.new }
{
    let short_place = (short - 1) as usize;
    rows::lower(rows, short_place, Manner::Paired, quantity);
    let long_place = (long - 1) as usize;
    rows::lower(rows, long_place, Manner::Paired, quantity);
    pieces::put_piece(sheet, 0, short, long, quantity, Manner::Paired);
}
