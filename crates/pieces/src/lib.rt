// The sheet of a discharge as numbers that a caller lends: five for each piece, 1,024 pieces.
#![tactic(auto)]

ghost use Rattle.std.specs.Prelude.{◌≡◌, ◌<◌, length, get_or, replicate};
ghost use Rattle.laws.specs.Limits.{PLACES, SHEET_CELLS};
ghost use Rattle.laws.specs.Lists.{each};
ghost use Rattle.plain.specs.Dealing.{manner_number};
ghost use Rattle.pieces.specs.Sheet.{cells_of, manner_numbered, no_piece, pieces_of, unpriced, PutCents, PutPiece};

use laws::{PIECE_WIDTH, PLACES, SHEET_CELLS};
use plain::{Manner, Piece};

fn manner_number(manner: Manner) -> u64
    ensures { result ≡ manner_number manner }
{
    manner as u64 + 1
}

fn manner_of(number: u64) -> Manner
    ensures { result ≡ manner_numbered number }
{
    match number {
        2 => Manner::BoughtIn,
        3 => Manner::Cash,
        4 => Manner::Paired,
        _ => Manner::Delivered,
    }
}

// A piece without its cents, which `put_cents` adds: so its parts, and no `Piece`.
#[tactic(auto, using(crate::proofs::Cells::piece_put))]
pub fn put_piece(
    sheet: &mut [u64; SHEET_CELLS],
    place: usize,
    short: u16,
    long: u16,
    units: u32,
    manner: Manner,
)
    requires { (length sheet.old ≡ SHEET_CELLS) × (place < PLACES) }
    ensures { PutPiece sheet.old place (unpriced manner short long units) sheet.new }
{
    let piece = [
        short as u64,
        long as u64,
        units as u64,
        manner_number(manner),
        0,
    ];
    cells::put_cells(sheet, place, piece);
}

// The long of a piece, and its units: one number of its row each, which is all that a payment asks.
#[tactic(auto, using(crate::proofs::Cells::piece_is))]
pub fn long_at(sheet: &[u64; SHEET_CELLS], place: usize) -> u16
    requires { place < PLACES }
    ensures { result ≡ (get_or (pieces_of sheet.now) place no_piece).long }
{
    (sheet[PIECE_WIDTH * place + 1] % 65536) as u16
}

#[tactic(auto, using(crate::proofs::Cells::piece_is))]
pub fn units_at(sheet: &[u64; SHEET_CELLS], place: usize) -> u32
    requires { place < PLACES }
    ensures { result ≡ (get_or (pieces_of sheet.now) place no_piece).quantity }
{
    (sheet[PIECE_WIDTH * place + 2] % 4294967296) as u32
}

// The cents of a piece; the rest of it stays.
#[tactic(auto, using(crate::proofs::Cells::cents_put))]
pub fn put_cents(sheet: &mut [u64; SHEET_CELLS], place: usize, cents: u64)
    requires { (length sheet.old ≡ SHEET_CELLS) × (place < PLACES) }
    ensures { PutCents sheet.old place cents sheet.new }
{
    sheet[PIECE_WIDTH * place + 4] = cents;
}

// A number is cut to its field's width before each cast, since here `as` asks that the value fits.
#[tactic(auto, using(crate::proofs::Cells::piece_taken))]
pub fn piece_at(sheet: &[u64; SHEET_CELLS], place: usize) -> Piece
    requires { place < PLACES }
    ensures { result ≡ get_or (pieces_of sheet.now) place no_piece }
{
    let [short, long, units, manner, cents] = cells::cells_at::<u64, PIECE_WIDTH>(sheet, place);
    Piece {
        short: (short % 65536) as u16,
        long: (long % 65536) as u16,
        quantity: (units % 4294967296) as u32,
        manner: manner_of(manner),
        cents,
    }
}

// 1,024 places for pieces, each of them empty. The length follows, and spares a caller the proof of it.
pub fn blank_pieces() -> [Piece; PLACES]
    ensures { (result ≡ replicate PLACES no_piece) × (length result ≡ PLACES) }
{
    let piece = Piece {
        short: 0,
        long: 0,
        quantity: 0,
        manner: Manner::Delivered,
        cents: 0,
    };
    [piece; PLACES]
}

// All places of the sheet as pieces.
pub fn pieces_of(sheet: &[u64; SHEET_CELLS]) -> [Piece; PLACES]
    ensures { result ≡ pieces_of sheet.now }
{
    std::array::from_fn(|place| piece_at(sheet, place))
}

// The numbers of an empty sheet.
pub fn blank_numbers() -> [u64; SHEET_CELLS]
    ensures { (result ≡ replicate SHEET_CELLS 0) × (length result ≡ SHEET_CELLS) }
{
    [0; SHEET_CELLS]
}

// The numbers that stand for these pieces.
pub fn numbers_of(items: [Piece; PLACES]) -> [u64; SHEET_CELLS]
    ensures { (result ≡ each cells_of items) × (pieces_of result ≡ items) × (length result ≡ SHEET_CELLS) }
{
    let mut sheet = blank_numbers();
    for (i, piece) in items.iter().enumerate() {
        put_piece(
            &mut sheet,
            i,
            piece.short,
            piece.long,
            piece.quantity,
            piece.manner,
        );
        put_cents(&mut sheet, i, piece.cents);
    }
    sheet
}
