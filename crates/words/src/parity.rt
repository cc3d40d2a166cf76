// The parity bit of a byte: one table of all 256, and looking it up.
ghost use Rattle.std.specs.Prelude.{◌≡◌};
ghost use Rattle.words.specs.Table.{parity_by, parity_table};
ghost use Rattle.words.specs.Word.{parity_of};

// The bit of each byte, 1 where it has an even number of ones, else 0: byte and bit together then have an odd number.
const PARITY: [u8; 256] = [
    1, // 0
    0, 0, 1, 0, 1, 1, 0, 0, 1, 1, 0, 1, 0, 0, 1, 0, // 16
    1, 1, 0, 1, 0, 0, 1, 1, 0, 0, 1, 0, 1, 1, 0, 0, // 32
    1, 1, 0, 1, 0, 0, 1, 1, 0, 0, 1, 0, 1, 1, 0, 1, // 48
    0, 0, 1, 0, 1, 1, 0, 0, 1, 1, 0, 1, 0, 0, 1, 0, // 64
    1, 1, 0, 1, 0, 0, 1, 1, 0, 0, 1, 0, 1, 1, 0, 1, // 80
    0, 0, 1, 0, 1, 1, 0, 0, 1, 1, 0, 1, 0, 0, 1, 1, // 96
    0, 0, 1, 0, 1, 1, 0, 0, 1, 1, 0, 1, 0, 0, 1, 0, // 112
    1, 1, 0, 1, 0, 0, 1, 1, 0, 0, 1, 0, 1, 1, 0, 0, // 128
    1, 1, 0, 1, 0, 0, 1, 1, 0, 0, 1, 0, 1, 1, 0, 1, // 144
    0, 0, 1, 0, 1, 1, 0, 0, 1, 1, 0, 1, 0, 0, 1, 1, // 160
    0, 0, 1, 0, 1, 1, 0, 0, 1, 1, 0, 1, 0, 0, 1, 0, // 176
    1, 1, 0, 1, 0, 0, 1, 1, 0, 0, 1, 0, 1, 1, 0, 1, // 192
    0, 0, 1, 0, 1, 1, 0, 0, 1, 1, 0, 1, 0, 0, 1, 0, // 208
    1, 1, 0, 1, 0, 0, 1, 1, 0, 0, 1, 0, 1, 1, 0, 0, // 224
    1, 1, 0, 1, 0, 0, 1, 1, 0, 0, 1, 0, 1, 1, 0, 1, // 240
    0, 0, 1, 0, 1, 1, 0, 0, 1, 1, 0, 1, 0, 0, 1, // 255
];

// The table by value. The compiler builds it anew at each call, so a loop over words takes it out once and lends it.
pub fn parities() -> [u8; 256]
    ensures { result ≡ parity_table }
{
    PARITY
}

// The parity bit of a byte by a lent table: the low bit of its entry there, 0 where the table is too short to have one.
pub fn parity_by(table: &[u8], byte: u8) -> u16
    ensures { result ≡ parity_by table.now byte }
{
    let place = byte as usize;
    if place < table.len() {
        (table[place] % 2) as u16
    } else {
        0
    }
}

// The parity bit of a single byte.
pub fn parity(byte: u8) -> u16
    ensures { result ≡ parity_of byte }
{
    let table = parities();
    parity_by(&table, byte)
}
