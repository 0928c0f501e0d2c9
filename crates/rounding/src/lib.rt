// Rounding of requested lengths (rules, sections 6 and 23): the unit of a request, the object's length, and the unit of that
// length, by which the object is aligned. The edition of the table is a number, 0 for edition 1; every other one is taken for
// edition 2.
#![tactic(auto)]

ghost use Rattle.std.specs.Prelude.{◌≡◌, ◌≤◌};
ghost use Rattle.rounding.specs.Rounding.{table, object_length, leading_zeros, power as power_of, by_zeros};

// The unit of a length in an edition's table, row by row: of a request's, to round it.
// The edition is a number: C lends any byte as one.
#[tactic(auto, unfolding(crate::specs::Rounding::unit, crate::specs::Rounding::unit_2, crate::specs::Rounding::table))]
pub fn unit(edition: u8, length: u32) -> u32
    ensures { result ≡ table edition length }
{
    match (edition, length) {
        (0, 0..=8191) => 8,
        (0, 8192..=16383) => 16,
        (0, 16384..=32767) => 32,
        (0, _) => 64,
        (_, 0..=4088) => 8,
        (_, 4089..=8176) => 16,
        (_, 8177..=16352) => 32,
        (_, 16353..=32704) => 64,
        _ => 128,
    }
}

// The object's length: the least multiple of the unit that is not below the request. It can need more than 32 bits. The
// line is that of the definition `object_length`, word for word.
// The edition is a number: C lends any byte as one.
pub fn object_length(edition: u8, length: u32) -> u64
    ensures { result ≡ object_length (table edition) length }
{
    let unit = unit(edition, length) as u64;
    (length as u64 + (unit - 1)) / unit * unit
}

// How many zeros a number of 32 bits begins with, 32 for 0.
pub fn leading_zeros(x: u32) -> u32
    ensures { result ≡ leading_zeros 32 x }
{
    u32::leading_zeros(x)
}

// Which power of two edition 1's unit is, for each count of leading zeros from 0 on (rule 6.7): 64 up to 16 zeros, then 32,
// 16, and 8 from 19 on. A table and no `match`: the check looks it up for each object.
const FIRST_POWERS: [u8; 33] = [
    6, 6, 6, 6, 6, 6, 6, 6, 6, 6, 6, 6, 6, 6, 6, 6, 6, 5, 4, 3, 3, 3, 3, 3, 3, 3, 3, 3, 3, 3, 3, 3,
    3,
];

// Edition 2's: 128 up to 16 zeros, then 64, 32, 16, and 8 from 20 on (rule 23.6). A table of both tables would be no
// plainer: `power` would need a number from `edition == 0` to choose the row, since every number but 0 is taken for edition 2.
const SECOND_POWERS: [u8; 33] = [
    7, 7, 7, 7, 7, 7, 7, 7, 7, 7, 7, 7, 7, 7, 7, 7, 7, 6, 5, 4, 3, 3, 3, 3, 3, 3, 3, 3, 3, 3, 3, 3,
    3,
];

// Which power of two the unit is, for a count of leading zeros. The edition is a number: C lends any byte as one.
fn power(edition: u8, zeros: usize) -> u8
    requires { zeros ≤ 32 }
    ensures { result ≡ power_of edition zeros }
{
    if edition == 0 {
        return FIRST_POWERS[zeros];
    }
    SECOND_POWERS[zeros]
}

// The unit of an object's length by its leading zeros, to align it: the table's, where the length is a multiple of its unit
// (rules 6.7 and 23.6). The edition is a number: C lends any byte as one.
pub fn object_unit(edition: u8, length: u32) -> u32
    ensures { result ≡ by_zeros edition length }
{
    let zeros = leading_zeros(length) as usize;
    let power = power(edition, zeros) as u32;
    1 << power
}
