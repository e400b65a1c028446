// The house tables: constants, no device's data sheet. A, B and C are document 01's, T and D, which has groups, the team's own.
ghost use Rattle.std.specs.Prelude.{◌≡◌};
ghost use Rattle.records.specs.House.{numbers_a, numbers_b, numbers_c, numbers_t, numbers_d};

pub const TABLE_A: [u16; 16] = [7, 8, 4, 4, 10, 10, 28, 38, 6, 32, 10, 8, 6, 12, 6, 0];

pub const TABLE_B: [u16; 16] = [7, 8, 4, 4, 10, 10, 28, 38, 6, 155, 10, 8, 6, 12, 6, 0];

pub const TABLE_C: [u16; 16] = [7, 8, 4, 4, 10, 10, 28, 38, 6, 32, 10, 8, 2, 12, 6, 0];

pub const TABLE_T: [u16; 16] = [9, 6, 4, 5, 11, 12, 26, 40, 7, 33, 13, 10, 8, 14, 3, 0];

pub const TABLE_D: [u16; 20] = [
    7, 8, 4, 4, 10, 10, 28, 38, 6, 32, 10, 8, 6, 12, 6, 0, 4, 9, 20, 13,
];

// The constants are the numbers that the definitions speak of.
pub fn table_a() -> [u16; 16]
    ensures { result ≡ numbers_a }
{
    TABLE_A
}

pub fn table_b() -> [u16; 16]
    ensures { result ≡ numbers_b }
{
    TABLE_B
}

pub fn table_c() -> [u16; 16]
    ensures { result ≡ numbers_c }
{
    TABLE_C
}

pub fn table_t() -> [u16; 16]
    ensures { result ≡ numbers_t }
{
    TABLE_T
}

pub fn table_d() -> [u16; 20]
    ensures { result ≡ numbers_d }
{
    TABLE_D
}
