//! The check of Ethernet, eight octets at a time, with a table for each of their places; and that of GFP, octet by octet.
ghost use Rattle.std.specs.Prelude.{◌≡◌, ℕ, ◌+◌, ◌≤◌, List, ◌++◌, [], ◌∷◌, length, take};
ghost use Rattle.std.specs.Int.{to_le_bytes, w64};
ghost use Rattle.check_crc32.specs.Crc32.{BitOrder, least_first, fcs_of, fcs_in};
ghost use Rattle.check_crc32.specs.Register.{RegisterStands, IsTable, IsTables};

use crate::crc32_tables::{LEAST_FIRST, MOST_FIRST};

/// The frame check sequence of octets, the most significant bit of each octet first (G.7041).
#[inline]
pub fn fcs(octets: &[u8]) -> [u8; 4]
    ensures { result ≡ fcs_of octets.now }
{
    inverted(after_octets(&MOST_FIRST, u32::MAX, octets))
}

/// The frame check sequence of Ethernet (IEEE 802.3): the least significant bit of each octet is first.
#[inline]
pub fn ethernet_fcs(octets: &[u8]) -> [u8; 4]
    ensures { result ≡ fcs_in least_first octets.now }
{
    inverted(after_words(&LEAST_FIRST, octets))
}

/// The check that a register makes.
#[inline]
fn inverted(register: u32) -> [u8; 4]
    ensures { (order : BitOrder) (octets : List ℕ) → RegisterStands order octets register →
        result ≡ fcs_in order octets }
{
    (register ^ u32::MAX).to_le_bytes()
}

/// The register after octets, eight at a time.
fn after_words(tables: &[[u32; 256]; 8], octets: &[u8]) -> u32
    ensures { (order : BitOrder) → IsTables order tables.now →
        RegisterStands order octets.now result }
{
    let words = octets.len() / 8;
    let mut register = u32::MAX;
    for i in 0..words {
        register = after_word(tables, register, word_at(octets, 8 * i));
    }
    after_octets(&tables[0], register, &octets[8 * words..])
}

/// The register after more octets, one by one.
fn after_octets(table: &[u32; 256], begun: u32, octets: &[u8]) -> u32
    ensures { (order : BitOrder) (before : List ℕ) → IsTable order table.now →
        RegisterStands order before begun → RegisterStands order (before ++ octets.now) result }
{
    let mut register = begun;
    for i in 0..octets.len() {
        register = after_octet(table, register, octets[i]);
    }
    register
}

/// The word that the eight octets at a place are, the first one least significant.
#[inline]
fn word_at(octets: &[u8], at: usize) -> u64
    requires { at + 8 ≤ length octets.now }
    ensures { take (at + 8) octets.now ≡ take at octets.now ++ to_le_bytes w64 result }
{
    u64::from_le_bytes([
        octets[at],
        octets[at + 1],
        octets[at + 2],
        octets[at + 3],
        octets[at + 4],
        octets[at + 5],
        octets[at + 6],
        octets[at + 7],
    ])
}

/// The register after eight more octets, each of which leaves its own with those after it being zeros.
#[inline]
fn after_word(tables: &[[u32; 256]; 8], register: u32, word: u64) -> u32
    ensures { (order : BitOrder) (octets : List ℕ) → IsTables order tables.now →
        RegisterStands order octets register → RegisterStands order (octets ++ to_le_bytes w64 word) result }
{
    let [a, b, c, d, e, f, g, h] = (word ^ u64::from(register)).to_le_bytes();
    tables[7][a as usize]
        ^ tables[6][b as usize]
        ^ tables[5][c as usize]
        ^ tables[4][d as usize]
        ^ tables[3][e as usize]
        ^ tables[2][f as usize]
        ^ tables[1][g as usize]
        ^ tables[0][h as usize]
}

/// The register after one more octet.
#[inline]
fn after_octet(table: &[u32; 256], register: u32, octet: u8) -> u32
    ensures { (order : BitOrder) (octets : List ℕ) → IsTable order table.now →
        RegisterStands order octets register → RegisterStands order (octets ++ octet ∷ []) result }
{
    (register >> 8) ^ table[((register % 256) as u8 ^ octet) as usize]
}
