// Document 01's lists as one table, and a row of it.
ghost use Rattle.std.specs.Prelude.{◌≡◌, ℕ, ◌+◌};
ghost use Rattle.keys.specs.Mirror.PackedKeys.{key_table, key_at};

use super::row::{CONDITION, COUNT, Condition, LEFT, RIGHT, Row, Side, VALUE};

// Before the rows, a number for each group of rows: where they start, and how many they are.
const ROWS: u64 = 1 << COUNT;

// ---- the relation of a key: the code of its node, a byte of document 01 in the lowest column
const EQ: u64 = 0x10;

const LT: u64 = 0x11;

const LE: u64 = 0x12;

const GT: u64 = 0x13;

const GE: u64 = 0x14;

const IN: u64 = 0x15;

const SUB: u64 = 0x16;

const SUBE: u64 = 0x17;

// ---- its two sides
const L_R: u64 = ((Side::Left as u64) << LEFT) + ((Side::Right as u64) << RIGHT);

const R_L: u64 = ((Side::Right as u64) << LEFT) + ((Side::Left as u64) << RIGHT);

const L_Z: u64 = ((Side::Left as u64) << LEFT) + ((Side::Zero as u64) << RIGHT);

const Z_L: u64 = ((Side::Zero as u64) << LEFT) + ((Side::Left as u64) << RIGHT);

const R_Z: u64 = ((Side::Right as u64) << LEFT) + ((Side::Zero as u64) << RIGHT);

const Z_R: u64 = ((Side::Zero as u64) << LEFT) + ((Side::Right as u64) << RIGHT);

const L_NAT: u64 = ((Side::Left as u64) << LEFT) + ((Side::Nat as u64) << RIGHT);

const R_NAT: u64 = ((Side::Right as u64) << LEFT) + ((Side::Nat as u64) << RIGHT);

const L_NAT1: u64 = ((Side::Left as u64) << LEFT) + ((Side::Nat1 as u64) << RIGHT);

const R_NAT1: u64 = ((Side::Right as u64) << LEFT) + ((Side::Nat1 as u64) << RIGHT);

// ---- its condition, if it has one
const IF_INTEGERS: u64 = (Condition::Integers as u64) << CONDITION;

const IF_SETS: u64 = (Condition::Sets as u64) << CONDITION;

const IF_ZERO_LEFT: u64 = (Condition::ZeroLeft as u64) << CONDITION;

const IF_ZERO_RIGHT: u64 = (Condition::ZeroRight as u64) << CONDITION;

const IF_POSITIVE: u64 = (Condition::PositiveLeft as u64) << CONDITION;

const IF_NEGATIVE: u64 = (Condition::NegativeLeft as u64) << CONDITION;

// ---- the truth value that stands for it
const FALSE: u64 = 0;

const TRUE: u64 = 1 << VALUE;

static KEYS: [u64; 179] = [
    // =, true
    19 + 24 * ROWS,
    // <, true
    43 + 19 * ROWS,
    // ≤, true
    62 + 11 * ROWS,
    // ∈ a set, true
    73 + 2 * ROWS,
    // ∈ℕ, true
    75 + 6 * ROWS,
    // ∈ℕ1, true
    81 + 15 * ROWS,
    // ⊂, true
    96 + 11 * ROWS,
    // ⊆, true
    107 + 4 * ROWS,
    // =, false
    111 + 4 * ROWS,
    // <, false
    115 + 11 * ROWS,
    // ≤, false
    126 + 19 * ROWS,
    // ∈ a set, false
    145 + 2 * ROWS,
    // ∈ℕ, false
    147 + 14 * ROWS,
    // ∈ℕ1, false
    161 + 6 * ROWS,
    // ⊂, false
    167 + 2 * ROWS,
    // ⊆, false
    169 + 8 * ROWS,
    // any other predicate, true
    177 + 1 * ROWS,
    // any other predicate, false
    178 + 1 * ROWS,
    // a literal: no row
    179 + 0 * ROWS,
    // ---- =, true
    EQ + L_R + TRUE,
    EQ + R_L + TRUE,
    SUBE + L_R + IF_SETS + TRUE,
    SUBE + R_L + IF_SETS + TRUE,
    SUB + L_R + IF_SETS + FALSE,
    SUB + R_L + IF_SETS + FALSE,
    LE + L_R + IF_INTEGERS + TRUE,
    GE + R_L + IF_INTEGERS + TRUE,
    LE + R_L + IF_INTEGERS + TRUE,
    GE + L_R + IF_INTEGERS + TRUE,
    IN + L_NAT1 + IF_ZERO_RIGHT + FALSE,
    GE + Z_L + IF_ZERO_RIGHT + TRUE,
    LE + L_Z + IF_ZERO_RIGHT + TRUE,
    IN + R_NAT1 + IF_ZERO_LEFT + FALSE,
    GE + Z_R + IF_ZERO_LEFT + TRUE,
    LE + R_Z + IF_ZERO_LEFT + TRUE,
    EQ + L_R + TRUE,
    EQ + R_L + TRUE,
    LT + L_R + IF_INTEGERS + FALSE,
    GT + R_L + IF_INTEGERS + FALSE,
    LT + R_L + IF_INTEGERS + FALSE,
    GT + L_R + IF_INTEGERS + FALSE,
    SUB + L_R + IF_SETS + FALSE,
    SUB + R_L + IF_SETS + FALSE,
    // ---- <, true
    LT + L_R + TRUE,
    GT + R_L + TRUE,
    LE + L_R + TRUE,
    GE + R_L + TRUE,
    EQ + L_R + FALSE,
    EQ + R_L + FALSE,
    IN + R_NAT + IF_POSITIVE + TRUE,
    LE + Z_R + IF_POSITIVE + TRUE,
    GE + R_Z + IF_POSITIVE + TRUE,
    IN + R_NAT1 + IF_POSITIVE + TRUE,
    LT + Z_R + IF_POSITIVE + TRUE,
    GT + R_Z + IF_POSITIVE + TRUE,
    LT + L_R + TRUE,
    GE + L_R + FALSE,
    LE + R_L + FALSE,
    GT + L_R + FALSE,
    LT + R_L + FALSE,
    EQ + L_R + FALSE,
    EQ + R_L + FALSE,
    // ---- ≤, true
    LE + L_R + TRUE,
    GE + R_L + TRUE,
    IN + R_NAT + IF_POSITIVE + TRUE,
    LE + Z_R + IF_POSITIVE + TRUE,
    GE + R_Z + IF_POSITIVE + TRUE,
    IN + R_NAT1 + IF_POSITIVE + TRUE,
    LT + Z_R + IF_POSITIVE + TRUE,
    GT + R_Z + IF_POSITIVE + TRUE,
    LE + L_R + TRUE,
    GT + L_R + FALSE,
    LT + R_L + FALSE,
    // ---- ∈ a set, true
    IN + L_R + TRUE,
    IN + L_R + TRUE,
    // ---- ∈ℕ, true
    IN + L_NAT + TRUE,
    LE + Z_L + TRUE,
    GE + L_Z + TRUE,
    IN + L_NAT + TRUE,
    GT + Z_L + FALSE,
    LT + L_Z + FALSE,
    // ---- ∈ℕ1, true
    IN + L_NAT1 + TRUE,
    LT + Z_L + TRUE,
    GT + L_Z + TRUE,
    IN + L_NAT + TRUE,
    LE + Z_L + TRUE,
    GE + L_Z + TRUE,
    EQ + L_Z + FALSE,
    EQ + Z_L + FALSE,
    IN + L_NAT1 + TRUE,
    GE + Z_L + FALSE,
    LE + L_Z + FALSE,
    EQ + L_Z + FALSE,
    EQ + Z_L + FALSE,
    GT + Z_L + FALSE,
    LT + L_Z + FALSE,
    // ---- ⊂, true
    SUB + L_R + TRUE,
    SUBE + L_R + TRUE,
    EQ + L_R + FALSE,
    EQ + R_L + FALSE,
    SUB + R_L + FALSE,
    SUBE + R_L + FALSE,
    SUB + L_R + TRUE,
    SUB + R_L + FALSE,
    SUBE + R_L + FALSE,
    EQ + L_R + FALSE,
    EQ + R_L + FALSE,
    // ---- ⊆, true
    SUBE + L_R + TRUE,
    SUB + R_L + FALSE,
    SUBE + L_R + TRUE,
    SUB + R_L + FALSE,
    // ---- =, false
    EQ + L_R + FALSE,
    EQ + R_L + FALSE,
    EQ + L_R + FALSE,
    EQ + R_L + FALSE,
    // ---- <, false
    LT + L_R + FALSE,
    GT + R_L + FALSE,
    IN + R_NAT + IF_NEGATIVE + FALSE,
    LE + Z_R + IF_NEGATIVE + FALSE,
    GE + R_Z + IF_NEGATIVE + FALSE,
    IN + R_NAT1 + IF_NEGATIVE + FALSE,
    LT + Z_R + IF_NEGATIVE + FALSE,
    GT + R_Z + IF_NEGATIVE + FALSE,
    LT + L_R + FALSE,
    GE + L_R + TRUE,
    LE + R_L + TRUE,
    // ---- ≤, false
    LE + L_R + FALSE,
    GE + R_L + FALSE,
    LT + L_R + FALSE,
    GT + R_L + FALSE,
    EQ + L_R + FALSE,
    EQ + R_L + FALSE,
    IN + R_NAT + IF_NEGATIVE + FALSE,
    LE + Z_R + IF_NEGATIVE + FALSE,
    GE + R_Z + IF_NEGATIVE + FALSE,
    IN + R_NAT1 + IF_NEGATIVE + FALSE,
    LT + Z_R + IF_NEGATIVE + FALSE,
    GT + R_Z + IF_NEGATIVE + FALSE,
    LE + L_R + FALSE,
    GT + L_R + TRUE,
    LT + R_L + TRUE,
    GE + L_R + TRUE,
    LE + R_L + TRUE,
    EQ + L_R + FALSE,
    EQ + R_L + FALSE,
    // ---- ∈ a set, false
    IN + L_R + FALSE,
    IN + L_R + FALSE,
    // ---- ∈ℕ, false
    IN + L_NAT + FALSE,
    LE + Z_L + FALSE,
    GE + L_Z + FALSE,
    IN + L_NAT1 + FALSE,
    LT + Z_L + FALSE,
    GT + L_Z + FALSE,
    IN + L_NAT + FALSE,
    GT + Z_L + TRUE,
    LT + L_Z + TRUE,
    GE + Z_L + TRUE,
    LE + L_Z + TRUE,
    IN + L_NAT1 + FALSE,
    EQ + L_Z + FALSE,
    EQ + Z_L + FALSE,
    // ---- ∈ℕ1, false
    IN + L_NAT1 + FALSE,
    LT + Z_L + FALSE,
    GT + L_Z + FALSE,
    IN + L_NAT1 + FALSE,
    GE + Z_L + TRUE,
    LE + L_Z + TRUE,
    // ---- ⊂, false
    SUB + L_R + FALSE,
    SUB + L_R + FALSE,
    // ---- ⊆, false
    SUBE + L_R + FALSE,
    SUB + L_R + FALSE,
    EQ + L_R + FALSE,
    EQ + R_L + FALSE,
    SUBE + L_R + FALSE,
    SUB + L_R + FALSE,
    EQ + L_R + FALSE,
    EQ + R_L + FALSE,
    // ---- any other predicate, true
    TRUE,
    // ---- any other predicate, false
    FALSE,
];

// The whole table.
#[tactic(auto, unfolding(crate::specs::Mirror::PackedKeys::key_table, crate::specs::Keys::rows_of))]
pub fn key_table() -> &'static [u64]
    ensures { result.now ≡ key_table }
{
    &KEYS
}

// The row k of those that start at `first`; 0 where there is none.
#[tactic(auto, unfolding(crate::specs::Mirror::PackedKeys::key_at))]
pub fn key_at(first: usize, k: usize) -> Row
    ensures { result.0 ≡ key_at (first + k) }
{
    let row = key_table().get(first.saturating_add(k));
    Row(row.copied().unwrap_or(0))
}
