// The node table and what a row of it says.
ghost use Rattle.std.specs.Prelude.{◌≡◌, ℕ, ◌<◌};
ghost use Rattle.formula.specs.Mirror.PackedTable.{table, field, ident_type};

use super::Sort;
use super::bytes::small_at;
use refusal::Cause;

// The node codes as one fixed table, indexed by code. A row has a byte for each, from the lowest on: own bytes, least count,
// greatest count (or which limit), operands (and 4 more if the node binds variables), kinds of the first and of the other
// operands, kind, sort.
static TABLE: [u64; 51] = [
    0x0000000000000000,
    0x0101000000020000,
    0x0101000000020000,
    0x0101010101020000,
    0x0101010103200201,
    0x0101010103200201,
    0x0101010102020000,
    0x0101010102020000,
    0x0101010105080101,
    0x0101010105080101,
    0x0000000000000000,
    0x0000000000000000,
    0x0000000000000000,
    0x0000000000000000,
    0x0000000000000000,
    0x0000000000000000,
    0x0101004E02020000,
    0x0101020202020000,
    0x0101020202020000,
    0x0101020202020000,
    0x0101020202020000,
    0x0101380202020000,
    0x0101080802020000,
    0x0101080802020000,
    0x0000000000000000,
    0x0000000000000000,
    0x0000000000000000,
    0x0000000000000000,
    0x0000000000000000,
    0x0000000000000000,
    0x0000000000000000,
    0x0000000000000000,
    0x7E00000000000001,
    0x7E02000000010001,
    0x7E02000000020008,
    0x7E08000000020000,
    0x7E10000000020000,
    0x7E20000000020000,
    0x7E02020203200201,
    0x7E02020203200201,
    0x7E02020202020000,
    0x7E02020201020000,
    0x7E08080803200201,
    0x7E08080803200201,
    0x7E08080802020000,
    0x7E08020203200101,
    0x7E04010101020000,
    0x7E404E4E02020000,
    0x7E08020106080101,
    0x7E04000000020000,
    0x7E04000000020000,
];

// Kinds, a bit each: integers, truth values and sets, as an identifier may be, and pairs. They are no enum: what may stand at
// a place is a set of kinds, asked with one `&`.
pub const INTEGER: usize = 2;

const TRUTH: usize = 4;

pub const SET: usize = 8;

pub const PAIR: usize = 64;

// What a row has in place of a greatest count: the number after the code is below the number of identifiers, or of variables
// bound, or is no count. It shares the column with the counts, so it is no enum.
const IDENTIFIERS: usize = 0;

const VARIABLES: usize = 1;

const NO_COUNT: usize = 2;

// As many operands as the count says.
const COUNTED: usize = 3;

// The whole table.
#[tactic(auto, unfolding(crate::specs::Codes::codes, crate::specs::Mirror::PackedTable::table))]
pub fn node_table() -> &'static [u64; 51]
    ensures { result.now ≡ table }
{
    &TABLE
}

// A row of the table: what the code says of its node.
#[derive(Clone, Copy, PartialEq, Eq)]
pub struct Row(pub u64);

impl Row {
    ghost use Rattle.std.specs.Prelude.{◌≡◌, ℕ, ◌<◌};
    ghost use Rattle.formula.specs.NodeFault.{number_out, number_fault};
    ghost use Rattle.formula.specs.Mirror.PackedTable.{row_at, field, own, lo, lim, kids, binds, first, rest, res, sort, number_in, count_of, binds_of, type_by, root_row};
    ghost use Rattle.formula.specs.Mirror.Bytes.{own_byte};

    // The row of a code; 0 where there is none.
    #[tactic(auto, unfolding(crate::specs::Codes::codes, crate::specs::Mirror::PackedTable::table, crate::specs::Mirror::PackedTable::row_at))]
    pub fn of(code: u8) -> Row
        ensures { result.0 ≡ row_at code }
    {
        Row(TABLE.get(usize::from(code)).copied().unwrap_or(0))
    }

    // The row above a whole formula.
    #[tactic(auto, unfolding(crate::specs::Mirror::PackedTable::root_row))]
    pub fn root(sort: Sort) -> Row
        ensures { result.0 ≡ root_row sort }
    {
        match sort {
            Sort::Predicate => Row(0x0000010100000000),
            Sort::Expression => Row(0x00007E7E00000000),
        }
    }

    // The column that starts at the bit k.
    fn column(self, k: u64) -> usize
        requires { k < 64 }
        ensures value { result ≡ field self.0 k }
        ensures upper_bound { result < 256 }
    {
        field_of(self.0, k)
    }

    // How many bytes follow the code.
    pub fn own_bytes(self) -> usize
        ensures value { result ≡ own self.0 }
        ensures upper_bound { result < 256 }
    {
        self.column(0)
    }

    // The least count.
    fn least(self) -> usize
        ensures { result ≡ lo self.0 }
    {
        self.column(8)
    }

    // The greatest count, or what stands in place of it.
    fn limit(self) -> usize
        ensures { result ≡ lim self.0 }
    {
        self.column(16)
    }

    // The kinds that the first operand may have.
    pub fn first_kinds(self) -> usize
        ensures { result ≡ first self.0 }
    {
        self.column(32)
    }

    // The kinds that the other operands may have; 0: that of the first.
    pub fn other_kinds(self) -> usize
        ensures { result ≡ rest self.0 }
    {
        self.column(40)
    }

    // The node's own kind; 0: its identifier's.
    pub fn kind(self) -> usize
        ensures { result ≡ res self.0 }
    {
        self.column(48)
    }

    // The kinds of the node's sort.
    pub fn sort_kinds(self) -> usize
        ensures { result ≡ sort self.0 }
    {
        self.column(56)
    }

    // The first byte after the code, which would stand at i, or 0 where there is none.
    #[tactic(auto, unfolding(crate::specs::Mirror::Bytes::own_byte))]
    pub fn own_byte(self, s: &[u8], i: usize) -> u8
        ensures { result ≡ own_byte self.0 s.now i }
    {
        if self.own_bytes() == 0 {
            0
        } else {
            small_at(s, i)
        }
    }

    // Whether the number after the code is out of range: no identifier of t, no variable of the d enclosed, or a wrong count.
    #[tactic(auto, unfolding(crate::specs::Mirror::PackedTable::number_in))]
    pub fn is_out(self, n: u8, t: usize, d: usize) -> bool
        ensures { result ≡ number_out (number_in self.0) n t d }
    {
        let n = usize::from(n);
        match self.limit() {
            IDENTIFIERS => t <= n,
            VARIABLES => d <= n,
            NO_COUNT => false,
            most => n < self.least() || most < n,
        }
    }

    // Why a number out of range is refused.
    #[tactic(auto, unfolding(crate::specs::Mirror::PackedTable::number_in))]
    pub fn number_cause(self) -> Cause
        ensures { result ≡ (number_fault (number_in self.0)).cause }
    {
        if self.limit() <= NO_COUNT {
            Cause::Index
        } else {
            Cause::Count
        }
    }

    // How many operands follow; n stands after the code.
    #[tactic(auto, unfolding(crate::specs::Mirror::PackedTable::count_of))]
    pub fn count_of(self, n: u8) -> usize
        ensures value { result ≡ count_of self.0 n }
        ensures upper_bound { result < 256 }
    {
        match self.column(24) % 4 {
            COUNTED => usize::from(n),
            fixed => fixed,
        }
    }

    // How many variables the node declares.
    #[tactic(auto, unfolding(crate::specs::Mirror::PackedTable::binds_of))]
    pub fn binds_of(self, n: u8) -> u8
        ensures { result ≡ binds_of self.0 n }
    {
        if self.column(24) / 4 == 0 { 0 } else { n }
    }

    // The kind of a node, as a bit.
    #[tactic(auto, unfolding(crate::specs::Mirror::PackedTable::type_by))]
    pub fn type_by(self, types: &[u8], n: u8) -> usize
        ensures { result ≡ type_by self.0 types.now n }
    {
        match self.kind() {
            0 => ident_type(types, usize::from(n)),
            kind => kind,
        }
    }
}

// The byte of x that starts at the bit k.
#[tactic(auto, unfolding(crate::specs::Mirror::PackedTable::field))]
pub fn field_of(x: u64, k: u64) -> usize
    requires { k < 64 }
    ensures value { result ≡ field x k }
    ensures upper_bound { result < 256 }
{
    ((x >> k) % 256) as usize
}

// The kind of the identifier n, as a bit.
#[tactic(auto, unfolding(crate::specs::Mirror::PackedTable::ident_type))]
pub fn ident_type(types: &[u8], n: usize) -> usize
    ensures { result ≡ ident_type types.now n }
{
    match types.get(n) {
        None => 0,
        Some(0) => INTEGER,
        Some(1) => TRUTH,
        Some(_) => SET,
    }
}
