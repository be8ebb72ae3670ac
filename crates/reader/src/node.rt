// One node's own bytes: its code, and its count, index or literal.
use formula::bytes::small_at;
use formula::table::Row;

// What is read of a node before anything is asked of it: its row, the byte after its code, and its type by these.
#[derive(Clone, Copy)]
pub struct Seen {
    pub row: Row,
    pub byte: u8,
    pub ty: usize,
}

impl Seen {
    ghost use Rattle.std.specs.Prelude.{◌≡◌, ℕ, ◌^◌, ◌<◌};
    ghost use Rattle.reader.specs.Mirror.Node.{seen_at};

    // Looks at the node at `at`.
    #[tactic(auto, unfolding(crate::specs::Mirror::Node::seen_at))]
    pub fn at(s: &[u8], types: &[u8], at: usize) -> Seen
        requires { at < 2 ^ 63 }
        ensures { result ≡ seen_at s.now types.now at }
    {
        let row = Row::of(small_at(s, at));
        let byte = row.own_byte(s, at + 1);
        Seen {
            row,
            byte,
            ty: row.type_by(types, byte),
        }
    }
}
