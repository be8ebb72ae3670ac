// A sequent at work, written as a file.
ghost use Rattle.std.specs.Prelude.{◌≡◌, ◌+◌, ◌≤◌, ◌↔◌, IsTrue, length};
ghost use Rattle.buffers.specs.Mirror.Buffers.{FinishIs};
ghost use Rattle.buffers.specs.Mirror.WriteBytes.{Fitting, low_byte, with_header, with_flags, file_on};

use super::Done;
use desk::{Hypotheses, View};
use formula::bytes::copy;
use refusal::{Cause, Said};

// Whether the goal fits after the hypotheses: in 60,000 bytes, and in `room`.
fn fits(h: Hypotheses, goal: &[u8], room: usize) -> bool
    ensures { IsTrue result ↔ Fitting h.entry goal.now room }
{
    let end = h.view.end;
    h.view.hypotheses <= 64
        && end <= h.bytes.len()
        && end <= 60000
        && goal.len() <= 60000 - end
        && end + goal.len() <= room
}

// A number of identifiers or of hypotheses, as its byte; 0 past 255, as the definition has it.
#[tactic(auto, unfolding(crate::specs::Mirror::WriteBytes::low_byte))]
fn low_byte(n: usize) -> u8
    ensures { result ≡ low_byte n }
{
    u8::try_from(n).unwrap_or(0)
}

// The mark, version 1, the numbers of identifiers and hypotheses, and 0: as much of it as there is room for.
#[tactic(auto, unfolding(crate::specs::Mirror::WriteBytes::with_header))]
fn put_header(out: &mut [u8], v: View)
    ensures { out.new ≡ with_header v.identifiers v.hypotheses out.old }
{
    let t = low_byte(v.identifiers);
    let h = low_byte(v.hypotheses);
    let header = [b'S', b'Q', b'T', 1, 0, t, h, 0];
    let n = out.len().min(header.len());
    copy(&header[..n], &mut out[..n]);
}

// The flag byte of each hypothesis, from the masks.
fn put_flags(out: &mut [u8], h: Hypotheses)
    requires { h.view.hypotheses ≤ 64 }
    ensures { out.new ≡ with_flags h.entry.view.hypotheses h.entry.places.now h.entry.view 0 out.old }
{
    for i in 0..h.view.hypotheses {
        let place = h.places[i];
        if place < out.len() {
            out[place] = h.view.flag_byte(i);
        }
    }
}

// Writes the hypotheses with a header and their flags, and the goal after them; answers how many bytes.
fn put_file(h: Hypotheses, goal: &[u8], out: &mut [u8]) -> usize
    requires { Fitting h goal.now (length out.old) }
    ensures value { result ≡ h.entry.view.end + length goal.now }
    ensures out_after { out.new ≡ file_on h.entry goal.now out.old }
{
    let end = h.view.end;
    let len = end + goal.len();
    copy(&h.bytes[..end], &mut out[..end]);
    put_header(out, h.view);
    put_flags(out, h);
    copy(goal, &mut out[end..len]);
    len
}

// Writes a sequent, or 14; nothing is written before the length is known.
pub fn finish(h: Hypotheses, goal: &[u8], changed: bool, out: &mut [u8]) -> Result<Done, Said>
    ensures { FinishIs h.entry goal.now changed out.old out.new result }
{
    if !fits(h, goal, out.len()) {
        return Err(Cause::Room.said());
    }
    let len = put_file(h, goal, out);
    Ok(Done { changed, len })
}
