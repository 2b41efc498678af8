// What every drawing begins with, how one is read, and what is drawn where no ring opens.
ghost use Rattle.std.specs.Prelude.{◌+◌, ◌≤◌, length};
ghost use Rattle.draw_svg.specs.Room.{Room};

use super::put_filled;
use bench_lines::put_bytes;

// Puts the first line, the styles and the ground: styles of the lines and the discs, of the discs of nodes that are off
// and the texts, and the colours of the groups.
pub fn put_head(out: &mut [u8], at: usize) -> usize
    requires room { at + 760 ≤ length out.old }
    ensures room { Room out.old out.new at result 760 }
{
    put_bytes(
        out,
        at,
        b"<svg xmlns='http://www.w3.org/2000/svg' viewBox='0 0 2560 2100' font-family='sans-serif' font-size='24'>
<style>
rect{fill:#fff}
path,circle{fill:none}
.k{stroke:#bbb;stroke-width:2}
.h{stroke:currentColor;stroke-width:5}
.o{stroke-dasharray:14 9}
.i{stroke:#999;stroke-width:2}
.r{fill:currentColor}
.f{fill:#fff;stroke:#999;stroke-width:3;stroke-dasharray:6 4}
.n{fill:#fff;text-anchor:middle}
.m{fill:#777;text-anchor:middle}
.l{fill:currentColor}
.t{font-size:44px}
.g0{color:#1b6ca8}
.g1{color:#c8401e}
.g2{color:#2e8b3d}
.g3{color:#7b3fa0}
.g4{color:#a8760b}
.g5{color:#0f8f8f}
.g6{color:#c2317f}
.g7{color:#5a4a3a}
</style>
<rect width='2560' height='2100'/>
",
    )
}

// Puts the circle on which the keys lie.
pub fn put_circle(out: &mut [u8], at: usize) -> usize
    requires room { at + 100 ≤ length out.old }
    ensures room { Room out.old out.new at result 100 }
{
    put_bytes(
        out,
        at,
        b"<circle class='k' cx='1050' cy='1110' r='920'/>
<text class='m' x='1050' y='180'>key 0</text>
",
    )
}

// Puts how a drawing is read.
pub fn put_reading(out: &mut [u8], at: usize) -> usize
    requires room { at + 220 ≤ length out.old }
    ensures room { Room out.old out.new at result 220 }
{
    put_bytes(
        out,
        at,
        b"<text x='40' y='110'>filled: runs; hollow: off; colour: group</text>
<text x='40' y='142'>thick half of a link: its node holds the other</text>
<text x='40' y='174'>dashed: outside the leafset of its node</text>
",
    )
}

// Puts the end of the drawing.
pub fn put_end(out: &mut [u8], at: usize) -> usize
    requires room { at + 7 ≤ length out.old }
    ensures room { Room out.old out.new at result 7 }
{
    put_bytes(out, at, b"</svg>\n")
}

// Puts a whole drawing that says why there is no ring. The refusal comes as the number that is printed.
pub fn put_refusal(out: &mut [u8], refusal: u32) -> usize
    requires room { 900 ≤ length out.old }
    ensures room { Room out.old out.new 0 result 900 }
{
    let head = put_head(out, 0);
    let label = b"<text class='t' x='40' y='66'>no ring, refusal %";
    let number = put_filled(out, head, label, &[u64::from(refusal)]);
    let words = put_reason(out, number, refusal);
    put_end(out, words)
}

// Puts what a refusal of an opening or of a short ring means.
fn put_reason(out: &mut [u8], at: usize, refusal: u32) -> usize
    requires room { at + 60 ≤ length out.old }
    ensures room { Room out.old out.new at result 60 }
{
    match refusal {
        2 => put_bytes(
            out,
            at,
            b": the first word is at fault, or a key is missing</text>\n",
        ),
        19 => put_bytes(out, at, b": the words are no short ring</text>\n"),
        _ => put_bytes(out, at, b": a key is at fault, or two are equal</text>\n"),
    }
}
