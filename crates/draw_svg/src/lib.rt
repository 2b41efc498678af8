// The elements of the drawing as text of an SVG. Each function puts its text into the lent buffer from `at` on, and
// answers where it ends.
#![tactic(auto)]

pub mod frame;
pub mod node;

ghost use Rattle.std.specs.Prelude.{◌+◌, ◌*◌, ◌≤◌, length};
ghost use Rattle.draw_svg.specs.Room.{Room};

use bench_lines::{put_byte, put_bytes, put_number};
use draw_circle::curve::Half;

// Stands in a text for a number.
const MARK: u8 = b'%';

// Puts the text, with the next of the numbers in the place of each mark.
pub fn put_filled(out: &mut [u8], at: usize, text: &[u8], numbers: &[u64]) -> usize
    requires room { at + length text.now + 19 * length numbers.now ≤ length out.old }
    ensures room { Room out.old out.new at result
        (length text.now + 19 * length numbers.now) }
{
    let mut end = at;
    let mut numbers = numbers.iter();
    for byte in text {
        if *byte != MARK {
            end = put_byte(out, end, *byte);
        } else if let Some(number) = numbers.next() {
            end = put_number(out, end, *number);
        }
    }
    end
}

// Puts the curve and the end of its element.
fn put_curve(out: &mut [u8], at: usize, half: Half) -> usize
    requires room { at + 180 ≤ length out.old }
    ensures room { Room out.old out.new at result 180 }
{
    let Half {
        begin,
        first,
        second,
        end,
    } = half;
    let numbers = [
        begin.x, begin.y, first.x, first.y, second.x, second.y, end.x, end.y,
    ]
    .map(u64::from);
    put_filled(out, at, b"' d='M% %C% % % % % %'/>\n", &numbers)
}

// The class of a group's colour. Colours repeat after eight.
fn colour(group: u8) -> u64 {
    u64::from(group % 8)
}

// Puts the half of a link at the node that holds the other, dashed if that lies outside its leafset.
pub fn put_held(out: &mut [u8], at: usize, half: Half, group: u8, outside: bool) -> usize
    requires room { at + 218 ≤ length out.old }
    ensures room { Room out.old out.new at result 218 }
{
    let class = put_held_class(out, at, colour(group), outside);
    put_curve(out, class, half)
}

// Puts the classes of such a half.
fn put_held_class(out: &mut [u8], at: usize, colour: u64, dashed: bool) -> usize
    requires room { at + 38 ≤ length out.old }
    ensures room { Room out.old out.new at result 38 }
{
    if dashed {
        return put_filled(out, at, b"<path class='h o g%", &[colour]);
    }
    put_filled(out, at, b"<path class='h g%", &[colour])
}

// Puts the half of a link at a node that only is held.
pub fn put_only_held(out: &mut [u8], at: usize, half: Half) -> usize
    requires room { at + 194 ≤ length out.old }
    ensures room { Room out.old out.new at result 194 }
{
    let class = put_bytes(out, at, b"<path class='i");
    put_curve(out, class, half)
}
