// A reader of texts, byte by byte.
#![tactic(auto)]

mod line;
mod token;

ghost use Rattle.std.specs.Prelude.{◌≡◌, ◌+◌, ◌^◌, ◌<◌, ◌≤◌, eqb, if◌then◌else◌};
ghost use Rattle.text_form.specs.Assemble as form;
ghost use Rattle.text_reader.specs.Bounds.{sides_after, ReaderBounded};

use model::values::Sides;
use text_form::{Command, Expected, Given, Reader, Stage, Step};

pub const NEWLINE: u8 = b'\n';

const HASH: u8 = b'#';

// The highest blank: a space, above the control characters.
const BLANK: u8 = b' ';

// Before the first byte.
pub fn start() -> Reader
    ensures value { result ≡ form.start }
{
    Reader {
        line: 1,
        fault: false,
        comment: false,
        token: 0,
        stage: Stage::Start,
        command: Command::Sides,
        place: 0,
        first: 0,
        sides: Sides {
            ahead: 0,
            behind: 0,
        },
        keys: 0,
    }
}

// It stops here.
fn stopped(mut reader: Reader) -> Reader
    ensures value { result ≡ form.stopped reader }
{
    reader.fault = true;
    reader
}

fn commented(mut reader: Reader) -> Reader
    ensures value { result ≡ form.commented reader }
{
    reader.comment = true;
    reader
}

// The unfinished token has one byte more.
fn grown_by(mut reader: Reader, byte: u8) -> Reader
    ensures value { result ≡ form.grown_by reader byte }
{
    reader.token = token::grown(reader.token, byte);
    reader
}

fn silent(reader: Reader) -> Step
    ensures value { result ≡ form.silent reader }
{
    Step {
        reader,
        given: Given::Nothing,
    }
}

// What is expected next: a line, a part of one, or its end.
pub fn expected(reader: Reader) -> Expected
    ensures value { result ≡ form.expected_at reader }
{
    if reader.place == 0 {
        return line::expected(reader.stage);
    }
    if !line::is_keys(reader.command) {
        return line::part(reader.command, reader.place);
    }
    if reader.keys < line::KEYS {
        return Expected::Key;
    }
    Expected::LineEnd
}

// What the first word of a line gives, where it opens or not.
fn opening(opens: bool) -> Given
    ensures value { result ≡ (if opens then Given.Opening else Given.Nothing) }
{
    if opens {
        return Given::Opening;
    }
    Given::Nothing
}

// A line of this command may come, or not.
fn begun_by(reader: Reader, command: Command) -> Step
    ensures value { result ≡ form.begun_by reader command }
{
    let stage = reader.stage;
    if !line::allowed(stage, reader.keys, command) {
        return silent(stopped(reader));
    }
    let given = opening(line::opens(stage, command));
    let reader = Reader {
        fault: false,
        token: 0,
        stage: line::stage_after(command),
        command,
        place: 1,
        first: 0,
        ..reader
    };
    Step { reader, given }
}

// The first word of a line.
fn begun(reader: Reader, token: u64) -> Step
    ensures value { result ≡ form.begun reader token }
{
    match token::command_of(token) {
        Some(command) => begun_by(reader, command),
        None => silent(stopped(reader)),
    }
}

fn place_after(command: Command, place: u8) -> u8
    requires place { place ≤ 4 }
    ensures value { result ≡ (if form.is_keys command then 2 else place + 1) }
{
    if line::is_keys(command) {
        return 2;
    }
    place + 1
}

fn first_after(place: u8, first: u32, value: u32) -> u32
    ensures value { result ≡ (if eqb place 1 then value else first) }
{
    if place == 1 {
        return value;
    }
    first
}

fn sides_after(sides: Sides, command: Command, place: u8, first: u32, value: u32) -> Sides
    ensures value { result ≡ sides_after sides command place first value }
{
    if line::is_sides(command) & (place == 2) {
        return Sides {
            ahead: first,
            behind: value,
        };
    }
    sides
}

fn keys_after(command: Command, keys: u8) -> u8
    requires keys { keys ≤ 64 }
    ensures value { result ≡ (if form.is_keys command then keys + 1 else keys) }
{
    if line::is_keys(command) {
        return keys + 1;
    }
    keys
}

// One part more of the line is read, of this value.
fn part_read(reader: Reader, value: u32) -> Reader
    requires bounds { ReaderBounded reader }
    ensures value { result ≡ form.part_read reader value }
{
    Reader {
        fault: false,
        token: 0,
        place: place_after(reader.command, reader.place),
        first: first_after(reader.place, reader.first, value),
        sides: sides_after(
            reader.sides,
            reader.command,
            reader.place,
            reader.first,
            value,
        ),
        keys: keys_after(reader.command, reader.keys),
        ..reader
    }
}

// The next word of a line.
fn continued(reader: Reader, token: u64) -> Step
    requires bounds { ReaderBounded reader × (1 ≤ reader.place) }
    ensures value { result ≡ form.continued reader token }
{
    let Some(value) = line::value(expected(reader), token) else {
        return silent(stopped(reader));
    };
    let after = part_read(reader, value);
    if reader.place < line::arity(reader.command) {
        return silent(after);
    }
    Step {
        reader: after,
        given: line::given(reader.command, reader.first, value, token),
    }
}

// The end of a token, if there is one.
fn token_ended(reader: Reader) -> Step
    requires bounds { ReaderBounded reader }
    ensures value { result ≡ form.token_ended reader }
{
    if reader.token == 0 {
        return silent(reader);
    }
    if reader.place == 0 {
        return begun(reader, reader.token);
    }
    continued(reader, reader.token)
}

// Whether the line may end here.
fn complete(reader: Reader) -> bool
    ensures value { result ≡ form.complete reader }
{
    (reader.place == 0) | (line::arity(reader.command) < reader.place)
}

fn line_ended(mut reader: Reader) -> Reader
    requires bounds { reader.line + 1 < 2 ^ 64 }
    ensures value { result ≡ form.line_ended reader }
{
    if reader.fault {
        return reader;
    }
    if !complete(reader) {
        return stopped(reader);
    }
    reader.line += 1;
    reader.comment = false;
    reader.token = 0;
    reader.place = 0;
    reader
}

// What a step gives, and its reader changed.
fn after<F: FnOnce(Reader) -> Reader>(step: Step, change: F) -> Step
    requires callable { F.pre change step.reader }
    ensures reader { F.post change step.reader result.reader }
    ensures given { result.given ≡ step.given }
{
    Step {
        reader: change(step.reader),
        given: step.given,
    }
}

// The reader after a byte, and what the byte gives.
pub fn byte_read(reader: Reader, byte: u8) -> Step
    requires bounds { ReaderBounded reader × (reader.line + 1 < 2 ^ 64) }
    ensures value { result ≡ form.byte_read reader byte }
{
    if reader.fault {
        return silent(reader);
    }
    if byte == NEWLINE {
        return after(token_ended(reader), line_ended);
    }
    if reader.comment {
        return silent(reader);
    }
    if byte == HASH {
        return after(token_ended(reader), commented);
    }
    if byte <= BLANK {
        return token_ended(reader);
    }
    silent(grown_by(reader, byte))
}

// The end of a text.
pub fn closed(reader: Reader) -> Step
    ensures value { result ≡ form.closed reader }
{
    if reader.fault {
        return silent(reader);
    }
    match reader.stage {
        Stage::Start | Stage::Events | Stage::End => silent(reader),
        Stage::Sides => silent(stopped(reader)),
        Stage::Keys => Step {
            reader,
            given: Given::Opening,
        },
    }
}
