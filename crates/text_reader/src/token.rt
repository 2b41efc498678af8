// Tokens: their bytes as a number, the first the highest.
ghost use Rattle.std.specs.Prelude.{◌≡◌, ◌^◌, ◌<◌, ◌≤◌};
ghost use Rattle.text_form.specs.Assemble as form;
ghost use Rattle.text_form.specs.Names.{at_name};
ghost use Rattle.text_reader.specs.Bounds.{Spells};

use text_form::Command;

// More bytes than a token has.
const TOO_LONG: u64 = u64::MAX;

// The first words of lines, and "at".
mod name {
    pub const SIDES: u64 = 0x73_6964_6573;

    pub const KEYS: u64 = 0x6B65_7973;

    pub const ON: u64 = 0x6F6E;

    pub const OFF: u64 = 0x6F_6666;

    pub const LEAVE: u64 = 0x6C_6561_7665;

    pub const NOTICE: u64 = 0x6E6F_7469_6365;

    pub const CONTACT: u64 = 0x63_6F6E_7461_6374;

    pub const TIMER: u64 = 0x74_696D_6572;

    pub const DELIVER: u64 = 0x64_656C_6976_6572;

    pub const ECHO: u64 = 0x6563_686F;

    pub const LOSE: u64 = 0x6C6F_7365;

    pub const WORD: u64 = 0x776F_7264;

    pub const TAIL: u64 = 0x7461_696C;

    pub const AT: u64 = 0x6174;
}

// The token with one byte more.
pub fn grown(token: u64, byte: u8) -> u64
    ensures value { result ≡ form.grown token byte }
{
    if token < 0x100_0000_0000_0000 {
        token * 256 + u64::from(byte)
    } else {
        TOO_LONG
    }
}

// The digit of a byte, 16 for none.
fn digit(byte: u8) -> u8
    ensures value { result ≡ form.digit_of byte }
    ensures bound { result ≤ 16 }
{
    match byte {
        b'0'..=b'9' => byte - b'0',
        b'A'..=b'F' => byte - b'A' + 10,
        b'a'..=b'f' => byte - b'a' + 10,
        _ => 16,
    }
}

// The number that the token spells to the base, if it spells one.
fn spelled(base: u64, token: u64) -> Option<u32>
    requires base { base ≤ 16 }
    ensures value { Spells (form.spelled base token) result }
{
    let mut rest = token;
    let mut unit = 1;
    let mut value = 0;
    // It goes down the bytes of the number, the lowest first.
    while rest != 0 {
        let next = u64::from(digit((rest % 256) as u8));
        if base <= next {
            return None;
        }
        value += unit * next;
        unit *= base;
        rest /= 256;
    }
    Some(value as u32)
}

pub fn decimal(token: u64) -> Option<u32>
    ensures value { Spells (form.spelled 10 token) result }
{
    spelled(10, token)
}

pub fn hexadecimal(token: u64) -> Option<u32>
    ensures value { Spells (form.spelled 16 token) result }
{
    spelled(16, token)
}

// The command that the token names, if it names one.
pub fn command_of(token: u64) -> Option<Command>
    ensures value { result ≡ form.command_of token }
{
    let command = match token {
        name::SIDES => Command::Sides,
        name::KEYS => Command::Keys,
        name::ON => Command::On,
        name::OFF => Command::Off,
        name::LEAVE => Command::Leave,
        name::NOTICE => Command::Notice,
        name::CONTACT => Command::Contact,
        name::TIMER => Command::Timer,
        name::DELIVER => Command::Deliver,
        name::ECHO => Command::Echo,
        name::LOSE => Command::Lose,
        name::WORD => Command::Word,
        name::TAIL => Command::Tail,
        _ => return None,
    };
    Some(command)
}

pub fn is_at(token: u64) -> bool
    ensures value { result ≡ form.named at_name token }
{
    token == name::AT
}

// How many pairs of digits the token has, 0 where it has not one, two or three of them.
pub fn pairs(token: u64) -> u8
    ensures value { result ≡ form.pairs_of token }
{
    match token {
        0x100..=0xFFFF => 1,
        0x100_0000..=0xFFFF_FFFF => 2,
        0x100_0000_0000..=0xFFFF_FFFF_FFFF => 3,
        _ => 0,
    }
}
