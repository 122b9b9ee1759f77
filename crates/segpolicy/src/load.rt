//! The commands of a load, and the command that three drawn words make.
ghost use Rattle.std.specs.Prelude.{◌≡◌, ◌≤◌};
ghost use Rattle.std.specs.Fmt.{decimal};
ghost use Rattle.segpolicy.specs.Load.{kind_of, key_of_number, load_of};

use segword::{Key, Value};

/// What a command of a load asks.
#[derive(Clone, Copy, Debug, PartialEq, Eq)]
pub enum Kind {
    Get,
    Gets,
    Set,
    Add,
    Replace,
    Cas,
    Delete,
}

/// One command of a load, and not a whole load. Every command has a value, which only a set, an
/// add, a replace and a cas store, and a draw for the frequency, which only a get or a gets that
/// hits uses.
#[derive(Debug, Drop, PartialEq, Eq)]
pub struct Load {
    pub kind: Kind,
    pub key: Key,
    pub value: Value,
    pub draw: u32,
}

// The most decimal digits of a u32.
const DIGITS: usize = 10;

/// The command of three words, over this many keys.
pub(crate) fn load_of(keys: u32, first: u32, second: u32, third: u32) -> Load
    requires { 1 ≤ keys }
    ensures { result ≡ load_of keys first second third }
{
    Load {
        kind: kind_of(second, third),
        key: key_of_number(first % keys),
        value: value_of_number(third),
        draw: third,
    }
}

fn kind_of(second: u32, third: u32) -> Kind
    ensures { result ≡ kind_of second third }
{
    match (second % 8, third % 3) {
        (0..=3, _) => Kind::Get,
        (4, _) => Kind::Gets,
        (5, _) => Kind::Set,
        (6, 0) => Kind::Add,
        (6, 1) => Kind::Replace,
        (6, _) => Kind::Cas,
        _ => Kind::Delete,
    }
}

fn key_of_number(number: u32) -> Key
    ensures { result ≡ key_of_number number }
{
    let mut text = [0; 1 + DIGITS];
    let start = itoa::write_digits(u64::from(number), &mut text, 1 + DIGITS) - 1;
    text[start] = b'k';
    Key::new(&text[start..]).unwrap()
}

fn value_of_number(number: u32) -> Value
    ensures { result ≡ decimal number }
{
    let mut text = [0; DIGITS];
    let start = itoa::write_digits(u64::from(number), &mut text, DIGITS);
    Value::new(&text[start..]).unwrap()
}
