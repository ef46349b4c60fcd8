//! The registers by their names.
ghost use Rattle.std.specs.Prelude.{◌≡◌, ◌∷◌, IfSome, Some};
ghost use Rattle.rv_insn.specs.Encoding.{IsRegister};
ghost use Rattle.rv_asm.specs.Registers.{register_of, numeral};

use crate::names::first_byte;
use text_parts::lookup;

// The names that begin with one letter each, and the others.
const A_REGISTERS: [(&[u8], u8); 8] = [
    (b"a0", 10),
    (b"a1", 11),
    (b"a2", 12),
    (b"a3", 13),
    (b"a4", 14),
    (b"a5", 15),
    (b"a6", 16),
    (b"a7", 17),
];

const T_REGISTERS: [(&[u8], u8); 8] = [
    (b"t0", 5),
    (b"t1", 6),
    (b"t2", 7),
    (b"t3", 28),
    (b"t4", 29),
    (b"t5", 30),
    (b"t6", 31),
    (b"tp", 4),
];

const S_REGISTERS: [(&[u8], u8); 13] = [
    (b"sp", 2),
    (b"s0", 8),
    (b"s1", 9),
    (b"s2", 18),
    (b"s3", 19),
    (b"s4", 20),
    (b"s5", 21),
    (b"s6", 22),
    (b"s7", 23),
    (b"s8", 24),
    (b"s9", 25),
    (b"s10", 26),
    (b"s11", 27),
];

const X_REGISTERS: [(&[u8], u8); 32] = [
    (b"x0", 0),
    (b"x1", 1),
    (b"x2", 2),
    (b"x3", 3),
    (b"x4", 4),
    (b"x5", 5),
    (b"x6", 6),
    (b"x7", 7),
    (b"x8", 8),
    (b"x9", 9),
    (b"x10", 10),
    (b"x11", 11),
    (b"x12", 12),
    (b"x13", 13),
    (b"x14", 14),
    (b"x15", 15),
    (b"x16", 16),
    (b"x17", 17),
    (b"x18", 18),
    (b"x19", 19),
    (b"x20", 20),
    (b"x21", 21),
    (b"x22", 22),
    (b"x23", 23),
    (b"x24", 24),
    (b"x25", 25),
    (b"x26", 26),
    (b"x27", 27),
    (b"x28", 28),
    (b"x29", 29),
    (b"x30", 30),
    (b"x31", 31),
];

const OTHER_REGISTERS: [(&[u8], u8); 4] = [(b"zero", 0), (b"ra", 1), (b"fp", 8), (b"gp", 3)];

/// The number of one digit, or of two of which the first is no zero.
fn short_number(digits: &[u8]) -> Option<u8>
    ensures { IfSome result (λ number. digits.now ≡ numeral number) }
{
    match digits {
        [one] if *one >= b'0' && *one <= b'9' => Some(*one - b'0'),
        [ten, one] if *ten > b'0' && *ten <= b'9' && *one >= b'0' && *one <= b'9' => {
            Some((*ten - b'0') * 10 + (*one - b'0'))
        }
        _ => None,
    }
}

/// The register of a letter and a number, if it is one.
fn numbered(letter: u8, number: u8) -> Option<u8>
    ensures { IfSome result (λ register. register_of (letter ∷ numeral number) ≡ Some register) }
{
    match letter {
        b'a' if number < 8 => Some(number + 10),
        b't' if number < 3 => Some(number + 5),
        b't' if number < 7 => Some(number + 25),
        b's' if number < 2 => Some(number + 8),
        b's' if number < 12 => Some(number + 16),
        b'x' if number < 32 => Some(number),
        _ => None,
    }
}

/// The register of a name that is a letter and a number, as most are. The others have to be looked up.
fn quick_register(name: &[u8]) -> Option<u8>
    ensures { IfSome result (λ register. register_of name.now ≡ Some register) }
{
    match name {
        [letter, digits @ ..] => numbered(*letter, short_number(digits)?),
        [] => None,
    }
}

/// The register of a name, which is looked up among those of the same first letter.
fn register_in_table(name: &[u8]) -> Option<u8>
    ensures { result ≡ register_of name.now }
{
    let first = first_byte(name);
    if first == b'a' {
        lookup(&A_REGISTERS, name)
    } else if first == b't' {
        lookup(&T_REGISTERS, name)
    } else if first == b's' {
        lookup(&S_REGISTERS, name)
    } else if first == b'x' {
        lookup(&X_REGISTERS, name)
    } else {
        lookup(&OTHER_REGISTERS, name)
    }
}

fn register_named(name: &[u8]) -> Option<u8>
    ensures { result ≡ register_of name.now }
{
    match quick_register(name) {
        Some(register) => Some(register),
        None => register_in_table(name),
    }
}

/// The number of the register of this name.
pub fn register(name: &[u8]) -> Option<u8>
    ensures number { result ≡ register_of name.now }
    ensures small { IfSome result (λ number. IsRegister number) }
{
    register_named(name)
}
