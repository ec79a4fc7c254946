// Commands as lines: a letter, then its numbers, with one space before each.
ghost use Rattle.std.specs.Prelude.{◌≡◌, ℕ, ◌<◌, List, ◌++◌, length, Err, ◌==◌, position, option_map};
ghost use Rattle.catalogue.specs.Refusals.{answer};
ghost use Rattle.console.specs.Grammar.{Exactly, parsed, by_letter, command_of, digits_of, split_of, grow, number_of, three_of, two_of};

use crate::command::Command;
use catalogue::Refusal;

// No command is longer.
const LONGEST: usize = 64;

// The command that a line writes; every other line is refused.
pub fn parse(line: &[u8]) -> Result<Command, Refusal>
    ensures value { answer result ≡ parsed line.now }
    ensures exact { Exactly line.now result }
    ensures short { 64 < length line.now → answer result ≡ Err 16 }
    ensures cut { (rest : List ℕ) → length line.now ≡ 65 → parsed (line.now ++ rest) ≡ answer result }
{
    read(line).ok_or(Refusal::NotCommand)
}

fn read(line: &[u8]) -> Option<Command>
    ensures { result ≡ command_of line.now }
{
    if line.len() > LONGEST {
        return None;
    }
    match line {
        [letter, b' ', fields @ ..] => by_letter(char::from(*letter), fields),
        _ => None,
    }
}

fn by_letter(letter: char, fields: &[u8]) -> Option<Command>
    ensures { result ≡ by_letter letter fields.now }
{
    match letter {
        'n' => number(fields).map(Command::Size),
        'a' => three(fields).map(|(from, to, minutes)| Command::Admit(from, to, minutes)),
        'w' => two(fields).map(|(from, to)| Command::Withdraw(from, to)),
        'h' => number(fields).map(Command::Hold),
        'l' => number(fields).map(Command::Lift),
        'm' => two(fields).map(|(from, to)| Command::Label(from, to)),
        'p' => number(fields).map(Command::Plan),
        _ => None,
    }
}

// Two numbers, and one space between them.
fn two(fields: &[u8]) -> Option<(u32, u32)>
    ensures { result ≡ two_of fields.now }
{
    let (first, rest) = split(fields)?;
    Some((first, number(rest)?))
}

// A number, one space and two more.
fn three(fields: &[u8]) -> Option<(u32, u32, u32)>
    ensures { result ≡ three_of fields.now }
{
    let (first, rest) = split(fields)?;
    let (second, third) = two(rest)?;
    Some((first, second, third))
}

// The number before the first space, and what stands after that space.
fn split(fields: &[u8]) -> Option<(u32, &[u8])>
    ensures { option_map (λ p. (p.0, p.1.now)) result ≡ split_of fields.now }
{
    let end = space(fields)?;
    Some((number(&fields[..end])?, &fields[end + 1..]))
}

// Where the first space stands.
fn space(bytes: &[u8]) -> Option<usize>
    ensures { result ≡ position (λ b. b == 32) bytes.now }
{
    bytes.iter().position(|byte| *byte == b' ')
}

// A decimal number without leading zeros, up to 4294967295.
fn number(bytes: &[u8]) -> Option<u32>
    ensures { result ≡ number_of bytes.now }
{
    match bytes {
        [] | [b'0', _, ..] => None,
        _ => digits(bytes),
    }
}

fn digits(bytes: &[u8]) -> Option<u32>
    ensures { result ≡ digits_of 0 bytes.now }
{
    // a loop: tried over `try_fold`, no proof was found
    let mut sum = 0;
    for byte in bytes {
        sum = grown(sum, *byte)?;
    }
    Some(sum)
}

// The number with one more digit, if the byte is a digit and the number still fits.
fn grown(sum: u32, byte: u8) -> Option<u32>
    ensures { result ≡ grow sum byte }
{
    let digit = char::from(byte).to_digit(10)?;
    sum.checked_mul(10)?.checked_add(digit)
}
