//! Parsers for the arguments of a command. Each returns `None` if the argument isn't of its form.
ghost use Rattle.std.specs.Prelude.{◌≡◌, ◌≤◌, ◌^◌, IfSome, Some};
ghost use Rattle.rv_model.specs.commands.Arguments.{
  decimal_number,
  address,
  instruction_address,
  scalar_register,
  vector_register,
  policy_word,
  allowing,
  permissions,
  number_between,
  sew_argument,
};
ghost use Rattle.rv_model.specs.machine.Setup.{user_count};
ghost use Rattle.rv_model.specs.lending.Text.{capped};

use rv_model::text::digits;
use rv_model::{Count, Permissions, Policy, Reg, Sew, USER_COUNT, User, VReg};

/// Larger numbers are parsed as this value, which every parser rejects.
const CAP: u128 = 1 << 64;

/// Return the value of a decimal number without leading zeros, or [`CAP`] for a larger one.
fn decimal_number(word: &[u8]) -> Option<u128>
    ensures { result ≡ capped (2 ^ 64) (decimal_number word.now) }
{
    if let [] | [b'0', _, ..] = word {
        return None;
    }
    digits(10, CAP, word)
}

/// Return the value of a decimal number from `low` to `high`.
fn number(low: usize, high: usize, word: &[u8]) -> Option<usize>
    ensures value { result ≡ number_between low high word.now }
    ensures bound { IfSome result (λ n. n ≤ high) }
{
    let value = decimal_number(word)?;
    if value >= low as u128 && value <= high as u128 {
        Some(value as usize)
    } else {
        None
    }
}

/// Return the value of a decimal number from 1 to `MAX`.
pub fn count<const MAX: usize>(word: &[u8]) -> Option<Count<MAX>>
    ensures { result ≡ number_between 1 MAX word.now }
{
    let count = number(1, MAX, word)?;
    Some(Count::new(count))
}

/// Return a user's number, a decimal number from 1 to `USER_COUNT`.
pub fn user(word: &[u8]) -> Option<User>
    ensures { result ≡ number_between 1 user_count word.now }
{
    let number = number(1, USER_COUNT, word)?;
    User::new(number as u8)
}

/// Return the address written as 1 to 16 hexadecimal digits.
pub fn address(word: &[u8]) -> Option<u64>
    ensures { result ≡ address word.now }
{
    if word.is_empty() || word.len() > 16 {
        return None;
    }
    let value = digits(16, CAP, word)?;
    if value < CAP {
        Some(value as u64)
    } else {
        None
    }
}

/// Return an address, written as in [`address`], that is divisible by 4.
pub fn instruction_address(word: &[u8]) -> Option<u64>
    ensures { result ≡ instruction_address word.now }
{
    let addr = address(word)?;
    if addr % 4 == 0 { Some(addr) } else { None }
}

/// Return the scalar register named `x1` to `x31`.
pub fn scalar_register(word: &[u8]) -> Option<Reg>
    ensures { result ≡ scalar_register word.now }
{
    let [b'x', digits @ ..] = word else {
        return None;
    };
    let register = number(1, 31, digits)?;
    Some(Reg::new(register as u32))
}

/// Return the vector register named `v0` to `v31`.
pub fn vector_register(word: &[u8]) -> Option<VReg>
    ensures { result ≡ vector_register word.now }
{
    let [b'v', digits @ ..] = word else {
        return None;
    };
    let register = number(0, 31, digits)?;
    Some(VReg::new(register as u32))
}

/// Return the element width of `8`, `16`, `32` or `64` bits.
pub fn element_width(word: &[u8]) -> Option<Sew>
    ensures { result ≡ sew_argument word.now }
{
    if word == b"8".as_slice() {
        return Some(Sew::E8);
    }
    if word == b"16".as_slice() {
        return Some(Sew::E16);
    }
    if word == b"32".as_slice() {
        return Some(Sew::E32);
    }
    if word == b"64".as_slice() {
        return Some(Sew::E64);
    }
    None
}

/// Return the policy for agnostic elements: `keep` preserves them, `ones` fills them with ones.
pub fn policy(word: &[u8]) -> Option<Policy>
    ensures { result ≡ policy_word word.now }
{
    if word == b"keep".as_slice() {
        return Some(Policy::Keep);
    }
    if word == b"ones".as_slice() {
        return Some(Policy::Ones);
    }
    None
}

/// Return the permissions of a page that a program may read, write or execute.
fn allowing(read: bool, write: bool, execute: bool) -> Option<Permissions>
    ensures { result ≡ Some (allowing read write execute) }
{
    Some(Permissions {
        read,
        write,
        execute,
    })
}

/// Return the permissions `r`, `w`, `x`, `rw`, `rx`, `wx` or `rwx` of a page.
pub fn permissions(word: &[u8]) -> Option<Permissions>
    ensures { result ≡ permissions word.now }
{
    if word == b"r".as_slice() {
        return allowing(true, false, false);
    }
    if word == b"w".as_slice() {
        return allowing(false, true, false);
    }
    if word == b"x".as_slice() {
        return allowing(false, false, true);
    }
    if word == b"rw".as_slice() {
        return allowing(true, true, false);
    }
    if word == b"rx".as_slice() {
        return allowing(true, false, true);
    }
    if word == b"wx".as_slice() {
        return allowing(false, true, true);
    }
    if word == b"rwx".as_slice() {
        return allowing(true, true, true);
    }
    None
}
